//! The whole input.

ghost use Rattle.std.specs.Prelude.{◌≡◌, ◌+◌, ◌-◌, ◌≤◌, ◌<◌, length, MatchResult, OnOk};
ghost use Rattle.mg_run.specs.Runs.{FailsRead, ReadsAll, script_limit, StopsReading, TakesPiece};

use mg_io::{IoError, Source};
use mg_model::Fault;
use std::alloc::Global;

/// The most bytes of a script.
pub const SCRIPT_LIMIT: usize = 67_108_864;

/// How many bytes are asked for at once.
const PIECE: usize = 16_384;

/// All bytes of the input, up to its end.
///
/// `TooLong` comes once one byte more than the limit was taken, and `ReadFault` where a read failed before that.
pub fn read_all<S: Source>(alloc: Global, input: &mut S) -> Result<Vec<u8>, Fault>
    ensures good { OnOk result (S.faults input.new ≡ S.faults input.old) }
    ensures read { MatchResult result (λ bytes. ReadsAll (S.left input.old) (S.left input.new) bytes.items)
        (λ fault. StopsReading (S.left input.old) (S.left input.new) (S.faults input.old) (S.faults input.new) fault) }
{
    let mut bytes = Vec::new(alloc);
    let mut buffer = [0u8; PIECE];
    while bytes.len() <= SCRIPT_LIMIT {
        match read_piece(input, &mut buffer, &mut bytes) {
            Ok(0) => return Ok(bytes),
            Ok(_) => {}
            Err(fault) => return Err(fault),
        }
    }
    Err(Fault::TooLong {
        limit: SCRIPT_LIMIT as u64,
    })
}

/// Reads once, and appends what was read. It never takes more than one byte past the limit.
fn read_piece<S: Source>(
    input: &mut S,
    buffer: &mut [u8],
    bytes: &mut Vec<u8>,
) -> Result<usize, Fault>
    requires room { 1 ≤ length buffer.old }
    requires limit { length bytes.old.items ≤ script_limit }
    ensures later { S.faults input.old ≤ S.faults input.new }
    ensures good { OnOk result (S.faults input.new ≡ S.faults input.old) }
    ensures taken { MatchResult result (λ count. TakesPiece (S.left input.old) (S.left input.new) bytes.old.items bytes.new.items count)
        (λ fault. FailsRead (S.left input.old) (S.left input.new) (script_limit + 1 - length bytes.old.items) (S.faults input.old) (S.faults input.new) fault) }
{
    let room = (SCRIPT_LIMIT + 1 - bytes.len()).min(buffer.len());
    let piece = &mut buffer[..room];
    let count = match input.read(piece) {
        Ok(count) => count,
        Err(IoError::NoMemory) => return Err(Fault::NoMemory),
        Err(IoError::Failed) => return Err(Fault::ReadFault),
    };
    bytes.extend_from_slice(&piece[..count])?;
    Ok(count)
}
