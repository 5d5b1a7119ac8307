//! A script: a line for each call.

ghost use Rattle.std.specs.Prelude.{◌≡◌, ◌≤◌, ◌*◌, length, IfErr, IfOk, Ok};
ghost use Rattle.std.specs.List.{All};
ghost use Rattle.mg_script.specs.Lines.{script_text};
ghost use Rattle.mg_script.specs.Script.{fields_of, Gives, IsLine, line_of, located, Refuses, script_of};

use crate::fields::{Fields, LineError};
use crate::pieces::cut;
use mg_model::{Call, Fault, Why};
use std::alloc::Global;

/// A client's call on a partition.
#[derive(Debug, Drop)]
pub struct Line {
    /// 0 to 15.
    pub client: u8,
    pub part: u16,
    pub call: Call,
}

/// The bytes of the shortest line, as `0 sync 0`, with its line feed.
const SHORTEST_LINE: usize = 9;

/// The calls of a script over so many partitions. Its cost is linear in the bytes, and its memory is that of
/// the calls.
///
/// A line that is no call is [`Fault::BadLine`], with the number of the first such line, from 1, and its first
/// field that is missing or wrong.
pub fn read_script(alloc: Global, bytes: &[u8], parts: u16) -> Result<Vec<Line>, Fault>
    ensures ok { IfOk result (λ lines. script_of parts bytes.now ≡ Ok lines.items) }
    ensures spelled { IfOk result (λ lines. bytes.now ≡ script_text lines.items) }
    ensures err { IfErr result (λ fault. Refuses fault (script_of parts bytes.now)) }
    ensures lines { IfOk result (λ lines. All (IsLine parts) lines.items) }
    ensures few { IfOk result (λ lines. length lines.items ≤ length bytes.now) }
{
    let mut lines = Vec::with_capacity(alloc, line_count(bytes))?;
    let mut rest = bytes;
    while !rest.is_empty() {
        let number = lines.len() as u64 + 1;
        let (piece, behind) = cut(rest, b'\n');
        let Some(behind) = behind else {
            return Err(Fault::BadLine {
                line: number,
                why: Why::Ending,
            });
        };
        match read_line(alloc, piece, parts) {
            Ok(line) => lines.push(line)?,
            Err(error) => return Err(fault_at(number, error)),
        }
        rest = behind;
    }
    Ok(lines)
}

/// No more lines than this can be calls.
fn line_count(bytes: &[u8]) -> usize
    ensures { 9 * result ≤ length bytes.now }
{
    let line_feeds = bytes.iter().filter(|byte| **byte == b'\n').count();
    line_feeds.min(bytes.len() / SHORTEST_LINE)
}

#[tactic(auto, unfolding(crate::specs::Script::line_of))]
fn read_line(alloc: Global, line: &[u8], parts: u16) -> Result<Line, LineError>
    ensures line { Gives (λ line. line) result (line_of parts (fields_of line.now)) }
    ensures form { IfOk result (IsLine parts) }
{
    let mut fields = Fields::of(line);
    let client = fields.client()?;
    let verb = fields.verb()?;
    let part = fields.part(parts)?;
    let call = fields.call(alloc, verb)?;
    fields.end()?;
    Ok(Line { client, part, call })
}

fn fault_at(line: u64, error: LineError) -> Fault
    ensures { result ≡ located line error }
{
    match error {
        LineError::NoMemory => Fault::NoMemory,
        LineError::Wrong(why) => Fault::BadLine { line, why },
    }
}
