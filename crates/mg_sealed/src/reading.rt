//! Frames of a sealed file.

ghost use Rattle.std.specs.Prelude.{◌≡◌, ◌+◌, ◌-◌, ◌<◌, ◌≤◌, ◌^◌, ◌⊎◌, length, take, drop, IfOk, IfErr, IfSome, MatchResult, Ok, Err};
ghost use Rattle.mg_faults.specs.Causes.{HasCause, CountsOnce};
ghost use Rattle.mg_frame.specs.Frame.{said_number, taken, StandsAt};
ghost use Rattle.mg_sealed.specs.Answers.{Answers, IsOutside};
ghost use Rattle.mg_sealed.specs.Footer.{footer_body, judged_footer, said_blocks};
ghost use Rattle.mg_sealed.specs.Reading.{body_or_damage, frame_body, needed, opened, IsDamageAt, IsEnough};

use crate::errors::{damaged, malformed, read_fault};
use mg_disk::Files;
use mg_frame::{FRAME_HEADER, FRAME_OVERHEAD, Taken, get_u32, get_u64, take_frame};
use mg_types::{Fault, FileId};
use std::alloc::{AllocError, Global};
use std::marker::Model;

/// A sealed file with the length that is kept of it.
#[derive(Drop)]
pub struct SealedFile<S> {
    /// What faults call the file.
    pub id: FileId,
    pub file: S,
    /// Its length in bytes.
    pub len: u64,
}

/// A frame that was read and judged. Contracts see it as its body.
#[derive(Drop)]
pub struct Frame {
    bytes: Vec<u8>,
    start: usize,
    end: usize,
}

impl Model for Frame {
    ghost use Rattle.std.specs.Prelude.{ℕ, ◌≤◌, List, length, slice_range};

    ghost Value = { List ℕ };

    ghost view = { λ frame. slice_range frame.bytes.items frame.start frame.end };

    ghost invariant = { λ frame. (frame.start ≤ frame.end) × (frame.end ≤ length frame.bytes.items) };
}

impl Frame {
    pub fn body(&self) -> &[u8]
        ensures { result.now ≡ self.now }
    {
        &self.bytes[self.start..self.end]
    }

    /// The body in the memory that was read, at whose front it is put. Takes no memory.
    pub fn into_body(self) -> Vec<u8>
        ensures { result.items ≡ self }
    {
        let Frame {
            mut bytes,
            start,
            end,
        } = self;
        bytes.copy_within(start..end, 0);
        bytes.truncate(end - start);
        bytes
    }

    /// The memory that was read, which another read may fill again.
    pub(crate) fn into_buffer(self) -> Vec<u8> {
        self.bytes
    }
}

/// Judges a file's length: that it is the length `len` which is kept of the file, and at least `least`, the length of the
/// frame that ends a file of its kind. Reads nothing of the file.
#[tactic(auto, unfolding(crate::specs::Reading::opened))]
pub fn open_sealed<F: Files>(
    alloc: Global,
    port: &mut F,
    id: FileId,
    file: F::Sealed,
    len: u64,
    least: u64,
) -> Result<SealedFile<F::Sealed>, Fault>
    ensures told { IfSome (F.told file) (λ bytes. Answers (opened id file len least bytes) result) }
    ensures refusals { IfErr result (λ fault. IsOutside fault ⊎ IsDamageAt id 0 fault) }
    ensures same { IfOk result (λ opened. opened ≡ record { id = id; file = file; len = len }) }
    ensures least { IfOk result (λ opened. least ≤ opened.len) }
    ensures cause { HasCause Fault.ReadFault (F.faults port.old) (F.faults port.new) result }
    ensures once { CountsOnce (F.faults port.old) (F.faults port.new) result }
{
    let found = port.len(alloc, &file).map_err(read_fault)?;
    if found != len {
        return Err(damaged(id, 0, len, found));
    }
    if found < least {
        return Err(damaged(id, 0, least, found));
    }
    Ok(SealedFile { id, file, len })
}

/// Reads the frame of this number at an offset, and judges it: first whether it lies within the file, then its number, then
/// its digest. `expected` is how long the whole frame may be thought to be: so many bytes are read at once, and where the
/// frame is longer, it is read again. It takes memory for the frame alone, or for `expected` bytes.
pub fn read_frame<F: Files>(
    alloc: Global,
    port: &mut F,
    file: &SealedFile<F::Sealed>,
    at: u64,
    expected: usize,
    number: u64,
) -> Result<Frame, Fault>
    requires { at < 2 ^ 62 }
    ensures told { IfSome (F.told file.now.file) (λ bytes. file.now.len ≡ length bytes →
        Answers (frame_body file.now.id bytes at number) result) }
    ensures stands { IfSome (F.told file.now.file) (λ bytes. file.now.len ≡ length bytes →
        IfOk result (λ body. StandsAt bytes at (number, body))) }
    ensures refusals { IfErr result (λ fault. IsOutside fault ⊎ IsDamageAt file.now.id at fault) }
    ensures cause { HasCause Fault.ReadFault (F.faults port.old) (F.faults port.new) result }
    ensures once { CountsOnce (F.faults port.old) (F.faults port.new) result }
{
    read_frame_into(alloc, port, file, at, expected, number, Vec::new(alloc))
}

/// `read_frame` into memory that is lent. It takes more where that does not suffice.
pub(crate) fn read_frame_into<F: Files>(
    alloc: Global,
    port: &mut F,
    file: &SealedFile<F::Sealed>,
    at: u64,
    expected: usize,
    number: u64,
    buffer: Vec<u8>,
) -> Result<Frame, Fault>
    requires { at < 2 ^ 62 }
    ensures told { IfSome (F.told file.now.file) (λ bytes. file.now.len ≡ length bytes →
        Answers (frame_body file.now.id bytes at number) result) }
    ensures stands { IfSome (F.told file.now.file) (λ bytes. file.now.len ≡ length bytes →
        IfOk result (λ body. StandsAt bytes at (number, body))) }
    ensures refusals { IfErr result (λ fault. IsOutside fault ⊎ IsDamageAt file.now.id at fault) }
    ensures cause { HasCause Fault.ReadFault (F.faults port.old) (F.faults port.new) result }
    ensures once { CountsOnce (F.faults port.old) (F.faults port.new) result }
{
    let bytes = read_enough(alloc, port, file, at, expected, buffer)?;
    judge(file.id, at, file.len, number, bytes)
}

/// Reads the footer, the frame that ends the file, and judges it: first whether it is whole, then the length of its body,
/// then its number. The whole frame has `size` bytes, and its body ends in the number of the file's blocks (u32); behind
/// these stand `others` more frames, and then the footer. A body of another length is malformed. It takes memory for the frame.
pub fn read_footer<F: Files>(
    alloc: Global,
    port: &mut F,
    file: &SealedFile<F::Sealed>,
    size: u64,
    others: u64,
) -> Result<Frame, Fault>
    requires size { 24 ≤ size }
    requires within { size ≤ file.now.len }
    requires place { file.now.len < 2 ^ 62 }
    requires others { others < 2 ^ 32 }
    ensures told { IfSome (F.told file.now.file) (λ bytes. file.now.len ≡ length bytes →
        Answers (footer_body file.now.id bytes size others) result) }
    ensures stands { IfSome (F.told file.now.file) (λ bytes. file.now.len ≡ length bytes →
        IfOk result (λ body. StandsAt bytes (file.now.len - size) (said_blocks body + others, body))) }
    ensures len { IfOk result (λ body. length body + 20 ≡ size) }
    ensures refusals { IfErr result (λ fault. IsOutside fault ⊎ IsDamageAt file.now.id (file.now.len - size) fault
        ⊎ (fault ≡ Fault.Malformed file.now.id (file.now.len - size))) }
    ensures cause { HasCause Fault.ReadFault (F.faults port.old) (F.faults port.new) result }
    ensures once { CountsOnce (F.faults port.old) (F.faults port.new) result }
{
    let at = file.len - size;
    let bytes = read_enough(alloc, port, file, at, size as usize, Vec::new(alloc))?;
    let stored = stored_number(&bytes);
    let footer = judge(file.id, at, file.len, stored, bytes)?;
    judge_footer(file.id, at, size, others, stored, footer)
}

/// Reads as much from an offset on as the frame needs that begins there, as far as the file has it.
fn read_enough<F: Files>(
    alloc: Global,
    port: &mut F,
    file: &SealedFile<F::Sealed>,
    at: u64,
    expected: usize,
    buffer: Vec<u8>,
) -> Result<Vec<u8>, Fault>
    ensures told { IfSome (F.told file.now.file) (λ bytes. file.now.len ≡ length bytes →
        IfOk result (λ piece. IsEnough (drop at bytes) piece.items)) }
    ensures outside { IfErr result (λ fault. IsOutside fault) }
    ensures cause { HasCause Fault.ReadFault (F.faults port.old) (F.faults port.new) result }
    ensures once { CountsOnce (F.faults port.old) (F.faults port.new) result }
{
    let left = file.len.saturating_sub(at);
    let first = left.min(expected.max(FRAME_HEADER) as u64);
    let piece = read_piece(alloc, port, file, at, first as usize, buffer)?;
    let needed = needed(&piece);
    if needed <= piece.len() as u64 || needed > left {
        return Ok(piece);
    }
    read_piece(alloc, port, file, at, needed as usize, piece)
}

/// Reads the `size` bytes from an offset on, or as many of them as the file has. What was in the buffer is overwritten; only
/// bytes by which it grows are set to zero before.
fn read_piece<F: Files>(
    alloc: Global,
    port: &mut F,
    file: &SealedFile<F::Sealed>,
    at: u64,
    size: usize,
    buffer: Vec<u8>,
) -> Result<Vec<u8>, Fault>
    ensures told { IfSome (F.told file.now.file) (λ bytes. IfOk result (λ piece. piece.items ≡ take size (drop at bytes))) }
    ensures outside { IfErr result (λ fault. IsOutside fault) }
    ensures cause { HasCause Fault.ReadFault (F.faults port.old) (F.faults port.new) result }
    ensures once { CountsOnce (F.faults port.old) (F.faults port.new) result }
{
    let mut bytes = sized(buffer, size)?;
    let count = port
        .read(alloc, &file.file, at, &mut bytes)
        .map_err(read_fault)?;
    bytes.truncate(count);
    Ok(bytes)
}

/// The buffer with so many bytes.
fn sized(mut buffer: Vec<u8>, size: usize) -> Result<Vec<u8>, AllocError>
    ensures { IfOk result (λ bytes. length bytes.items ≡ size) }
{
    buffer.resize(size, 0)?;
    Ok(buffer)
}

/// How many bytes the frame needs that the bytes begin, or its front where they are shorter than that.
#[tactic(auto, unfolding(crate::specs::Reading::needed, mg_frame::specs::BigEndian::front_number, mg_frame::specs::Frame::said_length))]
fn needed(bytes: &[u8]) -> u64
    ensures needed { result ≡ needed bytes.now }
    ensures bound { result < 2 ^ 33 }
{
    match get_u32(bytes, 0) {
        Some(body) if bytes.len() >= FRAME_HEADER => u64::from(body) + FRAME_OVERHEAD as u64,
        _ => FRAME_HEADER as u64,
    }
}

/// Judges the frame that the bytes begin, which stand at an offset of a file.
fn judge(id: FileId, at: u64, len: u64, number: u64, bytes: Vec<u8>) -> Result<Frame, Fault>
    requires { at < 2 ^ 62 }
    ensures judged { MatchResult result
        (λ body. body_or_damage id at len bytes.items (taken bytes.items 0 number) ≡ Ok body)
        (λ fault. body_or_damage id at len bytes.items (taken bytes.items 0 number) ≡ Err fault) }
    ensures stands { IfOk result (λ body. StandsAt bytes.items 0 (number, body)) }
{
    match take_frame(&bytes, 0, number) {
        Taken::Whole { start, end, .. } => Ok(Frame { bytes, start, end }),
        Taken::End => Err(damaged(id, at, at + FRAME_HEADER as u64, len)),
        Taken::Short { .. } => Err(damaged(id, at, at + needed(&bytes), len)),
        Taken::Number { kept, asked } => Err(damaged(id, at, kept, asked)),
        Taken::Torn { kept, found } => Err(damaged(id, at, kept, found)),
    }
}

/// The number that stands in the frame which the bytes begin.
#[tactic(auto, unfolding(mg_frame::specs::BigEndian::front_number, mg_frame::specs::Frame::said_number))]
fn stored_number(bytes: &[u8]) -> u64
    ensures { 12 ≤ length bytes.now → result ≡ said_number bytes.now }
{
    if bytes.len() < FRAME_HEADER {
        return 0;
    }
    get_u64(bytes, 4).unwrap_or(0)
}

/// How many blocks a footer's body says.
#[tactic(auto, unfolding(crate::specs::Footer::said_blocks, mg_frame::specs::BigEndian::front_number))]
fn said_blocks(body: &[u8]) -> u32
    requires { 4 ≤ length body.now }
    ensures { result ≡ said_blocks body.now }
{
    get_u32(body, body.len() - 4).unwrap_or(0)
}

/// Judges a footer that is whole and has the number `stored`, and stands at an offset of a file.
fn judge_footer(
    id: FileId,
    at: u64,
    size: u64,
    others: u64,
    stored: u64,
    footer: Frame,
) -> Result<Frame, Fault>
    requires size { 24 ≤ size }
    requires others { others < 2 ^ 32 }
    ensures judged { MatchResult result
        (λ body. judged_footer id at size others stored (Ok footer) ≡ Ok body)
        (λ fault. judged_footer id at size others stored (Ok footer) ≡ Err fault) }
    ensures same { IfOk result (λ body. (body ≡ footer) × (stored ≡ said_blocks body + others)) }
    ensures len { IfOk result (λ body. length body + 20 ≡ size) }
    ensures refusals { IfErr result (λ fault. IsDamageAt id at fault ⊎ (fault ≡ Fault.Malformed id at)) }
{
    let body = footer.body();
    if body.len() as u64 + FRAME_OVERHEAD as u64 != size {
        return Err(malformed(id, at));
    }
    let asked = u64::from(said_blocks(body)) + others;
    if stored != asked {
        return Err(damaged(id, at, stored, asked));
    }
    Ok(footer)
}
