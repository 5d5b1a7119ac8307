//! The records of a block.

ghost use Rattle.std.specs.Prelude.{◌≡◌, ◌+◌, ◌<◌, ◌≤◌, ◌⊎◌, ◌++◌, length, IfOk, IfErr};
ghost use Rattle.mg_records.specs.Lookup.{IsBodyRefused, IsFilledBlock, IsFoundIn, IsRecordUnfit, IsScanned, IsSplit, IsUnfilled, IsUnfitFor};

use crate::record::Record;
use mg_frame::split_u64;
use mg_sealed::{BLOCK_LIMIT, check_numbers, malformed};
use mg_types::{Fault, FileId};
use std::alloc::Global;

/// What is kept of a block.
#[derive(Clone, Copy)]
pub struct Span {
    /// Its file, as faults name it.
    pub file: FileId,
    /// The offset of its frame.
    pub at: u64,
    /// The whole length of that frame in bytes.
    pub len: u32,
    /// Its first number.
    pub first: u64,
    /// Its numbers are below this one.
    pub end: u64,
}

impl Span {
    /// The fault of a block that is outside its grammar.
    fn malformed(&self) -> Fault
        ensures { result ≡ Fault.Malformed self.now.file self.now.at }
    {
        malformed(self.file, self.at)
    }
}

/// A record's number and contents, and the bytes that follow it.
#[derive(Clone, Copy)]
pub(crate) struct Split<'a> {
    pub(crate) number: u64,
    pub(crate) contents: &'a [u8],
    pub(crate) rest: &'a [u8],
}

/// The record of this number in the body of a block. Takes memory for that record alone, and looks at no record behind it.
pub(crate) fn find_in_block<R: Record>(
    alloc: Global,
    span: &Span,
    body: &[u8],
    number: u64,
) -> Result<Option<R>, Fault>
    requires first { 1 ≤ span.now.first }
    requires order { span.now.first < span.now.end }
    ensures found { IfOk result (λ found. IsFoundIn R.kind number span.now body.now found) }
    ensures refusals { IfErr result (λ fault. (fault ≡ Fault.NoMemory) ⊎ IsUnfitFor R.kind number span.now body.now fault) }
{
    check_filled::<R>(span, BLOCK_LIMIT, body)?;
    let mut rest = body;
    let mut low = span.first;
    let mut bound = span.first + 1;
    while !rest.is_empty() {
        let next = split_record::<R>(span, low, bound, rest)?;
        if next.number == number {
            return Ok(Some(R::take(alloc, next.number, next.contents)?));
        }
        low = next.number + 1;
        bound = span.end;
        rest = next.rest;
    }
    Ok(None)
}

/// Appends the records of a block, behind one whose body has `before` bytes, whose numbers are above `after`. The answer is the last
/// number of the block.
pub(crate) fn scan_block<R: Record>(
    alloc: Global,
    span: &Span,
    before: usize,
    body: &[u8],
    after: u64,
    records: &mut Vec<R>,
) -> Result<u64, Fault>
    requires first { 1 ≤ span.now.first }
    requires order { span.now.first < span.now.end }
    ensures scanned { IfOk result (λ last. IsScanned R.kind before span.now after body.now records.old.items records.new.items last) }
    ensures refusals { IfErr result (λ fault. (fault ≡ Fault.NoMemory) ⊎ IsBodyRefused R.kind before span.now body.now fault) }
{
    check_filled::<R>(span, before, body)?;
    let mut rest = body;
    let mut low = span.first;
    let mut bound = span.first + 1;
    while !rest.is_empty() {
        let next = split_record::<R>(span, low, bound, rest)?;
        if next.number > after {
            records.push(R::take(alloc, next.number, next.contents)?)?;
        }
        low = next.number + 1;
        bound = span.end;
        rest = next.rest;
    }
    Ok(low - 1)
}

/// Judges the first record of a block, and that the block is filled as blocks are: the record had no room in the block before it,
/// whose body has `before` bytes, and a block of several records is not too long.
fn check_filled<R: Record>(span: &Span, before: usize, body: &[u8]) -> Result<(), Fault>
    requires first { 1 ≤ span.now.first }
    requires order { span.now.first < span.now.end }
    ensures filled { IfOk result (λ _. IsFilledBlock R.kind before span.now.first body.now) }
    ensures refusals { IfErr result (λ fault. IsBodyRefused R.kind before span.now body.now fault) }
    ensures first_refusals { IfErr result (λ fault. IsUnfilled R.kind before span.now body.now fault
        ⊎ IsRecordUnfit R.kind span.now.file span.now.at span.now.first (span.now.first + 1) body.now fault) }
{
    let first = split_record::<R>(span, span.first, span.first + 1, body)?;
    let len = body.len() - first.rest.len();
    if before <= BLOCK_LIMIT && before + len <= BLOCK_LIMIT {
        return Err(span.malformed());
    }
    if body.len() > BLOCK_LIMIT && !first.rest.is_empty() {
        return Err(span.malformed());
    }
    Ok(())
}

/// The record at the front of bytes of a block. Its number is from `low` on and below `bound`.
fn split_record<'a, R: Record>(
    span: &Span,
    low: u64,
    bound: u64,
    bytes: &'a [u8],
) -> Result<Split<'a>, Fault>
    requires { 1 ≤ low }
    ensures spelled { IfOk result (λ split. IsSplit R.kind low bound bytes.now split.number split.contents.now split.rest.now) }
    ensures shorter { IfOk result (λ split. length split.rest.now < length bytes.now) }
    ensures refusals { IfErr result (λ fault. IsRecordUnfit R.kind span.now.file span.now.at low bound bytes.now fault) }
{
    let Some((number, rest)) = split_u64(bytes) else {
        return Err(span.malformed());
    };
    check_numbers(span.file, span.at, &[number])?;
    if number < low || number >= bound {
        return Err(span.malformed());
    }
    let Some(len) = R::measure(rest) else {
        return Err(span.malformed());
    };
    let (contents, rest) = rest.split_at(len);
    Ok(Split {
        number,
        contents,
        rest,
    })
}
