//! The footer: the counts of a file, and where its index and its filter stand.

ghost use Rattle.std.specs.Prelude.{◌≡◌, ◌<◌, ◌^◌, ◌++◌, ℕ, List, Option, OnOk, IfErr, IfOk, IfSome, IsSome, MatchResult, Some, is_some};
ghost use Rattle.mg_indexed.specs.Footer.{counts_bytes, filter_field, footer_bytes, offset_of, offsets_bytes, span_bytes, IsFooter, IsFooterUnfit, IsInFields, footer_numbers};
ghost use Rattle.mg_sealed.specs.Numbers.{AreKept, IsTooGreat};
ghost use Rattle.mg_indexed.specs.declared.footer.Footer.{Footer};

use mg_frame::{put_u8, put_u32, put_u64, split_u8, split_u32, split_u64};
use mg_sealed::{check_numbers, malformed};
use mg_types::{Fault, FileId};
use std::alloc::{AllocError, Global};

/// The format that is written and read here.
const FORMAT: u8 = 1;

/// What the footer of a file says.
#[derive(Clone, Copy, Debug, PartialEq, Eq)]
pub struct Footer {
    /// The number of items.
    pub count: u64,
    /// The sum of their sizes.
    pub sum: u64,
    /// Of records the first sequence number, of a table the number above which its interval begins.
    pub low: u64,
    /// Of records the last sequence number, of a table that up to which its interval goes.
    pub high: u64,
    /// The offset of the index frame, where the blocks end.
    pub index_at: u64,
    /// The offset of the filter frame, in files that have one.
    pub filter_at: Option<u64>,
    /// The number of blocks.
    pub blocks: u32,
}

/// What a footer says of the items of a file, as `Footer` has it.
#[derive(Clone, Copy, Debug, PartialEq, Eq)]
pub struct Summary {
    pub count: u64,
    pub sum: u64,
    pub low: u64,
    pub high: u64,
}

/// Appends the format and the counts.
fn put_counts(footer: &Footer, out: &mut Vec<u8>) -> Result<(), AllocError>
    ensures { OnOk result (out.new.items ≡ out.old.items ++ counts_bytes footer.now.count footer.now.sum) }
{
    put_u8(FORMAT, out)?;
    put_u64(footer.count, out)?;
    put_u64(footer.sum, out)
}

/// Appends the two numbers.
fn put_span(footer: &Footer, out: &mut Vec<u8>) -> Result<(), AllocError>
    ensures { OnOk result (out.new.items ≡ out.old.items ++ span_bytes footer.now.low footer.now.high) }
{
    put_u64(footer.low, out)?;
    put_u64(footer.high, out)
}

/// Appends the offset of a filter, where there is one.
fn put_filter_at(filter_at: Option<u64>, out: &mut Vec<u8>) -> Result<(), AllocError>
    ensures { OnOk result (out.new.items ≡ out.old.items ++ filter_field filter_at) }
{
    match filter_at {
        Some(at) => put_u64(at, out),
        None => Ok(()),
    }
}

/// Appends the offsets and the number of blocks.
fn put_offsets(footer: &Footer, out: &mut Vec<u8>) -> Result<(), AllocError>
    ensures { OnOk result (out.new.items ≡ out.old.items ++ offsets_bytes footer.now.index_at footer.now.filter_at footer.now.blocks) }
{
    put_u64(footer.index_at, out)?;
    put_filter_at(footer.filter_at, out)?;
    put_u32(footer.blocks, out)
}

/// The body of the footer's frame.
pub fn footer_body(alloc: Global, footer: &Footer) -> Result<Vec<u8>, AllocError>
    ensures { IfOk result (λ body. body.items ≡ footer_bytes footer.now) }
{
    let mut body = Vec::new(alloc);
    put_counts(footer, &mut body)?;
    put_span(footer, &mut body)?;
    put_offsets(footer, &mut body)?;
    Ok(body)
}

/// The number of items and the sum of their sizes, behind a format that is the one read here, and what follows them.
fn split_counts(bytes: &[u8]) -> Option<((u64, u64), &[u8])>
    ensures split { IfSome result (λ split. bytes.now ≡ counts_bytes split.0.0 split.0.1 ++ split.1.now) }
    ensures written { (count sum : ℕ) (rest : List ℕ) → count < 2 ^ 64 → sum < 2 ^ 64 → bytes.now ≡ counts_bytes count sum ++ rest →
        IsSome result × IfSome result (λ split. (split.0 ≡ (count, sum)) × (split.1.now ≡ rest)) }
{
    let (format, rest) = split_u8(bytes)?;
    if format != FORMAT {
        return None;
    }
    let (count, rest) = split_u64(rest)?;
    let (sum, rest) = split_u64(rest)?;
    Some(((count, sum), rest))
}

/// The two numbers, and what follows them.
fn split_span(bytes: &[u8]) -> Option<((u64, u64), &[u8])>
    ensures split { IfSome result (λ split. bytes.now ≡ span_bytes split.0.0 split.0.1 ++ split.1.now) }
    ensures written { (low high : ℕ) (rest : List ℕ) → low < 2 ^ 64 → high < 2 ^ 64 → bytes.now ≡ span_bytes low high ++ rest →
        IsSome result × IfSome result (λ split. (split.0 ≡ (low, high)) × (split.1.now ≡ rest)) }
{
    let (low, rest) = split_u64(bytes)?;
    let (high, rest) = split_u64(rest)?;
    Some(((low, high), rest))
}

/// The offset of a filter, of a file that has one, and what follows it.
fn split_filter_at(bytes: &[u8], filtered: bool) -> Option<(Option<u64>, &[u8])>
    ensures split { IfSome result (λ split. bytes.now ≡ filter_field split.0 ++ split.1.now) }
    ensures fits { IfSome result (λ split. (offset_of split.0 < 2 ^ 64) × (is_some split.0 ≡ filtered)) }
    ensures written { (filter_at : Option ℕ) (rest : List ℕ) → offset_of filter_at < 2 ^ 64 → is_some filter_at ≡ filtered → bytes.now ≡ filter_field filter_at ++ rest →
        IsSome result × IfSome result (λ split. (split.0 ≡ filter_at) × (split.1.now ≡ rest)) }
{
    if !filtered {
        return Some((None, bytes));
    }
    let (at, rest) = split_u64(bytes)?;
    Some((Some(at), rest))
}

/// The offsets and the number of blocks, and what follows them.
fn split_offsets(bytes: &[u8], filtered: bool) -> Option<((u64, Option<u64>, u32), &[u8])>
    ensures split { IfSome result (λ split. bytes.now ≡ offsets_bytes split.0.0 split.0.1 split.0.2 ++ split.1.now) }
    ensures fits { IfSome result (λ split. (offset_of split.0.1 < 2 ^ 64) × (is_some split.0.1 ≡ filtered)) }
    ensures written { (index_at : ℕ) (filter_at : Option ℕ) (blocks : ℕ) (rest : List ℕ) → index_at < 2 ^ 64 → offset_of filter_at < 2 ^ 64 → is_some filter_at ≡ filtered → blocks < 2 ^ 32 →
        bytes.now ≡ offsets_bytes index_at filter_at blocks ++ rest →
        IsSome result × IfSome result (λ split. (split.0 ≡ (index_at, filter_at, blocks)) × (split.1.now ≡ rest)) }
{
    let (index_at, rest) = split_u64(bytes)?;
    let (filter_at, rest) = split_filter_at(rest, filtered)?;
    let (blocks, rest) = split_u32(rest)?;
    Some(((index_at, filter_at, blocks), rest))
}

/// The footer of this body, or none where it has another length or another format.
fn split_footer(body: &[u8], filtered: bool) -> Option<Footer>
    ensures split { IfSome result (λ footer. IsInFields filtered footer × (body.now ≡ footer_bytes footer)) }
    ensures written { (footer : Footer) → IsInFields filtered footer → body.now ≡ footer_bytes footer → result ≡ Some footer }
{
    let ((count, sum), rest) = split_counts(body)?;
    let ((low, high), rest) = split_span(rest)?;
    let ((index_at, filter_at, blocks), rest) = split_offsets(rest, filtered)?;
    if !rest.is_empty() {
        return None;
    }
    Some(Footer {
        count,
        sum,
        low,
        high,
        index_at,
        filter_at,
        blocks,
    })
}

/// The footer of this body, which stands at an offset of a file with a filter or without. Its fields are judged from left to
/// right: first their form, then that there is an item, then the numbers that are below 2^62, then that there is a block.
pub(crate) fn read_footer_body(
    id: FileId,
    at: u64,
    body: &[u8],
    filtered: bool,
) -> Result<Footer, Fault>
    ensures is_footer { IfOk result (λ footer. IsFooter filtered footer × (body.now ≡ footer_bytes footer)) }
    ensures refusals { IfErr result (λ fault. IsFooterUnfit id at filtered body.now fault) }
{
    let Some(footer) = split_footer(body, filtered) else {
        return Err(malformed(id, at));
    };
    if footer.count == 0 {
        return Err(malformed(id, at));
    }
    check_footer_numbers(id, at, &footer)?;
    if footer.blocks == 0 {
        return Err(malformed(id, at));
    }
    Ok(footer)
}

/// Judges the numbers of a footer.
fn check_footer_numbers(id: FileId, at: u64, footer: &Footer) -> Result<(), Fault>
    ensures { MatchResult result (λ _. AreKept (footer_numbers footer.now)) (λ fault. IsTooGreat id at (footer_numbers footer.now) fault) }
{
    let numbers = [
        footer.count,
        footer.sum,
        footer.low,
        footer.high,
        footer.index_at,
        footer.filter_at.unwrap_or(0),
    ];
    check_numbers(id, at, &numbers)
}
