//! Numbers that a body keeps.

ghost use Rattle.std.specs.Prelude.{◌≡◌, ◌+◌, ◌<◌, ◌≤◌, ◌^◌, MatchResult};
ghost use Rattle.mg_sealed.specs.Numbers.{AreKept, IsOffsetUnfit, IsTooGreat};

use crate::errors::{damaged, malformed};
use mg_types::{Fault, FileId, NUMBER_LIMIT};

/// Judges the numbers that a body at an offset of a file has, from left to right. The first that is 2^62 or more is damaged.
pub fn check_numbers(file: FileId, at: u64, numbers: &[u64]) -> Result<(), Fault>
    ensures { MatchResult result (λ _. AreKept numbers.now) (λ fault. IsTooGreat file at numbers.now fault) }
{
    for number in numbers {
        if *number >= NUMBER_LIMIT {
            return Err(damaged(file, at, *number, NUMBER_LIMIT));
        }
    }
    Ok(())
}

/// Judges the offset that an index at `at` says of a block, where the blocks before it end at `end`. One of 2^62 or more is
/// damaged, and another one than `end` is malformed.
pub fn check_offset(file: FileId, at: u64, end: u64, offset: u64) -> Result<(), Fault>
    ensures { MatchResult result (λ _. (offset ≡ end) × (end < 2 ^ 62)) (λ fault. IsOffsetUnfit file at end offset fault) }
{
    check_numbers(file, at, &[offset])?;
    if offset != end {
        return Err(malformed(file, at));
    }
    Ok(())
}

/// The length of a frame's body to which so many bytes come, of which a frame counts 2^32 - 1 at most. Where they pass that,
/// the answer is `Worn` with the length as it stands.
pub fn grown(len: u64, more: u64) -> Result<u64, Fault>
    requires len { len < 2 ^ 32 }
    requires more { more < 2 ^ 32 }
    ensures { MatchResult result (λ sum. (sum ≡ len + more) × (sum < 2 ^ 32))
        (λ fault. (2 ^ 32 ≤ len + more) × (fault ≡ Fault.Worn len)) }
{
    if len + more > u64::from(u32::MAX) {
        return Err(Fault::Worn { kept: len });
    }
    Ok(len + more)
}
