//! Delete lists in memory.

ghost use Rattle.std.specs.Prelude.{◌≡◌, ◌++◌, length, IfOk, IsOkUnless};
ghost use Rattle.std.specs.List.{filter};
ghost use Rattle.std.specs.List.Sorted.{IsPermutation};
ghost use Rattle.mg_records.specs.DeadRecord.{dead_kind};
ghost use Rattle.mg_dellist.specs.Lists.{AreApart, is_outside};
ghost use Rattle.mg_records.specs.File.{AreRising};

use mg_types::{Dead, Fault};
use std::alloc::Global;

/// The entries of two lists that have no number in common, as one list that rises.
///
/// Takes memory for so many entries, in one allocation, and a number of steps that is theirs.
pub fn union(alloc: Global, a: &[Dead], b: &[Dead]) -> Result<Vec<Dead>, Fault>
    requires first_rises { AreRising dead_kind a.now }
    requires second_rises { AreRising dead_kind b.now }
    requires apart { AreApart a.now b.now }
    ensures rises { IfOk result (λ all. AreRising dead_kind all.items) }
    ensures exact { IfOk result (λ all. IsPermutation (a.now ++ b.now) all.items) }
    ensures err { IsOkUnless result Fault.NoMemory }
{
    let mut all = Vec::with_capacity(alloc, a.len() + b.len())?;
    let mut i = 0;
    let mut j = 0;
    while i < a.len() && j < b.len() {
        if a[i].seq < b[j].seq {
            all.push(a[i])?;
            i += 1;
        } else {
            all.push(b[j])?;
            j += 1;
        }
    }
    all.extend_from_slice(&a[i..])?;
    all.extend_from_slice(&b[j..])?;
    Ok(all)
}

/// The entries whose numbers are not from `first` to `last`, in their order.
///
/// Takes memory for them alone, in one allocation.
pub fn minus(alloc: Global, a: &[Dead], first: u64, last: u64) -> Result<Vec<Dead>, Fault>
    ensures ok { IfOk result (λ rest. rest.items ≡ filter (λ dead. is_outside first last dead.seq) a.now) }
    ensures err { IsOkUnless result Fault.NoMemory }
{
    let count = a
        .iter()
        .filter(|dead| is_outside(first, last, dead.seq))
        .count();
    let mut rest = Vec::with_capacity(alloc, count)?;
    for dead in a {
        if is_outside(first, last, dead.seq) {
            rest.push(*dead)?;
        }
    }
    Ok(rest)
}

/// Whether a number is not from `first` to `last`.
fn is_outside(first: u64, last: u64, seq: u64) -> bool
    ensures { result ≡ is_outside first last seq }
{
    seq < first || last < seq
}
