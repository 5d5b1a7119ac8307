//! Lists of names.

ghost use Rattle.std.specs.Prelude.{◌≡◌, IfOk, IsPermutation};
ghost use Rattle.std.specs.List.Sorted.{IsSorted};
ghost use Rattle.mg_disk.specs.Names.{numbers_of};

use mg_types::{Kind, Name};
use std::alloc::{AllocError, Global};

/// The numbers of the names of this kind, from the least to the greatest, in whatever order the names come.
pub fn numbers(alloc: Global, names: &[Name], kind: Kind) -> Result<Vec<u64>, AllocError>
    ensures order { IfOk result (λ numbers. IsSorted ⟦<u64 as Ord>⟧.cmp numbers.items) }
    ensures all { IfOk result (λ numbers. IsPermutation (numbers_of kind names.now) numbers.items) }
{
    let mut numbers = numbers_in_turn(alloc, names, kind)?;
    numbers.sort()?;
    Ok(numbers)
}

// The numbers of the names of this kind, in the order of the names.
fn numbers_in_turn(alloc: Global, names: &[Name], kind: Kind) -> Result<Vec<u64>, AllocError>
    ensures { IfOk result (λ numbers. numbers.items ≡ numbers_of kind names.now) }
{
    let mut numbers = Vec::new(alloc);
    for name in names {
        if name.kind == kind {
            numbers.push(name.number)?;
        }
    }
    Ok(numbers)
}
