//! Lists of what is spelled.

ghost use Rattle.std.specs.Prelude.{◌≡◌, ◌++◌, ◌<◌, ◌^◌, length, take, IfOk, OnOk, IsOkUnless};
ghost use Rattle.std.specs.List.{AllByRecursion};
ghost use Rattle.mg_manifest_format.specs.Spelling.{counted_list, listed, so_many, IsSplit};

use crate::spelled::Spelled;
use mg_frame::{put_u16, put_u32, split_u8, split_u16, split_u32};
use mg_items::Items;
use mg_types::Fault;
use std::alloc::{AllocError, Global};

/// No value of a list has fewer bytes.
const LEAST_LEN: usize = 16;

/// Appends the values, one after another.
pub(crate) fn put_items<T: Spelled>(items: &[T], out: &mut Vec<u8>) -> Result<(), AllocError>
    requires { AllByRecursion T.spelling.fits items.now }
    ensures ok { OnOk result (out.new.items ≡ out.old.items ++ listed T.spelling items.now) }
    ensures front { take (length out.old.items) out.new.items ≡ out.old.items }
{
    for item in items {
        item.put(out)?;
    }
    Ok(())
}

/// Appends the values after their number in two bytes.
pub(crate) fn put_items_u16<T: Spelled>(
    items: &Items<T>,
    out: &mut Vec<u8>,
) -> Result<(), AllocError>
    requires { (counted_list 2 T.spelling).fits items.now }
    ensures ok { OnOk result (out.new.items ≡ out.old.items ++ (counted_list 2 T.spelling).bytes items.now) }
    ensures front { take (length out.old.items) out.new.items ≡ out.old.items }
{
    put_u16(items.len() as u16, out)?;
    put_items(items.as_slice(), out)
}

/// Appends the values after their number in four bytes.
pub(crate) fn put_items_u32<T: Spelled>(
    items: &Items<T>,
    out: &mut Vec<u8>,
) -> Result<(), AllocError>
    requires { (counted_list 4 T.spelling).fits items.now }
    ensures ok { OnOk result (out.new.items ≡ out.old.items ++ (counted_list 4 T.spelling).bytes items.now) }
    ensures front { take (length out.old.items) out.new.items ≡ out.old.items }
{
    put_u32(items.len() as u32, out)?;
    put_items(items.as_slice(), out)
}

/// How many bytes the spellings of the values have together.
pub(crate) fn items_len<T: Spelled>(items: &[T]) -> usize
    requires fits { AllByRecursion T.spelling.fits items.now }
    requires bound { length (listed T.spelling items.now) < 2 ^ 62 }
    ensures { result ≡ length (listed T.spelling items.now) }
{
    let mut len = 0;
    for item in items {
        len += item.spelled_len();
    }
    len
}

/// So many values at the front, and what follows them. The bytes bound the memory, whatever the count says.
fn split_items<T: Spelled>(
    alloc: Global,
    count: u32,
    bytes: &[u8],
) -> Result<Option<(Items<T>, &[u8])>, Fault>
    ensures read { IfOk result (λ found. IsSplit (so_many count T.spelling) bytes.now found) }
    ensures err { IsOkUnless result Fault.NoMemory }
{
    let most = bytes.len() / LEAST_LEN;
    let mut items = Vec::with_capacity(alloc, most.min(count as usize))?;
    let mut rest = bytes;
    for _ in 0..count {
        let Some((item, behind)) = T::split(alloc, rest)? else {
            return Ok(None);
        };
        items.push(item)?;
        rest = behind;
    }
    Ok(Some((Items::from_vec(items), rest)))
}

/// The values after their number in a byte, and what follows them.
pub(crate) fn split_items_u8<T: Spelled>(
    alloc: Global,
    bytes: &[u8],
) -> Result<Option<(Items<T>, &[u8])>, Fault>
    ensures read { IfOk result (λ found. IsSplit (counted_list 1 T.spelling) bytes.now found) }
    ensures err { IsOkUnless result Fault.NoMemory }
{
    let Some((count, rest)) = split_u8(bytes) else {
        return Ok(None);
    };
    split_items(alloc, u32::from(count), rest)
}

/// The values after their number in two bytes, and what follows them.
pub(crate) fn split_items_u16<T: Spelled>(
    alloc: Global,
    bytes: &[u8],
) -> Result<Option<(Items<T>, &[u8])>, Fault>
    ensures read { IfOk result (λ found. IsSplit (counted_list 2 T.spelling) bytes.now found) }
    ensures err { IsOkUnless result Fault.NoMemory }
{
    let Some((count, rest)) = split_u16(bytes) else {
        return Ok(None);
    };
    split_items(alloc, u32::from(count), rest)
}

/// The values after their number in four bytes, and what follows them.
pub(crate) fn split_items_u32<T: Spelled>(
    alloc: Global,
    bytes: &[u8],
) -> Result<Option<(Items<T>, &[u8])>, Fault>
    ensures read { IfOk result (λ found. IsSplit (counted_list 4 T.spelling) bytes.now found) }
    ensures err { IsOkUnless result Fault.NoMemory }
{
    let Some((count, rest)) = split_u32(bytes) else {
        return Ok(None);
    };
    split_items(alloc, count, rest)
}
