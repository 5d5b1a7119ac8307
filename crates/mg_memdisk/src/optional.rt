//! Bytes that are there or not.

ghost use Rattle.std.specs.Prelude.{◌≡◌, ◌≤◌, ◌<◌, ◌^◌, ◌++◌, if◌then◌else◌, take, option_map, [], length, IfOk};
ghost use Rattle.mg_disk.specs.Files.{extended};
ghost use Rattle.mg_disk.specs.Images.{bytes_of};
ghost use Rattle.mg_memdisk.specs.Events.{value_bytes};
ghost use Rattle.mg_memdisk.specs.Optional.{items_of};

use crate::bytes::Bytes;
use std::alloc::{AllocError, Global};
use std::sync::Arc;

/// The same bytes once more.
pub fn copied(alloc: Global, value: &Option<Arc<Bytes>>) -> Result<Option<Vec<u8>>, AllocError>
    ensures { IfOk result (λ copy. items_of copy ≡ value_bytes value.now) }
{
    match value {
        Some(bytes) => Ok(Some(bytes.items.as_slice().to_vec(alloc)?)),
        None => Ok(None),
    }
}

/// The value where it is to be taken, and else what was there.
pub fn changed(
    alloc: Global,
    before: Option<Vec<u8>>,
    value: &Option<Arc<Bytes>>,
    taken: bool,
) -> Result<Option<Vec<u8>>, AllocError>
    ensures { IfOk result (λ after. items_of after ≡ (if taken then value_bytes value.now else items_of before)) }
{
    if taken {
        copied(alloc, value)
    } else {
        Ok(before)
    }
}

/// The first bytes of a list and a tail, where there is one. It copies nothing where no byte of the list is taken.
pub fn joined(
    alloc: Global,
    list: &Option<Vec<u8>>,
    count: usize,
    tail: Option<Vec<u8>>,
) -> Result<Option<Vec<u8>>, AllocError>
    requires { count ≤ length (bytes_of (items_of list.now)) }
    ensures { IfOk result (λ joined. items_of joined ≡ option_map (λ tail. take count (bytes_of (items_of list.now)) ++ tail) (items_of tail)) }
{
    match tail {
        Some(tail) if count > 0 => {
            let mut joined = front(alloc, list, count)?;
            joined.extend_from_slice(&tail)?;
            Ok(Some(joined))
        }
        tail => Ok(tail),
    }
}

/// The list with more bytes behind it, where there is one.
pub fn longer(list: Option<Vec<u8>>, more: &[u8]) -> Result<Option<Vec<u8>>, AllocError>
    ensures { IfOk result (λ longer. items_of longer ≡ extended (items_of list) more.now) }
{
    match list {
        Some(mut bytes) => {
            bytes.extend_from_slice(more)?;
            Ok(Some(bytes))
        }
        None => Ok(None),
    }
}

/// A list without bytes, where there is a list.
pub fn emptied(alloc: Global, list: &Option<Vec<u8>>) -> Option<Vec<u8>>
    ensures { items_of result ≡ option_map (λ bytes. []) (items_of list.now) }
{
    match list {
        Some(_) => Some(Vec::new(alloc)),
        None => None,
    }
}

/// The list's length, and 0 where there is none.
pub fn len_of(list: &Option<Vec<u8>>) -> usize
    ensures len { result ≡ length (bytes_of (items_of list.now)) }
    ensures bound { result < 2 ^ 63 }
{
    match list {
        Some(bytes) => bytes.len(),
        None => 0,
    }
}

/// The list's first bytes; none where there is no list.
pub fn front(alloc: Global, list: &Option<Vec<u8>>, count: usize) -> Result<Vec<u8>, AllocError>
    requires { count ≤ length (bytes_of (items_of list.now)) }
    ensures { IfOk result (λ front. front.items ≡ take count (bytes_of (items_of list.now))) }
{
    match list {
        Some(bytes) => bytes[..count].to_vec(alloc),
        None => Ok(Vec::new(alloc)),
    }
}
