//! The body of an index.

ghost use Rattle.std.specs.Prelude.{◌≡◌, ◌+◌, ◌<◌, ◌^◌, ◌⊎◌, ◌++◌, ℕ, List, IfErr, IfOk, IfSome, IsSome, OnOk};
ghost use Rattle.std.specs.List.{All};
ghost use Rattle.mg_indexed.specs.Index.{first_after, handle_bytes, index_bytes, item_bytes, BeginsWithHandle, FitsFields, IsHandleAt, IsHandleUnfit, IsIndexFrom, IsIndexUnfit};
ghost use Rattle.mg_indexed.specs.Keys.{IsSpelled};
ghost use Rattle.mg_indexed.specs.declared.handle.BlockHandle.{BlockHandle};

use crate::handle::BlockHandle;
use crate::item::BlockItem;
use crate::key::BlockKey;
use mg_frame::{put_u32, put_u64, split_u32, split_u64};
use mg_items::Items;
use mg_sealed::{check_offset, malformed};
use mg_types::{Fault, FileId};
use std::alloc::{AllocError, Global};

/// Appends a handle, or a front of it for want of memory.
fn put_handle<K: BlockKey>(handle: &BlockHandle<K>, out: &mut Vec<u8>) -> Result<(), AllocError>
    requires { K.keys.fits handle.now.first }
    ensures { OnOk result (out.new.items ≡ out.old.items ++ handle_bytes K.keys handle.now) }
{
    handle.first.put(out)?;
    put_u64(handle.at, out)?;
    put_u32(handle.len, out)
}

/// The body of the index frame, in memory that is taken at once for so many bytes.
pub fn index_body<K: BlockKey>(
    alloc: Global,
    handles: &[BlockHandle<K>],
    len: usize,
) -> Result<Vec<u8>, AllocError>
    requires { All (λ handle. K.keys.fits handle.first) handles.now }
    ensures { IfOk result (λ body. body.items ≡ index_bytes K.keys handles.now) }
{
    let mut body = Vec::with_capacity(alloc, len)?;
    for handle in handles {
        put_handle(handle, &mut body)?;
    }
    Ok(body)
}

/// A handle as it is spelled.
#[derive(Clone, Copy)]
struct Item<'a> {
    first: &'a [u8],
    at: u64,
    len: u32,
}

/// The handle that the bytes begin with, and what follows it.
fn split_item<K: BlockKey>(bytes: &[u8]) -> Option<(Item<'_>, &[u8])>
    ensures spelled { IfSome result (λ split. IsSpelled K.keys split.0.first.now) }
    ensures split { IfSome result (λ split. bytes.now ≡ item_bytes split.0.first.now split.0.at split.0.len ++ split.1.now) }
    ensures written { (handle : BlockHandle K) (rest : List ℕ) → BeginsWithHandle K.keys bytes.now handle rest → IsSome result }
{
    let (first, rest) = K::split(bytes)?;
    let (at, rest) = split_u64(rest)?;
    let (len, rest) = split_u32(rest)?;
    Some((Item { first, at, len }, rest))
}

/// The handle that is spelled so in an index at an offset of a file, behind these ones, and whose block should stand at `end`. Its
/// fields are judged from left to right: the key, the offset, the length.
fn read_handle<K: BlockKey, T: BlockItem>(
    alloc: Global,
    id: FileId,
    at: u64,
    before: &[BlockHandle<K>],
    end: u64,
    item: Item<'_>,
) -> Result<BlockHandle<K>, Fault>
    requires { IsSpelled K.keys item.first.now }
    ensures right { IfOk result (λ handle. IsHandleAt K.keys T.form (first_after K.keys.lowest before.now) end handle) }
    ensures spelled { IfOk result (λ handle. item_bytes item.entry.first.now item.entry.at item.entry.len ≡ handle_bytes K.keys handle) }
    ensures refusals { IfErr result (λ fault. (fault ≡ Fault.NoMemory) ⊎ ((handle : BlockHandle K) × FitsFields K.keys handle
        × (item_bytes item.entry.first.now item.entry.at item.entry.len ≡ handle_bytes K.keys handle)
        × IsHandleUnfit K.keys T.form id at (first_after K.keys.lowest before.now) end handle fault)) }
{
    let first = K::read(alloc, id, at, before, item.first)?;
    check_offset(id, at, end, item.at)?;
    if !T::is_frame_len(item.len) {
        return Err(malformed(id, at));
    }
    Ok(BlockHandle {
        first,
        at: item.at,
        len: item.len,
    })
}

/// The index of this body, which stands at an offset of a file: first keys rise, and the blocks' frames stand one after the
/// other, from the front of the file to that offset.
pub(crate) fn read_index_body<K: BlockKey, T: BlockItem>(
    alloc: Global,
    id: FileId,
    at: u64,
    body: &[u8],
) -> Result<Items<BlockHandle<K>>, Fault>
    requires { at < 2 ^ 62 }
    ensures is_index { IfOk result (λ index. IsIndexFrom K.keys T.form K.keys.lowest 0 index at × (body.now ≡ index_bytes K.keys index)) }
    ensures refusals { IfErr result (λ fault. (fault ≡ Fault.NoMemory) ⊎ IsIndexUnfit K.keys T.form id at body.now fault) }
{
    let mut index = Items::new(alloc);
    let mut rest = body;
    let mut end = 0;
    while let Some((item, behind)) = split_item::<K>(rest) {
        let handle = read_handle::<K, T>(alloc, id, at, index.as_slice(), end, item)?;
        end = handle.at + u64::from(handle.len);
        index.push(handle)?;
        rest = behind;
    }
    if !rest.is_empty() {
        return Err(malformed(id, at));
    }
    if end != at {
        return Err(malformed(id, at));
    }
    Ok(index)
}
