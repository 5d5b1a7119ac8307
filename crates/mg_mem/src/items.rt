//! What memtables do with one item.

ghost use Rattle.std.specs.Prelude.{◌≡◌, ◌↔◌, ◌≤◌, IfOk, IfSome, IsOkUnless, IsTrue};
ghost use Rattle.std.specs.Option.{option_map_or};
ghost use Rattle.mg_types.specs.Bytes.{IsDoc, IsKey};
ghost use Rattle.mg_types.specs.Items.{size_of};

use mg_types::{Doc, Fault, Item};
use std::alloc::Global;

/// The bytes of key and document together.
pub fn size_of(item: &Item) -> u64
    ensures size { result ≡ size_of item.now }
    ensures key { IsKey item.now.key }
    ensures doc { IfSome item.now.doc (λ doc. IsDoc doc) }
{
    let doc = match &item.doc {
        Some(doc) => doc.bytes().len(),
        None => 0,
    };
    (item.key.bytes().len() + doc) as u64
}

/// The bytes of an item, or none where there is no item.
pub fn size_if_some(item: &Option<Item>) -> u64
    ensures { result ≡ option_map_or size_of item.now 0 }
{
    match item {
        Some(item) => size_of(item),
        None => 0,
    }
}

/// The same item once more.
pub fn copy(item: &Item, alloc: Global) -> Result<Item, Fault>
    ensures ok { IfOk result (λ copy. copy ≡ item.now) }
    ensures err { IsOkUnless result Fault.NoMemory }
{
    let key = item.key.copy(alloc)?;
    let doc = copy_doc(&item.doc, alloc)?;
    Ok(Item {
        seq: item.seq,
        key,
        doc,
    })
}

fn copy_doc(doc: &Option<Doc>, alloc: Global) -> Result<Option<Doc>, Fault>
    ensures ok { IfOk result (λ copy. copy ≡ doc.now) }
    ensures err { IsOkUnless result Fault.NoMemory }
{
    match doc {
        Some(doc) => Ok(Some(doc.copy(alloc)?)),
        None => Ok(None),
    }
}

/// Whether two items are the same in all that they have.
pub fn same(a: &Item, b: &Item) -> bool
    ensures { IsTrue result ↔ (a.now ≡ b.now) }
{
    a.seq == b.seq && a.key == b.key && same_docs(&a.doc, &b.doc)
}

fn same_docs(a: &Option<Doc>, b: &Option<Doc>) -> bool
    ensures { IsTrue result ↔ (a.now ≡ b.now) }
{
    match (a, b) {
        (Some(a), Some(b)) => a.bytes() == b.bytes(),
        (None, None) => true,
        _ => false,
    }
}
