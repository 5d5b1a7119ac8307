//! What stands behind the number of a record.

ghost use Rattle.std.specs.Prelude.{◌≡◌, ◌++◌, ◌≤◌, ℕ, List, length, take, drop, Option, IfOk, IfSome, IfNone, OnOk};
ghost use Rattle.std.specs.Option.{option_copied};
ghost use Rattle.mg_types.specs.Bytes.{IsDoc, IsKey};
ghost use Rattle.mg_records.specs.Contents.{AreContents, contents, contents_size, doc_part, kind_of};

use mg_frame::{get_long, get_short, get_u8, put_long, put_short, put_u8};
use mg_types::{Doc, Item, Key};
use std::alloc::{AllocError, Global};

/// The byte of a set, and that of a delete.
const SET: u8 = 1;

const DELETE: u8 = 2;

/// A key and a document, where they stand.
#[derive(Clone, Copy)]
pub struct Contents<'a> {
    pub key: &'a [u8],
    /// None for a delete.
    pub doc: Option<&'a [u8]>,
}

impl<'a> Contents<'a> {
    pub fn of(item: &'a Item) -> Contents<'a>
        ensures key { result.key.now ≡ item.now.key }
        ensures doc { option_copied result.doc ≡ item.now.doc }
        ensures form { AreContents result.key.now (option_copied result.doc) }
    {
        let doc = match &item.doc {
            Some(doc) => Some(doc.bytes()),
            None => None,
        };
        let key = item.key.bytes();
        Contents { key, doc }
    }

    /// The bytes of key and document.
    pub fn size(&self) -> u32
        requires { AreContents self.now.key.now (option_copied self.now.doc) }
        ensures { result ≡ contents_size self.now.key.now (option_copied self.now.doc) }
    {
        let doc = match self.doc {
            Some(doc) => doc.len(),
            None => 0,
        };
        (self.key.len() + doc) as u32
    }

    /// The bytes that it takes.
    pub fn spelled_len(&self) -> usize
        requires { AreContents self.now.key.now (option_copied self.now.doc) }
        ensures exact { result ≡ length (contents self.now.key.now (option_copied self.now.doc)) }
        ensures bound { result ≤ 1048832 }
    {
        2 + self.key.len() + doc_part_len(self.doc)
    }

    /// Appends it. After an error a front of it may stand there.
    pub fn put(&self, out: &mut Vec<u8>) -> Result<(), AllocError>
        requires { AreContents self.now.key.now (option_copied self.now.doc) }
        ensures put { OnOk result (out.new.items ≡ out.old.items ++ contents self.now.key.now (option_copied self.now.doc)) }
        ensures front { take (length out.old.items) out.new.items ≡ out.old.items }
    {
        match self.doc {
            Some(doc) => {
                put_u8(SET, out)?;
                put_short(self.key, out)?;
                put_long(doc, out)
            }
            None => {
                put_u8(DELETE, out)?;
                put_short(self.key, out)
            }
        }
    }

    /// A copy as a mutation with this number.
    pub fn to_item(&self, alloc: Global, seq: u64) -> Result<Item, AllocError>
        requires { AreContents self.now.key.now (option_copied self.now.doc) }
        ensures seq { IfOk result (λ item. item.seq ≡ seq) }
        ensures key { IfOk result (λ item. item.key ≡ self.now.key.now) }
        ensures doc { IfOk result (λ item. item.doc ≡ option_copied self.now.doc) }
    {
        let key = key_of(alloc, self.key)?;
        let doc = doc_of(alloc, self.doc)?;
        Ok(Item { seq, key, doc })
    }

    /// What the bytes begin with. It is not copied.
    pub fn read(bytes: &'a [u8]) -> Option<Contents<'a>>
        ensures form { IfSome result (λ read. AreContents read.key.now (option_copied read.doc)) }
        ensures spelled { IfSome result (λ read. (rest : List ℕ) × (bytes.now ≡ contents read.key.now (option_copied read.doc) ++ rest)) }
        ensures none { IfNone result ((key : List ℕ) (doc : Option (List ℕ)) (rest : List ℕ) → AreContents key doc →
            bytes.now ≡ contents key doc ++ rest → ⊥) }
    {
        let kind = get_u8(bytes, 0)?;
        let key = get_short(bytes, 1)?;
        if key.is_empty() || key.len() > Key::MAX_LEN {
            return None;
        }
        let doc = read_doc(kind, bytes, 2 + key.len())?;
        Some(Contents { key, doc })
    }
}

/// The bytes that a document takes, with its count.
fn doc_part_len(doc: Option<&[u8]>) -> usize
    requires { IfSome (option_copied doc) (λ d. IsDoc d) }
    ensures exact { result ≡ length (doc_part (option_copied doc.entry)) }
    ensures bound { result ≤ 1048580 }
{
    match doc {
        Some(doc) => 4 + doc.len(),
        None => 0,
    }
}

/// The document of a record of this kind, which begins at an offset; None for a delete. It is not copied.
fn read_doc(kind: u8, bytes: &[u8], at: usize) -> Option<Option<&[u8]>>
    requires { at ≤ length bytes.now }
    ensures form { IfSome result (λ doc. IfSome (option_copied doc) (λ d. IsDoc d)) }
    ensures kind { IfSome result (λ doc. kind ≡ kind_of (option_copied doc)) }
    ensures spelled { IfSome result (λ doc. (rest : List ℕ) × (drop at bytes.now ≡ doc_part (option_copied doc) ++ rest)) }
    ensures none { IfNone result ((doc : Option (List ℕ)) (rest : List ℕ) → IfSome doc (λ d. IsDoc d) → kind ≡ kind_of doc →
        drop at bytes.now ≡ doc_part doc ++ rest → ⊥) }
{
    match kind {
        SET => {
            let doc = get_long(bytes, at)?;
            if doc.len() > Doc::MAX_LEN {
                return None;
            }
            Some(Some(doc))
        }
        DELETE => Some(None),
        _ => None,
    }
}

/// A copy of the bytes as a key.
fn key_of(alloc: Global, bytes: &[u8]) -> Result<Key, AllocError>
    requires { IsKey bytes.now }
    ensures { IfOk result (λ key. key ≡ bytes.now) }
{
    let bytes = Vec::from_slice(alloc, bytes)?;
    Ok(Key::from_vec(bytes).unwrap())
}

/// A copy of a document.
fn doc_of(alloc: Global, bytes: Option<&[u8]>) -> Result<Option<Doc>, AllocError>
    requires { IfSome (option_copied bytes) (λ d. IsDoc d) }
    ensures { IfOk result (λ doc. doc ≡ option_copied bytes.entry) }
{
    match bytes {
        Some(bytes) => {
            let copy = Vec::from_slice(alloc, bytes)?;
            Ok(Some(Doc::from_vec(copy).unwrap()))
        }
        None => Ok(None),
    }
}
