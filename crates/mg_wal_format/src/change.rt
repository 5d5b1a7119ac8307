//! A change as bytes: its kind in a byte, and what its kind says of it.

ghost use Rattle.std.specs.Prelude.{◌≡◌, ◌++◌, ◌<◌, ◌≤◌, ◌^◌, ℕ, List, length, take, IfOk, IfSome, IsSome, OnOk, IsOkUnless};
ghost use Rattle.mg_frame.specs.BigEndian.{big_endian, counted};
ghost use Rattle.mg_types.specs.Bytes.{IsKey};
ghost use Rattle.mg_wal_format.specs.Records.{change_bytes, change_rest, IsChange, IsReading, IsOfKind};

use mg_frame::{
    put_long, put_short, put_u8, put_u64, split_long, split_short, split_u8, split_u64,
};
use mg_model::Change;
use mg_types::{Doc, Fault, Key};
use std::alloc::{AllocError, Global};

const SET: u8 = 1;

const DELETE: u8 = 2;

const MARK: u8 = 3;

const FORGET: u8 = 4;

const BACK: u8 = 5;

const CLEAR: u8 = 6;

/// How many bytes the change takes.
#[tactic(auto, unfolding(crate::specs::Records::change_bytes))]
pub(crate) fn change_len(what: &Change) -> usize
    ensures exact { result ≡ length (change_bytes what.now) }
    ensures bound { result ≤ 1048832 }
    ensures form { IsChange what.now }
{
    match what {
        Change::Set { key, doc } => 6 + key.bytes().len() + doc.bytes().len(),
        Change::Del { key } => 2 + key.bytes().len(),
        Change::Mark | Change::Clear => 1,
        Change::Forget { mark } | Change::Back { mark } => 1 + mark.to_be_bytes().len(),
    }
}

/// Appends the change. After an error a front of it may stand there.
#[tactic(auto, unfolding(crate::specs::Records::change_bytes))]
pub(crate) fn put_change(what: &Change, out: &mut Vec<u8>) -> Result<(), AllocError>
    ensures ok { OnOk result (out.new.items ≡ out.old.items ++ change_bytes what.now) }
    ensures front { take (length out.old.items) out.new.items ≡ out.old.items }
{
    match what {
        Change::Set { key, doc } => {
            put_u8(SET, out)?;
            put_short(key.bytes(), out)?;
            put_long(doc.bytes(), out)
        }
        Change::Del { key } => {
            put_u8(DELETE, out)?;
            put_short(key.bytes(), out)
        }
        Change::Mark => put_u8(MARK, out),
        Change::Forget { mark } => {
            put_u8(FORGET, out)?;
            put_u64(*mark, out)
        }
        Change::Back { mark } => {
            put_u8(BACK, out)?;
            put_u64(*mark, out)
        }
        Change::Clear => put_u8(CLEAR, out),
    }
}

/// A copy of the key at the front, and what follows it.
fn split_key(alloc: Global, bytes: &[u8]) -> Result<Option<(Key, &[u8])>, Fault>
    ensures split { IfOk result (λ found. IfSome found (λ split. IsKey split.0 × (bytes.now ≡ counted 1 split.0 ++ split.1.now))) }
    ensures written { IfOk result (λ found. (key rest : List ℕ) → IsKey key → bytes.now ≡ counted 1 key ++ rest →
        IsSome found × IfSome found (λ split. (split.0 ≡ key) × (split.1.now ≡ rest))) }
    ensures err { IsOkUnless result Fault.NoMemory }
{
    let Some((key, rest)) = split_short(bytes) else {
        return Ok(None);
    };
    let Some(key) = Key::new(alloc, key)? else {
        return Ok(None);
    };
    Ok(Some((key, rest)))
}

/// The key and the document that the bytes spell, as a set.
fn read_set(alloc: Global, bytes: &[u8]) -> Result<Option<Change>, Fault>
    ensures read { IfOk result (λ found. IsReading (IsOfKind 1) change_rest bytes.now found) }
    ensures err { IsOkUnless result Fault.NoMemory }
{
    let Some((key, rest)) = split_key(alloc, bytes)? else {
        return Ok(None);
    };
    let Some((doc, rest)) = split_long(rest) else {
        return Ok(None);
    };
    if !rest.is_empty() {
        return Ok(None);
    }
    let Some(doc) = Doc::new(alloc, doc)? else {
        return Ok(None);
    };
    Ok(Some(Change::Set { key, doc }))
}

/// The key that the bytes spell, as a delete.
fn read_delete(alloc: Global, bytes: &[u8]) -> Result<Option<Change>, Fault>
    ensures read { IfOk result (λ found. IsReading (IsOfKind 2) change_rest bytes.now found) }
    ensures err { IsOkUnless result Fault.NoMemory }
{
    let Some((key, rest)) = split_key(alloc, bytes)? else {
        return Ok(None);
    };
    if !rest.is_empty() {
        return Ok(None);
    }
    Ok(Some(Change::Del { key }))
}

/// The number of a mark that the bytes spell.
fn read_mark(bytes: &[u8]) -> Option<u64>
    ensures split { IfSome result (λ mark. bytes.now ≡ big_endian 8 mark) }
    ensures written { (mark : ℕ) → mark < 2 ^ 64 → bytes.now ≡ big_endian 8 mark → IsSome result × IfSome result (λ found. found ≡ mark) }
{
    let (mark, rest) = split_u64(bytes)?;
    if !rest.is_empty() {
        return None;
    }
    Some(mark)
}

/// What stands behind the kind of a change; none where it is not of the kind's form.
fn read_rest(alloc: Global, kind: u8, bytes: &[u8]) -> Result<Option<Change>, Fault>
    ensures read { IfOk result (λ found. IsReading (IsOfKind kind) change_rest bytes.now found) }
    ensures err { IsOkUnless result Fault.NoMemory }
{
    match kind {
        SET => read_set(alloc, bytes),
        DELETE => read_delete(alloc, bytes),
        MARK if bytes.is_empty() => Ok(Some(Change::Mark)),
        FORGET => Ok(read_mark(bytes).map(|mark| Change::Forget { mark })),
        BACK => Ok(read_mark(bytes).map(|mark| Change::Back { mark })),
        CLEAR if bytes.is_empty() => Ok(Some(Change::Clear)),
        _ => Ok(None),
    }
}

/// The change that the bytes spell, all of them; none where they spell none.
#[tactic(auto, unfolding(crate::specs::Records::change_bytes))]
pub(crate) fn read_change(alloc: Global, bytes: &[u8]) -> Result<Option<Change>, Fault>
    ensures read { IfOk result (λ found. IsReading IsChange change_bytes bytes.now found) }
    ensures err { IsOkUnless result Fault.NoMemory }
{
    let Some((kind, rest)) = split_u8(bytes) else {
        return Ok(None);
    };
    read_rest(alloc, kind, rest)
}
