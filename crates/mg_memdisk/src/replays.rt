//! What the names stand for after a list of events.

ghost use Rattle.std.specs.Prelude.{◌≡◌, ◌≤◌, ◌↔◌, true, false, List, ℕ, length, IfOk, IfSome, IsSome, OnOk};
ghost use Rattle.std.specs.Option.{option_copied};
ghost use Rattle.std.specs.List.{Contains, fold};
ghost use Rattle.std.specs.List.Sorted.{IsStrictlySortedBy};
ghost use Rattle.mg_types.specs.declared.names.Name.{Name};
ghost use Rattle.mg_disk.specs.Images.{Image};
ghost use Rattle.mg_memdisk.specs.Events.{is_file, nothing, held, value_bytes, Lists};
ghost use Rattle.mg_memdisk.specs.Pieces.{Takes, wanted_of};

use crate::bytes::Bytes;
use crate::events::Event;
use crate::pieces::{Piece, Wanted};
use mg_disk::Name;
use std::alloc::{AllocError, Global};
use std::collections::BTreeSet;
use std::sync::Arc;

/// The bytes of the file under a name; None where there is none.
pub fn file_under(events: &[Event], name: Name) -> Option<&Arc<Bytes>>
    requires { is_file name ≡ true }
    ensures { value_bytes (option_copied result) ≡ fold held nothing events.now name }
{
    let mut found = None;
    for event in events {
        found = file_after(found, event, name);
    }
    found
}

// The file under a name after one event more.
fn file_after<'a>(
    found: Option<&'a Arc<Bytes>>,
    event: &'a Event,
    name: Name,
) -> Option<&'a Arc<Bytes>>
    requires { is_file name ≡ true }
    ensures { (image : Image) → value_bytes (option_copied found.entry) ≡ image name → value_bytes (option_copied result) ≡ held image event.now name }
{
    match event {
        Event::Put(put, value) | Event::MayPut(put, value, true) if *put == name => value.as_ref(),
        _ => found,
    }
}

/// The wanted bytes of the log under a name, and no bytes where there is no log. It goes once through all that happened, and
/// copies nothing else.
pub fn piece_under(
    alloc: Global,
    events: &[Event],
    name: Name,
    wanted: Wanted,
) -> Result<Vec<u8>, AllocError>
    requires { is_file name ≡ false }
    ensures { IfOk result (λ piece. IfSome (fold held nothing events.now name) (λ bytes. piece.items ≡ wanted_of wanted bytes)) }
{
    let mut piece = Piece::new(alloc, wanted);
    for event in events {
        piece_after(&mut piece, event, name, wanted)?;
    }
    Ok(piece.items)
}

// The wanted bytes of the log under a name after one event more.
fn piece_after(
    piece: &mut Piece,
    event: &Event,
    name: Name,
    wanted: Wanted,
) -> Result<(), AllocError>
    requires { is_file name ≡ false }
    ensures { OnOk result ((image : Image) → IfSome (image name) (λ bytes. Takes wanted bytes piece.old) → IfSome (held image event.now name) (λ bytes. Takes wanted bytes piece.new)) }
{
    match event {
        Event::Put(put, value) | Event::MayPut(put, value, true) if *put == name => {
            piece.restart(wanted);
            match value {
                Some(bytes) => piece.add(&bytes.items, wanted),
                None => Ok(()),
            }
        }
        Event::Append(to, bytes) if *to == name => piece.add(&bytes.items, wanted),
        _ => Ok(()),
    }
}

/// The length of the log under a name, and 0 where there is no log. A length that passes its type can't come in memory, and
/// would be want of it.
pub fn len_under(events: &[Event], name: Name) -> Result<u64, AllocError>
    requires { is_file name ≡ false }
    ensures { IfOk result (λ len. IfSome (fold held nothing events.now name) (λ bytes. len ≡ length bytes)) }
{
    let mut len = 0;
    for event in events {
        len = len_after(len, event, name)?;
    }
    Ok(len)
}

// The length of the log under a name after one event more.
fn len_after(len: u64, event: &Event, name: Name) -> Result<u64, AllocError>
    requires { is_file name ≡ false }
    ensures { IfOk result (λ after. (image : Image) → IfSome (image name) (λ bytes. len ≡ length bytes) → IfSome (held image event.now name) (λ bytes. after ≡ length bytes)) }
{
    match event {
        Event::Put(put, value) | Event::MayPut(put, value, true) if *put == name => {
            Ok(value.as_ref().map_or(0, |bytes| bytes.items.len() as u64))
        }
        Event::Append(to, bytes) if *to == name => {
            len.checked_add(bytes.items.len() as u64).ok_or(AllocError)
        }
        _ => Ok(len),
    }
}

/// All names that stand for something, in order.
pub fn names_in(alloc: Global, events: &[Event]) -> Result<Vec<Name>, AllocError>
    ensures order { IfOk result (λ names. IsStrictlySortedBy ⟦<Name as Ord>⟧.cmp names.items) }
    ensures all { IfOk result (λ names. (name : Name) → Contains names.items name ↔ IsSome (fold held nothing events.now name)) }
{
    let mut names = BTreeSet::new(alloc);
    for event in events {
        names_after(&mut names, event)?;
    }
    in_order(alloc, names)
}

// The names of a set, in order.
fn in_order(alloc: Global, names: BTreeSet<Name>) -> Result<Vec<Name>, AllocError>
    ensures order { IfOk result (λ list. IsStrictlySortedBy ⟦<Name as Ord>⟧.cmp list.items) }
    ensures items { IfOk result (λ list. list.items ≡ names.keys) }
{
    Ok(names.into_iter().collect(alloc)?)
}

// The names after one event more.
fn names_after(names: &mut BTreeSet<Name>, event: &Event) -> Result<(), AllocError>
    ensures { OnOk result ((image : Image) → Lists ⟦<Name as Ord>⟧.cmp names.old image → Lists ⟦<Name as Ord>⟧.cmp names.new (held image event.now)) }
{
    match event {
        Event::Put(name, Some(_)) | Event::MayPut(name, Some(_), true) => {
            names.insert(*name)?;
        }
        Event::Put(name, None) => {
            names.remove(name);
        }
        Event::MayPut(name, None, true) => {
            names.remove(name);
        }
        _ => {}
    }
    Ok(())
}
