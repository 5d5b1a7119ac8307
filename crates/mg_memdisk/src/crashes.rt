//! One image that a crash may leave.

ghost use Rattle.std.specs.Prelude.{◌≡◌, ◌≤◌, if◌then◌else◌, false, [], take, drop, length, None, Some, IfOk, OnOk};
ghost use Rattle.std.specs.BTreeMap.{get};
ghost use Rattle.std.specs.List.{fold};
ghost use Rattle.std.specs.List.Sorted.{IsStrictlySortedBy};
ghost use Rattle.std.specs.Map.{keys_of};
ghost use Rattle.std.specs.Ordering.{is_eq};
ghost use Rattle.mg_types.specs.declared.names.Name.{Name};
ghost use Rattle.mg_disk.specs.Images.{Image};
ghost use Rattle.mg_memdisk.specs.Crashes.{name_of, left_at, choice_at, Picked, picks_at, picked, put_at, found_in};
ghost use Rattle.mg_memdisk.specs.Events.{is_file, kept, value_bytes, held};
ghost use Rattle.mg_memdisk.specs.Standings.{now_of, left_of, now_at, now_in, left_in, HasPicked, Represents};
ghost use Rattle.mg_memdisk.specs.Optional.{items_of};

use crate::bytes::Bytes;
use crate::choices::Choice;
use crate::events::Event;
use crate::standings::Standing;
use mg_disk::Name;
use std::alloc::{AllocError, Global};
use std::collections::BTreeMap;
use std::sync::Arc;

// The bytes that an append puts behind what reads give: none where the name is that of a file.
fn behind(name: Name, bytes: &Bytes) -> &[u8]
    ensures { result.now ≡ (if is_file name then [] else kept bytes.now) }
{
    if name.kind.is_file() {
        &[]
    } else {
        &bytes.items
    }
}

// What a name stands for after an event that is about it.
fn go_on(
    alloc: Global,
    standing: Standing,
    event: &Event,
    choice: &mut Choice<'_>,
) -> Result<Standing, AllocError>
    ensures now { IfOk result (λ after. now_of after ≡ now_at event.now (now_of standing)) }
    ensures left { IfOk result (λ after. left_of after ≡ left_at event.now (now_of standing) (left_of standing) choice.old.rest.now) }
    ensures choice { OnOk result (choice.new.rest.now ≡ choice_at event.now (now_of standing) (left_of standing) choice.old.rest.now) }
{
    match event {
        Event::Put(_, value) => Standing::put(alloc, value),
        Event::MayPut(_, value, shown) => {
            let left = choice.pick() == 1;
            standing.doubted(alloc, value, *shown, left)
        }
        Event::Append(name, bytes) => {
            let tail = choice.pick_tail(alloc, standing.room(&bytes.items))?;
            standing.grown(behind(*name, bytes), &tail)
        }
        Event::Sync(_) => Ok(standing.synced(alloc)),
    }
}

// Takes out what a name stands for.
fn take_out(map: &mut BTreeMap<Name, Standing>, name: Name) -> Standing
    ensures now { now_of result ≡ now_in (get ⟦<Name as Ord>⟧.cmp map.old name) }
    ensures left { left_of result ≡ left_in (get ⟦<Name as Ord>⟧.cmp map.old name) }
    ensures others { (other : Name) → is_eq (⟦<Name as Ord>⟧.cmp name other) ≡ false → get ⟦<Name as Ord>⟧.cmp map.new other ≡ get ⟦<Name as Ord>⟧.cmp map.old other }
{
    match map.remove(&name) {
        Some(standing) => standing,
        None => Standing::absent(),
    }
}

// Puts in what a name stands for.
fn put_in(
    map: &mut BTreeMap<Name, Standing>,
    name: Name,
    standing: Standing,
) -> Result<(), AllocError>
    ensures { OnOk result ((other : Name) → get ⟦<Name as Ord>⟧.cmp map.new other ≡ (if is_eq (⟦<Name as Ord>⟧.cmp name other) then Some standing else get ⟦<Name as Ord>⟧.cmp map.old other)) }
{
    map.insert(name, standing)?;
    Ok(())
}

// One event more, of those since all that was found.
fn happen(
    alloc: Global,
    map: &mut BTreeMap<Name, Standing>,
    event: &Event,
    choice: &mut Choice<'_>,
) -> Result<(), AllocError>
    ensures { OnOk result ((contents : Image) (p : Picked) → Represents ⟦<Name as Ord>⟧.cmp map.old contents p.image → p.choice ≡ choice.old.rest.now
        → HasPicked ⟦<Name as Ord>⟧.cmp map.new (held contents event.now) choice.new.rest.now (picks_at contents p event.now)) }
{
    let name = event.name();
    let standing = take_out(map, name);
    let after = go_on(alloc, standing, event, choice)?;
    put_in(map, name, after)
}

// One event more, of those that were found.
fn find(alloc: Global, map: &mut BTreeMap<Name, Standing>, event: &Event) -> Result<(), AllocError>
    ensures { OnOk result ((contents : Image) → Represents ⟦<Name as Ord>⟧.cmp map.old contents contents → Represents ⟦<Name as Ord>⟧.cmp map.new (held contents event.now) (held contents event.now)) }
{
    let name = event.name();
    let standing = take_out(map, name);
    let mut none = Choice { rest: &[] };
    let after = go_on(alloc, standing, event, &mut none)?;
    put_in(map, name, after.synced(alloc))
}

// What names stand for in a volume in which these events were found.
fn find_all(alloc: Global, events: &[Event]) -> Result<BTreeMap<Name, Standing>, AllocError>
    ensures { IfOk result (λ map. Represents ⟦<Name as Ord>⟧.cmp map (found_in events.now) (found_in events.now)) }
{
    let mut map = BTreeMap::new(alloc);
    for event in events {
        find(alloc, &mut map, event)?;
    }
    Ok(map)
}

// What names stand for after these events.
fn happen_all(
    alloc: Global,
    map: &mut BTreeMap<Name, Standing>,
    events: &[Event],
    mut choice: Choice<'_>,
) -> Result<(), AllocError>
    ensures { OnOk result ((found : Image) → Represents ⟦<Name as Ord>⟧.cmp map.old found found
        → Represents ⟦<Name as Ord>⟧.cmp map.new (fold held found events.now) (picked found events.now choice.entry.rest.now)) }
{
    for event in events {
        happen(alloc, map, event, &mut choice)?;
    }
    Ok(())
}

// The events that leave these names as they are in the image.
fn events_of(alloc: Global, map: BTreeMap<Name, Standing>) -> Result<Vec<Event>, AllocError>
    ensures { IfOk result (λ events. (contents image : Image) → Represents ⟦<Name as Ord>⟧.cmp map contents image → found_in events.items ≡ image) }
{
    let standings = in_order(alloc, map)?;
    let mut events = Vec::new(alloc);
    for (name, standing) in &standings {
        keep(alloc, &mut events, *name, standing)?;
    }
    Ok(events)
}

// The names of a map, in order, and what they stand for.
fn in_order(
    alloc: Global,
    map: BTreeMap<Name, Standing>,
) -> Result<Vec<(Name, Standing)>, AllocError>
    ensures order { IfOk result (λ list. IsStrictlySortedBy ⟦<Name as Ord>⟧.cmp (keys_of list.items)) }
    ensures items { IfOk result (λ list. list.items ≡ map.entries) }
{
    Ok(map.into_iter().collect(alloc)?)
}

// One name more.
fn keep(
    alloc: Global,
    events: &mut Vec<Event>,
    name: Name,
    standing: &Standing,
) -> Result<(), AllocError>
    ensures { OnOk result (found_in events.new.items ≡ put_at name (left_of standing.now) (found_in events.old.items)) }
{
    let value = shared(alloc, standing.left(alloc)?)?;
    events.push(Event::Put(name, value))?;
    Ok(())
}

// The bytes, to be shared.
fn shared(alloc: Global, list: Option<Vec<u8>>) -> Result<Option<Arc<Bytes>>, AllocError>
    ensures { IfOk result (λ value. value_bytes value ≡ items_of list) }
{
    match list {
        Some(items) => Ok(Some(Arc::new(alloc, Bytes::new(items))?)),
        None => Ok(None),
    }
}

/// The events of one image that a crash may leave, picked by `choice`, where so many of the events were settled.
/// It takes time in proportion to the events and their bytes, but for the looking up of names.
pub fn image_left(
    alloc: Global,
    events: &[Event],
    settled: usize,
    choice: &[u8],
) -> Result<Vec<Event>, AllocError>
    requires bound { settled ≤ length events.now }
    ensures { IfOk result (λ left. found_in left.items ≡ picked (found_in (take settled events.now)) (drop settled events.now) choice.now) }
{
    let mut map = find_all(alloc, &events[..settled])?;
    happen_all(alloc, &mut map, &events[settled..], Choice { rest: choice })?;
    events_of(alloc, map)
}
