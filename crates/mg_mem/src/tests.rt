//! A memtable by hand: writes, look-ups, and freezing.

ghost use Rattle.std.specs.Prelude.{◌≡◌, IfOk};

use crate::{Active, Frozen, same};
use mg_types::{Doc, Item, Key, SEQ_LIMIT};
use std::alloc::Global;
use std::test::Fail;

fn key(alloc: Global, text: &[u8]) -> Result<Key, Fail> {
    Ok(Key::new(alloc, text)?.ok_or("no key")?)
}

/// An item of this key and document; None makes it a delete.
fn item(alloc: Global, seq: u64, text: &[u8], doc: Option<&[u8]>) -> Result<Item, Fail>
    ensures { IfOk result (λ item. item.seq ≡ seq) }
{
    let doc = match doc {
        Some(bytes) => Some(Doc::new(alloc, bytes)?.ok_or("no document")?),
        None => None,
    };
    Ok(Item {
        seq,
        key: key(alloc, text)?,
        doc,
    })
}

/// Writes an item of this key and document with the next number.
fn write(alloc: Global, active: &mut Active, text: &[u8], doc: Option<&[u8]>) -> Result<(), Fail> {
    let last = active.hi();
    if last >= SEQ_LIMIT {
        return Err("no number is left".into());
    }
    let item = item(alloc, last + 1, text, doc)?;
    active.insert(alloc, item)?;
    Ok(())
}

/// The memtable of these writes, of the numbers from 1 on.
fn written(alloc: Global, writes: &[(&[u8], Option<&[u8]>)]) -> Result<Active, Fail> {
    let mut active = Active::new(alloc, 0);
    for (text, doc) in writes {
        write(alloc, &mut active, text, *doc)?;
    }
    Ok(active)
}

fn frozen(alloc: Global, active: Active, change: u64) -> Result<Frozen, Fail> {
    match active.freeze(alloc, change) {
        Ok(frozen) => Ok(frozen),
        Err(_) => Err("no memory".into()),
    }
}

fn is_item(item: &Item, seq: u64, text: &[u8], doc: Option<&[u8]>) -> bool {
    let same_doc = match (&item.doc, doc) {
        (Some(kept), Some(doc)) => kept.bytes() == doc,
        (None, None) => true,
        _ => false,
    };
    item.seq == seq && item.key.bytes() == text && same_doc
}

#[test]
fn the_second_write_of_a_key_replaces_the_first(rt: HostRuntime) -> Result<(), Fail> {
    let alloc = rt.alloc();
    let active = written(alloc, &[(b"a", Some(b"1")), (b"a", Some(b"22"))])?;
    let a = key(alloc, b"a")?;
    assert!(rt;
        active
            .get(&a)
            .is_some_and(|item| is_item(item, 2, b"a", Some(b"22")))
    );
    assert_eq!(rt; (active.lo(), active.hi(), active.bytes()), (0, 2, 3));
    let frozen = frozen(alloc, active, 2)?;
    assert_eq!(rt;
        (frozen.lo(), frozen.hi(), frozen.change(), frozen.bytes()),
        (0, 2, 2, 3)
    );
    assert!(rt;
        frozen
            .get(&a)
            .is_some_and(|item| is_item(item, 2, b"a", Some(b"22")))
    );
    Ok(())
}

/// Writes of the numbers 1 to 5.
const WRITES: [(&[u8], Option<&[u8]>); 5] = [
    (b"b", Some(b"xx")),
    (b"a", Some(b"1")),
    (b"b", None),
    (b"c", Some(b"")),
    (b"a", Some(b"22")),
];

/// The newest item of each key, in the order of the keys.
const NEWEST: [(u64, &[u8], Option<&[u8]>); 3] = [
    (5, b"a", Some(b"22")),
    (3, b"b", None),
    (4, b"c", Some(b"")),
];

#[test]
fn each_key_has_its_newest_item(rt: HostRuntime) -> Result<(), Fail> {
    let alloc = rt.alloc();
    let active = written(alloc, &WRITES)?;
    assert_eq!(rt; (active.count(), active.bytes()), (3, 5));
    let copy = active.copy(alloc)?;
    let frozen = frozen(alloc, active, 7)?;
    for (seq, text, doc) in NEWEST {
        let name = key(alloc, text)?;
        assert!(rt;
            copy.get(&name)
                .is_some_and(|item| is_item(item, seq, text, doc))
        );
        assert!(rt;
            frozen
                .get(&name)
                .is_some_and(|item| is_item(item, seq, text, doc))
        );
    }
    for text in [b"B".as_slice(), b"aa", b"bb", b"d"] {
        let name = key(alloc, text)?;
        assert!(rt; copy.get(&name).is_none());
        assert!(rt; frozen.get(&name).is_none());
    }
    let mut numbers = Vec::new(alloc);
    for item in frozen.by_number(alloc)? {
        numbers.push(item.seq)?;
    }
    assert_eq!(rt; numbers.as_slice(), [3, 4, 5].as_slice());
    Ok(())
}

#[test]
fn frozen_memtables_are_compared_whole(rt: HostRuntime) -> Result<(), Fail> {
    let alloc = rt.alloc();
    let one = frozen(alloc, written(alloc, &WRITES)?, 7)?;
    let again = frozen(alloc, written(alloc, &WRITES)?, 7)?;
    assert!(rt; same(&one, &again));
    let later = frozen(alloc, written(alloc, &WRITES)?, 8)?;
    assert!(rt; !same(&one, &later));
    let mut writes = WRITES;
    writes[4] = (b"a", Some(b"23"));
    let other = frozen(alloc, written(alloc, &writes)?, 7)?;
    assert!(rt; !same(&one, &other));
    writes[4] = (b"a", None);
    let gone = frozen(alloc, written(alloc, &writes)?, 7)?;
    assert!(rt; !same(&one, &gone));
    let fewer = frozen(alloc, written(alloc, &WRITES[..4])?, 7)?;
    assert!(rt; !same(&one, &fewer));
    Ok(())
}
