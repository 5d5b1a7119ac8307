//! Limits of keys and documents, and the order of keys and names.

use crate::{Dead, Doc, Entry, Key, Kind, Name};
use std::alloc::Global;
use std::test::Fail;

fn letters(alloc: Global, count: usize) -> Result<Vec<u8>, Fail> {
    Ok(vec![in alloc; b'k'; count]?)
}

#[test]
fn keys_have_limits(rt: HostRuntime) -> Result<(), Fail> {
    let alloc = rt.alloc();
    assert!(rt; Key::new(alloc, b"")?.is_none());
    assert!(rt; Key::from_vec(letters(alloc, 251)?).is_none());
    assert!(rt; Key::new(alloc, letters(alloc, 251)?.as_slice())?.is_none());
    let longest = letters(alloc, 250)?;
    let key = Key::new(alloc, longest.as_slice())?.ok_or("no key")?;
    assert_eq!(rt; key.copy(alloc)?.bytes(), longest.as_slice());
    Ok(())
}

#[test]
fn keys_are_ordered_by_their_bytes(rt: HostRuntime) -> Result<(), Fail> {
    let alloc = rt.alloc();
    let short = Key::new(alloc, b"k")?.ok_or("no key")?;
    let long = Key::new(alloc, b"kk")?.ok_or("no key")?;
    let later = Key::new(alloc, b"l")?.ok_or("no key")?;
    assert!(rt; short < long);
    assert!(rt; long < later);
    let again = long.copy(alloc)?;
    assert!(rt; long == again);
    Ok(())
}

#[test]
fn documents_have_a_limit(rt: HostRuntime) -> Result<(), Fail> {
    let alloc = rt.alloc();
    let too_long = letters(alloc, 1_048_577)?;
    assert!(rt; Doc::new(alloc, too_long.as_slice())?.is_none());
    assert!(rt; Doc::from_vec(too_long).is_none());
    let largest = Doc::from_vec(letters(alloc, 1_048_576)?).ok_or("no document")?;
    assert_eq!(rt; largest.copy(alloc)?.bytes().len(), 1_048_576);
    Ok(())
}

#[test]
fn names_are_ordered_by_kind_and_then_by_number(rt: HostRuntime) {
    let kinds = [
        (Kind::Table, 1, true),
        (Kind::Segment, 2, true),
        (Kind::DelList, 3, true),
        (Kind::Manifest, 4, false),
        (Kind::Wal, 5, false),
    ];
    for (kind, code, is_file) in kinds {
        assert_eq!(rt; kind.code(), code);
        assert_eq!(rt; kind.is_file(), is_file);
        assert_eq!(rt; kind.is_log(), !is_file);
    }
    let name = |kind, number| Name { kind, number };
    assert!(rt; name(Kind::Table, 9) < name(Kind::Segment, 1));
    assert!(rt; name(Kind::Wal, 1) < name(Kind::Wal, 2));
}

#[test]
fn entries_have_limits(rt: HostRuntime) -> Result<(), Fail> {
    for (seq, size, fits) in [
        (1, 1, true),
        ((1 << 62) - 1, 1_048_826, true),
        (0, 1, false),
        (1 << 62, 1, false),
        (1, 0, false),
        (1, 1_048_827, false),
    ] {
        assert_eq!(rt; Dead { seq, size }.fits(), fits);
        let key = Key::new(rt.alloc(), b"k")?.ok_or("no key")?;
        let gone = false;
        assert_eq!(rt;
            Entry {
                key,
                seq,
                size,
                gone
            }
            .fits(),
            fits
        );
    }
    Ok(())
}
