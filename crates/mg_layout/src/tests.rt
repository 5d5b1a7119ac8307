ghost use Rattle.std.specs.Prelude.{◌≢◌, [], OnOk};

use super::*;
use mg_disk::Files;
use mg_memdisk::{MemDraft, MemFiles, MemSealed};
use mg_segment::{Segment, SegmentWriter};
use mg_table::{Table, TableWriter};
use mg_types::{Doc, Entry, Fault, FileId, Item, Key, Kind};
use std::alloc::Global;
use std::sync::Arc;
use std::test::Fail;

const fn id(kind: Kind, number: u64) -> FileId {
    FileId {
        part: 0,
        kind,
        number,
    }
}

/// A mutation by its number, its key and its document.
type Row = (u64, &'static [u8], Option<&'static [u8]>);

/// Rows in the order of their keys, and of their numbers.
const OLDER: [Row; 3] = [
    (1, b"a", Some(b"x")),
    (2, b"b", Some(b"y")),
    (3, b"d", Some(b"w")),
];

const NEWER: [Row; 3] = [
    (4, b"a", Some(b"z")),
    (5, b"c", Some(b"vv")),
    (6, b"d", None),
];

fn key(alloc: Global, bytes: &[u8]) -> Result<Key, Fault> {
    Key::new(alloc, bytes)?.ok_or(Fault::BadWords)
}

fn item(alloc: Global, row: Row) -> Result<Item, Fault> {
    let doc = match row.2 {
        Some(doc) => Doc::new(alloc, doc)?,
        None => None,
    };
    Ok(Item {
        seq: row.0,
        key: key(alloc, row.1)?,
        doc,
    })
}

fn entry(alloc: Global, row: Row) -> Result<Entry, Fault> {
    let doc_len = match row.2 {
        Some(doc) => doc.len(),
        None => 0,
    };
    if row.1.len() > 250 || doc_len > 1_000 {
        return Err(Fault::BadWords);
    }
    Ok(Entry {
        key: key(alloc, row.1)?,
        seq: row.0,
        size: (row.1.len() + doc_len) as u32,
        gone: row.2.is_none(),
    })
}

fn push_entry(
    alloc: Global,
    port: &mut MemFiles,
    writer: &mut TableWriter<MemDraft>,
    entry: &Entry,
) -> Result<(), Fault> {
    if writer.is_full() || !writer.is_above(&entry.key) || !entry.fits() {
        return Err(Fault::BadWords);
    }
    writer.push(alloc, port, entry)
}

/// The table of these rows over the interval above `lo` up to `hi`.
fn table(
    alloc: Global,
    port: &mut MemFiles,
    number: u64,
    span: (u64, u64),
    rows: &[Row],
) -> Result<Table<MemSealed>, Fault> {
    if span.0 > 1_000 || span.1 > 1_000 {
        return Err(Fault::BadWords);
    }
    let id = id(Kind::Table, number);
    let mut writer = TableWriter::new(alloc, port, id, span.0, span.1, 10)?;
    for row in rows {
        push_entry(alloc, port, &mut writer, &entry(alloc, *row)?)?;
    }
    if writer.is_empty() {
        return Err(Fault::BadWords);
    }
    writer.finish(alloc, port)
}

fn segment(
    alloc: Global,
    port: &mut MemFiles,
    number: u64,
    rows: &[Row],
) -> Result<Segment<MemSealed>, Fault> {
    let mut writer = SegmentWriter::new(alloc, port, id(Kind::Segment, number))?;
    for row in rows {
        let item = item(alloc, *row)?;
        if !writer.takes(&item) {
            return Err(Fault::BadWords);
        }
        writer.push(alloc, port, &item)?;
    }
    if writer.count() == 0 {
        return Err(Fault::BadWords);
    }
    writer.finish(alloc, port)
}

fn run(alloc: Global, span: (u64, u64), table: Table<MemSealed>) -> Result<Run<MemSealed>, Fault> {
    Ok(Run {
        lo: span.0,
        hi: span.1,
        table: Arc::new(alloc, table)?,
    })
}

/// The layout of two runs and two segments, with the older run's table as it is given.
fn layout_over(
    alloc: Global,
    port: &mut MemFiles,
    older: Table<MemSealed>,
) -> Result<Layout<MemSealed>, Fault> {
    let newer = table(alloc, port, 3, (3, 6), &NEWER)?;
    let mut runs = Vec::new(alloc);
    runs.push(run(alloc, (3, 6), newer)?)?;
    runs.push(run(alloc, (0, 3), older)?)?;
    let mut segments = Vec::new(alloc);
    segments.push(Arc::new(alloc, segment(alloc, port, 2, &OLDER)?)?)?;
    segments.push(Arc::new(alloc, segment(alloc, port, 4, &NEWER)?)?)?;
    Ok(Layout::of(runs, segments, Vec::new(alloc)))
}

fn layout(alloc: Global) -> Result<Layout<MemSealed>, Fault> {
    let mut port = MemFiles::new(Vec::new(alloc));
    let older = table(alloc, &mut port, 1, (0, 3), &OLDER)?;
    layout_over(alloc, &mut port, older)
}

/// Whether this is read of a key.
fn reads(
    alloc: Global,
    layout: &Layout<MemSealed>,
    port: &mut MemFiles,
    name: &[u8],
    want: Option<(u64, &[u8])>,
) -> Result<bool, Fault> {
    let read = layout.read(alloc, port, &key(alloc, name)?)?;
    Ok(match (read, want) {
        (Some((seq, doc)), Some((want_seq, want_doc))) => {
            seq == want_seq && doc.bytes() == want_doc
        }
        (None, None) => true,
        _ => false,
    })
}

#[test]
fn the_newest_document_of_each_key_is_read(rt: HostRuntime) -> Result<(), Fail> {
    let alloc = rt.alloc();
    let mut port = MemFiles::new(Vec::new(alloc));
    let layout = layout(alloc)?;
    let shared = layout.share(alloc)?;
    for (name, want) in [
        (b"a".as_slice(), Some((4, b"z".as_slice()))),
        (b"b".as_slice(), Some((2, b"y".as_slice()))),
        (b"c".as_slice(), Some((5, b"vv".as_slice()))),
        (b"d".as_slice(), None),
        (b"q".as_slice(), None),
    ] {
        assert!(rt; reads(alloc, &layout, &mut port, name, want)?);
        assert!(rt; reads(alloc, &shared, &mut port, name, want)?);
    }
    let empty: Layout<MemSealed> = Layout::empty(alloc);
    assert!(rt; reads(alloc, &empty, &mut port, b"a", None)?);
    Ok(())
}

#[test]
fn entries_and_records_are_found(rt: HostRuntime) -> Result<(), Fail> {
    let alloc = rt.alloc();
    let mut port = MemFiles::new(Vec::new(alloc));
    let layout = layout(alloc)?;
    let deleted = layout.find(alloc, &mut port, &key(alloc, b"d")?)?;
    assert!(rt; deleted.is_some_and(|entry| (entry.seq, entry.size, entry.gone) == (6, 1, true)));
    assert!(rt; layout.find(alloc, &mut port, &key(alloc, b"q")?)?.is_none());
    for (seq, name) in [(1, b"a"), (3, b"d"), (4, b"a"), (6, b"d")] {
        let item = layout.item_of(alloc, &mut port, seq)?;
        assert!(rt;
            item.is_some_and(|item| item.seq == seq && item.key.bytes() == name.as_slice())
        );
    }
    for absent in [0, 7] {
        assert!(rt; layout.item_of(alloc, &mut port, absent)?.is_none());
    }
    Ok(())
}

#[test]
fn each_read_that_fails_is_answered_and_the_next_call_goes_on(rt: HostRuntime) -> Result<(), Fail> {
    let alloc = rt.alloc();
    let layout = layout(alloc)?;
    let want = Some((4, b"z".as_slice()));
    // One block of the newer table, and one of its segment.
    for call in 1..3u64 {
        let mut port = MemFiles::new(vec![in alloc; call]?);
        let failed = reads(alloc, &layout, &mut port, b"a", want);
        assert!(rt; failed == Err(Fault::ReadFault));
        assert!(rt; reads(alloc, &layout, &mut port, b"a", want)?);
    }
    let mut port = MemFiles::new(vec![in alloc; 3u64]?);
    assert!(rt; reads(alloc, &layout, &mut port, b"a", want)?);
    // Of a delete no segment is read.
    assert!(rt; reads(alloc, &layout, &mut port, b"d", None) == Err(Fault::ReadFault));
    assert!(rt; reads(alloc, &layout, &mut port, b"d", None)?);
    assert_eq!(rt; port.faults().get(), 1);
    Ok(())
}

/// The older table, with a byte of its first key altered. Its length stays, so that footer, index and filter are taken.
fn altered_table(alloc: Global, port: &mut MemFiles) -> Result<Table<MemSealed>, Fault> {
    let whole = table(alloc, port, 1, (0, 3), &OLDER)?;
    let mut bytes = vec![in alloc; 0u8; 1_000]?;
    let Ok(count) = port.read(alloc, &whole.sealed().file, 0, &mut bytes) else {
        return Err(Fault::ReadFault);
    };
    bytes.truncate(count);
    // Behind the front of 12 bytes a pair has two counts, and then its key.
    match bytes.get_mut(14) {
        Some(byte) => *byte ^= 1,
        None => return Err(Fault::BadWords),
    }
    let Ok(mut draft) = port.fresh(alloc) else {
        return Err(Fault::WriteFault);
    };
    if port.append(alloc, &mut draft, &bytes).is_err() {
        return Err(Fault::WriteFault);
    }
    let Ok(file) = port.seal(alloc, draft) else {
        return Err(Fault::WriteFault);
    };
    Table::load(alloc, port, id(Kind::Table, 1), file, count as u64)
}

#[test]
fn an_altered_block_is_named_and_other_keys_are_answered(rt: HostRuntime) -> Result<(), Fail> {
    let alloc = rt.alloc();
    let mut port = MemFiles::new(Vec::new(alloc));
    let older = altered_table(alloc, &mut port)?;
    let layout = layout_over(alloc, &mut port, older)?;
    let refused = reads(alloc, &layout, &mut port, b"b", None);
    let named = match refused {
        Err(Fault::Damaged { file, at, .. }) => (file, at) == (id(Kind::Table, 1), 0),
        _ => false,
    };
    assert!(rt; named);
    assert!(rt; reads(alloc, &layout, &mut port, b"a", Some((4, b"z")))?);
    assert!(rt; reads(alloc, &layout, &mut port, b"c", Some((5, b"vv")))?);
    assert!(rt; reads(alloc, &layout, &mut port, b"d", None)?);
    Ok(())
}
