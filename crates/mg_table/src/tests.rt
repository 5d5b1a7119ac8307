ghost use Rattle.std.specs.Prelude.{◌≢◌, [], OnOk};

use super::*;
use mg_disk::Files;
use mg_memdisk::{MemDraft, MemFiles, MemSealed};
use mg_sealed::{CountingFiles, append_frame, seal_frames, start_frames};
use mg_types::{Entry, Fault, FileId, Key, Kind};
use std::alloc::Global;
use std::test::Fail;

const ID: FileId = FileId {
    part: 0,
    kind: Kind::Table,
    number: 7,
};

/// The table over (0, 3] of a (number 3, size 2) and b (number 2, size 2), made by another program.
const WORKED: [u8; 189] = [
    0x00, 0x00, 0x00, 0x22, 0x00, 0x00, 0x00, 0x00, 0x00, 0x00, 0x00, 0x00, 0x00, 0x01, 0x61, 0x0d,
    0x00, 0x00, 0x00, 0x00, 0x00, 0x00, 0x00, 0x03, 0x00, 0x00, 0x00, 0x02, 0x00, 0x00, 0x01, 0x62,
    0x0d, 0x00, 0x00, 0x00, 0x00, 0x00, 0x00, 0x00, 0x02, 0x00, 0x00, 0x00, 0x02, 0x00, 0x62, 0xa0,
    0x30, 0x85, 0x1e, 0xa7, 0x39, 0xd3, 0x00, 0x00, 0x00, 0x0e, 0x00, 0x00, 0x00, 0x00, 0x00, 0x00,
    0x00, 0x01, 0x01, 0x61, 0x00, 0x00, 0x00, 0x00, 0x00, 0x00, 0x00, 0x00, 0x00, 0x00, 0x00, 0x36,
    0x30, 0xcd, 0xc5, 0x97, 0x05, 0xc1, 0xb2, 0x3a, 0x00, 0x00, 0x00, 0x08, 0x00, 0x00, 0x00, 0x00,
    0x00, 0x00, 0x00, 0x02, 0x21, 0x24, 0x44, 0x00, 0x20, 0x40, 0x1c, 0x01, 0x0a, 0xa2, 0xb3, 0x4f,
    0xfb, 0x35, 0xa7, 0x7a, 0x00, 0x00, 0x00, 0x35, 0x00, 0x00, 0x00, 0x00, 0x00, 0x00, 0x00, 0x03,
    0x01, 0x00, 0x00, 0x00, 0x00, 0x00, 0x00, 0x00, 0x02, 0x00, 0x00, 0x00, 0x00, 0x00, 0x00, 0x00,
    0x04, 0x00, 0x00, 0x00, 0x00, 0x00, 0x00, 0x00, 0x00, 0x00, 0x00, 0x00, 0x00, 0x00, 0x00, 0x00,
    0x03, 0x00, 0x00, 0x00, 0x00, 0x00, 0x00, 0x00, 0x36, 0x00, 0x00, 0x00, 0x00, 0x00, 0x00, 0x00,
    0x58, 0x00, 0x00, 0x00, 0x01, 0xec, 0x08, 0x33, 0xe8, 0xe2, 0xe7, 0xe1, 0xc2,
];

fn entry(alloc: Global, key: &[u8], seq: u64, size: u32, gone: bool) -> Result<Entry, Fault> {
    let Some(key) = Key::new(alloc, key)? else {
        return Err(Fault::BadWords);
    };
    Ok(Entry {
        key,
        seq,
        size,
        gone,
    })
}

fn push(
    alloc: Global,
    port: &mut MemFiles,
    writer: &mut TableWriter<MemDraft>,
    entry: &Entry,
) -> Result<(), Fault>
    ensures { OnOk result (writer.new.block ≢ []) }
{
    if writer.is_full() || !writer.is_above(&entry.key) || !entry.fits() {
        return Err(Fault::BadWords);
    }
    writer.push(alloc, port, entry)
}

/// The worked table, where so many entries may come.
fn worked_of(alloc: Global, port: &mut MemFiles, most: u64) -> Result<Table<MemSealed>, Fault> {
    if most > 1 << 32 {
        return Err(Fault::BadWords);
    }
    let mut writer = TableWriter::new(alloc, port, ID, 0, 3, most)?;
    push(alloc, port, &mut writer, &entry(alloc, b"a", 3, 2, false)?)?;
    push(alloc, port, &mut writer, &entry(alloc, b"b", 2, 2, false)?)?;
    writer.finish(alloc, port)
}

fn worked(alloc: Global, port: &mut MemFiles) -> Result<Table<MemSealed>, Fault> {
    worked_of(alloc, port, 2)
}

fn bytes_of(
    alloc: Global,
    port: &mut MemFiles,
    table: &Table<MemSealed>,
) -> Result<Vec<u8>, Fault> {
    let mut bytes = vec![in alloc; 0u8; 10_000]?;
    let Ok(count) = port.read(alloc, &table.sealed().file, 0, &mut bytes) else {
        return Err(Fault::ReadFault);
    };
    bytes.truncate(count);
    Ok(bytes)
}

#[test]
fn a_table_is_the_worked_one(rt: HostRuntime) -> Result<(), Fail> {
    let alloc = rt.alloc();
    // The first bound is the number of entries; for the others the filter is made larger, and folded.
    for most in [2, 7, 13, 10_000] {
        let mut port = MemFiles::new(Vec::new(alloc));
        let table = worked_of(alloc, &mut port, most)?;
        assert_eq!(rt; table.count(), 2);
        assert_eq!(rt; table.bytes(), 4);
        assert_eq!(rt; table.span(), (0, 3));
        assert_eq!(rt;
            bytes_of(alloc, &mut port, &table)?.as_slice(),
            WORKED.as_slice(),
            "where {most} may come"
        );
    }
    Ok(())
}

fn seal(alloc: Global, port: &mut MemFiles, bytes: &[u8]) -> Result<MemSealed, Fault> {
    let Ok(mut draft) = port.fresh(alloc) else {
        return Err(Fault::WriteFault);
    };
    if port.append(alloc, &mut draft, bytes).is_err() {
        return Err(Fault::WriteFault);
    }
    port.seal(alloc, draft).map_err(|_| Fault::WriteFault)
}

/// The table of these bytes, of which this length is kept.
fn load(
    alloc: Global,
    port: &mut MemFiles,
    bytes: &[u8],
    len: u64,
) -> Result<Table<MemSealed>, Fault> {
    let file = seal(alloc, port, bytes)?;
    if len >= 1 << 62 {
        return Err(Fault::BadWords);
    }
    Table::load(alloc, port, ID, file, len)
}

#[test]
fn the_worked_table_is_loaded(rt: HostRuntime) -> Result<(), Fail> {
    let alloc = rt.alloc();
    let mut port = MemFiles::new(Vec::new(alloc));
    let table = load(alloc, &mut port, &WORKED, 189)?;
    assert_eq!(rt; table.count(), 2);
    assert_eq!(rt; table.bytes(), 4);
    assert_eq!(rt; table.span(), (0, 3));
    assert_eq!(rt; table.indexed.handles().len(), 1);
    let handle = &table.indexed.handles()[0];
    assert_eq!(rt; handle.first.bytes(), b"a".as_slice());
    assert_eq!(rt; (handle.at, handle.len), (0, 54));
    assert_eq!(rt;
        table.filter.bytes(),
        [0x21, 0x24, 0x44, 0, 0x20, 0x40, 0x1c, 1].as_slice()
    );
    Ok(())
}

/// What a table has of a key: number and size, and whether it is a delete.
fn found(
    alloc: Global,
    port: &mut MemFiles,
    table: &Table<MemSealed>,
    key: &[u8],
) -> Result<Option<(u64, u32, bool)>, Fault> {
    let Some(key) = Key::new(alloc, key)? else {
        return Err(Fault::BadWords);
    };
    let entry = table.find(alloc, port, &key)?;
    Ok(entry.map(|entry| (entry.seq, entry.size, entry.gone)))
}

#[test]
fn the_worked_table_answers(rt: HostRuntime) -> Result<(), Fail> {
    let alloc = rt.alloc();
    let mut port = MemFiles::new(Vec::new(alloc));
    let table = worked(alloc, &mut port)?;
    assert!(rt; found(alloc, &mut port, &table, b"a")? == Some((3, 2, false)));
    assert!(rt; found(alloc, &mut port, &table, b"b")? == Some((2, 2, false)));
    assert!(rt; found(alloc, &mut port, &table, b"c")?.is_none());
    assert!(rt; found(alloc, &mut port, &table, b"A")?.is_none());
    let all = table.scan(alloc, &mut port)?;
    assert_eq!(rt; all.len(), 2);
    for (entry, (key, seq)) in all
        .as_slice()
        .iter()
        .zip([(b"a".as_slice(), 3), (b"b".as_slice(), 2)])
    {
        assert_eq!(rt; entry.key.bytes(), key);
        assert_eq!(rt; entry.seq, seq);
    }
    Ok(())
}

#[test]
fn a_load_reads_no_block_and_a_find_reads_one(rt: HostRuntime) -> Result<(), Fail> {
    let alloc = rt.alloc();
    // Three calls write the file, one asks for its length, and three read footer, index and filter.
    let mut port = MemFiles::new(Vec::from_array(alloc, [8, 10])?);
    let table = load(alloc, &mut port, &WORKED, 189)?;
    assert_eq!(rt; table.sealed().len, 189);
    let failed = found(alloc, &mut port, &table, b"a");
    assert!(rt; matches!(failed, Err(Fault::ReadFault)));
    assert!(rt; found(alloc, &mut port, &table, b"a")? == Some((3, 2, false)));
    // No block begins with a key up to this one, so that none is read.
    assert!(rt; found(alloc, &mut port, &table, b"A")?.is_none());
    let failed = found(alloc, &mut port, &table, b"b");
    assert!(rt; matches!(failed, Err(Fault::ReadFault)));
    Ok(())
}

/// Whether the entries are those of the worked table.
fn is_worked(entries: &[Entry]) -> bool {
    let [first, second] = entries else {
        return false;
    };
    first.key.bytes() == b"a".as_slice()
        && (first.seq, first.size, first.gone) == (3, 2, false)
        && second.key.bytes() == b"b".as_slice()
        && (second.seq, second.size, second.gone) == (2, 2, false)
}

/// Whether a file of these bytes and of this length is refused by its name, or is the worked table.
fn is_refused_or_worked(alloc: Global, bytes: &[u8], len: u64) -> bool {
    let mut port = MemFiles::new(Vec::new(alloc));
    let entries = match load(alloc, &mut port, bytes, len) {
        Ok(table) => table.scan(alloc, &mut port),
        Err(fault) => Err(fault),
    };
    match entries {
        Ok(entries) => is_worked(entries.as_slice()),
        Err(Fault::Damaged { file, .. }) => file == ID,
        Err(Fault::Malformed { file, .. }) => file == ID,
        Err(_) => false,
    }
}

#[test]
fn each_altered_byte_is_refused_or_changes_nothing(rt: HostRuntime) {
    for at in 0..WORKED.len() {
        for change in [1u8, 2, 4, 8, 16, 32, 64, 128, 255] {
            let mut bytes = WORKED;
            bytes[at] ^= change;
            let fine = is_refused_or_worked(rt.alloc(), &bytes, 189);
            assert!(rt; fine, "byte {at}, change {change}");
        }
    }
}

/// The table of the frames with these bodies, whose digests are right.
fn table_of(
    alloc: Global,
    port: &mut MemFiles,
    bodies: &[&[u8]],
) -> Result<Table<MemSealed>, Fault> {
    let mut writer = start_frames(alloc, port)?;
    for body in bodies {
        if body.len() > 100 || writer.len() > 10_000 {
            return Err(Fault::BadWords);
        }
        append_frame(alloc, port, &mut writer, body)?;
    }
    let len = writer.len();
    if len > 10_000 {
        return Err(Fault::BadWords);
    }
    let file = seal_frames(alloc, port, writer, ID)?;
    Table::load(alloc, port, ID, file.file, len)
}

/// How many entries are listed of the table of these frames, and whether its filter is theirs.
fn scanned(alloc: Global, bodies: &[&[u8]]) -> Result<(usize, bool), Fault> {
    let mut port = MemFiles::new(Vec::new(alloc));
    let table = table_of(alloc, &mut port, bodies)?;
    let entries = table.scan(alloc, &mut port)?;
    let right = table.has_filter_of(alloc, entries.as_slice())?;
    Ok((entries.len(), right))
}

/// The bodies of the worked table's frames: the block from 0, the index from 34, the filter from 48, the footer from 56.
const BODIES: [u8; 109] =
    *b"\0\x01a\x0d\0\0\0\0\0\0\0\x03\0\0\0\x02\0\0\x01b\x0d\0\0\0\0\0\0\0\x02\0\0\0\x02\0\
    \x01a\0\0\0\0\0\0\0\0\0\0\0\x36\
    \x21\x24\x44\0\x20\x40\x1c\x01\
    \x01\0\0\0\0\0\0\0\x02\0\0\0\0\0\0\0\x04\0\0\0\0\0\0\0\0\0\0\0\0\0\0\0\x03\
    \0\0\0\0\0\0\0\x36\0\0\0\0\0\0\0\x58\0\0\0\x01";

/// These bodies with another byte at a place.
fn altered(at: usize, byte: u8) -> [u8; 109] {
    let mut bodies = BODIES;
    if at < 109 {
        bodies[at] = byte;
    }
    bodies
}

/// What `scanned` says of the worked table with another byte at a place of these bodies.
fn scanned_altered(alloc: Global, at: usize, byte: u8) -> Result<(usize, bool), Fault> {
    let bodies = altered(at, byte);
    scanned(
        alloc,
        &[
            &bodies[..34],
            &bodies[34..48],
            &bodies[48..56],
            &bodies[56..],
        ],
    )
}

const fn malformed(at: u64) -> Fault {
    Fault::Malformed { file: ID, at }
}

#[test]
fn frames_of_no_table_are_refused(rt: HostRuntime) {
    for (at, byte, answer) in [
        (0, 0, Ok((2, true))),
        // A bit of the filter, the footer's count and its sum, the first key in the index.
        (55, 3, Ok((2, false))),
        (64, 3, Err(malformed(116))),
        (72, 5, Err(malformed(116))),
        (35, b'A', Err(malformed(0))),
        // The number 0, and a key twice.
        (11, 0, Err(malformed(0))),
        (19, b'a', Err(malformed(0))),
    ] {
        let seen = scanned_altered(rt.alloc(), at, byte);
        assert!(rt; seen == answer, "byte {at}");
    }
}

/// The index of two blocks where one would do, and the footer that says them.
const TWO_HANDLES: &[u8] = b"\x01a\0\0\0\0\0\0\0\0\0\0\0\x25\x01b\0\0\0\0\0\0\0\x25\0\0\0\x25";

const TWO_BLOCKS: &[u8] =
    b"\x01\0\0\0\0\0\0\0\x02\0\0\0\0\0\0\0\x04\0\0\0\0\0\0\0\0\0\0\0\0\0\0\0\x03\
    \0\0\0\0\0\0\0\x4a\0\0\0\0\0\0\0\x7a\0\0\0\x02";

#[test]
fn a_block_that_was_closed_too_early_is_refused(rt: HostRuntime) {
    let seen = scanned(
        rt.alloc(),
        &[
            &BODIES[..17],
            &BODIES[17..34],
            TWO_HANDLES,
            &BODIES[48..56],
            TWO_BLOCKS,
        ],
    );
    assert!(rt; seen == Err(malformed(37)));
}

/// The same of two blocks, of which the first has the key with which the second one begins.
const TWICE_HANDLES: &[u8] = b"\x01a\0\0\0\0\0\0\0\0\0\0\0\x36\x01b\0\0\0\0\0\0\0\x36\0\0\0\x25";

const TWICE: &[u8] = b"\x01\0\0\0\0\0\0\0\x03\0\0\0\0\0\0\0\x06\0\0\0\0\0\0\0\0\0\0\0\0\0\0\0\x03\
    \0\0\0\0\0\0\0\x5b\0\0\0\0\0\0\0\x8b\0\0\0\x02";

/// How many entries are listed of the block of this number in the table of these frames.
fn page_len(alloc: Global, bodies: &[&[u8]], number: usize) -> Result<usize, Fault> {
    let mut port = MemFiles::new(Vec::new(alloc));
    let table = table_of(alloc, &mut port, bodies)?;
    if number >= table.blocks() {
        return Err(Fault::BadWords);
    }
    let mut buffer = Vec::new(alloc);
    let page = table.page(alloc, &mut port, number, &mut buffer)?;
    Ok(page.len())
}

#[test]
fn a_page_is_a_block_judged_by_the_index(rt: HostRuntime) {
    let filter = &BODIES[48..56];
    let early = [
        &BODIES[..17],
        &BODIES[17..34],
        TWO_HANDLES,
        filter,
        TWO_BLOCKS,
    ];
    let twice = [&BODIES[..34], &BODIES[17..34], TWICE_HANDLES, filter, TWICE];
    // That the second block of the first table has room in the one before is not asked.
    for (bodies, number, answer) in [
        (&early, 0, Ok(1)),
        (&early, 1, Ok(1)),
        (&twice, 0, Err(malformed(0))),
        (&twice, 1, Ok(1)),
    ] {
        let seen = page_len(rt.alloc(), bodies, number);
        assert!(rt; seen == answer, "block {number}");
    }
}

#[test]
fn a_find_judges_the_first_key_of_its_block(rt: HostRuntime) -> Result<(), Fail> {
    let alloc = rt.alloc();
    let mut port = MemFiles::new(Vec::new(alloc));
    // The block begins with "a", and its handle says "A".
    let bodies = altered(35, b'A');
    let table = table_of(
        alloc,
        &mut port,
        &[
            &bodies[..34],
            &bodies[34..48],
            &bodies[48..56],
            &bodies[56..],
        ],
    )?;
    for key in [b"a".as_slice(), b"b".as_slice()] {
        let seen = found(alloc, &mut port, &table, key);
        assert!(rt; seen == Err(malformed(0)));
    }
    Ok(())
}

#[test]
fn no_more_bytes_are_read_than_are_wanted(rt: HostRuntime) -> Result<(), Fail> {
    let alloc = rt.alloc();
    let mut files = MemFiles::new(Vec::new(alloc));
    let file = seal(alloc, &mut files, &WORKED)?;
    let mut port = CountingFiles::new(files);
    let table = Table::load(alloc, &mut port, ID, file, 189)?;
    // The frames of the footer, of the index and of the filter.
    assert_eq!(rt; port.take_reads(), (3, 73 + 34 + 28));
    for (key, counts) in [
        (b"A".as_slice(), (0, 0)),
        (b"a".as_slice(), (1, 54)),
        (b"b".as_slice(), (1, 54)),
    ] {
        let Some(key) = Key::new(alloc, key)? else {
            return Err(Fault::BadWords)?;
        };
        table.find(alloc, &mut port, &key)?;
        assert_eq!(rt; port.take_reads(), counts);
    }
    table.scan(alloc, &mut port)?;
    assert_eq!(rt; port.take_reads(), (1, 54));
    Ok(())
}

/// A key of 20 bytes.
fn key_of(number: u64) -> [u8; 20] {
    let mut key = *b"key number 000000000";
    let mut left = number;
    for at in (11..20).rev() {
        if at < 20 {
            key[at] = b'0' + (left % 10) as u8;
        }
        left /= 10;
    }
    key
}

#[test]
fn each_of_many_keys_is_found_and_no_other(rt: HostRuntime) -> Result<(), Fail> {
    let alloc = rt.alloc();
    let mut port = MemFiles::new(Vec::new(alloc));
    let mut writer = TableWriter::new(alloc, &mut port, ID, 0, 300, 5_000)?;
    for number in 0..300u64 {
        let entry = entry(alloc, &key_of(2 * number), number + 1, 23, number % 3 == 0)?;
        push(alloc, &mut port, &mut writer, &entry)?;
    }
    if writer.is_empty() {
        return Err(Fault::BadWords)?;
    }
    let table = writer.finish(alloc, &mut port)?;
    // Made by another program: 5,933 bytes, of which the first block's frame has the most.
    assert_eq!(rt; bytes_of(alloc, &mut port, &table)?.len(), 5_933);
    assert_eq!(rt; table.indexed.handles().len(), 2);
    // The filter was made for 5,000 keys with 65,536 bits, and folded to the 4,096 of 300 keys.
    assert_eq!(rt; table.filter.bytes().len(), 512);
    assert_eq!(rt; table.filter.memory(), 512);
    for number in 0..300u64 {
        let seen = found(alloc, &mut port, &table, &key_of(2 * number))?;
        assert!(rt; seen == Some((number + 1, 23, number % 3 == 0)), "{number}");
        let between = found(alloc, &mut port, &table, &key_of(2 * number + 1))?;
        assert!(rt; between.is_none(), "{number}");
    }
    assert_eq!(rt; table.scan(alloc, &mut port)?.len(), 300);
    Ok(())
}
