use super::*;
use mg_disk::Files;
use mg_frame::{put_u32, put_u64};
use mg_memdisk::{MemDraft, MemFiles, MemSealed};
use mg_records::Record;
use mg_sealed::{append_frame, seal_frames, start_frames};
use mg_types::{Doc, Fault, FileId, Key, Kind};
use std::alloc::Global;
use std::test::Fail;

const ID: FileId = FileId {
    part: 0,
    kind: Kind::Segment,
    number: 5,
};

/// The segment with (2, b, y) and (3, a, z). Its digests were computed with another program.
const SEGMENT: &[u8] = b"\0\0\0\x20\0\0\0\0\0\0\0\0\
    \0\0\0\0\0\0\0\x02\x01\x01b\0\0\0\x01y\0\0\0\0\0\0\0\x03\x01\x01a\0\0\0\x01z\
    \xbd\x3e\x3d\xc5\x3f\xa8\x53\xa6\
    \0\0\0\x14\0\0\0\0\0\0\0\x01\0\0\0\0\0\0\0\x02\0\0\0\0\0\0\0\0\0\0\0\x34\xb6\x3c\x4f\x43\x22\x26\xb2\xbe\
    \0\0\0\x2d\0\0\0\0\0\0\0\x02\x01\0\0\0\0\0\0\0\x02\0\0\0\0\0\0\0\x04\0\0\0\0\0\0\0\x02\0\0\0\0\0\0\0\x03\
    \0\0\0\0\0\0\0\x34\0\0\0\x01\x93\xe6\x11\xf2\xed\x0a\xcb\x6e";

fn item(alloc: Global, seq: u64, key: &[u8], doc: Option<&[u8]>) -> Result<Item, Fault> {
    let Some(key) = Key::new(alloc, key)? else {
        return Err(Fault::BadWords);
    };
    let doc = match doc {
        Some(doc) => Doc::new(alloc, doc)?,
        None => None,
    };
    Ok(Item { seq, key, doc })
}

fn push(
    alloc: Global,
    port: &mut MemFiles,
    writer: &mut SegmentWriter<MemDraft>,
    item: &Item,
) -> Result<(), Fault> {
    if !writer.takes(item) {
        return Err(Fault::BadWords);
    }
    writer.push(alloc, port, item)
}

fn finish(
    alloc: Global,
    port: &mut MemFiles,
    writer: SegmentWriter<MemDraft>,
) -> Result<Segment<MemSealed>, Fault> {
    if writer.count() == 0 {
        return Err(Fault::BadWords);
    }
    writer.finish(alloc, port)
}

#[test]
fn a_segment_is_the_worked_one(rt: HostRuntime) -> Result<(), Fail> {
    let alloc = rt.alloc();
    let mut port = MemFiles::new(Vec::new(alloc));
    let mut writer = SegmentWriter::new(alloc, &mut port, ID)?;
    push(
        alloc,
        &mut port,
        &mut writer,
        &item(alloc, 2, b"b", Some(b"y"))?,
    )?;
    assert!(rt; !writer.takes(&item(alloc, 2, b"b", None)?));
    push(
        alloc,
        &mut port,
        &mut writer,
        &item(alloc, 3, b"a", Some(b"z"))?,
    )?;
    let segment = finish(alloc, &mut port, writer)?;
    assert_eq!(rt; segment.count(), 2);
    assert_eq!(rt; segment.bytes(), 4);
    assert_eq!(rt; segment.first(), 2);
    assert_eq!(rt; segment.last(), 3);
    let file = segment.sealed();
    assert_eq!(rt; file.len, 157);
    let mut bytes = [0; 160];
    let count = port.read(alloc, &file.file, 0, &mut bytes)?;
    assert_eq!(rt; bytes.get(..count), Some(SEGMENT));
    Ok(())
}

#[test]
fn what_contents_bytes_begin_with(rt: HostRuntime) {
    for (bytes, len) in [
        (b"\x01\x01b\0\0\0\x01y".as_slice(), Some(8)),
        (b"\x01\x01b\0\0\0\x01yz".as_slice(), Some(8)),
        (b"\x02\x02qr".as_slice(), Some(4)),
        (b"\x03\x01b".as_slice(), None),
        (b"\x02\0b".as_slice(), None),
        (b"\x02\x02b".as_slice(), None),
        (b"\x01\x01b\0\0\0".as_slice(), None),
        (b"\x01\x01b\0\0\0\x02y".as_slice(), None),
        (b"\x01\x01b\0\x10\0\x01y".as_slice(), None),
        (b"".as_slice(), None),
    ] {
        assert_eq!(rt; Item::measure(bytes), len);
    }
}

/// The segment of these bytes, of which this length is kept.
fn load(
    alloc: Global,
    port: &mut MemFiles,
    bytes: &[u8],
    len: u64,
) -> Result<Segment<MemSealed>, Fault> {
    if len >= 1 << 62 {
        return Err(Fault::BadWords);
    }
    let Ok(mut draft) = port.fresh(alloc) else {
        return Err(Fault::WriteFault);
    };
    if port.append(alloc, &mut draft, bytes).is_err() {
        return Err(Fault::WriteFault);
    }
    let Ok(file) = port.seal(alloc, draft) else {
        return Err(Fault::WriteFault);
    };
    Segment::load(alloc, port, ID, file, len)
}

/// All mutations of a file of these bytes.
fn read_all(alloc: Global, bytes: &[u8]) -> Result<Vec<Item>, Fault> {
    let mut port = MemFiles::new(Vec::new(alloc));
    let segment = load(alloc, &mut port, bytes, bytes.len() as u64)?;
    segment.scan(alloc, &mut port, 0)
}

fn is_item(item: &Item, seq: u64, key: &[u8], doc: &[u8]) -> bool {
    let same_doc = match &item.doc {
        Some(other) => other.bytes() == doc,
        None => false,
    };
    item.seq == seq && item.key.bytes() == key && same_doc
}

fn is_worked(items: &[Item]) -> bool {
    match items {
        [first, second] => is_item(first, 2, b"b", b"y") && is_item(second, 3, b"a", b"z"),
        _ => false,
    }
}

/// Whether it is a refusal that names the file.
fn is_named(fault: Fault) -> bool {
    match fault {
        Fault::Damaged { file, .. } => file == ID,
        Fault::Malformed { file, .. } => file == ID,
        _ => false,
    }
}

#[test]
fn a_segment_is_read(rt: HostRuntime) -> Result<(), Fail> {
    let alloc = rt.alloc();
    let mut port = MemFiles::new(Vec::new(alloc));
    let segment = load(alloc, &mut port, SEGMENT, 157)?;
    assert_eq!(rt; segment.count(), 2);
    let found = segment.get(alloc, &mut port, 3)?;
    assert!(rt; found.is_some_and(|item| is_item(&item, 3, b"a", b"z")));
    for absent in [0, 1, 4, u64::MAX] {
        assert!(rt; segment.get(alloc, &mut port, absent)?.is_none());
    }
    let all = segment.scan(alloc, &mut port, 0)?;
    assert!(rt; is_worked(&all));
    let rest = segment.scan(alloc, &mut port, 2)?;
    assert_eq!(rt; rest.len(), 1);
    assert!(rt;
        rest.first()
            .is_some_and(|item| is_item(item, 3, b"a", b"z"))
    );
    assert!(rt; segment.scan(alloc, &mut port, 3)?.is_empty());
    Ok(())
}

#[test]
fn each_altered_byte_is_refused_or_changes_nothing(rt: HostRuntime) -> Result<(), Fail> {
    let alloc = rt.alloc();
    for at in 0..SEGMENT.len() {
        for change in [1u8, 2, 4, 8, 16, 32, 64, 128, 255] {
            let mut bytes = SEGMENT.to_vec(alloc)?;
            bytes[at] ^= change;
            let fine = match read_all(alloc, &bytes) {
                Ok(items) => is_worked(&items),
                Err(fault) => is_named(fault),
            };
            assert!(rt; fine, "byte {at}, change {change}");
        }
    }
    Ok(())
}

#[test]
fn each_cut_is_refused(rt: HostRuntime) -> Result<(), Fail> {
    let alloc = rt.alloc();
    for (len, _) in SEGMENT.iter().enumerate() {
        let fine = match read_all(alloc, &SEGMENT[..len]) {
            Ok(_) => false,
            Err(fault) => is_named(fault),
        };
        assert!(rt; fine, "cut at {len}");
        let mut port = MemFiles::new(Vec::new(alloc));
        let kept = load(alloc, &mut port, &SEGMENT[..len], 157);
        let want = Fault::Damaged {
            file: ID,
            at: 0,
            kept: 157,
            found: len as u64,
        };
        assert!(rt; kept.err() == Some(want), "cut at {len}");
    }
    Ok(())
}

#[test]
fn the_shortest_and_the_longest_document_pass(rt: HostRuntime) -> Result<(), Fail> {
    let alloc = rt.alloc();
    let longest = vec![in alloc; b'd'; 1_048_576]?;
    let mut port = MemFiles::new(Vec::new(alloc));
    let mut writer = SegmentWriter::new(alloc, &mut port, ID)?;
    push(
        alloc,
        &mut port,
        &mut writer,
        &item(alloc, 1, b"a", Some(b""))?,
    )?;
    push(
        alloc,
        &mut port,
        &mut writer,
        &item(alloc, 2, b"b", Some(&longest))?,
    )?;
    push(alloc, &mut port, &mut writer, &item(alloc, 3, b"a", None)?)?;
    let segment = finish(alloc, &mut port, writer)?;
    assert_eq!(rt; segment.bytes(), 1_048_579);
    let first = segment.get(alloc, &mut port, 1)?;
    assert!(rt; first.is_some_and(|item| is_item(&item, 1, b"a", b"")));
    let second = segment.get(alloc, &mut port, 2)?;
    assert!(rt; second.is_some_and(|item| is_item(&item, 2, b"b", &longest)));
    let third = segment.get(alloc, &mut port, 3)?;
    assert!(rt; third.is_some_and(|item| item.doc.is_none()));
    Ok(())
}

/// How many mutations are listed of the file of frames with these bodies, whose digests are right.
fn count_listed(alloc: Global, bodies: &[&[u8]]) -> Result<usize, Fault> {
    let mut port = MemFiles::new(Vec::new(alloc));
    let mut writer = start_frames(alloc, &mut port)?;
    for body in bodies {
        if body.len() > 10_000 || writer.len() > 10_000 {
            return Err(Fault::BadWords);
        }
        append_frame(alloc, &mut port, &mut writer, body)?;
    }
    let len = writer.len();
    if len > 1 << 20 {
        return Err(Fault::BadWords);
    }
    let file = seal_frames(alloc, &mut port, writer, ID)?;
    let segment = Segment::load(alloc, &mut port, ID, file.file, len)?;
    Ok(segment.scan(alloc, &mut port, 0)?.len())
}

/// The bodies of the worked segment's frames: the block from 0, the index from 32, the footer from 52.
const BODIES: [u8; 97] =
    *b"\0\0\0\0\0\0\0\x02\x01\x01b\0\0\0\x01y\0\0\0\0\0\0\0\x03\x01\x01a\0\0\0\x01z\
    \0\0\0\0\0\0\0\x02\0\0\0\0\0\0\0\0\0\0\0\x34\
    \x01\0\0\0\0\0\0\0\x02\0\0\0\0\0\0\0\x04\0\0\0\0\0\0\0\x02\0\0\0\0\0\0\0\x03\
    \0\0\0\0\0\0\0\x34\0\0\0\x01";

/// The worked segment with another byte at a place of these bodies.
fn count_altered(alloc: Global, at: usize, byte: u8) -> Result<usize, Fault> {
    let mut bodies = BODIES;
    if at < 97 {
        bodies[at] = byte;
    }
    count_listed(alloc, &[&bodies[..32], &bodies[32..52], &bodies[52..]])
}

const fn malformed(at: u64) -> Fault {
    Fault::Malformed { file: ID, at }
}

const fn damaged(at: u64, kept: u64, found: u64) -> Fault {
    Fault::Damaged {
        file: ID,
        at,
        kept,
        found,
    }
}

/// The least number that is too great.
const BEYOND: u64 = 1 << 62;

#[test]
fn altered_records_are_refused(rt: HostRuntime) {
    let alloc = rt.alloc();
    assert!(rt; count_altered(alloc, 0, 0) == Ok(2));
    // another key: nothing tells of it but the digest
    assert!(rt; count_altered(alloc, 10, b'c') == Ok(2));
    for (at, byte, fault) in [
        // the first number: 0, and others than the handle's
        (7, 0, malformed(0)),
        (7, 1, malformed(0)),
        (7, 3, malformed(0)),
        (0, 0x40, damaged(0, BEYOND + 2, BEYOND)),
        // the second number: 0, falling, twice, above the last one, too great
        (23, 0, malformed(0)),
        (23, 1, malformed(0)),
        (23, 2, malformed(0)),
        (23, 4, malformed(0)),
        (16, 0x40, damaged(0, BEYOND + 3, BEYOND)),
        // no kind; a delete, so that the next number is 0x0000_0001_7900_0000
        (8, 0, malformed(0)),
        (8, 3, malformed(0)),
        (8, 2, malformed(0)),
        // a key without a byte; one of two, so that the document has 377 bytes; one that ends behind the block
        (9, 0, malformed(0)),
        (9, 2, malformed(0)),
        (25, 250, malformed(0)),
        (25, 251, malformed(0)),
        // a document of 0 bytes, so that the next number begins with "y"; of 2, so that it is 769; of 1,048,577
        (14, 0, damaged(0, 0x79 << 56, BEYOND)),
        (14, 2, malformed(0)),
        (12, 0x10, malformed(0)),
        // the last document ends before and behind the block
        (30, 0, malformed(0)),
        (30, 2, malformed(0)),
    ] {
        assert!(rt;
            count_altered(alloc, at, byte) == Err(fault),
            "byte {at} is {byte}"
        );
    }
}

#[test]
fn an_altered_index_or_footer_is_refused(rt: HostRuntime) {
    let alloc = rt.alloc();
    for (at, byte, fault) in [
        // the first number in the index: 0, others than the footer's, too great
        (39, 0, malformed(52)),
        (39, 1, malformed(92)),
        (39, 3, malformed(92)),
        (32, 0x40, damaged(52, BEYOND + 2, BEYOND)),
        // the block's offset and its length
        (47, 1, malformed(52)),
        (40, 0x40, damaged(52, BEYOND, BEYOND)),
        (51, 51, malformed(52)),
        (51, 53, malformed(52)),
        // the format
        (52, 0, malformed(92)),
        (52, 2, malformed(92)),
        // the count
        (60, 0, malformed(92)),
        (60, 1, malformed(92)),
        (60, 3, malformed(92)),
        (53, 0x40, damaged(92, BEYOND + 2, BEYOND)),
        // the sum
        (68, 3, malformed(92)),
        (68, 5, malformed(92)),
        (61, 0x40, damaged(92, BEYOND + 4, BEYOND)),
        // the first number
        (76, 1, malformed(92)),
        (76, 3, malformed(92)),
        (69, 0x40, damaged(92, BEYOND + 2, BEYOND)),
        // the last number: below the handle's, below the last record's, above it
        (84, 1, malformed(92)),
        (84, 2, malformed(0)),
        (84, 4, malformed(92)),
        (77, 0x40, damaged(92, BEYOND + 3, BEYOND)),
        // the index: the frames of block and footer are no index, and 150 is 7 bytes before the end
        (92, 0, damaged(0, 0, 1)),
        (92, 92, damaged(92, 2, 1)),
        (92, 150, damaged(150, 162, 157)),
        (85, 0x40, damaged(92, BEYOND + 52, BEYOND)),
        // the blocks
        (96, 0, damaged(92, 2, 1)),
        (96, 2, damaged(92, 2, 3)),
    ] {
        assert!(rt;
            count_altered(alloc, at, byte) == Err(fault),
            "byte {at} is {byte}"
        );
    }
}

/// The footer of two records of the numbers 2 and 3 with the sizes 2, with an index at this offset, below 256, and so many blocks.
fn footer_of(index: u8, blocks: u8) -> [u8; 45] {
    let mut footer =
        *b"\x01\0\0\0\0\0\0\0\x02\0\0\0\0\0\0\0\x04\0\0\0\0\0\0\0\x02\0\0\0\0\0\0\0\x03\
        \0\0\0\0\0\0\0\0\0\0\0\0";
    footer[40] = index;
    footer[44] = blocks;
    footer
}

const SECOND: &[u8] = b"\0\0\0\0\0\0\0\x02\x01\x01b\0\0\0\x01y";

const THIRD: &[u8] = b"\0\0\0\0\0\0\0\x03\x01\x01a\0\0\0\x01z";

const BOTH: &[u8] = b"\0\0\0\0\0\0\0\x02\x01\x01b\0\0\0\x01y\0\0\0\0\0\0\0\x03\x01\x01a\0\0\0\x01z";

const BOTH_AND_A_BYTE: &[u8] =
    b"\0\0\0\0\0\0\0\x02\x01\x01b\0\0\0\x01y\0\0\0\0\0\0\0\x03\x01\x01a\0\0\0\x01z\0";

/// The handle of an empty block, that of a block of ten bytes, that of `BOTH`, and that of a block of a byte more.
const EMPTY: &[u8] = b"\0\0\0\0\0\0\0\x02\0\0\0\0\0\0\0\0\0\0\0\x14";

const SHORT: &[u8] = b"\0\0\0\0\0\0\0\x02\0\0\0\0\0\0\0\0\0\0\0\x1e";

const RIGHT: &[u8] = b"\0\0\0\0\0\0\0\x02\0\0\0\0\0\0\0\0\0\0\0\x34";

const LONG: &[u8] = b"\0\0\0\0\0\0\0\x02\0\0\0\0\0\0\0\0\0\0\0\x35";

const RIGHT_AND_A_BYTE: &[u8] = b"\0\0\0\0\0\0\0\x02\0\0\0\0\0\0\0\0\0\0\0\x34\0";

/// Two handles of blocks of 36 bytes each, the second with the number 3, or with 2.
const TWO: &[u8] = b"\0\0\0\0\0\0\0\x02\0\0\0\0\0\0\0\0\0\0\0\x24\
    \0\0\0\0\0\0\0\x03\0\0\0\0\0\0\0\x24\0\0\0\x24";

const TWICE: &[u8] = b"\0\0\0\0\0\0\0\x02\0\0\0\0\0\0\0\0\0\0\0\x24\
    \0\0\0\0\0\0\0\x02\0\0\0\0\0\0\0\x24\0\0\0\x24";

/// What the frames of one block, of an index and of a footer with the index at this offset give.
fn count_one(alloc: Global, block: &[u8], index: &[u8], at: u8) -> Result<usize, Fault> {
    let footer = footer_of(at, 1);
    count_listed(alloc, &[block, index, &footer])
}

/// What the frames of two blocks, of an index and of its footer give.
fn count_two(alloc: Global, second: &[u8], index: &[u8]) -> Result<usize, Fault> {
    let footer = footer_of(72, 2);
    count_listed(alloc, &[SECOND, second, index, &footer])
}

#[test]
fn frames_of_no_segment_are_refused(rt: HostRuntime) {
    let alloc = rt.alloc();
    for (what, block, index, at, fault) in [
        // a block's frame has 31 bytes at least, those of a delete of one byte: a shorter one is refused at the index
        ("an empty block", b"".as_slice(), EMPTY, 20, malformed(20)),
        (
            "a block of ten bytes",
            &SECOND[..10],
            SHORT,
            30,
            malformed(30),
        ),
        (
            "a byte behind a block",
            BOTH_AND_A_BYTE,
            LONG,
            53,
            malformed(0),
        ),
        ("no handle", BOTH, b"".as_slice(), 52, malformed(52)),
        (
            "a byte behind the index",
            BOTH,
            RIGHT_AND_A_BYTE,
            52,
            malformed(52),
        ),
    ] {
        assert!(rt; count_one(alloc, block, index, at) == Err(fault), "{what}");
    }
    for (what, second, index, fault) in [
        ("a block closed too early", THIRD, TWO, malformed(36)),
        ("a block of the first's number", SECOND, TWO, malformed(36)),
        ("a number twice in the index", SECOND, TWICE, malformed(72)),
    ] {
        assert!(rt; count_two(alloc, second, index) == Err(fault), "{what}");
    }
}

/// How many records are listed of a segment of one block with two records, the first of a document of so many bytes.
fn count_pair(alloc: Global, len: u32) -> Result<usize, Fault> {
    if len > 5_000 {
        return Err(Fault::BadWords);
    }
    let document = vec![in alloc; b'd'; len as usize]?;
    let mut block = Vec::from_slice(alloc, b"\0\0\0\0\0\0\0\x02\x01\x01b")?;
    put_u32(len, &mut block)?;
    block.extend_from_slice(&document)?;
    block.extend_from_slice(THIRD)?;
    let mut index = Vec::from_slice(alloc, b"\0\0\0\0\0\0\0\x02\0\0\0\0\0\0\0\0")?;
    put_u32(len + 51, &mut index)?;
    let mut footer = Vec::from_slice(alloc, b"\x01\0\0\0\0\0\0\0\x02")?;
    for number in [u64::from(len) + 3, 2, 3, u64::from(len) + 51] {
        put_u64(number, &mut footer)?;
    }
    put_u32(1, &mut footer)?;
    count_listed(alloc, &[&block, &index, &footer])
}

#[test]
fn a_block_of_several_records_is_not_too_long(rt: HostRuntime) {
    let alloc = rt.alloc();
    // beside the document the block has 31 bytes, and it has room for 4,096
    for (len, answer) in [(4_065, Ok(2)), (4_066, Err(malformed(0)))] {
        assert!(rt; count_pair(alloc, len) == answer, "{len}");
    }
}
