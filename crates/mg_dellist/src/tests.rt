use super::*;
use mg_disk::Files;
use mg_frame::{put_u32, put_u64};
use mg_memdisk::{MemDraft, MemFiles, MemSealed};
use mg_records::Record;
use mg_sealed::{append_frame, seal_frames, start_frames};
use mg_types::{Fault, FileId, Kind};
use std::alloc::Global;
use std::test::Fail;

const ONE: Dead = Dead { seq: 1, size: 2 };

const THREE: Dead = Dead { seq: 3, size: 2 };

const FOUR: Dead = Dead { seq: 4, size: 9 };

#[test]
fn a_union_has_both_in_order_and_no_more_memory(rt: HostRuntime) -> Result<(), Fail> {
    let alloc = rt.alloc();
    let both = union(alloc, &[ONE], &[THREE])?;
    assert_eq!(rt; both.as_slice(), [ONE, THREE].as_slice());
    assert_eq!(rt; both.capacity(), 2);
    let turned = union(alloc, &[THREE], &[ONE, FOUR])?;
    assert_eq!(rt; turned.as_slice(), [ONE, THREE, FOUR].as_slice());
    let one = union(alloc, &[ONE, FOUR], &[])?;
    assert_eq!(rt; one.as_slice(), [ONE, FOUR].as_slice());
    let other = union(alloc, &[], &[ONE, FOUR])?;
    assert_eq!(rt; other.as_slice(), [ONE, FOUR].as_slice());
    let none = union(alloc, &[], &[])?;
    assert!(rt; none.is_empty());
    Ok(())
}

#[test]
fn a_list_without_an_interval_and_no_more_memory(rt: HostRuntime) -> Result<(), Fail> {
    let alloc = rt.alloc();
    let first = minus(alloc, &[ONE, THREE], 3, 4)?;
    assert_eq!(rt; first.as_slice(), [ONE].as_slice());
    assert_eq!(rt; first.capacity(), 1);
    let ends = minus(alloc, &[ONE, THREE, FOUR], 2, 3)?;
    assert_eq!(rt; ends.as_slice(), [ONE, FOUR].as_slice());
    let all = minus(alloc, &[ONE, FOUR], 3, 2)?;
    assert_eq!(rt; all.as_slice(), [ONE, FOUR].as_slice());
    let none = minus(alloc, &[ONE, THREE, FOUR], 1, 4)?;
    assert!(rt; none.is_empty());
    let empty = minus(alloc, &[], 1, 4)?;
    assert!(rt; empty.is_empty());
    Ok(())
}

/// Entries with the numbers 7 and 2, and the first 8 bytes of one with the number 9.
const BLOCK: [u8; 32] = [
    0, 0, 0, 0, 0, 0, 0, 7, 0, 0, 0, 5, 0, 0, 0, 0, 0, 0, 0, 2, 0, 0, 1, 0, 0, 0, 0, 0, 0, 0, 0, 9,
];

#[test]
fn a_number_is_looked_for_in_whole_entries(rt: HostRuntime) {
    for (seq, want) in [(7, true), (2, true), (5, false), (9, false), (0, false)] {
        assert_eq!(rt; has(&BLOCK, seq), want, "number {seq}");
    }
    assert!(rt; !has(&[], 0));
    assert!(rt; !has(&BLOCK[..11], 7));
    assert!(rt; has(&BLOCK[..12], 7));
}

#[test]
fn sizes_are_judged(rt: HostRuntime) {
    for (size, fits) in [(0, false), (1, true), (1_048_826, true), (1_048_827, false)] {
        let bytes = u32::to_be_bytes(size);
        assert_eq!(rt; Dead::measure(&bytes), fits.then_some(4));
    }
    assert_eq!(rt; Dead::measure(&[0, 0, 1]), None);
}

const ID: FileId = FileId {
    part: 0,
    kind: Kind::DelList,
    number: 6,
};

/// The delete list with (1, 2). Its digests were computed with another program.
const LIST: &[u8] =
    b"\0\0\0\x0c\0\0\0\0\0\0\0\0\0\0\0\0\0\0\0\x01\0\0\0\x02\x0b\xc5\xf4\x6f\xbd\xe5\x40\xcb\
    \0\0\0\x14\0\0\0\0\0\0\0\x01\0\0\0\0\0\0\0\x01\0\0\0\0\0\0\0\0\0\0\0\x20\xf6\x0c\x5a\x6d\x34\x24\xb9\x60\
    \0\0\0\x2d\0\0\0\0\0\0\0\x02\x01\0\0\0\0\0\0\0\x01\0\0\0\0\0\0\0\x02\0\0\0\0\0\0\0\x01\0\0\0\0\0\0\0\x01\
    \0\0\0\0\0\0\0\x20\0\0\0\x01\x70\x9f\xe5\x75\x65\xdd\x34\x14";

fn push(
    alloc: Global,
    port: &mut MemFiles,
    writer: &mut DelWriter<MemDraft>,
    dead: Dead,
) -> Result<(), Fault> {
    if !writer.takes(&dead) {
        return Err(Fault::BadWords);
    }
    writer.push(alloc, port, &dead)
}

#[test]
fn a_delete_list_is_the_worked_one(rt: HostRuntime) -> Result<(), Fail> {
    let alloc = rt.alloc();
    let mut port = MemFiles::new(Vec::new(alloc));
    let list = list_of(alloc, &mut port, &[ONE])?;
    assert_eq!(rt; list.count(), 1);
    let file = list.sealed();
    assert_eq!(rt; file.len, 137);
    let mut bytes = [0; 140];
    let count = port.read(alloc, &file.file, 0, &mut bytes)?;
    assert_eq!(rt; bytes.get(..count), Some(LIST));
    Ok(())
}

/// The delete list of these bytes, of which this length is kept.
fn load(
    alloc: Global,
    port: &mut MemFiles,
    bytes: &[u8],
    len: u64,
) -> Result<DelList<MemSealed>, Fault> {
    if len >= 1 << 62 {
        return Err(Fault::BadWords);
    }
    let Ok(mut draft) = port.fresh(alloc) else {
        return Err(Fault::WriteFault);
    };
    if port.append(alloc, &mut draft, bytes).is_err() {
        return Err(Fault::WriteFault);
    }
    let Ok(file) = port.seal(alloc, draft) else {
        return Err(Fault::WriteFault);
    };
    DelList::load(alloc, port, ID, file, len)
}

/// Whether it is a refusal that names the file.
fn is_named(fault: Fault) -> bool {
    match fault {
        Fault::Damaged { file, .. } => file == ID,
        Fault::Malformed { file, .. } => file == ID,
        _ => false,
    }
}

/// The entries of the delete list of these bytes, of which this length is kept.
fn load_and_scan(
    alloc: Global,
    port: &mut MemFiles,
    bytes: &[u8],
    len: u64,
) -> Result<Vec<Dead>, Fault> {
    let list = load(alloc, port, bytes, len)?;
    list.scan(alloc, port, 0)
}

#[test]
fn the_worked_list_is_scanned(rt: HostRuntime) -> Result<(), Fail> {
    let alloc = rt.alloc();
    let mut port = MemFiles::new(Vec::new(alloc));
    let entries = load_and_scan(alloc, &mut port, LIST, 137)?;
    assert_eq!(rt; entries.as_slice(), [ONE].as_slice());
    Ok(())
}

/// The delete list with these entries.
fn list_of(
    alloc: Global,
    port: &mut MemFiles,
    entries: &[Dead],
) -> Result<DelList<MemSealed>, Fault> {
    let mut writer = DelWriter::new(alloc, port, ID)?;
    for dead in entries {
        push(alloc, port, &mut writer, *dead)?;
    }
    if writer.count() == 0 {
        return Err(Fault::BadWords);
    }
    writer.finish(alloc, port)
}

#[test]
fn a_list_of_three_blocks_is_scanned_whole(rt: HostRuntime) -> Result<(), Fail> {
    let alloc = rt.alloc();
    let mut entries = Vec::new(alloc);
    for number in 0..1000u64 {
        entries.push(Dead {
            seq: number * 3 + 1,
            size: 7,
        })?;
    }
    let mut port = MemFiles::new(Vec::new(alloc));
    let list = list_of(alloc, &mut port, &entries)?;
    // Three blocks of 12,000 bytes in all, their index of 60, and a footer of 45, with 20 bytes around each of the five.
    assert_eq!(rt; list.sealed().len, 12_205);
    let found = list.scan(alloc, &mut port, 0)?;
    assert_eq!(rt; found.as_slice(), entries.as_slice());
    Ok(())
}

#[test]
fn each_altered_byte_is_refused_or_changes_nothing(rt: HostRuntime) -> Result<(), Fail> {
    let alloc = rt.alloc();
    for at in 0..LIST.len() {
        for change in [1u8, 2, 4, 8, 16, 32, 64, 128, 255] {
            let mut bytes = LIST.to_vec(alloc)?;
            bytes[at] ^= change;
            let mut port = MemFiles::new(Vec::new(alloc));
            let fine = match load_and_scan(alloc, &mut port, &bytes, 137) {
                Ok(entries) => entries.as_slice() == [ONE].as_slice(),
                Err(fault) => is_named(fault),
            };
            assert!(rt; fine, "byte {at}, change {change}");
        }
    }
    Ok(())
}

#[test]
fn each_cut_is_refused(rt: HostRuntime) -> Result<(), Fail> {
    let alloc = rt.alloc();
    for len in 0..LIST.len() {
        let mut port = MemFiles::new(Vec::new(alloc));
        let fine = match load(alloc, &mut port, &LIST[..len], len as u64) {
            Ok(_) => false,
            Err(fault) => is_named(fault),
        };
        assert!(rt; fine, "cut at {len}");
    }
    Ok(())
}

/// How many entries are listed of the file of frames with these bodies, whose digests are right.
fn count_listed(alloc: Global, bodies: &[&[u8]]) -> Result<usize, Fault> {
    let mut port = MemFiles::new(Vec::new(alloc));
    let mut writer = start_frames(alloc, &mut port)?;
    for body in bodies {
        if body.len() > 10_000 || writer.len() > 100_000 {
            return Err(Fault::BadWords);
        }
        append_frame(alloc, &mut port, &mut writer, body)?;
    }
    let len = writer.len();
    if len > 1 << 20 {
        return Err(Fault::BadWords);
    }
    let file = seal_frames(alloc, &mut port, writer, ID)?;
    let list = DelList::load(alloc, &mut port, ID, file.file, len)?;
    Ok(list.scan(alloc, &mut port, 0)?.len())
}

/// The bodies of the frames of the list of (3, 7) and (5, 9): the block from 0, the index from 24, the footer from 44. The frames
/// begin at 0, 44 and 84, and the file has 149 bytes.
const BODIES: [u8; 89] = *b"\0\0\0\0\0\0\0\x03\0\0\0\x07\0\0\0\0\0\0\0\x05\0\0\0\x09\
    \0\0\0\0\0\0\0\x03\0\0\0\0\0\0\0\0\0\0\0\x2c\
    \x01\0\0\0\0\0\0\0\x02\0\0\0\0\0\0\0\x10\0\0\0\0\0\0\0\x03\0\0\0\0\0\0\0\x05\
    \0\0\0\0\0\0\0\x2c\0\0\0\x01";

/// That list with another byte at a place of these bodies.
fn count_altered(alloc: Global, at: usize, byte: u8) -> Result<usize, Fault> {
    let mut bodies = BODIES;
    if at < 89 {
        bodies[at] = byte;
    }
    count_listed(alloc, &[&bodies[..24], &bodies[24..44], &bodies[44..]])
}

const fn malformed(at: u64) -> Fault {
    Fault::Malformed { file: ID, at }
}

const fn damaged(at: u64, kept: u64, found: u64) -> Fault {
    Fault::Damaged {
        file: ID,
        at,
        kept,
        found,
    }
}

/// The least number that is too great.
const BEYOND: u64 = 1 << 62;

#[test]
fn altered_entries_are_refused(rt: HostRuntime) {
    let alloc = rt.alloc();
    assert!(rt; count_altered(alloc, 0, 0) == Ok(2));
    for (at, byte, fault) in [
        // the first number: 0, and others than the handle's
        (7, 0, malformed(0)),
        (7, 2, malformed(0)),
        (7, 4, malformed(0)),
        (0, 0x40, damaged(0, BEYOND + 3, BEYOND)),
        // the second number: 0, falling, twice, above the last one, too great
        (19, 0, malformed(0)),
        (19, 2, malformed(0)),
        (19, 3, malformed(0)),
        (19, 6, malformed(0)),
        (12, 0x40, damaged(0, BEYOND + 5, BEYOND)),
        // between the two, so that the footer has another last number
        (19, 4, malformed(84)),
        // sizes: 0, more than 2^24, and another than the sum has
        (11, 0, malformed(0)),
        (23, 0, malformed(0)),
        (8, 1, malformed(0)),
        (20, 1, malformed(0)),
        (11, 8, malformed(84)),
    ] {
        assert!(rt;
            count_altered(alloc, at, byte) == Err(fault),
            "byte {at} is {byte}"
        );
    }
}

#[test]
fn an_altered_index_or_footer_is_refused(rt: HostRuntime) {
    let alloc = rt.alloc();
    for (at, byte, fault) in [
        // the first number in the index: 0, others than the footer's, too great
        (31, 0, malformed(44)),
        (31, 2, malformed(84)),
        (31, 4, malformed(84)),
        (24, 0x40, damaged(44, BEYOND + 3, BEYOND)),
        // the block's offset and its length
        (39, 1, malformed(44)),
        (32, 0x40, damaged(44, BEYOND, BEYOND)),
        (43, 43, malformed(44)),
        (43, 45, malformed(44)),
        // the format
        (44, 0, malformed(84)),
        (44, 2, malformed(84)),
        // the count
        (52, 0, malformed(84)),
        (52, 1, malformed(84)),
        (52, 3, malformed(84)),
        (45, 0x40, damaged(84, BEYOND + 2, BEYOND)),
        // the sum
        (60, 15, malformed(84)),
        (60, 17, malformed(84)),
        (53, 0x40, damaged(84, BEYOND + 16, BEYOND)),
        // the first number
        (68, 2, malformed(84)),
        (68, 4, malformed(84)),
        (61, 0x40, damaged(84, BEYOND + 3, BEYOND)),
        // the last number: below the handle's, below the last entry's, above it
        (76, 2, malformed(84)),
        (76, 4, malformed(0)),
        (76, 6, malformed(84)),
        (69, 0x40, damaged(84, BEYOND + 5, BEYOND)),
        // the index: the frames of block and footer are no index, and 144 is 5 bytes before the end
        (84, 0, damaged(0, 0, 1)),
        (84, 84, damaged(84, 2, 1)),
        (84, 144, damaged(144, 156, 149)),
        (77, 0x40, damaged(84, BEYOND + 44, BEYOND)),
        // the blocks
        (88, 0, damaged(84, 2, 1)),
        (88, 2, damaged(84, 2, 3)),
    ] {
        assert!(rt;
            count_altered(alloc, at, byte) == Err(fault),
            "byte {at} is {byte}"
        );
    }
}

/// How many entries are listed of a list whose entries have the size 1 and the numbers from 1 on, so many of them in a first block
/// and so many in a second one.
fn count_split(alloc: Global, first: u32, second: u32) -> Result<usize, Fault> {
    let all = u64::from(first) + u64::from(second);
    if all > 1_000 {
        return Err(Fault::BadWords);
    }
    let mut entries = Vec::new(alloc);
    for number in 0..all {
        put_u64(number + 1, &mut entries)?;
        put_u32(1, &mut entries)?;
    }
    let cut = 12 * first as usize;
    if cut > entries.len() {
        return Err(Fault::BadWords);
    }
    let (before, behind) = entries.split_at(cut);
    let second_at = 12 * u64::from(first) + 20;
    let index_at = 12 * all + 40;
    let mut index = Vec::new(alloc);
    put_u64(1, &mut index)?;
    put_u64(0, &mut index)?;
    put_u32(12 * first + 20, &mut index)?;
    put_u64(u64::from(first) + 1, &mut index)?;
    put_u64(second_at, &mut index)?;
    put_u32(12 * second + 20, &mut index)?;
    let mut footer = Vec::new(alloc);
    footer.push(1)?;
    for number in [all, all, 1, all, index_at] {
        put_u64(number, &mut footer)?;
    }
    put_u32(2, &mut footer)?;
    count_listed(alloc, &[before, behind, &index, &footer])
}

#[test]
fn blocks_are_filled_in_order(rt: HostRuntime) {
    let alloc = rt.alloc();
    // 341 entries have 4,092 bytes, so that a block takes no more of them, and no fewer where another follows
    for (first, second, answer) in [
        (341, 1, Ok(342)),
        (341, 341, Ok(682)),
        (340, 1, Err(malformed(4_100))),
        (1, 1, Err(malformed(32))),
        // a frame shorter than one record's or longer than a full block's is refused at the index, which is behind both blocks
        (342, 1, Err(malformed(4_156))),
        (341, 342, Err(malformed(8_236))),
        (341, 0, Err(malformed(4_132))),
    ] {
        assert!(rt;
            count_split(alloc, first, second) == answer,
            "{first} and {second}"
        );
    }
}

/// A footer of two entries of the numbers 3 and 5 with the sizes 7 and 9, with an index at this offset and one block.
fn footer_of(index: u8) -> [u8; 45] {
    let mut footer =
        *b"\x01\0\0\0\0\0\0\0\x02\0\0\0\0\0\0\0\x10\0\0\0\0\0\0\0\x03\0\0\0\0\0\0\0\x05\
        \0\0\0\0\0\0\0\0\0\0\0\x01";
    footer[40] = index;
    footer
}

const BLOCK_AND_A_BYTE: &[u8] = b"\0\0\0\0\0\0\0\x03\0\0\0\x07\0\0\0\0\0\0\0\x05\0\0\0\x09\0";

/// The handle of an empty block, that of the block, and that of the block and a byte.
const EMPTY: &[u8] = b"\0\0\0\0\0\0\0\x03\0\0\0\0\0\0\0\0\0\0\0\x14";

const RIGHT: &[u8] = b"\0\0\0\0\0\0\0\x03\0\0\0\0\0\0\0\0\0\0\0\x2c";

const LONG: &[u8] = b"\0\0\0\0\0\0\0\x03\0\0\0\0\0\0\0\0\0\0\0\x2d";

const RIGHT_AND_A_BYTE: &[u8] = b"\0\0\0\0\0\0\0\x03\0\0\0\0\0\0\0\0\0\0\0\x2c\0";

/// What the frames of one block, of an index and of a footer with the index at this offset give.
fn count_one(alloc: Global, block: &[u8], index: &[u8], at: u8) -> Result<usize, Fault> {
    let footer = footer_of(at);
    count_listed(alloc, &[block, index, &footer])
}

/// What the frames of the block, of its index and of a footer of these bytes give.
fn count_with_footer(alloc: Global, footer: &[u8]) -> Result<usize, Fault> {
    count_listed(alloc, &[&BODIES[..24], RIGHT, footer])
}

#[test]
fn frames_of_no_list_are_refused(rt: HostRuntime) {
    let alloc = rt.alloc();
    let right = &BODIES[..24];
    for (what, block, index, offset, fault) in [
        ("an empty block", b"".as_slice(), EMPTY, 20, malformed(20)),
        (
            "a byte behind a block",
            BLOCK_AND_A_BYTE,
            LONG,
            45,
            malformed(0),
        ),
        ("no handle", right, b"".as_slice(), 44, malformed(44)),
        (
            "a byte behind the index",
            right,
            RIGHT_AND_A_BYTE,
            44,
            malformed(44),
        ),
    ] {
        assert!(rt;
            count_one(alloc, block, index, offset) == Err(fault),
            "{what}"
        );
    }
    // a byte behind the footer: its frame begins at 84, and what is read as one begins at 85 and says 11,776 bytes
    let mut footer = [0; 46];
    footer[..45].copy_from_slice(&footer_of(44));
    let seen = count_with_footer(alloc, &footer);
    assert!(rt; seen == Err(damaged(85, 11_881, 150)));
}
