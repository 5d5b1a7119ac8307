//! Files by their bytes.

ghost use Rattle.std.specs.Prelude.{◌≡◌, [], ◌∷◌, IfOk};

use super::*;
use mg_disk::Files;
use mg_memdisk::{MemDraft, MemFiles, MemSealed};
use mg_sealed::{SealedFile, append_frame, seal_frames, start_frames};
use mg_types::{Dead, Entry, Fault, FileId, Item, Key, Kind};
use std::alloc::Global;
use std::test::Fail;

const ID: FileId = FileId {
    part: 0,
    kind: Kind::DelList,
    number: 7,
};

/// The bodies of the delete list that docs/formats.md has byte by byte: of its block, its index and its footer.
const BLOCK: [u8; 12] = [0, 0, 0, 0, 0, 0, 0, 1, 0, 0, 0, 2];

const INDEX: [u8; 20] = [0, 0, 0, 0, 0, 0, 0, 1, 0, 0, 0, 0, 0, 0, 0, 0, 0, 0, 0, 32];

const FOOTER: [u8; 45] = [
    1, 0, 0, 0, 0, 0, 0, 0, 1, 0, 0, 0, 0, 0, 0, 0, 2, 0, 0, 0, 0, 0, 0, 0, 1, 0, 0, 0, 0, 0, 0, 0,
    1, 0, 0, 0, 0, 0, 0, 0, 32, 0, 0, 0, 1,
];

/// The body of the index and the footer of the table that docs/formats.md has byte by byte, of which the block and the filter
/// have 34 and 8 bytes.
const TABLE_INDEX: [u8; 14] = [1, b'a', 0, 0, 0, 0, 0, 0, 0, 0, 0, 0, 0, 54];

const TABLE_FOOTER: [u8; 53] = [
    1, 0, 0, 0, 0, 0, 0, 0, 2, 0, 0, 0, 0, 0, 0, 0, 4, 0, 0, 0, 0, 0, 0, 0, 0, 0, 0, 0, 0, 0, 0, 0,
    3, 0, 0, 0, 0, 0, 0, 0, 54, 0, 0, 0, 0, 0, 0, 0, 88, 0, 0, 0, 1,
];

/// The file of frames of these bodies.
fn file_of(
    alloc: Global,
    port: &mut MemFiles,
    bodies: &[&[u8]],
) -> Result<SealedFile<MemSealed>, Fault> {
    let mut frames = start_frames(alloc, port)?;
    for body in bodies {
        if body.len() > 1 << 21 || frames.len() > 1 << 21 {
            return Err(Fault::BadWords);
        }
        append_frame(alloc, port, &mut frames, body)?;
    }
    seal_frames(alloc, port, frames, ID)
}

/// The file, loaded.
fn load_of<K: BlockKey, T: BlockItem>(
    alloc: Global,
    port: &mut MemFiles,
    file: SealedFile<MemSealed>,
) -> Result<Indexed<MemSealed, K, T>, Fault> {
    if file.len > 1 << 23 {
        return Err(Fault::BadWords);
    }
    load::<MemFiles, K, T>(alloc, port, ID, file.file, file.len)
}

/// The file of frames of these bodies, loaded.
fn loaded<K: BlockKey, T: BlockItem>(
    alloc: Global,
    bodies: &[&[u8]],
) -> Result<Indexed<MemSealed, K, T>, Fault> {
    let mut port = MemFiles::new(Vec::new(alloc));
    let file = file_of(alloc, &mut port, bodies)?;
    load_of::<K, T>(alloc, &mut port, file)
}

/// A file of records of one block, loaded.
fn records_of<T: BlockItem>(
    alloc: Global,
    block: &[u8],
    index: &[u8],
    footer: &[u8],
) -> Result<Indexed<MemSealed, u64, T>, Fault> {
    loaded::<u64, T>(alloc, &[block, index, footer])
}

/// The fault of a number 2^62 at an offset.
fn great(at: u64) -> Fault {
    Fault::Damaged {
        file: ID,
        at,
        kept: 1 << 62,
        found: 1 << 62,
    }
}

/// The same bytes but for one.
fn with<const N: usize>(bytes: [u8; N], at: usize, byte: u8) -> [u8; N] {
    let mut bytes = bytes;
    if at < N {
        bytes[at] = byte;
    }
    bytes
}

#[test]
fn a_worked_file_of_each_form_is_loaded(rt: HostRuntime) -> Result<(), Fail> {
    let alloc = rt.alloc();
    let list = records_of::<Dead>(alloc, &BLOCK, &INDEX, &FOOTER)?;
    assert_eq!(rt; list.file().len, 137);
    let footer = Footer {
        count: 1,
        sum: 2,
        low: 1,
        high: 1,
        index_at: 32,
        filter_at: None,
        blocks: 1,
    };
    assert_eq!(rt; *list.footer(), footer);
    assert_eq!(rt; list.handles().len(), 1);
    let handle = &list.handles()[0];
    assert_eq!(rt; (handle.first, handle.at, handle.len), (1, 0, 32));
    let table = loaded::<Key, Entry>(alloc, &[&[0; 34], &TABLE_INDEX, &[0; 8], &TABLE_FOOTER])?;
    assert_eq!(rt; table.file().len, 189);
    assert_eq!(rt; table.footer().filter_at, Some(88));
    assert_eq!(rt; table.footer().high, 3);
    assert_eq!(rt; table.handles().len(), 1);
    let handle = &table.handles()[0];
    assert_eq!(rt; handle.first.bytes(), b"a".as_slice());
    assert_eq!(rt; (handle.at, handle.len), (0, 54));
    Ok(())
}

#[test]
fn each_fault_is_named_where_it_stands(rt: HostRuntime) -> Result<(), Fail> {
    let alloc = rt.alloc();
    let index = Fault::Malformed { file: ID, at: 32 };
    let footer = Fault::Malformed { file: ID, at: 72 };
    let rows = [
        (INDEX, with(FOOTER, 0, 2), footer),
        (INDEX, with(FOOTER, 8, 0), footer),
        (INDEX, with(with(FOOTER, 9, 64), 16, 0), great(72)),
        (with(INDEX, 7, 0), FOOTER, index),
        (with(with(INDEX, 0, 64), 7, 0), FOOTER, great(32)),
        (with(INDEX, 15, 1), FOOTER, index),
        (with(INDEX, 8, 64), FOOTER, great(32)),
        (with(INDEX, 19, 33), FOOTER, index),
    ];
    for (index, footer, fault) in rows {
        let result = records_of::<Dead>(alloc, &BLOCK, &index, &footer);
        assert_eq!(rt; result.err(), Some(fault));
    }
    Ok(())
}

/// Bytes of blocks, of which only the length is judged.
const ZEROS: [u8; 4_097] = [0; 4_097];

/// A file of records of one block of which this is the whole frame's length, in the last two of four bytes.
fn records_of_frame<T: BlockItem>(alloc: Global, block: &[u8], frame: [u8; 2]) -> Option<Fault> {
    let index = with(with(INDEX, 18, frame[0]), 19, frame[1]);
    let footer = with(with(FOOTER, 39, frame[0]), 40, frame[1]);
    records_of::<T>(alloc, block, &index, &footer).err()
}

/// A table of one block of which this is the whole frame's length, in two bytes, and this the offset of its filter.
fn table_of_frame(alloc: Global, block: &[u8], frame: [u8; 2], filter: [u8; 2]) -> Option<Fault> {
    let index = with(with(TABLE_INDEX, 12, frame[0]), 13, frame[1]);
    let footer = with(with(TABLE_FOOTER, 39, frame[0]), 40, frame[1]);
    let footer = with(with(footer, 47, filter[0]), 48, filter[1]);
    loaded::<Key, Entry>(alloc, &[block, &index, &[0; 8], &footer]).err()
}

/// That the index at an offset is malformed.
fn malformed_at(at: u64) -> Option<Fault> {
    Some(Fault::Malformed { file: ID, at })
}

#[test]
fn each_kind_of_file_has_its_bounds_of_a_block(rt: HostRuntime) -> Result<(), Fail> {
    let alloc = rt.alloc();
    let lists: [(&[u8], [u8; 2], Option<Fault>); 4] = [
        (&ZEROS[..11], [0, 31], malformed_at(31)),
        (&ZEROS[..12], [0, 32], None),
        (&ZEROS[..4_096], [16, 20], None),
        (&ZEROS[..4_097], [16, 21], malformed_at(4_117)),
    ];
    for (block, frame, fault) in lists {
        assert_eq!(rt; records_of_frame::<Dead>(alloc, block, frame), fault);
    }
    let segments: [(&[u8], [u8; 2], Option<Fault>); 3] = [
        (&ZEROS[..10], [0, 30], malformed_at(30)),
        (&ZEROS[..11], [0, 31], None),
        (&ZEROS[..4_093], [16, 17], None),
    ];
    for (block, frame, fault) in segments {
        assert_eq!(rt; records_of_frame::<Item>(alloc, block, frame), fault);
    }
    let tables: [(&[u8], [u8; 2], [u8; 2], Option<Fault>); 4] = [
        (&ZEROS[..16], [0, 36], [0, 70], malformed_at(36)),
        (&ZEROS[..17], [0, 37], [0, 71], None),
        (&ZEROS[..4_096], [16, 20], [16, 54], None),
        (&ZEROS[..4_097], [16, 21], [16, 55], malformed_at(4_117)),
    ];
    for (block, frame, filter, fault) in tables {
        assert_eq!(rt; table_of_frame(alloc, block, frame, filter), fault);
    }
    Ok(())
}

/// A segment of one block of this many bytes, of which this is the whole frame's length, in its last three bytes.
fn long_segment(alloc: Global, size: usize, frame: [u8; 3]) -> Result<Option<Fault>, Fail> {
    let block = vec![in alloc; 0; size]?;
    let index = with(INDEX, 17, frame[0]);
    let footer = with(FOOTER, 38, frame[0]);
    let index = with(with(index, 18, frame[1]), 19, frame[2]);
    let footer = with(with(footer, 39, frame[1]), 40, frame[2]);
    Ok(records_of::<Item>(alloc, &block, &index, &footer).err())
}

#[test]
fn the_longest_block_of_a_segment_is_taken(rt: HostRuntime) -> Result<(), Fail> {
    let alloc = rt.alloc();
    assert_eq!(rt; long_segment(alloc, 1_048_840, [16, 1, 28])?, None);
    assert_eq!(rt;
        long_segment(alloc, 1_048_841, [16, 1, 29])?,
        malformed_at(1_048_861)
    );
    Ok(())
}

#[test]
fn a_worked_list_is_written(rt: HostRuntime) -> Result<(), Fail> {
    let alloc = rt.alloc();
    let mut port = MemFiles::new(Vec::new(alloc));
    let mut closed = ClosedBlocks::<_, u64, Dead>::new(alloc, &mut port)?;
    assert_eq!(rt; closed.index_len(), 0);
    assert_eq!(rt; ClosedBlocks::<MemDraft, u64, Dead>::handle_len(&1), 20);
    closed.close(alloc, &mut port, 1, &BLOCK)?;
    assert_eq!(rt; closed.index_len(), 20);
    let summary = Summary {
        count: 1,
        sum: 2,
        low: 1,
        high: 1,
    };
    let list = closed.finish(alloc, &mut port, ID, &summary, &[])?;
    assert_eq!(rt; list.file().len, 137);
    let written = load::<MemFiles, u64, Dead>(alloc, &mut port, ID, list.file.file, 137)?;
    let read = records_of::<Dead>(alloc, &BLOCK, &INDEX, &FOOTER)?;
    assert_eq!(rt; *written.footer(), *read.footer());
    assert_eq!(rt; written.handles().len(), 1);
    Ok(())
}

/// The key of one byte.
fn key_of(alloc: Global, byte: u8) -> Result<Key, Fault>
    ensures { IfOk result (λ key. key ≡ byte ∷ []) }
{
    let key = Key::new(alloc, &[byte])?;
    Ok(key.unwrap())
}

#[test]
fn a_worked_table_is_written(rt: HostRuntime) -> Result<(), Fail> {
    let alloc = rt.alloc();
    let mut port = MemFiles::new(Vec::new(alloc));
    let mut closed = ClosedBlocks::<_, Key, Entry>::new(alloc, &mut port)?;
    let first = key_of(alloc, b'a')?;
    assert_eq!(rt;
        ClosedBlocks::<MemDraft, Key, Entry>::handle_len(&first),
        14
    );
    closed.close(alloc, &mut port, first, &ZEROS[..34])?;
    let summary = Summary {
        count: 2,
        sum: 4,
        low: 0,
        high: 3,
    };
    let table = closed.finish(alloc, &mut port, ID, &summary, &ZEROS[..8])?;
    assert_eq!(rt; table.file().len, 189);
    assert_eq!(rt; table.footer().index_at, 54);
    assert_eq!(rt; table.footer().filter_at, Some(88));
    assert_eq!(rt; table.handles().len(), 1);
    Ok(())
}

/// An index of two blocks that begin with the numbers 3 and 5.
const TWO_HANDLES: [u8; 40] = [
    0, 0, 0, 0, 0, 0, 0, 3, 0, 0, 0, 0, 0, 0, 0, 0, 0, 0, 0, 32, 0, 0, 0, 0, 0, 0, 0, 5, 0, 0, 0,
    0, 0, 0, 0, 32, 0, 0, 0, 32,
];

#[test]
fn blocks_that_begin_up_to_a_number_are_counted(rt: HostRuntime) -> Result<(), Fail> {
    let alloc = rt.alloc();
    let footer = with(with(FOOTER, 40, 64), 44, 2);
    let list = loaded::<u64, Dead>(alloc, &[&BLOCK, &BLOCK, &TWO_HANDLES, &footer])?;
    assert_eq!(rt; list.handles().len(), 2);
    for (number, blocks) in [(2, 0), (3, 1), (4, 1), (5, 2), (6, 2)] {
        assert_eq!(rt; list.blocks_up_to(&number), blocks);
    }
    Ok(())
}

#[test]
fn frames_that_do_not_fit_together_are_refused(rt: HostRuntime) -> Result<(), Fail> {
    let alloc = rt.alloc();
    // A byte is wanting behind the handle, or one is left.
    let short = records_of::<Dead>(alloc, &BLOCK, &INDEX[..19], &FOOTER);
    assert_eq!(rt; short.err(), malformed_at(32));
    let mut long = Vec::from_slice(alloc, &INDEX)?;
    long.push(0)?;
    let long = records_of::<Dead>(alloc, &BLOCK, &long, &FOOTER);
    assert_eq!(rt; long.err(), malformed_at(32));
    // One handle has the frames of two blocks.
    let index = with(INDEX, 19, 64);
    let footer = with(with(FOOTER, 40, 64), 44, 2);
    let fewer = loaded::<u64, Dead>(alloc, &[&BLOCK, &BLOCK, &index, &footer]);
    assert_eq!(rt; fewer.err(), malformed_at(64));
    // The filter does not stand behind the index.
    let footer = with(TABLE_FOOTER, 48, 89);
    let apart = loaded::<Key, Entry>(alloc, &[&[0; 34], &TABLE_INDEX, &[0; 8], &footer]);
    assert_eq!(rt; apart.err(), malformed_at(116));
    Ok(())
}
