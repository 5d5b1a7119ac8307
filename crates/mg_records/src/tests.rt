use super::*;
use mg_disk::Files;
use mg_memdisk::{MemDraft, MemFiles, MemSealed};
use mg_sealed::CountingFiles;
use mg_types::{Doc, Fault, FileId, Item, Key, Kind};
use std::alloc::{AllocError, Global};
use std::test::Fail;

const ID: FileId = FileId {
    part: 0,
    kind: Kind::Segment,
    number: 5,
};

type Port = CountingFiles<MemFiles>;

type Segment = RecordFile<MemSealed, Item>;

/// A port whose call of this number fails, from 1; none does where it is 0.
fn port_failing_at(alloc: Global, call: u64) -> Result<Port, AllocError> {
    Ok(CountingFiles::new(MemFiles::new(vec![in alloc; call]?)))
}

/// A record of 1,015 bytes: four of them fill a block.
fn record(alloc: Global, seq: u64) -> Result<Item, Fault> {
    let document = vec![in alloc; b'd'; 1_000]?;
    let (Some(key), Some(doc)) = (Key::new(alloc, b"k")?, Doc::new(alloc, &document)?) else {
        return Err(Fault::BadWords);
    };
    Ok(Item {
        seq,
        key,
        doc: Some(doc),
    })
}

fn push(
    alloc: Global,
    port: &mut Port,
    writer: &mut RecordWriter<MemDraft, Item>,
    it: &Item,
) -> Result<(), Fault> {
    if !writer.takes(it) {
        return Err(Fault::BadWords);
    }
    writer.push(alloc, port, it)
}

/// The file of the records 10, 20 and so on to 100, in blocks that begin at 10, 50 and 90.
fn ten(alloc: Global) -> Result<Segment, Fault> {
    let mut port = port_failing_at(alloc, 0)?;
    let mut writer = RecordWriter::new(alloc, &mut port, ID)?;
    for tenth in 1..11 {
        push(alloc, &mut port, &mut writer, &record(alloc, 10 * tenth)?)?;
    }
    if writer.count() == 0 {
        return Err(Fault::BadWords);
    }
    writer.finish(alloc, &mut port)
}

/// The same file, loaded again.
fn loaded(alloc: Global, port: &mut Port, written: &Segment) -> Result<Segment, Fault> {
    let sealed = written.sealed();
    let Ok(again) = port.share(alloc, &sealed.file) else {
        return Err(Fault::ReadFault);
    };
    if sealed.len >= 1 << 62 {
        return Err(Fault::BadWords);
    }
    RecordFile::load(alloc, port, ID, again, sealed.len)
}

/// The file of ten records, written and loaded.
fn opened(alloc: Global, port: &mut Port) -> Result<Segment, Fault> {
    let written = ten(alloc)?;
    loaded(alloc, port, &written)
}

/// The number of the record that is found of a number.
fn found(
    alloc: Global,
    port: &mut Port,
    file: &Segment,
    number: u64,
) -> Result<Option<u64>, Fault> {
    let found = file.get(alloc, port, number)?;
    Ok(found.map(|it| it.seq))
}

fn numbers_above(
    alloc: Global,
    port: &mut Port,
    file: &Segment,
    after: u64,
) -> Result<Vec<u64>, Fault> {
    let mut numbers = Vec::new(alloc);
    for it in &file.scan(alloc, port, after)? {
        numbers.push(it.seq)?;
    }
    Ok(numbers)
}

#[test]
fn a_file_says_what_it_has(rt: HostRuntime) -> Result<(), Fail> {
    let alloc = rt.alloc();
    let file = opened(alloc, &mut port_failing_at(alloc, 0)?)?;
    assert_eq!(rt; file.count(), 10);
    assert_eq!(rt; file.bytes(), 10_010);
    assert_eq!(rt; file.first(), 10);
    assert_eq!(rt; file.last(), 100);
    // three blocks, an index of three items and the footer
    assert_eq!(rt; file.sealed().len, 10_150 + 60 + 80 + 65);
    Ok(())
}

#[test]
fn a_record_is_found_by_its_number(rt: HostRuntime) -> Result<(), Fail> {
    let alloc = rt.alloc();
    let mut port = port_failing_at(alloc, 0)?;
    let file = opened(alloc, &mut port)?;
    for (number, there) in [
        (0, false),
        (9, false),
        (10, true),
        (40, true),
        (45, false),
        (50, true),
        (89, false),
        (90, true),
        (100, true),
        (101, false),
        (u64::MAX, false),
    ] {
        let seen = found(alloc, &mut port, &file, number)?;
        assert_eq!(rt; seen, there.then_some(number));
    }
    Ok(())
}

#[test]
fn records_are_listed_from_a_number_on(rt: HostRuntime) -> Result<(), Fail> {
    let alloc = rt.alloc();
    let mut port = port_failing_at(alloc, 0)?;
    let file = opened(alloc, &mut port)?;
    for (after, first) in [(0, 10), (9, 10), (10, 20), (49, 50), (50, 60), (95, 100)] {
        let numbers = numbers_above(alloc, &mut port, &file, after)?;
        assert_eq!(rt; numbers.first().copied(), Some(first));
        assert_eq!(rt; numbers.len() as u64, 11 - first / 10);
        assert_eq!(rt; numbers.last().copied(), Some(100));
    }
    for after in [100, u64::MAX] {
        assert!(rt; numbers_above(alloc, &mut port, &file, after)?.is_empty());
    }
    Ok(())
}

#[test]
fn a_load_reads_the_footer_and_the_index_alone(rt: HostRuntime) -> Result<(), Fail> {
    let alloc = rt.alloc();
    let written = ten(alloc)?;
    // of these ports the third or the fourth call fails: a load asks for the length and makes two reads
    for (failing, loads) in [(3, false), (4, true)] {
        let again = loaded(alloc, &mut port_failing_at(alloc, failing)?, &written);
        assert_eq!(rt; again.is_ok(), loads);
    }
    Ok(())
}

#[test]
fn a_get_reads_one_block_where_the_number_may_be(rt: HostRuntime) -> Result<(), Fail> {
    let alloc = rt.alloc();
    let file = opened(alloc, &mut port_failing_at(alloc, 0)?)?;
    // the first call of this port fails, and no later one
    let mut port = port_failing_at(alloc, 1)?;
    for (number, seen) in [
        (9, Ok(None)),
        (101, Ok(None)),
        (20, Err(Fault::ReadFault)),
        (20, Ok(Some(20))),
    ] {
        assert!(rt;
            found(alloc, &mut port, &file, number) == seen,
            "number {number}"
        );
    }
    // the second call of this port fails: a get makes one
    let mut port = port_failing_at(alloc, 2)?;
    assert!(rt; found(alloc, &mut port, &file, 50)? == Some(50));
    Ok(())
}

#[test]
fn a_scan_reads_the_blocks_from_the_first_wanted_on(rt: HostRuntime) -> Result<(), Fail> {
    let alloc = rt.alloc();
    let file = opened(alloc, &mut port_failing_at(alloc, 0)?)?;
    for (after, blocks) in [(0, 3), (49, 3), (50, 2), (89, 2), (90, 1), (100, 0)] {
        for failing in 1..5 {
            let mut port = port_failing_at(alloc, failing)?;
            let listed = numbers_above(alloc, &mut port, &file, after);
            let read = matches!(listed, Err(Fault::ReadFault));
            assert_eq!(rt; read, failing <= blocks, "block {failing} above {after}");
        }
    }
    Ok(())
}

/// The numbers above `after` in the block of this number.
fn numbers_in_page(
    alloc: Global,
    port: &mut Port,
    file: &Segment,
    block: usize,
    after: u64,
) -> Result<Vec<u64>, Fault> {
    if block >= file.blocks() {
        return Err(Fault::BadWords);
    }
    let mut buffer = Vec::new(alloc);
    let mut numbers = Vec::new(alloc);
    for it in &file.page(alloc, port, block, after, &mut buffer)? {
        numbers.push(it.seq)?;
    }
    Ok(numbers)
}

#[test]
fn a_page_has_the_records_of_one_block(rt: HostRuntime) -> Result<(), Fail> {
    let alloc = rt.alloc();
    let mut port = port_failing_at(alloc, 0)?;
    let file = opened(alloc, &mut port)?;
    assert_eq!(rt; file.blocks(), 3);
    port.take_reads();
    // frames of four records of 1,015 bytes, of four and of two
    for (block, after, first, last, read) in [
        (0, 0, Some(10), Some(40), 4_080),
        (0, 20, Some(30), Some(40), 4_080),
        (1, 20, Some(50), Some(80), 4_080),
        (1, 80, None, None, 4_080),
        (2, 99, Some(100), Some(100), 2_050),
    ] {
        let numbers = numbers_in_page(alloc, &mut port, &file, block, after)?;
        assert_eq!(rt; numbers.first().copied(), first);
        assert_eq!(rt; numbers.last().copied(), last);
        assert_eq!(rt; port.take_reads(), (1, read), "block {block} above {after}");
    }
    Ok(())
}

#[test]
fn pages_begin_where_the_records_above_a_number_do(rt: HostRuntime) -> Result<(), Fail> {
    let alloc = rt.alloc();
    let file = opened(alloc, &mut port_failing_at(alloc, 0)?)?;
    for (after, start) in [
        (0, 0),
        (49, 0),
        (50, 1),
        (89, 1),
        (90, 2),
        (99, 2),
        (100, 3),
    ] {
        assert_eq!(rt; file.start(after), start, "above {after}");
    }
    Ok(())
}

#[test]
fn no_more_bytes_are_read_than_are_wanted(rt: HostRuntime) -> Result<(), Fail> {
    let alloc = rt.alloc();
    let mut port = port_failing_at(alloc, 0)?;
    let file = opened(alloc, &mut port)?;
    // the frames of the footer and of an index of three handles
    assert_eq!(rt; port.take_reads(), (2, 65 + 80));
    // frames of four records of 1,015 bytes, of four and of two
    for (number, counts) in [
        (9, (0, 0)),
        (10, (1, 4_080)),
        (89, (1, 4_080)),
        (100, (1, 2_050)),
    ] {
        found(alloc, &mut port, &file, number)?;
        assert_eq!(rt; port.take_reads(), counts, "number {number}");
    }
    for (after, counts) in [
        (9, (3, 10_210)),
        (49, (3, 10_210)),
        (50, (2, 6_130)),
        (90, (1, 2_050)),
        (100, (0, 0)),
    ] {
        numbers_above(alloc, &mut port, &file, after)?;
        assert_eq!(rt; port.take_reads(), counts, "above {after}");
    }
    Ok(())
}
