//! Workloads over a segment in memory, with documents of `size` bytes, at most 1 MiB, under one key of 20 bytes.

use anyhow::{Context, Result, bail};
use mg_memdisk::{MemDraft, MemFiles, MemSealed};
use mg_sealed::CountingFiles;
use mg_segment::{Segment, SegmentWriter};
use mg_types::{Doc, FileId, Item, Key, Kind};
use std::alloc::Global;

const ID: FileId = FileId {
    part: 0,
    kind: Kind::Segment,
    number: 1,
};

const MOST_BYTES: usize = 1 << 20;

type Port = CountingFiles<MemFiles>;

/// Writes a segment of `count` documents, and answers the bytes of the file.
pub fn write_segment(alloc: Global, count: u64, size: usize) -> Result<u64> {
    let mut port = CountingFiles::new(MemFiles::new(Vec::new(alloc)));
    let segment = filled(alloc, &mut port, count, size)?;
    Ok(segment.sealed().len)
}

/// Gets each of the `count` documents of a segment, and answers how many bytes were read.
pub fn get_from_segment(alloc: Global, count: u64, size: usize) -> Result<u64> {
    let mut port = CountingFiles::new(MemFiles::new(Vec::new(alloc)));
    let segment = filled(alloc, &mut port, count, size)?;
    let before = port.bytes_read;
    for n in 0..count {
        let number = n.wrapping_mul(7_919) % count + 1;
        let item = segment
            .get(alloc, &mut port, number)?
            .context("a number is not found")?;
        if item.seq != number || item.doc.is_none() {
            bail!("another document is found");
        }
    }
    Ok(port.bytes_read.saturating_sub(before))
}

/// `get_from_segment` with one buffer that is lent for all blocks.
pub fn get_lent_from_segment(alloc: Global, count: u64, size: usize) -> Result<u64> {
    let mut port = CountingFiles::new(MemFiles::new(Vec::new(alloc)));
    let segment = filled(alloc, &mut port, count, size)?;
    let before = port.bytes_read;
    let mut buffer = Vec::new(alloc);
    for n in 0..count {
        let number = n.wrapping_mul(7_919) % count + 1;
        let item = segment
            .get_with(alloc, &mut port, number, &mut buffer)?
            .context("a number is not found")?;
        if item.seq != number || item.doc.is_none() {
            bail!("another document is found");
        }
    }
    Ok(port.bytes_read.saturating_sub(before))
}

/// A segment of so many documents, numbered from 1.
fn filled(alloc: Global, port: &mut Port, count: u64, size: usize) -> Result<Segment<MemSealed>> {
    let body = vec![in alloc; b'v'; size.min(MOST_BYTES)]?;
    let mut item = Item {
        seq: 0,
        key: Key::new(alloc, b"key of each document")?.context("a key has a byte")?,
        doc: Doc::from_vec(body),
    };
    let mut writer = SegmentWriter::new(alloc, port, ID)?;
    for number in 0..count {
        item.seq = number + 1;
        push(alloc, port, &mut writer, &item)?;
    }
    if writer.count() == 0 {
        bail!("no document");
    }
    Ok(writer.finish(alloc, port)?)
}

fn push(
    alloc: Global,
    port: &mut Port,
    writer: &mut SegmentWriter<MemDraft>,
    item: &Item,
) -> Result<()> {
    if !writer.takes(item) {
        bail!("the document may not follow");
    }
    Ok(writer.push(alloc, port, item)?)
}
