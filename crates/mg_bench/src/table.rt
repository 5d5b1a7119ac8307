//! Workloads over a table in memory. Its keys are the even numbers in decimal digits, of `size` bytes, at most 250.

use anyhow::{Context, Result, bail};
use mg_bloom::HashedKey;
use mg_memdisk::{MemDraft, MemFiles, MemSealed};
use mg_sealed::CountingFiles;
use mg_table::{Table, TableWriter};
use mg_types::{Entry, FileId, Key, Kind};
use std::alloc::Global;

const ID: FileId = FileId {
    part: 0,
    kind: Kind::Table,
    number: 1,
};

/// The most entries of a table in which keys are looked for.
const MOST_ENTRIES: u64 = 100_000;

const MOST_KEY_BYTES: usize = 250;

/// What each entry says of the bytes of its key and document.
const ENTRY_BYTES: u32 = 1_044;

type Port = CountingFiles<MemFiles>;

/// Writes a table of `count` entries, and answers the bytes of the file.
pub fn write_table(alloc: Global, count: u64, size: usize) -> Result<u64> {
    let mut port = CountingFiles::new(MemFiles::new(Vec::new(alloc)));
    filled(alloc, &mut port, count, size)?;
    Ok(port.bytes_written)
}

/// Looks `count` times for a key of a table of `count` entries, at most 100,000, and answers how many bytes were read.
pub fn find_in_table(alloc: Global, count: u64, size: usize) -> Result<u64> {
    let mut port = CountingFiles::new(MemFiles::new(Vec::new(alloc)));
    let entries = count.min(MOST_ENTRIES);
    let table = filled(alloc, &mut port, entries, size)?;
    let before = port.bytes_read;
    for n in 0..count {
        let number = n.wrapping_mul(7_919) % entries;
        let key = key_of(alloc, 2 * number, size)?;
        if table.find(alloc, &mut port, &key)?.is_none() {
            bail!("a key is not found");
        }
    }
    Ok(port.bytes_read.saturating_sub(before))
}

/// `find_in_table` with one buffer that is lent for all blocks.
pub fn find_lent_in_table(alloc: Global, count: u64, size: usize) -> Result<u64> {
    let mut port = CountingFiles::new(MemFiles::new(Vec::new(alloc)));
    let entries = count.min(MOST_ENTRIES);
    let table = filled(alloc, &mut port, entries, size)?;
    let before = port.bytes_read;
    let mut buffer = Vec::new(alloc);
    for n in 0..count {
        let number = n.wrapping_mul(7_919) % entries;
        let key = key_of(alloc, 2 * number, size)?;
        let hashed = HashedKey::new(key.bytes());
        let found = table.find_hashed(alloc, &mut port, &key, &hashed, &mut buffer)?;
        if found.is_none() {
            bail!("a key is not found");
        }
    }
    Ok(port.bytes_read.saturating_sub(before))
}

/// Looks `count` times for a key between two of a table of `count` entries, at most 100,000, and answers how many bytes were
/// read.
pub fn find_absent_in_table(alloc: Global, count: u64, size: usize) -> Result<u64> {
    let mut port = CountingFiles::new(MemFiles::new(Vec::new(alloc)));
    let entries = count.min(MOST_ENTRIES);
    let table = filled(alloc, &mut port, entries, size)?;
    let before = port.bytes_read;
    for n in 0..count {
        let number = n.wrapping_mul(7_919) % entries;
        let key = key_of(alloc, 2 * number + 1, size)?;
        if table.find(alloc, &mut port, &key)?.is_some() {
            bail!("an absent key is found");
        }
    }
    Ok(port.bytes_read.saturating_sub(before))
}

/// A table of so many entries.
fn filled(alloc: Global, port: &mut Port, entries: u64, size: usize) -> Result<Table<MemSealed>> {
    if entries >= 1 << 32 {
        bail!("too many entries");
    }
    let mut writer = TableWriter::new(alloc, port, ID, 0, entries, entries)?;
    for number in 0..entries {
        let entry = Entry {
            key: key_of(alloc, 2 * number, size)?,
            seq: number + 1,
            size: ENTRY_BYTES,
            gone: false,
        };
        push(alloc, port, &mut writer, &entry)?;
    }
    if writer.is_empty() {
        bail!("no entry");
    }
    Ok(writer.finish(alloc, port)?)
}

fn push(
    alloc: Global,
    port: &mut Port,
    writer: &mut TableWriter<MemDraft>,
    entry: &Entry,
) -> Result<()> {
    if writer.is_full() || !writer.is_above(&entry.key) || !entry.fits() {
        bail!("the entry may not follow");
    }
    Ok(writer.push(alloc, port, entry)?)
}

/// The last digits of a number, as many as `size`, at most 250.
fn key_of(alloc: Global, number: u64, size: usize) -> Result<Key> {
    let mut digits = [b'0'; MOST_KEY_BYTES];
    let mut left = number;
    for digit in digits[..size.min(MOST_KEY_BYTES)].iter_mut().rev() {
        *digit = b'0' + (left % 10) as u8;
        left /= 10;
    }
    Key::new(alloc, &digits[..size.min(MOST_KEY_BYTES)])?.context("a key has a byte")
}
