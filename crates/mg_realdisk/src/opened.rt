//! Files that are opened, and what is read of them.

ghost use Rattle.std.specs.Prelude.{◌≤◌, length, IfOk};

use std::fs::{File, Metadata};
use std::io::ErrorKind;
use std::os::unix::fs::{FileExt, MetadataExt};
use std::rt::Files;
use std::{fs, io};

/// Where the system takes no offset any more.
const OFFSETS: u64 = 1 << 63;

/// What the system knows a file by, as long as it is open or named.
#[derive(Clone, Copy, Debug, PartialEq, Eq)]
pub struct FileNumber {
    device: u64,
    inode: u64,
}

/// What the system knows an opened file by.
pub(crate) fn number_of(file: &File) -> io::Result<FileNumber> {
    Ok(number_in(&file.metadata()?))
}

fn number_in(metadata: &Metadata) -> FileNumber {
    FileNumber {
        device: metadata.dev(),
        inode: metadata.ino(),
    }
}

/// An error where the file with that number does not stand at that path.
pub(crate) fn check_stands<R: Files<File = File>>(
    rt: &R,
    path: &str,
    number: FileNumber,
) -> io::Result<()> {
    if number_in(&fs::symlink_metadata(rt, path)?) == number {
        Ok(())
    } else {
        Err(io::Error::from(ErrorKind::NotFound))
    }
}

/// The regular file at that path; None where nothing is there. What is there and no regular file is an error.
pub(crate) fn open_if_there<R: Files<File = File>>(rt: &R, path: &str) -> io::Result<Option<File>> {
    if is_there(rt, path)? {
        Ok(Some(File::open(rt, path)?))
    } else {
        Ok(None)
    }
}

/// Whether there is a file at that path. What is there and no regular file, as a link, is an error.
pub(crate) fn is_there<R: Files<File = File>>(rt: &R, path: &str) -> io::Result<bool> {
    match fs::symlink_metadata(rt, path) {
        Ok(metadata) if metadata.is_file() => Ok(true),
        Ok(_) => Err(io::Error::from(ErrorKind::InvalidInput)),
        Err(error) if error.kind() == ErrorKind::NotFound => Ok(false),
        Err(error) => Err(error),
    }
}

/// Reads from that offset on, until the buffer is full or the file ends, and answers how many bytes.
pub(crate) fn read_from(file: &File, at: u64, buf: &mut [u8]) -> io::Result<usize>
    ensures { IfOk result (λ count. count ≤ length buf.old) }
{
    let mut count = 0;
    for _ in 0..u64::MAX {
        let more = read_once(file, at.saturating_add(count as u64), &mut buf[count..])?;
        if more == 0 {
            break;
        }
        count += more;
    }
    Ok(count)
}

// One read, which gives nothing at the file's end, and where the buffer has no room. No file reaches the last offsets.
fn read_once(file: &File, at: u64, buf: &mut [u8]) -> io::Result<usize>
    ensures { IfOk result (λ count. count ≤ length buf.old) }
{
    if buf.is_empty() || OFFSETS.saturating_sub(at) <= buf.len() as u64 {
        return Ok(0);
    }
    file.read_at(buf, at)
}
