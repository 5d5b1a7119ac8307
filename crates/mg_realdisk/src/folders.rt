//! What is done to folders.

use crate::files::{RealDraft, make_draft};
use crate::names::{is_draft, name_of, path_of};
use crate::opened::read_from;
use mg_disk::Name;
use std::alloc::Global;
use std::fs::{File, TryLockError};
use std::io::{ErrorKind, Write};
use std::rt::Files;
use std::{fs, io};

/// The number that stands for the host itself among its ports, in the names of drafts.
const HOST_PORT: u32 = 0;

/// How many bytes of a log are copied at a time.
const PIECE: usize = 65_536;

/// Makes the folder if it is missing, each folder above it first, and syncs the folders that hold them.
pub(crate) fn make_folder<R: Files<File = File>>(
    rt: &R,
    alloc: Global,
    folder: &str,
) -> io::Result<()> {
    for end in 1..folder.len() {
        if let Some((above, rest)) = folder.split_at_checked(end)
            && rest.starts_with('/')
        {
            make_in(rt, alloc, above)?;
        }
    }
    make_in(rt, alloc, folder)
}

/// Makes the folder if it is missing, in a folder that is there, which is synced: also where nothing was made, since who made
/// the folder may have been killed before. One that can't be synced is an error only where something was made in it.
pub(crate) fn make_in<R: Files<File = File>>(
    rt: &R,
    alloc: Global,
    folder: &str,
) -> io::Result<()> {
    let made = create_if_missing(rt, folder)?;
    let above = format!(in alloc; "{folder}/..")?;
    match sync_folder(rt, above.as_str()) {
        Err(error) if !made && cannot_be_synced(error.kind()) => Ok(()),
        synced => synced,
    }
}

// Whether the folder was made. Another process may make it at the same time.
fn create_if_missing<R: Files<File = File>>(rt: &R, folder: &str) -> io::Result<bool> {
    match fs::create_dir(rt, folder) {
        Ok(()) => Ok(true),
        Err(error) if error.kind() == ErrorKind::AlreadyExists => Ok(false),
        Err(error) => Err(error),
    }
}

// Whether a folder that we may not open, or whose file system has no syncs, answers so.
fn cannot_be_synced(kind: ErrorKind) -> bool {
    matches!(
        kind,
        ErrorKind::PermissionDenied
            | ErrorKind::ReadOnlyFilesystem
            | ErrorKind::InvalidInput
            | ErrorKind::Unsupported
    )
}

/// Syncs the names that a folder holds.
pub(crate) fn sync_folder<R: Files<File = File>>(rt: &R, folder: &str) -> io::Result<()> {
    open_folder(rt, folder)?.sync_all()
}

/// The folder, opened and locked. A folder that is locked elsewhere is an error.
pub(crate) fn lock_folder<R: Files<File = File>>(rt: &R, folder: &str) -> io::Result<File> {
    let opened = open_folder(rt, folder)?;
    match opened.try_lock() {
        Ok(()) => Ok(opened),
        Err(TryLockError::WouldBlock) => Err(io::Error::from(ErrorKind::WouldBlock)),
        Err(TryLockError::Error(error)) => Err(error),
    }
}

// The kind is asked for first: to open a pipe would wait for its writer.
fn open_folder<R: Files<File = File>>(rt: &R, folder: &str) -> io::Result<File> {
    if !fs::metadata(rt, folder)?.is_dir() {
        return Err(io::Error::from(ErrorKind::NotADirectory));
    }
    File::open(rt, folder)
}

// What stands in a folder, and whether it is a regular file.
#[derive(Drop)]
struct Entry {
    name: String,
    is_file: bool,
}

// What stands in a folder. A name that is no text is left out.
fn entries_in<R: Files<File = File> + AllocGlobal + Clone + Drop>(
    rt: &R,
    alloc: Global,
    folder: &str,
) -> io::Result<Vec<Entry>> {
    let mut entries = Vec::new(alloc);
    for entry in fs::read_dir(rt, folder)? {
        match entry {
            Ok(entry) => {
                let is_file = entry.metadata()?.is_file();
                let name = String::from_str(alloc, entry.file_name())?;
                entries.push(Entry { name, is_file })?;
            }
            Err(error) if error.kind() == ErrorKind::InvalidFilename => {}
            Err(error) => return Err(error),
        }
    }
    Ok(entries)
}

/// The names in a volume's folder, by kind and then by number. What is not spelled as a name is left alone. What is spelled so
/// and is no regular file is an error: a log that somebody put elsewhere is not one that is not there.
pub(crate) fn names_in<R: Files<File = File> + AllocGlobal + Clone + Drop>(
    rt: &R,
    alloc: Global,
    folder: &str,
) -> io::Result<Vec<Name>> {
    let mut names = Vec::new(alloc);
    for entry in entries_in(rt, alloc, folder)? {
        if let Some(name) = name_of(entry.name.as_str()) {
            if !entry.is_file {
                return Err(io::Error::from(ErrorKind::InvalidInput));
            }
            names.push(name)?;
        }
    }
    names.sort()?;
    Ok(names)
}

/// Deletes the regular files of a folder that are spelled as drafts, and nothing else.
pub(crate) fn delete_drafts<R: Files<File = File> + AllocGlobal + Clone + Drop>(
    rt: &R,
    alloc: Global,
    folder: &str,
) -> io::Result<()> {
    for Entry { name, is_file } in entries_in(rt, alloc, folder)? {
        if is_file && is_draft(name.as_str()) {
            fs::remove_file(rt, format!(in alloc; "{folder}/{name}")?)?;
        }
    }
    Ok(())
}

/// Makes all that a volume's folder holds lasting: each log is written anew, and then the names are synced. Sealed files were
/// synced before they had a name. It takes time in proportion to the length of the logs. `made` counts the drafts.
pub(crate) fn settle_folder<R: Files<File = File> + AllocGlobal + Clone + Drop>(
    rt: &R,
    alloc: Global,
    folder: &str,
    drafts: &str,
    made: &mut u64,
) -> io::Result<()> {
    for name in names_in(rt, alloc, folder)? {
        if name.kind.is_log() {
            let path = path_of(alloc, folder, name)?;
            let draft = make_draft(rt, alloc, drafts, HOST_PORT, made)?;
            write_anew(rt, alloc, path.as_str(), draft)?;
        }
    }
    sync_folder(rt, folder)
}

// Puts a file of the same bytes, which is synced, in the place of the one at that path. To sync the old one would not do: a
// system that failed to write its bytes, and told so once, may keep them in memory alone and answer Ok from then on.
fn write_anew<R: Files<File = File>>(
    rt: &R,
    alloc: Global,
    path: &str,
    draft: RealDraft,
) -> io::Result<()> {
    let RealDraft {
        mut file,
        path: draft,
    } = draft;
    copy_into(alloc, &File::open(rt, path)?, &mut file)?;
    file.sync_all()?;
    fs::rename(rt, draft, path)
}

// Puts all bytes of a file behind those of another.
fn copy_into(alloc: Global, from: &File, into: &mut File) -> io::Result<()> {
    let mut piece = vec![in alloc; 0; PIECE]?;
    let mut at = 0;
    for _ in 0..u64::MAX {
        let count = read_from(from, at, &mut piece)?;
        if count == 0 {
            break;
        }
        into.write_all(&piece[..count])?;
        at = at.saturating_add(count as u64);
    }
    Ok(())
}
