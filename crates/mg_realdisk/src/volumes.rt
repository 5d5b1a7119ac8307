//! A volume in a real folder.

ghost use Rattle.std.specs.Prelude.{◌≡◌, ◌≤◌, false, length, IfOk};
ghost use Rattle.mg_faults.specs.Causes.{kept_count};

use crate::counted::counted;
use crate::files::{Origin, RealFiles, RealSealed};
use crate::folders::{names_in, sync_folder};
use crate::names::path_of;
use crate::opened::{FileNumber, check_stands, is_there, open_if_there, read_from};
use mg_disk::{DiskError, Name, SendVolume, Volume};
use mg_faults::FaultCount;
use std::alloc::Global;
use std::collections::{BTreeMap, BTreeSet};
use std::fs::{File, OpenOptions};
use std::io::{ErrorKind, Write};
use std::rt::Files;
use std::sync::Arc;
use std::{fs, io};

/// A log in writing. Its file stands at its end.
#[derive(Drop)]
pub struct RealLog {
    name: Name,
    file: File,
}

/// A volume in a folder of its own.
#[derive(Drop)]
pub struct RealVolume<R> {
    rt: R,
    folder: String,
    // the host's lock, which the volume keeps too
    lock: Arc<File>,
    // what the file is known by that was adopted or found under a name
    known: BTreeMap<Name, FileNumber>,
    // the logs that are in writing
    writing: BTreeSet<Name>,
    faults: FaultCount,
}

impl<R: Files<File = File> + AllocGlobal + Clone + Drop> RealVolume<R> {
    ghost use Rattle.std.specs.Prelude.{◌≡◌, None, false};
    ghost use Rattle.mg_types.specs.declared.names.Name.{Name};
    ghost use Rattle.mg_realdisk.specs.Known.{has_in_writing, known_number};

    /// The volume in that folder, all of which is lasting. No log is in writing, and no name is known.
    pub(crate) fn new(alloc: Global, rt: R, folder: String, lock: Arc<File>) -> RealVolume<R>
        ensures faults { kept_count result.faults ≡ 0 }
        ensures writing { (name : Name) → has_in_writing result.writing name ≡ false }
        ensures known { (name : Name) → known_number result.known name ≡ None }
    {
        RealVolume {
            rt,
            folder,
            lock,
            known: BTreeMap::new(alloc),
            writing: BTreeSet::new(alloc),
            faults: FaultCount::new(),
        }
    }

    /// How often it has failed.
    pub(crate) fn faults(&self) -> FaultCount
        ensures { result ≡ kept_count self.now.faults }
    {
        let _count = self.faults.get();
        self.faults
    }
}

fn find_in<R: Files<File = File>>(
    rt: &R,
    alloc: Global,
    folder: &str,
    name: Name,
) -> io::Result<Option<RealSealed>> {
    let path = path_of(alloc, folder, name)?;
    match open_if_there(rt, path.as_str())? {
        Some(file) => Ok(Some(RealSealed::new(alloc, file, Origin::Named(path))?)),
        None => Ok(None),
    }
}

// Links the file from where it was, and then syncs the folder. A link replaces nothing: what is there under the name is an
// error, but for this very file, as an adoption leaves it that failed at its sync. So is a file that has left the path that it
// was known by, as where its draft has a name already: another file may stand there now.
fn adopt_in<R: Files<File = File>>(
    rt: &R,
    alloc: Global,
    folder: &str,
    name: Name,
    file: &RealSealed,
) -> io::Result<()> {
    let path = path_of(alloc, folder, name)?;
    let from = match &file.opened.origin {
        Origin::Draft(draft) => draft.as_str(),
        Origin::Named(other) => other.as_str(),
    };
    check_stands(rt, from, file.number)?;
    match fs::hard_link(rt, from, path.as_str()) {
        Ok(()) => {}
        Err(error) if error.kind() == ErrorKind::AlreadyExists => {
            check_stands(rt, path.as_str(), file.number)?;
        }
        Err(error) => return Err(error),
    }
    sync_folder(rt, folder)
}

// Unlinks the draft of a file that has a name now. One that stays is deleted by the next host.
fn drop_draft<R: Files<File = File>>(rt: &R, file: &RealSealed) {
    if let Origin::Draft(draft) = &file.opened.origin {
        let _left = fs::remove_file(rt, draft);
    }
}

// Removes the file and syncs the folder, also where there was no such file: an earlier removal may have failed at its sync.
// What is there and no regular file is an error, and stays.
fn remove_from<R: Files<File = File>>(
    rt: &R,
    alloc: Global,
    folder: &str,
    name: Name,
) -> io::Result<()> {
    let path = path_of(alloc, folder, name)?;
    if is_there(rt, path.as_str())? {
        fs::remove_file(rt, &path)?;
    }
    sync_folder(rt, folder)
}

// Makes an empty file, syncs it, and then its folder. One that is there is an error.
fn make_log<R: Files<File = File>>(
    rt: &R,
    alloc: Global,
    folder: &str,
    name: Name,
) -> io::Result<File> {
    let path = path_of(alloc, folder, name)?;
    let file = OpenOptions::new()
        .append(true)
        .create_new(true)
        .open(rt, &path)?;
    file.sync_all()?;
    sync_folder(rt, folder)?;
    Ok(file)
}

fn open_log<R: Files<File = File>>(
    rt: &R,
    alloc: Global,
    folder: &str,
    name: Name,
) -> io::Result<File> {
    let path = path_of(alloc, folder, name)?;
    match open_if_there(rt, path.as_str())? {
        Some(file) => Ok(file),
        None => Err(io::Error::from(ErrorKind::NotFound)),
    }
}

fn read_in<R: Files<File = File>>(
    rt: &R,
    alloc: Global,
    folder: &str,
    name: Name,
    at: u64,
    buf: &mut [u8],
) -> io::Result<usize>
    ensures { IfOk result (λ count. count ≤ length buf.old) }
{
    let file = open_log(rt, alloc, folder, name)?;
    read_from(&file, at, buf)
}

fn len_in<R: Files<File = File>>(
    rt: &R,
    alloc: Global,
    folder: &str,
    name: Name,
) -> io::Result<u64> {
    Ok(open_log(rt, alloc, folder, name)?.metadata()?.len())
}

impl<R: Files<File = File> + AllocGlobal + Clone + Drop> Volume for RealVolume<R> {
    ghost use Rattle.std.specs.Prelude.{◌≡◌, ◌≢◌, ◌≤◌, ◌⊎◌, ◌↔◌, false, Some, None, length, IfOk, IfSome, OnOk, OnErr, IsTrue};
    ghost use Rattle.mg_types.specs.declared.names.Name.{Name};
    ghost use Rattle.mg_faults.specs.Causes.{HasCause, CountsOnce};
    ghost use Rattle.mg_faults.proofs.CallLaws.{kept_is_bounded};
    ghost use Rattle.mg_realdisk.specs.Known.{has_in_writing, known_number, number_list};
    ghost use Rattle.mg_realdisk.specs.Untold.{no_view, never};

    type Port = RealFiles<R>;

    type Log = RealLog;

    ghost tells = { false };

    ghost view = { λ _. no_view };

    ghost log_name = { λ log. log.name };

    ghost in_writing = { λ volume log. has_in_writing volume.writing log.name };

    ghost stands_for = { λ volume. known_number volume.known };

    ghost faults = { λ volume. kept_count volume.faults };

    fn names(&mut self, alloc: Global) -> Result<Vec<Name>, DiskError> {
        let names = names_in(&self.rt, alloc, self.folder.as_str());
        counted(&mut self.faults, names)
    }

    fn find_file(&mut self, alloc: Global, name: Name) -> Result<Option<RealSealed>, DiskError> {
        let found = find_in(&self.rt, alloc, self.folder.as_str(), name);
        let found = counted(&mut self.faults, found)?;
        match &found {
            Some(file) => {
                self.known.insert(name, file.number)?;
            }
            None => {
                self.known.remove(&name);
            }
        }
        Ok(found)
    }

    fn adopt(&mut self, alloc: Global, name: Name, file: &RealSealed) -> Result<(), DiskError> {
        self.known.remove(&name);
        let adopted = adopt_in(&self.rt, alloc, self.folder.as_str(), name, file);
        counted(&mut self.faults, adopted)?;
        drop_draft(&self.rt, file);
        self.known.insert(name, file.number)?;
        Ok(())
    }

    fn remove(&mut self, alloc: Global, name: Name) -> Result<(), DiskError> {
        self.known.remove(&name);
        self.writing.remove(&name);
        let removed = remove_from(&self.rt, alloc, self.folder.as_str(), name);
        counted(&mut self.faults, removed)
    }

    fn holds(&self, name: Name, file: &RealSealed) -> bool
        ensures known { IsTrue result ↔ (known_number self.now.known name ≡ Some (number_list file.now.number)) }
    {
        match self.known.get(&name) {
            Some(number) => *number == file.number,
            None => false,
        }
    }

    fn new_log(&mut self, alloc: Global, name: Name) -> Result<RealLog, DiskError> {
        let made = make_log(&self.rt, alloc, self.folder.as_str(), name);
        let file = counted(&mut self.faults, made)?;
        self.writing.insert(name)?;
        Ok(RealLog { name, file })
    }

    fn append(&mut self, _: Global, log: &mut RealLog, bytes: &[u8]) -> Result<(), DiskError> {
        counted(&mut self.faults, log.file.write_all(bytes))
    }

    fn sync(&mut self, _: Global, log: &mut RealLog) -> Result<(), DiskError> {
        counted(&mut self.faults, log.file.sync_data())
    }

    fn log_len(&mut self, alloc: Global, name: Name) -> Result<u64, DiskError> {
        let len = len_in(&self.rt, alloc, self.folder.as_str(), name);
        counted(&mut self.faults, len)
    }

    fn read_log(
        &mut self,
        alloc: Global,
        name: Name,
        at: u64,
        buf: &mut [u8],
    ) -> Result<usize, DiskError> {
        let count = read_in(&self.rt, alloc, self.folder.as_str(), name, at, buf);
        counted(&mut self.faults, count)
    }

    ghost may_leave_contents = { λ told. absurd (never told) };

    ghost counts_now = { λ told. absurd (never told) };

    ghost only_now = { λ told. absurd (never told) };

    ghost port_tells = { λ told. absurd (never told) };

    ghost contents_are_bytes = { λ told. absurd (never told) };

    ghost images_are_bytes = { λ told. absurd (never told) };

    ghost bounded = { λ volume. kept_is_bounded volume.faults };
}

impl<R: Files<File = File> + AllocGlobal + Clone + Drop + Send> SendVolume for RealVolume<R> {}
