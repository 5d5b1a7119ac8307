//! The folder of a host: its lock, its settings, and what volumes and ports are made in it.

ghost use Rattle.std.specs.Prelude.{◌≡◌, None, false, IfOk};
ghost use Rattle.mg_faults.specs.Causes.{kept_count};

use crate::files::RealFiles;
use crate::folders::{delete_drafts, lock_folder, make_folder, make_in, settle_folder};
use crate::names::{draft_folder, settings_path, volume_folder};
use crate::opened::{is_there, read_from};
use crate::volumes::RealVolume;
use std::alloc::Global;
use std::fs::File;
use std::io::ErrorKind;
use std::rt::Files;
use std::sync::Arc;
use std::{fs, io};

/// The most bytes that are read of the settings: one more than settings may have, so that their reader can refuse more.
const MAX_SETTINGS: usize = 65_537;

/// The folder of a host, which is locked from the first call on that touches it.
#[derive(Drop)]
pub(crate) struct Root<R> {
    rt: R,
    folder: String,
    lock: Option<Arc<File>>,
    // whether the folder and those above it were made and synced
    made: bool,
    // how many ports were made
    ports: u32,
    // whether the drafts of earlier hosts were deleted, and how many this one made itself
    swept: bool,
    drafts: u64,
}

impl<R: Files<File = File> + AllocGlobal + Clone + Drop> Root<R> {
    ghost use Rattle.mg_types.specs.declared.names.Name.{Name};
    ghost use Rattle.mg_realdisk.specs.Known.{has_in_writing, known_number};

    /// That folder, which is not touched yet.
    pub(crate) fn new(rt: R, folder: String) -> Root<R> {
        Root {
            rt,
            folder,
            lock: None,
            made: false,
            ports: 0,
            swept: false,
            drafts: 0,
        }
    }

    // The empty name is refused: the folders in it would be the machine's own.
    fn check_name(&self) -> io::Result<()> {
        if self.folder.is_empty() {
            Err(io::Error::from(ErrorKind::InvalidInput))
        } else {
            Ok(())
        }
    }

    // The lock, which is taken where it is not held yet. It is an error where another host has it.
    fn lock(&mut self, alloc: Global) -> io::Result<Arc<File>> {
        if let Some(lock) = &self.lock {
            return Ok(Arc::try_clone(lock)?);
        }
        let lock = Arc::new(alloc, lock_folder(&self.rt, self.folder.as_str())?)?;
        self.lock = Some(Arc::try_clone(&lock)?);
        Ok(lock)
    }

    // Makes the folder where it is missing, at the first call, and locks it.
    fn make(&mut self, alloc: Global) -> io::Result<Arc<File>> {
        self.check_name()?;
        if !self.made {
            make_folder(&self.rt, alloc, self.folder.as_str())?;
            self.made = true;
        }
        self.lock(alloc)
    }

    /// The settings' first bytes, at most `MAX_SETTINGS`; None where there is no such file. No folder is made.
    pub(crate) fn settings(&mut self, alloc: Global) -> io::Result<Option<Vec<u8>>> {
        self.check_name()?;
        if !fs::exists(&self.rt, &self.folder)? {
            return Ok(None);
        }
        self.lock(alloc)?;
        let path = settings_path(alloc, self.folder.as_str())?;
        match fs::metadata(&self.rt, &path) {
            Ok(metadata) if metadata.is_file() => Ok(Some(read_front(&self.rt, alloc, &path)?)),
            Ok(_) => Err(io::Error::from(ErrorKind::InvalidInput)),
            Err(error) if error.kind() == ErrorKind::NotFound => {
                // a link that leads nowhere is there
                is_there(&self.rt, path.as_str())?;
                Ok(None)
            }
            Err(error) => Err(error),
        }
    }

    // The folder of drafts, which is made where it is missing. At the first call the drafts that are there are deleted.
    fn draft_folder(&mut self, alloc: Global) -> io::Result<String> {
        let folder = draft_folder(alloc, self.folder.as_str())?;
        make_in(&self.rt, alloc, folder.as_str())?;
        if !self.swept {
            delete_drafts(&self.rt, alloc, folder.as_str())?;
            self.swept = true;
        }
        Ok(folder)
    }

    /// Volume n, after its folder was made where it was missing, and all in it was made lasting: its logs were written anew.
    pub(crate) fn volume(&mut self, alloc: Global, n: u16) -> io::Result<RealVolume<R>>
        ensures faults { IfOk result (λ volume. kept_count volume.faults ≡ 0) }
        ensures writing { IfOk result (λ volume. (name : Name) → has_in_writing volume.writing name ≡ false) }
        ensures known { IfOk result (λ volume. (name : Name) → known_number volume.known name ≡ None) }
    {
        let lock = self.make(alloc)?;
        let drafts = self.draft_folder(alloc)?;
        let folder = volume_folder(alloc, self.folder.as_str(), n)?;
        make_in(&self.rt, alloc, folder.as_str())?;
        settle_folder(
            &self.rt,
            alloc,
            folder.as_str(),
            drafts.as_str(),
            &mut self.drafts,
        )?;
        Ok(RealVolume::new(alloc, self.rt.clone()?, folder, lock))
    }

    /// A port, after the folder of drafts was made where it was missing. Before the first volume or port the drafts that are
    /// there are deleted.
    pub(crate) fn port(&mut self, alloc: Global) -> io::Result<RealFiles<R>>
        ensures { IfOk result (λ port. kept_count port.faults ≡ 0) }
    {
        let lock = self.make(alloc)?;
        let folder = self.draft_folder(alloc)?;
        let Some(ports) = self.ports.checked_add(1) else {
            return Err(io::Error::from(ErrorKind::QuotaExceeded));
        };
        self.ports = ports;
        Ok(RealFiles::new(self.rt.clone()?, folder, lock, ports))
    }
}

fn read_front<R: Files<File = File>>(rt: &R, alloc: Global, path: &String) -> io::Result<Vec<u8>> {
    let mut bytes = vec![in alloc; 0; MAX_SETTINGS]?;
    let count = read_from(&File::open(rt, path)?, 0, &mut bytes)?;
    bytes.truncate(count);
    Ok(bytes)
}
