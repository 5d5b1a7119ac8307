//! A port over real files.

ghost use Rattle.std.specs.Prelude.{None};
ghost use Rattle.mg_faults.specs.Causes.{kept_count};

use crate::counted::counted;
use crate::names::draft_path;
use crate::opened::{FileNumber, number_of, read_from};
use mg_disk::{DiskError, Files, SendFiles};
use mg_faults::FaultCount;
use std::alloc::Global;
use std::fs::File;
use std::io::{ErrorKind, Write};
use std::sync::Arc;
use std::{fs, io, rt};

/// A draft: a file that no name of a volume stands for.
#[derive(Drop)]
pub struct RealDraft {
    pub(crate) file: File,
    pub(crate) path: String,
}

/// Where a sealed file was when it was sealed or found.
#[derive(Drop)]
pub(crate) enum Origin {
    /// The path of its draft, which goes where the file gets a name.
    Draft(String),
    /// The path of a name, which stays.
    Named(String),
}

/// A file that is open, and where it was.
#[derive(Drop)]
pub(crate) struct Opened {
    pub(crate) file: File,
    pub(crate) origin: Origin,
}

/// A sealed file; its shares read through one opened file.
#[derive(Drop)]
pub struct RealSealed {
    pub(crate) opened: Arc<Opened>,
    pub(crate) number: FileNumber,
}

impl RealSealed {
    /// That file, which is known by its number.
    pub(crate) fn new(alloc: Global, file: File, origin: Origin) -> io::Result<RealSealed> {
        let number = number_of(&file)?;
        let opened = Arc::new(alloc, Opened { file, origin })?;
        Ok(RealSealed { opened, number })
    }
}

/// A port over a folder of drafts. Drafts that are never adopted stay there, until the next host deletes them.
#[derive(Drop)]
pub struct RealFiles<R> {
    rt: R,
    folder: String,
    // the host's lock, which the port keeps too
    lock: Arc<File>,
    // which of the host's ports it is, from 1, and how many drafts it has made
    port: u32,
    drafts: u64,
    faults: FaultCount,
}

impl<R: rt::Files<File = File> + AllocGlobal + Clone + Drop> RealFiles<R> {
    ghost use Rattle.std.specs.Prelude.{◌≡◌};

    /// A port that has made no draft.
    pub(crate) fn new(rt: R, folder: String, lock: Arc<File>, port: u32) -> RealFiles<R>
        ensures { kept_count result.faults ≡ 0 }
    {
        RealFiles {
            rt,
            folder,
            lock,
            port,
            drafts: 0,
            faults: FaultCount::new(),
        }
    }

    /// How often it has failed.
    pub(crate) fn faults(&self) -> FaultCount
        ensures { result ≡ kept_count self.now.faults }
    {
        let _count = self.faults.get();
        self.faults
    }
}

/// The next draft of the port with that number, under a name that no file has. `drafts` counts them.
pub(crate) fn make_draft<R: rt::Files<File = File>>(
    rt: &R,
    alloc: Global,
    folder: &str,
    port: u32,
    drafts: &mut u64,
) -> io::Result<RealDraft> {
    let Some(number) = drafts.checked_add(1) else {
        return Err(io::Error::from(ErrorKind::QuotaExceeded));
    };
    *drafts = number;
    let path = draft_path(alloc, folder, port, number)?;
    let file = File::create_new(rt, &path)?;
    Ok(RealDraft { file, path })
}

// The draft is synced. One that can't be is unlinked, or else stays until the next host deletes it.
fn seal_draft<R: rt::Files<File = File>>(
    rt: &R,
    alloc: Global,
    draft: RealDraft,
) -> io::Result<RealSealed> {
    let RealDraft { file, path } = draft;
    if let Err(error) = file.sync_all() {
        let _left = fs::remove_file(rt, &path);
        return Err(error);
    }
    RealSealed::new(alloc, file, Origin::Draft(path))
}

fn len_of(file: &File) -> io::Result<u64> {
    Ok(file.metadata()?.len())
}

impl<R: rt::Files<File = File> + AllocGlobal + Clone + Drop> Files for RealFiles<R> {
    ghost use Rattle.std.specs.Prelude.{◌≡◌, ◌≤◌, ◌↔◌, ◌∷◌, [], length, IfOk, IsTrue};
    ghost use Rattle.mg_faults.specs.Causes.{HasCause, CountsOnce};
    ghost use Rattle.mg_faults.proofs.CallLaws.{kept_is_bounded};
    ghost use Rattle.mg_realdisk.specs.Known.{number_list};

    type Draft = RealDraft;

    type Sealed = RealSealed;

    ghost drafted = { λ _. None };

    ghost told = { λ _. None };

    ghost identity = { λ file. number_list file.number };

    ghost faults = { λ port. kept_count port.faults };

    fn fresh(&mut self, alloc: Global) -> Result<RealDraft, DiskError> {
        let folder = self.folder.as_str();
        let made = make_draft(&self.rt, alloc, folder, self.port, &mut self.drafts);
        counted(&mut self.faults, made)
    }

    fn append(&mut self, _: Global, draft: &mut RealDraft, bytes: &[u8]) -> Result<(), DiskError> {
        counted(&mut self.faults, draft.file.write_all(bytes))
    }

    fn seal(&mut self, alloc: Global, draft: RealDraft) -> Result<RealSealed, DiskError> {
        let sealed = seal_draft(&self.rt, alloc, draft);
        counted(&mut self.faults, sealed)
    }

    fn len(&mut self, _: Global, file: &RealSealed) -> Result<u64, DiskError> {
        counted(&mut self.faults, len_of(&file.opened.file))
    }

    fn read(
        &mut self,
        _: Global,
        file: &RealSealed,
        at: u64,
        buf: &mut [u8],
    ) -> Result<usize, DiskError> {
        let count = read_from(&file.opened.file, at, buf);
        counted(&mut self.faults, count)
    }

    fn share(&self, _: Global, file: &RealSealed) -> Result<RealSealed, DiskError> {
        Ok(RealSealed {
            opened: Arc::try_clone(&file.opened)?,
            number: file.number,
        })
    }

    fn same(&self, a: &RealSealed, b: &RealSealed) -> bool
        ensures known { IsTrue result ↔ (number_list a.now.number ≡ number_list b.now.number) }
    {
        a.number == b.number
    }

    fn keeps(&self, _: &RealSealed) -> bool
        ensures { IsTrue result }
    {
        true
    }

    ghost bounded = { λ port. kept_is_bounded port.faults };
}

impl<R: rt::Files<File = File> + AllocGlobal + Clone + Drop + Send> SendFiles for RealFiles<R> {}
