//! A host over a real folder.

ghost use Rattle.std.specs.Prelude.{◌≡◌};

use crate::counted::counted;
use crate::files::RealFiles;
use crate::roots::Root;
use crate::volumes::RealVolume;
use mg_disk::{DiskError, Host};
use mg_faults::FaultCount;
use std::alloc::Global;
use std::collections::BTreeSet;
use std::fs::File;
use std::rt::Files;

/// A host over a folder: a folder for each volume in it, one for drafts, and the settings.
///
/// The empty name of a folder, and a folder that another host holds, are faults of the device at each call.
#[derive(Drop)]
pub struct RealHost<R> {
    root: Root<R>,
    // the volumes that are lent
    lent: BTreeSet<u16>,
    faults: FaultCount,
}

impl<R: Files<File = File> + AllocGlobal + Clone + Drop> RealHost<R> {
    ghost use Rattle.std.specs.Prelude.{◌≡◌, ℕ, false};
    ghost use Rattle.mg_faults.specs.Causes.{kept_count};
    ghost use Rattle.mg_realdisk.specs.Known.{is_lent};

    /// A host over that folder, which is not touched yet.
    pub fn new(rt: R, folder: String) -> RealHost<R>
        ensures inside { (n : ℕ) → is_lent result.lent n ≡ false }
        ensures faults { kept_count result.faults ≡ 0 }
    {
        let alloc = rt.alloc();
        RealHost {
            root: Root::new(rt, folder),
            lent: BTreeSet::new(alloc),
            faults: FaultCount::new(),
        }
    }
}

// Each volume and port begins with no fault, so what one has counted is added whole.
impl<R: Files<File = File> + AllocGlobal + Clone + Drop> Host for RealHost<R> {
    ghost use Rattle.std.specs.Prelude.{◌≡◌, ◌-◌, true, false, IfOk, OnErr, IsTrue};
    ghost use Rattle.mg_disk.specs.Hosts.{IsVolume, Lent, GivenBack};
    ghost use Rattle.mg_faults.specs.Causes.{HasCause, CountsOnce, kept_count, raised};
    ghost use Rattle.mg_faults.proofs.CallLaws.{kept_is_bounded};
    ghost use Rattle.mg_realdisk.specs.Known.{is_lent};
    ghost use Rattle.mg_realdisk.specs.Untold.{lent_state, never};

    type Vol = RealVolume<R>;

    ghost state = { λ host. lent_state (is_lent host.lent) };

    ghost faults = { λ host. kept_count host.faults };

    fn settings(&mut self, alloc: Global) -> Result<Option<Vec<u8>>, DiskError> {
        counted(&mut self.faults, self.root.settings(alloc))
    }

    fn volume(&mut self, alloc: Global, n: u16) -> Result<RealVolume<R>, DiskError> {
        let volume = counted(&mut self.faults, self.root.volume(alloc, n))?;
        self.lent.insert(n)?;
        Ok(volume)
    }

    fn give_back(&mut self, n: u16, vol: RealVolume<R>) {
        self.lent.remove(&n);
        self.faults.rise_by(FaultCount::new(), vol.faults());
    }

    fn files(&mut self, alloc: Global) -> Result<RealFiles<R>, DiskError> {
        counted(&mut self.faults, self.root.port(alloc))
    }

    fn give_port(&mut self, port: RealFiles<R>) {
        self.faults.rise_by(FaultCount::new(), port.faults());
    }

    ghost has_volumes = { λ told. absurd (never told) };

    ghost bounded = { λ host. kept_is_bounded host.faults };
}
