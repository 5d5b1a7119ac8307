//! A host in memory.

ghost use Rattle.std.specs.Prelude.{◌≡◌, ◌<◌};
ghost use Rattle.mg_memdisk.specs.Places.{place_of};

use crate::files::MemFiles;
use crate::volumes::MemVolume;
use mg_disk::{DiskError, Host, Volume};
use mg_faults::FaultCount;
use std::alloc::Global;
use std::array;
use std::collections::VecDeque;

/// How many volumes there are: one for each of 64 partitions, and the shared log's.
const VOLUMES: usize = 65;

/// How many partitions have a volume.
const PARTITIONS: u16 = 64;

/// A place for a volume: the volume while it is in, and its count of faults when it was last lent.
#[derive(Drop)]
pub struct Slot {
    inside: Option<MemVolume>,
    lent_faults: FaultCount,
}

impl Slot {
    ghost use Rattle.std.specs.Prelude.{◌≡◌, false, Some, None, IsSome, IfSome};
    ghost use Rattle.mg_faults.specs.Causes.{kept_count};
    ghost use Rattle.mg_memdisk.specs.declared.volumes.MemVolume.{MemVolume};
    ghost use Rattle.mg_memdisk.specs.Volumes.{mem_view, mem_calls, mem_shows, IsSettled};
    ghost use Rattle.mg_memdisk.specs.Hosts.{IsEmptySlot};

    // An empty volume.
    fn new(alloc: Global) -> Slot
        ensures { IsEmptySlot result }
    {
        Slot {
            inside: Some(MemVolume::new(alloc, Vec::new(alloc))),
            lent_faults: FaultCount::new(),
        }
    }

    // Lends the volume, after what it holds was made lasting.
    fn lend(&mut self) -> MemVolume
        requires { IsSome self.old.inside }
        ensures contents { (found : MemVolume) → self.old.inside ≡ Some found → (mem_view result).contents ≡ (mem_view found).contents }
        ensures calls { (found : MemVolume) → self.old.inside ≡ Some found → mem_calls result ≡ mem_calls found }
        ensures shows { (found : MemVolume) → self.old.inside ≡ Some found → mem_shows result ≡ mem_shows found }
        ensures settled { IsSettled result }
        ensures start { (mem_view result).moment ≡ 0 }
        ensures out { self.new.inside ≡ None }
        ensures count { self.new.lent_faults ≡ kept_count (mem_calls result).faults }
    {
        let mut volume = self.inside.take().unwrap();
        volume.settle();
        self.lent_faults = volume.faults();
        volume
    }
}

/// A host in memory: 64 volumes for partitions and one for the shared log.
#[derive(Drop)]
pub struct MemHost {
    settings: Option<Vec<u8>>,
    slots: [Slot; VOLUMES],
    // for each port that is still to be made, the numbers of its failing calls
    ports: VecDeque<Vec<u64>>,
    faults: FaultCount,
}

// The place of volume n.
fn place(n: u16) -> usize
    ensures place { result ≡ place_of n }
    ensures bound { result < 65 }
{
    if n < PARTITIONS {
        n as usize
    } else {
        PARTITIONS as usize
    }
}

impl MemHost {
    ghost use Rattle.std.specs.Prelude.{◌≡◌, ◌++◌, ◌∷◌, [], ℕ, false, Some, OnOk, OnErr, IsOk, IsErrOf, IsSome, option_map};
    ghost use Rattle.mg_disk.specs.Hosts.{IsVolume};
    ghost use Rattle.mg_memdisk.specs.Hosts.{mem_state, host_faults, host_ports, HasEmpty, IsEmptySlot, Puts};

    /// A host with these settings and empty volumes, none of whose calls fail.
    pub fn new(alloc: Global, settings: Option<Vec<u8>>) -> MemHost
        ensures settings { (mem_state result).settings ≡ option_map (λ bytes. bytes.items) settings }
        ensures inside { (n : ℕ) → (mem_state result).out n ≡ false }
        ensures empty { (n : ℕ) → IsVolume n → HasEmpty n (mem_state result) }
        ensures faults { host_faults result ≡ 0 }
        ensures ports { host_ports result ≡ [] }
    {
        MemHost {
            settings,
            slots: array::from_fn(
                |_| -> Slot
                    ensures { IsEmptySlot result }
                { Slot::new(alloc) },
            ),
            ports: VecDeque::new(alloc),
            faults: FaultCount::new(),
        }
    }

    /// Puts a volume in the place of volume n.
    pub fn put(&mut self, n: u16, vol: MemVolume) -> Result<(), DiskError>
        requires exists { IsVolume n }
        requires here { (mem_state self.old).out n ≡ false }
        ensures put { Puts n vol (mem_state self.old) (mem_state self.new) }
        ensures counts { host_faults self.new ≡ host_faults self.old }
        ensures ports { host_ports self.new ≡ host_ports self.old }
        ensures puts { IsOk result }
        ensures memory { IsErrOf result DiskError.Failed → ⊥ }
    {
        let at = place(n);
        self.slots[at].inside = Some(vol);
        Ok(())
    }

    /// Gives the numbers of the calls, from 1, that fail in the next port for which this was not said yet.
    pub fn next_port(&mut self, failing: Vec<u64>) -> Result<(), DiskError>
        ensures kept { OnOk result (host_ports self.new ≡ host_ports self.old ++ failing ∷ []) }
        ensures none { OnErr result (host_ports self.new ≡ host_ports self.old) }
        ensures same { mem_state self.new ≡ mem_state self.old }
        ensures counts { host_faults self.new ≡ host_faults self.old }
        ensures memory { IsErrOf result DiskError.Failed → ⊥ }
    {
        self.ports.push_back(failing)?;
        Ok(())
    }

    /// Volume n as it was put or given back, with nothing made lasting.
    pub fn left(&self, n: u16) -> &MemVolume
        requires exists { IsVolume n }
        requires here { (mem_state self.now).out n ≡ false }
        ensures { (mem_state self.now).inside n ≡ Some result.now }
    {
        self.slots[place(n)].inside.as_ref().unwrap()
    }
}

impl Host for MemHost {
    ghost use Rattle.std.specs.Prelude.{◌≡◌, ◌-◌, true, false, Some, option_map, IfOk, IsOk, OnErr, IsErrOf, IsTrue, drop};
    ghost use Rattle.mg_disk.specs.Hosts.{IsVolume, Lent, GivenBack, HasFound};
    ghost use Rattle.mg_memdisk.specs.declared.volumes.MemLog.{MemLog};
    ghost use Rattle.mg_memdisk.specs.declared.volumes.MemVolume.{MemVolume};
    ghost use Rattle.mg_memdisk.specs.Volumes.{mem_view, mem_open, mem_log_name, mem_calls, mem_shows, IsSettled};
    ghost use Rattle.mg_faults.specs.Causes.{HasCause, CountsOnce, kept_count, raised};
    ghost use Rattle.mg_faults.proofs.CallLaws.{kept_is_bounded};
    ghost use Rattle.mg_memdisk.specs.HostLaws.{host_has_volumes};
    ghost use Rattle.mg_memdisk.specs.Files.{port_calls};
    ghost use Rattle.mg_memdisk.specs.Hosts.{mem_state, host_faults, host_ports, first_failing};

    type Vol = MemVolume;

    ghost state = { mem_state };

    ghost faults = { host_faults };

    fn settings(&mut self, alloc: Global) -> Result<Option<Vec<u8>>, DiskError>
        ensures settings { IfOk result (λ found. option_map (λ bytes. bytes.items) found ≡ (mem_state self.old).settings) }
        ensures same { mem_state self.new ≡ mem_state self.old }
        ensures memory { IsErrOf result DiskError.Failed → ⊥ }
        ensures cause { HasCause DiskError.Failed (host_faults self.old) (host_faults self.new) result }
        ensures once { CountsOnce (host_faults self.old) (host_faults self.new) result }
        ensures counts { host_faults self.new ≡ host_faults self.old }
        ensures ports { host_ports self.new ≡ host_ports self.old }
    {
        match &self.settings {
            Some(bytes) => Ok(Some(bytes.to_vec(alloc)?)),
            None => Ok(None),
        }
    }

    fn volume(&mut self, _: Global, n: u16) -> Result<MemVolume, DiskError>
        requires exists { IsVolume n }
        requires here { (mem_state self.old).out n ≡ false }
        ensures lent { IfOk result (λ vol. Lent n (kept_count (mem_calls vol).faults) (mem_view vol).moment (mem_state self.old) (mem_state self.new)) }
        ensures found { IfOk result (λ vol. HasFound n mem_view (mem_state self.old) vol) }
        ensures calls { IfOk result (λ vol. (found : MemVolume) → (mem_state self.old).inside n ≡ Some found → mem_calls vol ≡ mem_calls found) }
        ensures shows { IfOk result (λ vol. (found : MemVolume) → (mem_state self.old).inside n ≡ Some found → mem_shows vol ≡ mem_shows found) }
        ensures settled { IfOk result (λ vol. IsSettled vol) }
        ensures writing { IfOk result (λ vol. (log : MemLog) → mem_open vol (mem_log_name log) ≡ false) }
        ensures lends { IsOk result }
        ensures same { OnErr result (mem_state self.new ≡ mem_state self.old) }
        ensures cause { HasCause DiskError.Failed (host_faults self.old) (host_faults self.new) result }
        ensures once { CountsOnce (host_faults self.old) (host_faults self.new) result }
        ensures counts { host_faults self.new ≡ host_faults self.old }
        ensures ports { host_ports self.new ≡ host_ports self.old }
    {
        let at = place(n);
        Ok(self.slots[at].lend())
    }

    fn give_back(&mut self, n: u16, vol: MemVolume)
        requires { IsTrue ((mem_state self.old).out n) }
        ensures given { GivenBack true n vol (mem_state self.old) (mem_state self.new) }
        ensures faults { host_faults self.new ≡ raised (host_faults self.old) (kept_count (mem_calls vol).faults - (mem_state self.old).lent_faults n) }
        ensures ports { host_ports self.new ≡ host_ports self.old }
    {
        let at = place(n);
        let before = self.slots[at].lent_faults;
        self.faults.rise_by(before, vol.faults());
        self.slots[at].inside = Some(vol);
    }

    fn files(&mut self, alloc: Global) -> Result<MemFiles, DiskError>
        ensures same { mem_state self.new ≡ mem_state self.old }
        ensures counts { host_faults self.new ≡ host_faults self.old }
        ensures memory { IsErrOf result DiskError.Failed → ⊥ }
        ensures fresh { IfOk result (λ port. kept_count (port_calls port).faults ≡ 0) }
        ensures calls { IfOk result (λ port. (port_calls port).calls ≡ 0) }
        ensures cause { HasCause DiskError.Failed (host_faults self.old) (host_faults self.new) result }
        ensures once { CountsOnce (host_faults self.old) (host_faults self.new) result }
        ensures failing { IfOk result (λ port. (port_calls port).failing ≡ first_failing (host_ports self.old)) }
        ensures ports { host_ports self.new ≡ drop 1 (host_ports self.old) }
    {
        let failing = match self.ports.pop_front() {
            Some(failing) => failing,
            None => Vec::new(alloc),
        };
        Ok(MemFiles::new(failing))
    }

    fn give_port(&mut self, port: MemFiles)
        ensures same { mem_state self.new ≡ mem_state self.old }
        ensures faults { host_faults self.new ≡ raised (host_faults self.old) (kept_count (port_calls port).faults) }
        ensures ports { host_ports self.new ≡ host_ports self.old }
    {
        self.faults.rise_by(FaultCount::new(), port.faults());
    }

    ghost has_volumes = { λ tells host. host_has_volumes host };

    ghost bounded = { λ host. kept_is_bounded host.faults };
}
