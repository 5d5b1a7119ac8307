//! Volumes: names of sealed files, and logs, with what a crash may leave of both.

ghost use Rattle.std.specs.Prelude.{◌≡◌, ◌≢◌, ◌≤◌, ◌↔◌, ◌⊎◌, Bool, true, ℕ, List, [], Option, None, Some, length, IfOk, OnOk, OnErr, IfSome, IsSome, IsTrue, MatchOption};
ghost use Rattle.std.specs.List.{Contains};
ghost use Rattle.std.specs.List.Sorted.{IsStrictlySortedBy};
ghost use Rattle.mg_types.specs.declared.names.Name.{Name};
ghost use Rattle.mg_types.specs.Names.{IsFileName, IsLogName};
ghost use Rattle.mg_faults.specs.Causes.{HasCause, CountsOnce, last_count};
ghost use Rattle.mg_disk.specs.Files.{ReadsAt, found_bytes};
ghost use Rattle.mg_disk.specs.Images.{Image, View, HoldsBytes, Stays, NameSet, NameInDoubt, Appended, AppendFailed, Synced};
ghost use Rattle.mg_disk.specs.Names.{KeepsEach};

use crate::{DiskError, Files, SendFiles};
use mg_types::Name;
use std::alloc::Global;

/// A volume: names that stand for sealed files, and logs that grow at their end.
///
/// What is said of contents, images and the clock holds of a volume that tells them. The rest holds of every volume:
/// which log is in writing, which file stands under a name, and when a call may fail.
pub trait Volume: Drop {
    /// The port whose sealed files the volume takes and gives.
    type Port: Files;

    /// A log in writing.
    type Log: Drop;

    /// Whether the volume tells what it holds.
    ghost tells: { Bool };

    /// What it holds, and what a crash may leave of it.
    ghost view: { Self → View };

    /// The log's name.
    ghost log_name: { Self.Log → Name };

    /// Whether the log is in writing here: `new_log` gave it, and its name was not removed since.
    ghost in_writing: { Self → Self.Log → Bool };

    /// What the file is known by that was adopted or given under a name, while the name stands.
    ghost stands_for: { Self → Name → Option (List ℕ) };

    /// How often the volume has failed; it stays at its last value.
    ghost faults: { Self → ℕ };

    /// All names. A volume that tells what it holds gives each once, by kind and then by number; another may give them in any
    /// order.
    fn names(&mut self, alloc: Global) -> Result<Vec<Name>, DiskError>
        ensures order { IsTrue tells → IfOk result (λ names. IsStrictlySortedBy ⟦<Name as Ord>⟧.cmp names.items) }
        ensures all { IsTrue tells → IfOk result (λ names. (name : Name) → Contains names.items name ↔ IsSome ((view self.old).contents name)) }
        ensures stays { IsTrue tells → Stays (view self.old) (view self.new) }
        ensures writing { (log : Self.Log) → in_writing self.new log ≡ in_writing self.old log }
        ensures standing { (name : Name) → stands_for self.new name ≡ stands_for self.old name }
        ensures cause { HasCause DiskError.Failed (faults self.old) (faults self.new) result }
        ensures once { CountsOnce (faults self.old) (faults self.new) result };

    /// The file under a name; None where there is no such name.
    fn find_file(
        &mut self,
        alloc: Global,
        name: Name,
    ) -> Result<Option<<Self::Port as Files>::Sealed>, DiskError>
        requires { IsFileName name }
        ensures found { IsTrue tells → IfOk result (λ found. found_bytes Self.Port.told found ≡ (view self.old).contents name) }
        ensures stays { IsTrue tells → Stays (view self.old) (view self.new) }
        ensures writing { (log : Self.Log) → in_writing self.new log ≡ in_writing self.old log }
        ensures given { IfOk result (λ found. IfSome found (λ file. stands_for self.new name ≡ Some (Self.Port.identity file))) }
        ensures same { OnErr result (stands_for self.new name ≡ stands_for self.old name) }
        ensures keeps { IsTrue tells → KeepsEach (stands_for self.old) (stands_for self.new) }
        ensures standing { (other : Name) → other ≢ name → stands_for self.new other ≡ stands_for self.old other }
        ensures cause { HasCause DiskError.Failed (faults self.old) (faults self.new) result }
        ensures once { CountsOnce (faults self.old) (faults self.new) result };

    /// Lets the name stand for the file, also after a crash. After an error it may, and after a crash it may or not,
    /// until the name is changed again. A file that has other names keeps them.
    fn adopt(
        &mut self,
        alloc: Global,
        name: Name,
        file: &<Self::Port as Files>::Sealed,
    ) -> Result<(), DiskError>
        requires kind { IsFileName name }
        requires absent { IsTrue tells → (view self.old).contents name ≡ None }
        ensures set { IsTrue tells → OnOk result (NameSet name (Self.Port.told file.now) (view self.old) (view self.new)) }
        ensures doubt { IsTrue tells → OnErr result (NameInDoubt name (Self.Port.told file.now) (view self.old) (view self.new)) }
        ensures writing { (log : Self.Log) → in_writing self.new log ≡ in_writing self.old log }
        ensures given { OnOk result (stands_for self.new name ≡ Some (Self.Port.identity file.now)) }
        ensures standing { (other : Name) → other ≢ name → stands_for self.new other ≡ stands_for self.old other }
        ensures cause { HasCause DiskError.Failed (faults self.old) (faults self.new) result }
        ensures once { CountsOnce (faults self.old) (faults self.new) result };

    /// Takes the name away, also after a crash; an absent name is Ok. After an error it may be gone, and after a crash it may
    /// be gone or not, until the name is changed again.
    fn remove(&mut self, alloc: Global, name: Name) -> Result<(), DiskError>
        ensures set { IsTrue tells → OnOk result (NameSet name None (view self.old) (view self.new)) }
        ensures doubt { IsTrue tells → OnErr result (NameInDoubt name None (view self.old) (view self.new)) }
        ensures writing { (log : Self.Log) → log_name log ≢ name → in_writing self.new log ≡ in_writing self.old log }
        ensures standing { (other : Name) → other ≢ name → stands_for self.new other ≡ stands_for self.old other }
        ensures gone { OnOk result (stands_for self.new name ≡ None) }
        ensures still { OnErr result ((stands_for self.new name ≡ stands_for self.old name) ⊎ (stands_for self.new name ≡ None)) }
        ensures cause { HasCause DiskError.Failed (faults self.old) (faults self.new) result }
        ensures once { CountsOnce (faults self.old) (faults self.new) result };

    /// Whether the name is known to stand for a file of the same bytes. It is true for a file that this volume adopted
    /// under that name or gave for it, and for its shares, while the name stands.
    fn holds(&self, name: Name, file: &<Self::Port as Files>::Sealed) -> bool
        ensures bytes { IsTrue tells → IsTrue result → (view self.now).contents name ≡ Self.Port.told file.now }
        ensures given { stands_for self.now name ≡ Some (Self.Port.identity file.now) → IsTrue result };

    /// An empty log under the name, also after a crash. After an error there may be one, which is not in writing, and after a
    /// crash there may be one or not, until the name is changed again.
    fn new_log(&mut self, alloc: Global, name: Name) -> Result<Self::Log, DiskError>
        requires kind { IsLogName name }
        requires absent { IsTrue tells → (view self.old).contents name ≡ None }
        ensures set { IsTrue tells → OnOk result (NameSet name (Some []) (view self.old) (view self.new)) }
        ensures doubt { IsTrue tells → OnErr result (NameInDoubt name (Some []) (view self.old) (view self.new)) }
        ensures named { IfOk result (λ log. log_name log ≡ name) }
        ensures opens { IfOk result (λ log. IsTrue (in_writing self.new log)) }
        ensures writing { (log : Self.Log) → log_name log ≢ name → in_writing self.new log ≡ in_writing self.old log }
        ensures standing { (other : Name) → other ≢ name → stands_for self.new other ≡ stands_for self.old other }
        ensures cause { HasCause DiskError.Failed (faults self.old) (faults self.new) result }
        ensures once { CountsOnce (faults self.old) (faults self.new) result };

    /// Puts bytes behind the log's. After an error a front of them was appended. Until a sync a crash may leave the log
    /// shorter, and any bytes behind what was synced.
    fn append(&mut self, alloc: Global, log: &mut Self::Log, bytes: &[u8]) -> Result<(), DiskError>
        requires { IsTrue (in_writing self.old log.old) }
        ensures appended { IsTrue tells → OnOk result (Appended (log_name log.old) bytes.now (view self.old) (view self.new)) }
        ensures part { IsTrue tells → OnErr result (AppendFailed (log_name log.old) bytes.now (view self.old) (view self.new)) }
        ensures named { log_name log.new ≡ log_name log.old }
        ensures open { IsTrue (in_writing self.new log.new) }
        ensures writing { (other : Self.Log) → log_name other ≢ log_name log.old → in_writing self.new other ≡ in_writing self.old other }
        ensures standing { (name : Name) → stands_for self.new name ≡ stands_for self.old name }
        ensures cause { HasCause DiskError.Failed (faults self.old) (faults self.new) result }
        ensures once { CountsOnce (faults self.old) (faults self.new) result };

    /// Makes the log lasting: from Ok on, a crash leaves at least what it has now.
    fn sync(&mut self, alloc: Global, log: &mut Self::Log) -> Result<(), DiskError>
        requires { IsTrue (in_writing self.old log.old) }
        ensures synced { IsTrue tells → OnOk result (Synced (log_name log.old) (view self.old) (view self.new)) }
        ensures stays { IsTrue tells → OnErr result (Stays (view self.old) (view self.new)) }
        ensures named { log_name log.new ≡ log_name log.old }
        ensures open { IsTrue (in_writing self.new log.new) }
        ensures writing { (other : Self.Log) → log_name other ≢ log_name log.old → in_writing self.new other ≡ in_writing self.old other }
        ensures standing { (name : Name) → stands_for self.new name ≡ stands_for self.old name }
        ensures cause { HasCause DiskError.Failed (faults self.old) (faults self.new) result }
        ensures once { CountsOnce (faults self.old) (faults self.new) result };

    /// The length in bytes of the log under a name.
    fn log_len(&mut self, alloc: Global, name: Name) -> Result<u64, DiskError>
        requires kind { IsLogName name }
        requires there { IsTrue tells → IsSome ((view self.old).contents name) }
        ensures len { IsTrue tells → IfOk result (λ len. IfSome ((view self.old).contents name) (λ bytes. len ≡ length bytes)) }
        ensures stays { IsTrue tells → Stays (view self.old) (view self.new) }
        ensures writing { (log : Self.Log) → in_writing self.new log ≡ in_writing self.old log }
        ensures standing { (name : Name) → stands_for self.new name ≡ stands_for self.old name }
        ensures cause { HasCause DiskError.Failed (faults self.old) (faults self.new) result }
        ensures once { CountsOnce (faults self.old) (faults self.new) result };

    /// Reads the log under a name from that offset on, as `Files::read` does.
    fn read_log(
        &mut self,
        alloc: Global,
        name: Name,
        at: u64,
        buf: &mut [u8],
    ) -> Result<usize, DiskError>
        requires kind { IsLogName name }
        requires there { IsTrue tells → IsSome ((view self.old).contents name) }
        ensures bound { IfOk result (λ count. count ≤ length buf.old) }
        ensures bytes { IsTrue tells → IfOk result (λ count. IfSome ((view self.old).contents name) (λ bytes. ReadsAt bytes at buf.old buf.new count)) }
        ensures stays { IsTrue tells → Stays (view self.old) (view self.new) }
        ensures writing { (log : Self.Log) → in_writing self.new log ≡ in_writing self.old log }
        ensures standing { (name : Name) → stands_for self.new name ≡ stands_for self.old name }
        ensures cause { HasCause DiskError.Failed (faults self.old) (faults self.new) result }
        ensures once { CountsOnce (faults self.old) (faults self.new) result };

    /// A crash may leave what reads give.
    ghost may_leave_contents: { IsTrue tells → (volume : Self) → (view volume).may_leave (view volume).contents };

    /// This moment is one of those since an earlier one.
    ghost counts_now: { IsTrue tells → (volume : Self) (t : ℕ) (c : Image) → t ≤ (view volume).moment → (view volume).may_leave c → (view volume).left_since t c };

    /// Since this moment there is no other.
    ghost only_now: { IsTrue tells → (volume : Self) (c : Image) → (view volume).left_since (view volume).moment c → (view volume).may_leave c };

    /// A volume that tells has a port that tells each sealed file.
    ghost port_tells: { IsTrue tells → (file : Self.Port.Sealed) → IsSome (Self.Port.told file) };

    /// What reads give are bytes.
    ghost contents_are_bytes: { IsTrue tells → (volume : Self) → HoldsBytes (view volume).contents };

    /// So is what a crash might have left.
    ghost images_are_bytes: { IsTrue tells → (volume : Self) (t : ℕ) (c : Image) → (view volume).left_since t c → HoldsBytes c };

    /// A count of faults has a last value.
    ghost bounded: { (volume : Self) → faults volume ≤ last_count };
}

/// A volume that may be used in another thread than the one that made it, with its logs, its port and the port's files.
/// Only functions that start threads ask for it.
pub trait SendVolume: Volume<Log: Send, Port: SendFiles> + Send {}
