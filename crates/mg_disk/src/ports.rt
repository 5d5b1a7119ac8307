//! Ports: sealed files, written once and read by any thread.

ghost use Rattle.std.specs.Prelude.{◌≡◌, ℕ, ◌≤◌, List, [], Option, None, Some, length, IfOk, OnOk, OnErr, IfSome, IsErrOf, IsTrue};
ghost use Rattle.mg_faults.specs.Causes.{HasCause, CountsOnce, last_count};
ghost use Rattle.mg_disk.specs.Files.{extended, IsFront, ReadsAt};

use crate::DiskError;
use std::alloc::Global;

/// A port, one value per thread, through which sealed files are written and read.
///
/// A sealed file never changes, and is readable for as long as a value of it is held, whatever happens to its name.
pub trait Files: Drop {
    /// A file that is being written.
    type Draft: Drop;

    /// A file that never changes.
    type Sealed: Drop;

    /// A draft's bytes, where the port tells them.
    ghost drafted: { Self.Draft → Option (List ℕ) };

    /// A sealed file's bytes, where the port tells them.
    ghost told: { Self.Sealed → Option (List ℕ) };

    /// What a file is known by; shares of one file are known by the same.
    ghost identity: { Self.Sealed → List ℕ };

    /// How often the port has failed; it stays at its last value.
    ghost faults: { Self → ℕ };

    /// An empty draft.
    fn fresh(&mut self, alloc: Global) -> Result<Self::Draft, DiskError>
        ensures empty { IfOk result (λ draft. IfSome (drafted draft) (λ bytes. bytes ≡ [])) }
        ensures cause { HasCause DiskError.Failed (faults self.old) (faults self.new) result }
        ensures once { CountsOnce (faults self.old) (faults self.new) result };

    /// Puts bytes behind the draft's. After an error a front of them was appended.
    fn append(
        &mut self,
        alloc: Global,
        draft: &mut Self::Draft,
        bytes: &[u8],
    ) -> Result<(), DiskError>
        ensures appended { OnOk result (drafted draft.new ≡ extended (drafted draft.old) bytes.now) }
        ensures part { OnErr result ((front : List ℕ) × IsFront front bytes.now × (drafted draft.new ≡ extended (drafted draft.old) front)) }
        ensures cause { HasCause DiskError.Failed (faults self.old) (faults self.new) result }
        ensures once { CountsOnce (faults self.old) (faults self.new) result };

    /// The draft as a file that never changes, synced. After an error the draft is gone.
    fn seal(&mut self, alloc: Global, draft: Self::Draft) -> Result<Self::Sealed, DiskError>
        ensures sealed { IfOk result (λ file. told file ≡ drafted draft) }
        ensures cause { HasCause DiskError.Failed (faults self.old) (faults self.new) result }
        ensures once { CountsOnce (faults self.old) (faults self.new) result };

    /// The file's length in bytes.
    fn len(&mut self, alloc: Global, file: &Self::Sealed) -> Result<u64, DiskError>
        ensures len { IfOk result (λ len. IfSome (told file.now) (λ bytes. len ≡ length bytes)) }
        ensures cause { HasCause DiskError.Failed (faults self.old) (faults self.new) result }
        ensures once { CountsOnce (faults self.old) (faults self.new) result };

    /// Reads from that offset on: as many bytes as `buf` has room for and the file has. Answers how many.
    fn read(
        &mut self,
        alloc: Global,
        file: &Self::Sealed,
        at: u64,
        buf: &mut [u8],
    ) -> Result<usize, DiskError>
        ensures bound { IfOk result (λ count. count ≤ length buf.old) }
        ensures bytes { IfOk result (λ count. IfSome (told file.now) (λ bytes. ReadsAt bytes at buf.old buf.new count)) }
        ensures cause { HasCause DiskError.Failed (faults self.old) (faults self.new) result }
        ensures once { CountsOnce (faults self.old) (faults self.new) result };

    /// The same file once more. It calls no device, and its only error is `NoMemory`.
    fn share(&self, alloc: Global, file: &Self::Sealed) -> Result<Self::Sealed, DiskError>
        ensures told { IfOk result (λ again. told again ≡ told file.now) }
        ensures identity { IfOk result (λ again. identity again ≡ identity file.now) }
        ensures memory { IsErrOf result DiskError.Failed → ⊥ };

    /// Whether the two are known to have the same bytes. It is true for a file and its share.
    fn same(&self, a: &Self::Sealed, b: &Self::Sealed) -> bool
        ensures bytes { IsTrue result → told a.now ≡ told b.now }
        ensures shares { identity a.now ≡ identity b.now → IsTrue result };

    /// Whether a cache may keep blocks of that file.
    fn keeps(&self, file: &Self::Sealed) -> bool;

    /// A count of faults has a last value.
    ghost bounded: { (port : Self) → faults port ≤ last_count };
}

/// A port that may be used in another thread than the one that made it, with its drafts and files.
/// Only functions that start threads ask for it.
pub trait SendFiles: Files<Draft: Send, Sealed: Send + Sync> + Send {}
