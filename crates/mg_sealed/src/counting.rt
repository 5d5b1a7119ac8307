//! A port that counts what goes through it.

ghost use Rattle.std.specs.Prelude.{◌≡◌, ◌≤◌, List, ℕ, length, IfOk, IfSome, MatchResult, OnErr, OnOk};
ghost use Rattle.mg_disk.specs.Files.{extended, IsFront, ReadsAt};
ghost use Rattle.mg_faults.specs.Causes.{raised, CountsOnce, HasCause};
ghost use Rattle.mg_sealed.specs.Counting.{port_below};

use mg_disk::{DiskError, Files};
use std::alloc::Global;

/// A port over another one, which does each call. It counts its reads, the bytes that they give and the bytes that are appended;
/// each count stays at the last number of its type.
#[derive(Drop)]
pub struct CountingFiles<F> {
    files: F,
    /// How many reads there were.
    pub reads: u64,
    /// How many bytes they gave.
    pub bytes_read: u64,
    /// How many bytes were appended.
    pub bytes_written: u64,
}

impl<F> CountingFiles<F> {
    /// Nothing went through it so far.
    pub fn new(files: F) -> CountingFiles<F>
        ensures below { port_below result ≡ files }
        ensures none { (result.reads ≡ 0) × (result.bytes_read ≡ 0) × (result.bytes_written ≡ 0) }
    {
        CountingFiles {
            files,
            reads: 0,
            bytes_read: 0,
            bytes_written: 0,
        }
    }

    /// How many reads there were since this was last asked, and how many bytes they gave.
    pub fn take_reads(&mut self) -> (u64, u64)
        ensures counts { result ≡ (self.old.reads, self.old.bytes_read) }
        ensures none { (self.new.reads ≡ 0) × (self.new.bytes_read ≡ 0) }
        ensures rest { (self.new.bytes_written ≡ self.old.bytes_written) × (port_below self.new ≡ port_below self.old) }
    {
        let counts = (self.reads, self.bytes_read);
        self.reads = 0;
        self.bytes_read = 0;
        counts
    }
}

// Each call is one of the port below.
impl<F: Files> Files for CountingFiles<F> {
    ghost use Rattle.mg_sealed.specs.Counting.{port_below};

    type Draft = F::Draft;

    type Sealed = F::Sealed;

    ghost drafted = { F.drafted };

    ghost told = { F.told };

    ghost identity = { F.identity };

    ghost faults = { λ port. F.faults (port_below port) };

    fn fresh(&mut self, alloc: Global) -> Result<F::Draft, DiskError> {
        self.files.fresh(alloc)
    }

    fn append(&mut self, alloc: Global, draft: &mut F::Draft, bytes: &[u8]) -> Result<(), DiskError>
        ensures appended { OnOk result (F.drafted draft.new ≡ extended (F.drafted draft.old) bytes.now) }
        ensures part { OnErr result ((front : List ℕ) × IsFront front bytes.now × (F.drafted draft.new ≡ extended (F.drafted draft.old) front)) }
        ensures cause { HasCause DiskError.Failed (F.faults (port_below self.old)) (F.faults (port_below self.new)) result }
        ensures once { CountsOnce (F.faults (port_below self.old)) (F.faults (port_below self.new)) result }
        ensures written { MatchResult result
            (λ _. self.new.bytes_written ≡ raised self.old.bytes_written (length bytes.now))
            (λ _. self.new.bytes_written ≡ self.old.bytes_written) }
        ensures read { (self.new.reads ≡ self.old.reads) × (self.new.bytes_read ≡ self.old.bytes_read) }
    {
        self.files.append(alloc, draft, bytes)?;
        self.bytes_written = self.bytes_written.saturating_add(bytes.len() as u64);
        Ok(())
    }

    fn seal(&mut self, alloc: Global, draft: F::Draft) -> Result<F::Sealed, DiskError> {
        self.files.seal(alloc, draft)
    }

    fn len(&mut self, alloc: Global, file: &F::Sealed) -> Result<u64, DiskError> {
        self.files.len(alloc, file)
    }

    fn read(
        &mut self,
        alloc: Global,
        file: &F::Sealed,
        at: u64,
        buf: &mut [u8],
    ) -> Result<usize, DiskError>
        ensures bound { IfOk result (λ count. count ≤ length buf.old) }
        ensures bytes { IfOk result (λ count. IfSome (F.told file.now) (λ bytes. ReadsAt bytes at buf.old buf.new count)) }
        ensures cause { HasCause DiskError.Failed (F.faults (port_below self.old)) (F.faults (port_below self.new)) result }
        ensures once { CountsOnce (F.faults (port_below self.old)) (F.faults (port_below self.new)) result }
        ensures reads { self.new.reads ≡ raised self.old.reads 1 }
        ensures read { MatchResult result
            (λ count. self.new.bytes_read ≡ raised self.old.bytes_read count)
            (λ _. self.new.bytes_read ≡ self.old.bytes_read) }
        ensures written { self.new.bytes_written ≡ self.old.bytes_written }
    {
        self.reads = self.reads.saturating_add(1);
        let count = self.files.read(alloc, file, at, buf)?;
        self.bytes_read = self.bytes_read.saturating_add(count as u64);
        Ok(count)
    }

    fn share(&self, alloc: Global, file: &F::Sealed) -> Result<F::Sealed, DiskError> {
        self.files.share(alloc, file)
    }

    fn same(&self, a: &F::Sealed, b: &F::Sealed) -> bool {
        self.files.same(a, b)
    }

    fn keeps(&self, file: &F::Sealed) -> bool {
        self.files.keeps(file)
    }

    ghost bounded = { λ port. F.bounded (port_below port) };
}
