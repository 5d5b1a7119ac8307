//! A port in memory.

ghost use Rattle.std.specs.Prelude.{◌≡◌, ◌≤◌, ◌↔◌, ◌++◌, ◌/◌, take, false, Some, List, [], ℕ, length, IfOk, OnOk, OnErr, IsErrOf, IsTrue};
ghost use Rattle.mg_faults.specs.Calls.{no_calls, next_fails, after_call};
ghost use Rattle.mg_faults.specs.Causes.{HasCause, CountsOnce, kept_count};
ghost use Rattle.mg_disk.specs.Files.{IsFront, ReadsAt};

use crate::bytes::Bytes;
use crate::calls::count_call;
use mg_disk::{DiskError, Files, SendFiles};
use mg_faults::{CallCounter, FaultCount};
use std::alloc::Global;
use std::sync::Arc;

/// The longest file of which a cache may keep blocks, in bytes: `same` compares all of them.
const MAX_KEPT: usize = 262_144;

/// A draft in memory.
#[derive(Drop)]
pub struct MemDraft {
    bytes: Vec<u8>,
}

/// A sealed file in memory; its shares share its bytes.
#[derive(Drop)]
pub struct MemSealed {
    pub(crate) bytes: Arc<Bytes>,
}

/// A port in memory, whose calls fail by number.
#[derive(Drop)]
pub struct MemFiles {
    calls: CallCounter,
}

impl MemFiles {
    ghost use Rattle.mg_memdisk.specs.Files.{port_calls};

    /// A port whose calls with these numbers, from 1, fail.
    pub fn new(failing: Vec<u64>) -> MemFiles
        ensures { port_calls result ≡ no_calls failing.items }
    {
        MemFiles {
            calls: CallCounter::new(failing),
        }
    }

    /// How many of its calls failed.
    pub fn faults(&self) -> FaultCount
        ensures { result ≡ kept_count (port_calls self.now).faults }
    {
        let faults = self.calls.faults();
        let _count = faults.get();
        faults
    }
}

impl SendFiles for MemFiles {}

// Each call that has `&mut self` is counted, and fails where its number is listed.
impl Files for MemFiles {
    ghost use Rattle.mg_faults.proofs.CallLaws.{kept_is_bounded};
    ghost use Rattle.mg_memdisk.specs.Files.{draft_bytes, sealed_bytes, port_calls};

    type Draft = MemDraft;

    type Sealed = MemSealed;

    ghost drafted = { λ draft. Some (draft_bytes draft) };

    ghost told = { λ file. Some (sealed_bytes file) };

    ghost identity = { sealed_bytes };

    ghost faults = { λ port. kept_count (port_calls port).faults };

    fn fresh(&mut self, alloc: Global) -> Result<MemDraft, DiskError>
        ensures empty { IfOk result (λ draft. draft_bytes draft ≡ []) }
        ensures cause { HasCause DiskError.Failed (kept_count (port_calls self.old).faults) (kept_count (port_calls self.new).faults) result }
        ensures once { CountsOnce (kept_count (port_calls self.old).faults) (kept_count (port_calls self.new).faults) result }
        ensures counted { port_calls self.new ≡ after_call (port_calls self.old) }
        ensures fails { IsErrOf result DiskError.Failed ↔ IsTrue (next_fails (port_calls self.old)) }
    {
        count_call(&mut self.calls)?;
        Ok(MemDraft {
            bytes: Vec::new(alloc),
        })
    }

    // A call that fails has appended the first half, rounded down.
    fn append(&mut self, _: Global, draft: &mut MemDraft, bytes: &[u8]) -> Result<(), DiskError>
        ensures appended { OnOk result (draft_bytes draft.new ≡ draft_bytes draft.old ++ bytes.now) }
        ensures part { OnErr result ((front : List ℕ) × IsFront front bytes.now × (draft_bytes draft.new ≡ draft_bytes draft.old ++ front)) }
        ensures half { IsErrOf result DiskError.Failed → draft_bytes draft.new ≡ draft_bytes draft.old ++ take (length bytes.now / 2) bytes.now }
        ensures short { IsErrOf result DiskError.NoMemory → draft_bytes draft.new ≡ draft_bytes draft.old }
        ensures cause { HasCause DiskError.Failed (kept_count (port_calls self.old).faults) (kept_count (port_calls self.new).faults) result }
        ensures once { CountsOnce (kept_count (port_calls self.old).faults) (kept_count (port_calls self.new).faults) result }
        ensures counted { port_calls self.new ≡ after_call (port_calls self.old) }
        ensures fails { IsErrOf result DiskError.Failed → IsTrue (next_fails (port_calls self.old)) }
        ensures listed { OnOk result (next_fails (port_calls self.old) ≡ false) }
    {
        match count_call(&mut self.calls) {
            Ok(()) => Ok(draft.bytes.extend_from_slice(bytes)?),
            Err(failed) => {
                draft.bytes.extend_from_slice(&bytes[..bytes.len() / 2])?;
                Err(failed)
            }
        }
    }

    fn seal(&mut self, alloc: Global, draft: MemDraft) -> Result<MemSealed, DiskError>
        ensures sealed { IfOk result (λ file. sealed_bytes file ≡ draft_bytes draft) }
        ensures cause { HasCause DiskError.Failed (kept_count (port_calls self.old).faults) (kept_count (port_calls self.new).faults) result }
        ensures once { CountsOnce (kept_count (port_calls self.old).faults) (kept_count (port_calls self.new).faults) result }
        ensures counted { port_calls self.new ≡ after_call (port_calls self.old) }
        ensures fails { IsErrOf result DiskError.Failed ↔ IsTrue (next_fails (port_calls self.old)) }
    {
        count_call(&mut self.calls)?;
        Ok(MemSealed {
            bytes: Arc::new(alloc, Bytes::new(draft.bytes))?,
        })
    }

    fn len(&mut self, _: Global, file: &MemSealed) -> Result<u64, DiskError>
        ensures len { IfOk result (λ len. len ≡ length (sealed_bytes file.now)) }
        ensures cause { HasCause DiskError.Failed (kept_count (port_calls self.old).faults) (kept_count (port_calls self.new).faults) result }
        ensures once { CountsOnce (kept_count (port_calls self.old).faults) (kept_count (port_calls self.new).faults) result }
        ensures counted { port_calls self.new ≡ after_call (port_calls self.old) }
        ensures fails { IsErrOf result DiskError.Failed ↔ IsTrue (next_fails (port_calls self.old)) }
    {
        count_call(&mut self.calls)?;
        Ok(file.bytes.items.len() as u64)
    }

    fn read(
        &mut self,
        _: Global,
        file: &MemSealed,
        at: u64,
        buf: &mut [u8],
    ) -> Result<usize, DiskError>
        ensures bound { IfOk result (λ count. count ≤ length buf.old) }
        ensures bytes { IfOk result (λ count. ReadsAt (sealed_bytes file.now) at buf.old buf.new count) }
        ensures cause { HasCause DiskError.Failed (kept_count (port_calls self.old).faults) (kept_count (port_calls self.new).faults) result }
        ensures once { CountsOnce (kept_count (port_calls self.old).faults) (kept_count (port_calls self.new).faults) result }
        ensures counted { port_calls self.new ≡ after_call (port_calls self.old) }
        ensures fails { IsErrOf result DiskError.Failed ↔ IsTrue (next_fails (port_calls self.old)) }
    {
        count_call(&mut self.calls)?;
        Ok(read_at(&file.bytes.items, at, buf))
    }

    fn share(&self, _: Global, file: &MemSealed) -> Result<MemSealed, DiskError> {
        Ok(MemSealed {
            bytes: Arc::try_clone(&file.bytes)?,
        })
    }

    fn same(&self, a: &MemSealed, b: &MemSealed) -> bool
        ensures bytes { IsTrue result ↔ (sealed_bytes a.now ≡ sealed_bytes b.now) }
    {
        a.bytes.items == b.bytes.items
    }

    fn keeps(&self, file: &MemSealed) -> bool
        ensures { IsTrue result ↔ (length (sealed_bytes file.now) ≤ 262144) }
    {
        file.bytes.items.len() <= MAX_KEPT
    }

    ghost bounded = { λ port. kept_is_bounded (port_calls port).faults };
}

/// Puts the bytes from that offset on into the front of the buffer, as many as both have, and answers how many.
pub(crate) fn read_at(bytes: &[u8], at: u64, buf: &mut [u8]) -> usize
    ensures { ReadsAt bytes.now at buf.old buf.new result }
{
    let from = (bytes.len() as u64).min(at) as usize;
    let count = buf.len().min(bytes.len() - from);
    buf[..count].copy_from_slice(&bytes[from..from + count]);
    count
}
