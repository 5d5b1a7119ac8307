//! A file of records is loaded.

ghost use Rattle.std.specs.Prelude.{◌≡◌, ◌<◌, ◌≤◌, ◌^◌, ◌⊎◌, ◌↔◌, List, length, IfErr, IfOk, IfSome, IsTrue, MatchResult};
ghost use Rattle.mg_faults.specs.Causes.{CountsOnce, HasCause};
ghost use Rattle.mg_records.specs.File.{IsFile};
ghost use Rattle.mg_records.specs.Reading.{Agrees, IsRead};
ghost use Rattle.mg_records.specs.Refusals.{IsRefused, IsUnfit};
ghost use Rattle.mg_records.specs.Writing.{Represents};
ghost use Rattle.mg_sealed.specs.Answers.{IsOutside};

use crate::file::RecordFile;
use crate::record::Record;
use mg_disk::Files;
use mg_indexed::{BlockHandle, Footer, footer_len};
use mg_sealed::malformed;
use mg_types::{Fault, FileId};
use std::alloc::Global;

impl<S: Drop, R: Record> RecordFile<S, R> {
    /// Loads a file of records, of which this length in bytes is kept: reads its footer and its index, and no block. Whoever keeps no length
    /// of the file asks the port for it, and tests that it is below 2^62.
    pub fn load<F: Files<Sealed = S>>(
        alloc: Global,
        port: &mut F,
        id: FileId,
        file: S,
        len: u64,
    ) -> Result<RecordFile<S, R>, Fault>
        requires { len < 2 ^ 62 }
        ensures loaded { IfSome (F.told file) (λ bytes. (records : List R) → IsFile R.kind bytes records → length bytes ≡ len →
            MatchResult result (λ file. Represents R.kind F.told file records) (λ fault. IsOutside fault)) }
        ensures file { IfOk result (λ filed. filed.file ≡ record { id = id; file = file; len = len }) }
        ensures read { IfOk result (λ filed. IfSome (F.told file) (λ bytes. IsRead R.BlockItem.form bytes filed)) }
        ensures refusals { IfErr result (λ fault. IfSome (F.told file) (λ bytes. IsOutside fault ⊎ IsRefused R.BlockItem.form id file len bytes fault)) }
        ensures kinds { IfErr result (λ fault. IsOutside fault ⊎ IsUnfit id fault) }
        ensures cause { HasCause Fault.ReadFault (F.faults port.old) (F.faults port.new) result }
        ensures once { CountsOnce (F.faults port.old) (F.faults port.new) result }
    {
        let indexed = mg_indexed::load::<F, u64, R>(alloc, port, id, file, len)?;
        if !agrees(indexed.footer(), indexed.handles()) {
            return Err(malformed(id, len.saturating_sub(footer_len(false))));
        }
        Ok(RecordFile { indexed })
    }
}

/// Whether a footer agrees with the first numbers of the first and of the last block.
fn agrees(footer: &Footer, handles: &[BlockHandle<u64>]) -> bool
    requires { 1 ≤ length handles.now }
    ensures { IsTrue result ↔ Agrees footer.now handles.now }
{
    handles[0].first == footer.low && handles[handles.len() - 1].first <= footer.high
}
