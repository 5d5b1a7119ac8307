//! Records of a file are read a block at a time.

ghost use Rattle.std.specs.Prelude.{◌≡◌, ◌<◌, ◌⊎◌, List, length, IfErr, IfOk, IfSome, IsSome, MatchResult};
ghost use Rattle.mg_faults.specs.Causes.{CountsOnce, HasCause};
ghost use Rattle.mg_records.specs.Lookup.{IsBlockFault};
ghost use Rattle.mg_records.specs.Pages.{IsPage, IsPageOf, IsPageRead, IsPageRefused};
ghost use Rattle.mg_records.specs.Writing.{Represents};
ghost use Rattle.mg_sealed.specs.Answers.{IsOutside};

use crate::block::scan_block;
use crate::file::RecordFile;
use crate::record::Record;
use mg_sealed::{BLOCK_LIMIT, Blocks};
use mg_types::Fault;
use std::alloc::Global;
use std::mem;

impl<S: Drop, R: Record> RecordFile<S, R> {
    /// The records of one block, from 0 on, whose numbers are above `after`, in rising order. Reads that block alone, into a buffer
    /// that is lent, and takes memory for its records. Whoever reads the blocks from `start` on in turn has what a scan lists.
    ///
    /// The block is judged as a scan judges the one at which it begins: whether its first record had room in the block before is
    /// not asked, nor what the footer counts. After an error the buffer may be empty.
    pub fn page<F: Blocks<Sealed = S>>(
        &self,
        alloc: Global,
        port: &mut F,
        block: usize,
        after: u64,
        buffer: &mut Vec<u8>,
    ) -> Result<Vec<R>, Fault>
        requires { block < length self.now.index }
        ensures page { IsSome (F.Files.told self.now.file.file) → (records : List R) → (holds : Represents R.kind F.Files.told self.now records) →
            MatchResult result (λ page. IsPage R.kind after holds.blocks block page.items) (λ fault. IsOutside fault) }
        ensures right { IfOk result (λ page. IsPageOf R.kind self.now block after page.items) }
        ensures read { IfOk result (λ page. IfSome (F.Files.told self.now.file.file) (λ bytes. self.now.file.len ≡ length bytes →
            IsPageRead R.kind bytes self.now block after page.items)) }
        ensures causes { IfErr result (λ fault. IfSome (F.Files.told self.now.file.file) (λ bytes. self.now.file.len ≡ length bytes →
            IsOutside fault ⊎ IsPageRefused R.kind bytes self.now block fault)) }
        ensures refusals { IfErr result (λ fault. IsOutside fault ⊎ IsBlockFault self.now.file.id self.now.index fault) }
        ensures cause { HasCause Fault.ReadFault (F.Files.faults port.old) (F.Files.faults port.new) result }
        ensures once { CountsOnce (F.Files.faults port.old) (F.Files.faults port.new) result }
    {
        let span = self.span(block);
        let lent = mem::replace(buffer, Vec::new(alloc));
        let frame = self.read_span(alloc, port, block, &span, lent)?;
        let mut records = Vec::new(alloc);
        scan_block(alloc, &span, BLOCK_LIMIT, frame.body(), after, &mut records)?;
        *buffer = frame.into_buffer();
        Ok(records)
    }
}
