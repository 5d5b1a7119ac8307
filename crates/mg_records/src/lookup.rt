//! Records of a file are found by their numbers.

ghost use Rattle.std.specs.Prelude.{◌≡◌, ◌+◌, ◌-◌, ◌<◌, ◌≤◌, ◌≢◌, ◌⊎◌, List, [], length, sum_by, min, ◌^◌, false, filter, nat_lt, IfErr, IfOk, IfSome, IsOkAnd, IsSome, IsSomeAnd, MatchResult, Ok, None};
ghost use Rattle.mg_faults.specs.Causes.{CountsOnce, HasCause};
ghost use Rattle.mg_frame.specs.Frame.{StandsAt};
ghost use Rattle.mg_indexed.specs.Footer.{footer_size};
ghost use Rattle.mg_records.specs.BlockFor.{IsBlockFor};
ghost use Rattle.mg_records.specs.File.{IsFile, record_of};
ghost use Rattle.mg_records.specs.Lookup.{IsBlock, IsBlockFault, IsGot, IsListed, IsScanRefused, IsSoughtBody, IsSoughtDamaged, IsSoughtRefused, IsSpan, HasTotals};
ghost use Rattle.mg_records.specs.Reading.{IsRead};
ghost use Rattle.mg_records.specs.Writing.{Represents};
ghost use Rattle.mg_records.specs.declared.block.Span.{Span};
ghost use Rattle.mg_sealed.specs.Answers.{Answers, IsOutside};
ghost use Rattle.mg_sealed.specs.Blocks.{block_body};

use crate::block::{Span, find_in_block, scan_block};
use crate::file::RecordFile;
use crate::record::Record;
use mg_indexed::footer_len;
use mg_sealed::{BLOCK_LIMIT, Block, Blocks, malformed};
use mg_types::Fault;
use std::alloc::Global;
use std::mem;

impl<S: Drop, R: Record> RecordFile<S, R> {
    /// The record of this number. Reads no block where the number is not from the first to the last one of the file, and else one;
    /// takes memory for that block's frame and for the record. Of that block it judges the records up to the one that it finds.
    pub fn get<F: Blocks<Sealed = S>>(
        &self,
        alloc: Global,
        port: &mut F,
        number: u64,
    ) -> Result<Option<R>, Fault>
        ensures found { IsSome (F.Files.told self.now.file.file) → (records : List R) → Represents R.kind F.Files.told self.now records →
            MatchResult result (λ found. found ≡ record_of R.kind number records) (λ fault. IsOutside fault) }
        ensures unread { (number < self.now.footer.low) ⊎ (self.now.footer.high < number) → (port.new ≡ port.old) × (result ≡ Ok None) }
        ensures read { self.now.footer.low ≤ number → number ≤ self.now.footer.high →
            IfOk result (λ found. IfSome (F.Files.told self.now.file.file) (λ bytes. self.now.file.len ≡ length bytes → IsGot R.kind bytes self.now number found)) }
        ensures causes { IfErr result (λ fault. IfSome (F.Files.told self.now.file.file) (λ bytes. self.now.file.len ≡ length bytes →
            IsOutside fault ⊎ IsSoughtRefused R.kind bytes self.now number fault)) }
        ensures refusals { IfErr result (λ fault. IsOutside fault ⊎ IsBlockFault self.now.file.id self.now.index fault) }
        ensures cause { HasCause Fault.ReadFault (F.Files.faults port.old) (F.Files.faults port.new) result }
        ensures once { CountsOnce (F.Files.faults port.old) (F.Files.faults port.new) result }
    {
        let mut buffer = Vec::new(alloc);
        self.get_with(alloc, port, number, &mut buffer)
    }

    /// `get` with a buffer that is lent for the block. After an error the buffer may be empty.
    pub fn get_with<F: Blocks<Sealed = S>>(
        &self,
        alloc: Global,
        port: &mut F,
        number: u64,
        buffer: &mut Vec<u8>,
    ) -> Result<Option<R>, Fault>
        ensures found { IsSome (F.Files.told self.now.file.file) → (records : List R) → Represents R.kind F.Files.told self.now records →
            MatchResult result (λ found. found ≡ record_of R.kind number records) (λ fault. IsOutside fault) }
        ensures unread { (number < self.now.footer.low) ⊎ (self.now.footer.high < number) → (port.new ≡ port.old) × (result ≡ Ok None) }
        ensures read { self.now.footer.low ≤ number → number ≤ self.now.footer.high →
            IfOk result (λ found. IfSome (F.Files.told self.now.file.file) (λ bytes. self.now.file.len ≡ length bytes → IsGot R.kind bytes self.now number found)) }
        ensures causes { IfErr result (λ fault. IfSome (F.Files.told self.now.file.file) (λ bytes. self.now.file.len ≡ length bytes →
            IsOutside fault ⊎ IsSoughtRefused R.kind bytes self.now number fault)) }
        ensures refusals { IfErr result (λ fault. IsOutside fault ⊎ IsBlockFault self.now.file.id self.now.index fault) }
        ensures cause { HasCause Fault.ReadFault (F.Files.faults port.old) (F.Files.faults port.new) result }
        ensures once { CountsOnce (F.Files.faults port.old) (F.Files.faults port.new) result }
    {
        let footer = self.indexed.footer();
        if number < footer.low || number > footer.high {
            return Ok(None);
        }
        let block = self.block_of(number);
        let span = self.span(block);
        let lent = mem::replace(buffer, Vec::new(alloc));
        let frame = self.read_span(alloc, port, block, &span, lent)?;
        let found = find_in_block(alloc, &span, frame.body(), number);
        *buffer = frame.into_buffer();
        found
    }

    /// The body of the block in which the record of this number stands where the file has one, in a buffer that is lent; None where
    /// the number is not from the first to the last one of the file. Reads that block, and judges its frame alone.
    pub fn block_for<F: Blocks<Sealed = S>>(
        &self,
        alloc: Global,
        port: &mut F,
        number: u64,
        buffer: Vec<u8>,
    ) -> Result<Option<Block>, Fault>
        ensures found { IsSome (F.Files.told self.now.file.file) → (records : List R) → Represents R.kind F.Files.told self.now records →
            MatchResult result (λ found. IsBlockFor R.kind number records found) (λ fault. IsOutside fault) }
        ensures unread { (number < self.now.footer.low) ⊎ (self.now.footer.high < number) → (port.new ≡ port.old) × (result ≡ Ok None) }
        ensures read { self.now.footer.low ≤ number → number ≤ self.now.footer.high →
            IfOk result (λ found. IsSomeAnd found (λ body. IfSome (F.Files.told self.now.file.file) (λ bytes. self.now.file.len ≡ length bytes → IsSoughtBody bytes self.now number body))) }
        ensures causes { IfErr result (λ fault. IfSome (F.Files.told self.now.file.file) (λ bytes. self.now.file.len ≡ length bytes →
            IsOutside fault ⊎ IsSoughtDamaged bytes self.now number fault)) }
        ensures refusals { IfErr result (λ fault. IsOutside fault ⊎ IsBlockFault self.now.file.id self.now.index fault) }
        ensures cause { HasCause Fault.ReadFault (F.Files.faults port.old) (F.Files.faults port.new) result }
        ensures once { CountsOnce (F.Files.faults port.old) (F.Files.faults port.new) result }
    {
        let footer = self.indexed.footer();
        if number < footer.low || number > footer.high {
            return Ok(None);
        }
        let block = self.block_of(number);
        let span = self.span(block);
        let frame = self.read_span(alloc, port, block, &span, buffer)?;
        Ok(Some(frame))
    }

    /// The records whose numbers are above `after`, in rising order. Reads block after block, from the one on in which they begin, and
    /// none where `after` is the last number or above it. Judges what it reads; where it reads the whole file and `after` is below the
    /// first number, count and sum too.
    pub fn scan<F: Blocks<Sealed = S>>(
        &self,
        alloc: Global,
        port: &mut F,
        after: u64,
    ) -> Result<Vec<R>, Fault>
        ensures scanned { IsSome (F.Files.told self.now.file.file) → (records : List R) → Represents R.kind F.Files.told self.now records →
            MatchResult result (λ found. found.items ≡ filter (λ it. nat_lt after (R.kind.seq it)) records) (λ fault. IsOutside fault) }
        ensures unread { self.now.footer.high ≤ after → (port.new ≡ port.old) × IsOkAnd result (λ found. found.items ≡ []) }
        ensures whole { after < self.now.footer.low → IfOk result (λ found. IfSome (F.Files.told self.now.file.file) (λ bytes.
            IsRead R.BlockItem.form bytes self.now → IsFile R.kind bytes found.items)) }
        ensures read { after < self.now.footer.high → IfOk result (λ found. IfSome (F.Files.told self.now.file.file) (λ bytes.
            self.now.file.len ≡ length bytes → IsListed R.kind bytes self.now after found.items)) }
        ensures causes { IfErr result (λ fault. IfSome (F.Files.told self.now.file.file) (λ bytes. self.now.file.len ≡ length bytes →
            IsOutside fault ⊎ IsScanRefused R.kind bytes self.now after fault)) }
        ensures refusals { IfErr result (λ fault. IsOutside fault ⊎ IsBlockFault self.now.file.id self.now.index fault
            ⊎ (fault ≡ Fault.Malformed self.now.file.id (self.now.file.len - footer_size false))) }
        ensures cause { HasCause Fault.ReadFault (F.Files.faults port.old) (F.Files.faults port.new) result }
        ensures once { CountsOnce (F.Files.faults port.old) (F.Files.faults port.new) result }
    {
        let mut records = Vec::new(alloc);
        let footer = self.indexed.footer();
        if after >= footer.high {
            return Ok(records);
        }
        let mut before = BLOCK_LIMIT;
        let mut last = 0;
        let mut buffer = Vec::new(alloc);
        let start = self.first_block(after);
        for block in start..self.indexed.handles().len() {
            let span = self.span(block);
            let frame = self.read_span(alloc, port, block, &span, buffer)?;
            last = scan_block(alloc, &span, before, frame.body(), after, &mut records)?;
            before = frame.body().len();
            buffer = frame.into_buffer();
        }
        let count = records.len() as u64;
        let sum = sum_of_sizes(&records);
        self.check_totals(after, last, count, sum)?;
        Ok(records)
    }

    /// Judges the footer by the last number that a scan read, and, where that read the records of the whole file, by their count and
    /// the sum of their sizes.
    fn check_totals(&self, after: u64, last: u64, count: u64, sum: u64) -> Result<(), Fault>
        ensures told { IfOk result (λ _. HasTotals self.now after last count sum) }
        ensures refusals { IfErr result (λ fault. (fault ≡ Fault.Malformed self.now.file.id (self.now.file.len - footer_size false)) × (HasTotals self.now after last count sum → ⊥)) }
    {
        let footer = self.indexed.footer();
        let whole = after < footer.low;
        if last == footer.high && (!whole || (count == footer.count && sum == footer.sum)) {
            return Ok(());
        }
        let file = self.indexed.file();
        Err(malformed(file.id, file.len.saturating_sub(footer_len(false))))
    }

    /// The block of this number, from 0 on. One of another length than the index says is malformed.
    pub(crate) fn read_span<F: Blocks<Sealed = S>>(
        &self,
        alloc: Global,
        port: &mut F,
        number: usize,
        span: &Span,
        buffer: Vec<u8>,
    ) -> Result<Block, Fault>
        requires is_span { IsSpan self.now number span.now }
        requires at { span.now.at < 2 ^ 62 }
        ensures read { IsSome (F.Files.told self.now.file.file) → (records : List R) → (holds : Represents R.kind F.Files.told self.now records) →
            MatchResult result (λ body. IsBlock R.kind holds.blocks number body) (λ fault. IsOutside fault) }
        ensures told { IfSome (F.Files.told self.now.file.file) (λ bytes. self.now.file.len ≡ length bytes →
            Answers (block_body span.now.file bytes span.now.at span.now.len number) result) }
        ensures stands { IfSome (F.Files.told self.now.file.file) (λ bytes. self.now.file.len ≡ length bytes →
            IfOk result (λ body. StandsAt bytes span.now.at (number, body))) }
        ensures len { IfOk result (λ body. length body + 20 ≡ span.now.len) }
        ensures refusals { IfErr result (λ fault. IsOutside fault ⊎ IsBlockFault self.now.file.id self.now.index fault) }
        ensures cause { HasCause Fault.ReadFault (F.Files.faults port.old) (F.Files.faults port.new) result }
        ensures once { CountsOnce (F.Files.faults port.old) (F.Files.faults port.new) result }
    {
        port.block(
            alloc,
            self.indexed.file(),
            span.at,
            span.len,
            number as u64,
            buffer,
        )
    }
}

/// The sum of the records' sizes, which stays at the last number of 64 bits.
fn sum_of_sizes<R: Record>(records: &[R]) -> u64
    ensures { result ≡ min (sum_by R.kind.size records.now) (2 ^ 64 - 1) }
{
    let mut sum: u64 = 0;
    for it in records {
        sum = sum.saturating_add(u64::from(it.size()));
    }
    sum
}
