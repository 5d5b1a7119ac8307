//! A file of records in writing.

ghost use Rattle.std.specs.Prelude.{◌≡◌, ◌≢◌, ℕ, ◌+◌, ◌*◌, ◌<◌, ◌≤◌, ◌^◌, ◌↔◌, ◌⊎◌, List, [], ◌∷◌, ◌++◌, length, take, IfOk, IfErr, OnOk, OnErr, IsTrue};
ghost use Rattle.mg_faults.specs.Causes.{CountsOnce, HasCause};
ghost use Rattle.mg_records.specs.Record.{IsRecord, record_bytes};
ghost use Rattle.mg_records.specs.Writing.{HasRecords, IsClosing, IsFull, IsPut, MayFollow, Represents};
ghost use Rattle.mg_sealed.specs.Answers.{IsUnwritten};
ghost use Rattle.mg_sealed.specs.Writing.{HasFrames};

use crate::file::RecordFile;
use crate::record::Record;
use mg_disk::Files;
use mg_frame::put_u64;
use mg_indexed::{ClosedBlocks, Summary};
use mg_sealed::BLOCK_LIMIT;
use mg_types::{Fault, FileId, is_seq};
use std::alloc::{AllocError, Global};
use std::marker::Model;

/// The body of an index has at most so many bytes.
const MOST_INDEX_LEN: u64 = 4_294_967_295;

/// A record's number takes so many bytes in a block.
const NUMBER_LEN: usize = 8;

/// A file of records of one kind in writing, which are put one after the other. It keeps the block in writing, in the memory of two
/// of them, and the index. After an error other than `Worn` it is only dropped.
#[derive(Drop)]
pub struct RecordWriter<D, R: Record> {
    id: FileId,
    closed: ClosedBlocks<D, u64, R>,
    block: Vec<u8>,
    block_first: u64,
    records: u64,
    sum: u64,
    first: u64,
    last: u64,
}

impl<D, R: Record> Model for RecordWriter<D, R> {
    ghost use Rattle.mg_records.specs.Writing.{Filing, IsBounded};

    ghost Value = { Filing D };

    ghost view = { λ w. record {
      id = w.id;
      frames = w.closed.frames;
      index = w.closed.index;
      block = w.block.items;
      block_first = w.block_first;
      records = w.records;
      sum = w.sum;
      first = w.first;
      last = w.last;
    } };

    ghost invariant = { λ w. IsBounded R.kind (record {
      id = w.id;
      frames = w.closed.frames;
      index = w.closed.index;
      block = w.block.items;
      block_first = w.block_first;
      records = w.records;
      sum = w.sum;
      first = w.first;
      last = w.last;
    }) };
}

impl<D: Drop, R: Record> RecordWriter<D, R> {
    /// A file without a record. Takes no memory of its own.
    pub fn new<F: Files<Draft = D>>(
        alloc: Global,
        port: &mut F,
        id: FileId,
    ) -> Result<RecordWriter<D, R>, Fault>
        ensures empty { IfOk result (λ writer. HasRecords R.kind F.drafted writer []) }
        ensures none { IfOk result (λ writer. writer.records ≡ 0) }
        ensures id { IfOk result (λ writer. writer.id ≡ id) }
        ensures outside { IfErr result (λ fault. IsUnwritten fault) }
        ensures cause { HasCause Fault.WriteFault (F.faults port.old) (F.faults port.new) result }
        ensures once { CountsOnce (F.faults port.old) (F.faults port.new) result }
    {
        Ok(RecordWriter {
            id,
            closed: ClosedBlocks::new(alloc, port)?,
            block: Vec::new(alloc),
            block_first: 0,
            records: 0,
            sum: 0,
            first: 0,
            last: 0,
        })
    }

    /// How many records were put.
    pub fn count(&self) -> u64
        ensures { result ≡ self.now.records }
    {
        self.records
    }

    /// Whether the record may be put: it may stand in a file, and its number is above the last one.
    pub fn takes(&self, it: &R) -> bool
        ensures { IsTrue result ↔ IsRecord R.kind it.now × MayFollow self.now (R.kind.seq it.now) }
    {
        let number = it.seq();
        is_seq(number) && it.fits() && (self.records == 0 || self.last < number)
    }

    /// Puts a record behind the others. Where the block in writing has no room for it, that block is put into the file first, in one
    /// append. Where the index would then pass what a frame can hold, the answer is `Worn` with the length of its body as it stands, and the
    /// writer is as before: it may still be finished.
    pub fn push<F: Files<Draft = D>>(
        &mut self,
        alloc: Global,
        port: &mut F,
        it: &R,
    ) -> Result<(), Fault>
        requires fits { IsRecord R.kind it.now }
        requires rises { MayFollow self.old (R.kind.seq it.now) }
        ensures records { (records : List R) → HasRecords R.kind F.drafted self.old records →
            OnOk result (HasRecords R.kind F.drafted self.new (records ++ it.now ∷ [])) }
        ensures last { OnOk result (self.new.last ≡ R.kind.seq it.now) }
        ensures count { OnOk result (self.new.records ≡ self.old.records + 1) }
        ensures id { self.new.id ≡ self.old.id }
        ensures worn { (kept : ℕ) → IfErr result (λ fault. fault ≡ Fault.Worn kept → IsFull R.kind self.old it.now × (kept ≡ 20 * (length self.old.index + 1)) × (self.new ≡ self.old)) }
        ensures refusals { IfErr result (λ fault. IsUnwritten fault ⊎ (fault ≡ Fault.Worn (20 * (length self.old.index + 1)))) }
        ensures cause { HasCause Fault.WriteFault (F.faults port.old) (F.faults port.new) result }
        ensures once { CountsOnce (F.faults port.old) (F.faults port.new) result }
    {
        let len = NUMBER_LEN + it.contents_len();
        if !self.block.is_empty() && self.block.len() + len > BLOCK_LIMIT {
            let more = RecordWriter::<D, R>::handle_len(self.block_first);
            let kept = self.closed.index_len() + more;
            if kept + more > MOST_INDEX_LEN {
                return Err(Fault::Worn { kept });
            }
            self.close_block(alloc, port)?;
        }
        self.put_record(it)?;
        Ok(())
    }

    /// The file as one that never changes, synced, with its index and its footer behind the blocks.
    pub fn finish<F: Files<Draft = D>>(
        self,
        alloc: Global,
        port: &mut F,
    ) -> Result<RecordFile<F::Sealed, R>, Fault>
        requires some { 0 < self.records }
        ensures represents { (records : List R) → HasRecords R.kind F.drafted self records →
            IfOk result (λ file. Represents R.kind F.told file records) }
        ensures id { IfOk result (λ file. file.file.id ≡ self.id) }
        ensures small { IfOk result (λ file. file.file.len < 2 ^ 62) }
        ensures outside { IfErr result (λ fault. IsUnwritten fault) }
        ensures cause { HasCause Fault.WriteFault (F.faults port.old) (F.faults port.new) result }
        ensures once { CountsOnce (F.faults port.old) (F.faults port.new) result }
    {
        let RecordWriter {
            id,
            mut closed,
            block,
            block_first,
            records,
            sum,
            first,
            last,
        } = self;
        if !block.is_empty() {
            closed.close(alloc, port, block_first, &block)?;
        }
        let summary = Summary {
            count: records,
            sum,
            low: first,
            high: last,
        };
        let indexed = closed.finish(alloc, port, id, &summary, &[])?;
        Ok(RecordFile { indexed })
    }

    /// How many bytes a handle takes in the index, whatever its number.
    fn handle_len(number: u64) -> u64
        ensures { result ≡ 20 }
    {
        ClosedBlocks::<D, u64, R>::handle_len(&number)
    }

    /// Puts the block in writing into the file, and its handle into the index.
    fn close_block<F: Files<Draft = D>>(&mut self, alloc: Global, port: &mut F) -> Result<(), Fault>
        requires some { self.old.block ≢ [] }
        requires room { 20 * (length self.old.index + 2) < 2 ^ 32 }
        ensures closed { OnOk result (IsClosing F.drafted self.old self.new) }
        ensures id { self.new.id ≡ self.old.id }
        ensures outside { IfErr result (λ fault. IsUnwritten fault) }
        ensures cause { HasCause Fault.WriteFault (F.faults port.old) (F.faults port.new) result }
        ensures once { CountsOnce (F.faults port.old) (F.faults port.new) result }
    {
        self.closed
            .close(alloc, port, self.block_first, &self.block)?;
        self.block.clear();
        Ok(())
    }

    /// Puts a record into the block in writing.
    fn put_record(&mut self, it: &R) -> Result<(), AllocError>
        requires fits { IsRecord R.kind it.now }
        requires rises { MayFollow self.old (R.kind.seq it.now) }
        requires room { (self.old.block ≡ []) ⊎ (length self.old.block + length (record_bytes R.kind it.now) ≤ 4096) }
        ensures put { OnOk result (IsPut R.kind self.old it.now self.new) }
        ensures id { self.new.id ≡ self.old.id }
    {
        let number = it.seq();
        let len = self.block.len();
        if put_into(it, &mut self.block).is_err() {
            self.block.truncate(len);
            return Err(AllocError);
        }
        if len == 0 {
            self.block_first = number;
        }
        if self.records == 0 {
            self.first = number;
        }
        self.records += 1;
        self.sum += u64::from(it.size());
        self.last = number;
        Ok(())
    }
}

/// Appends a record's bytes. After an error a front of them may stand there.
fn put_into<R: Record>(it: &R, out: &mut Vec<u8>) -> Result<(), AllocError>
    requires { R.kind.fits it.now }
    ensures put { OnOk result (out.new.items ≡ out.old.items ++ record_bytes R.kind it.now) }
    ensures front { take (length out.old.items) out.new.items ≡ out.old.items }
{
    put_u64(it.seq(), out)?;
    it.put_contents(out)
}
