//! A file of records.

ghost use Rattle.std.specs.Prelude.{◌≡◌, ℕ, ◌+◌, ◌<◌, ◌≤◌, ◌^◌, List, filter, length, nat_lt, Option, sum_by};
ghost use Rattle.mg_indexed.specs.Index.{BeginUpTo};
ghost use Rattle.mg_indexed.specs.NumberKeys.{number_keys};
ghost use Rattle.mg_records.specs.File.{first_number, last_number};
ghost use Rattle.mg_records.specs.Lookup.{IsSpan, StartsAt};
ghost use Rattle.mg_records.specs.Pages.{records_from};
ghost use Rattle.mg_records.specs.Writing.{Represents};

use crate::block::Span;
use crate::record::Record;
use mg_indexed::{Footer, Indexed};
use mg_sealed::SealedFile;
use std::marker::Model;

/// A sealed file of records of one kind. It keeps its footer and its index, and no block.
#[derive(Drop)]
pub struct RecordFile<S, R: Record> {
    pub(crate) indexed: Indexed<S, u64, R>,
}

impl<S, R: Record> Model for RecordFile<S, R> {
    ghost use Rattle.mg_records.specs.Reading.{IsKept};
    ghost use Rattle.mg_records.specs.Writing.{Filed};

    ghost Value = { Filed S };

    ghost view = { λ f. f.indexed };

    ghost invariant = { λ f. IsKept R.BlockItem.form f.indexed.footer f.indexed.index };
}

impl<S, R: Record> RecordFile<S, R> {
    /// How many records the file has.
    pub fn count(&self) -> u64
        ensures footer { result ≡ self.now.footer.count }
        ensures records { (told : S → Option (List ℕ)) (records : List R) → Represents R.kind told self.now records → result ≡ length records }
    {
        self.indexed.footer().count
    }

    /// The sum of the sizes of the records.
    pub fn bytes(&self) -> u64
        ensures footer { result ≡ self.now.footer.sum }
        ensures records { (told : S → Option (List ℕ)) (records : List R) → Represents R.kind told self.now records → result ≡ sum_by R.kind.size records }
    {
        self.indexed.footer().sum
    }

    /// The number of the first record.
    pub fn first(&self) -> u64
        ensures footer { result ≡ self.now.footer.low }
        ensures records { (told : S → Option (List ℕ)) (records : List R) → Represents R.kind told self.now records → result ≡ first_number R.kind records }
    {
        self.indexed.footer().low
    }

    /// The number of the last record.
    pub fn last(&self) -> u64
        ensures footer { result ≡ self.now.footer.high }
        ensures records { (told : S → Option (List ℕ)) (records : List R) → Represents R.kind told self.now records → result ≡ last_number R.kind records }
    {
        self.indexed.footer().high
    }

    /// The file itself, with its id and its length.
    pub fn sealed(&self) -> &SealedFile<S>
        ensures { result.now ≡ self.now.file }
    {
        self.indexed.file()
    }

    /// The block, from 0 on, that has the record of this number where the file has one.
    pub(crate) fn block_of(&self, number: u64) -> usize
        requires { self.now.footer.low ≤ number }
        ensures within { result < length self.now.index }
        ensures point { BeginUpTo number_keys self.now.index number (result + 1) }
    {
        self.indexed.blocks_up_to(&number) - 1
    }

    /// How many blocks the file has.
    pub fn blocks(&self) -> usize
        ensures index { result ≡ length self.now.index }
        ensures some { 1 ≤ result }
        ensures records { (told : S → Option (List ℕ)) (records : List R) → (holds : Represents R.kind told self.now records) → result ≡ length holds.blocks }
    {
        self.indexed.handles().len()
    }

    /// The block, from 0 on, in which the records above this number begin, or the number of blocks where there is none.
    pub fn start(&self, after: u64) -> usize
        ensures within { after < self.now.footer.high → result < length self.now.index }
        ensures starts { after < self.now.footer.high → StartsAt self.now after result }
        ensures none { self.now.footer.high ≤ after → result ≡ length self.now.index }
        ensures records { (told : S → Option (List ℕ)) (records : List R) → (holds : Represents R.kind told self.now records) →
            records_from R.kind after result holds.blocks ≡ filter (λ it. nat_lt after (R.kind.seq it)) records }
    {
        if after < self.indexed.footer().high {
            self.first_block(after)
        } else {
            self.blocks()
        }
    }

    /// The block at which a scan above this number begins.
    pub(crate) fn first_block(&self, after: u64) -> usize
        ensures within { result < length self.now.index }
        ensures starts { StartsAt self.now after result }
    {
        if after < self.indexed.footer().low {
            0
        } else {
            self.block_of(after)
        }
    }

    /// What is kept of the block of this number, from 0 on.
    pub(crate) fn span(&self, number: usize) -> Span
        requires { number < length self.now.index }
        ensures is_span { IsSpan self.now number result }
        ensures first { 1 ≤ result.first }
        ensures order { result.first < result.end }
        ensures at { result.at < 2 ^ 62 }
    {
        let handles = self.indexed.handles();
        let handle = &handles[number];
        let end = match handles.get(number + 1) {
            Some(next) => next.first,
            None => self.indexed.footer().high + 1,
        };
        Span {
            file: self.indexed.file().id,
            at: handle.at,
            len: handle.len,
            first: handle.first,
            end,
        }
    }
}
