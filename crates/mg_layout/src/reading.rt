//! What a layout gives of a key and of a number.

ghost use Rattle.std.specs.Prelude.{◌≡◌, ◌<◌, ◌⊎◌, ◌==◌, ℕ, List, All, Any, IfErr, map, None, Ok};
ghost use Rattle.std.specs.Arc.{arc_value};
ghost use Rattle.std.specs.List.{find};
ghost use Rattle.mg_bloom.specs.Bloom.{key_words};
ghost use Rattle.mg_core.specs.Layouts.{Layout as ListedLayout, Run as ListedRun, Stands, records_of};
ghost use Rattle.mg_core.specs.Reads.{found, read_by, record_at};
ghost use Rattle.mg_faults.specs.Causes.{CountsOnce, HasCause};
ghost use Rattle.mg_layout.specs.Holding.{HoldsLayout, HoldsRuns, HoldsSegments, TellsAll};
ghost use Rattle.mg_model.specs.Mutations.{Mutations, read};
ghost use Rattle.mg_records.specs.Lookup.{IsBlockFault};
ghost use Rattle.mg_sealed.specs.Answers.{Answers, IsOutside};
ghost use Rattle.mg_table.specs.Reading.{HasUnfit};
ghost use Rattle.mg_types.specs.declared.items.Item.{Item};

use crate::layout::Layout;
use crate::run::Run;
use mg_bloom::HashedKey;
use mg_core::reads_by_runs_are_those_of_the_list;
use mg_sealed::Blocks;
use mg_segment::Segment;
use mg_types::{Doc, Entry, Fault, Item, Key};
use std::alloc::Global;
use std::sync::Arc;

impl<S: Drop> Layout<S> {
    /// The entry of a key in the newest run that has one.
    ///
    /// It hashes the key once and asks the filter of each run, from the newest on, until an entry is found; one block is read of
    /// each run whose filter does not deny the key. It takes memory for one block and the entry. A block that is not as it was
    /// written is damaged or malformed.
    pub fn find<F: Blocks<Sealed = S>>(
        &self,
        alloc: Global,
        port: &mut F,
        key: &Key,
    ) -> Result<Option<Entry>, Fault>
        ensures found { TellsAll F.Files.told → (l : ListedLayout) → HoldsLayout F.Files.told self.now l →
            Answers (Ok (found l.runs key.now)) result }
        ensures refusals { IfErr result (λ fault. IsOutside fault ⊎ Any (λ run. HasUnfit run.table fault) self.now.runs) }
        ensures cause { HasCause Fault.ReadFault (F.Files.faults port.old) (F.Files.faults port.new) result }
        ensures once { CountsOnce (F.Files.faults port.old) (F.Files.faults port.new) result }
    {
        find_in_runs(alloc, port, self.runs(), key)
    }

    /// The record of a sequence number.
    ///
    /// It reads one block of each segment from whose first to whose last number it lies, until a record is found, and none of
    /// the others. It takes memory for one block and the record. A block that is not as it was written is damaged or malformed.
    pub fn item_of<F: Blocks<Sealed = S>>(
        &self,
        alloc: Global,
        port: &mut F,
        seq: u64,
    ) -> Result<Option<Item>, Fault>
        ensures found { TellsAll F.Files.told → (l : ListedLayout) → HoldsLayout F.Files.told self.now l →
            Answers (Ok (record_at l seq)) result }
        ensures unread { All (λ s. (seq < s.footer.low) ⊎ (s.footer.high < seq)) self.now.segments →
            (port.new ≡ port.old) × (result ≡ Ok None) }
        ensures refusals { IfErr result (λ fault. IsOutside fault ⊎ Any (λ s. IsBlockFault s.file.id s.index fault) self.now.segments) }
        ensures cause { HasCause Fault.ReadFault (F.Files.faults port.old) (F.Files.faults port.new) result }
        ensures once { CountsOnce (F.Files.faults port.old) (F.Files.faults port.new) result }
    {
        item_in_segments(alloc, port, self.segments(), seq)
    }

    /// The number and the document of a key's newest mutation; None where there is none, or where it is a delete.
    ///
    /// It finds the key's entry, and then gets the record of its number. Of a delete no segment is read.
    pub fn read<F: Blocks<Sealed = S>>(
        &self,
        alloc: Global,
        port: &mut F,
        key: &Key,
    ) -> Result<Option<(u64, Doc)>, Fault>
        ensures files { TellsAll F.Files.told → (l : ListedLayout) → HoldsLayout F.Files.told self.now l →
            Answers (Ok (read_by l key.now)) result }
        ensures list { TellsAll F.Files.told → (l : ListedLayout) (m : Mutations) → HoldsLayout F.Files.told self.now l → Stands l m →
            Answers (Ok (read m key.now)) result }
        ensures refusals { IfErr result (λ fault. IsOutside fault ⊎ Any (λ run. HasUnfit run.table fault) self.now.runs
            ⊎ Any (λ s. IsBlockFault s.file.id s.index fault) self.now.segments) }
        ensures cause { HasCause Fault.ReadFault (F.Files.faults port.old) (F.Files.faults port.new) result }
        ensures once { CountsOnce (F.Files.faults port.old) (F.Files.faults port.new) result }
    {
        reads_by_runs_are_those_of_the_list();
        self.read_by_index(alloc, port, key)
    }

    /// What the entry of a key leads to.
    fn read_by_index<F: Blocks<Sealed = S>>(
        &self,
        alloc: Global,
        port: &mut F,
        key: &Key,
    ) -> Result<Option<(u64, Doc)>, Fault>
        ensures files { TellsAll F.Files.told → (l : ListedLayout) → HoldsLayout F.Files.told self.now l →
            Answers (Ok (read_by l key.now)) result }
        ensures refusals { IfErr result (λ fault. IsOutside fault ⊎ Any (λ run. HasUnfit run.table fault) self.now.runs
            ⊎ Any (λ s. IsBlockFault s.file.id s.index fault) self.now.segments) }
        ensures cause { HasCause Fault.ReadFault (F.Files.faults port.old) (F.Files.faults port.new) result }
        ensures once { CountsOnce (F.Files.faults port.old) (F.Files.faults port.new) result }
    {
        let Some(entry) = self.find(alloc, port, key)? else {
            return Ok(None);
        };
        if entry.gone {
            return Ok(None);
        }
        let Some(item) = self.item_of(alloc, port, entry.seq)? else {
            return Ok(None);
        };
        let Item { seq, key: _, doc } = item;
        Ok(doc.map(|doc| (seq, doc)))
    }
}

/// The entry of a key in the first of these runs that has one.
fn find_in_runs<S: Drop, F: Blocks<Sealed = S>>(
    alloc: Global,
    port: &mut F,
    runs: &[Run<S>],
    key: &Key,
) -> Result<Option<Entry>, Fault>
    ensures found { TellsAll F.Files.told → (rs : List ListedRun) → HoldsRuns F.Files.told runs.now rs →
        Answers (Ok (found rs key.now)) result }
    ensures refusals { IfErr result (λ fault. IsOutside fault ⊎ Any (λ run. HasUnfit run.table fault) runs.now) }
    ensures cause { HasCause Fault.ReadFault (F.Files.faults port.old) (F.Files.faults port.new) result }
    ensures once { CountsOnce (F.Files.faults port.old) (F.Files.faults port.new) result }
{
    let hashed = HashedKey::new(key.bytes());
    let mut buffer = Vec::new(alloc);
    for run in runs {
        let found = run
            .table()
            .find_hashed(alloc, port, key, &hashed, &mut buffer)?;
        if found.is_some() {
            return Ok(found);
        }
    }
    Ok(None)
}

/// The record of a sequence number in the first of these segments that has one.
fn item_in_segments<S: Drop, F: Blocks<Sealed = S>>(
    alloc: Global,
    port: &mut F,
    segments: &[Arc<Segment<S>, Global>],
    seq: u64,
) -> Result<Option<Item>, Fault>
    ensures found { TellsAll F.Files.told → (records : List (List Item)) → HoldsSegments F.Files.told (map arc_value segments.now) records →
        Answers (Ok (find (λ r. r.seq == seq) (records_of records))) result }
    ensures unread { All (λ s. (seq < s.footer.low) ⊎ (s.footer.high < seq)) (map arc_value segments.now) →
        (port.new ≡ port.old) × (result ≡ Ok None) }
    ensures refusals { IfErr result (λ fault. IsOutside fault ⊎ Any (λ s. IsBlockFault s.file.id s.index fault) (map arc_value segments.now)) }
    ensures cause { HasCause Fault.ReadFault (F.Files.faults port.old) (F.Files.faults port.new) result }
    ensures once { CountsOnce (F.Files.faults port.old) (F.Files.faults port.new) result }
{
    let mut buffer = Vec::new(alloc);
    for segment in segments {
        let found = segment.get_with(alloc, port, seq, &mut buffer)?;
        if found.is_some() {
            return Ok(found);
        }
    }
    Ok(None)
}
