//! Loading a table: its footer, its index and its filter.

ghost use Rattle.std.specs.Prelude.{◌≡◌, ℕ, ◌-◌, ◌<◌, ◌≤◌, ◌^◌, ◌⊎◌, List, true, length, All, IfErr, IfOk, IfSome, MatchResult, Ok};
ghost use Rattle.mg_faults.specs.Causes.{CountsOnce, HasCause};
ghost use Rattle.mg_sealed.specs.Answers.{Answers, IsOutside};
ghost use Rattle.mg_sealed.specs.Blocks.{IsUnfitAt};
ghost use Rattle.mg_indexed.specs.Footer.{footer_size, offset_of};
ghost use Rattle.mg_table.specs.Loading.{Knows, IsFilterRead, IsFilterRefused, IsRead, IsRefused};
ghost use Rattle.mg_table.specs.Table.{footer_of, IsTable, Represents};
ghost use Rattle.mg_types.specs.declared.items.Entry.{Entry};

use crate::table::Table;
use mg_bloom::Filter;
use mg_disk::Files;
use mg_frame::FRAME_OVERHEAD;
use mg_indexed::{FILTERED_FOOTER_LEN, Footer};
use mg_sealed::{SealedFile, read_frame};
use mg_types::{Entry, Fault, FileId, Key};
use std::alloc::Global;

impl<S: Drop> Table<S> {
    /// Loads a table, of whose file this length in bytes is kept: reads its footer, its index and its filter, and no block.
    pub fn load<F: Files<Sealed = S>>(
        alloc: Global,
        port: &mut F,
        id: FileId,
        file: S,
        len: u64,
    ) -> Result<Table<S>, Fault>
        requires { len < 2 ^ 62 }
        ensures loaded { IfSome (F.told file) (λ bytes. (lo hi : ℕ) (entries : List Entry) → IsTable bytes lo hi entries → length bytes ≡ len →
            MatchResult result
            (λ table. Represents F.told table entries × (table.indexed.footer.low ≡ lo) × (table.indexed.footer.high ≡ hi))
            (λ fault. IsOutside fault)) }
        ensures len { IfOk result (λ _. IfSome (F.told file) (λ bytes. length bytes ≡ len)) }
        ensures kinds { IfErr result (λ fault. IsOutside fault ⊎ ((at : ℕ) × IsUnfitAt id at fault)) }
        ensures refusals { IfErr result (λ fault. IfSome (F.told file) (λ bytes. IsRefused id file len bytes fault)) }
        ensures read { IfOk result (λ table. IfSome (F.told file) (λ bytes. IsRead id bytes table)) }
        ensures file { IfOk result (λ table. table.indexed.file ≡ record { id = id; file = file; len = len }) }
        ensures cause { HasCause Fault.ReadFault (F.faults port.old) (F.faults port.new) result }
        ensures once { CountsOnce (F.faults port.old) (F.faults port.new) result }
    {
        let indexed = mg_indexed::load::<F, Key, Entry>(alloc, port, id, file, len)?;
        let footer = indexed.footer();
        let at = filter_offset(footer);
        let filter = read_filter(alloc, port, indexed.file(), at, footer.blocks)?;
        Ok(Table { indexed, filter })
    }
}

/// Where the filter stands.
fn filter_offset(footer: &Footer) -> u64
    ensures { result ≡ offset_of footer.now.filter_at }
{
    footer.filter_at.unwrap_or(0)
}

/// Reads the filter at this offset behind so many blocks, whose frame stands between the index and the footer.
fn read_filter<F: Files>(
    alloc: Global,
    port: &mut F,
    file: &SealedFile<F::Sealed>,
    at: u64,
    blocks: u32,
) -> Result<Filter, Fault>
    requires at { at < 2 ^ 62 }
    requires least { footer_size true ≤ file.now.len }
    ensures told { Knows (F.told file.now.file) file.now.len (λ lo hi listed filter. at ≡ offset_of (footer_of lo hi listed filter).filter_at → blocks ≡ length listed →
        Answers (Ok filter) result) }
    ensures read { IfOk result (λ filter. IfSome (F.told file.now.file) (λ bytes. file.now.len ≡ length bytes →
        IsFilterRead file.now.id bytes at blocks filter)) }
    ensures kinds { IfErr result (λ fault. IsOutside fault ⊎ IsUnfitAt file.now.id at fault
        ⊎ IsUnfitAt file.now.id (file.now.len - footer_size true) fault) }
    ensures refusals { IfErr result (λ fault. IfSome (F.told file.now.file) (λ bytes. file.now.len ≡ length bytes →
        IsOutside fault ⊎ IsFilterRefused file.now.id bytes at blocks fault)) }
    ensures cause { HasCause Fault.ReadFault (F.faults port.old) (F.faults port.new) result }
    ensures once { CountsOnce (F.faults port.old) (F.faults port.new) result }
{
    let footer_at = file.len - FILTERED_FOOTER_LEN;
    let size = footer_at.saturating_sub(at);
    let number = u64::from(blocks) + 1;
    let frame = read_frame(alloc, port, file, at, size as usize, number)?;
    if at + frame.body().len() as u64 + FRAME_OVERHEAD as u64 != footer_at {
        return Err(Fault::Malformed {
            file: file.id,
            at: footer_at,
        });
    }
    let Some(filter) = Filter::of_bytes(frame.into_body()) else {
        return Err(Fault::Malformed { file: file.id, at });
    };
    Ok(filter)
}
