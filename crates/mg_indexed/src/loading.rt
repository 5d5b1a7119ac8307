//! Loading a file: its footer and its index.

ghost use Rattle.std.specs.Prelude.{◌≡◌, ℕ, ◌-◌, ◌<◌, ◌≤◌, ◌^◌, ◌⊎◌, List, false, length, IfErr, IfOk, IfSome, MatchResult};
ghost use Rattle.mg_faults.specs.Causes.{HasCause, CountsOnce};
ghost use Rattle.mg_sealed.specs.Answers.{IsOutside};
ghost use Rattle.mg_sealed.specs.Blocks.{IsUnfitAt};
ghost use Rattle.mg_indexed.specs.Footer.{footer_size, index_end, others, IsFooter};
ghost use Rattle.mg_indexed.specs.Index.{IsIndexFrom};
ghost use Rattle.mg_indexed.specs.Loading.{IsFooterRead, IsFooterRefused, IsIndexed, IsIndexRead, IsIndexRefused, IsKept, IsRefused};
ghost use Rattle.mg_indexed.specs.declared.footer.Footer.{Footer};
ghost use Rattle.mg_indexed.specs.declared.handle.BlockHandle.{BlockHandle};

use crate::footer::{Footer, read_footer_body};
use crate::handle::BlockHandle;
use crate::index::read_index_body;
use crate::indexed::Indexed;
use crate::item::BlockItem;
use crate::key::BlockKey;
use mg_disk::Files;
use mg_frame::FRAME_OVERHEAD;
use mg_items::Items;
use mg_sealed::{SealedFile, malformed, open_sealed, read_footer, read_frame};
use mg_types::{Fault, FileId};
use std::alloc::Global;
use std::marker::PhantomData;

/// The whole length in bytes of a footer's frame without a filter's offset.
const FOOTER_LEN: u64 = 65;

/// The whole length in bytes of a footer's frame with a filter's offset.
pub const FILTERED_FOOTER_LEN: u64 = 73;

/// The whole length of a footer's frame in bytes, with a filter's offset or without.
pub fn footer_len(filtered: bool) -> u64
    ensures { result ≡ footer_size filtered }
{
    if filtered {
        FILTERED_FOOTER_LEN
    } else {
        FOOTER_LEN
    }
}

/// How many frames stand between the blocks and the footer.
fn frames_between(filtered: bool) -> u64
    ensures { result ≡ others filtered }
{
    if filtered { 2 } else { 1 }
}

/// Where the index frame ends in a file of this length.
fn index_ends(footer: &Footer, len: u64) -> u64
    requires { footer_size false ≤ len }
    ensures { result ≡ index_end footer.now.filter_at len }
{
    match footer.filter_at {
        Some(at) => at,
        None => len - footer_len(false),
    }
}

/// Loads a file of which this length in bytes is kept: reads its footer and its index, and no block. Each frame and each field is
/// judged, in the order in which they stand in docs/formats.md. It takes memory for the footer
/// and the index, and no more than the file has where the footer says a wrong place.
pub fn load<F: Files, K: BlockKey, T: BlockItem>(
    alloc: Global,
    port: &mut F,
    id: FileId,
    file: F::Sealed,
    len: u64,
) -> Result<Indexed<F::Sealed, K, T>, Fault>
    requires { len < 2 ^ 62 }
    ensures loaded { IfSome (F.told file) (λ bytes. (footer : Footer) (index : List (BlockHandle K)) → IsIndexed K.keys T.form bytes footer index → length bytes ≡ len →
        MatchResult result (λ loaded. (loaded.footer ≡ footer) × (loaded.index ≡ index)) (λ fault. IsOutside fault)) }
    ensures file { IfOk result (λ loaded. loaded.file ≡ record { id = id; file = file; len = len }) }
    ensures len { IfOk result (λ _. (footer_size T.form.filtered ≤ len) × IfSome (F.told file) (λ bytes. length bytes ≡ len)) }
    ensures kept { IfOk result (λ loaded. IsKept K.keys T.form loaded.footer loaded.index) }
    ensures read { IfOk result (λ loaded. IfSome (F.told file) (λ bytes.
        IsFooterRead T.form.filtered id bytes loaded.footer × IsIndexRead K.keys id bytes loaded.footer loaded.index)) }
    ensures kinds { IfErr result (λ fault. IsOutside fault ⊎ ((at : ℕ) × IsUnfitAt id at fault)) }
    ensures refusals { IfErr result (λ fault. IfSome (F.told file) (λ bytes. IsOutside fault ⊎ IsRefused K.keys T.form id file len bytes fault)) }
    ensures cause { HasCause Fault.ReadFault (F.faults port.old) (F.faults port.new) result }
    ensures once { CountsOnce (F.faults port.old) (F.faults port.new) result }
{
    let filtered = T::has_filter();
    let file = open_sealed(alloc, port, id, file, len, footer_len(filtered))?;
    let footer = load_footer(alloc, port, &file, filtered)?;
    let index = load_index::<F, K, T>(alloc, port, &file, &footer)?;
    Ok(Indexed {
        file,
        footer,
        index,
        holds: PhantomData,
    })
}

/// Reads the footer.
fn load_footer<F: Files>(
    alloc: Global,
    port: &mut F,
    file: &SealedFile<F::Sealed>,
    filtered: bool,
) -> Result<Footer, Fault>
    requires least { footer_size filtered ≤ file.now.len }
    requires most { file.now.len < 2 ^ 62 }
    ensures is_footer { IfOk result (λ footer. IsFooter filtered footer) }
    ensures read { IfOk result (λ footer. IfSome (F.told file.now.file) (λ bytes. file.now.len ≡ length bytes →
        IsFooterRead filtered file.now.id bytes footer)) }
    ensures kinds { IfErr result (λ fault. IsOutside fault ⊎ IsUnfitAt file.now.id (file.now.len - footer_size filtered) fault) }
    ensures refusals { IfErr result (λ fault. IfSome (F.told file.now.file) (λ bytes. file.now.len ≡ length bytes →
        IsOutside fault ⊎ IsFooterRefused filtered file.now.id bytes fault)) }
    ensures cause { HasCause Fault.ReadFault (F.faults port.old) (F.faults port.new) result }
    ensures once { CountsOnce (F.faults port.old) (F.faults port.new) result }
{
    let size = footer_len(filtered);
    let frame = read_footer(alloc, port, file, size, frames_between(filtered))?;
    read_footer_body(file.id, file.len - size, frame.body(), filtered)
}

/// Reads the index, whose blocks stand one after the other up to the offset of its frame.
fn load_index<F: Files, K: BlockKey, T: BlockItem>(
    alloc: Global,
    port: &mut F,
    file: &SealedFile<F::Sealed>,
    footer: &Footer,
) -> Result<Items<BlockHandle<K>>, Fault>
    requires footer { IsFooter T.form.filtered footer.now }
    requires least { footer_size T.form.filtered ≤ file.now.len }
    ensures kept { IfOk result (λ index. IsKept K.keys T.form footer.now index) }
    ensures read { IfOk result (λ index. IfSome (F.told file.now.file) (λ bytes. file.now.len ≡ length bytes →
        IsIndexRead K.keys file.now.id bytes footer.now index)) }
    ensures kinds { IfErr result (λ fault. IsOutside fault ⊎ ((at : ℕ) × IsUnfitAt file.now.id at fault)) }
    ensures refusals { IfErr result (λ fault. IfSome (F.told file.now.file) (λ bytes. file.now.len ≡ length bytes →
        IsOutside fault ⊎ IsIndexRefused K.keys T.form file.now.id bytes footer.now fault)) }
    ensures cause { HasCause Fault.ReadFault (F.faults port.old) (F.faults port.new) result }
    ensures once { CountsOnce (F.faults port.old) (F.faults port.new) result }
{
    let end = index_ends(footer, file.len);
    let size = end.saturating_sub(footer.index_at).min(file.len);
    let number = u64::from(footer.blocks);
    let frame = read_frame(alloc, port, file, footer.index_at, size as usize, number)?;
    let index = read_index_body::<K, T>(alloc, file.id, footer.index_at, frame.body())?;
    if index.len() as u64 != number {
        return Err(malformed(file.id, footer.index_at));
    }
    if footer.index_at + frame.body().len() as u64 + FRAME_OVERHEAD as u64 != end {
        return Err(malformed(file.id, file.len - footer_len(T::has_filter())));
    }
    Ok(index)
}
