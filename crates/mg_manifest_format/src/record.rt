//! The record of a manifest: what a partition consists of.

ghost use Rattle.std.specs.Prelude.{◌≡◌, ℕ, ◌++◌, ◌<◌, ◌^◌, ◌⊎◌, List, length, take, IfErr, IfOk, IfSome, IsSome, OnOk, IsOkUnless, Some};
ghost use Rattle.mg_manifest_format.specs.Flaws.{IsRefused};
ghost use Rattle.mg_manifest_format.specs.Manifests.{manifest_body, numbers_bytes, HasRoom, IsManifest};
ghost use Rattle.mg_manifest_format.specs.Spelling.{IsSplit};

use crate::flaws::check_record;
use crate::items::{items_len, put_items, split_items_u8};
use crate::layout::LayoutNames;
use crate::spelled::Spelled;
use mg_frame::{put_u8, put_u64, split_u8, split_u64};
use mg_items::Items;
use mg_types::{Fault, FileId};
use std::alloc::{AllocError, Global};

/// The format that is written and read here.
const FORMAT: u8 = 1;

/// A mark, and the layout that is kept for it.
#[derive(Debug, Drop)]
pub struct MarkNames {
    /// The sequence number that is marked.
    pub mark: u64,
    pub layout: LayoutNames,
}

/// What a manifest says of a partition.
#[derive(Debug, Drop)]
pub struct ManifestRec {
    /// The number of the record's frame.
    pub version: u64,
    /// The epoch behind the first `applied` changes.
    pub epoch: u64,
    /// How many changes of the shared log the files have.
    pub applied: u64,
    /// The last log number that the receipt for these changes says to be synced.
    pub receipt: u64,
    /// The last sequence number that the layout has.
    pub flushed: u64,
    /// The number of the next file to be written.
    pub next_file: u64,
    pub layout: LayoutNames,
    /// The marks behind the first `applied` changes, rising.
    pub marks: Items<MarkNames>,
}

impl Spelled for MarkNames {
    ghost use Rattle.mg_manifest_format.specs.Manifests.{mark_spelling};

    ghost spelling = { mark_spelling };

    fn put(&self, out: &mut Vec<u8>) -> Result<(), AllocError> {
        put_u64(self.mark, out)?;
        self.layout.put(out)
    }

    #[tactic(auto, using(crate::proofs::LengthLaws::mark_len, crate::proofs::LengthLaws::layout_most))]
    fn spelled_len(&self) -> usize {
        self.mark.to_be_bytes().len() + self.layout.spelled_len()
    }

    fn split(alloc: Global, bytes: &[u8]) -> Result<Option<(MarkNames, &[u8])>, Fault> {
        let Some((mark, rest)) = split_u64(bytes) else {
            return Ok(None);
        };
        let Some((layout, rest)) = LayoutNames::split(alloc, rest)? else {
            return Ok(None);
        };
        Ok(Some((MarkNames { mark, layout }, rest)))
    }
}

/// How many bytes the body of the record's frame takes.
#[tactic(auto, using(crate::proofs::LengthLaws::manifest_len, crate::proofs::LengthLaws::layout_most, crate::proofs::LengthLaws::marks_most))]
pub fn manifest_len(rec: &ManifestRec) -> usize
    requires { IsManifest rec.now }
    ensures { result ≡ length (manifest_body rec.now) }
{
    42 + rec.layout.spelled_len() + items_len(rec.marks.as_slice())
}

/// Appends the format and the numbers before the layout.
fn put_numbers(rec: &ManifestRec, out: &mut Vec<u8>) -> Result<(), AllocError>
    ensures ok { OnOk result (out.new.items ≡ out.old.items ++ numbers_bytes rec.now.epoch rec.now.applied rec.now.receipt rec.now.flushed rec.now.next_file) }
    ensures front { take (length out.old.items) out.new.items ≡ out.old.items }
{
    put_u8(FORMAT, out)?;
    put_u64(rec.epoch, out)?;
    put_u64(rec.applied, out)?;
    put_u64(rec.receipt, out)?;
    put_u64(rec.flushed, out)?;
    put_u64(rec.next_file, out)
}

/// Appends the body of the record's frame. After an error a front of it may stand there.
pub fn put_manifest(rec: &ManifestRec, out: &mut Vec<u8>) -> Result<(), AllocError>
    requires { IsManifest rec.now }
    ensures ok { OnOk result (out.new.items ≡ out.old.items ++ manifest_body rec.now) }
    ensures front { take (length out.old.items) out.new.items ≡ out.old.items }
{
    put_numbers(rec, out)?;
    rec.layout.put(out)?;
    put_u8(rec.marks.len() as u8, out)?;
    put_items(rec.marks.as_slice(), out)
}

/// The numbers that stand before a layout.
#[derive(Clone, Copy)]
struct Numbers {
    epoch: u64,
    applied: u64,
    receipt: u64,
    flushed: u64,
    next_file: u64,
}

/// The numbers at the front, behind the format that is read here, and what follows them.
fn split_numbers(bytes: &[u8]) -> Option<(Numbers, &[u8])>
    ensures split { IfSome result (λ split. bytes.now ≡ numbers_bytes split.0.epoch split.0.applied split.0.receipt split.0.flushed split.0.next_file ++ split.1.now) }
    ensures written { (epoch applied receipt flushed next_file : ℕ) (rest : List ℕ) → epoch < 2 ^ 64 → applied < 2 ^ 64 → receipt < 2 ^ 64 → flushed < 2 ^ 64 → next_file < 2 ^ 64
        → bytes.now ≡ numbers_bytes epoch applied receipt flushed next_file ++ rest
        → IsSome result × IfSome result (λ split. (split.0.epoch ≡ epoch) × (split.0.applied ≡ applied) × (split.0.receipt ≡ receipt)
        × (split.0.flushed ≡ flushed) × (split.0.next_file ≡ next_file) × (split.1.now ≡ rest)) }
{
    let (format, rest) = split_u8(bytes)?;
    if format != FORMAT {
        return None;
    }
    let (epoch, rest) = split_u64(rest)?;
    let (applied, rest) = split_u64(rest)?;
    let (receipt, rest) = split_u64(rest)?;
    let (flushed, rest) = split_u64(rest)?;
    let (next_file, rest) = split_u64(rest)?;
    let numbers = Numbers {
        epoch,
        applied,
        receipt,
        flushed,
        next_file,
    };
    Some((numbers, rest))
}

/// The record of this version that the body spells, all of it; none where it spells none.
fn split_manifest(alloc: Global, version: u64, body: &[u8]) -> Result<Option<ManifestRec>, Fault>
    ensures read { IfOk result (λ found. IfSome found (λ rec. (rec.version ≡ version) × HasRoom rec × (body.now ≡ manifest_body rec))) }
    ensures written { IfOk result (λ found. (rec : ManifestRec) → rec.version ≡ version → HasRoom rec → body.now ≡ manifest_body rec → found ≡ Some rec) }
    ensures err { IsOkUnless result Fault.NoMemory }
{
    let Some((numbers, rest)) = split_numbers(body) else {
        return Ok(None);
    };
    let Some((layout, rest)) = LayoutNames::split(alloc, rest)? else {
        return Ok(None);
    };
    let Some((marks, rest)) = split_items_u8(alloc, rest)? else {
        return Ok(None);
    };
    if !rest.is_empty() {
        return Ok(None);
    }
    Ok(Some(ManifestRec {
        version,
        epoch: numbers.epoch,
        applied: numbers.applied,
        receipt: numbers.receipt,
        flushed: numbers.flushed,
        next_file: numbers.next_file,
        layout,
        marks,
    }))
}

/// The record of this version whose body stands in a frame at this offset. A body that spells no record is malformed. Else the
/// version and then the fields are judged from left to right: a number of 2^62 or more is damaged, and what is outside the
/// grammar is malformed. The memory that is taken is in proportion to the body.
pub fn read_manifest(
    alloc: Global,
    file: FileId,
    at: u64,
    version: u64,
    body: &[u8],
) -> Result<ManifestRec, Fault>
    ensures read { IfOk result (λ rec. (rec.version ≡ version) × IsManifest rec × (body.now ≡ manifest_body rec)) }
    ensures written { (rec : ManifestRec) → rec.version ≡ version → IsManifest rec → body.now ≡ manifest_body rec → IsOkUnless result Fault.NoMemory }
    ensures again { IfOk result (λ found. (rec : ManifestRec) → rec.version ≡ version → IsManifest rec → body.now ≡ manifest_body rec → found ≡ rec) }
    ensures refusals { IfErr result (λ fault. (fault ≡ Fault.NoMemory) ⊎ IsRefused file at version body.now fault) }
{
    let Some(rec) = split_manifest(alloc, version, body)? else {
        return Err(Fault::Malformed { file, at });
    };
    match check_record(&rec) {
        Ok(()) => Ok(rec),
        Err(flaw) => Err(flaw.fault(file, at)),
    }
}
