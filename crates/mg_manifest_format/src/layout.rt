//! Layouts: the files of a partition by their names.

ghost use Rattle.std.specs.Prelude.{◌≡◌, ◌++◌, length, take, IfOk, OnOk, IsOkUnless};
ghost use Rattle.mg_manifest_format.specs.Manifests.{layout_spelling};
ghost use Rattle.mg_manifest_format.specs.Spelling.{IsSplit};

use crate::items::{items_len, put_items_u16, put_items_u32, split_items_u16, split_items_u32};
use crate::spelled::Spelled;
use mg_frame::{put_u64, split_u64};
use mg_items::Items;
use mg_types::Fault;
use std::alloc::{AllocError, Global};

/// A sealed file of a partition; its place in a layout says of which kind it is.
#[derive(Clone, Copy, Debug, PartialEq, Eq)]
pub struct NamedFile {
    pub number: u64,
    /// The length in bytes.
    pub len: u64,
}

/// A run: tables over the sequence numbers above `lo` and up to `hi`.
#[derive(Debug, Drop)]
pub struct RunNames {
    pub lo: u64,
    pub hi: u64,
    pub files: Items<NamedFile>,
}

/// The files of a layout.
#[derive(Debug, Drop)]
pub struct LayoutNames {
    pub runs: Items<RunNames>,
    pub segments: Items<NamedFile>,
    /// Its delete lists.
    pub deletes: Items<NamedFile>,
}

impl Spelled for NamedFile {
    ghost use Rattle.mg_manifest_format.specs.Manifests.{file_spelling};

    ghost spelling = { file_spelling };

    fn put(&self, out: &mut Vec<u8>) -> Result<(), AllocError> {
        put_u64(self.number, out)?;
        put_u64(self.len, out)
    }

    #[tactic(auto, using(crate::proofs::LengthLaws::file_len))]
    fn spelled_len(&self) -> usize {
        self.number.to_be_bytes().len() + self.len.to_be_bytes().len()
    }

    fn split(_alloc: Global, bytes: &[u8]) -> Result<Option<(NamedFile, &[u8])>, Fault> {
        let Some((number, rest)) = split_u64(bytes) else {
            return Ok(None);
        };
        let Some((len, rest)) = split_u64(rest) else {
            return Ok(None);
        };
        Ok(Some((NamedFile { number, len }, rest)))
    }
}

impl Spelled for RunNames {
    ghost use Rattle.mg_manifest_format.specs.Manifests.{run_spelling};

    ghost spelling = { run_spelling };

    fn put(&self, out: &mut Vec<u8>) -> Result<(), AllocError> {
        put_u64(self.lo, out)?;
        put_u64(self.hi, out)?;
        put_items_u16(&self.files, out)
    }

    #[tactic(auto, using(crate::proofs::LengthLaws::run_len, crate::proofs::LengthLaws::run_files_most))]
    fn spelled_len(&self) -> usize {
        18 + items_len(self.files.as_slice())
    }

    fn split(alloc: Global, bytes: &[u8]) -> Result<Option<(RunNames, &[u8])>, Fault> {
        let Some((lo, rest)) = split_u64(bytes) else {
            return Ok(None);
        };
        let Some((hi, rest)) = split_u64(rest) else {
            return Ok(None);
        };
        let Some((files, rest)) = split_items_u16(alloc, rest)? else {
            return Ok(None);
        };
        Ok(Some((RunNames { lo, hi, files }, rest)))
    }
}

impl Spelled for LayoutNames {
    ghost use Rattle.mg_manifest_format.specs.Manifests.{layout_spelling};

    ghost spelling = { layout_spelling };

    fn put(&self, out: &mut Vec<u8>) -> Result<(), AllocError> {
        put_items_u16(&self.runs, out)?;
        put_items_u32(&self.segments, out)?;
        put_items_u32(&self.deletes, out)
    }

    #[tactic(auto, using(crate::proofs::LengthLaws::layout_len, crate::proofs::LengthLaws::layout_runs_most, crate::proofs::LengthLaws::layout_segments_most, crate::proofs::LengthLaws::layout_deletes_most))]
    fn spelled_len(&self) -> usize {
        let runs = items_len(self.runs.as_slice());
        let segments = items_len(self.segments.as_slice());
        let deletes = items_len(self.deletes.as_slice());
        10 + runs + segments + deletes
    }

    fn split(alloc: Global, bytes: &[u8]) -> Result<Option<(LayoutNames, &[u8])>, Fault> {
        let Some((runs, rest)) = split_items_u16(alloc, bytes)? else {
            return Ok(None);
        };
        let Some((segments, rest)) = split_items_u32(alloc, rest)? else {
            return Ok(None);
        };
        let Some((deletes, rest)) = split_items_u32(alloc, rest)? else {
            return Ok(None);
        };
        let layout = LayoutNames {
            runs,
            segments,
            deletes,
        };
        Ok(Some((layout, rest)))
    }
}
