//! Writing a file: its blocks, and what stands behind them.

ghost use Rattle.std.specs.Prelude.{◌≡◌, ◌≢◌, ◌+◌, ◌<◌, ◌≤◌, ◌^◌, ℕ, List, [], ◌∷◌, ◌++◌, length, IfOk, IfErr, IfSome, OnOk, OnErr};
ghost use Rattle.std.specs.List.{All};
ghost use Rattle.mg_faults.specs.Causes.{HasCause, CountsOnce};
ghost use Rattle.mg_frame.specs.Frames.{numbered_frames};
ghost use Rattle.mg_sealed.specs.Answers.{IsUnwritten};
ghost use Rattle.mg_sealed.specs.Writing.{HasFrames};
ghost use Rattle.mg_indexed.specs.Forms.{IsFrameLength};
ghost use Rattle.mg_indexed.specs.Index.{first_after, index_bytes};
ghost use Rattle.mg_indexed.specs.Loading.{IsIndexed, IsKept};
ghost use Rattle.mg_indexed.specs.Writing.{file_bodies, filter_frames, filter_place, footer_from, handle_length, index_length, IsSummary};

use crate::footer::{Footer, Summary, footer_body};
use crate::handle::BlockHandle;
use crate::index::index_body;
use crate::indexed::Indexed;
use crate::item::BlockItem;
use crate::key::BlockKey;
use mg_disk::Files;
use mg_frame::FRAME_OVERHEAD;
use mg_items::Items;
use mg_sealed::{FrameWriter, append_frame, seal_frames, start_frames};
use mg_types::{Fault, FileId};
use std::alloc::Global;
use std::marker::{Model, PhantomData};

/// The bytes of a handle beside its key.
const HANDLE_OVERHEAD: u64 = 12;

/// The blocks of a file in writing that were closed: their frames are in the file, and their handles are kept. After an error it
/// is only dropped.
#[derive(Drop)]
pub struct ClosedBlocks<D, K: BlockKey, T: BlockItem> {
    frames: FrameWriter<D>,
    index: Items<BlockHandle<K>>,
    /// How many bytes the body of the index has.
    index_len: u64,
    holds: PhantomData<T>,
}

impl<D, K: BlockKey, T: BlockItem> Model for ClosedBlocks<D, K, T> {
    ghost use Rattle.std.specs.Prelude.{◌≡◌};
    ghost use Rattle.mg_indexed.specs.Writing.{Closed, AreIndexed, index_length};

    ghost Value = { Closed D K };

    ghost view = { λ c. record { frames = c.frames; index = c.index } };

    ghost invariant = { λ c. AreIndexed K.keys T.form (record { frames = c.frames; index = c.index }) × (c.index_len ≡ index_length K.keys c.index) };
}

impl<D: Drop, K: BlockKey, T: BlockItem> ClosedBlocks<D, K, T> {
    /// A file without a block. Takes no memory of its own.
    pub fn new<F: Files<Draft = D>>(
        alloc: Global,
        port: &mut F,
    ) -> Result<ClosedBlocks<D, K, T>, Fault>
        ensures frames { IfOk result (λ closed. HasFrames F.drafted closed.frames []) }
        ensures index { IfOk result (λ closed. closed.index ≡ []) }
        ensures outside { IfErr result (λ fault. IsUnwritten fault) }
        ensures cause { HasCause Fault.WriteFault (F.faults port.old) (F.faults port.new) result }
        ensures once { CountsOnce (F.faults port.old) (F.faults port.new) result }
    {
        Ok(ClosedBlocks {
            frames: start_frames(alloc, port)?,
            index: Items::new(alloc),
            index_len: 0,
            holds: PhantomData,
        })
    }

    /// How many bytes the body of the index has, which fit a frame.
    pub fn index_len(&self) -> u64
        ensures len { result ≡ index_length K.keys self.now.index }
        ensures few { result < 2 ^ 32 }
    {
        self.index_len
    }

    /// How many bytes the index has more with a block of this first key.
    pub fn handle_len(first: &K) -> u64
        requires { K.keys.fits first.now }
        ensures { result ≡ handle_length K.keys first.now }
    {
        first.spelled_len() + HANDLE_OVERHEAD
    }

    /// Puts the frame of a block behind the others, and its handle into the index. The block's first key follows that of the last
    /// one, its frame is as long as one of this kind may be, and the body of the index has room for the handle in a frame.
    pub fn close<F: Files<Draft = D>>(
        &mut self,
        alloc: Global,
        port: &mut F,
        first: K,
        body: &[u8],
    ) -> Result<(), Fault>
        requires follows { K.keys.follows (first_after K.keys.lowest self.old.index) first }
        requires body { IsFrameLength T.form (length body.now + 20) }
        requires room { index_length K.keys self.old.index + handle_length K.keys first < 2 ^ 32 }
        ensures frames { (bodies : List (List ℕ)) → HasFrames F.drafted self.old.frames bodies →
            OnOk result (HasFrames F.drafted self.new.frames (bodies ++ body.now ∷ [])) }
        ensures index { OnOk result (self.new.index ≡
            self.old.index ++ record { first = first; at = self.old.frames.len; len = length body.now + 20 } ∷ []) }
        ensures len { OnOk result (self.new.frames.len ≡ self.old.frames.len + length body.now + 20) }
        ensures grows { OnOk result (index_length K.keys self.new.index ≡ index_length K.keys self.old.index + handle_length K.keys first) }
        ensures kept { OnErr result ((self.new.frames.len ≡ self.old.frames.len) × (self.new.index ≡ self.old.index)) }
        ensures refusals { IfErr result (λ fault. IsUnwritten fault) }
        ensures cause { HasCause Fault.WriteFault (F.faults port.old) (F.faults port.new) result }
        ensures once { CountsOnce (F.faults port.old) (F.faults port.new) result }
    {
        let more = ClosedBlocks::<D, K, T>::handle_len(&first);
        self.index.push(BlockHandle {
            first,
            at: self.frames.len(),
            len: body.len() as u32 + FRAME_OVERHEAD as u32,
        })?;
        if let Err(fault) = append_frame(alloc, port, &mut self.frames, body) {
            self.index.pop();
            return Err(fault);
        }
        self.index_len += more;
        Ok(())
    }

    /// The file, sealed and synced, with its index, its filter and its footer behind the blocks, of which there is one. Where files
    /// of the kind have no filter, none is written, whatever is given. It takes memory for the body of the index once more.
    pub fn finish<F: Files<Draft = D>>(
        self,
        alloc: Global,
        port: &mut F,
        id: FileId,
        summary: &Summary,
        filter: &[u8],
    ) -> Result<Indexed<F::Sealed, K, T>, Fault>
        requires some { self.index ≢ [] }
        requires summary { IsSummary summary.now }
        requires filter { length filter.now < 2 ^ 32 }
        ensures indexed { (bodies : List (List ℕ)) → HasFrames F.drafted self.frames bodies →
            IfOk result (λ file. IfSome (F.told file.file.file) (λ bytes. IsIndexed K.keys T.form bytes file.footer file.index × (length bytes ≡ file.file.len))) }
        ensures bytes { (bodies : List (List ℕ)) → HasFrames F.drafted self.frames bodies →
            IfOk result (λ file. IfSome (F.told file.file.file) (λ bytes. bytes ≡ numbered_frames (file_bodies K.keys T.form.filtered bodies self.index filter.now file.footer))) }
        ensures len { (bodies : List (List ℕ)) → HasFrames F.drafted self.frames bodies →
            IfOk result (λ file. file.file.len ≡ length (numbered_frames (file_bodies K.keys T.form.filtered bodies self.index filter.now file.footer))) }
        ensures footer { IfOk result (λ file. file.footer ≡
            footer_from T.form.filtered summary.now self.frames.len (index_length K.keys self.index) (length self.index)) }
        ensures index { IfOk result (λ file. file.index ≡ self.index) }
        ensures kept { IfOk result (λ file. IsKept K.keys T.form file.footer file.index) }
        ensures id { IfOk result (λ file. file.file.id ≡ id) }
        ensures small { IfOk result (λ file. file.file.len < 2 ^ 62) }
        ensures refusals { IfErr result (λ fault. IsUnwritten fault) }
        ensures cause { HasCause Fault.WriteFault (F.faults port.old) (F.faults port.new) result }
        ensures once { CountsOnce (F.faults port.old) (F.faults port.new) result }
    {
        let ClosedBlocks {
            mut frames,
            index,
            index_len,
            holds,
        } = self;
        let index_at = put_index(alloc, port, &mut frames, index.as_slice(), index_len)?;
        let filter_at = put_filter(alloc, port, &mut frames, T::has_filter(), filter)?;
        let footer = Footer {
            count: summary.count,
            sum: summary.sum,
            low: summary.low,
            high: summary.high,
            index_at,
            filter_at,
            blocks: index.len() as u32,
        };
        append_frame(alloc, port, &mut frames, &footer_body(alloc, &footer)?)?;
        let file = seal_frames(alloc, port, frames, id)?;
        Ok(Indexed {
            file,
            footer,
            index,
            holds,
        })
    }
}

/// Puts the frame of an index, whose body has so many bytes, behind the others, and answers where it stands. The memory of the body
/// is given back with the answer.
fn put_index<F: Files, K: BlockKey>(
    alloc: Global,
    port: &mut F,
    frames: &mut FrameWriter<F::Draft>,
    index: &[BlockHandle<K>],
    len: u64,
) -> Result<u64, Fault>
    requires fits { All (λ handle. K.keys.fits handle.first) index.now }
    requires few { index_length K.keys index.now < 2 ^ 32 }
    requires room { frames.old.len + index_length K.keys index.now + 20 < 2 ^ 62 }
    ensures frames { (bodies : List (List ℕ)) → HasFrames F.drafted frames.old bodies →
        OnOk result (HasFrames F.drafted frames.new (bodies ++ index_bytes K.keys index.now ∷ [])) }
    ensures place { IfOk result (λ at. at ≡ frames.old.len) }
    ensures len { OnOk result (frames.new.len ≡ frames.old.len + index_length K.keys index.now + 20) }
    ensures outside { IfErr result (λ fault. IsUnwritten fault) }
    ensures cause { HasCause Fault.WriteFault (F.faults port.old) (F.faults port.new) result }
    ensures once { CountsOnce (F.faults port.old) (F.faults port.new) result }
{
    let body = index_body(alloc, index, len as usize)?;
    let placed = append_frame(alloc, port, frames, &body)?;
    Ok(placed.at)
}

/// Puts the frame of a filter behind the others, in a file that has one, and answers where it stands.
fn put_filter<F: Files>(
    alloc: Global,
    port: &mut F,
    frames: &mut FrameWriter<F::Draft>,
    filtered: bool,
    filter: &[u8],
) -> Result<Option<u64>, Fault>
    requires filter { length filter.now < 2 ^ 32 }
    requires room { frames.old.len + length filter.now + 20 < 2 ^ 62 }
    ensures frames { (bodies : List (List ℕ)) → HasFrames F.drafted frames.old bodies →
        OnOk result (HasFrames F.drafted frames.new (bodies ++ filter_frames filtered filter.now)) }
    ensures place { IfOk result (λ at. at ≡ filter_place filtered frames.old.len) }
    ensures len { OnOk result (frames.new.len ≤ frames.old.len + length filter.now + 20) }
    ensures outside { IfErr result (λ fault. IsUnwritten fault) }
    ensures cause { HasCause Fault.WriteFault (F.faults port.old) (F.faults port.new) result }
    ensures once { CountsOnce (F.faults port.old) (F.faults port.new) result }
{
    if !filtered {
        return Ok(None);
    }
    let placed = append_frame(alloc, port, frames, filter)?;
    Ok(Some(placed.at))
}
