//! Frames into a draft.

ghost use Rattle.std.specs.Prelude.{◌≡◌, ◌+◌, ◌<◌, ◌^◌, ℕ, List, [], ◌∷◌, ◌++◌, length, IfOk, IfErr, IfSome, OnOk, OnErr};
ghost use Rattle.mg_faults.specs.Causes.{HasCause, CountsOnce};
ghost use Rattle.mg_frame.specs.Frames.{numbered_frames};
ghost use Rattle.mg_sealed.specs.Answers.{IsUnwritten};
ghost use Rattle.mg_sealed.specs.Laws.{WrittenFrameIsRead};
ghost use Rattle.mg_sealed.specs.Writing.{HasFrames};

use crate::errors::write_fault;
use crate::reading::SealedFile;
use mg_disk::Files;
use mg_frame::{FRAME_OVERHEAD, put_frame};
use mg_types::{Fault, FileId};
use std::alloc::Global;
use std::marker::Model;

/// A file in writing, to which frames are put one after the other. They are numbered 0, 1, 2.
///
/// It keeps the memory of one frame. After an error it is only dropped.
#[derive(Drop)]
pub struct FrameWriter<D> {
    draft: D,
    len: u64,
    count: u64,
    frame: Vec<u8>,
}

impl<D> Model for FrameWriter<D> {
    ghost use Rattle.std.specs.Prelude.{◌≤◌};
    ghost use Rattle.mg_sealed.specs.Writing.{Written};

    ghost Value = { Written D };

    ghost view = { λ w. record { draft = w.draft; len = w.len; count = w.count } };

    ghost invariant = { λ w. w.count ≤ w.len };
}

impl<D> FrameWriter<D> {
    /// How many bytes were put into the file, which is the place of the next frame.
    pub fn len(&self) -> u64
        ensures { result ≡ self.now.len }
    {
        self.len
    }

    /// How many frames were put into the file, which is the number of the next one.
    pub fn count(&self) -> u64
        ensures { result ≡ self.now.count }
    {
        self.count
    }
}

/// Where a frame was put, and its whole length in bytes.
#[derive(Clone, Copy, Debug, PartialEq, Eq)]
pub struct Placed {
    pub at: u64,
    pub len: u64,
}

/// A file in writing without a frame. Takes no memory of its own.
pub fn start_frames<F: Files>(alloc: Global, port: &mut F) -> Result<FrameWriter<F::Draft>, Fault>
    ensures empty { IfOk result (λ writer. HasFrames F.drafted writer []) }
    ensures len { IfOk result (λ writer. writer.len ≡ 0) }
    ensures count { IfOk result (λ writer. writer.count ≡ 0) }
    ensures outside { IfErr result (λ fault. IsUnwritten fault) }
    ensures cause { HasCause Fault.WriteFault (F.faults port.old) (F.faults port.new) result }
    ensures once { CountsOnce (F.faults port.old) (F.faults port.new) result }
{
    let draft = port.fresh(alloc).map_err(write_fault)?;
    Ok(FrameWriter {
        draft,
        len: 0,
        count: 0,
        frame: Vec::new(alloc),
    })
}

/// Puts the next frame behind the others, in one append. The body is copied once.
pub fn append_frame<F: Files>(
    alloc: Global,
    port: &mut F,
    writer: &mut FrameWriter<F::Draft>,
    body: &[u8],
) -> Result<Placed, Fault>
    requires body { length body.now < 2 ^ 32 }
    requires room { writer.old.len + length body.now + 20 < 2 ^ 62 }
    ensures frames { (bodies : List (List ℕ)) → HasFrames F.drafted writer.old bodies →
        OnOk result (HasFrames F.drafted writer.new (bodies ++ body.now ∷ [])) }
    ensures placed { IfOk result (λ placed. placed ≡ record { at = writer.old.len; len = length body.now + 20 }) }
    ensures len { OnOk result (writer.new.len ≡ writer.old.len + length body.now + 20) }
    ensures count { OnOk result (writer.new.count ≡ writer.old.count + 1) }
    ensures err { OnErr result ((writer.new.len ≡ writer.old.len) × (writer.new.count ≡ writer.old.count)) }
    ensures outside { IfErr result (λ fault. IsUnwritten fault) }
    ensures cause { HasCause Fault.WriteFault (F.faults port.old) (F.faults port.new) result }
    ensures once { CountsOnce (F.faults port.old) (F.faults port.new) result }
{
    writer.frame.clear();
    put_frame(writer.count, body, &mut writer.frame)?;
    port.append(alloc, &mut writer.draft, &writer.frame)
        .map_err(write_fault)?;
    let at = writer.len;
    let len = body.len() as u64 + FRAME_OVERHEAD as u64;
    writer.len += len;
    writer.count += 1;
    Ok(Placed { at, len })
}

/// The file as one that never changes, synced.
pub fn seal_frames<F: Files>(
    alloc: Global,
    port: &mut F,
    writer: FrameWriter<F::Draft>,
    id: FileId,
) -> Result<SealedFile<F::Sealed>, Fault>
    ensures frames { (bodies : List (List ℕ)) → HasFrames F.drafted writer bodies →
        IfOk result (λ file. IfSome (F.told file.file) (λ bytes. bytes ≡ numbered_frames bodies)) }
    ensures id { IfOk result (λ file. file.id ≡ id) }
    ensures len { IfOk result (λ file. file.len ≡ writer.len) }
    ensures outside { IfErr result (λ fault. IsUnwritten fault) }
    ensures cause { HasCause Fault.WriteFault (F.faults port.old) (F.faults port.new) result }
    ensures once { CountsOnce (F.faults port.old) (F.faults port.new) result }
{
    let FrameWriter {
        draft,
        len,
        count: _,
        frame: _,
    } = writer;
    let file = port.seal(alloc, draft).map_err(write_fault)?;
    Ok(SealedFile { id, file, len })
}

/// The law that each frame of a file that was written here is read at its place, and is damaged nowhere. The function does
/// nothing.
pub const fn written_frame_is_read()
    ensures { WrittenFrameIsRead }
{}
