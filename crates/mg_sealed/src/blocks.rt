//! Blocks of a sealed file, whose offsets and lengths its index says.

ghost use Rattle.std.specs.Prelude.{◌≡◌, ◌+◌, ◌<◌, ◌≤◌, ◌^◌, ◌⊎◌, length, IfOk, IfErr, IfSome};
ghost use Rattle.mg_faults.specs.Causes.{HasCause, CountsOnce};
ghost use Rattle.mg_frame.specs.Frame.{StandsAt};
ghost use Rattle.mg_sealed.specs.Answers.{Answers, IsOutside};
ghost use Rattle.mg_sealed.specs.Blocks.{block_body, IsUnfitAt};

use crate::counting::CountingFiles;
use crate::errors::malformed;
use crate::reading::{Frame, SealedFile, read_frame_into};
use mg_disk::Files;
use mg_frame::FRAME_OVERHEAD;
use mg_memdisk::MemFiles;
use mg_types::Fault;
use std::alloc::Global;
use std::marker::Model;

/// A block is closed when the next item would bring its body above so many bytes.
pub const BLOCK_LIMIT: usize = 4_096;

/// A block that was read and judged. Contracts see it as its body.
///
/// Whoever reads uses the body alone, and gives the buffer back. So a port may later answer a block that it shares.
#[derive(Drop)]
pub struct Block {
    frame: Frame,
}

impl Model for Block {
    ghost use Rattle.std.specs.Prelude.{ℕ, List};

    ghost Value = { List ℕ };

    ghost view = { λ block. block.frame };
}

impl Block {
    pub fn body(&self) -> &[u8]
        ensures { result.now ≡ self.now }
    {
        self.frame.body()
    }

    /// The buffer that was lent, or an empty one. The next read may take it.
    pub fn into_buffer(self) -> Vec<u8> {
        self.frame.into_buffer()
    }
}

/// A port that gives blocks of sealed files, judged.
///
/// What is found and listed asks for such a port and for nothing else of one. A port that keeps blocks says here how it
/// finds them; for any other the body below serves.
pub trait Blocks: Files {
    /// The block of this number, whose frame stands at an offset and has `len` bytes as a whole, as the file's index says. One
    /// of another length is malformed. It takes memory for the frame, where the buffer does not suffice.
    #[tactic(auto)]
    fn block(
        &mut self,
        alloc: Global,
        file: &SealedFile<Self::Sealed>,
        at: u64,
        len: u32,
        number: u64,
        buffer: Vec<u8>,
    ) -> Result<Block, Fault>
        requires { at < 2 ^ 62 }
        ensures told { IfSome (Self.Files.told file.now.file) (λ bytes. file.now.len ≡ length bytes →
            Answers (block_body file.now.id bytes at len number) result) }
        ensures stands { IfSome (Self.Files.told file.now.file) (λ bytes. file.now.len ≡ length bytes →
            IfOk result (λ body. StandsAt bytes at (number, body))) }
        ensures len { IfOk result (λ body. length body + 20 ≡ len) }
        ensures refusals { IfErr result (λ fault. IsOutside fault ⊎ IsUnfitAt file.now.id at fault) }
        ensures cause { HasCause Fault.ReadFault (Self.Files.faults self.old) (Self.Files.faults self.new) result }
        ensures once { CountsOnce (Self.Files.faults self.old) (Self.Files.faults self.new) result }
    {
        read_block(alloc, self, file, at, len, number, buffer)
    }
}

impl Blocks for MemFiles {}

// A block is read through `read`, so that what it takes is counted.
impl<F: Files> Blocks for CountingFiles<F> {}

/// Reads a block, as `Blocks` says it.
#[tactic(auto, unfolding(crate::specs::Blocks::block_body))]
fn read_block<F: Files>(
    alloc: Global,
    port: &mut F,
    file: &SealedFile<F::Sealed>,
    at: u64,
    len: u32,
    number: u64,
    buffer: Vec<u8>,
) -> Result<Block, Fault>
    requires { at < 2 ^ 62 }
    ensures told { IfSome (F.told file.now.file) (λ bytes. file.now.len ≡ length bytes →
        Answers (block_body file.now.id bytes at len number) result) }
    ensures stands { IfSome (F.told file.now.file) (λ bytes. file.now.len ≡ length bytes →
        IfOk result (λ body. StandsAt bytes at (number, body))) }
    ensures len { IfOk result (λ body. length body + 20 ≡ len) }
    ensures refusals { IfErr result (λ fault. IsOutside fault ⊎ IsUnfitAt file.now.id at fault) }
    ensures cause { HasCause Fault.ReadFault (F.faults port.old) (F.faults port.new) result }
    ensures once { CountsOnce (F.faults port.old) (F.faults port.new) result }
{
    let frame = read_frame_into(alloc, port, file, at, len as usize, number, buffer)?;
    if frame.body().len() as u64 + FRAME_OVERHEAD as u64 != u64::from(len) {
        return Err(malformed(file.id, at));
    }
    Ok(Block { frame })
}
