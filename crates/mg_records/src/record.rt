//! What may stand in a sealed file of numbered records.

ghost use Rattle.std.specs.Prelude.{◌≡◌, ◌++◌, ◌↔◌, List, length, take, IfOk, IsTrue, OnOk};
ghost use Rattle.mg_records.specs.Framed.{IsFramed};
ghost use Rattle.mg_records.specs.Record.{Kind, IsContents, IsLawful, IsTaken, Measures};

use mg_indexed::BlockItem;
use std::alloc::{AllocError, Global};

/// A kind of numbered record. In a block a record is its number in 8 bytes, which this crate reads and writes, and then its
/// contents, which the kind does.
pub trait Record: BlockItem + Drop {
    /// All that contracts say of the kind: number, size and contents of a record, and which contents may stand in a file.
    ghost kind: { Kind Self };

    /// Its sequence number.
    fn seq(&self) -> u64
        ensures { result ≡ kind.seq self.now };

    /// Its size in bytes, as the footer of a file counts it.
    fn size(&self) -> u32
        ensures { result ≡ kind.size self.now };

    /// Whether its contents may stand in a file.
    fn fits(&self) -> bool
        ensures { IsTrue result ↔ kind.fits self.now };

    /// How many bytes its contents take in a block.
    fn contents_len(&self) -> usize
        requires { kind.fits self.now }
        ensures { result ≡ length (kind.contents self.now) };

    /// Appends its contents. After an error a front of them may stand there.
    fn put_contents(&self, out: &mut Vec<u8>) -> Result<(), AllocError>
        requires { kind.fits self.now }
        ensures put { OnOk result (out.new.items ≡ out.old.items ++ kind.contents self.now) }
        ensures front { take (length out.old.items) out.new.items ≡ out.old.items };

    /// How long the contents are that the bytes begin with; none where they begin with none. Takes no memory.
    fn measure(bytes: &[u8]) -> Option<usize>
        ensures { Measures kind bytes.now result };

    /// The record of this number and these contents, which are copied once.
    fn take(alloc: Global, seq: u64, contents: &[u8]) -> Result<Self, AllocError>
        requires { IsContents kind contents.now }
        ensures { IfOk result (λ it. IsTaken kind seq contents.now it) };

    ghost lawful: { IsLawful kind };

    ghost framed: { IsFramed kind Self.BlockItem.form };
}
