//! The first keys of blocks.

ghost use Rattle.std.specs.Prelude.{◌≡◌, ℕ, List, ◌++◌, ◌↔◌, length, IfSome, IsSome, IsTrue, OnOk};
ghost use Rattle.mg_indexed.specs.Index.{first_after};
ghost use Rattle.mg_indexed.specs.Keys.{Keys, IsLawful, IsReading, IsSpelled};

use crate::handle::BlockHandle;
use mg_types::{Fault, FileId};
use std::alloc::{AllocError, Global};

/// The first key of a block, as an index spells it.
pub trait BlockKey: Drop {
    /// All that contracts say of the type.
    ghost keys: { Keys Self };

    /// Appends its spelling, or a front of it for want of memory.
    fn put(&self, out: &mut Vec<u8>) -> Result<(), AllocError>
        requires { keys.fits self.now }
        ensures { OnOk result (out.new.items ≡ out.old.items ++ keys.bytes self.now) };

    /// Whether it is below another one.
    fn is_before(&self, other: &Self) -> bool
        ensures { IsTrue result ↔ keys.before self.now other.now };

    /// How many bytes its spelling has.
    fn spelled_len(&self) -> u64
        requires { keys.fits self.now }
        ensures { result ≡ length (keys.bytes self.now) };

    /// The spelling of a key at the front of the bytes, and what follows it; none where they begin with none.
    fn split(bytes: &[u8]) -> Option<(&[u8], &[u8])>
        ensures split { IfSome result (λ split. IsSpelled keys split.0.now × (bytes.now ≡ split.0.now ++ split.1.now)) }
        ensures written { (key : Self) (rest : List ℕ) → keys.fits key → bytes.now ≡ keys.bytes key ++ rest → IsSome result };

    /// The key that is spelled so in an index at an offset of a file, behind these handles. One that may not follow is refused.
    fn read(
        alloc: Global,
        id: FileId,
        at: u64,
        before: &[BlockHandle<Self>],
        spelled: &[u8],
    ) -> Result<Self, Fault>
        requires { IsSpelled keys spelled.now }
        ensures { IsReading keys id at (first_after keys.lowest before.now) spelled.now result };

    ghost lawful: { IsLawful keys };
}
