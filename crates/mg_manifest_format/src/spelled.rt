//! What is spelled as bytes, both ways.

ghost use Rattle.std.specs.Prelude.{◌≡◌, ◌++◌, length, take, IfOk, OnOk, IsOkUnless};
ghost use Rattle.mg_manifest_format.specs.Spelling.{Spelling, IsSplit};

use mg_types::Fault;
use std::alloc::{AllocError, Global};

/// A value that is spelled as bytes.
pub(crate) trait Spelled: Drop {
    /// All that contracts say of the type.
    ghost spelling: { Spelling Self };

    /// Appends its spelling. After an error a front of it may stand there.
    fn put(&self, out: &mut Vec<u8>) -> Result<(), AllocError>
        requires { spelling.fits self.now }
        ensures ok { OnOk result (out.new.items ≡ out.old.items ++ spelling.bytes self.now) }
        ensures front { take (length out.old.items) out.new.items ≡ out.old.items };

    /// How many bytes its spelling has.
    fn spelled_len(&self) -> usize
        requires { spelling.fits self.now }
        ensures { result ≡ length (spelling.bytes self.now) };

    /// The value at the front of the bytes, and what follows it; none where they begin with none.
    fn split(alloc: Global, bytes: &[u8]) -> Result<Option<(Self, &[u8])>, Fault>
        ensures read { IfOk result (λ found. IsSplit spelling bytes.now found) }
        ensures err { IsOkUnless result Fault.NoMemory };
}
