//! The fault that names a number which a log may not keep.

ghost use Rattle.std.specs.Prelude.{◌≡◌};
ghost use Rattle.mg_wal_format.specs.Faults.{too_great};

use mg_types::{Fault, FileId, NUMBER_LIMIT};

/// A number of 2^62 or more in the frame at this offset.
pub(crate) fn too_great(file: FileId, at: u64, number: u64) -> Fault
    ensures { result ≡ too_great file at number }
{
    Fault::Damaged {
        file,
        at,
        kept: number,
        found: NUMBER_LIMIT,
    }
}
