//! The logs that a crash may leave.

ghost use Rattle.std.specs.Prelude.{◌≡◌};
ghost use Rattle.mg_wal_format.specs.Recovery.{log_file, log_name};

use mg_types::{FileId, Kind, Name};
use mg_wal_format::Head;

/// A log that may stand, and its head.
#[derive(Debug, Drop)]
pub struct KnownLog {
    /// Its number.
    pub number: u64,
    /// Its head.
    pub head: Head,
}

/// The log with this number, as a volume names it.
pub(crate) const fn log_name(number: u64) -> Name
    ensures { result ≡ log_name number }
{
    Name {
        kind: Kind::Wal,
        number,
    }
}

/// The log with this number, as a fault names it.
pub const fn log_file(number: u64) -> FileId
    ensures { result ≡ log_file number }
{
    FileId {
        part: 65535,
        kind: Kind::Wal,
        number,
    }
}
