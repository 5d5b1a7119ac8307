//! The source and the sink, by the bytes that they have and by their counts of faults.

ghost use Rattle.std.specs.Prelude.{◌≡◌, ◌≤◌, ◌<◌, ℕ, List, Option, length, IfOk, OnOk};
ghost use Rattle.std.specs.Io.{ReadsAtMost, WritesAtMost};
ghost use Rattle.std.specs.Io.KnownBytes.{ReadConsumes, WriteAppends};
ghost use Rattle.mg_faults.specs.Causes.{HasCause, CountsOnce, last_count};

use crate::errors::IoError;

/// A source of bytes.
pub trait Source {
    /// The bytes that are left, where the source tells them.
    ghost left: { Self → Option (List ℕ) };

    /// How many of its calls failed.
    ghost faults: { Self → ℕ };

    /// Puts the next bytes into `buf` and answers how many. With a `buf` that is not empty, `Ok(0)` means
    /// the end. After an error the bytes that are left are as before.
    fn read(&mut self, buf: &mut [u8]) -> Result<usize, IoError>
        ensures bound { ReadsAtMost result buf.new }
        ensures bytes { ReadConsumes (left self.old) (left self.new) result buf.new }
        ensures cause { HasCause IoError.Failed (faults self.old) (faults self.new) result }
        ensures once { CountsOnce (faults self.old) (faults self.new) result };

    /// The count stays at the last number of its type.
    ghost bounded: { (value : Self) → faults value ≤ last_count };
}

/// A sink for bytes.
pub trait Sink {
    /// The bytes written, where the sink tells them.
    ghost written: { Self → Option (List ℕ) };

    /// How many of its calls failed.
    ghost faults: { Self → ℕ };

    /// Takes the first bytes of a piece and answers how many: at least one, where the piece is not empty.
    /// After an error the bytes written are as before.
    fn write(&mut self, bytes: &[u8]) -> Result<usize, IoError>
        ensures bound { WritesAtMost result bytes.now }
        ensures some { 0 < length bytes.now → IfOk result (λ count. 1 ≤ count) }
        ensures bytes { WriteAppends (written self.old) (written self.new) result bytes.now }
        ensures cause { HasCause IoError.Failed (faults self.old) (faults self.new) result }
        ensures once { CountsOnce (faults self.old) (faults self.new) result };

    /// The count stays at the last number of its type.
    ghost bounded: { (value : Self) → faults value ≤ last_count };
}
