//! What a turn asks of the value behind it.
ghost use Rattle.std.specs.Prelude.{ℕ, List};

/// Two numbers of a value that never fall: how many faults it met, and up to where it is synced. Contracts alone name them.
pub struct Counts {
    pub faults: u64,
    pub synced: u64,
}

/// A value that stands for a history.
pub trait Stands {
    type Entry;

    /// Of the number that is fixed when the turn is made, the history as (caller, entry), and the value.
    ghost stands: { ℕ → List (ℕ × Self.Entry) → Self → Type 0 };

    /// How many faults the value met.
    ghost faults: { Self → ℕ };

    /// Up to which number of its own the value is synced.
    ghost synced: { Self → ℕ };
}
