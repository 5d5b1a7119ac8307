//! What a sync answers.

ghost use Rattle.std.specs.Prelude.{◌≡◌};

/// That the records of the list up to `through` are synced, and that these hold the first `change` changes of the partition.
/// Only a sync makes one.
#[derive(Clone, Copy, Debug, PartialEq, Eq)]
pub struct Receipt {
    pub(crate) through: u64,
    pub(crate) part: u16,
    pub(crate) change: u64,
}

impl Receipt {
    /// The number of the last record of the list.
    pub fn through(&self) -> u64
        ensures { result ≡ self.now.through }
    {
        self.through
    }

    pub fn part(&self) -> u16
        ensures { result ≡ self.now.part }
    {
        self.part
    }

    /// How many changes the partition has had.
    pub fn change(&self) -> u64
        ensures { result ≡ self.now.change }
    {
        self.change
    }
}
