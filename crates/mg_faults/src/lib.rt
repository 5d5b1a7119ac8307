//! A count of faults, and what it says of an answer that something outside failed. Beside it [`CallCounter`], with which
//! objects in memory count their calls and fail by number.
//!
//! An object that stands for the outside (a source, a sink, a device) keeps such a count and raises it at
//! each failure. Code that is generic over the object cannot raise the count, so a contract that allows the
//! answer "failed" only where the count rose refuses a body that gives up.
#![tactic(auto)]

ghost use Rattle.std.specs.Prelude.{◌≡◌, ◌≤◌, ◌-◌};
ghost use Rattle.mg_faults.specs.Causes.{raised};

mod calls;

pub use calls::CallCounter;
use std::marker::Model;

/// A count of faults. It never falls, and stays at the last number of its type.
#[derive(Clone, Copy, Debug, PartialEq, Eq)]
pub struct FaultCount {
    count: u64,
}

impl Model for FaultCount {
    ghost use Rattle.std.specs.Prelude.{ℕ};

    ghost Value = { ℕ };

    ghost view = { λ f. f.count };

    ghost inverse = { λ n. record { count = n } };
}

impl FaultCount {
    pub fn new() -> FaultCount
        ensures { result ≡ 0 }
    {
        FaultCount { count: 0 }
    }

    /// One fault more.
    pub fn rise(&mut self)
        ensures count { self.new ≡ raised self.old 1 }
        ensures later { self.old ≤ self.new }
    {
        self.count = self.count.saturating_add(1);
    }

    /// As many faults more as another count rose by, from `before` on.
    pub fn rise_by(&mut self, before: FaultCount, now: FaultCount)
        ensures count { self.new ≡ raised self.old (now - before) }
        ensures later { self.old ≤ self.new }
    {
        let rise = now.count.saturating_sub(before.count);
        self.count = self.count.saturating_add(rise);
    }

    pub fn get(self) -> u64
        ensures { result ≡ self }
    {
        self.count
    }
}

#[cfg(test)]
mod tests;
