//! Calls that are counted, and fail by number.

ghost use Rattle.std.specs.Prelude.{◌≡◌};
ghost use Rattle.mg_faults.specs.Calls.{no_calls, next_fails, after_call};

use crate::FaultCount;
use std::marker::Model;

/// Counts the calls of an object in memory that stands for the outside. The calls fail whose numbers, from 1, are listed.
#[derive(Debug, Drop)]
pub struct CallCounter {
    failing: Vec<u64>,
    calls: u64,
    faults: FaultCount,
}

impl Model for CallCounter {
    ghost use Rattle.mg_faults.specs.Calls.{CallCounts};

    ghost Value = { CallCounts };

    ghost view = { λ c. record { failing = c.failing.items; calls = c.calls; faults = c.faults } };
}

impl CallCounter {
    /// No call so far.
    pub fn new(failing: Vec<u64>) -> CallCounter
        ensures { result ≡ no_calls failing.items }
    {
        CallCounter {
            failing,
            calls: 0,
            faults: FaultCount::new(),
        }
    }

    /// Counts one call, and tells whether it is to fail. Takes time in proportion to the list.
    pub fn count(&mut self) -> bool
        ensures fails { result ≡ next_fails self.old }
        ensures counted { self.new ≡ after_call self.old }
    {
        self.calls = self.calls.saturating_add(1);
        let number = self.calls;
        let fails = self.failing.contains(&number);
        if fails {
            self.faults.rise();
        }
        fails
    }

    /// How many calls failed.
    pub fn faults(&self) -> FaultCount
        ensures { result ≡ self.now.faults }
    {
        self.faults
    }
}
