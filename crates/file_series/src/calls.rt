//! The calls of a series in memory, and which of them fail.
ghost use Rattle.std.specs.Prelude.{◌≡◌};
ghost use Rattle.relay_outside.specs.Counts.{next_fails, called};

use std::marker::Model;

/// Counts calls.
#[derive(Drop)]
pub(crate) struct Calls {
    failing: Vec<u64>,
    made: u64,
    failed: u64,
}

impl Model for Calls {
    ghost use Rattle.relay_outside.specs.Counts.{CallCount};

    ghost Value = { CallCount };

    ghost view = { λ c. record { fails = c.failing.items; calls = c.made; faults = c.failed } };
}

impl Calls {
    pub(crate) fn new(fails: Vec<u64>) -> Calls
        ensures { result ≡ record { fails = fails.items; calls = 0; faults = 0 } }
    {
        Calls {
            failing: fails,
            made: 0,
            failed: 0,
        }
    }

    /// Counts a call, and returns whether it fails.
    pub(crate) fn fails_next(&mut self) -> bool
        ensures answer { result ≡ next_fails self.old }
        ensures after { self.new ≡ called self.old }
    {
        let fails = self.failing.contains(&self.made);
        self.made = self.made.saturating_add(1);
        if fails {
            self.failed = self.failed.saturating_add(1);
        }
        fails
    }

    /// Returns the number of calls that have failed.
    pub(crate) fn failed(&self) -> u64
        ensures { result ≡ self.now.faults }
    {
        self.failed
    }
}
