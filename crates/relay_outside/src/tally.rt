//! The counts of a link in memory.
ghost use Rattle.std.specs.Prelude.{◌≡◌};
ghost use Rattle.relay_outside.specs.MemLinks.{with_fault, with_wait, with_end};

use std::marker::Model;

/// Counts that stand still at their type's end.
#[derive(Drop)]
pub(crate) struct Tally {
    failed: u64,
    waited: u64,
    ended: u64,
}

impl Model for Tally {
    ghost use Rattle.relay_outside.specs.Told.{LinkCounts};

    ghost Value = { LinkCounts };

    ghost view = { λ t. record { faults = t.failed; waits = t.waited; ends = t.ended } };
}

impl Tally {
    pub(crate) fn new() -> Tally
        ensures { result ≡ record { faults = 0; waits = 0; ends = 0 } }
    {
        Tally {
            failed: 0,
            waited: 0,
            ended: 0,
        }
    }

    pub(crate) fn add_fault(&mut self)
        ensures { self.new ≡ with_fault self.old }
    {
        self.failed = self.failed.saturating_add(1);
    }

    pub(crate) fn add_wait(&mut self)
        ensures { self.new ≡ with_wait self.old }
    {
        self.waited = self.waited.saturating_add(1);
    }

    pub(crate) fn add_end(&mut self)
        ensures { self.new ≡ with_end self.old }
    {
        self.ended = self.ended.saturating_add(1);
    }
}
