//! Calls that are counted, some of which fail.
ghost use Rattle.std.specs.Prelude.{◌≡◌, ◌≤◌};
ghost use Rattle.ddr_io.specs.Calls.{next_fails, one_more_call};

use std::marker::Model;

/// Counts calls, and those among them that fail: the ones whose numbers, from 1, are listed.
#[derive(Drop)]
pub(crate) struct Calls {
    fails: Vec<u64>,
    made: u64,
    faults: u64,
}

impl Model for Calls {
    ghost use Rattle.ddr_io.specs.Calls.{Calling};

    ghost Value = { Calling };

    ghost view = { λ c. record { fails = c.fails.items; made = c.made; faults = c.faults } };
}

impl Calls {
    /// No call so far.
    pub(crate) fn new(fails: Vec<u64>) -> Self
        ensures { result ≡ record { fails = fails.items; made = 0; faults = 0 } }
    {
        Calls {
            fails,
            made: 0,
            faults: 0,
        }
    }

    /// Counts one more call, and tells whether it fails.
    pub(crate) fn next(&mut self) -> bool
        ensures answer { result ≡ next_fails self.old }
        ensures state { self.new ≡ one_more_call self.old }
        ensures faults_never_fall { self.old.faults ≤ self.new.faults }
    {
        self.made = self.made.saturating_add(1);
        let fails = self.fails.contains(&self.made);
        if fails {
            self.faults = self.faults.saturating_add(1);
        }
        fails
    }
}
