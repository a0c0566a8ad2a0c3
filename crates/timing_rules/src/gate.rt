//! The gate: how soon the next command may come, by the gaps and by the window of five ACTs.
ghost use Rattle.std.specs.Prelude.{ℕ, ◌≡◌, ◌<◌, ◌≤◌, ◌↔◌, ◌^◌, [], ◌∷◌, IfOk, IsNone};
ghost use Rattle.speed_bin.specs.Log.{Log};
ghost use Rattle.speed_bin.specs.Rules.{MayFollow, first_failing};
ghost use Rattle.speed_bin.specs.Timing.{IsTiming};
ghost use Rattle.speed_bin.specs.declared.timing.Timing.{Timing};
ghost use Rattle.timing_rules.specs.Gate.{MayIssue, StandsFor, StandsForSome};
ghost use Rattle.timing_rules.specs.Spaced.{spacing_rules};

use crate::Clock;
use crate::clocks::Clocks;
use circular_buffer::HeapCircularBuffer;
use command_words::Command;
use ddr_io::OutOfMemory;
use speed_bin::Timing;
use std::alloc::Global;
use std::marker::Model;

/// The commands that were issued so far, for the rules of spacing: clocks rise, each gap is kept, and of five ACTs in a
/// row the last is at least nFAW after the first. It keeps no list of them, and yet there is always one for which it
/// stands, so that its answers need no condition.
#[derive(Drop)]
pub struct Gate {
    // On the heap, so that whoever holds a gate can move it without a copy of its tables.
    clocks: Box<Clocks>,
}

impl Model for Gate {
    ghost use Rattle.speed_bin.specs.Timing.{IsTiming};
    ghost use Rattle.timing_rules.specs.Gate.{StandsForSome};
    ghost use Rattle.timing_rules.specs.declared.clocks.Clocks.{Clocks};

    ghost Value = { Clocks };

    ghost view = { λ g. g.clocks.value };

    ghost invariant = { λ g. IsTiming g.clocks.value.timing × StandsForSome g.clocks.value };
}

impl Gate {
    /// With no command issued. The timing numbers are 1 to 65,535 clocks each.
    #[inline(never)]
    pub fn new(alloc: Global, timing: &Timing) -> Result<Gate, OutOfMemory>
        requires { IsTiming timing.now }
        ensures { IfOk result (λ gate. StandsFor gate timing.now []) }
    {
        let window = HeapCircularBuffer::with_capacity(alloc, 4)?;
        match Box::new(alloc, Clocks::new(timing, window)) {
            Ok(clocks) => Ok(Gate { clocks }),
            Err(_) => Err(OutOfMemory),
        }
    }

    /// The least clock at which the command may follow those issued so far, 0 where there are none.
    pub fn earliest(&self, command: &Command) -> Clock
        ensures least { (t : Timing) (log : Log) → StandsFor self.now t log → (clock : ℕ) → (MayFollow t clock command.now log ↔ (result ≤ clock)) }
        ensures in_range { result < 2 ^ 49 }
        ensures stands { StandsForSome self.now }
    {
        self.clocks.earliest(command)
    }

    /// The least of the rules 1 to 3 that fails where the command follows those issued so far at this clock: 1 where the
    /// clock is not above the last one, 2 where a gap is too short, 3 where the window of five ACTs is. `None` exactly
    /// where it may follow.
    pub fn broken(&self, clock: Clock, command: &Command) -> Option<u8>
        ensures least { (t : Timing) (log : Log) → StandsFor self.now t log → result ≡ first_failing 1 (spacing_rules t clock command.now log) }
        ensures none { (t : Timing) (log : Log) → StandsFor self.now t log → (IsNone result ↔ MayFollow t clock command.now log) }
        ensures stands { StandsForSome self.now }
    {
        self.clocks.broken(clock, command)
    }

    /// Adds the command, issued at this clock.
    pub fn issue(&mut self, clock: Clock, command: &Command)
        requires in_range { clock < 2 ^ 48 }
        requires follows { MayIssue self.old clock command.now }
        ensures stands { (t : Timing) (log : Log) → StandsFor self.old t log → MayFollow t clock command.now log
            → StandsFor self.new t (record { clock = clock; command = command.now } ∷ log) }
    {
        self.clocks.issue(clock, command);
    }
}

#[cfg(test)]
mod tests;
