//! The bus: what was issued to both ranks.
ghost use Rattle.std.specs.Prelude.{◌≡◌, ℕ, ◌+◌, ◌<◌, ◌^◌, [], ◌∷◌, IfOk, ◌↔◌, max};
ghost use Rattle.speed_bin.specs.Header.{IsAccepted};
ghost use Rattle.speed_bin.specs.declared.header.Header.{Header as AnyHeader};
ghost use Rattle.refresh_plan.specs.Debts.{IsNothingDue};
ghost use Rattle.rank_bus.specs.Buses.{BusLog, part, other, IsEarliest};
ghost use Rattle.rank_bus.specs.Service.{IsServedBy};
ghost use Rattle.rank_bus.specs.declared.rank.Rank.TheVariants.{Zero, One};

use crate::sides::Sides;
use crate::{Clock, Rank};
use command_words::Command;
use ddr_io::OutOfMemory;
use speed_bin::Header;
use std::alloc::Global;
use std::marker::Model;

/// Two ranks on one command bus. It stands for one list of commands with their ranks and clocks; the log of a rank is its
/// part of that list. Both ranks have the one header.
#[derive(Drop)]
pub struct Bus {
    sides: Sides,
    // the clock before which no command is issued
    from: Clock,
}

impl Model for Bus {
    ghost use Rattle.rank_bus.specs.Held.{Held};
    ghost use Rattle.rank_bus.specs.Standing.{StandsForSome};

    ghost Value = { Held };

    ghost view = { λ b. record { sides = b.sides; from = b.from } };

    ghost invariant = { λ b. StandsForSome (record { sides = b.sides; from = b.from }) };
}

#[tactic(auto, unfolding(crate::specs::Standing::StandsFor, crate::specs::Standing::now_of))]
impl Bus {
    ghost use Rattle.rank_bus.specs.Standing.{StandsFor, StandsForSome, now_of, Suits, MayIssue};

    /// With no command issued, and `now` 0. This is the only call of a bus that takes memory.
    ///
    /// # Errors
    /// Want of memory.
    pub fn new(alloc: Global, header: &Header) -> Result<Bus, OutOfMemory>
        requires { IsAccepted header.now }
        ensures stands { IfOk result (λ bus. StandsFor bus header.now []) }
        ensures now { IfOk result (λ bus. now_of bus ≡ 0) }
    {
        Ok(Bus {
            sides: Sides::new(alloc, header)?,
            from: 0,
        })
    }

    /// The clock before which no command is issued.
    pub fn now(&self) -> Clock
        ensures now { result ≡ now_of self.now }
        ensures stands { StandsForSome self.now }
    {
        self.from
    }

    /// The least clock, not below `now`, at which the command keeps the rules of spacing after the log of its rank, and the
    /// gaps of the bus to each command of the other one.
    pub fn earliest(&self, rank: Rank, command: &Command) -> Clock
        ensures { (h : AnyHeader) (log : BusLog) → StandsFor self.now h log
            → IsEarliest h (part rank log) (part (other rank) log) (now_of self.now) command.now result }
    {
        self.sides.earliest(rank, command, self.from)
    }

    /// Appends the command at its earliest clock, which it answers; `now` becomes the clock after it. At that clock the
    /// command keeps the rules 4 to 9 after the log of its rank, and the clock is below 2^47.
    pub fn issue(&mut self, rank: Rank, command: &Command) -> Clock
        requires { MayIssue self.old rank command.now }
        ensures earliest { (h : AnyHeader) (log : BusLog) → StandsFor self.old h log
            → IsEarliest h (part rank log) (part (other rank) log) (now_of self.old) command.now result }
        ensures stands { (h : AnyHeader) (log : BusLog) → StandsFor self.old h log → Suits h (part rank log) result command.now
            → StandsFor self.new h (record { rank = rank; clock = result; command = command.now } ∷ log) }
        ensures now { now_of self.new ≡ result + 1 }
        ensures small { result < 2 ^ 47 }
    {
        let clock = self.sides.earliest(rank, command, self.from);
        self.sides.issue(rank, clock, command);
        self.from = clock + 1;
        clock
    }

    /// What the service of the rank needs at `now`: the ECS that is due, else the refresh that is due, else the RFMsb of the
    /// least address for which one is wanted. `None` exactly where it needs nothing.
    pub fn service(&self, rank: Rank) -> Option<Command>
        ensures { (h : AnyHeader) (log : BusLog) → StandsFor self.now h log → IsServedBy h (part rank log) (now_of self.now) result }
    {
        self.sides.service(rank, self.from)
    }

    /// The least clock at which a refresh of some rank is due.
    pub fn next_due(&self) -> Clock
        ensures { (h : AnyHeader) (log : BusLog) (clock : ℕ) → StandsFor self.now h log
            → ((clock < result) ↔ (IsNothingDue h clock (part Zero log) × IsNothingDue h clock (part One log))) }
    {
        self.sides.next_due()
    }

    /// No command comes before this clock: `now` becomes the greater of `now` and the clock.
    pub fn wait(&mut self, clock: Clock)
        requires { clock < 2 ^ 47 }
        ensures stands { (h : AnyHeader) (log : BusLog) → StandsFor self.old h log → StandsFor self.new h log }
        ensures now { now_of self.new ≡ max (now_of self.old) clock }
    {
        self.from = self.from.max(clock);
    }
}
