//! Both ranks of a bus.
ghost use Rattle.std.specs.Prelude.{◌≡◌, ℕ, ◌<◌, ◌^◌, [], ◌∷◌, IfOk, IsTrue, ◌↔◌};
ghost use Rattle.log_ledger.specs.Standing.{Follows};
ghost use Rattle.refresh_plan.specs.Debts.{IsNothingDue};
ghost use Rattle.speed_bin.specs.Header.{IsAccepted};
ghost use Rattle.speed_bin.specs.declared.header.Header.{Header as AnyHeader};
ghost use Rattle.rank_bus.specs.Buses.{BusLog, IsEarliest, other, part, shares};
ghost use Rattle.rank_bus.specs.Service.{IsServedBy};
ghost use Rattle.rank_bus.specs.Sides.{MayIssueTo, SidesStandFor};
ghost use Rattle.rank_bus.specs.declared.rank.Rank.TheVariants.{Zero, One};

use crate::side::{Side, earliest};
use crate::{Clock, Rank};
use command_words::Command;
use ddr_io::OutOfMemory;
use speed_bin::Header;
use std::alloc::Global;

/// The two sides of a bus.
#[derive(Drop)]
pub(crate) struct Sides {
    pub zero: Side,
    pub one: Side,
}

impl Sides {
    /// With no command issued.
    pub fn new(alloc: Global, header: &Header) -> Result<Sides, OutOfMemory>
        requires { IsAccepted header.now }
        ensures { IfOk result (λ sides. SidesStandFor sides header.now []) }
    {
        Ok(Sides {
            zero: Side::new(alloc, header)?,
            one: Side::new(alloc, header)?,
        })
    }

    /// The least clock, not below `from`, at which the command of this rank may follow those of its own rank and share the
    /// bus with those of the other one.
    pub fn earliest(&self, rank: Rank, command: &Command, from: Clock) -> Clock
        ensures { (h : AnyHeader) (log : BusLog) → SidesStandFor self.now h log
            → IsEarliest h (part rank log) (part (other rank) log) from command.now result }
    {
        match rank {
            Rank::Zero => earliest(&self.zero, &self.one, command, from),
            Rank::One => earliest(&self.one, &self.zero, command, from),
        }
    }

    /// Appends the command of this rank, issued at this clock.
    pub fn issue(&mut self, rank: Rank, clock: Clock, command: &Command)
        requires small { clock < 2 ^ 48 }
        requires may { MayIssueTo rank self.old clock command.now }
        ensures { (h : AnyHeader) (log : BusLog) → SidesStandFor self.old h log → Follows h clock command.now (part rank log)
            → IsTrue (shares clock command.now (part (other rank) log))
            → SidesStandFor self.new h (record { rank = rank; clock = clock; command = command.now } ∷ log) }
    {
        match rank {
            Rank::Zero => self.zero.issue(clock, command),
            Rank::One => self.one.issue(clock, command),
        }
    }

    /// What the service of the rank needs at this clock.
    pub fn service(&self, rank: Rank, clock: Clock) -> Option<Command>
        requires { clock < 2 ^ 48 }
        ensures { (h : AnyHeader) (log : BusLog) → SidesStandFor self.now h log → IsServedBy h (part rank log) clock result }
    {
        match rank {
            Rank::Zero => self.zero.service(clock),
            Rank::One => self.one.service(clock),
        }
    }

    /// The least clock at which a refresh of some rank is due.
    pub fn next_due(&self) -> Clock
        ensures { (h : AnyHeader) (log : BusLog) (clock : ℕ) → SidesStandFor self.now h log
            → ((clock < result) ↔ (IsNothingDue h clock (part Zero log) × IsNothingDue h clock (part One log))) }
    {
        self.zero.ledger.next_due().min(self.one.ledger.next_due())
    }
}
