//! What is known of the commands of one rank.
ghost use Rattle.std.specs.Prelude.{◌≡◌, ℕ, ◌<◌, ◌^◌, [], ◌∷◌, IfOk};
ghost use Rattle.log_ledger.specs.Standing.{Follows};
ghost use Rattle.speed_bin.specs.Header.{IsAccepted};
ghost use Rattle.speed_bin.specs.Log.{Log};
ghost use Rattle.speed_bin.specs.declared.header.Header.{Header as AnyHeader};
ghost use Rattle.rank_bus.specs.Buses.{IsEarliest};
ghost use Rattle.rank_bus.specs.Service.{IsServedBy, IsRefreshDue, IsManaged, refresh_for};
ghost use Rattle.rank_bus.specs.Sides.{SideStandsFor, SideMayIssue};

use crate::Clock;
use crate::clearance::Clearance;
use command_words::Command;
use ddr_io::OutOfMemory;
use log_ledger::Ledger;
use refresh_plan::Due;
use speed_bin::Header;
use std::alloc::Global;

/// The account of the commands of one rank, and what they leave to the other one.
#[derive(Drop)]
pub(crate) struct Side {
    pub ledger: Ledger,
    pub clearance: Clearance,
}

impl Side {
    /// With no command issued.
    pub fn new(alloc: Global, header: &Header) -> Result<Side, OutOfMemory>
        requires { IsAccepted header.now }
        ensures { IfOk result (λ side. SideStandsFor side header.now []) }
    {
        Ok(Side {
            ledger: Ledger::new(alloc, header)?,
            clearance: Clearance::new(),
        })
    }

    /// Appends the command, issued at this clock, to the log of the rank.
    pub fn issue(&mut self, clock: Clock, command: &Command)
        requires small { clock < 2 ^ 48 }
        requires may { SideMayIssue self.old clock command.now }
        ensures { (h : AnyHeader) (log : Log) → SideStandsFor self.old h log → Follows h clock command.now log
            → SideStandsFor self.new h (record { clock = clock; command = command.now } ∷ log) }
    {
        self.ledger.issue(clock, command);
        self.clearance.issue(clock, command);
    }

    /// The ECS that is due, else the refresh that is due at this clock, else the RFMsb that is wanted.
    pub fn service(&self, clock: Clock) -> Option<Command>
        requires { clock < 2 ^ 48 }
        ensures { (h : AnyHeader) (log : Log) → SideStandsFor self.now h log → IsServedBy h log clock result }
    {
        if self.ledger.ecs_due() {
            return Some(Command::Ecs);
        }
        match self.refresh_due(clock) {
            Some(command) => Some(command),
            None => self.managed(),
        }
    }

    // The refresh that is due at this clock.
    fn refresh_due(&self, clock: Clock) -> Option<Command>
        requires { clock < 2 ^ 48 }
        ensures { (h : AnyHeader) (log : Log) → SideStandsFor self.now h log → IsRefreshDue h log clock result }
    {
        match self.ledger.due(clock) {
            Some(due) => Some(refresh_of(due)),
            None => None,
        }
    }

    // The RFMsb that is wanted.
    fn managed(&self) -> Option<Command>
        ensures { (h : AnyHeader) (log : Log) → SideStandsFor self.now h log → IsManaged h log result }
    {
        match self.ledger.wanted() {
            Some(address) => Some(Command::RfmSb(address)),
            None => None,
        }
    }
}

// The command of a refresh.
fn refresh_of(due: Due) -> Command
    ensures { result ≡ refresh_for due }
{
    match due {
        Due::All => Command::RefAb,
        Due::Same(address) => Command::RefSb(address),
    }
}

/// The least clock, not below `from`, at which the command may follow those of its own rank and share the bus with those
/// of the other one.
pub(crate) fn earliest(own: &Side, rest: &Side, command: &Command, from: Clock) -> Clock
    ensures { (h : AnyHeader) (mine others : Log) → SideStandsFor own.now h mine → SideStandsFor rest.now h others
        → IsEarliest h mine others from command.now result }
{
    own.ledger
        .earliest(command)
        .max(rest.clearance.earliest(command))
        .max(from)
}
