//! What the controller knows of its log.
ghost use Rattle.std.specs.Prelude.{◌≡◌, ℕ, ◌+◌, ◌<◌, ◌≤◌, ◌^◌, ◌&&◌, List, [], ◌∷◌, length, min, IfOk, IsTrue, ◌↔◌, false};
ghost use Rattle.command_words.specs.Command.{covers};
ghost use Rattle.speed_bin.specs.Header.{IsAccepted};
ghost use Rattle.command_words.specs.Kinds.{effect, Closes};
ghost use Rattle.speed_bin.specs.Log.{Log};
ghost use Rattle.speed_bin.specs.declared.header.Header.{Header as AnyHeader};
ghost use Rattle.bank_state.specs.Standing.{Fits};
ghost use Rattle.requests.specs.Choice.{IsSoonest};
ghost use Rattle.requests.specs.Owed.{is_column, owed_after};
ghost use Rattle.scheduler.specs.Ledger.{StandsFor, Suits, MayIssue, owes};

use crate::Clock;
use command_words::Command;
use ddr_io::OutOfMemory;
use log_ledger::Ledger as LogLedger;
use speed_bin::Header;
use std::alloc::Global;

/// The ledger of the log, and what the policy needs beside it.
#[derive(Drop)]
pub(crate) struct Ledger {
    /// What the rules say of the log.
    pub log: LogLedger,
    /// Which banks are owed: those with no RD or WR since their ACT.
    pub owed: [bool; 32],
    /// How many places the log has, up to 8.
    pub written: usize,
    /// The least clock of the next command: the last one's and 1, or a later one.
    pub from: Clock,
}

impl Ledger {
    /// With no command issued.
    pub fn new(alloc: Global, header: &Header) -> Result<Ledger, OutOfMemory>
        requires { IsAccepted header.now }
        ensures stands { IfOk result (λ ledger. StandsFor ledger header.now []) }
        ensures from { IfOk result (λ ledger. ledger.from ≡ 0) }
    {
        Ok(Ledger {
            log: LogLedger::new(alloc, header)?,
            owed: [false; 32],
            written: 0,
            from: 0,
        })
    }

    /// The e of a command: the least clock that the rules of spacing allow and that is not below `from`.
    pub fn soonest(&self, command: &Command) -> Clock
        ensures { (h : AnyHeader) (log : Log) → StandsFor self.now h log → IsSoonest h log self.now.from command.now result }
    {
        self.log.earliest(command).max(self.from)
    }

    /// Whether the banks that the command covers are open or closed as it needs them.
    pub fn fits(&self, command: &Command) -> bool
        ensures { (h : AnyHeader) (log : Log) → StandsFor self.now h log → (IsTrue result ↔ Fits command.now log) }
    {
        self.log.fits(command).is_ok()
    }

    /// No command comes before this clock.
    pub fn wait_until(&mut self, clock: Clock)
        requires { self.old.from ≤ clock }
        ensures stands { (h : AnyHeader) (log : Log) → StandsFor self.old h log → StandsFor self.new h log }
        ensures from { self.new ≡ record self.old { from = clock } }
    {
        self.from = clock;
    }

    /// Appends a place to the log.
    pub fn issue(&mut self, clock: Clock, command: &Command)
        requires small { clock < 2 ^ 48 }
        requires may { MayIssue self.old clock command.now }
        ensures stands { (h : AnyHeader) (log : Log) → StandsFor self.old h log → Suits self.old h log clock command.now
            → StandsFor self.new h (record { clock = clock; command = command.now } ∷ log) }
        ensures from { self.new.from ≡ clock + 1 }
    {
        self.log.issue(clock, command);
        self.note(command);
        self.written = (self.written + 1).min(8);
        self.from = clock + 1;
    }

    // An ACT owes its bank a column, and the column pays it. No precharge closes an owed bank.
    fn note(&mut self, command: &Command)
        ensures owed { (b : ℕ) → b < 32 → (effect b command.now ≡ Closes → owes self.old.owed b ≡ false)
            → owes self.new.owed b ≡ owed_after (effect b command.now) (is_column command.now && covers command.now b) (owes self.old.owed b) }
        ensures rest { self.new ≡ record self.old { owed = self.new.owed } }
    {
        match command {
            Command::Act(bank, _) => self.owed[bank.number() as usize] = true,
            Command::Rd(bank, _) | Command::Wr(bank, _) => {
                self.owed[bank.number() as usize] = false;
            }
            Command::PrePb(_)
            | Command::PreSb(_)
            | Command::PreAb
            | Command::RefAb
            | Command::RefSb(_)
            | Command::RfmAb
            | Command::RfmSb(_)
            | Command::Mrw(_)
            | Command::Ecs
            | Command::Nop => {}
        }
    }
}
