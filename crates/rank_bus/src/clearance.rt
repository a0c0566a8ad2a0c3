//! What the commands of a rank leave to the other one.
ghost use Rattle.std.specs.Prelude.{◌≡◌, ℕ, ◌<◌, ◌≤◌, ◌^◌, ◌↔◌, [], ◌∷◌, IsTrue};
ghost use Rattle.speed_bin.specs.Log.{Log};
ghost use Rattle.rank_bus.specs.Buses.{gap_to_any, gap_to_read, gap_to_write, shares};

use crate::Clock;
use command_words::Command;

/// The least clocks that the commands of a rank leave to the other one.
#[derive(Drop)]
pub(crate) struct Clearance {
    // to an RD, to a WR, and to any other command
    read: Clock,
    write: Clock,
    any: Clock,
}

#[tactic(auto, unfolding(crate::specs::Clearing::IsLeftBy))]
impl Clearance {
    ghost use Rattle.rank_bus.specs.Clearing.{IsLeftBy, kept_for};

    /// No command was issued.
    pub fn new() -> Self
        ensures { IsLeftBy result [] }
    {
        Clearance {
            read: 0,
            write: 0,
            any: 0,
        }
    }

    /// The least clock of this command of the other rank, 0 where no command was issued.
    pub fn earliest(&self, command: &Command) -> Clock
        ensures { (log : Log) → IsLeftBy self.now log → (clock : ℕ) → (IsTrue (shares clock command.now log) ↔ (result ≤ clock)) }
    {
        self.kept(command)
    }

    // The clock that is kept for the command.
    fn kept(&self, command: &Command) -> Clock
        ensures { result ≡ kept_for self.now command.now }
    {
        match command {
            Command::Rd(..) => self.read,
            Command::Wr(..) => self.write,
            Command::Act(..)
            | Command::PrePb(_)
            | Command::PreSb(_)
            | Command::PreAb
            | Command::RefAb
            | Command::RefSb(_)
            | Command::RfmAb
            | Command::RfmSb(_)
            | Command::Mrw(_)
            | Command::Ecs
            | Command::Nop => self.any,
        }
    }

    /// Adds the command, issued at this clock.
    pub fn issue(&mut self, clock: Clock, command: &Command)
        requires { clock < 2 ^ 48 }
        ensures { (log : Log) → IsLeftBy self.old log → IsLeftBy self.new (record { clock = clock; command = command.now } ∷ log) }
    {
        self.read = self.read.max(clock + read_gap(command));
        self.write = self.write.max(clock + write_gap(command));
        self.any = self.any.max(clock + any_gap(command));
    }
}

// Any command of the other rank comes so many clocks later at the least: as many as this one has words.
fn any_gap(command: &Command) -> u64
    ensures gap { result ≡ gap_to_any command.now }
    ensures small { result ≤ 2 }
{
    match command {
        Command::Act(..) | Command::Rd(..) | Command::Wr(..) | Command::Mrw(_) => 2,
        Command::PrePb(_)
        | Command::PreSb(_)
        | Command::PreAb
        | Command::RefAb
        | Command::RefSb(_)
        | Command::RfmAb
        | Command::RfmSb(_)
        | Command::Ecs
        | Command::Nop => 1,
    }
}

// An RD of the other rank comes so many clocks later at the least.
fn read_gap(command: &Command) -> u64
    ensures gap { result ≡ gap_to_read command.now }
    ensures small { result ≤ 10 }
{
    match command {
        Command::Rd(..) => 10,
        Command::Wr(..) => 8,
        _ => any_gap(command),
    }
}

// A WR of the other rank comes so many clocks later at the least.
fn write_gap(command: &Command) -> u64
    ensures gap { result ≡ gap_to_write command.now }
    ensures small { result ≤ 12 }
{
    match command {
        Command::Rd(..) => 12,
        Command::Wr(..) => 10,
        _ => any_gap(command),
    }
}
