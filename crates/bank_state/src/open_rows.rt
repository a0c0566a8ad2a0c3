//! The open row of each bank.
ghost use Rattle.std.specs.Prelude.{◌≡◌, ℕ, ◌<◌, ◌∷◌, [], IsOk, IsTrue, ◌↔◌, false, ◌||◌, ◌&&◌, length, slice_set, replicate, None};
ghost use Rattle.command_words.specs.Command.{bank_number, is_at};
ghost use Rattle.command_words.specs.Kinds.{effect, is_act, is_rd, is_wr};
ghost use Rattle.speed_bin.specs.Log.{Log, Issued, open_at, open_after};
ghost use Rattle.speed_bin.specs.Rules.{rule_4, rule_5, all_closed};
ghost use Rattle.bank_state.specs.Rows.{row_of};
ghost use Rattle.bank_state.specs.Faults.{fault_of};
ghost use Rattle.bank_state.specs.Standing.{StandsFor, Fits, MayIssue};

use crate::StateFault;
use command_words::{Bank, BankAddr, Command, Row};
use std::marker::Model;

/// The open rows of the banks of a log.
#[derive(Drop)]
pub struct Banks {
    // By the number of the bank. There is room for 8 groups; with 4 the upper half stays closed.
    rows: [Option<Row>; 32],
    // How many banks are open.
    opened: u8,
}

impl Model for Banks {
    ghost use Rattle.std.specs.Prelude.{ℕ, ◌≡◌, List, Option};
    ghost use Rattle.bank_state.specs.Rows.{open_count};

    ghost Value = { List (Option ℕ) };

    ghost view = { λ s. s.rows };

    ghost invariant = { λ s. s.opened ≡ open_count s.rows };
}

impl Banks {
    /// All banks are closed.
    pub fn new() -> Self
        ensures { StandsFor result [] }
    {
        Banks {
            rows: [None; 32],
            opened: 0,
        }
    }

    /// The row that is open in the bank: `None` exactly where the bank is closed.
    #[tactic(auto, unfolding(crate::specs::Standing::StandsFor))]
    pub fn open_row(&self, bank: Bank) -> Option<Row>
        ensures { (log : Log) → StandsFor self.now log → result ≡ open_at (bank_number bank) log }
    {
        self.rows[bank.number() as usize]
    }

    /// Whether no bank has an open row.
    pub fn all_closed(&self) -> bool
        ensures { (log : Log) → StandsFor self.now log → result ≡ all_closed log }
    {
        self.opened == 0
    }

    /// Whether the banks that the command covers are open or closed as it needs them. Precharges and NOP always fit.
    pub fn fits(&self, command: &Command) -> Result<(), StateFault>
        ensures fits { (log : Log) → StandsFor self.now log → (IsOk result ↔ Fits command.now log) }
        ensures is_open { (log : Log) → StandsFor self.now log
            → ((result ≡ Err StateFault.IsOpen) ↔ (IsTrue (is_act command.now) × (rule_4 command.now log ≡ false))) }
        ensures is_closed { (log : Log) → StandsFor self.now log
            → ((result ≡ Err StateFault.IsClosed) ↔ (IsTrue (is_rd command.now || is_wr command.now) × (rule_4 command.now log ≡ false))) }
        ensures not_all_closed { (log : Log) → StandsFor self.now log
            → ((result ≡ Err StateFault.NotAllClosed) ↔ (rule_5 command.now log ≡ false)) }
    {
        if self.is_fit(command) {
            Ok(())
        } else {
            Err(fault_of(command))
        }
    }

    // Whether rules 4 and 5 hold.
    fn is_fit(&self, command: &Command) -> bool
        ensures { (log : Log) → StandsFor self.now log → result ≡ (rule_4 command.now log && rule_5 command.now log) }
    {
        match command {
            Command::Act(bank, _) => self.open_row(*bank).is_none(),
            Command::Rd(bank, _) | Command::Wr(bank, _) => self.open_row(*bank).is_some(),
            Command::RefAb | Command::RfmAb | Command::Mrw(_) | Command::Ecs => self.all_closed(),
            Command::RefSb(address) | Command::RfmSb(address) => self.closed_at(*address),
            Command::PrePb(_) | Command::PreSb(_) | Command::PreAb | Command::Nop => true,
        }
    }

    // Whether each bank with this address is closed.
    fn closed_at(&self, address: BankAddr) -> bool
        ensures { IsTrue result ↔ ((b : ℕ) → b < 32 → IsTrue (is_at address b) → row_of self.now b ≡ None) }
    {
        for group in 0..8 {
            if self.rows[group * 4 + address.get() as usize].is_some() {
                return false;
            }
        }
        true
    }

    // Sets the open row of the bank with this number.
    fn set_row(&mut self, number: usize, row: Option<Row>)
        requires { number < 32 }
        ensures { self.new ≡ slice_set self.old number row }
    {
        if self.rows[number].is_some() {
            self.opened -= 1;
        }
        if row.is_some() {
            self.opened += 1;
        }
        self.rows[number] = row;
    }

    // Closes the banks with this address.
    fn close_at(&mut self, address: BankAddr)
        ensures length { length self.new ≡ length self.old }
        ensures closes { (b : ℕ) → b < 32 → row_of self.new b ≡ open_after (effect b (Command.PreSb address)) (row_of self.old b) }
    {
        for group in 0..8 {
            self.set_row(group * 4 + address.get() as usize, None);
        }
    }

    // Closes all banks.
    fn close_all(&mut self)
        ensures { self.new ≡ replicate 32 None }
    {
        let none = [None; 32];
        self.rows = none;
        self.opened = 0;
    }

    /// Appends the command to the log.
    #[tactic(auto, unfolding(crate::specs::Standing::StandsFor))]
    pub fn issue(&mut self, command: &Command)
        requires { MayIssue self.old command.now }
        ensures { (clock : ℕ) (log : Log) → StandsFor self.old log → Fits command.now log
            → StandsFor self.new (record { clock = clock; command = command.now } ∷ log) }
    {
        match command {
            Command::Act(bank, row) => self.set_row(bank.number() as usize, Some(*row)),
            Command::PrePb(bank) => self.set_row(bank.number() as usize, None),
            Command::PreSb(address) => self.close_at(*address),
            Command::PreAb => self.close_all(),
            Command::Rd(..)
            | Command::Wr(..)
            | Command::RefAb
            | Command::RefSb(_)
            | Command::RfmAb
            | Command::RfmSb(_)
            | Command::Mrw(_)
            | Command::Ecs
            | Command::Nop => {}
        }
    }
}

// The fault of a command that does not fit.
fn fault_of(command: &Command) -> StateFault
    ensures { result ≡ fault_of command.now }
{
    match command {
        Command::Act(..) => StateFault::IsOpen,
        Command::Rd(..) | Command::Wr(..) => StateFault::IsClosed,
        _ => StateFault::NotAllClosed,
    }
}
