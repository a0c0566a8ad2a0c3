//! What the first ten rules say of a log: spacing, open banks, refreshes and scrubs, rolling counts.
ghost use Rattle.std.specs.Prelude.{ℕ, ◌≡◌, ◌≢◌, ◌/◌, ◌<◌, ◌≤◌, ◌^◌, ◌||◌, ◌∷◌, [], ◌↔◌, IsTrue, IsOk, IsNone, IfOk, IfSome, false};
ghost use Rattle.command_words.specs.Command.{bank_number};
ghost use Rattle.command_words.specs.Kinds.{is_act, is_rd, is_wr};
ghost use Rattle.command_words.specs.declared.command.Command.{Command as AnyCommand};
ghost use Rattle.speed_bin.specs.Below.{all_below};
ghost use Rattle.speed_bin.specs.Header.{IsAccepted};
ghost use Rattle.speed_bin.specs.Log.{Log, open_at, raa, refs, scrubs};
ghost use Rattle.speed_bin.specs.Rules.{MayFollow, all_closed, is_on_time, is_wanted, rule_1, rule_4, rule_5, rule_9, rule_10};
ghost use Rattle.speed_bin.specs.declared.header.Header.{Header as AnyHeader};
ghost use Rattle.bank_state.specs.Standing.{Fits, StandsFor as BanksFor};
ghost use Rattle.refresh_plan.specs.Debts.{IsNothingDue, IsDueFirst};
ghost use Rattle.refresh_plan.specs.Standing.{IsAllowed};

use crate::parts::bank_rule;
use bank_state::{Banks, StateFault};
use command_words::{Bank, BankAddr, Command, Row};
use ddr_io::OutOfMemory;
use refresh_plan::{Due, Plan};
use rfm_counts::Raa;
use speed_bin::{Header, RefreshMode};
use std::alloc::Global;
use std::marker::Model;
use timing_rules::{Clock, Gate};

/// The account of the commands that were issued so far, by the parts that keep it. It keeps no list of them, and yet
/// there is always one for which it stands, under some header.
///
/// Each question is answered for the log that it stands for; `docs/RULES.md` has the rules by number.
#[derive(Drop)]
pub struct Ledger {
    gate: Gate,
    banks: Banks,
    plan: Plan,
    raa: Raa,
}

impl Model for Ledger {
    ghost use Rattle.log_ledger.specs.Held.{Held};
    ghost use Rattle.log_ledger.specs.Standing.{StandsForSome};

    ghost Value = { Held };

    ghost view = { λ l. record { gate = l.gate; banks = l.banks; plan = l.plan; raa = l.raa } };

    ghost invariant = { λ l. StandsForSome (record { gate = l.gate; banks = l.banks; plan = l.plan; raa = l.raa }) };
}

#[tactic(auto, unfolding(crate::specs::Standing::StandsFor))]
impl Ledger {
    ghost use Rattle.log_ledger.specs.Standing.{StandsFor, StandsForSome, Follows, MayIssue, first_of_ten};

    /// With no command issued, under an accepted header.
    ///
    /// # Errors
    /// Want of memory.
    pub fn new(alloc: Global, header: &Header) -> Result<Ledger, OutOfMemory>
        requires { IsAccepted header.now }
        ensures { IfOk result (λ ledger. StandsFor ledger header.now []) }
    {
        let gate = Gate::new(alloc, &header.timing)?;
        Ok(Ledger {
            gate,
            banks: Banks::new(),
            plan: Plan::new(header),
            raa: Raa::new(&header.settings),
        })
    }

    /// Appends the command, issued at this clock. It keeps the rules 1 to 9.
    pub fn issue(&mut self, clock: Clock, command: &Command)
        requires in_range { clock < 2 ^ 48 }
        requires may { MayIssue self.old clock command.now }
        ensures stands { (h : AnyHeader) (log : Log) → StandsFor self.old h log → Follows h clock command.now log
            → StandsFor self.new h (record { clock = clock; command = command.now } ∷ log) }
    {
        self.gate.issue(clock, command);
        self.banks.issue(command);
        self.plan.issue(clock, command);
        self.raa.issue(command);
    }

    /// The least of the rules 1 to 10 that the command breaks at this clock; `None` where it breaks none of them. The
    /// alert's share in an RFMab, and the rules of the alert and of register writes, are not the ledger's.
    pub fn broken(&self, clock: Clock, command: &Command) -> Option<u8>
        requires { clock < 2 ^ 48 }
        ensures least { (h : AnyHeader) (log : Log) → StandsFor self.now h log → result ≡ first_of_ten h clock command.now log }
        ensures none { (h : AnyHeader) (log : Log) → StandsFor self.now h log
            → (IsNone result ↔ (Follows h clock command.now log × IsTrue (rule_10 h command.now log))) }
        ensures stands { StandsForSome self.now }
    {
        self.gate
            .broken(clock, command)
            .or(bank_rule(&self.banks, command))
            .or(self.plan.broken(command, clock))
            .or(self.raa.broken(command))
    }

    // ---- Spacing

    /// The least clock at which the command may follow those issued so far under the rules 1 to 3; 0 where there are none.
    pub fn earliest(&self, command: &Command) -> Clock
        ensures least { (h : AnyHeader) (log : Log) → StandsFor self.now h log → (clock : ℕ) → (MayFollow h.timing clock command.now log ↔ (result ≤ clock)) }
        ensures in_range { result < 2 ^ 49 }
        ensures stands { StandsForSome self.now }
    {
        self.gate.earliest(command)
    }

    /// Whether the clock is above those of all commands.
    pub fn is_later(&self, clock: Clock) -> bool
        ensures { (h : AnyHeader) (log : Log) → StandsFor self.now h log → result ≡ rule_1 clock log }
    {
        self.gate.broken(clock, &Command::Nop) != Some(1)
    }

    // ---- Open banks

    /// The row that is open in the bank: `None` exactly where the bank is closed.
    pub fn open_row(&self, bank: Bank) -> Option<Row>
        ensures { (h : AnyHeader) (log : Log) → StandsFor self.now h log → result ≡ open_at (bank_number bank) log }
    {
        self.banks.open_row(bank)
    }

    /// The open rows of all banks.
    pub fn open_rows(&self) -> &Banks
        ensures { (h : AnyHeader) (log : Log) → StandsFor self.now h log → BanksFor result.now log }
    {
        &self.banks
    }

    /// Whether no bank has an open row.
    pub fn all_closed(&self) -> bool
        ensures { (h : AnyHeader) (log : Log) → StandsFor self.now h log → result ≡ all_closed log }
    {
        self.banks.all_closed()
    }

    /// Whether the banks that the command covers are open or closed as it needs them, by the rules 4 and 5.
    ///
    /// # Errors
    /// What is wrong with them.
    pub fn fits(&self, command: &Command) -> Result<(), StateFault>
        ensures fits { (h : AnyHeader) (log : Log) → StandsFor self.now h log → (IsOk result ↔ Fits command.now log) }
        ensures is_open { (h : AnyHeader) (log : Log) → StandsFor self.now h log
            → ((result ≡ Err StateFault.IsOpen) ↔ (IsTrue (is_act command.now) × (rule_4 command.now log ≡ false))) }
        ensures is_closed { (h : AnyHeader) (log : Log) → StandsFor self.now h log
            → ((result ≡ Err StateFault.IsClosed) ↔ (IsTrue (is_rd command.now || is_wr command.now) × (rule_4 command.now log ≡ false))) }
        ensures not_all_closed { (h : AnyHeader) (log : Log) → StandsFor self.now h log
            → ((result ≡ Err StateFault.NotAllClosed) ↔ (rule_5 command.now log ≡ false)) }
    {
        self.banks.fits(command)
    }

    // ---- Refreshes and scrubs

    /// Whether the command keeps the rules 6 to 8 at this clock: afterwards each refresh debt is within 4, the refreshes
    /// of the addresses differ by at most 1, and the ECS commands keep step with the refreshes of address 0.
    pub fn allowed(&self, clock: Clock, command: &Command) -> bool
        requires { clock < 2 ^ 48 }
        ensures { (h : AnyHeader) (log : Log) → StandsFor self.now h log → (IsTrue result ↔ IsAllowed h clock command.now log) }
    {
        self.plan.allowed(command, clock)
    }

    /// Whether the log may end at this clock as far as refreshes are concerned: each debt is within 4.
    pub fn allowed_at_end(&self, clock: Clock) -> bool
        requires { clock < 2 ^ 48 }
        ensures { (h : AnyHeader) (log : Log) → StandsFor self.now h log
            → result ≡ all_below 4 (λ address. is_on_time h clock address log) }
    {
        self.plan.allowed_at_end(clock)
    }

    /// The refresh that is due at this clock, where a debt is 2 or more. In the mode of same-bank refreshes it is that of
    /// the greatest debt, and of the least such address.
    pub fn due(&self, clock: Clock) -> Option<Due>
        requires { clock < 2 ^ 48 }
        ensures none { (h : AnyHeader) (log : Log) → StandsFor self.now h log → (IsNone result ↔ IsNothingDue h clock log) }
        ensures all { (h : AnyHeader) (log : Log) → StandsFor self.now h log → h.settings.refresh ≡ RefreshMode.All
            → IfSome result (λ due. due ≡ Due.All) }
        ensures same { (h : AnyHeader) (log : Log) → StandsFor self.now h log → h.settings.refresh ≡ RefreshMode.Same
            → IfSome result (λ due. IsDueFirst h clock log due) }
    {
        self.plan.due(clock)
    }

    /// The least clock at which a refresh is due.
    pub fn next_due(&self) -> Clock
        ensures { (h : AnyHeader) (log : Log) (clock : ℕ) → StandsFor self.now h log
            → ((clock < result) ↔ IsNothingDue h clock log) }
    {
        self.plan.next_due()
    }

    /// Whether an ECS is due: fewer stand in the log than its refreshes of address 0 allow.
    pub fn ecs_due(&self) -> bool
        ensures { (h : AnyHeader) (log : Log) → StandsFor self.now h log
            → (IsTrue result ↔ ((h.settings.ecs_every ≢ 0) × (scrubs log < refs 0 log / h.settings.ecs_every))) }
    {
        self.plan.ecs_due()
    }

    // ---- Rolling counts

    /// The rolling activation count of the bank.
    pub fn count(&self, bank: Bank) -> u32
        ensures { (h : AnyHeader) (log : Log) → StandsFor self.now h log → result ≡ raa h (bank_number bank) log }
    {
        self.raa.count(bank)
    }

    /// Whether an ACT of the bank keeps rule 9: its count is below RAAMMT.
    pub fn may_activate(&self, bank: Bank) -> bool
        ensures below { (h : AnyHeader) (log : Log) → StandsFor self.now h log
            → (IsTrue result ↔ (raa h (bank_number bank) log < h.settings.raammt)) }
        ensures rule { (h : AnyHeader) (log : Log) (row : ℕ) → StandsFor self.now h log
            → result ≡ rule_9 h (AnyCommand.Act bank row) log }
    {
        self.raa.may_activate(bank)
    }

    /// The least address with a bank at RAAIMT or more, for which an RFMsb is wanted.
    pub fn wanted(&self) -> Option<BankAddr>
        ensures none { (h : AnyHeader) (log : Log) → StandsFor self.now h log
            → (IsNone result ↔ (is_wanted h AnyCommand.RfmAb log ≡ false)) }
        ensures wanted { (h : AnyHeader) (log : Log) → StandsFor self.now h log
            → IfSome result (λ address. IsTrue (is_wanted h (AnyCommand.RfmSb address) log)) }
        ensures least { (h : AnyHeader) (log : Log) → StandsFor self.now h log
            → IfSome result (λ address. (other : ℕ) → other < address → is_wanted h (AnyCommand.RfmSb other) log ≡ false) }
    {
        self.raa.wanted()
    }
}
