//! The activations of all rows: how often each was closed, the alert and the peak.
ghost use Rattle.std.specs.Prelude.{ℕ, [], ◌∷◌, ◌≡◌, ◌<◌, ◌≤◌, IfOk, IsTrue, ◌||◌, length};
ghost use Rattle.backoff.specs.Standing.{StandsFor as AlertFor};
ghost use Rattle.bank_state.specs.Standing.{StandsFor as BanksFor};
ghost use Rattle.command_words.specs.Command.{bank_number};
ghost use Rattle.command_words.specs.Kinds.{effect, is_precharge, is_rfm_all, is_rfm_same};
ghost use Rattle.row_activity.specs.Counted.{AllCounted, MayCount};
ghost use Rattle.row_counts.specs.Held.{HasRow};
ghost use Rattle.speed_bin.specs.Alert.{closes as closes_at, closes_some, is_hot};
ghost use Rattle.speed_bin.specs.Counters.{cnt};
ghost use Rattle.speed_bin.specs.Counts.{peak as peak_of};
ghost use Rattle.speed_bin.specs.Header.{IsAccepted, bound};
ghost use Rattle.speed_bin.specs.Log.{Log, open_at};
ghost use Rattle.speed_bin.specs.declared.header.Header.{Header as AnyHeader};

use crate::bank_rows::{BankRows, Touch};
use backoff::{Alert, laws};
use bank_state::Banks;
use command_words::{Bank, Command, Row};
use ddr_io::OutOfMemory;
use row_counts::laws as counters;
use speed_bin::{Header, Settings};
use std::alloc::Global;

/// The row counters of each bank, the alert and the peak of a log.
#[derive(Drop)]
pub struct Activity {
    // by the number of the bank
    banks: Vec<BankRows>,
    alert: Alert,
    peak: u32,
}

impl Activity {
    ghost use Rattle.row_activity.specs.Standing.{StandsFor, MayIssue, HoldsRow, AreTold, BankFor, Tracks, bank_at};

    /// No counter is above 0, and no alert is raised.
    ///
    /// # Errors
    /// Want of memory.
    #[tactic(auto, unfolding(crate::specs::Standing::StandsFor))]
    pub fn new(alloc: Global, header: &Header) -> Result<Activity, OutOfMemory>
        requires { IsAccepted header.now }
        ensures { IfOk result (λ it. StandsFor it header.now []) }
    {
        let mut banks = Vec::with_capacity(alloc, 32)?;
        for _ in 0..32_usize {
            let rows = BankRows::new(alloc, &header.settings, header.version)?;
            if banks.push(rows).is_err() {
                return Err(OutOfMemory);
            }
        }
        Ok(Activity {
            banks,
            alert: Alert::new(),
            peak: 0,
        })
    }

    /// Appends the command, issued at the clock, to the log. The open rows are those before it. The thresholds are the
    /// header's; before a register write there may be none.
    #[tactic(auto, unfolding(crate::specs::Standing::StandsFor))]
    pub fn issue(
        &mut self,
        clock: u64,
        command: &Command,
        open_rows: &Banks,
        thresholds: Option<Settings>,
    )
        requires { MayIssue self.old open_rows.now clock command.now }
        ensures { (h : AnyHeader) (log : Log) → StandsFor self.old h log → BanksFor open_rows.now log → MayCount h clock command.now log
            → AreTold thresholds h command.now
            → StandsFor self.new h (record { clock = clock; command = command.now } ∷ log) }
    {
        let peak = self.peak_after(clock, command, open_rows);
        self.track(clock, command, open_rows, thresholds);
        self.peak = peak;
    }

    /// The alert of the log.
    #[tactic(auto, unfolding(crate::specs::Standing::StandsFor))]
    pub fn alert(&self) -> &Alert
        ensures { (h : AnyHeader) (log : Log) → StandsFor self.now h log → AlertFor result.now h log }
    {
        &self.alert
    }

    /// The greatest number of activations since mitigation that a row had so far, the activation of an open row
    /// included.
    #[tactic(auto, unfolding(crate::specs::Standing::StandsFor))]
    pub fn peak(&self) -> u32
        ensures peak { (h : AnyHeader) (log : Log) → StandsFor self.now h log → result ≡ peak_of h log }
        ensures bounded { (h : AnyHeader) (log : Log) → StandsFor self.now h log → result ≤ bound h }
    {
        self.peak
    }

    /// How often the row of the bank was closed since its last mitigation. The row is one of the header's.
    pub fn count(&self, bank: Bank, row: Row) -> u32
        requires { HoldsRow self.now row }
        ensures { (h : AnyHeader) (log : Log) → StandsFor self.now h log → result ≡ cnt h (bank_number bank) row log }
    {
        counters::has_rows();
        counters::holds_by_some_log();
        self.count_at(usize::from(bank.number()), row)
    }

    /// A law: the header is accepted, and each command of the log could be counted in its place.
    #[tactic(auto, unfolding(crate::specs::Standing::StandsFor))]
    pub fn log_is_counted()
        ensures accepted { (it : Self) (h : AnyHeader) (log : Log) → StandsFor it h log → IsAccepted h }
        ensures counted { (it : Self) (h : AnyHeader) (log : Log) → StandsFor it h log → AllCounted h log }
    {}

    // The peak after the command.
    fn peak_after(&self, clock: u64, command: &Command, open_rows: &Banks) -> u32
        requires { MayIssue self.now open_rows.now clock command.now }
        ensures { (h : AnyHeader) (log : Log) → StandsFor self.now h log → MayCount h clock command.now log
            → result ≡ peak_of h (record { clock = clock; command = command.now } ∷ log) }
    {
        match command {
            Command::Act(bank, row) => {
                laws::bound();
                let activations = self.count(*bank, *row) + 1;
                activations.max(self.peak)
            }
            Command::Rd(..)
            | Command::Wr(..)
            | Command::PrePb(_)
            | Command::PreSb(_)
            | Command::PreAb
            | Command::RefAb
            | Command::RefSb(_)
            | Command::RfmAb
            | Command::RfmSb(_)
            | Command::Mrw(_)
            | Command::Ecs
            | Command::Nop => self.peak,
        }
    }

    // The counter of the row in the bank with this number.
    fn count_at(&self, number: usize, row: Row) -> u32
        requires bank { number < length self.now.banks.items }
        requires row { HasRow (bank_at self.now.banks.items number).counts row }
        ensures { (h : AnyHeader) (log : Log) → BankFor (bank_at self.now.banks.items number) h number log → result ≡ cnt h number row log }
    {
        self.banks[number].count(row)
    }

    // Whether some counter of the bank with this number is at least ATH.
    fn is_hot_at(&self, number: usize) -> bool
        requires { number < length self.now.banks.items }
        ensures { result ≡ (bank_at self.now.banks.items number).is_hot }
    {
        self.banks[number].is_hot()
    }

    // Whether some counter of some bank is at least ATH.
    fn is_hot(&self) -> bool
        requires { length self.now.banks.items ≡ 32 }
        ensures { (h : AnyHeader) (log : Log) → IsAccepted h → AllCounted h log
            → ((b : ℕ) → b < 32 → BankFor (bank_at self.now.banks.items b) h b log) → result ≡ is_hot h log }
    {
        for number in 0..32 {
            if self.is_hot_at(number) {
                return true;
            }
        }
        false
    }

    // Appends the command to the log of each bank's counters.
    fn follow(&mut self, clock: u64, command: &Command, open_rows: &Banks, thresholds: &Settings)
        requires { MayIssue self.old open_rows.now clock command.now }
        ensures rest { self.new ≡ record self.old { banks = self.new.banks } }
        ensures banks { length self.new.banks.items ≡ 32 }
        ensures follows { (h : AnyHeader) (log : Log) → StandsFor self.old h log → BanksFor open_rows.now log → MayCount h clock command.now log
            → h.settings ≡ thresholds.now
            → (b : ℕ) → b < 32 → BankFor (bank_at self.new.banks.items b) h b (record { clock = clock; command = command.now } ∷ log) }
    {
        laws::bound();
        counters::may_change();
        counters::holds_by_some_log();
        for number in 0..32 {
            let bank = Bank::numbered(number);
            let touch = Touch::of(command, &bank);
            let open_row = open_rows.open_row(bank);
            self.banks[usize::from(number)].follow(touch, open_row, thresholds);
        }
    }

    // The counters and the alert after a precharge.
    fn precharge(&mut self, clock: u64, command: &Command, open_rows: &Banks, thresholds: &Settings)
        requires { MayIssue self.old open_rows.now clock command.now }
        ensures rest { self.new ≡ record self.old { banks = self.new.banks; alert = self.new.alert } }
        ensures banks { length self.new.banks.items ≡ 32 }
        ensures tracks { (h : AnyHeader) (log : Log) → StandsFor self.old h log → BanksFor open_rows.now log → MayCount h clock command.now log
            → h.settings ≡ thresholds.now → IsTrue (is_precharge command.now)
            → Tracks self.new h (record { clock = clock; command = command.now } ∷ log) }
    {
        let closed = closes_some(open_rows, command);
        self.follow(clock, command, open_rows, thresholds);
        let hot = self.is_hot();
        self.alert.after_precharge(clock, hot, closed);
    }

    // The counters and the alert after an RFM.
    fn manage(&mut self, clock: u64, command: &Command, open_rows: &Banks, thresholds: &Settings)
        requires { MayIssue self.old open_rows.now clock command.now }
        ensures rest { self.new ≡ record self.old { banks = self.new.banks; alert = self.new.alert } }
        ensures banks { length self.new.banks.items ≡ 32 }
        ensures tracks { (h : AnyHeader) (log : Log) → StandsFor self.old h log → BanksFor open_rows.now log → MayCount h clock command.now log
            → h.settings ≡ thresholds.now → IsTrue (is_rfm_all command.now || is_rfm_same command.now)
            → Tracks self.new h (record { clock = clock; command = command.now } ∷ log) }
    {
        Alert::stays();
        self.follow(clock, command, open_rows, thresholds);
        if command.is_rfm_all() {
            self.alert.after_rfm_all();
        }
    }

    // The counters and the alert after the command.
    fn track(&mut self, clock: u64, command: &Command, open_rows: &Banks, told: Option<Settings>)
        requires { MayIssue self.old open_rows.now clock command.now }
        ensures rest { self.new ≡ record self.old { banks = self.new.banks; alert = self.new.alert } }
        ensures banks { length self.new.banks.items ≡ 32 }
        ensures tracks { (h : AnyHeader) (log : Log) → StandsFor self.old h log → BanksFor open_rows.now log → MayCount h clock command.now log
            → AreTold told h command.now
            → Tracks self.new h (record { clock = clock; command = command.now } ∷ log) }
    {
        Alert::stays();
        counters::stays();
        let Some(thresholds) = told else {
            return;
        };
        if command.is_precharge() {
            self.precharge(clock, command, open_rows, &thresholds);
        } else if command.is_rfm() {
            self.manage(clock, command, open_rows, &thresholds);
        }
    }
}

// Whether the command closes an open row of some bank.
fn closes_some(open_rows: &Banks, command: &Command) -> bool
    ensures { (log : Log) → BanksFor open_rows.now log → result ≡ closes_some command.now log }
{
    for number in 0..32 {
        if closes(open_rows, command, &Bank::numbered(number)) {
            return true;
        }
    }
    false
}

// Whether the command closes an open row of the bank.
fn closes(open_rows: &Banks, command: &Command, bank: &Bank) -> bool
    ensures { (log : Log) → BanksFor open_rows.now log
        → result ≡ closes_at (effect (bank_number bank.now) command.now) (open_at (bank_number bank.now) log) }
{
    match Touch::of(command, bank) {
        Touch::Counts => open_rows.open_row(*bank).is_some(),
        Touch::Mitigates | Touch::Spares => false,
    }
}
