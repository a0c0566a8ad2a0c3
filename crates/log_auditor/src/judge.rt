//! What the lines taken so far keep of the rules of a log.
ghost use Rattle.std.specs.Prelude.{ℕ, ◌≡◌, ◌<◌, ◌≤◌, ◌^◌, ◌∷◌, [], ◌&&◌, false, true, None, IfOk, is_none, length, nat_le, slice_get};
ghost use Rattle.command_words.specs.declared.command.Command.{Command as AnyCommand};
ghost use Rattle.ddr_text.specs.AcceptedReport.{IsReportLine};
ghost use Rattle.speed_bin.specs.Alert.{alert};
ghost use Rattle.speed_bin.specs.Counters.{acts};
ghost use Rattle.speed_bin.specs.Header.{IsAccepted, bound as bound_of};
ghost use Rattle.speed_bin.specs.Log.{Log};
ghost use Rattle.speed_bin.specs.Rules.{first_failing, all_closed, is_write, rule_14, verdict_at_end};
ghost use Rattle.speed_bin.specs.Timing.{IsTiming};
ghost use Rattle.speed_bin.specs.declared.header.Header.{Header as AnyHeader};
ghost use Rattle.bank_state.specs.Standing.{StandsFor as BanksFor};
ghost use Rattle.row_activity.specs.Counted.{MayCount};
ghost use Rattle.row_activity.specs.Standing.{StandsFor as ActivityFor, MayIssue};
ghost use Rattle.log_auditor.specs.Groups.{first_broken, first_broken_at_end};
ghost use Rattle.log_ledger.specs.Standing.{Follows};
ghost use Rattle.log_auditor.specs.Auditing.{told, told_state, is_ended, is_open as is_open_state, write_of as write_in};

use crate::rules::{alert_rule, failing, management_rule, until};
use crate::{Rule, Verdict};
use arrayvec::ArrayVec;
use backoff::laws::bound;
use bank_state::Banks;
use command_words::{Command, Geometry, Mrw};
use ddr_io::OutOfMemory;
use ddr_text::ReportLine;
use log_ledger::Ledger;
use mode_registers::writes;
use row_activity::Activity;
use speed_bin::{Header, Settings, Timing};
use std::alloc::Global;

/// The parts that judge one group of rules each, and the verdict so far.
#[derive(Drop)]
pub(crate) struct Judge {
    timing: Timing,
    geometry: Geometry,
    settings: Settings,
    // The register writes that a log begins with.
    writes: ArrayVec<Mrw, 8>,
    // How many commands were taken, and 8 where there were more.
    places: usize,
    ledger: Ledger,
    activity: Activity,
    state: State,
}

/// How far an audit is.
#[derive(Clone, Copy, Debug, PartialEq, Eq)]
pub(crate) enum State {
    /// No rule was broken, and no end was taken.
    Open,
    /// This rule was broken.
    Broken(Rule),
    /// The end was taken, and no rule was broken.
    Ended,
}

impl Judge {
    ghost use Rattle.log_auditor.specs.Auditing.{IsSound, Kept, Parts, Keeps, StandsFor, Taken, geometry_of};

    // With no line taken.
    #[tactic(auto, unfolding(crate::specs::Auditing::StandsFor))]
    pub(crate) fn new(alloc: Global, header: &Header) -> Result<Judge, OutOfMemory>
        requires { IsAccepted header.now }
        ensures stands { IfOk result (λ it. StandsFor it header.now []) }
        ensures timing { IfOk result (λ it. IsTiming it.timing) }
    {
        let ledger = Ledger::new(alloc, header)?;
        let activity = Activity::new(alloc, header)?;
        Ok(Judge {
            timing: header.timing,
            geometry: header.geometry(),
            settings: header.settings,
            writes: writes(&header.settings),
            places: 0,
            ledger,
            activity,
            state: State::Open,
        })
    }

    // The shape of the subchannel.
    pub(crate) fn geometry(&self) -> Geometry
        ensures { result ≡ geometry_of self.now }
    {
        self.geometry
    }

    // Whether an end was taken, and no rule was broken.
    pub(crate) fn has_ended(&self) -> bool
        ensures { result ≡ is_ended self.now.state }
    {
        match self.state {
            State::Open => false,
            State::Broken(_) => false,
            State::Ended => true,
        }
    }

    // Takes the next line.
    #[tactic(auto, unfolding(crate::specs::Auditing::StandsFor))]
    pub(crate) fn take(&mut self, line: &ReportLine) -> Verdict
        requires sound { IsSound self.old }
        requires going_on { is_ended self.old.state ≡ false }
        requires inside { IsReportLine (geometry_of self.old) line.now }
        ensures kept { Kept line.now self.old self.new }
        ensures so_far { result ≡ told_state self.new.state }
        ensures taken { (h : AnyHeader) (log : Log) → StandsFor self.old h log → Taken line.now self.new h log result }
        ensures bounded { (h : AnyHeader) (log : Log) (b row : ℕ) → StandsFor self.new h log → result ≡ Verdict.Fine → b < 32 → row < h.settings.rows
            → acts h b row log ≤ bound_of h }
    {
        bound();
        match line {
            ReportLine::Issued(clock, command) => self.take_command(*clock, command),
            ReportLine::End(clock) => self.take_end(*clock),
            ReportLine::Value(_, _, _, _) => {}
            ReportLine::Flip(_, _, _, _) => {}
            ReportLine::Stat(_, _) => {}
            ReportLine::Refused(_, _) => {}
        }
        self.verdict()
    }

    // What the state says.
    fn verdict(&self) -> Verdict
        ensures { result ≡ told_state self.now.state }
    {
        match self.state {
            State::Open => Verdict::Fine,
            State::Broken(rule) => Verdict::Breaks(rule),
            State::Ended => Verdict::Fine,
        }
    }

    fn is_open(&self) -> bool
        ensures { result ≡ is_open_state self.now.state }
    {
        match self.state {
            State::Open => true,
            State::Broken(_) => false,
            State::Ended => false,
        }
    }

    // Takes a command.
    fn take_command(&mut self, clock: u64, command: &Command)
        requires sound { IsSound self.old }
        requires inside { IsReportLine (geometry_of self.old) (ReportLine.Issued clock command.now) }
        ensures keeps { (h : AnyHeader) (log : Log) → Keeps self.old h log → Keeps self.new h (record { clock = clock; command = command.now } ∷ log) }
        ensures timing { self.new.timing ≡ self.old.timing }
        ensures geometry { self.new.geometry ≡ self.old.geometry }
        ensures stays { is_open_state self.old.state ≡ false → self.new.state ≡ self.old.state }
        ensures going_on { is_ended self.old.state ≡ false → is_ended self.new.state ≡ false }
    {
        if self.is_open() {
            match self.broken(clock, command) {
                Some(number) => self.state = State::Broken(Rule(number)),
                None => self.append(clock, command),
            }
        }
    }

    // Takes the end.
    fn take_end(&mut self, clock: u64)
        requires in_range { clock < 2 ^ 48 }
        requires timing { IsTiming self.old.timing }
        ensures verdict { (h : AnyHeader) (log : Log) → Keeps self.old h log → told_state self.new.state ≡ told (verdict_at_end h clock log) }
        ensures timing { self.new.timing ≡ self.old.timing }
        ensures geometry { self.new.geometry ≡ self.old.geometry }
        ensures stays { is_open_state self.old.state ≡ false → self.new.state ≡ self.old.state }
        ensures shut { is_open_state self.new.state ≡ false }
    {
        if self.is_open() {
            match self.broken_at_end(clock) {
                Some(rule) => self.state = State::Broken(Rule(rule)),
                None => self.state = State::Ended,
            }
        }
    }

    // Appends a command that breaks no rule.
    fn append(&mut self, clock: u64, command: &Command)
        requires in_range { clock < 2 ^ 48 }
        requires may { ∥ ((h : AnyHeader) × (log : Log) × Parts self.old h log × MayCount h clock command.now log × Follows h clock command.now log) ∥₁ }
        ensures parts { (h : AnyHeader) (log : Log) → Parts self.old h log → MayCount h clock command.now log → Follows h clock command.now log
            → Parts self.new h (record { clock = clock; command = command.now } ∷ log) }
        ensures timing { self.new.timing ≡ self.old.timing }
        ensures geometry { self.new.geometry ≡ self.old.geometry }
        ensures state { self.new.state ≡ self.old.state }
    {
        let rows = self.ledger.open_rows();
        count(&mut self.activity, clock, command, rows, &self.settings);
        self.ledger.issue(clock, command);
        if self.places < 8 {
            self.places += 1;
        }
    }

    // The least rule that the command breaks.
    fn broken(&self, clock: u64, command: &Command) -> Option<u8>
        requires in_range { clock < 2 ^ 48 }
        requires timing { IsTiming self.now.timing }
        ensures { (h : AnyHeader) (log : Log) → Parts self.now h log → result ≡ first_broken h clock command.now log }
    {
        let raised = self.activity.alert().raised().is_some();
        self.ledger
            .broken(clock, command)
            .or(management_rule(&self.ledger, raised, command))
            .or(alert_rule(self.activity.alert(), &self.timing, clock, command))
            .or(self.write_rule(command))
    }

    // The least rule that an end breaks.
    fn broken_at_end(&self, clock: u64) -> Option<u8>
        requires in_range { clock < 2 ^ 48 }
        requires timing { IsTiming self.now.timing }
        ensures { (h : AnyHeader) (log : Log) → Parts self.now h log → result ≡ first_broken_at_end h clock log }
    {
        let in_time = until(clock, self.activity.alert().deadline(&self.timing));
        failing(self.ledger.is_later(clock), 1)
            .or(failing(self.ledger.allowed_at_end(clock), 6))
            .or(failing(in_time, 13))
            .or(failing(self.is_complete(), 14))
    }

    // Whether the register writes were made, all banks are closed, and no alert is raised.
    fn is_complete(&self) -> bool
        ensures { (h : AnyHeader) (log : Log) → Parts self.now h log → result ≡ (nat_le 8 (length log) && (all_closed log && is_none (alert h log))) }
    {
        let closed = self.ledger.all_closed();
        let calm = self.activity.alert().raised().is_none();
        8 <= self.places && closed && calm
    }

    // Rule 14: the register writes come first, and no other.
    fn write_rule(&self, command: &Command) -> Option<u8>
        ensures { (h : AnyHeader) (log : Log) → Parts self.now h log → result ≡ first_failing 14 (rule_14 h command.now log ∷ []) }
    {
        let holds = match write_of(command) {
            Some(write) => self.is_due(write),
            None => 8 <= self.places,
        };
        failing(holds, 14)
    }

    // Whether the write is the one that is due.
    fn is_due(&self, write: Mrw) -> bool
        ensures { result ≡ is_write write (slice_get self.now.writes.items self.now.places) }
    {
        match self.writes.get(self.places) {
            Some(due) => write.address == due.address && write.value == due.value,
            None => false,
        }
    }
}

// Counts a command under these settings, where these are the open rows before it.
fn count(
    activity: &mut Activity,
    clock: u64,
    command: &Command,
    open_rows: &Banks,
    settings: &Settings,
)
    requires { MayIssue activity.old open_rows.now clock command.now }
    ensures { (h : AnyHeader) (log : Log) → ActivityFor activity.old h log → BanksFor open_rows.now log → MayCount h clock command.now log
        → settings.now ≡ h.settings
        → ActivityFor activity.new h (record { clock = clock; command = command.now } ∷ log) }
{
    activity.issue(clock, command, open_rows, Some(*settings));
}

// The register write that the command is, if it is one.
fn write_of(command: &Command) -> Option<Mrw>
    ensures { result ≡ write_in command.now }
{
    match command {
        Command::Mrw(write) => Some(*write),
        _ => None,
    }
}
