//! What the lines taken so far keep of the judged rules of a log.
ghost use Rattle.std.specs.Prelude.{ℕ, suc, min, ◌≡◌, ◌<◌, ◌≤◌, ◌^◌, ◌∷◌, [], false, true, IfOk};
ghost use Rattle.ddr_text.specs.AcceptedReport.{IsReportLine};
ghost use Rattle.log_auditor.specs.Auditing.{told};
ghost use Rattle.speed_bin.specs.Counters.{acts};
ghost use Rattle.speed_bin.specs.Header.{IsAccepted, bound as bound_of};
ghost use Rattle.speed_bin.specs.Log.{Log};
ghost use Rattle.speed_bin.specs.Timing.{IsTiming};
ghost use Rattle.speed_bin.specs.declared.header.Header.{Header as AnyHeader};
ghost use Rattle.judged_logs.specs.Auditing.{told_state, is_ended, is_open as is_open_state};
ghost use Rattle.judged_logs.specs.Verdicts.{broken, broken_at_end, is_complete, verdict_at_end};
ghost use Rattle.judged_logs.specs.declared.judged.Judged.{Judged as AnyJudged};

use crate::groups::{
    backoff_rule, bank_rule, count_rule, failing, is_calm, is_in_time, is_later, is_refreshed,
    passes, refresh_rule, write_rule,
};
use crate::parts::{activity_where, count_next, plan_next, plan_where};
use crate::rolling::Rolling;
use crate::{Judged, Rule, Verdict};
use arrayvec::ArrayVec;
use backoff::laws::bound;
use bank_state::Banks;
use command_words::{Command, Geometry, Mrw};
use ddr_io::OutOfMemory;
use ddr_text::ReportLine;
use mode_registers::writes;
use refresh_plan::Plan;
use row_activity::Activity;
use speed_bin::{Header, Settings, Timing};
use std::alloc::Global;
use timing_rules::Gate;

/// The parts that judge one group of rules each, and the verdict so far.
#[derive(Drop)]
pub(crate) struct Judge {
    judged: Judged,
    timing: Timing,
    geometry: Geometry,
    settings: Settings,
    // The register writes that a log begins with.
    writes: ArrayVec<Mrw, 8>,
    // How many commands were taken, and 8 where there were more.
    places: usize,
    gate: Gate,
    banks: Banks,
    // There where refreshes are judged.
    plan: Option<Plan>,
    rolling: Rolling,
    // There where the alert is judged.
    activity: Option<Activity>,
    state: State,
}

/// How far an audit is.
#[derive(Clone, Copy, Debug, PartialEq, Eq)]
pub(crate) enum State {
    /// No judged rule was broken, and no end was taken.
    Open,
    /// This rule was broken.
    Broken(Rule),
    /// The end was taken, and no judged rule was broken.
    Ended,
}

impl Judge {
    ghost use Rattle.judged_logs.specs.Auditing.{IsSound, Kept, MayAppend, MayTake, Parts, Keeps, StandsFor, Taken, geometry_of, judged_of};

    // With no line taken.
    #[tactic(auto, unfolding(crate::specs::Auditing::StandsFor))]
    pub(crate) fn new(alloc: Global, header: &Header, judged: Judged) -> Result<Judge, OutOfMemory>
        requires { IsAccepted header.now }
        ensures stands { IfOk result (λ it. StandsFor it judged header.now []) }
        ensures timing { IfOk result (λ it. IsTiming it.timing) }
    {
        let gate = Gate::new(alloc, &header.timing)?;
        let activity = activity_where(judged.backoff, alloc, header)?;
        let plan = plan_where(judged.refresh, header);
        Ok(Judge {
            judged,
            timing: header.timing,
            geometry: header.geometry(),
            settings: header.settings,
            writes: writes(&header.settings),
            places: 0,
            gate,
            banks: Banks::new(),
            plan,
            rolling: Rolling::new(&header.settings),
            activity,
            state: State::Open,
        })
    }

    // The shape of the subchannel.
    pub(crate) fn geometry(&self) -> Geometry
        ensures { result ≡ geometry_of self.now }
    {
        self.geometry
    }

    // Which rules are judged.
    pub(crate) fn judged(&self) -> Judged
        ensures { result ≡ judged_of self.now }
    {
        self.judged
    }

    // Whether an end was taken, and no judged rule was broken.
    pub(crate) fn has_ended(&self) -> bool
        ensures { result ≡ is_ended self.now.state }
    {
        match self.state {
            State::Open => false,
            State::Broken(_) => false,
            State::Ended => true,
        }
    }

    // Takes the next line.
    #[tactic(auto, unfolding(crate::specs::Auditing::StandsFor))]
    pub(crate) fn take(&mut self, line: &ReportLine) -> Verdict
        requires sound { IsSound self.old }
        requires going_on { is_ended self.old.state ≡ false }
        requires inside { IsReportLine (geometry_of self.old) line.now }
        ensures kept { Kept line.now self.old self.new }
        ensures so_far { result ≡ told_state self.new.state }
        ensures taken { (j : AnyJudged) (h : AnyHeader) (log : Log) → StandsFor self.old j h log → Taken line.now self.new j h log result }
        ensures bounded { (j : AnyJudged) (h : AnyHeader) (log : Log) (b row : ℕ) → StandsFor self.new j h log → j.backoff ≡ true → result ≡ Verdict.Fine
            → b < 32 → row < h.settings.rows → acts h b row log ≤ bound_of h }
    {
        bound();
        match line {
            ReportLine::Issued(clock, command) => self.take_command(*clock, command),
            ReportLine::End(clock) => self.take_end(*clock),
            ReportLine::Value(_, _, _, _) => {}
            ReportLine::Flip(_, _, _, _) => {}
            ReportLine::Stat(_, _) => {}
            ReportLine::Refused(_, _) => {}
        }
        self.verdict()
    }

    // What the state says.
    fn verdict(&self) -> Verdict
        ensures { result ≡ told_state self.now.state }
    {
        match self.state {
            State::Open => Verdict::Fine,
            State::Broken(rule) => Verdict::Breaks(rule),
            State::Ended => Verdict::Fine,
        }
    }

    fn is_open(&self) -> bool
        ensures { result ≡ is_open_state self.now.state }
    {
        match self.state {
            State::Open => true,
            State::Broken(_) => false,
            State::Ended => false,
        }
    }

    // Takes a command.
    fn take_command(&mut self, clock: u64, command: &Command)
        requires sound { IsSound self.old }
        requires inside { IsReportLine (geometry_of self.old) (ReportLine.Issued clock command.now) }
        ensures keeps { (j : AnyJudged) (h : AnyHeader) (log : Log) → Keeps self.old j h log → Keeps self.new j h (record { clock = clock; command = command.now } ∷ log) }
        ensures timing { self.new.timing ≡ self.old.timing }
        ensures geometry { self.new.geometry ≡ self.old.geometry }
        ensures judged { self.new.judged ≡ self.old.judged }
        ensures stays { is_open_state self.old.state ≡ false → self.new.state ≡ self.old.state }
        ensures going_on { is_ended self.old.state ≡ false → is_ended self.new.state ≡ false }
    {
        if self.is_open() {
            match self.broken(clock, command) {
                Some(number) => self.state = State::Broken(Rule(number)),
                None => self.append(clock, command),
            }
        }
    }

    // Takes the end.
    fn take_end(&mut self, clock: u64)
        requires in_range { clock < 2 ^ 48 }
        requires timing { IsTiming self.old.timing }
        ensures verdict { (j : AnyJudged) (h : AnyHeader) (log : Log) → Keeps self.old j h log → told_state self.new.state ≡ told (verdict_at_end j h clock log) }
        ensures timing { self.new.timing ≡ self.old.timing }
        ensures geometry { self.new.geometry ≡ self.old.geometry }
        ensures judged { self.new.judged ≡ self.old.judged }
        ensures stays { is_open_state self.old.state ≡ false → self.new.state ≡ self.old.state }
        ensures shut { is_open_state self.new.state ≡ false }
    {
        if self.is_open() {
            match self.broken_at_end(clock) {
                Some(rule) => self.state = State::Broken(Rule(rule)),
                None => self.state = State::Ended,
            }
        }
    }

    // Appends a command that breaks no judged rule.
    fn append(&mut self, clock: u64, command: &Command)
        requires in_range { clock < 2 ^ 48 }
        requires may { MayAppend self.old clock command.now }
        ensures parts { (j : AnyJudged) (h : AnyHeader) (log : Log) → Parts self.old j h log → MayTake j h clock command.now log
            → Parts self.new j h (record { clock = clock; command = command.now } ∷ log) }
        ensures timing { self.new.timing ≡ self.old.timing }
        ensures geometry { self.new.geometry ≡ self.old.geometry }
        ensures judged { self.new.judged ≡ self.old.judged }
        ensures state { self.new.state ≡ self.old.state }
    {
        count_next(
            &mut self.activity,
            clock,
            command,
            &self.banks,
            &self.settings,
        );
        plan_next(&mut self.plan, clock, command);
        self.gate.issue(clock, command);
        self.banks.issue(command);
        self.rolling.issue(command);
        self.places = one_more(self.places);
    }

    // The least judged rule that the command breaks.
    fn broken(&self, clock: u64, command: &Command) -> Option<u8>
        requires in_range { clock < 2 ^ 48 }
        requires timing { IsTiming self.now.timing }
        ensures { (h : AnyHeader) (log : Log) → Parts self.now self.now.judged h log → result ≡ broken self.now.judged h clock command.now log }
    {
        let written = write_rule(&self.writes, self.places, command);
        self.gate
            .broken(clock, command)
            .or(bank_rule(&self.banks, command))
            .or(refresh_rule(&self.plan, clock, command))
            .or(count_rule(self.judged.management, &self.rolling, command))
            .or(backoff_rule(&self.activity, &self.rolling, &self.timing, clock, command))
            .or(failing(passes(self.judged.frame, written), 14))
    }

    // The least judged rule that an end breaks.
    fn broken_at_end(&self, clock: u64) -> Option<u8>
        requires in_range { clock < 2 ^ 48 }
        requires timing { IsTiming self.now.timing }
        ensures { (h : AnyHeader) (log : Log) → Parts self.now self.now.judged h log → result ≡ broken_at_end self.now.judged h clock log }
    {
        failing(is_later(&self.gate, clock), 1)
            .or(failing(is_refreshed(&self.plan, clock), 6))
            .or(failing(is_in_time(&self.activity, &self.timing, clock), 13))
            .or(failing(passes(self.judged.frame, self.is_complete()), 14))
    }

    // Whether the register writes were made, all banks are closed, and no alert is raised, where it is judged.
    fn is_complete(&self) -> bool
        ensures { (h : AnyHeader) (log : Log) → Parts self.now self.now.judged h log → result ≡ is_complete self.now.judged h log }
    {
        let closed = self.banks.all_closed();
        let calm = is_calm(&self.activity);
        8 <= self.places && closed && calm
    }
}

// One place more, where 8 stands for all above it too.
fn one_more(places: usize) -> usize
    ensures { (number : ℕ) → places ≡ min 8 number → result ≡ min 8 (suc number) }
{
    if places < 8 { places + 1 } else { places }
}
