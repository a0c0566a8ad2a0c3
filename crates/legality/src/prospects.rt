//! What may come next behind a log.
ghost use Rattle.std.specs.Prelude.{ℕ, suc, min, ◌≡◌, ◌-◌, ◌<◌, ◌^◌, ◌↔◌, [], ◌∷◌, IfOk};
ghost use Rattle.speed_bin.specs.Header.{IsAccepted};
ghost use Rattle.speed_bin.specs.Log.{Log};
ghost use Rattle.speed_bin.specs.Rules.{first_failing};
ghost use Rattle.speed_bin.specs.declared.header.Header.{Header as AnyHeader};
ghost use Rattle.row_activity.specs.Counted.{MayCount};
ghost use Rattle.row_activity.specs.Standing.{StandsFor as ActivityFor, MayIssue as MayCountNext};
ghost use Rattle.bank_state.specs.Standing.{StandsFor as BanksFor};

use crate::limits::{before_mitigation, refreshes_in_time};
use crate::parts::{bank_rule, management_rule, write_rule};
use crate::span::{LAST, Span};
use arrayvec::ArrayVec;
use bank_state::Banks;
use command_words::{Command, Mrw};
use ddr_io::OutOfMemory;
use mode_registers::writes;
use refresh_plan::Plan;
use rfm_counts::Raa;
use row_activity::Activity;
use speed_bin::{Header, Settings};
use std::alloc::Global;
use timing_rules::{Clock, Gate};

/// What a log of commands leaves for its next one, by the parts that judge one group of rules each. It keeps no list of the
/// commands.
///
/// Clocks are those of the bus, below 2^48.
#[derive(Drop)]
pub struct Prospects {
    gate: Gate,
    banks: Banks,
    plan: Plan,
    raa: Raa,
    activity: Activity,
    settings: Settings,
    // The refresh interval.
    interval: Clock,
    // How long after the alert an ACT may come, and any command.
    window: Clock,
    deadline: Clock,
    // The register writes that a log begins with.
    writes: ArrayVec<Mrw, 8>,
    // How many commands were issued, and 8 where there were more.
    places: usize,
}

#[tactic(auto, unfolding(crate::specs::Standing::StandsFor))]
impl Prospects {
    ghost use Rattle.legality.specs.Chances.{IsForbidden, IsLegal};
    ghost use Rattle.legality.specs.Standing.{Limits, MayIssue, MayTake, StandsFor, chances};
    ghost use Rattle.legality.specs.Within.{IsWithin};

    /// With no command issued, under an accepted header.
    ///
    /// # Errors
    /// Want of memory.
    pub fn new(alloc: Global, header: &Header) -> Result<Prospects, OutOfMemory>
        requires { IsAccepted header.now }
        ensures { IfOk result (λ it. StandsFor it header.now []) }
    {
        let gate = Gate::new(alloc, &header.timing)?;
        let activity = Activity::new(alloc, header)?;
        let window = header.timing.nabo;
        Ok(Prospects {
            gate,
            banks: Banks::new(),
            plan: Plan::new(header),
            raa: Raa::new(&header.settings),
            activity,
            settings: header.settings,
            interval: u64::from(header.timing.nrefi),
            window: u64::from(window),
            deadline: u64::from(window + header.timing.n_tail()),
            writes: writes(&header.settings),
            places: 0,
        })
    }

    /// Appends the command, issued at this clock, at which it breaks no rule.
    pub fn issue(&mut self, clock: Clock, command: &Command)
        requires in_time { clock < 2 ^ 48 }
        requires may { MayIssue self.old clock command.now }
        ensures { (h : AnyHeader) (log : Log) → StandsFor self.old h log → MayTake h clock command.now log
            → StandsFor self.new h (record { clock = clock; command = command.now } ∷ log) }
    {
        count(
            &mut self.activity,
            clock,
            command,
            &self.banks,
            &self.settings,
        );
        self.gate.issue(clock, command);
        self.banks.issue(command);
        self.plan.issue(clock, command);
        self.raa.issue(command);
        self.places = one_more(self.places);
    }

    /// The first and the last clock at which the command may come next: it breaks no rule there nor at any clock between
    /// them, and breaks some rule at every other. `None` exactly where it breaks some rule at every clock.
    pub fn legal(&self, command: &Command) -> Option<(Clock, Clock)>
        ensures { (h : AnyHeader) (log : Log) → StandsFor self.now h log → IsLegal h command.now log result }
    {
        if self.forbidden(command).is_some() {
            return None;
        }
        self.span(command).clocks()
    }

    /// The least rule that forbids the command at every clock; `None` where each rule lets it come at some clock, which may
    /// be another one for each rule.
    pub fn forbidden(&self, command: &Command) -> Option<u8>
        ensures { (h : AnyHeader) (log : Log) → StandsFor self.now h log → IsForbidden h command.now log result }
    {
        let refreshes = refreshes_in_time(&self.plan, self.interval, command);
        self.failing_at(refreshes.first.min(LAST), command)
    }

    // The least rule that fails where the rules of spacing are asked at the last clock of the bus, rule 6 at this clock,
    // and the rules of the alert not at all.
    fn failing_at(&self, best: Clock, command: &Command) -> Option<u8>
        requires { best < 2 ^ 48 }
        ensures { (h : AnyHeader) (log : Log) → StandsFor self.now h log → result ≡ first_failing 1 (chances h (2 ^ 48 - 1) best command.now log) }
    {
        self.gate
            .broken(LAST, command)
            .or(bank_rule(&self.banks, command))
            .or(self.plan.broken(command, best))
            .or(self.raa.broken(command))
            .or(management_rule(&self.raa, self.activity.alert(), command))
            .or(write_rule(&self.writes, self.places, command))
    }

    // The clocks at which the command keeps the rules that speak of the clock.
    fn span(&self, command: &Command) -> Span
        ensures within { (h : AnyHeader) (log : Log) → StandsFor self.now h log → (clock : ℕ) → clock < 2 ^ 48
            → (Limits h clock command.now log ↔ IsWithin result clock) }
        ensures of_the_bus { result.last < 2 ^ 48 }
    {
        let spaced = Span::starting(self.gate.earliest(command));
        let refreshed = refreshes_in_time(&self.plan, self.interval, command);
        let alerted = before_mitigation(self.activity.alert(), self.window, self.deadline, command);
        spaced.both(refreshed).both(alerted)
    }
}

// Counts a command under these settings, where these are the open rows before it.
fn count(
    activity: &mut Activity,
    clock: Clock,
    command: &Command,
    open_rows: &Banks,
    settings: &Settings,
)
    requires { MayCountNext activity.old open_rows.now clock command.now }
    ensures { (h : AnyHeader) (log : Log) → ActivityFor activity.old h log → BanksFor open_rows.now log → MayCount h clock command.now log
        → settings.now ≡ h.settings
        → ActivityFor activity.new h (record { clock = clock; command = command.now } ∷ log) }
{
    activity.issue(clock, command, open_rows, Some(*settings));
}

// One place more, where 8 stands for all above it too.
fn one_more(places: usize) -> usize
    ensures { (number : ℕ) → places ≡ min 8 number → result ≡ min 8 (suc number) }
{
    if places < 8 { places + 1 } else { places }
}
