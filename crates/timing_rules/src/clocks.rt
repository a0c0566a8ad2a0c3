//! Until when the commands issued so far block others, which is what the rules of spacing ask for.
ghost use Rattle.std.specs.Prelude.{ℕ, ◌≡◌, ◌<◌, ◌≤◌, ◌↔◌, ◌^◌, [], ◌∷◌, true, take, IsTrue, IsNone};
ghost use Rattle.circular_buffer.specs.Buffer.{buffer};
ghost use Rattle.command_words.specs.Command.{covers};
ghost use Rattle.command_words.specs.Kinds.{is_act, is_precharge, needs_closed};
ghost use Rattle.command_words.specs.declared.command.Command.{Command as CommandValue};
ghost use Rattle.speed_bin.specs.Gap.{gap};
ghost use Rattle.speed_bin.specs.Log.{Log};
ghost use Rattle.speed_bin.specs.Rules.{MayFollow, rule_1, rule_2, rule_3, first_failing};
ghost use Rattle.speed_bin.specs.Timing.{IsTiming};
ghost use Rattle.speed_bin.specs.declared.timing.Timing.{Timing};
ghost use Rattle.timing_rules.specs.Gate.{act_clocks};
ghost use Rattle.timing_rules.specs.Kept.{IsSmall, behind};
ghost use Rattle.timing_rules.specs.Reach.{reach};
ghost use Rattle.timing_rules.specs.Scope.{is_within};
ghost use Rattle.timing_rules.specs.Spaced.{spacing_rules};

use crate::Clock;
use crate::scope::{Scope, scope_of};
use crate::spans::spans_of;
use crate::tables::{in_bank, in_group, latest, raise_banks, raise_group, raised};
use circular_buffer::HeapCircularBuffer;
use command_words::{Bank, Command};
use speed_bin::Timing;

/// The clock of the last command, until when the commands block others, and the clocks of the last four ACTs.
#[derive(Drop)]
pub(crate) struct Clocks {
    timing: Timing,
    any: Option<Clock>,
    // every command, and every one but NOP
    bus: Clock,
    floor: Clock,
    // in any bank
    act: Clock,
    rd: Clock,
    wr: Clock,
    // in each group
    act_groups: [Clock; 8],
    rd_groups: [Clock; 8],
    wr_groups: [Clock; 8],
    // in each bank: ACT, RD and WR, precharges, and what needs it closed
    act_banks: [Clock; 32],
    columns: [Clock; 32],
    precharges: [Clock; 32],
    closed: [Clock; 32],
    // the newest first
    window: HeapCircularBuffer<Clock>,
}

#[tactic(auto, unfolding(crate::specs::Gate::StandsFor))]
impl Clocks {
    ghost use Rattle.timing_rules.specs.Gate.{StandsFor, StandsForSome, Keeps};

    // Of no command yet.
    pub(crate) fn new(timing: &Timing, window: HeapCircularBuffer<Clock>) -> Clocks
        requires timing { IsTiming timing.now }
        requires window { window ≡ buffer [] 4 }
        ensures { StandsFor result timing.now [] }
    {
        Clocks {
            timing: *timing,
            any: None,
            bus: 0,
            floor: 0,
            act: 0,
            rd: 0,
            wr: 0,
            act_groups: [0; 8],
            rd_groups: [0; 8],
            wr_groups: [0; 8],
            act_banks: [0; 32],
            columns: [0; 32],
            precharges: [0; 32],
            closed: [0; 32],
            window,
        }
    }

    // The least clock at which the command may follow those issued so far, 0 where there are none.
    pub(crate) fn earliest(&self, command: &Command) -> Clock
        requires timing { IsTiming self.now.timing }
        requires some { StandsForSome self.now }
        ensures least { (t : Timing) (log : Log) → StandsFor self.now t log → (clock : ℕ) → (MayFollow t clock command.now log ↔ (result ≤ clock)) }
        ensures in_range { result < 2 ^ 49 }
    {
        self.behind_gaps(command).max(self.behind_window(command))
    }

    // The least of the rules 1 to 3 that fails where the command follows at this clock.
    pub(crate) fn broken(&self, clock: Clock, command: &Command) -> Option<u8>
        requires { IsTiming self.now.timing }
        ensures least { (t : Timing) (log : Log) → StandsFor self.now t log → result ≡ first_failing 1 (spacing_rules t clock command.now log) }
        ensures none { (t : Timing) (log : Log) → StandsFor self.now t log → (IsNone result ↔ MayFollow t clock command.now log) }
    {
        least_broken(
            self.is_after_last(clock),
            self.behind_gaps(command) <= clock,
            self.behind_window(command) <= clock,
        )
    }

    // Notes the command, issued at this clock.
    pub(crate) fn issue(&mut self, clock: Clock, command: &Command)
        requires timing { IsTiming self.old.timing }
        requires clock { clock < 2 ^ 48 }
        ensures timing { self.new.timing ≡ self.old.timing }
        ensures stands { (t : Timing) (log : Log) → StandsFor self.old t log → MayFollow t clock command.now log
            → StandsFor self.new t (record { clock = clock; command = command.now } ∷ log) }
    {
        let spans = spans_of(&self.timing, command);
        let scope = scope_of(command);
        let group = command.group();
        self.any = Some(clock);
        let bus = raised(self.bus, clock, spans.bus);
        let floor = raised(self.floor, clock, spans.floor);
        let act = raised(self.act, clock, spans.act);
        let rd = raised(self.rd, clock, spans.rd);
        let wr = raised(self.wr, clock, spans.wr);
        self.bus = bus;
        self.floor = floor;
        self.act = act;
        self.rd = rd;
        self.wr = wr;
        raise_group(&mut self.act_groups, group, clock, spans.act_group);
        raise_group(&mut self.rd_groups, group, clock, spans.rd_group);
        raise_group(&mut self.wr_groups, group, clock, spans.wr_group);
        raise_banks(&mut self.act_banks, scope, clock, spans.act_bank);
        raise_banks(&mut self.columns, scope, clock, spans.column);
        raise_banks(&mut self.precharges, scope, clock, spans.pre);
        raise_banks(&mut self.closed, scope, clock, spans.closed);
        note_act(&mut self.window, clock, command);
    }

    // Whether the clock is above the last one.
    fn is_after_last(&self, clock: Clock) -> bool
        ensures { (t : Timing) (log : Log) → Keeps self.now t log → result ≡ rule_1 clock log }
    {
        match self.any {
            Some(last) => last < clock,
            None => true,
        }
    }

    // All gaps.
    fn behind_gaps(&self, command: &Command) -> Clock
        requires { IsTiming self.now.timing }
        ensures { (t : Timing) (log : Log) → Keeps self.now t log → (clock : ℕ) → (IsTrue (rule_2 self.now.timing clock command.now log) ↔ (result ≤ clock)) }
    {
        self.reach_of(command)
    }

    // How far the commands reach with their gaps to this one.
    fn reach_of(&self, command: &Command) -> Clock
        ensures { (t : Timing) (log : Log) → Keeps self.now t log → result ≡ reach (λ first. gap self.now.timing first command.now) log }
    {
        let scope = scope_of(command);
        match *command {
            Command::Act(bank, _) => self.to_act(bank),
            Command::Rd(bank, _) => self.to_rd(bank),
            Command::Wr(bank, _) => self.to_wr(bank),
            Command::PrePb(bank) => self.to_precharge(bank),
            Command::PreSb(_) => self.to_precharges(scope),
            Command::PreAb => self.to_precharges(scope),
            Command::RefAb => self.to_closed(scope),
            Command::RefSb(_) => self.to_closed(scope),
            Command::RfmAb => self.to_closed(scope),
            Command::RfmSb(_) => self.to_closed(scope),
            Command::Mrw(_) => self.to_closed(scope),
            Command::Ecs => self.to_closed(scope),
            Command::Nop => self.bus,
        }
    }

    // ---- The same of each kind of command

    #[inline(always)]
    fn to_act(&self, bank: Bank) -> Clock
        ensures { (t : Timing) (log : Log) → Keeps self.now t log → (row : ℕ) → result ≡ reach (λ first. gap self.now.timing first (Command.Act bank row)) log }
    {
        let there = in_group(&self.act_groups, &bank).max(in_bank(&self.act_banks, &bank));
        self.floor.max(self.act.max(there))
    }

    #[inline(always)]
    fn to_rd(&self, bank: Bank) -> Clock
        ensures { (t : Timing) (log : Log) → Keeps self.now t log → (column : ℕ) → result ≡ reach (λ first. gap self.now.timing first (Command.Rd bank column)) log }
    {
        let there = in_group(&self.rd_groups, &bank).max(in_bank(&self.columns, &bank));
        self.floor.max(self.rd.max(there))
    }

    #[inline(always)]
    fn to_wr(&self, bank: Bank) -> Clock
        ensures { (t : Timing) (log : Log) → Keeps self.now t log → (column : ℕ) → result ≡ reach (λ first. gap self.now.timing first (Command.Wr bank column)) log }
    {
        let there = in_group(&self.wr_groups, &bank).max(in_bank(&self.columns, &bank));
        self.floor.max(self.wr.max(there))
    }

    // PREpb.
    #[inline(always)]
    fn to_precharge(&self, bank: Bank) -> Clock
        ensures { (t : Timing) (log : Log) → Keeps self.now t log → result ≡ reach (λ first. gap self.now.timing first (Command.PrePb bank)) log }
    {
        self.floor.max(in_bank(&self.precharges, &bank))
    }

    // PREsb and PREab.
    fn to_precharges(&self, scope: Scope) -> Clock
        ensures { (t : Timing) (log : Log) → Keeps self.now t log → (second : CommandValue) → is_precharge second ≡ true → ((b : ℕ) → is_within scope b ≡ covers second b) → result ≡ reach (λ first. gap self.now.timing first second) log }
    {
        self.floor.max(latest(&self.precharges, scope))
    }

    // REF, RFM, ECS and MRW.
    fn to_closed(&self, scope: Scope) -> Clock
        ensures { (t : Timing) (log : Log) → Keeps self.now t log → (second : CommandValue) → needs_closed second ≡ true → ((b : ℕ) → is_within scope b ≡ covers second b) → result ≡ reach (λ first. gap self.now.timing first second) log }
    {
        self.floor.max(latest(&self.closed, scope))
    }

    // The window of five ACTs, for which no other command waits.
    fn behind_window(&self, command: &Command) -> Clock
        ensures { (t : Timing) (log : Log) → Keeps self.now t log → (clock : ℕ) → (IsTrue (rule_3 self.now.timing clock command.now log) ↔ (result ≤ clock)) }
    {
        if command.is_act() {
            self.behind_fourth()
        } else {
            0
        }
    }

    // Behind the fourth ACT, counted from the last one back.
    fn behind_fourth(&self) -> Clock
        ensures { (t : Timing) (log : Log) → Keeps self.now t log → (command : CommandValue) → is_act command ≡ true → (clock : ℕ) → (IsTrue (rule_3 self.now.timing clock command log) ↔ (result ≤ clock)) }
    {
        let first = self.window.get(3).copied();
        behind(first, self.timing.nfaw)
    }
}

// So many clocks behind a kept one, 0 where there is none. Clocks of a log are below 2^48, so that the sum never saturates.
fn behind(kept: Option<Clock>, clocks: u32) -> Clock
    ensures { IsSmall kept → result ≡ behind kept clocks }
{
    match kept {
        Some(clock) => clock.saturating_add(u64::from(clocks)),
        None => 0,
    }
}

// The least of the rules 1 to 3 that does not hold.
fn least_broken(rises: bool, gaps: bool, window: bool) -> Option<u8>
    ensures { result ≡ first_failing 1 (rises ∷ gaps ∷ window ∷ []) }
{
    match (rises, gaps, window) {
        (false, _, _) => Some(1),
        (true, false, _) => Some(2),
        (true, true, false) => Some(3),
        (true, true, true) => None,
    }
}

// An ACT, issued at this clock, is the newest of the window.
fn note_act(window: &mut HeapCircularBuffer<Clock>, clock: Clock, command: &Command)
    ensures { (log : Log) → window.old ≡ buffer (take 4 (act_clocks log)) 4
        → window.new ≡ buffer (take 4 (act_clocks (record { clock = clock; command = command.now } ∷ log))) 4 }
{
    if command.is_act() {
        window.push_front(clock);
    }
}
