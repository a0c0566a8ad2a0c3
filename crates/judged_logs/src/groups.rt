//! The groups of rules, each by the least rule of it that fails; `None` too where the group is not judged.
ghost use Rattle.std.specs.Prelude.{ℕ, ◌≡◌, ◌∷◌, [], ◌<◌, ◌^◌, Bool, is_none, length, min, slice_get};
ghost use Rattle.backoff.specs.Standing.{StandsFor as AlertFor};
ghost use Rattle.bank_state.specs.Standing.{StandsFor as BanksFor};
ghost use Rattle.command_words.specs.declared.command.Command.{Command as AnyCommand};
ghost use Rattle.log_auditor.specs.Auditing.{write_of as write_in};
ghost use Rattle.log_ledger.specs.Standing.{bank_rules};
ghost use Rattle.speed_bin.specs.Alert.{alert as alert_of};
ghost use Rattle.speed_bin.specs.Log.{Log};
ghost use Rattle.speed_bin.specs.Registers.{register_writes};
ghost use Rattle.speed_bin.specs.Rules.{first_failing, is_write, rule_1, rule_11, rule_12, rule_13, rule_14, until};
ghost use Rattle.speed_bin.specs.Timing.{IsTiming};
ghost use Rattle.speed_bin.specs.declared.header.Header.{Header as AnyHeader};
ghost use Rattle.timing_rules.specs.Gate.{StandsFor as GateFor};
ghost use Rattle.judged_logs.specs.Auditing.{ActivityWhere, PlanWhere};
ghost use Rattle.judged_logs.specs.Rolling.{RollingFor};
ghost use Rattle.judged_logs.specs.Verdicts.{alert_tests, count_tests, is_refreshed, refresh_tests, where_judged};

use crate::rolling::Rolling;
use arrayvec::ArrayVec;
use backoff::Alert;
use bank_state::{Banks, StateFault};
use command_words::{Command, Mrw};
use refresh_plan::Plan;
use row_activity::Activity;
use speed_bin::Timing;
use timing_rules::Gate;

// Rules 4 and 5: open banks.
pub(crate) fn bank_rule(banks: &Banks, command: &Command) -> Option<u8>
    ensures { (log : Log) → BanksFor banks.now log → result ≡ first_failing 4 (bank_rules command.now log) }
{
    match banks.fits(command) {
        Ok(()) => None,
        Err(StateFault::IsOpen) => Some(4),
        Err(StateFault::IsClosed) => Some(4),
        Err(StateFault::NotAllClosed) => Some(5),
    }
}

// Rules 6 to 8: refreshes and scrubs.
pub(crate) fn refresh_rule(plan: &Option<Plan>, clock: u64, command: &Command) -> Option<u8>
    requires { clock < 2 ^ 48 }
    ensures { (judged : Bool) (h : AnyHeader) (log : Log) → PlanWhere judged plan.now h log
        → result ≡ first_failing 6 (refresh_tests judged h clock command.now log) }
{
    match plan {
        Some(plan) => plan.broken(command, clock),
        None => None,
    }
}

// Rules 9 and 10: rolling counts.
pub(crate) fn count_rule(judged: bool, rolling: &Rolling, command: &Command) -> Option<u8>
    ensures { (h : AnyHeader) (log : Log) → RollingFor rolling.now h log → result ≡ first_failing 9 (count_tests judged h command.now log) }
{
    if judged {
        rolling.broken(command)
    } else {
        None
    }
}

// Rules 11 to 13: the alert.
pub(crate) fn backoff_rule(
    activity: &Option<Activity>,
    rolling: &Rolling,
    timing: &Timing,
    clock: u64,
    command: &Command,
) -> Option<u8>
    requires { IsTiming timing.now }
    ensures { (judged : Bool) (h : AnyHeader) (log : Log) → ActivityWhere judged activity.now h log → RollingFor rolling.now h log → timing.now ≡ h.timing
        → result ≡ first_failing 11 (alert_tests judged h clock command.now log) }
{
    match activity {
        Some(activity) => alert_rule(activity.alert(), rolling, timing, clock, command),
        None => None,
    }
}

// The same, with the alert.
fn alert_rule(
    alert: &Alert,
    rolling: &Rolling,
    timing: &Timing,
    clock: u64,
    command: &Command,
) -> Option<u8>
    requires { IsTiming timing.now }
    ensures { (h : AnyHeader) (log : Log) → AlertFor alert.now h log → RollingFor rolling.now h log → timing.now ≡ h.timing
        → result ≡ first_failing 11 (rule_11 h command.now log ∷ rule_12 h clock command.now log ∷ rule_13 h clock log ∷ []) }
{
    let is_answered = !command.is_rfm_all() || rolling.is_wanted() || alert.raised().is_some();
    let in_window = !command.is_act() || until(clock, alert.last_activate(timing));
    least_of_three(is_answered, in_window, until(clock, alert.deadline(timing)))
}

fn least_of_three(is_answered: bool, in_window: bool, in_time: bool) -> Option<u8>
    ensures { result ≡ first_failing 11 (is_answered ∷ in_window ∷ in_time ∷ []) }
{
    match (is_answered, in_window, in_time) {
        (false, _, _) => Some(11),
        (true, false, _) => Some(12),
        (true, true, false) => Some(13),
        (true, true, true) => None,
    }
}

// Rule 14: the register writes come first, and no other.
pub(crate) fn write_rule(writes: &ArrayVec<Mrw, 8>, places: usize, command: &Command) -> bool
    ensures { (h : AnyHeader) (log : Log) → writes.now.items ≡ register_writes h.settings → places ≡ min 8 (length log)
        → result ≡ rule_14 h command.now log }
{
    match write_of(command) {
        Some(write) => is_due(writes, places, write),
        None => 8 <= places,
    }
}

// Whether the write is the one that is due.
fn is_due(writes: &ArrayVec<Mrw, 8>, places: usize, write: Mrw) -> bool
    ensures { result ≡ is_write write (slice_get writes.now.items places) }
{
    match writes.get(places) {
        Some(due) => write.address == due.address && write.value == due.value,
        None => false,
    }
}

// The register write that the command is, if it is one.
fn write_of(command: &Command) -> Option<Mrw>
    ensures { result ≡ write_in command.now }
{
    match command {
        Command::Mrw(write) => Some(*write),
        _ => None,
    }
}

// ---- At the end

// Whether the clock is above those of all commands.
pub(crate) fn is_later(gate: &Gate, clock: u64) -> bool
    ensures { (h : AnyHeader) (log : Log) → GateFor gate.now h.timing log → result ≡ rule_1 clock log }
{
    gate.broken(clock, &Command::Nop) != Some(1)
}

// Whether no refresh is late, or they are not judged.
pub(crate) fn is_refreshed(plan: &Option<Plan>, clock: u64) -> bool
    requires { clock < 2 ^ 48 }
    ensures { (judged : Bool) (h : AnyHeader) (log : Log) → PlanWhere judged plan.now h log
        → result ≡ where_judged judged (is_refreshed h clock log) }
{
    match plan {
        Some(plan) => plan.allowed_at_end(clock),
        None => true,
    }
}

// Whether the time of a raised alert has not passed, or alerts are not judged.
pub(crate) fn is_in_time(activity: &Option<Activity>, timing: &Timing, clock: u64) -> bool
    requires { IsTiming timing.now }
    ensures { (judged : Bool) (h : AnyHeader) (log : Log) → ActivityWhere judged activity.now h log → timing.now ≡ h.timing
        → result ≡ where_judged judged (rule_13 h clock log) }
{
    match activity {
        Some(activity) => until(clock, activity.alert().deadline(timing)),
        None => true,
    }
}

// Whether no alert is raised, or alerts are not judged.
pub(crate) fn is_calm(activity: &Option<Activity>) -> bool
    ensures { (judged : Bool) (h : AnyHeader) (log : Log) → ActivityWhere judged activity.now h log
        → result ≡ where_judged judged (is_none (alert_of h log)) }
{
    match activity {
        Some(activity) => activity.alert().raised().is_none(),
        None => true,
    }
}

// Whether the test passes, or its group is not judged.
pub(crate) fn passes(judged: bool, test: bool) -> bool
    ensures { result ≡ where_judged judged test }
{
    if judged { test } else { true }
}

// The number of a rule that does not hold.
pub(crate) fn failing(holds: bool, rule: u8) -> Option<u8>
    ensures { result ≡ first_failing rule (holds ∷ []) }
{
    if holds { None } else { Some(rule) }
}

// Whether the clock is at most the last one, where there is one.
fn until(clock: u64, last: Option<u64>) -> bool
    ensures { result ≡ until clock last }
{
    match last {
        Some(last) => clock <= last,
        None => true,
    }
}
