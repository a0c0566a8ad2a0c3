//! Between which clocks a rule lets a command come.
ghost use Rattle.std.specs.Prelude.{ℕ, ◌≡◌, ◌∷◌, ◌+◌, ◌<◌, ◌≤◌, ◌^◌, ◌↔◌, true, if◌then◌else◌};
ghost use Rattle.backoff.specs.Standing.{StandsFor as AlertFor};
ghost use Rattle.command_words.specs.Kinds.{is_act, refreshes as refreshes_at};
ghost use Rattle.refresh_plan.specs.Standing.{StandsFor as PlanFor};
ghost use Rattle.speed_bin.specs.Gap.{n_tail};
ghost use Rattle.speed_bin.specs.Log.{Log, refs};
ghost use Rattle.speed_bin.specs.Rules.{is_on_time, rule_6, rule_12, rule_13};
ghost use Rattle.speed_bin.specs.declared.header.Header.{Header as AnyHeader};
ghost use Rattle.legality.specs.Within.{IsWithin};

use crate::span::Span;
use backoff::Alert;
use command_words::{BankAddr, Command};
use refresh_plan::Plan;
use timing_rules::Clock;

// Rule 6: with this command the refreshes of every address are within 4 of the intervals that passed.
pub(crate) fn refreshes_in_time(plan: &Plan, interval: Clock, command: &Command) -> Span
    ensures within { (h : AnyHeader) (log : Log) → PlanFor plan.now h log → interval ≡ h.timing.nrefi → 1 ≤ interval → (clock : ℕ) → clock < 2 ^ 48
        → ((rule_6 h clock command.now log ≡ true) ↔ IsWithin result clock) }
    ensures of_the_bus { result.last < 2 ^ 48 }
{
    in_time(plan, interval, 0, command)
        .both(in_time(plan, interval, 1, command))
        .both(in_time(plan, interval, 2, command))
        .both(in_time(plan, interval, 3, command))
}

// The same of one address.
fn in_time(plan: &Plan, interval: Clock, address: u8, command: &Command) -> Span
    requires { address < 4 }
    ensures within { (h : AnyHeader) (log : Log) → PlanFor plan.now h log → interval ≡ h.timing.nrefi → 1 ≤ interval → (clock : ℕ) → clock < 2 ^ 48
        → ((is_on_time h clock address (record { clock = clock; command = command.now } ∷ log) ≡ true) ↔ IsWithin result clock) }
    ensures of_the_bus { result.last < 2 ^ 48 }
{
    let refreshes = refreshes_with(plan, address, command);
    let first = refreshes.saturating_sub(4).saturating_mul(interval);
    let behind = (refreshes + 5).saturating_mul(interval);
    Span::starting(first).both(Span::ending(behind.saturating_sub(1)))
}

// The refreshes of the address with this number, this command among them.
fn refreshes_with(plan: &Plan, number: u8, command: &Command) -> u64
    requires { number < 4 }
    ensures counted { (h : AnyHeader) (log : Log) (clock : ℕ) → PlanFor plan.now h log
        → result ≡ refs number (record { clock = clock; command = command.now } ∷ log) }
    ensures bounded { result ≤ 2 ^ 63 + 1 }
{
    let before = refreshes_before(plan, number);
    if refreshes(numbered(number), command) {
        before + 1
    } else {
        before
    }
}

// The refreshes of the address with this number: what its debt is below 0 at clock 0.
fn refreshes_before(plan: &Plan, number: u8) -> u64
    requires { number < 4 }
    ensures counted { (h : AnyHeader) (log : Log) → PlanFor plan.now h log → result ≡ refs number log }
    ensures bounded { result ≤ 2 ^ 63 }
{
    plan.debt(numbered(number), 0).unsigned_abs()
}

// The address with this number.
fn numbered(number: u8) -> BankAddr
    requires { number < 4 }
    ensures { result ≡ number }
{
    BankAddr::new(number).unwrap()
}

// Whether the command refreshes the banks with this address.
fn refreshes(address: BankAddr, command: &Command) -> bool
    ensures { result ≡ refreshes_at address command.now }
{
    match command {
        Command::RefAb => true,
        Command::RefSb(own) => own.get() == address.get(),
        _ => false,
    }
}

// Rules 12 and 13: while the alert is raised, an ACT comes within the window, and any command until the deadline, both
// counted from the clock at which it was raised.
pub(crate) fn before_mitigation(
    alert: &Alert,
    window: Clock,
    deadline: Clock,
    command: &Command,
) -> Span
    ensures within { (h : AnyHeader) (log : Log) → AlertFor alert.now h log → window ≡ h.timing.nabo → deadline ≡ h.timing.nabo + n_tail h.timing
        → (clock : ℕ) → clock < 2 ^ 48 → (((rule_12 h clock command.now log ≡ true) × (rule_13 h clock log ≡ true)) ↔ IsWithin result clock) }
    ensures first { result.first ≡ 0 }
    ensures of_the_bus { result.last < 2 ^ 48 }
{
    match alert.raised() {
        Some(raised) => Span::ending(raised.saturating_add(wait(window, deadline, command))),
        None => Span::starting(0),
    }
}

// How long after the alert the command may come.
fn wait(window: Clock, deadline: Clock, command: &Command) -> Clock
    ensures { result ≡ (if is_act command.now then window else deadline) }
{
    if command.is_act() { window } else { deadline }
}
