//! The rules that rolling counts with the alert, and the alert alone, decide, each the least that fails.
ghost use Rattle.std.specs.Prelude.{ℕ, ◌≡◌, ◌∷◌, [], ◌||◌, is_some};
ghost use Rattle.backoff.specs.Standing.{StandsFor as AlertStandsFor};
ghost use Rattle.command_words.specs.declared.command.Command.{Command as AnyCommand};
ghost use Rattle.log_ledger.specs.Standing.{StandsFor as LedgerStandsFor};
ghost use Rattle.speed_bin.specs.declared.header.Header.{Header as AnyHeader};
ghost use Rattle.speed_bin.specs.Alert.{alert as alert_of};
ghost use Rattle.command_words.specs.Kinds.{is_act};
ghost use Rattle.speed_bin.specs.Log.{Log};
ghost use Rattle.speed_bin.specs.Rules.{first_failing, is_wanted, rule_11, until};
ghost use Rattle.speed_bin.specs.Timing.{IsTiming};
ghost use Rattle.log_auditor.specs.Groups.{alert_rules};

use backoff::Alert;
use command_words::Command;
use log_ledger::Ledger;
use speed_bin::Timing;

// Rule 11: an RFMab needs a bank at RAAIMT or more, or a raised alert.
pub(crate) fn management_rule(ledger: &Ledger, raised: bool, command: &Command) -> Option<u8>
    ensures { (h : AnyHeader) (log : Log) → LedgerStandsFor ledger.now h log → raised ≡ is_some (alert_of h log)
        → result ≡ first_failing 11 (rule_11 h command.now log ∷ []) }
{
    if !command.is_rfm_all() {
        return None;
    }
    failing(is_wanted_or(ledger, raised), 11)
}

// Rules 12 and 13: while the alert is raised, an ACT may come within its window, and any command until its deadline.
pub(crate) fn alert_rule(
    alert: &Alert,
    timing: &Timing,
    clock: u64,
    command: &Command,
) -> Option<u8>
    requires { IsTiming timing.now }
    ensures { (h : AnyHeader) (log : Log) → AlertStandsFor alert.now h log → timing.now ≡ h.timing → result ≡ first_failing 12 (alert_rules h clock command.now log) }
{
    let in_window = !command.is_act() || until(clock, alert.last_activate(timing));
    least_alert(in_window, until(clock, alert.deadline(timing)))
}

// The number of a rule that does not hold.
pub(crate) fn failing(holds: bool, rule: u8) -> Option<u8>
    ensures { result ≡ first_failing rule (holds ∷ []) }
{
    if holds { None } else { Some(rule) }
}

// Whether the clock is at most the last one, where there is one.
pub(crate) fn until(clock: u64, last: Option<u64>) -> bool
    ensures { result ≡ until clock last }
{
    match last {
        Some(last) => clock <= last,
        None => true,
    }
}

fn least_alert(in_window: bool, in_time: bool) -> Option<u8>
    ensures { result ≡ first_failing 12 (in_window ∷ in_time ∷ []) }
{
    match (in_window, in_time) {
        (false, _) => Some(12),
        (true, false) => Some(13),
        (true, true) => None,
    }
}

// Whether some bank is at RAAIMT or more, or the alert is raised.
fn is_wanted_or(ledger: &Ledger, raised: bool) -> bool
    ensures { (h : AnyHeader) (log : Log) → LedgerStandsFor ledger.now h log → result ≡ (is_wanted h AnyCommand.RfmAb log || raised) }
{
    ledger.wanted().is_some() || raised
}
