//! The parts that are there where their group of rules is judged.
ghost use Rattle.std.specs.Prelude.{ℕ, ◌≡◌, ◌<◌, ◌^◌, ◌∷◌, [], Bool, true, false, IfOk};
ghost use Rattle.bank_state.specs.Standing.{StandsFor as BanksFor};
ghost use Rattle.refresh_plan.specs.Standing.{IsAllowed};
ghost use Rattle.row_activity.specs.Counted.{MayCount};
ghost use Rattle.speed_bin.specs.Header.{IsAccepted};
ghost use Rattle.speed_bin.specs.Log.{Log};
ghost use Rattle.speed_bin.specs.declared.header.Header.{Header as AnyHeader};
ghost use Rattle.judged_logs.specs.Auditing.{ActivityWhere, MayCountRows, MayPlan, PlanWhere};

use bank_state::Banks;
use command_words::Command;
use ddr_io::OutOfMemory;
use refresh_plan::Plan;
use row_activity::Activity;
use speed_bin::{Header, Settings};
use std::alloc::Global;

// The plan of refreshes, where they are judged: one that nobody judges may leave the range of its counts.
pub(crate) fn plan_where(judged: bool, header: &Header) -> Option<Plan>
    requires { IsAccepted header.now }
    ensures { PlanWhere judged result header.now [] }
{
    if judged {
        Some(Plan::new(header))
    } else {
        None
    }
}

// The row counters, where the alert is judged: without rule 12 no bound holds of them.
pub(crate) fn activity_where(
    judged: bool,
    alloc: Global,
    header: &Header,
) -> Result<Option<Activity>, OutOfMemory>
    requires { IsAccepted header.now }
    ensures { IfOk result (λ activity. ActivityWhere judged activity header.now []) }
{
    if !judged {
        return Ok(None);
    }
    match Activity::new(alloc, header) {
        Ok(activity) => Ok(Some(activity)),
        Err(fault) => Err(fault),
    }
}

// Appends the command to the plan, if there is one.
pub(crate) fn plan_next(plan: &mut Option<Plan>, clock: u64, command: &Command)
    requires in_time { clock < 2 ^ 48 }
    requires may { MayPlan plan.old clock command.now }
    ensures { (judged : Bool) (h : AnyHeader) (log : Log) → PlanWhere judged plan.old h log
        → (judged ≡ true → IsAllowed h clock command.now log)
        → PlanWhere judged plan.new h (record { clock = clock; command = command.now } ∷ log) }
{
    match plan {
        Some(plan) => plan.issue(clock, command),
        None => {}
    }
}

// Counts the command, if rows are counted, under these settings, where these are the open rows before it.
pub(crate) fn count_next(
    activity: &mut Option<Activity>,
    clock: u64,
    command: &Command,
    open_rows: &Banks,
    settings: &Settings,
)
    requires { MayCountRows activity.old open_rows.now clock command.now }
    ensures { (judged : Bool) (h : AnyHeader) (log : Log) → ActivityWhere judged activity.old h log → BanksFor open_rows.now log
        → (judged ≡ true → MayCount h clock command.now log)
        → settings.now ≡ h.settings
        → ActivityWhere judged activity.new h (record { clock = clock; command = command.now } ∷ log) }
{
    match activity {
        Some(activity) => activity.issue(clock, command, open_rows, Some(*settings)),
        None => {}
    }
}
