//! The one row of a bank, closed until it is hot, and mitigated. Longer logs are played on `device_core` and on the
//! whole program.
ghost use Rattle.std.specs.Prelude.{◌≡◌, [], ◌∷◌, IfOk};
ghost use Rattle.command_words.specs.declared.command.Command.TheVariants.{RfmAb as AnyRfmAb};
ghost use Rattle.row_activity.specs.Counted.{MayCount};
ghost use Rattle.row_activity.specs.Standing.{StandsFor};
ghost use Rattle.row_activity.specs.Trial.{MayClose, Stand, closed, one_row, opens};
ghost use Rattle.speed_bin.specs.Log.{Log};

use crate::Activity;
use bank_state::Banks;
use command_words::{Bank, BankAddr, Command, Group, Row};
use ddr_io::OutOfMemory;
use speed_bin::{Header, RefreshMode, Settings, TINY, Timing, Version};
use std::alloc::Global;
use std::test::Fail;

// The bin `tiny`, with an alert window for two activations.
const TIMING: Timing = Timing { nabo: 13, ..TINY };

const ONE_ROW: Settings = Settings {
    rows: 1,
    ath: 3,
    eth: 3,
    raaimt: 8,
    raammt: 16,
    refresh: RefreshMode::All,
    ecs_every: 0,
};

// A cycle of two activations, and 4 bank groups.
fn version() -> Version
    ensures { result ≡ record { cycle = 2; groups = 4 } }
{
    Version::new(2, 4).unwrap()
}

// Of no command yet.
fn fresh(alloc: Global) -> Result<Activity, OutOfMemory>
    ensures { IfOk result (λ activity. StandsFor activity one_row []) }
{
    let header = Header {
        timing: TIMING,
        settings: ONE_ROW,
        version: version(),
    };
    Activity::new(alloc, &header)
}

// Bank 0.
fn bank() -> Bank
    ensures { result ≡ record { group = 0; address = 0 } }
{
    Bank {
        group: Group::new(0).unwrap(),
        address: BankAddr::new(0).unwrap(),
    }
}

// Row 0.
fn row() -> Row
    ensures { result ≡ 0 }
{
    Row::new(0).unwrap()
}

// An ACT of row 0 of bank 0.
fn act() -> Command
    ensures { result ≡ opens }
{
    Command::Act(bank(), row())
}

// Appends the command to the log of both.
fn step(activity: &mut Activity, open_rows: &mut Banks, clock: u64, command: &Command)
    requires { (log : Log) × (Stand activity.old open_rows.old log) × MayCount one_row clock command.now log }
    ensures { (log : Log) → Stand activity.old open_rows.old log → MayCount one_row clock command.now log
        → Stand activity.new open_rows.new (record { clock = clock; command = command.now } ∷ log) }
{
    activity.issue(clock, command, open_rows, Some(ONE_ROW));
    open_rows.issue(command);
}

// Opens the row at the first clock and closes it at the second. What is known of it then.
fn open_and_close(activity: &mut Activity, open_rows: &mut Banks, first: u64, second: u64) -> Known
    requires { (log : Log) × (Stand activity.old open_rows.old log) × MayClose first second log }
    ensures { (log : Log) → Stand activity.old open_rows.old log → MayClose first second log
        → Stand activity.new open_rows.new (closed first second log) }
{
    step(activity, open_rows, first, &act());
    step(activity, open_rows, second, &Command::PreAb);
    known(activity)
}

// The counter of the row, the peak, and since when the alert is raised.
type Known = (u32, u32, Option<u64>);

// What is known of the row.
fn known(activity: &Activity) -> Known
    requires { (log : Log) × StandsFor activity.now one_row log }
{
    let count = activity.count(bank(), row());
    (count, activity.peak(), activity.alert().raised())
}

// Has the row managed. What is known of it then.
fn manage(activity: &mut Activity, open_rows: &mut Banks, clock: u64) -> Known
    requires { (log : Log) × (Stand activity.old open_rows.old log) × MayCount one_row clock AnyRfmAb log }
{
    step(activity, open_rows, clock, &Command::RfmAb);
    known(activity)
}

#[test]
fn a_row_is_hot_when_it_is_closed_for_the_third_time(rt: HostRuntime) -> Result<(), Fail> {
    let mut open_rows = Banks::new();
    let mut activity = fresh(rt.alloc())?;
    let once = open_and_close(&mut activity, &mut open_rows, 0, 6);
    let twice = open_and_close(&mut activity, &mut open_rows, 10, 16);
    let thrice = open_and_close(&mut activity, &mut open_rows, 20, 26);
    let managed = manage(&mut activity, &mut open_rows, 30);
    assert_eq!(rt; once, (1, 1, None));
    assert_eq!(rt; twice, (2, 2, None));
    assert_eq!(rt; thrice, (3, 3, Some(26)));
    assert_eq!(rt; managed, (0, 3, None));
    Ok(())
}

#[test]
fn laws_return() {
    Activity::log_is_counted();
}
