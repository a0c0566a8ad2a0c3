//! Tasks: what banks are closed for.
ghost use Rattle.std.specs.Prelude.{◌≡◌, ℕ, ◌<◌};
ghost use Rattle.deadlines.specs.Tasks.{command_of, precharge_of, task_covers};
ghost use Rattle.scheduler.specs.Task.{is_asked_for};
ghost use Rattle.scheduler.specs.Choice.{is_asked};

use crate::Clock;
use command_words::Command;
use deadlines::Task;

/// A task, and the clock before which its commands do not come.
#[derive(Clone, Copy, Debug, PartialEq, Eq)]
pub(crate) struct Errand {
    pub task: Task,
    pub start: Clock,
}

/// The command that the task ends with.
pub(crate) fn command_of(task: &Task) -> Command
    ensures { result ≡ command_of task.now }
{
    match task {
        Task::RfmAll => Command::RfmAb,
        Task::Ecs => Command::Ecs,
        Task::RefAll => Command::RefAb,
        Task::RefSame(address) => Command::RefSb(*address),
        Task::RfmSame(address) => Command::RfmSb(*address),
    }
}

/// The precharge that closes the banks of the task: PREab for a task that covers all banks, and otherwise PREsb of the
/// task's address.
pub(crate) fn precharge_of(task: &Task) -> Command
    ensures { result ≡ precharge_of task.now }
{
    match task {
        Task::RfmAll => Command::PreAb,
        Task::Ecs => Command::PreAb,
        Task::RefAll => Command::PreAb,
        Task::RefSame(address) => Command::PreSb(*address),
        Task::RfmSame(address) => Command::PreSb(*address),
    }
}

/// The owed banks that the task covers.
pub(crate) fn owed_for(task: &Task, owed: &[bool; 32]) -> [bool; 32]
    ensures { (b : ℕ) → b < 32 → is_asked result b ≡ is_asked_for task.now owed.now b }
{
    let mut asked = *owed;
    for number in 0..32 {
        asked[number] = owed[number] && covers(task, number);
    }
    asked
}

// Whether the task covers the bank with this number.
fn covers(task: &Task, number: usize) -> bool
    ensures { result ≡ task_covers task.now number }
{
    match task {
        Task::RfmAll => true,
        Task::Ecs => true,
        Task::RefAll => true,
        Task::RefSame(address) => number % 4 == address.get() as usize,
        Task::RfmSame(address) => number % 4 == address.get() as usize,
    }
}
