//! Which task a turn serves.
ghost use Rattle.std.specs.Prelude.{◌≡◌, ℕ, ◌+◌, ◌<◌, ◌≤◌, ◌^◌, List, Option, Some, None, Bool, true, false, max, IfSome, IfNone, IsSome};
ghost use Rattle.speed_bin.specs.Alert.{alert as alert_of};
ghost use Rattle.speed_bin.specs.Timing.{IsTiming};
ghost use Rattle.speed_bin.specs.declared.header.Header.{Header as AnyHeader};
ghost use Rattle.requests.specs.Queue.{Step, places};
ghost use Rattle.requests.specs.declared.request.Request.{Request as AnyRequest};
ghost use Rattle.deadlines.specs.Turns.{LooksTo};
ghost use Rattle.scheduler.specs.Steps.{IsAwake, IsCaused, IsFree, IsErrand, IsPatient, Urges, refresh_task, soonest_in};

use crate::Clock;
use crate::choice::Candidate;
use crate::state::State;
use crate::task::Errand;
use deadlines::Task;
use refresh_plan::Due;

impl State {
    /// Step 4, back-off. Under a raised alert any one of six reasons is enough for RFM of all banks to become the task: a task
    /// is set already; there is no candidate; e0 is above a + nABO; an ECS is due; a refresh is due at e0; an RFM is wanted.
    fn must_back_off(&self, choice: Option<Candidate>, soonest: Clock) -> bool
        requires small { soonest < 2 ^ 48 }
        requires timing { IsTiming self.now.header.timing }
        ensures backs_off { (h : AnyHeader) (offered : List AnyRequest) (idle : ℕ) (log : List Step) → IsAwake self.now h offered idle log → result ≡ true → IsSome (alert_of h (places log)) }
        ensures urged { (h : AnyHeader) (offered : List AnyRequest) (idle : ℕ) (log : List Step) (raised : ℕ) → IsAwake self.now h offered idle log → result ≡ true → alert_of h (places log) ≡ Some raised → Urges self.now h (places log) choice soonest raised }
        ensures stays_patient { (h : AnyHeader) (offered : List AnyRequest) (idle : ℕ) (log : List Step) → IsAwake self.now h offered idle log → result ≡ false → IsPatient self.now h (places log) choice soonest }
    {
        let Some(last) = self.alert.last_activate(&self.header.timing) else {
            return false;
        };
        if self.task.is_some() {
            return true;
        }
        if choice.is_none() {
            return true;
        }
        if soonest > last {
            return true;
        }
        if self.ledger.log.ecs_due() {
            return true;
        }
        if self.ledger.log.due(soonest).is_some() {
            return true;
        }
        self.ledger.log.wanted().is_some()
    }

    /// Step 5. Where no task is set, the first of these sets one: an ECS that is due; a refresh that is due at e0, which is at a
    /// debt of two intervals, and where the least clock at which it is due is above `now`, `now` becomes that clock; where an
    /// RFM is wanted, RFM of a bank address, the least one with a bank at RAAIMT.
    pub(crate) fn errand_at(&self, choice: Option<Candidate>, soonest: Clock) -> Option<Errand>
        requires small { soonest < 2 ^ 48 }
        requires timing { IsTiming self.now.header.timing }
        ensures none { IfNone result ((h : AnyHeader) (offered : List AnyRequest) (idle : ℕ) (log : List Step) → IsAwake self.now h offered idle log → IsFree self.now h (places log) choice soonest) }
        ensures some { IfSome result (λ errand. (h : AnyHeader) (offered : List AnyRequest) (idle : ℕ) (log : List Step) → IsAwake self.now h offered idle log
            → LooksTo h (places log) self.now.ledger.from self.now.until soonest → self.now.ledger.from ≤ soonest
            → IsErrand self.now h (places log) soonest errand) }
        ensures backs_off { IfSome result (λ errand. (h : AnyHeader) (offered : List AnyRequest) (idle : ℕ) (log : List Step) (raised : ℕ) → IsAwake self.now h offered idle log → alert_of h (places log) ≡ Some raised
            → (errand.task ≡ Task.RfmAll) × Urges self.now h (places log) choice soonest raised) }
        ensures caused { IfSome result (λ errand. (h : AnyHeader) (offered : List AnyRequest) (idle : ℕ) (log : List Step) → IsAwake self.now h offered idle log
            → IsCaused self.now h (places log) choice soonest errand) }
    {
        let start = self.ledger.from;
        if self.must_back_off(choice, soonest) {
            let task = Task::RfmAll;
            return Some(Errand { task, start });
        }
        if let Some(task) = self.task {
            return Some(Errand { task, start });
        }
        if self.ledger.log.ecs_due() {
            let task = Task::Ecs;
            return Some(Errand { task, start });
        }
        if let Some(due) = self.ledger.log.due(soonest) {
            let task = refresh_of(due);
            let start = start.max(self.ledger.log.next_due());
            return Some(Errand { task, start });
        }
        if let Some(address) = self.ledger.log.wanted() {
            let task = Task::RfmSame(address);
            return Some(Errand { task, start });
        }
        None
    }
}

fn refresh_of(due: Due) -> Task
    ensures { result ≡ refresh_task due }
{
    match due {
        Due::All => Task::RefAll,
        Due::Same(address) => Task::RefSame(address),
    }
}

/// Step 3. e0: the least e among the candidates, and where there are none, the greater of `now` and the idle target.
pub(crate) fn soonest_of(choice: Option<Candidate>, from: Clock, until: Clock) -> Clock
    ensures { result ≡ soonest_in choice from until }
{
    match choice {
        Some(candidate) => candidate.clock,
        None => from.max(until),
    }
}
