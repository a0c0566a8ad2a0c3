//! One turn of the controller, by the numbered steps of the policy.
ghost use Rattle.std.specs.Prelude.{◌≡◌, ℕ, ◌+◌, ◌<◌, ◌≤◌, ◌^◌, List, [], ◌∷◌, length, Option, Some, None, Bool, true, false, max, is_some, IfSome, IfNone, IsTrue, ◌↔◌, slice_get};
ghost use Rattle.speed_bin.specs.Alert.{alert as alert_of};
ghost use Rattle.command_words.specs.Kinds.{is_rfm_all};
ghost use Rattle.speed_bin.specs.Header.{IsAccepted};
ghost use Rattle.speed_bin.specs.Log.{Log};
ghost use Rattle.speed_bin.specs.declared.header.Header.{Header as AnyHeader};
ghost use Rattle.command_words.specs.declared.command.Command.TheVariants.{Mrw as AnyMrw, PreAb as AnyPreAb};
ghost use Rattle.command_words.specs.declared.command.Mrw.{Mrw as Write};
ghost use Rattle.requests.specs.Queue.{Step, places, waiting};
ghost use Rattle.requests.specs.declared.request.Request.{Request as AnyRequest};
ghost use Rattle.requests.specs.declared.waiting.Waiting.{Waiting as AnyWaiting};
ghost use Rattle.scheduler.specs.declared.choice.Class.TheVariants.{Column};
ghost use Rattle.scheduler.specs.Controller.{BetweenTurns, StandsFor, IsTold, After, AtRest, from_of, until_of, finished_of, task_of, hidden_of};
ghost use Rattle.scheduler.specs.Backoff.{AnswersAlert, IsPressed, issues_rfm_all};
ghost use Rattle.scheduler.specs.Ledger.{StandsFor as LedgerStandsFor, MayIssue, Suits};
ghost use Rattle.scheduler.specs.Policy.{IsTurn, IssuesFor, IssuesSoonest, RestsAt, ServesTask, WritesRegister};
ghost use Rattle.scheduler.specs.Steps.{IsAwake, IsReady, IsReadySoon, IsReadyFor, IsErrand, IsServing, IsResting, alert_left, hidden_in};
ghost use Rattle.scheduler.specs.Laws.{Laws, DeadlineLaws, RequestLaws};

use crate::Clock;
use crate::choice::{Candidate, Class, choose, command_for, waiting_at};
use crate::decision::soonest_of;
use crate::state::State;
use crate::task::{Errand, command_of, owed_for, precharge_of};
use crate::turn::Turn;
use backoff::Alert;
use command_words::{Command, Mrw};
use deadlines::Task;
use requests::RequestId;

#[tactic(auto, unfolding(crate::specs::Controller::StandsFor, crate::specs::Controller::from_of, crate::specs::Controller::until_of, crate::specs::Controller::finished_of, crate::specs::Controller::task_of))]
impl State {
    /// One turn.
    pub(crate) fn next(&mut self, alert: bool) -> Turn
        requires bound { from_of self.old < 2 ^ 47 }
        requires accepted { IsAccepted self.old.header }
        requires told { IsTold self.old alert }
        ensures after { (h : AnyHeader) (offered : List AnyRequest) (idle : ℕ) (log : List Step) → StandsFor h self.old offered idle log → alert ≡ is_some (alert_of h (places log))
            → After result (from_of self.old) (until_of self.old) (finished_of self.old) h self.new offered idle log }
        ensures backs_off { (h : AnyHeader) (offered : List AnyRequest) (idle : ℕ) (log : List Step) (raised : ℕ) → StandsFor h self.old offered idle log → alert ≡ is_some (alert_of h (places log))
            → 8 ≤ length log → alert_of h (places log) ≡ Some raised
            → (AnswersAlert result (task_of self.new) ↔ IsPressed h (waiting h offered log) (places log) (from_of self.old) (task_of self.old) raised) }
        ensures by_policy { (h : AnyHeader) (offered : List AnyRequest) (idle : ℕ) (log : List Step) → StandsFor h self.old offered idle log → alert ≡ is_some (alert_of h (places log))
            → IsTurn h (hidden_of self.old) (waiting h offered log) (places log) result (hidden_of self.new) }
        ensures bound { from_of self.new ≤ max (from_of self.old) (until_of self.old) + 2 ^ 15 }
        ensures header { self.new.header ≡ self.old.header }
        ensures until { until_of self.new ≡ until_of self.old }
        ensures finished { finished_of self.new ≡ finished_of self.old }
    {
        self.see(alert);
        if self.ledger.written < 8 {
            return self.write_register();
        }
        let choice = choose(self.queue.as_slice(), &self.ledger, &[true; 32]);
        let soonest = soonest_of(choice, self.ledger.from, self.until);
        turn_laws();
        if let Some(errand) = self.errand_at(choice, soonest) {
            return self.serve_task(errand);
        }
        match choice {
            Some(candidate) => self.issue_candidate(&candidate, None),
            None => self.rest(),
        }
    }
}

impl State {
    // An alert that was not seen before came with the last command.
    fn see(&mut self, alert: bool)
        requires { IsTold self.old alert }
        ensures awake { (h : AnyHeader) (offered : List AnyRequest) (idle : ℕ) (log : List Step) → BetweenTurns h self.old offered idle log → alert ≡ is_some (alert_of h (places log))
            → IsAwake self.new h offered idle log }
        ensures rest { self.new ≡ record self.old { alert = self.new.alert } }
    {
        if alert {
            self.alert.after_precharge(self.ledger.from - 1, true, true);
        }
    }

    /// Step 1. As long as not all eight register writes were issued, the next of them is issued at its e.
    fn write_register(&mut self) -> Turn
        requires bound { self.old.ledger.from < 2 ^ 47 }
        requires starting { self.old.ledger.written < 8 }
        requires awake { ∥ ((h : AnyHeader) × (offered : List AnyRequest) × (idle : ℕ) × (log : List Step) × IsAwake self.old h offered idle log) ∥₁ }
        ensures after { (h : AnyHeader) (offered : List AnyRequest) (idle : ℕ) (log : List Step) → IsAwake self.old h offered idle log
            → After result self.old.ledger.from self.old.until self.old.finished h self.new offered idle log }
        ensures policy { (h : AnyHeader) (offered : List AnyRequest) (idle : ℕ) (log : List Step) → IsAwake self.old h offered idle log
            → WritesRegister h (hidden_in self.old) (places log) result (hidden_in self.new) }
        ensures bound { self.new.ledger.from ≤ max self.old.ledger.from self.old.until + 2 ^ 15 }
        ensures header { self.new.header ≡ self.old.header }
        ensures until { self.new.until ≡ self.old.until }
        ensures finished { self.new.finished ≡ self.old.finished }
    {
        turn_laws();
        let command = Command::Mrw(write_at(self.writes.as_slice(), self.ledger.written));
        self.issue_soonest(command, None)
    }

    /// Step 6. Where a task is set, one command is issued at its e; the first of these cases that applies says which. The task
    /// covers an owed bank: each owed bank that it covers offers the RD or WR of its oldest hit, and of these the one with the
    /// least e comes, where several share it the one whose request is oldest. The task covers an open bank: PREab for a task
    /// that covers all banks, else PREsb of the task's address. Otherwise: the task's own command, and no task is set any more.
    fn serve_task(&mut self, errand: Errand) -> Turn
        requires bound { self.old.ledger.from < 2 ^ 47 }
        requires serving { ∥ ((h : AnyHeader) × (offered : List AnyRequest) × (idle : ℕ) × (log : List Step) × IsServing self.old h offered idle log errand) ∥₁ }
        ensures after { (h : AnyHeader) (offered : List AnyRequest) (idle : ℕ) (log : List Step) → IsServing self.old h offered idle log errand
            → After result self.old.ledger.from self.old.until self.old.finished h self.new offered idle log }
        ensures policy { (h : AnyHeader) (offered : List AnyRequest) (idle : ℕ) (log : List Step) → IsServing self.old h offered idle log errand
            → ServesTask h (hidden_in self.old) (waiting h offered log) (places log) errand result (hidden_in self.new) }
        ensures backs_off { errand.task ≡ Task.RfmAll → AnswersAlert result self.new.task }
        ensures bound { self.new.ledger.from ≤ max self.old.ledger.from self.old.until + 2 ^ 15 }
        ensures header { self.new.header ≡ self.old.header }
        ensures until { self.new.until ≡ self.old.until }
        ensures finished { self.new.finished ≡ self.old.finished }
    {
        turn_laws();
        self.ledger.wait_until(errand.start);
        let asked = owed_for(&errand.task, &self.ledger.owed);
        if let Some(candidate) = choose(self.queue.as_slice(), &self.ledger, &asked) {
            return self.issue_candidate(&candidate, Some(errand.task));
        }
        let command = command_of(&errand.task);
        if !self.ledger.fits(&command) {
            return self.issue_soonest(precharge_of(&errand.task), Some(errand.task));
        }
        self.issue_soonest(command, None)
    }

    /// Step 7. Where no task is set and there is a candidate, the candidate with the least e is issued at that clock. Where
    /// several share it, an RD or WR is taken before an ACT and an ACT before a PREpb, and among the same kind the one whose
    /// request is oldest (for a PREpb the oldest request of its bank).
    fn issue_candidate(&mut self, candidate: &Candidate, task: Option<Task>) -> Turn
        requires ready { ∥ ((from : ℕ) × (until : ℕ) × (finished : Bool) × (h : AnyHeader) × (offered : List AnyRequest) × (idle : ℕ) × (log : List Step) × IsReadyFor self.old from until finished h offered idle log candidate.now task) ∥₁ }
        ensures after { (from until : ℕ) (finished : Bool) (h : AnyHeader) (offered : List AnyRequest) (idle : ℕ) (log : List Step) → IsReadyFor self.old from until finished h offered idle log candidate.now task
            → After result from until finished h self.new offered idle log }
        ensures policy { (w : AnyWaiting) → slice_get self.old.queue.items candidate.now.at ≡ Some w
            → IssuesFor (record { need = candidate.now.class; request = w; clock = candidate.now.clock }) (hidden_in self.old) task result (hidden_in self.new) }
        ensures from { self.new.ledger.from ≡ candidate.now.clock + 1 }
        ensures task { self.new.task ≡ task }
        ensures serves { issues_rfm_all result ≡ false }
        ensures header { self.new.header ≡ self.old.header }
        ensures until { self.new.until ≡ self.old.until }
        ensures finished { self.new.finished ≡ self.old.finished }
    {
        turn_laws();
        let waiting = waiting_at(self.queue.as_slice(), candidate.at);
        let command = command_for(candidate.class, &waiting);
        self.issue(candidate.clock, &command, task);
        if is_column(candidate.class) {
            self.queue.remove(candidate.at);
            Turn::Issue(candidate.clock, command, Some(RequestId(waiting.id)))
        } else {
            Turn::Issue(candidate.clock, command, None)
        }
    }

    /// Step 8. Where there is neither a task nor a candidate, `now` becomes e0. As long as the end was not announced, the answer
    /// is Idle. After that it is a PREab at its e, as long as a bank is open, and at last Done.
    fn rest(&mut self) -> Turn
        requires bound { self.old.ledger.from < 2 ^ 47 }
        requires resting { ∥ ((h : AnyHeader) × (offered : List AnyRequest) × (idle : ℕ) × (log : List Step) × IsResting self.old h offered idle log) ∥₁ }
        ensures after { (h : AnyHeader) (offered : List AnyRequest) (idle : ℕ) (log : List Step) → IsResting self.old h offered idle log
            → After result self.old.ledger.from self.old.until self.old.finished h self.new offered idle log }
        ensures policy { (h : AnyHeader) (offered : List AnyRequest) (idle : ℕ) (log : List Step) → IsResting self.old h offered idle log
            → RestsAt h (hidden_in self.old) (places log) result (hidden_in self.new) }
        ensures bound { self.new.ledger.from ≤ max self.old.ledger.from self.old.until + 2 ^ 15 }
        ensures header { self.new.header ≡ self.old.header }
        ensures until { self.new.until ≡ self.old.until }
        ensures finished { self.new.finished ≡ self.old.finished }
    {
        turn_laws();
        let soonest = self.ledger.from.max(self.until);
        self.ledger.wait_until(soonest);
        if !self.finished {
            return Turn::Idle;
        }
        if self.ledger.log.all_closed() {
            return Turn::Done;
        }
        self.issue_soonest(Command::PreAb, None)
    }

    // Issues a command that serves no request, at its e, and leaves this task.
    fn issue_soonest(&mut self, command: Command, task: Option<Task>) -> Turn
        requires ready { ∥ ((from : ℕ) × (until : ℕ) × (finished : Bool) × (h : AnyHeader) × (offered : List AnyRequest) × (idle : ℕ) × (log : List Step) × IsReadySoon self.old from until finished h offered idle log command task) ∥₁ }
        ensures after { (from until : ℕ) (finished : Bool) (h : AnyHeader) (offered : List AnyRequest) (idle : ℕ) (log : List Step) → IsReadySoon self.old from until finished h offered idle log command task
            → After result from until finished h self.new offered idle log }
        ensures policy { (h : AnyHeader) (log : Log) → LedgerStandsFor self.old.ledger h log
            → IssuesSoonest h log self.old.ledger.from command (hidden_in self.old) task result (hidden_in self.new) }
        ensures bound { (from until : ℕ) (finished : Bool) (h : AnyHeader) (offered : List AnyRequest) (idle : ℕ) (log : List Step) → IsReadySoon self.old from until finished h offered idle log command task
            → self.new.ledger.from ≤ max from until + 2 ^ 15 }
        ensures task { self.new.task ≡ task }
        ensures command { issues_rfm_all result ≡ is_rfm_all command }
        ensures header { self.new.header ≡ self.old.header }
        ensures until { self.new.until ≡ self.old.until }
        ensures finished { self.new.finished ≡ self.old.finished }
    {
        turn_laws();
        let clock = self.ledger.soonest(&command);
        self.issue(clock, &command, task);
        Turn::Issue(clock, command, None)
    }

    // Issues a command at this clock, and leaves this task.
    fn issue(&mut self, clock: Clock, command: &Command, task: Option<Task>)
        requires small { clock + 1 < 2 ^ 48 }
        requires may { MayIssue self.old.ledger clock command.now }
        ensures ledger { (h : AnyHeader) (log : Log) → LedgerStandsFor self.old.ledger h log → Suits self.old.ledger h log clock command.now
            → LedgerStandsFor self.new.ledger h (record { clock = clock; command = command.now } ∷ log) }
        ensures from { self.new.ledger.from ≡ clock + 1 }
        ensures alert { self.new.alert ≡ alert_left command.now self.old.alert }
        ensures rest { self.new ≡ record self.old { ledger = self.new.ledger; alert = self.new.alert; task = task } }
    {
        self.ledger.issue(clock, command);
        take_back(&mut self.alert, command);
        self.task = task;
    }
}

// The laws of the deadlines and of the requests that a turn rests on.
fn turn_laws()
    ensures { Laws }
{
    deadline_laws();
    request_laws();
}

fn deadline_laws()
    ensures { DeadlineLaws }
{
    deadlines::laws::start();
    deadlines::laws::turn();
    deadlines::laws::soon();
    deadlines::laws::rest();
}

fn request_laws()
    ensures { RequestLaws }
{
    requests::laws::after_excuse();
    requests::laws::after_column();
    requests::laws::after_activate();
    requests::laws::after_precharge();
    requests::laws::after_closing();
    requests::laws::after_management();
    requests::laws::after_write();
    requests::laws::spared();
    requests::laws::queued();
}

// The register write with this number, from 0.
fn write_at(writes: &[Mrw], at: usize) -> Mrw
    requires eight { length writes.now ≡ 8 }
    requires low { at < 8 }
    ensures { slice_get writes.now at ≡ Some result }
{
    writes[at]
}

fn is_column(class: Class) -> bool
    ensures { IsTrue result ↔ (class ≡ Column) }
{
    match class {
        Class::Column => true,
        Class::Activate => false,
        Class::Precharge => false,
    }
}

// An RFMab takes the alert back.
fn take_back(alert: &mut Alert, command: &Command)
    ensures { alert.new ≡ alert_left command.now alert.old }
{
    if let Command::RfmAb = command {
        alert.after_rfm_all();
    }
}
