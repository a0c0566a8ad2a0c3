//! What a controller holds.
ghost use Rattle.std.specs.Prelude.{◌≡◌, ℕ, ◌<◌, List, length, false, IsTrue, ◌↔◌};
ghost use Rattle.speed_bin.specs.declared.header.Header.{Header as AnyHeader};
ghost use Rattle.requests.specs.Queue.{Step, waiting, span, IsFull};
ghost use Rattle.requests.specs.declared.request.Request.{Request as AnyRequest};

use crate::Clock;
use crate::choice::waiting_at;
use crate::ledger::Ledger;
use arrayvec::ArrayVec;
use backoff::Alert;
use command_words::Mrw;
use deadlines::Task;
use requests::Waiting;
use requests::laws::queued;
use speed_bin::Header;

/// The requests that a controller was offered and did not serve yet, and what it issued so far.
#[derive(Drop)]
pub(crate) struct State {
    pub header: Header,
    // the register writes that come first
    pub writes: ArrayVec<Mrw, 8>,
    pub ledger: Ledger,
    // the alert as far as it was seen: it may have come with the last command
    pub alert: Alert,
    // the requests that wait, the oldest first
    pub queue: ArrayVec<Waiting, 32>,
    // how many requests were taken
    pub offered: u64,
    // the idle target
    pub until: Clock,
    pub finished: bool,
    pub task: Option<Task>,
}

#[tactic(auto, unfolding(crate::specs::Controller::StandsFor))]
impl State {
    ghost use Rattle.scheduler.specs.Controller.{StandsFor, StandsForSome};

    // Whether 32 requests wait, or 64 stand from the oldest waiting one to the newest offered one.
    pub(crate) fn is_full(&self) -> bool
        requires { StandsForSome self.now }
        ensures room { result ≡ false → length self.now.queue.items < 32 }
        ensures full { (h : AnyHeader) (offered : List AnyRequest) (idle : ℕ) (log : List Step) → StandsFor h self.now offered idle log
            → (IsTrue result ↔ IsFull (length offered) (waiting h offered log)) }
    {
        self.queue.is_full() || self.span() == 64
    }

    // How many requests stand from the oldest waiting one to the newest offered one.
    fn span(&self) -> u64
        requires { StandsForSome self.now }
        ensures { (h : AnyHeader) (offered : List AnyRequest) (idle : ℕ) (log : List Step) → StandsFor h self.now offered idle log
            → result ≡ span (length offered) (waiting h offered log) }
    {
        queued();
        if self.queue.is_empty() {
            return 0;
        }
        self.offered - waiting_at(self.queue.as_slice(), 0).id + 1
    }
}
