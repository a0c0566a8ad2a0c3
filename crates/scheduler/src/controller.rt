//! The controller: what is asked of it.
ghost use Rattle.std.specs.Prelude.{◌≡◌, ℕ, ◌+◌, ◌<◌, ◌≤◌, ◌^◌, ◌++◌, List, [], ◌∷◌, length, Some, None, max, is_some, true, false, IfOk, IfErr, OnErr, IsErr, ◌↔◌};
ghost use Rattle.command_words.specs.Geometry.{lines_of};
ghost use Rattle.speed_bin.specs.Alert.{alert as alert_of};
ghost use Rattle.speed_bin.specs.Header.{IsAccepted, shape_of};
ghost use Rattle.speed_bin.specs.declared.header.Header.{Header as AnyHeader};
ghost use Rattle.requests.specs.Queue.{Step, places, waiting, IsFull};
ghost use Rattle.requests.specs.declared.request.Request.{Request as AnyRequest};

use crate::Clock;
use crate::ledger::Ledger;
use crate::state::State;
use crate::turn::Turn;
use arrayvec::ArrayVec;
use backoff::Alert;
use ddr_io::OutOfMemory;
use deadlines::laws::{idle_line, offer as offered_one, start};
use mode_registers::writes;
use requests::laws::{after_excuse, after_offer, starts};
use requests::{Request, RequestId, Waiting};
use speed_bin::Header;
use std::alloc::Global;
use std::marker::Model;

/// A controller: the requests that it was offered and did not serve yet, and what it issued so far. There is always a list
/// of them for which it stands, under the header that it holds, so that what is asked of it speaks of no list.
#[derive(Drop)]
pub struct Controller {
    state: State,
}

impl Model for Controller {
    ghost use Rattle.speed_bin.specs.Header.{IsAccepted};
    ghost use Rattle.scheduler.specs.Controller.{StandsForSome};
    ghost use Rattle.scheduler.specs.declared.state.State.{State};

    ghost Value = { State };

    ghost view = { λ c. c.state };

    ghost invariant = { λ c. IsAccepted c.state.header × StandsForSome c.state };
}

#[tactic(auto, unfolding(crate::specs::Controller::StandsFor, crate::specs::Controller::header_of, crate::specs::Controller::from_of, crate::specs::Controller::until_of, crate::specs::Controller::finished_of, crate::specs::Controller::task_of))]
impl Controller {
    ghost use Rattle.scheduler.specs.Backoff.{AnswersAlert, IsPressed};
    ghost use Rattle.scheduler.specs.Controller.{StandsFor, StandsForSome, IsTold, After, header_of, from_of, until_of, finished_of, task_of, hidden_of};
    ghost use Rattle.scheduler.specs.Policy.{IsTurn, at_first, idled, ended};

    /// A controller to which nothing was offered and that issued nothing, at clock 0.
    pub fn new(alloc: Global, header: &Header) -> Result<Controller, OutOfMemory>
        requires { IsAccepted header.now }
        ensures stands { IfOk result (λ c. StandsFor header.now c [] 0 []) }
        ensures header { IfOk result (λ c. header_of c ≡ header.now) }
        ensures from { IfOk result (λ c. from_of c ≡ 0) }
        ensures until { IfOk result (λ c. until_of c ≡ 0) }
        ensures finished { IfOk result (λ c. finished_of c ≡ false) }
        ensures task { IfOk result (λ c. task_of c ≡ None) }
        ensures hidden { IfOk result (λ c. hidden_of c ≡ at_first) }
    {
        start();
        starts();
        let ledger = Ledger::new(alloc, header)?;
        Ok(Controller {
            state: State {
                header: *header,
                writes: writes(&header.settings),
                ledger,
                alert: Alert::new(),
                queue: ArrayVec::new(),
                offered: 0,
                until: 0,
                finished: false,
                task: None,
            },
        })
    }

    /// Takes a request and answers its number: 1, 2, 3 and so on. The request comes back exactly where 32 requests wait, or
    /// where those from the oldest waiting one to the newest offered one are 64, and then nothing changes. The line is below
    /// those of the header's geometry, and `finish` was not called.
    pub fn offer(&mut self, request: Request) -> Result<RequestId, Request>
        requires unfinished { finished_of self.old ≡ false }
        requires inside { request.line < lines_of (shape_of (header_of self.old)) }
        ensures stands { IfOk result (λ id. (h : AnyHeader) (offered : List AnyRequest) (idle : ℕ) (log : List Step) → StandsFor h self.old offered idle log
            → StandsFor h self.new (offered ++ request ∷ []) idle log) }
        ensures number { IfOk result (λ id. (h : AnyHeader) (offered : List AnyRequest) (idle : ℕ) (log : List Step) → StandsFor h self.old offered idle log
            → id.0 ≡ length offered + 1) }
        ensures full { (h : AnyHeader) (offered : List AnyRequest) (idle : ℕ) (log : List Step) → StandsFor h self.old offered idle log
            → (IsErr result ↔ IsFull (length offered) (waiting h offered log)) }
        ensures back { IfErr result (λ it. it ≡ request) }
        ensures unchanged { OnErr result (self.new ≡ self.old) }
        ensures header { header_of self.new ≡ header_of self.old }
        ensures from { from_of self.new ≡ from_of self.old }
        ensures until { until_of self.new ≡ until_of self.old }
        ensures finished { finished_of self.new ≡ finished_of self.old }
        ensures task { task_of self.new ≡ task_of self.old }
        ensures hidden { hidden_of self.new ≡ hidden_of self.old }
    {
        offered_one();
        after_offer();
        after_excuse();
        if self.state.is_full() {
            return Err(request);
        }
        self.state.offered += 1;
        let id = self.state.offered;
        let waiting = Waiting::new(id, request, self.state.header.geometry());
        self.state.queue.push(waiting);
        Ok(RequestId(id))
    }

    /// Lets clocks pass: the idle target is `now` and so many clocks. The last turn was `Idle`, and nothing was offered
    /// since.
    pub fn idle(&mut self, clocks: u64)
        requires { from_of self.old + clocks < 2 ^ 47 }
        ensures stands { (h : AnyHeader) (offered : List AnyRequest) (idle : ℕ) (log : List Step) → StandsFor h self.old offered idle log
            → StandsFor h self.new offered (idle + clocks) log }
        ensures until { until_of self.new ≡ from_of self.old + clocks }
        ensures header { header_of self.new ≡ header_of self.old }
        ensures from { from_of self.new ≡ from_of self.old }
        ensures finished { finished_of self.new ≡ finished_of self.old }
        ensures task { task_of self.new ≡ task_of self.old }
        ensures hidden { hidden_of self.new ≡ idled (hidden_of self.old) clocks }
    {
        idle_line();
        self.state.until = self.state.ledger.from + clocks;
    }

    /// Says that no more requests come.
    pub fn finish(&mut self)
        ensures stands { (h : AnyHeader) (offered : List AnyRequest) (idle : ℕ) (log : List Step) → StandsFor h self.old offered idle log
            → StandsFor h self.new offered idle log }
        ensures finished { finished_of self.new ≡ true }
        ensures task { task_of self.new ≡ task_of self.old }
        ensures header { header_of self.new ≡ header_of self.old }
        ensures from { from_of self.new ≡ from_of self.old }
        ensures until { until_of self.new ≡ until_of self.old }
        ensures hidden { hidden_of self.new ≡ ended (hidden_of self.old) }
    {
        after_excuse();
        self.state.finished = true;
    }

    /// The clock before which no more commands come.
    pub fn now(&self) -> Clock
        ensures value { result ≡ from_of self.now }
        ensures stands { StandsForSome self.now }
    {
        self.state.ledger.from
    }

    /// One turn. `alert` says whether the device's alert is raised; `now` is below 2^47.
    pub fn next(&mut self, alert: bool) -> Turn
        requires bound { from_of self.old < 2 ^ 47 }
        requires told { IsTold self.old alert }
        ensures after { (h : AnyHeader) (offered : List AnyRequest) (idle : ℕ) (log : List Step) → StandsFor h self.old offered idle log → alert ≡ is_some (alert_of h (places log))
            → After result (from_of self.old) (until_of self.old) (finished_of self.old) h self.new offered idle log }

        // Under a raised alert RFM of all banks is served exactly where the policy has a reason to stop serving requests.
        ensures backs_off { (h : AnyHeader) (offered : List AnyRequest) (idle : ℕ) (log : List Step) (raised : ℕ) → StandsFor h self.old offered idle log → alert ≡ is_some (alert_of h (places log))
            → 8 ≤ length log → alert_of h (places log) ≡ Some raised
            → (AnswersAlert result (task_of self.new) ↔ IsPressed h (waiting h offered log) (places log) (from_of self.old) (task_of self.old) raised) }

        // The turn is the one that the policy asks for, and so is what it leaves.
        ensures by_policy { (h : AnyHeader) (offered : List AnyRequest) (idle : ℕ) (log : List Step) → StandsFor h self.old offered idle log → alert ≡ is_some (alert_of h (places log))
            → IsTurn h (hidden_of self.old) (waiting h offered log) (places log) result (hidden_of self.new) }

        ensures bound { from_of self.new ≤ max (from_of self.old) (until_of self.old) + 2 ^ 15 }
        ensures header { header_of self.new ≡ header_of self.old }
        ensures until { until_of self.new ≡ until_of self.old }
        ensures finished { finished_of self.new ≡ finished_of self.old }
    {
        self.state.next(alert)
    }
}
