//! Both ends of the bus: what is asked of them.
ghost use Rattle.std.specs.Prelude.{ℕ, ◌≡◌, ◌+◌, ◌<◌, ◌≤◌, ◌^◌, ◌++◌, ◌↔◌, List, [], ◌∷◌, Option, Some, None, length, max, is_some, true, false, IfOk, IfErr, OnOk, OnErr, IsErr, IsTrue};
ghost use Rattle.command_words.specs.Geometry.{lines_of};
ghost use Rattle.speed_bin.specs.Alert.{alert as alert_after};
ghost use Rattle.speed_bin.specs.Counts.{peak as peak_after};
ghost use Rattle.speed_bin.specs.Header.{IsAccepted, bound, shape_of};
ghost use Rattle.command_words.specs.Kinds.{is_wr};
ghost use Rattle.speed_bin.specs.declared.header.Header.{Header as AnyHeader};
ghost use Rattle.requests.specs.Queue.{Step as NumberedStep, places, waiting, IsFull};
ghost use Rattle.requests.specs.declared.request.Request.{Request as AnyRequest};
ghost use Rattle.scheduler.specs.Controller.{StandsFor as ControllerFor};
ghost use Rattle.device_core.specs.Standing.{StandsFor as DeviceFor, IsBit, lent};
ghost use Rattle.device_core.specs.Steps.{log_of as device_log};
ghost use Rattle.device_core.specs.Stored.{answer, scrub_counts as scrub_counts_after};
ghost use Rattle.trace_replay.specs.Coupled.{Step, Flips, log_of, controller_steps, device_steps, with_pending, delivered, issued_in};
ghost use Rattle.trace_replay.specs.declared.ends.Ends.{Ends as AnyCoupled};

use crate::ends::{Ends, pending_in};
use command_words::{Place, encode};
use ddr_io::OutOfMemory;
use device_core::{Device, Reply};
use error_scrub::ScrubCounts;
use requests::{Request, RequestId};
use scheduler::{Clock, Controller, Turn};
use speed_bin::Header;
use std::alloc::Global;
use std::marker::Model;

/// One controller and one device. Both agree on one list: the device stands for it, and the controller for that list and
/// the command that is pending, if one is. It keeps no such list, and yet there is always one for which it stands, under the
/// header that it holds, so that what is asked of it speaks of no list.
#[derive(Drop)]
pub struct Coupled {
    ends: Ends,
}

impl Model for Coupled {
    ghost use Rattle.trace_replay.specs.Coupled.{StandsForSome};
    ghost use Rattle.trace_replay.specs.contracts.ends.Ends.{the_row as ends_row};
    ghost use Rattle.trace_replay.specs.declared.ends.Ends.{Ends};

    ghost Value = { Ends };

    ghost coded = { ends_row.coded };

    ghost view = { λ c. c.ends };

    ghost invariant = { λ c. StandsForSome c.ends };
}

#[tactic(auto, unfolding(crate::specs::Coupled::StandsFor, crate::specs::Coupled::controller_of, crate::specs::Coupled::device_of, crate::specs::Coupled::pending_of, crate::specs::Coupled::alert_of))]
impl Coupled {
    ghost use Rattle.trace_replay.specs.Coupled.{StandsFor, StandsForSome, After, IsAwaited, controller_of, device_of, pending_of, alert_of, header_of, from_of, until_of, finished_of};

    /// Both before their first command, at clock 0. No command is pending.
    #[inline(never)]
    pub fn new(alloc: Global, header: &Header) -> Result<Coupled, OutOfMemory>
        requires { IsAccepted header.now }
        ensures stands { IfOk result (λ c. StandsFor c header.now [] 0 []) }
        ensures header { IfOk result (λ c. header_of c ≡ header.now) }
        ensures pending { IfOk result (λ c. pending_of c ≡ None) }
        ensures from { IfOk result (λ c. from_of c ≡ 0) }
        ensures until { IfOk result (λ c. until_of c ≡ 0) }
        ensures finished { IfOk result (λ c. finished_of c ≡ false) }
    {
        Ok(Coupled {
            ends: Ends {
                controller: Controller::new(alloc, header)?,
                device: Device::new(alloc, header)?,
                pending: None,
                alert: false,
            },
        })
    }

    /// Takes a request and answers its number: 1, 2, 3 and so on. The request comes back exactly where 32 requests wait, or
    /// where those from the oldest waiting one to the newest offered one are 64, and then nothing changes. The line is below
    /// those of the header's geometry, and `finish` was not called.
    pub fn offer(&mut self, request: Request) -> Result<RequestId, Request>
        requires unfinished { finished_of self.old ≡ false }
        requires inside { request.line < lines_of (shape_of (header_of self.old)) }
        ensures stands { IfOk result (λ id. (h : AnyHeader) (offered : List AnyRequest) (idle : ℕ) (steps : List Step) → StandsFor self.old h offered idle steps
            → StandsFor self.new h (offered ++ request ∷ []) idle steps) }
        ensures number { IfOk result (λ id. (h : AnyHeader) (offered : List AnyRequest) (idle : ℕ) (steps : List Step) → StandsFor self.old h offered idle steps
            → id.0 ≡ length offered + 1) }
        ensures full { (h : AnyHeader) (offered : List AnyRequest) (idle : ℕ) (steps : List Step) → StandsFor self.old h offered idle steps
            → (IsErr result ↔ IsFull (length offered) (waiting h offered (with_pending (pending_of self.old) (controller_steps steps)))) }
        ensures back { IfErr result (λ it. it ≡ request) }
        ensures unchanged { OnErr result (self.new ≡ self.old) }
        ensures pending { pending_of self.new ≡ pending_of self.old }
        ensures header { header_of self.new ≡ header_of self.old }
        ensures from { from_of self.new ≡ from_of self.old }
        ensures until { until_of self.new ≡ until_of self.old }
        ensures finished { finished_of self.new ≡ finished_of self.old }
    {
        self.ends.controller.offer(request)
    }

    /// Lets clocks pass: the idle target is `now` and so many clocks. The last turn was `Idle`, and nothing was offered
    /// since.
    pub fn idle(&mut self, clocks: u64)
        requires { from_of self.old + clocks < 2 ^ 47 }
        ensures stands { (h : AnyHeader) (offered : List AnyRequest) (idle : ℕ) (steps : List Step) → StandsFor self.old h offered idle steps
            → StandsFor self.new h offered (idle + clocks) steps }
        ensures until { until_of self.new ≡ from_of self.old + clocks }
        ensures pending { pending_of self.new ≡ pending_of self.old }
        ensures header { header_of self.new ≡ header_of self.old }
        ensures from { from_of self.new ≡ from_of self.old }
        ensures finished { finished_of self.new ≡ finished_of self.old }
    {
        self.ends.controller.idle(clocks);
    }

    /// Says that no more requests come.
    pub fn finish(&mut self)
        ensures stands { (h : AnyHeader) (offered : List AnyRequest) (idle : ℕ) (steps : List Step) → StandsFor self.old h offered idle steps
            → StandsFor self.new h offered idle steps }
        ensures finished { finished_of self.new ≡ true }
        ensures pending { pending_of self.new ≡ pending_of self.old }
        ensures header { header_of self.new ≡ header_of self.old }
        ensures from { from_of self.new ≡ from_of self.old }
        ensures until { until_of self.new ≡ until_of self.old }
    {
        self.ends.controller.finish();
    }

    /// The clock before which no more commands come.
    pub fn now(&self) -> Clock
        ensures value { result ≡ from_of self.now }
        ensures stands { StandsForSome self.now }
    {
        self.ends.controller.now()
    }

    /// One turn of the controller, told of the device's alert. A command that it issues is pending then. None is before,
    /// and `now` is below 2^47.
    pub fn turn(&mut self) -> Turn
        requires pending { pending_of self.old ≡ None }
        requires bound { from_of self.old < 2 ^ 47 }
        ensures after { (h : AnyHeader) (offered : List AnyRequest) (idle : ℕ) (steps : List Step) → StandsFor self.old h offered idle steps
            → After result (from_of self.old) (until_of self.old) (finished_of self.old) h self.new offered idle steps }
        ensures pending { pending_of self.new ≡ issued_in result }
        ensures bound { from_of self.new ≤ max (from_of self.old) (until_of self.old) + 2 ^ 15 }
        ensures header { header_of self.new ≡ header_of self.old }
        ensures until { until_of self.new ≡ until_of self.old }
        ensures finished { finished_of self.new ≡ finished_of self.old }
    {
        scheduler::laws::inside();
        scheduler::laws::passed();
        let turn = self.ends.controller.next(self.ends.alert);
        self.ends.pending = pending_in(&turn);
        turn
    }

    /// Gives the pending command to the device, with the bytes of a WR, and answers the device's reply; then none is
    /// pending. A command is pending, and bytes come exactly where it is a WR. Only a WR takes memory; where there is none,
    /// the command is pending still, and all is as it was.
    pub fn deliver(&mut self, bytes: Option<&[u8; 64]>) -> Result<Reply, OutOfMemory>
        requires pending { IsAwaited (pending_of self.old) (lent bytes) }
        ensures stands { OnOk result ((h : AnyHeader) (offered : List AnyRequest) (idle : ℕ) (steps : List Step) (step : NumberedStep) → StandsFor self.old h offered idle steps
            → pending_of self.old ≡ Some step → StandsFor self.new h offered idle (delivered step (lent bytes.entry) ∷ steps)) }
        ensures line { IfOk result (λ reply. (h : AnyHeader) (offered : List AnyRequest) (idle : ℕ) (steps : List Step) (step : NumberedStep) → StandsFor self.old h offered idle steps
            → pending_of self.old ≡ Some step → reply.line ≡ answer h step.issued.command (device_steps steps)) }
        ensures alert { IfOk result (λ reply. (h : AnyHeader) (offered : List AnyRequest) (idle : ℕ) (steps : List Step) (step : NumberedStep) → StandsFor self.old h offered idle steps
            → pending_of self.old ≡ Some step → reply.alert ≡ is_some (alert_after h (step.issued ∷ log_of steps))) }
        ensures done { OnOk result (pending_of self.new ≡ None) }
        ensures only_writes { OnErr result ((step : NumberedStep) → pending_of self.old ≡ Some step → IsTrue (is_wr step.issued.command)) }
        ensures pending_kept { OnErr result (pending_of self.new ≡ pending_of self.old) }
        ensures unchanged { OnErr result ((h : AnyHeader) (offered : List AnyRequest) (idle : ℕ) (steps : List Step) → StandsFor self.old h offered idle steps
            → StandsFor self.new h offered idle steps) }
        ensures header { header_of self.new ≡ header_of self.old }
        ensures from { from_of self.new ≡ from_of self.old }
        ensures until { until_of self.new ≡ until_of self.old }
        ensures finished { finished_of self.new ≡ finished_of self.old }
    {
        Device::unchanged_stands();
        let pending = self.ends.pending.as_ref().unwrap();
        let clock = pending.clock;
        let words = encode(&pending.command);
        let reply = self.ends.device.step(clock, words, bytes)?;
        self.ends.alert = reply.alert;
        self.ends.pending = None;
        Ok(reply)
    }

    /// Turns one bit of one device's codeword. The device is below 4, the bit below 136. Where there is no memory, all is
    /// as it was.
    pub fn flip(&mut self, place: Place, device: u8, bit: u8) -> Result<(), OutOfMemory>
        requires { IsBit (header_of self.old) place device bit }
        ensures stands { OnOk result ((h : AnyHeader) (offered : List AnyRequest) (idle : ℕ) (steps : List Step) → StandsFor self.old h offered idle steps
            → StandsFor self.new h offered idle (Flips place device bit ∷ steps)) }
        ensures unchanged { OnErr result ((h : AnyHeader) (offered : List AnyRequest) (idle : ℕ) (steps : List Step) → StandsFor self.old h offered idle steps
            → StandsFor self.new h offered idle steps) }
        ensures pending { pending_of self.new ≡ pending_of self.old }
        ensures header { header_of self.new ≡ header_of self.old }
        ensures from { from_of self.new ≡ from_of self.old }
        ensures until { until_of self.new ≡ until_of self.old }
        ensures finished { finished_of self.new ≡ finished_of self.old }
    {
        Device::unchanged_stands();
        Device::list_is_legal();
        scheduler::laws::held();
        self.ends.device.flip(place, device, bit)
    }

    /// What the scrub found so far.
    pub fn scrub_counts(&self) -> ScrubCounts
        ensures { (h : AnyHeader) (offered : List AnyRequest) (idle : ℕ) (steps : List Step) → StandsFor self.now h offered idle steps
            → result ≡ scrub_counts_after h (device_steps steps) }
    {
        self.ends.device.scrub_counts()
    }

    /// The greatest number of activations since mitigation that a row had so far, the activation of an open row
    /// included.
    pub fn peak(&self) -> u32
        ensures peak { (h : AnyHeader) (offered : List AnyRequest) (idle : ℕ) (steps : List Step) → StandsFor self.now h offered idle steps
            → result ≡ peak_after h (log_of steps) }
        ensures bounded { (h : AnyHeader) (offered : List AnyRequest) (idle : ℕ) (steps : List Step) → StandsFor self.now h offered idle steps → result ≤ bound h }
    {
        self.ends.device.peak()
    }

    /// A law: the controller stands for the list with the pending command, the device for the list, the alert of the next
    /// turn is that of the list, and the header is the one that it holds.
    pub fn agrees()
        ensures controller { (c : AnyCoupled) (h : AnyHeader) (offered : List AnyRequest) (idle : ℕ) (steps : List Step) → StandsFor c h offered idle steps
            → ControllerFor h (controller_of c) offered idle (with_pending (pending_of c) (controller_steps steps)) }
        ensures device { (c : AnyCoupled) (h : AnyHeader) (offered : List AnyRequest) (idle : ℕ) (steps : List Step) → StandsFor c h offered idle steps
            → DeviceFor (device_of c) h (device_steps steps) }
        ensures alert { (c : AnyCoupled) (h : AnyHeader) (offered : List AnyRequest) (idle : ℕ) (steps : List Step) → StandsFor c h offered idle steps
            → alert_of c ≡ is_some (alert_after h (log_of steps)) }
        ensures header { (c : AnyCoupled) (h : AnyHeader) (offered : List AnyRequest) (idle : ℕ) (steps : List Step) → StandsFor c h offered idle steps
            → header_of c ≡ h }
    {
        scheduler::laws::held();
    }

    /// A law: the two lists are of one log.
    pub fn one_log()
        ensures controller { (steps : List Step) → places (controller_steps steps) ≡ log_of steps }
        ensures device { (steps : List Step) → device_log (device_steps steps) ≡ log_of steps }
    {}
}
