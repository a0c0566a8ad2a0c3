//! The requests that a replay keeps until their answers are written.
ghost use Rattle.std.specs.Prelude.{◌≡◌, ◌+◌, ◌<◌, ◌≤◌, ◌^◌, ◌++◌, ◌==◌, [], ◌∷◌, length, is_some, option_copied, IfOk, IfNone, OnSome, Some};
ghost use Rattle.trace_replay.specs.RequestBuffer.{Has, first_served, has_ended, next_of, replaced, request_at, with_outcome, without_first};
ghost use Rattle.trace_replay.specs.declared.request_buffer.HeldRequest.{HeldRequest as AnyRequest};

use circular_buffer::HeapCircularBuffer;
use ddr_io::OutOfMemory;
use error_scrub::LineRead;
use requests::Request;
use std::alloc::Global;
use std::marker::Model;

/// What came of a request.
#[derive(Clone, Copy, Debug, PartialEq, Eq)]
pub enum Outcome {
    /// No command served it yet.
    Unserved,
    /// A WR served it.
    Wrote,
    /// An RD served it, and found this.
    Found(LineRead),
}

/// A request of a trace that is kept.
#[derive(Clone, Copy, Debug, PartialEq, Eq)]
pub struct HeldRequest {
    /// The number of its line in the trace, from 1.
    pub number: u64,
    pub request: Request,
    /// The bytes that a write brings.
    pub bytes: Option<[u8; 64]>,
    pub outcome: Outcome,
}

/// At most 64 requests, the oldest first. The controller numbered them one after another.
#[derive(Drop)]
pub struct RequestBuffer {
    first: u64,
    items: HeapCircularBuffer<HeldRequest>,
}

impl Model for RequestBuffer {
    ghost use Rattle.std.specs.Prelude.{◌≡◌, ◌+◌, ◌≤◌, ◌^◌, length};
    ghost use Rattle.trace_replay.specs.RequestBuffer.{Kept};

    ghost Value = { Kept };

    ghost view = { λ s. record { first = s.first; items = s.items.items } };

    ghost invariant = { λ s. (s.items.capacity ≡ 64) × (length s.items.items ≤ 64) × (s.first + length s.items.items ≤ 2 ^ 48) };
}

impl RequestBuffer {
    /// No request, before the first one is offered. It takes the memory for all 64.
    pub fn new(alloc: Global) -> Result<RequestBuffer, OutOfMemory>
        ensures { IfOk result (λ it. it ≡ record { first = 1; items = [] }) }
    {
        match HeapCircularBuffer::with_capacity(alloc, 64) {
            Ok(items) => Ok(RequestBuffer { first: 1, items }),
            Err(_) => Err(OutOfMemory),
        }
    }

    /// Whether it keeps 64 requests.
    pub fn is_full(&self) -> bool
        ensures { result ≡ (length self.now.items == 64) }
    {
        self.items.len() == 64
    }

    /// Whether it keeps none.
    pub fn is_empty(&self) -> bool
        ensures { result ≡ (length self.now.items == 0) }
    {
        self.items.len() == 0
    }

    /// Keeps the request that the controller numbered last. Fewer than 64 are kept, and fewer than 2^48 were.
    pub fn push(&mut self, held: HeldRequest)
        requires room { length self.old.items < 64 }
        requires few { next_of self.old < 2 ^ 48 }
        ensures { self.new ≡ record { first = self.old.first; items = self.old.items ++ held ∷ [] } }
    {
        let _kept = self.items.try_push_back(held);
    }

    /// The request that the controller gave this number, if it is kept.
    pub fn get(&self, id: u64) -> Option<&HeldRequest>
        ensures { option_copied result ≡ request_at self.now id }
    {
        if id < self.first {
            return None;
        }
        self.items.get((id - self.first) as usize)
    }

    /// Notes what came of the request that the controller gave this number.
    pub fn note(&mut self, id: u64, outcome: Outcome)
        requires { Has self.old id }
        ensures outcome { (held : AnyRequest) → request_at self.old id ≡ Some held → self.new ≡ replaced self.old id (with_outcome held outcome) }
        ensures first { self.new.first ≡ self.old.first }
        ensures length { length self.new.items ≡ length self.old.items }
    {
        if let Some(held) = self.items.get_mut((id - self.first) as usize) {
            held.outcome = outcome;
        }
    }

    /// Takes out the first request, if a command served it.
    pub fn pop_served(&mut self) -> Option<HeldRequest>
        ensures first { result ≡ first_served self.old.items }
        ensures some { OnSome result (self.new ≡ without_first self.old) }
        ensures none { IfNone result (self.new ≡ self.old) }
    {
        if !self.is_first_served() {
            return None;
        }
        self.first += 1;
        self.items.pop_front()
    }

    // Whether there is a first request and a command served it.
    fn is_first_served(&self) -> bool
        ensures { result ≡ is_some (first_served self.now.items) }
    {
        match self.items.front() {
            Some(held) => is_served(&held.outcome),
            None => false,
        }
    }
}

fn is_served(outcome: &Outcome) -> bool
    ensures { result ≡ has_ended outcome.now }
{
    match outcome {
        Outcome::Unserved => false,
        Outcome::Wrote => true,
        Outcome::Found(_) => true,
    }
}
