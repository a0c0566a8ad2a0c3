//! A sink into memory, with faults.
ghost use Rattle.std.specs.Prelude.{ℕ, ◌≡◌, ◌≢◌, [], ◌<◌, ◌≤◌, length, Some};
ghost use Rattle.ddr_io.specs.Faults.{Rose};
ghost use Rattle.ddr_io.specs.Sink.{TakesAtMost, Takes};
ghost use Rattle.ddr_io.specs.Calls.{next_fails, one_more_call};
ghost use Rattle.ddr_io.specs.MemorySink.{WritesOrFails};

use crate::calls::Calls;
use crate::{PlainSink, Put, Sink};
use std::alloc::Global;
use std::marker::Model;

/// A sink into memory that fails at listed calls.
///
/// Contracts see the bytes that were written, and its calls: the numbers of those that fail, how
/// many were made, and how many failed.
#[derive(Drop)]
pub struct MemorySink {
    sink: PlainSink,
    calls: Calls,
}

impl Model for MemorySink {
    ghost use Rattle.ddr_io.specs.MemorySink.{Taking};

    ghost Value = { Taking };

    ghost view = { λ s. record { written = s.sink; calls = s.calls } };
}

impl MemorySink {
    /// A sink that holds no bytes yet, and will take its memory from `alloc`. The calls of `write`
    /// whose numbers, from 1, stand in `fails` have a fault each.
    pub fn new(alloc: Global, fails: Vec<u64>) -> Self
        ensures { result ≡ record {
          written = [];
          calls = record { fails = fails.items; made = 0; faults = 0 };
        } }
    {
        MemorySink {
            sink: PlainSink::new(alloc),
            calls: Calls::new(fails),
        }
    }

    /// The bytes that were written.
    pub fn bytes(&self) -> &[u8]
        ensures { result.now ≡ self.now.written }
    {
        self.sink.bytes()
    }
}

impl Sink for MemorySink {
    ghost written = { λ s. Some s.written };

    ghost faults = { λ s. s.calls.faults };

    /// Fails where the number of this call is listed, and then takes nothing. Else it takes the
    /// whole piece, or has no memory for it, which is no fault.
    fn write(&mut self, piece: &[u8]) -> Put
        requires { 0 < length piece.now }
        ensures answer { WritesOrFails (next_fails self.old.calls) self.old.written
            self.new.written result piece.now }
        ensures calls { self.new.calls ≡ one_more_call self.old.calls }

        // What holds of every sink.
        ensures bound { TakesAtMost result piece.now }
        ensures bytes { Takes (Some self.old.written) (Some self.new.written) result piece.now }
        ensures faults_never_fall { self.old.calls.faults ≤ self.new.calls.faults }
        ensures failed { result ≡ Put.Failed → Rose self.old.calls.faults self.new.calls.faults }
        ensures faults_kept { result ≢ Put.Failed → self.new.calls.faults ≡ self.old.calls.faults }
    {
        if self.calls.next() {
            return Put::Failed;
        }
        self.sink.write(piece)
    }
}
