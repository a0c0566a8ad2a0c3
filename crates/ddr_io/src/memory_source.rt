//! A source over bytes in memory, with faults.
ghost use Rattle.std.specs.Prelude.{ℕ, ◌≡◌, ◌≢◌, ◌<◌, ◌≤◌, ◌++◌, length, take, drop, Some};
ghost use Rattle.ddr_io.specs.Faults.{Rose};
ghost use Rattle.ddr_io.specs.Source.{GivesAtMost, Gives};
ghost use Rattle.ddr_io.specs.Calls.{one_more_call};
ghost use Rattle.ddr_io.specs.MemorySource.{next_got, next_room};

use crate::calls::Calls;
use crate::{Got, PlainSource, Source};
use std::marker::Model;

/// A source over bytes in memory that gives a few bytes a read, and fails at listed calls.
///
/// Contracts see the bytes that are left, how many of them one read gives at most, and its calls:
/// the numbers of those that fail, how many were made, and how many failed.
#[derive(Drop)]
pub struct MemorySource {
    source: PlainSource,
    step: usize,
    calls: Calls,
}

impl Model for MemorySource {
    ghost use Rattle.std.specs.Prelude.{◌≤◌};
    ghost use Rattle.ddr_io.specs.MemorySource.{Giving};

    ghost Value = { Giving };

    ghost view = { λ s. record { left = s.source; step = s.step; calls = s.calls } };

    ghost invariant = { λ s. 1 ≤ s.step };
}

impl MemorySource {
    /// Gives these bytes, from the first on, and at most `step` of them a read. The calls of `read`
    /// whose numbers, from 1, stand in `fails` have a fault each.
    pub fn new(bytes: Vec<u8>, step: usize, fails: Vec<u64>) -> Self
        requires { 1 ≤ step }
        ensures { result ≡ record {
          left = bytes.items;
          step = step;
          calls = record { fails = fails.items; made = 0; faults = 0 };
        } }
    {
        MemorySource {
            source: PlainSource::new(bytes),
            step,
            calls: Calls::new(fails),
        }
    }
}

impl Source for MemorySource {
    ghost left = { λ s. Some s.left };

    ghost faults = { λ s. s.calls.faults };

    /// Fails where the number of this call is listed, and then takes nothing. Else it gives as
    /// many bytes as are left, have room, and are not more than its step. The rest of the buffer stays.
    fn read(&mut self, buf: &mut [u8]) -> Got
        requires { 0 < length buf.old }
        ensures answer { result ≡ next_got self.old (length buf.old) }
        ensures rest { self.new.left ≡ drop (next_room self.old (length buf.old)) self.old.left }
        ensures filled { buf.new ≡ take (next_room self.old (length buf.old)) self.old.left
            ++ drop (length (take (next_room self.old (length buf.old)) self.old.left)) buf.old }
        ensures step { self.new.step ≡ self.old.step }
        ensures calls { self.new.calls ≡ one_more_call self.old.calls }

        // What holds of every source.
        ensures bound { GivesAtMost result buf.new }
        ensures bytes { Gives (Some self.old.left) (Some self.new.left) result buf.new }
        ensures faults_never_fall { self.old.calls.faults ≤ self.new.calls.faults }
        ensures failed { result ≡ Got.Failed → Rose self.old.calls.faults self.new.calls.faults }
        ensures faults_kept { result ≢ Got.Failed → self.new.calls.faults ≡ self.old.calls.faults }
    {
        if self.calls.next() {
            return Got::Failed;
        }
        let room = self.step.min(buf.len());
        self.source.read(&mut buf[..room])
    }
}
