//! A source over bytes in memory.
ghost use Rattle.std.specs.Prelude.{ℕ, ◌≡◌, ◌<◌, ◌≤◌, List, ◌++◌, length, take, drop, Some};
ghost use Rattle.ddr_io.specs.Source.{GivesAtMost, Gives, got_of};

use crate::{Got, Source};
use std::marker::Model;

/// A source over bytes in memory, without faults. Contracts see the bytes that are left.
#[derive(Drop)]
pub struct PlainSource {
    bytes: Vec<u8>,
    given: usize,
}

impl Model for PlainSource {
    ghost Value = { List ℕ };

    ghost view = { λ s. drop s.given s.bytes.items };

    ghost invariant = { λ s. s.given ≤ length s.bytes.items };
}

impl PlainSource {
    /// Gives these bytes, from the first on.
    pub fn new(bytes: Vec<u8>) -> Self
        ensures { result ≡ bytes.items }
    {
        PlainSource { bytes, given: 0 }
    }
}

impl Source for PlainSource {
    ghost left = { λ s. Some s };

    ghost faults = { λ _. 0 };

    /// Gives as many bytes as are left and have room. The rest of the buffer stays.
    fn read(&mut self, buf: &mut [u8]) -> Got
        requires { 0 < length buf.old }
        ensures answer { result ≡ got_of self.old (length buf.old) }
        ensures rest { self.new ≡ drop (length buf.old) self.old }
        ensures filled { buf.new ≡ take (length buf.old) self.old ++ drop (length self.old) buf.old }

        // What holds of every source.
        ensures bound { GivesAtMost result buf.new }
        ensures bytes { Gives (Some self.old) (Some self.new) result buf.new }
    {
        let rest = &self.bytes[self.given..];
        if rest.is_empty() {
            return Got::End;
        }
        let count = rest.len().min(buf.len());
        buf[..count].copy_from_slice(&rest[..count]);
        self.given += count;
        Got::Bytes(count)
    }
}
