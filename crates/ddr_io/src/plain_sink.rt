//! A sink into memory.
ghost use Rattle.std.specs.Prelude.{ℕ, ◌≡◌, [], ◌<◌, List, length, Some};
ghost use Rattle.ddr_io.specs.Sink.{TakesAtMost, Takes, TakesAllOrNone};

use crate::{Put, Sink};
use std::alloc::Global;
use std::marker::Model;

/// A sink into memory, without faults. Contracts see the bytes that were written.
#[derive(Drop)]
pub struct PlainSink {
    bytes: Vec<u8>,
}

impl Model for PlainSink {
    ghost Value = { List ℕ };

    ghost view = { λ s. s.bytes.items };
}

impl PlainSink {
    /// A sink that holds no bytes yet, and will take its memory from `alloc`.
    pub fn new(alloc: Global) -> Self
        ensures { result ≡ [] }
    {
        PlainSink {
            bytes: Vec::new(alloc),
        }
    }

    /// The bytes that were written.
    pub fn bytes(&self) -> &[u8]
        ensures { result.now ≡ self.now }
    {
        &self.bytes
    }

    /// The bytes that were written, without a copy.
    pub fn into_bytes(self) -> Vec<u8>
        ensures { result.items ≡ self }
    {
        self.bytes
    }
}

impl Sink for PlainSink {
    ghost written = { λ s. Some s };

    ghost faults = { λ _. 0 };

    /// Takes the whole piece, or has no memory for it.
    fn write(&mut self, piece: &[u8]) -> Put
        requires { 0 < length piece.now }
        ensures whole { TakesAllOrNone self.old self.new result piece.now }

        // What holds of every sink.
        ensures bound { TakesAtMost result piece.now }
        ensures bytes { Takes (Some self.old) (Some self.new) result piece.now }
    {
        match self.bytes.extend_from_slice(piece) {
            Ok(()) => Put::Took(piece.len()),
            Err(_) => Put::NoMemory,
        }
    }
}
