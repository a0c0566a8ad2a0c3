//! The rests that are not admitted yet, in a queue for each port.
ghost use Rattle.std.specs.Prelude.{◌≡◌, ◌<◌, ◌≤◌, ◌++◌, ◌∷◌, [], length, drop, IfOk, IfSome, Option, Some, None, option_map};
ghost use Rattle.fair_queue.specs.Machine.{has_room, next_port, pushed, without_first, empty, is_empty, first_of, queue_of, after, Queued, first_rest};
ghost use Rattle.fair_queue.specs.Admitting.{Admits, IsAdmitted, AdmitsIf};

use crate::rest::Rest;
use circular_buffer::HeapCircularBuffer;
use ddr_io::OutOfMemory;
use std::alloc::Global;
use std::marker::Model;

/// The rests of one port, the oldest first, at most sixteen.
#[derive(Drop)]
struct Port {
    rests: HeapCircularBuffer<Rest>,
}

impl Model for Port {
    ghost use Rattle.std.specs.Prelude.{ℕ, List, ◌≡◌, ◌≤◌, length};

    ghost Value = { List (List ℕ) };

    ghost view = { λ p. p.rests.items };

    ghost invariant = { λ p. (p.rests.capacity ≡ 16) × (length p.rests.items ≤ 16) };
}

impl Port {
    fn new(alloc: Global) -> Result<Port, OutOfMemory>
        ensures { IfOk result (λ it. it ≡ []) }
    {
        match HeapCircularBuffer::with_capacity(alloc, 16) {
            Ok(rests) => Ok(Port { rests }),
            Err(_) => Err(OutOfMemory),
        }
    }

    fn push(&mut self, rest: Rest)
        requires { length self.old < 16 }
        ensures { self.new ≡ self.old ++ rest ∷ [] }
    {
        let _kept = self.rests.try_push_back(rest);
    }

    fn pop(&mut self) -> Option<Rest>
        ensures rests { self.new ≡ drop 1 self.old }
        ensures first { Admits self.old result }
    {
        self.rests.pop_front()
    }

    fn is_empty(&self) -> bool
        ensures { result ≡ is_empty self.now }
    {
        self.rests.len() == 0
    }

    fn len(&self) -> usize
        ensures { result ≡ length self.now }
    {
        self.rests.len()
    }
}

/// The queues of four ports, and the port at which the search for the next rest begins.
#[derive(Drop)]
pub(crate) struct Queues {
    ports: [Port; 4],
    turn: u8,
}

impl Model for Queues {
    ghost use Rattle.std.specs.Prelude.{◌<◌};
    ghost use Rattle.fair_queue.specs.Machine.{Queued};

    ghost Value = { Queued };

    ghost view = { λ s. record { queues = s.ports; turn = s.turn } };

    ghost invariant = { λ s. s.turn < 4 };
}

impl Queues {
    /// Empty queues; the first search begins with port 0. It takes the memory for all rests.
    pub(crate) fn new(alloc: Global) -> Result<Queues, OutOfMemory>
        ensures { IfOk result (λ it. it ≡ empty) }
    {
        Ok(Queues {
            ports: [
                Port::new(alloc)?,
                Port::new(alloc)?,
                Port::new(alloc)?,
                Port::new(alloc)?,
            ],
            turn: 0,
        })
    }

    /// Whether the queue of the port has room for a rest.
    pub(crate) fn has_room(&self, port: u8) -> bool
        requires { port < 4 }
        ensures { result ≡ has_room self.now port }
    {
        self.ports[usize::from(port)].len() < 16
    }

    /// Puts a rest at the end of the queue of its port, which has room.
    pub(crate) fn push(&mut self, port: u8, rest: Rest)
        requires port { port < 4 }
        requires room { length (queue_of self.old port) < 16 }
        ensures { self.new ≡ pushed self.old (record { port = port; rest = rest }) }
    {
        self.ports[usize::from(port)].push(rest);
    }

    // The port at which the next search begins.
    fn turn(&self) -> u8
        ensures turn { result ≡ self.now.turn }
        ensures port { result < 4 }
    {
        self.turn
    }

    // Whether the queue of the port is empty.
    fn is_empty(&self, port: u8) -> bool
        requires { port < 4 }
        ensures { result ≡ is_empty (queue_of self.now port) }
    {
        self.ports[usize::from(port)].is_empty()
    }

    // The port whose first rest is admitted next.
    fn next_port(&self) -> Option<u8>
        ensures port { result ≡ next_port self.now }
        ensures within { IfSome result (λ port. port < 4) }
    {
        let mut port = self.turn();
        for _ in 0..4_usize {
            if !self.is_empty(port) {
                return Some(port);
            }
            port = (port + 1) % 4;
        }
        None
    }

    // Takes the first rest of the port's queue.
    fn pop(&mut self, port: u8) -> Option<Rest>
        requires { port < 4 }
        ensures rest { Admits (queue_of self.old port) result }
        ensures queues { self.new ≡ without_first self.old port }
    {
        self.turn = (port + 1) % 4;
        self.ports[usize::from(port)].pop()
    }

    /// Takes the first rest of the next queue that is not empty, in cyclic order.
    pub(crate) fn admit(&mut self) -> Option<Rest>
        ensures { IsAdmitted self.old self.new result }
    {
        match self.next_port() {
            Some(port) => self.pop(port),
            None => None,
        }
    }
}
