//! A bus and the devices of its two ranks.
ghost use Rattle.std.specs.Prelude.{◌≡◌, ℕ, Option, List, [], ◌∷◌, OnOk, IfOk};
ghost use Rattle.device_core.specs.Standing.{lent};
ghost use Rattle.device_core.specs.Stored.{answer};
ghost use Rattle.reports.specs.Delivered.{device_steps};
ghost use Rattle.reports.specs.Requests.{Request};
ghost use Rattle.reports.specs.Runs.{Issues, Run};
ghost use Rattle.ddr_text.specs.declared.lines.TraceLine.{TraceLine as AnyLine};
ghost use Rattle.speed_bin.specs.Header.{IsAccepted};
ghost use Rattle.speed_bin.specs.declared.header.Header.{Header as AnyHeader};
ghost use Rattle.rank_bus.specs.Standing.{now_of};
ghost use Rattle.rank_pair.specs.Pairs.{KeepsRest, StandsFor, end_in};
ghost use Rattle.rank_pair.specs.RankEnds.{EndStandsFor, MayTake, MayTakeSome, served};

use crate::rank_end::RankEnd;
use command_words::{Command, Geometry, LineAddr};
use ddr_io::OutOfMemory;
use error_scrub::LineRead;
use rank_bus::{Bus, Clock, Rank};
use speed_bin::Header;
use std::alloc::Global;

/// Two ranks on one bus: what was issued to both, and the device of each.
#[derive(Drop)]
pub(crate) struct Pair {
    pub(crate) bus: Bus,
    pub(crate) zero: RankEnd,
    pub(crate) one: RankEnd,
    pub(crate) geometry: Geometry,
}

/// What an R or W line asks for: its number, the line of 64 bytes, and the bytes of a W line.
#[derive(Clone, Copy, Debug, PartialEq, Eq)]
pub(crate) struct LineAccess {
    pub(crate) number: u64,
    pub(crate) line: LineAddr,
    pub(crate) bytes: Option<[u8; 64]>,
}

impl Pair {
    /// Before the first command.
    #[inline(never)]
    pub(crate) fn new(alloc: Global, header: &Header) -> Result<Pair, OutOfMemory>
        requires { IsAccepted header.now }
        ensures stands { IfOk result (λ p. StandsFor p header.now [] []) }
        ensures now { IfOk result (λ p. now_of p.bus ≡ 0) }
    {
        Ok(Pair {
            bus: Bus::new(alloc, header)?,
            zero: RankEnd::new(alloc, header)?,
            one: RankEnd::new(alloc, header)?,
            geometry: header.geometry(),
        })
    }

    /// The clock of the last command of the rank, and 0 before the first.
    pub(crate) fn last_clock(&self, rank: Rank) -> Clock
        ensures { result ≡ (end_in rank self.now).last }
    {
        match rank {
            Rank::Zero => self.zero.last,
            Rank::One => self.one.last,
        }
    }

    /// Whether the alert of the rank is raised.
    pub(crate) fn is_raised(&self, rank: Rank) -> bool
        ensures { result ≡ (end_in rank self.now).counts.is_raised }
    {
        match rank {
            Rank::Zero => self.zero.counts.is_raised,
            Rank::One => self.one.counts.is_raised,
        }
    }

    /// Gives the device of the rank a command, with the bytes of a WR. What an RD found.
    pub(crate) fn give(
        &mut self,
        rank: Rank,
        clock: Clock,
        command: &Command,
        bytes: Option<&[u8; 64]>,
    ) -> Result<Option<LineRead>, OutOfMemory>
        requires { MayTakeSome (end_in rank self.old) clock command.now (lent bytes) }
        ensures stands { OnOk result ((h : AnyHeader) (trace : List AnyLine) (run : Run) (request : Option Request)
            → MayTake (end_in rank self.old) h trace run clock command.now request (lent bytes.entry)
            → EndStandsFor (end_in rank self.new) h trace (Issues (served clock command.now request) ∷ run)) }
        ensures line { IfOk result (λ line. (h : AnyHeader) (trace : List AnyLine) (run : Run) (request : Option Request)
            → MayTake (end_in rank self.old) h trace run clock command.now request (lent bytes.entry)
            → line ≡ answer h command.now (device_steps h trace run)) }
        ensures rest { KeepsRest rank self.old self.new }
    {
        match rank {
            Rank::Zero => self.zero.take(clock, command, bytes),
            Rank::One => self.one.take(clock, command, bytes),
        }
    }
}
