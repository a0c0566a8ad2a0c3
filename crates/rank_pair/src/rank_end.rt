//! One rank's end of the bus.
ghost use Rattle.std.specs.Prelude.{ℕ, ◌≡◌, List, Option, [], ◌∷◌, OnOk, IfOk};
ghost use Rattle.command_words.specs.declared.geometry.Place.{Place as AnyPlace};
ghost use Rattle.ddr_text.specs.declared.lines.TraceLine.{TraceLine as AnyLine};
ghost use Rattle.device_core.specs.Standing.{lent};
ghost use Rattle.device_core.specs.Stored.{answer};
ghost use Rattle.reports.specs.Delivered.{device_steps};
ghost use Rattle.reports.specs.Requests.{Request};
ghost use Rattle.reports.specs.Runs.{Flips, Issues, Run};
ghost use Rattle.speed_bin.specs.Header.{IsAccepted};
ghost use Rattle.speed_bin.specs.declared.header.Header.{Header as AnyHeader};
ghost use Rattle.rank_pair.specs.RankEnds.{EndStandsFor, MayTake, MayTakeSome, MayTurn, MayTurnSome, served};

use command_words::{Command, Place, encode};
use ddr_io::OutOfMemory;
use device_core::Device;
use error_scrub::LineRead;
use log_counts::Counts;
use rank_bus::Clock;
use speed_bin::Header;
use std::alloc::Global;

/// The device of a rank, what its commands come to, and the clock of the last of them.
#[derive(Drop)]
pub(crate) struct RankEnd {
    pub(crate) device: Device,
    pub(crate) counts: Counts,
    pub(crate) last: Clock,
}

impl RankEnd {
    /// Before the first command. It makes the counters of all rows.
    pub(crate) fn new(alloc: Global, header: &Header) -> Result<RankEnd, OutOfMemory>
        requires { IsAccepted header.now }
        ensures { IfOk result (λ it. EndStandsFor it header.now [] []) }
    {
        Ok(RankEnd {
            device: Device::new(alloc, header)?,
            counts: Counts::new(),
            last: 0,
        })
    }

    /// Gives the device a command, with the bytes of a WR. What an RD found.
    pub(crate) fn take(
        &mut self,
        clock: Clock,
        command: &Command,
        bytes: Option<&[u8; 64]>,
    ) -> Result<Option<LineRead>, OutOfMemory>
        requires { MayTakeSome self.old clock command.now (lent bytes) }
        ensures stands { OnOk result ((h : AnyHeader) (trace : List AnyLine) (run : Run) (request : Option Request)
            → MayTake self.old h trace run clock command.now request (lent bytes.entry)
            → EndStandsFor self.new h trace (Issues (served clock command.now request) ∷ run)) }
        ensures line { IfOk result (λ line. (h : AnyHeader) (trace : List AnyLine) (run : Run) (request : Option Request)
            → MayTake self.old h trace run clock command.now request (lent bytes.entry)
            → line ≡ answer h command.now (device_steps h trace run)) }
    {
        reports::laws::gives_to_a_device();
        let words = encode(command);
        let reply = self.device.step(clock, words, bytes)?;
        self.counts.note(command, reply.alert);
        self.last = clock;
        Ok(reply.line)
    }

    /// Turns one stored bit.
    pub(crate) fn turn(&mut self, place: Place, device: u8, bit: u8) -> Result<(), OutOfMemory>
        requires { MayTurnSome self.old place device bit }
        ensures { OnOk result ((h : AnyHeader) (trace : List AnyLine) (run : Run) (number line : ℕ)
            → MayTurn self.old h trace run number line device bit place
            → EndStandsFor self.new h trace (Flips number ∷ run)) }
    {
        reports::laws::gives_to_a_device();
        Device::list_is_legal();
        self.device.flip(place, device, bit)
    }
}
