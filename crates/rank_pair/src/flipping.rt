//! F lines.
ghost use Rattle.std.specs.Prelude.{◌≡◌, ◌∷◌, ◌++◌, [], ℕ, Option, List, OnOk, IfErr};
ghost use Rattle.ddr_text.specs.Stop.{WriteCause};
ghost use Rattle.ddr_text.specs.declared.lines.TraceLine.TheVariants.{Flip};
ghost use Rattle.command_words.specs.declared.geometry.Place.{Place as AnyPlace};
ghost use Rattle.ddr_text.specs.declared.lines.TraceLine.{TraceLine as AnyLine};
ghost use Rattle.pair_deadlines.specs.Keeping.{Resting};
ghost use Rattle.pair_reports.specs.declared.rank_line.RankLine.{RankLine as AnyRankLine};
ghost use Rattle.reports.specs.Runs.{Flips, Run};
ghost use Rattle.speed_bin.specs.Header.{shape_of};
ghost use Rattle.speed_bin.specs.declared.header.Header.{Header as AnyHeader};
ghost use Rattle.rank_pair.specs.Accessing.{IsThere};
ghost use Rattle.rank_pair.specs.Flipping.{MayFlip};
ghost use Rattle.rank_pair.specs.Job.{IsPairTrace};
ghost use Rattle.rank_pair.specs.Pairs.{KeepsRest, end_in};
ghost use Rattle.rank_pair.specs.RankEnds.{EndStandsFor, MayTurn, MayTurnSome};
ghost use Rattle.rank_pair.specs.Under.{IsCut};

use crate::pair::Pair;
use crate::putting::put_for;
use command_words::{LineAddr, Place, map_line};
use ddr_io::{OutOfMemory, Sink};
use ddr_text::{ReportLine, Stop};
use rank_bus::Rank;

impl Pair {
    /// An F line: turns a stored bit of the rank, and writes its F line, with the clock of the rank's last command.
    pub(crate) fn flip<K: Sink>(
        &mut self,
        rank: Rank,
        line: LineAddr,
        device: u8,
        bit: u8,
        sink: &mut K,
    ) -> Result<(), Stop>
        requires { MayFlip self.old rank line device bit (K.written sink.old) }
        ensures flipped { OnOk result ((h : AnyHeader) (front : List AnyRankLine) (it : AnyRankLine) (before : Option (List ℕ))
            → IsThere self.old h front Resting before (K.written sink.old) → it ≡ record { rank = rank; line = Flip line device bit }
            → IsPairTrace (shape_of h) (front ++ it ∷ []) → IsThere self.new h (front ++ it ∷ []) Resting before (K.written sink.new)) }
        ensures begins_a_report { IfErr result (λ stop. (h : AnyHeader) (front : List AnyRankLine) (it : AnyRankLine) (before : Option (List ℕ))
            → IsThere self.old h front Resting before (K.written sink.old) → it ≡ record { rank = rank; line = Flip line device bit }
            → IsPairTrace (shape_of h) (front ++ it ∷ []) → IsCut h (front ++ it ∷ []) before (K.written sink.new)) }
        ensures faults_kept { OnOk result (K.faults sink.new ≡ K.faults sink.old) }
        ensures cause { IfErr result (WriteCause (K.faults sink.old) (K.faults sink.new)) }
    {
        match self.turn(rank, map_line(line, self.geometry), device, bit) {
            Ok(()) => put_for(
                rank,
                &ReportLine::Flip(self.last_clock(rank), line, device, bit),
                sink,
            ),
            Err(_) => Err(Stop::OutOfMemory),
        }
    }

    // Turns a stored bit of the device of the rank.
    fn turn(&mut self, rank: Rank, place: Place, device: u8, bit: u8) -> Result<(), OutOfMemory>
        requires { MayTurnSome (end_in rank self.old) place device bit }
        ensures turned { OnOk result ((h : AnyHeader) (trace : List AnyLine) (run : Run) (number line : ℕ)
            → MayTurn (end_in rank self.old) h trace run number line device bit place
            → EndStandsFor (end_in rank self.new) h trace (Flips number ∷ run)) }
        ensures rest { KeepsRest rank self.old self.new }
    {
        match rank {
            Rank::Zero => self.zero.turn(place, device, bit),
            Rank::One => self.one.turn(place, device, bit),
        }
    }
}
