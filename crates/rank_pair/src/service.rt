//! The service: what refreshes, scrubs and refresh management need of both ranks, until they need nothing more.
ghost use Rattle.std.specs.Prelude.{◌≡◌, ◌<◌, ◌^◌, ℕ, Option, List, OnOk, IfOk, IfErr};
ghost use Rattle.command_words.specs.Command.{IsInRange};
ghost use Rattle.ddr_text.specs.Stop.{WriteCause};
ghost use Rattle.pair_deadlines.specs.Keeping.{Closed, Resting, Serving};
ghost use Rattle.pair_reports.specs.declared.rank_line.RankLine.{RankLine as AnyRankLine};
ghost use Rattle.rank_bus.specs.Standing.{now_of};
ghost use Rattle.rank_bus.specs.declared.rank.Rank.TheVariants.{Zero};
ghost use Rattle.speed_bin.specs.declared.header.Header.{Header as AnyHeader};
ghost use Rattle.rank_pair.specs.Under.{IsCut, IsServed, IsServedOnce, IsSomewhere, IsUnder, Mark, Works, WorksForBoth, WorksOnce};

use crate::deadline_laws::deadline_laws;
use crate::pair::Pair;
use command_words::{Command, encode};
use ddr_io::Sink;
use ddr_text::Stop;
use rank_bus::Rank;

impl Pair {
    /// Serves both ranks, where no alert is raised.
    pub(crate) fn serve<K: Sink>(&mut self, sink: &mut K) -> Result<(), Stop>
        requires { IsSomewhere self.old Resting (K.written sink.old) }
        ensures served { OnOk result ((h : AnyHeader) (trace : List AnyRankLine) (mark : Mark) (until : ℕ) (before : Option (List ℕ))
            → IsUnder self.old h trace mark until Resting before (K.written sink.old) → IsUnder self.new h trace mark until Resting before (K.written sink.new)) }
        ensures worked { OnOk result (WorksForBoth self.old.bus self.new.bus) }
        ensures begins_a_report { IfErr result (λ stop. (h : AnyHeader) (trace : List AnyRankLine) (mark : Mark) (until : ℕ) (before : Option (List ℕ))
            → IsUnder self.old h trace mark until Resting before (K.written sink.old) → IsCut h trace before (K.written sink.new)) }
        ensures faults_kept { OnOk result (K.faults sink.new ≡ K.faults sink.old) }
        ensures cause { IfErr result (WriteCause (K.faults sink.old) (K.faults sink.new)) }
    {
        deadline_laws();
        self.serve_both(sink)
    }

    /// Serves both ranks behind a request. Only its precharge can have raised an alert, and only that of its own rank; where it
    /// has, the RFMab comes first.
    pub(crate) fn serve_behind<K: Sink>(&mut self, rank: Rank, sink: &mut K) -> Result<(), Stop>
        requires { IsSomewhere self.old (Closed rank) (K.written sink.old) }
        ensures served { OnOk result ((h : AnyHeader) (trace : List AnyRankLine) (mark : Mark) (until : ℕ) (before : Option (List ℕ))
            → IsUnder self.old h trace mark until (Closed rank) before (K.written sink.old) → IsUnder self.new h trace mark until Resting before (K.written sink.new)) }
        ensures begins_a_report { IfErr result (λ stop. (h : AnyHeader) (trace : List AnyRankLine) (mark : Mark) (until : ℕ) (before : Option (List ℕ))
            → IsUnder self.old h trace mark until (Closed rank) before (K.written sink.old) → IsCut h trace before (K.written sink.new)) }
        ensures faults_kept { OnOk result (K.faults sink.new ≡ K.faults sink.old) }
        ensures cause { IfErr result (WriteCause (K.faults sink.old) (K.faults sink.new)) }
    {
        self.answer(rank, sink)?;
        self.serve_both(sink)
    }

    // Answers the alert that the rank has raised, if it has.
    fn answer<K: Sink>(&mut self, rank: Rank, sink: &mut K) -> Result<(), Stop>
        requires { IsSomewhere self.old (Closed rank) (K.written sink.old) }
        ensures answered { OnOk result ((h : AnyHeader) (trace : List AnyRankLine) (mark : Mark) (until : ℕ) (before : Option (List ℕ))
            → IsUnder self.old h trace mark until (Closed rank) before (K.written sink.old) → IsUnder self.new h trace mark until (Serving Zero) before (K.written sink.new)) }
        ensures begins_a_report { IfErr result (λ stop. (h : AnyHeader) (trace : List AnyRankLine) (mark : Mark) (until : ℕ) (before : Option (List ℕ))
            → IsUnder self.old h trace mark until (Closed rank) before (K.written sink.old) → IsCut h trace before (K.written sink.new)) }
        ensures faults_kept { OnOk result (K.faults sink.new ≡ K.faults sink.old) }
        ensures cause { IfErr result (WriteCause (K.faults sink.old) (K.faults sink.new)) }
    {
        deadline_laws();
        if self.is_raised(rank) {
            self.issue(rank, &Command::RfmAb, &None, sink)
        } else {
            Ok(())
        }
    }

    // Serves rank 0, and then rank 1.
    fn serve_both<K: Sink>(&mut self, sink: &mut K) -> Result<(), Stop>
        requires { IsSomewhere self.old (Serving Zero) (K.written sink.old) }
        ensures served { OnOk result ((h : AnyHeader) (trace : List AnyRankLine) (mark : Mark) (until : ℕ) (before : Option (List ℕ))
            → IsUnder self.old h trace mark until (Serving Zero) before (K.written sink.old) → IsUnder self.new h trace mark until Resting before (K.written sink.new)) }
        ensures worked { OnOk result (WorksForBoth self.old.bus self.new.bus) }
        ensures begins_a_report { IfErr result (λ stop. (h : AnyHeader) (trace : List AnyRankLine) (mark : Mark) (until : ℕ) (before : Option (List ℕ))
            → IsUnder self.old h trace mark until (Serving Zero) before (K.written sink.old) → IsCut h trace before (K.written sink.new)) }
        ensures faults_kept { OnOk result (K.faults sink.new ≡ K.faults sink.old) }
        ensures cause { IfErr result (WriteCause (K.faults sink.old) (K.faults sink.new)) }
    {
        deadline_laws();
        self.serve_rank(Rank::Zero, sink)?;
        self.serve_rank(Rank::One, sink)
    }

    // Issues what the service of the rank needs, until it needs nothing.
    fn serve_rank<K: Sink>(&mut self, rank: Rank, sink: &mut K) -> Result<(), Stop>
        requires { IsSomewhere self.old (Serving rank) (K.written sink.old) }
        ensures served { OnOk result ((h : AnyHeader) (trace : List AnyRankLine) (mark : Mark) (until : ℕ) (before : Option (List ℕ))
            → IsUnder self.old h trace mark until (Serving rank) before (K.written sink.old) → IsServed self.new h trace mark until rank before (K.written sink.new)) }
        ensures worked { OnOk result (Works self.old.bus self.new.bus rank) }
        ensures begins_a_report { IfErr result (λ stop. (h : AnyHeader) (trace : List AnyRankLine) (mark : Mark) (until : ℕ) (before : Option (List ℕ))
            → IsUnder self.old h trace mark until (Serving rank) before (K.written sink.old) → IsCut h trace before (K.written sink.new)) }
        ensures faults_kept { OnOk result (K.faults sink.new ≡ K.faults sink.old) }
        ensures cause { IfErr result (WriteCause (K.faults sink.old) (K.faults sink.new)) }
    {
        'turns: loop {
            if !self.serve_once(rank, sink)? {
                return Ok(());
            }
        }
    }

    // Issues one command that the service of the rank needs. False where it needs none.
    fn serve_once<K: Sink>(&mut self, rank: Rank, sink: &mut K) -> Result<bool, Stop>
        requires { IsSomewhere self.old (Serving rank) (K.written sink.old) }
        ensures served { IfOk result (λ goes_on. (h : AnyHeader) (trace : List AnyRankLine) (mark : Mark) (until : ℕ) (before : Option (List ℕ))
            → IsUnder self.old h trace mark until (Serving rank) before (K.written sink.old) → IsServedOnce goes_on self.new h trace mark until rank before (K.written sink.new)) }
        ensures worked { IfOk result (λ goes_on. WorksOnce goes_on self.old.bus self.new.bus rank) }
        ensures small { now_of self.old.bus < 2 ^ 40 }
        ensures begins_a_report { IfErr result (λ stop. (h : AnyHeader) (trace : List AnyRankLine) (mark : Mark) (until : ℕ) (before : Option (List ℕ))
            → IsUnder self.old h trace mark until (Serving rank) before (K.written sink.old) → IsCut h trace before (K.written sink.new)) }
        ensures faults_kept { OnOk result (K.faults sink.new ≡ K.faults sink.old) }
        ensures cause { IfErr result (WriteCause (K.faults sink.old) (K.faults sink.new)) }
    {
        deadline_laws();
        match self.bus.service(rank) {
            Some(command) => {
                in_range(&command);
                self.issue(rank, &command, &None, sink)?;
                Ok(true)
            }
            None => Ok(false),
        }
    }
}

// A law: the numbers of a command are within their ranges.
pub(crate) fn in_range(command: &Command)
    ensures { IsInRange command.now }
{
    let _words = encode(command);
}
