//! What ends a report: the S lines and the E line of each rank, and an X line where a line of the trace was refused.
ghost use Rattle.std.specs.Prelude.{◌≡◌, ◌≢◌, ◌≤◌, ◌∷◌, ◌++◌, [], ℕ, List, OnOk, IfErr};
ghost use Rattle.std.specs.List.{flat_map};
ghost use Rattle.std.specs.Io.KnownBytes.{Appends};
ghost use Rattle.ddr_io.specs.Faults.{Rose};
ghost use Rattle.ddr_io.specs.Sink.{AppendsPrefix};
ghost use Rattle.ddr_text.specs.ReportParts.{refusal_lines};
ghost use Rattle.ddr_text.specs.Spelling.{spelled};
ghost use Rattle.ddr_text.specs.Stop.{WriteCause};
ghost use Rattle.ddr_text.specs.declared.lines.ReportLine.TheVariants.{End as EndLine};
ghost use Rattle.ddr_text.specs.declared.lines.TraceLine.{TraceLine as AnyLine};
ghost use Rattle.pair_reports.specs.Report.{end_of as lines_of_end, of_rank, pair_bytes, spelled_for};
ghost use Rattle.pair_reports.specs.Runs.{PairRun};
ghost use Rattle.pair_reports.specs.declared.rank_line.RankLine.{RankLine as AnyRankLine};
ghost use Rattle.rank_bus.specs.Standing.{now_of};
ghost use Rattle.rank_bus.specs.declared.rank.Rank.TheVariants.{Zero, One};
ghost use Rattle.reports.specs.Runs.{Run};
ghost use Rattle.reports.specs.Stats.{stats};
ghost use Rattle.speed_bin.specs.declared.header.Header.{Header as AnyHeader};
ghost use Rattle.rank_pair.specs.Answers.{Closes, refusal_with, status_with};
ghost use Rattle.rank_pair.specs.Pairs.{StandsFor};
ghost use Rattle.rank_pair.specs.RankEnds.{EndStandsFor};

use crate::pair::Pair;
use crate::putting::{put_all_for, put_for};
use crate::rank_end::RankEnd;
use ddr_io::{Sink, Status};
use ddr_text::{ReportLine, Stop, refuse};
use log_counts::stat_lines;
use rank_bus::{Clock, Rank};

impl Pair {
    /// Writes the S lines and the E line of both ranks, and the X line of the trace line with this number that was refused for
    /// this reason, if one was.
    pub(crate) fn finish<K: Sink>(&self, refusal: Option<(u64, u8)>, sink: &mut K) -> Status
        ensures written { (h : AnyHeader) (trace : List AnyRankLine) (run : PairRun) → StandsFor self.now h trace run
            → Closes (status_with refusal) result (pair_bytes (lines_of_end h trace run (now_of self.now.bus) Zero ++ lines_of_end h trace run (now_of self.now.bus) One) (refusal_with refusal)) (K.written sink.old) (K.written sink.new) }
        ensures write { result ≡ Status.WriteFault → Rose (K.faults sink.old) (K.faults sink.new) }
        ensures writes_kept { result ≢ Status.WriteFault → K.faults sink.new ≡ K.faults sink.old }
    {
        match self.end(sink) {
            Ok(()) => close(refusal, sink),
            Err(stop) => stop.status(),
        }
    }

    // Writes the S lines and the E line of both ranks.
    fn end<K: Sink>(&self, sink: &mut K) -> Result<(), Stop>
        ensures whole { OnOk result ((h : AnyHeader) (trace : List AnyRankLine) (run : PairRun) → StandsFor self.now h trace run
            → Appends (K.written sink.old) (K.written sink.new) (flat_map spelled_for (lines_of_end h trace run (now_of self.now.bus) Zero ++ lines_of_end h trace run (now_of self.now.bus) One))) }
        ensures writes_a_prefix { IfErr result (λ stop. (h : AnyHeader) (trace : List AnyRankLine) (run : PairRun) → StandsFor self.now h trace run
            → AppendsPrefix (K.written sink.old) (K.written sink.new) (flat_map spelled_for (lines_of_end h trace run (now_of self.now.bus) Zero ++ lines_of_end h trace run (now_of self.now.bus) One))) }
        ensures faults_never_fall { K.faults sink.old ≤ K.faults sink.new }
        ensures faults_kept { OnOk result (K.faults sink.new ≡ K.faults sink.old) }
        ensures cause { IfErr result (WriteCause (K.faults sink.old) (K.faults sink.new)) }
    {
        self.end_rank(Rank::Zero, sink)?;
        self.end_rank(Rank::One, sink)
    }

    // Writes the S lines and the E line of a rank.
    fn end_rank<K: Sink>(&self, rank: Rank, sink: &mut K) -> Result<(), Stop>
        ensures whole { OnOk result ((h : AnyHeader) (trace : List AnyRankLine) (run : PairRun) → StandsFor self.now h trace run
            → Appends (K.written sink.old) (K.written sink.new) (flat_map spelled_for (lines_of_end h trace run (now_of self.now.bus) rank))) }
        ensures writes_a_prefix { IfErr result (λ stop. (h : AnyHeader) (trace : List AnyRankLine) (run : PairRun) → StandsFor self.now h trace run
            → AppendsPrefix (K.written sink.old) (K.written sink.new) (flat_map spelled_for (lines_of_end h trace run (now_of self.now.bus) rank))) }
        ensures faults_never_fall { K.faults sink.old ≤ K.faults sink.new }
        ensures faults_kept { OnOk result (K.faults sink.new ≡ K.faults sink.old) }
        ensures cause { IfErr result (WriteCause (K.faults sink.old) (K.faults sink.new)) }
    {
        match rank {
            Rank::Zero => put_end(rank, &self.zero, self.bus.now(), sink),
            Rank::One => put_end(rank, &self.one, self.bus.now(), sink),
        }
    }
}

// Writes the S lines of a rank, and its E line with this clock.
fn put_end<K: Sink>(rank: Rank, end: &RankEnd, clock: Clock, sink: &mut K) -> Result<(), Stop>
    ensures whole { OnOk result ((h : AnyHeader) (trace : List AnyLine) (run : Run) → EndStandsFor end.now h trace run
        → Appends (K.written sink.old) (K.written sink.new) (flat_map spelled_for (of_rank rank (stats h trace run ++ EndLine clock ∷ [])))) }
    ensures writes_a_prefix { IfErr result (λ stop. (h : AnyHeader) (trace : List AnyLine) (run : Run) → EndStandsFor end.now h trace run
        → AppendsPrefix (K.written sink.old) (K.written sink.new) (flat_map spelled_for (of_rank rank (stats h trace run ++ EndLine clock ∷ [])))) }
    ensures faults_never_fall { K.faults sink.old ≤ K.faults sink.new }
    ensures faults_kept { OnOk result (K.faults sink.new ≡ K.faults sink.old) }
    ensures cause { IfErr result (WriteCause (K.faults sink.old) (K.faults sink.new)) }
{
    put_all_for(rank, &counts_in(end), sink)?;
    put_for(rank, &ReportLine::End(clock), sink)
}

// The S lines of a rank.
fn counts_in(end: &RankEnd) -> [ReportLine; 14]
    ensures { (h : AnyHeader) (trace : List AnyLine) (run : Run) → EndStandsFor end.now h trace run → result ≡ stats h trace run }
{
    reports::laws::gives_to_a_device();
    stat_lines(&end.counts, end.device.peak(), &end.device.scrub_counts())
}

// Writes the X line of the trace line with this number that was refused for this reason, if one was.
fn close<K: Sink>(refusal: Option<(u64, u8)>, sink: &mut K) -> Status
    ensures written { Closes (status_with refusal) result (flat_map spelled (refusal_lines (refusal_with refusal))) (K.written sink.old) (K.written sink.new) }
    ensures write { result ≡ Status.WriteFault → Rose (K.faults sink.old) (K.faults sink.new) }
    ensures writes_kept { result ≢ Status.WriteFault → K.faults sink.new ≡ K.faults sink.old }
{
    match refusal {
        Some((number, reason)) => refuse(number, reason, sink),
        None => Status::Ok,
    }
}
