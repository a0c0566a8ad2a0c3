//! From the bytes of a job for two ranks to the bytes of its report.
ghost use Rattle.std.specs.Prelude.{ℕ, ◌≡◌, ◌≢◌, List, Option, Some, None, [], OnOk, IfErr, IsTrue, ◌↔◌};
ghost use Rattle.std.specs.Io.KnownBytes.{Appends};
ghost use Rattle.ddr_io.specs.Faults.{Rose};
ghost use Rattle.ddr_io.specs.Line.{next_bytes};
ghost use Rattle.ddr_text.specs.Stop.{WriteCause};
ghost use Rattle.pair_deadlines.specs.Budget.{HasTime};
ghost use Rattle.pair_deadlines.specs.Keeping.{Resting};
ghost use Rattle.pair_reports.specs.declared.rank_line.RankLine.{RankLine as AnyRankLine};
ghost use Rattle.speed_bin.specs.Header.{IsAccepted};
ghost use Rattle.speed_bin.specs.declared.header.Header.{Header as AnyHeader};
ghost use Rattle.rank_pair.specs.Accessing.{IsThere};
ghost use Rattle.rank_pair.specs.Answers.{PairAnswers, TraceAnswers};
ghost use Rattle.rank_pair.specs.Job.{IsPairJobOf};
ghost use Rattle.rank_pair.specs.Pairs.{StandsFor};
ghost use Rattle.rank_pair.specs.Under.{IsCut};
ghost use Rattle.rank_bus.specs.Standing.{now_of};

use crate::deadline_laws::deadline_laws;
use crate::finished_laws::finished_laws;
use crate::pair::Pair;
use crate::rank_reader::{Next, RankReader};
use ddr_io::{Line, LineReader, Sink, Source, Status};
use ddr_text::{HeaderText, Opening, open_job, put_opening, refuse};
use speed_bin::Header;
use std::alloc::Global;

// The reason to refuse an opening with which two ranks have no time for their refreshes.
const NO_TIME: u8 = 30;

/// Reads a job for two ranks, and writes its report as the run goes on, by `docs/FORMATS.md`: the header and its separator,
/// the lines of each command and F line with the digit of their rank, the S lines and the E line of both ranks, and an X line
/// where a line of the trace is refused. Of an opening that is refused it writes the X line alone.
#[inline(never)]
pub fn run_pair<S: Source, K: Sink>(alloc: Global, source: &mut S, sink: &mut K) -> Status
    ensures answer { PairAnswers result (S.left source.old) (S.left source.new) (K.written sink.old) (K.written sink.new) }

    // A job with nothing to refuse is not refused.
    ensures complete { (bytes : List ℕ) (h : AnyHeader) (text : List ℕ) (trace : List AnyRankLine) → S.left source.old ≡ Some bytes
        → IsPairJobOf (Some bytes) h text trace None → result ≢ Status.Refused }

    ensures usage { result ≢ Status.Usage }
    ensures broken { result ≢ Status.Broken }

    // A fault is told exactly where it was counted.
    ensures read { result ≡ Status.ReadFault → Rose (S.faults source.old) (S.faults source.new) }
    ensures write { result ≡ Status.WriteFault → Rose (K.faults sink.old) (K.faults sink.new) }
    ensures reads_kept { result ≢ Status.ReadFault → S.faults source.new ≡ S.faults source.old }
    ensures writes_kept { result ≢ Status.WriteFault → K.faults sink.new ≡ K.faults sink.old }
{
    ddr_text::laws::opened_header_is_accepted();
    open_pair(alloc, source, sink)
}

// Opens the job, and runs it.
fn open_pair<S: Source, K: Sink>(alloc: Global, source: &mut S, sink: &mut K) -> Status
    ensures answer { PairAnswers result (S.left source.old) (S.left source.new) (K.written sink.old) (K.written sink.new) }
    ensures read { result ≡ Status.ReadFault → Rose (S.faults source.old) (S.faults source.new) }
    ensures write { result ≡ Status.WriteFault → Rose (K.faults sink.old) (K.faults sink.new) }
    ensures reads_kept { result ≢ Status.ReadFault → S.faults source.new ≡ S.faults source.old }
    ensures writes_kept { result ≢ Status.WriteFault → K.faults sink.new ≡ K.faults sink.old }
{
    let mut reader = LineReader::new();
    match open_job(alloc, &mut reader, source) {
        Ok(Opening::Accepted(header, text)) => {
            if !has_time(&header) {
                return refuse(0, NO_TIME, sink);
            }
            run_behind(alloc, &header, &text, reader, source, sink)
        }
        Ok(Opening::Refused(reason)) => refuse(0, reason, sink),
        Ok(Opening::Failed) => Status::ReadFault,
        Err(_) => Status::OutOfMemory,
    }
}

// Whether two ranks have time for their refreshes.
fn has_time(header: &Header) -> bool
    requires { IsAccepted header.now }
    ensures { IsTrue result ↔ HasTime header.now }
{
    let timing = &header.timing;
    16 * (timing.n_max() + timing.n_close()) <= 2 * timing.nrefi
}

// Writes the opening, and runs the lines behind it.
#[inline(never)]
fn run_behind<S: Source, K: Sink>(
    alloc: Global,
    header: &Header,
    text: &HeaderText,
    reader: LineReader,
    source: &mut S,
    sink: &mut K,
) -> Status
    requires accepted { IsAccepted header.now }
    requires time { HasTime header.now }
    requires going_on { reader.last ≡ Line.Text }
    ensures answer { TraceAnswers result header.now text.now (next_bytes reader.held (S.left source.old)) (S.left source.new) (K.written sink.old) (K.written sink.new) }
    ensures read { result ≡ Status.ReadFault → Rose (S.faults source.old) (S.faults source.new) }
    ensures write { result ≡ Status.WriteFault → Rose (K.faults sink.old) (K.faults sink.new) }
    ensures reads_kept { result ≢ Status.ReadFault → S.faults source.new ≡ S.faults source.old }
    ensures writes_kept { result ≢ Status.WriteFault → K.faults sink.new ≡ K.faults sink.old }
{
    let mut pair = match Pair::new(alloc, header) {
        Ok(pair) => pair,
        Err(_) => return Status::OutOfMemory,
    };
    match put_opening(text, sink) {
        Ok(()) => begin(&mut pair, header, reader, source, sink),
        Err(stop) => stop.status(),
    }
}

// Writes the registers, serves both ranks, and carries out the lines of the trace.
fn begin<S: Source, K: Sink>(
    pair: &mut Pair,
    header: &Header,
    reader: LineReader,
    source: &mut S,
    sink: &mut K,
) -> Status
    requires accepted { IsAccepted header.now }
    requires time { HasTime header.now }
    requires going_on { reader.last ≡ Line.Text }
    requires fresh { StandsFor pair.old header.now [] [] }
    requires now { now_of pair.old.bus ≡ 0 }
    ensures answer { (text : List ℕ) (before : Option (List ℕ)) → Appends before (K.written sink.old) text
        → TraceAnswers result header.now text (next_bytes reader.held (S.left source.old)) (S.left source.new) before (K.written sink.new) }
    ensures read { result ≡ Status.ReadFault → Rose (S.faults source.old) (S.faults source.new) }
    ensures write { result ≡ Status.WriteFault → Rose (K.faults sink.old) (K.faults sink.new) }
    ensures reads_kept { result ≢ Status.ReadFault → S.faults source.new ≡ S.faults source.old }
    ensures writes_kept { result ≢ Status.WriteFault → K.faults sink.new ≡ K.faults sink.old }
{
    match pair.start(header, sink) {
        Ok(()) => run_lines(pair, header, reader, source, sink),
        Err(stop) => stop.status(),
    }
}

// Carries out the lines of the trace, and writes the end of the report.
#[inline(never)]
fn run_lines<S: Source, K: Sink>(
    pair: &mut Pair,
    header: &Header,
    reader: LineReader,
    source: &mut S,
    sink: &mut K,
) -> Status
    requires accepted { IsAccepted header.now }
    requires going_on { reader.last ≡ Line.Text }
    requires there { IsThere pair.old header.now [] Resting None (K.written sink.old) }
    ensures answer { (text : List ℕ) (first before : Option (List ℕ)) → Appends first before text → IsThere pair.old header.now [] Resting before (K.written sink.old)
        → TraceAnswers result header.now text (next_bytes reader.held (S.left source.old)) (S.left source.new) first (K.written sink.new) }
    ensures read { result ≡ Status.ReadFault → Rose (S.faults source.old) (S.faults source.new) }
    ensures write { result ≡ Status.WriteFault → Rose (K.faults sink.old) (K.faults sink.new) }
    ensures reads_kept { result ≢ Status.ReadFault → S.faults source.new ≡ S.faults source.old }
    ensures writes_kept { result ≢ Status.WriteFault → K.faults sink.new ≡ K.faults sink.old }
{
    deadline_laws();
    finished_laws();
    let mut lines = RankReader::new(reader, header.geometry());
    'each: loop {
        let number = lines.number();
        match lines.next(source) {
            Next::Line(line) => match pair.carry_out(number, &line, sink) {
                Ok(()) => {}
                Err(stop) => return stop.status(),
            },
            Next::End => return pair.finish(None, sink),
            Next::Refused(reason) => return pair.finish(Some((number, reason)), sink),
            Next::Failed => return Status::ReadFault,
        }
    }
}
