//! From the bytes of a job to the bytes of its report.
ghost use Rattle.std.specs.Prelude.{ℕ, ◌≡◌, ◌≢◌, ◌≤◌, List, Option, Some, None, [], IfOk, OnOk, IfErr};
ghost use Rattle.speed_bin.specs.Header.{IsAccepted, shape_of};
ghost use Rattle.speed_bin.specs.declared.header.Header.{Header as AnyHeader};
ghost use Rattle.ddr_io.specs.Faults.{Rose};
ghost use Rattle.ddr_io.specs.Line.{next_bytes};
ghost use Rattle.ddr_io.specs.declared.line_reader.Line.{Line as AnyEnd};
ghost use Rattle.ddr_io.specs.declared.line_reader.Line.TheVariants.{Text as AfterText};
ghost use Rattle.ddr_text.specs.declared.lines.TraceLine.{TraceLine};
ghost use Rattle.reports.specs.Runs.{Run};
ghost use Rattle.trace_replay.specs.Job.{IsJobOf};
ghost use Rattle.trace_replay.specs.Reading.{Continues, IsRead};
ghost use Rattle.trace_replay.specs.ReplayState.{LoopInvariant, IsUnder, IsOver, MayGoOn};
ghost use Rattle.trace_replay.specs.Replay.{Answers, RunAnswers, OpeningEnds, TraceAnswers, TraceServed, TraceEnds, EndAnswers, EndCause, EndKept, IsUnrefused, StopsServing, StopCause};
ghost use Rattle.ddr_text.specs.Stop.{status_of};

use crate::ending::Ending;
use crate::replay_state::ReplayState;
use ddr_io::{LineReader, Sink, Source, Status};
use ddr_text::{HeaderText, Opening, ReportLine, Stop, open_job, put_line, put_opening};
use speed_bin::Header;
use std::alloc::Global;

/// How the replay of a job ended, before the lines that end its report are written.
#[derive(Clone, Copy, Debug)]
pub enum Ended {
    /// The trace was served to its last turn, and this ends the report.
    Finished(Ending),
    /// The opening is refused, and the report is whole.
    Refused,
    /// It stopped.
    Stopped(Stop),
}

/// Reads a job, and writes its report as the run goes on: the header and its separator, the lines of each turn, the S
/// lines, the E line, and an X line where a line of the trace is refused. Of an opening that is refused it writes the X line alone.
#[inline(never)]
pub fn replay<S: Source, K: Sink>(alloc: Global, source: &mut S, sink: &mut K) -> Status
    ensures answer { Answers result (record { had = S.left source.old; left = S.left source.new; written_before = K.written sink.old; written_after = K.written sink.new }) }

    // A job with nothing to refuse is not refused.
    ensures complete { (bytes : List ℕ) (h : AnyHeader) (text : List ℕ) (trace : List TraceLine) → S.left source.old ≡ Some bytes
        → IsJobOf (Some bytes) h text trace None → result ≢ Status.Refused }

    ensures read { result ≡ Status.ReadFault → Rose (S.faults source.old) (S.faults source.new) }
    ensures write { result ≡ Status.WriteFault → Rose (K.faults sink.old) (K.faults sink.new) }

    // No fault is passed over: only a read fault leaves another count of the source, and only a write fault one of the sink.
    ensures reads_kept { result ≢ Status.ReadFault → S.faults source.new ≡ S.faults source.old }
    ensures writes_kept { result ≢ Status.WriteFault → K.faults sink.new ≡ K.faults sink.old }

    ensures usage { result ≢ Status.Usage }
    ensures broken { result ≢ Status.Broken }
{
    match run_job(alloc, source, sink) {
        Ended::Finished(ending) => end_report(&ending, sink),
        Ended::Refused => Status::Refused,
        Ended::Stopped(stop) => stop.status(),
    }
}

// Writes the end of a report.
fn end_report<K: Sink>(ending: &Ending, sink: &mut K) -> Status
    ensures answer { EndAnswers result ending.now (K.written sink.old) (K.written sink.new) }
    ensures writes_kept { result ≢ Status.WriteFault → K.faults sink.new ≡ K.faults sink.old }
    ensures write { result ≡ Status.WriteFault → Rose (K.faults sink.old) (K.faults sink.new) }
{
    match ending.write(sink) {
        Ok(()) => match ending.refusal {
            Some(_) => Status::Refused,
            None => Status::Ok,
        },
        Err(stop) => stop.status(),
    }
}

/// Reads a job, and writes its report as the run goes on, but for the lines that end it: those it answers. Of an opening that is
/// refused it writes the whole report.
pub fn run_job<S: Source, K: Sink>(alloc: Global, source: &mut S, sink: &mut K) -> Ended
    ensures answer { RunAnswers result (record { had = S.left source.old; left = S.left source.new; written_before = K.written sink.old; written_after = K.written sink.new }) }

    // Of a job with nothing to refuse nothing is refused.
    ensures complete { (bytes : List ℕ) (h : AnyHeader) (text : List ℕ) (trace : List TraceLine) → S.left source.old ≡ Some bytes
        → IsJobOf (Some bytes) h text trace None → IsUnrefused result }

    ensures faults_kept { EndKept (S.faults source.old) (S.faults source.new) (K.faults sink.old) (K.faults sink.new) result }
    ensures faults_never_fall { S.faults source.old ≤ S.faults source.new }
    ensures write_faults_never_fall { K.faults sink.old ≤ K.faults sink.new }
    ensures cause { EndCause (S.faults source.old) (S.faults source.new) (K.faults sink.old) (K.faults sink.new) result }
{
    let mut reader = LineReader::new();
    match open_job(alloc, &mut reader, source) {
        Ok(Opening::Accepted(header, text)) => {
            run_trace(alloc, &header, &text, &mut reader, source, sink)
        }
        Ok(Opening::Refused(reason)) => refuse_opening(reason, sink),
        Ok(Opening::Failed) => Ended::Stopped(Stop::ReadFault),
        Err(_) => Ended::Stopped(Stop::OutOfMemory),
    }
}

// Writes the report of a job whose opening is refused.
fn refuse_opening<K: Sink>(reason: u8, sink: &mut K) -> Ended
    ensures answer { OpeningEnds result reason (K.written sink.old) (K.written sink.new) }
    ensures faults_kept { (read : ℕ) → EndKept read read (K.faults sink.old) (K.faults sink.new) result }
    ensures write_faults_never_fall { K.faults sink.old ≤ K.faults sink.new }
    ensures cause { (read : ℕ) → EndCause read read (K.faults sink.old) (K.faults sink.new) result }
{
    match put_line(&ReportLine::Refused(0, reason), sink) {
        Ok(()) => Ended::Refused,
        Err(stop) => Ended::Stopped(stop),
    }
}

// Runs a job whose opening is accepted, by the bytes behind its opening.
fn run_trace<S: Source, K: Sink>(
    alloc: Global,
    header: &Header,
    text: &HeaderText,
    reader: &mut LineReader,
    source: &mut S,
    sink: &mut K,
) -> Ended
    requires accepted { IsAccepted header.now }
    requires going_on { reader.old.last ≡ AfterText }
    ensures answer { (start : Option (List ℕ)) → Continues (shape_of header.now) [] start [] (next_bytes reader.old.held (S.left source.old))
        → TraceEnds result header.now text.now start (S.left source.new) (K.written sink.old) (K.written sink.new) }
    ensures faults_kept { EndKept (S.faults source.old) (S.faults source.new) (K.faults sink.old) (K.faults sink.new) result }
    ensures faults_never_fall { S.faults source.old ≤ S.faults source.new }
    ensures write_faults_never_fall { K.faults sink.old ≤ K.faults sink.new }
    ensures cause { EndCause (S.faults source.old) (S.faults source.new) (K.faults sink.old) (K.faults sink.new) result }
{
    match serve_trace(alloc, header, text, reader, source, sink) {
        Ok(ending) => Ended::Finished(ending),
        Err(stop) => Ended::Stopped(stop),
    }
}

// Writes the report but for the lines that end it, and answers those.
#[inline(never)]
fn serve_trace<S: Source, K: Sink>(
    alloc: Global,
    header: &Header,
    text: &HeaderText,
    reader: &mut LineReader,
    source: &mut S,
    sink: &mut K,
) -> Result<Ending, Stop>
    requires accepted { IsAccepted header.now }
    requires going_on { reader.old.last ≡ AfterText }
    ensures served { IfOk result (λ ending. (start : Option (List ℕ)) → Continues (shape_of header.now) [] start [] (next_bytes reader.old.held (S.left source.old))
        → TraceServed header.now text.now start (S.left source.new) (K.written sink.old) (K.written sink.new) ending) }
    ensures answered_so_far { IfErr result (λ stop. (start : Option (List ℕ)) → Continues (shape_of header.now) [] start [] (next_bytes reader.old.held (S.left source.old))
        → TraceAnswers (status_of stop) header.now text.now start (S.left source.new) (K.written sink.old) (K.written sink.new)) }
    ensures faults_kept { OnOk result ((S.faults source.new ≡ S.faults source.old) × (K.faults sink.new ≡ K.faults sink.old)) }
    ensures faults_never_fall { S.faults source.old ≤ S.faults source.new }
    ensures write_faults_never_fall { K.faults sink.old ≤ K.faults sink.new }
    ensures cause { IfErr result (StopCause (S.faults source.old) (S.faults source.new) (K.faults sink.old) (K.faults sink.new)) }
{
    reports::laws::headline();
    reports::laws::rests_on_the_lines_so_far();
    reports::laws::reads_lines_inside();
    reports::laws::takes_a_request();
    let mut progress = begin(alloc, header)?;
    put_opening(text, sink)?;
    serve(&mut progress, reader, source, sink)?;
    Ok(progress.ending())
}

// A replay before its first turn.
fn begin(alloc: Global, header: &Header) -> Result<ReplayState, Stop>
    requires { IsAccepted header.now }
    ensures holds { IfOk result (λ p. LoopInvariant header.now p [] []) }
    ensures ahead { IfOk result (λ p. (last : AnyEnd) → last ≡ AfterText → MayGoOn p.ahead last) }
    ensures read { IfOk result (λ p. (start left : Option (List ℕ)) → Continues (shape_of header.now) [] start [] left → IsRead (shape_of header.now) [] p.ahead start left) }
    ensures stop { IfErr result (λ stop. stop ≡ Stop.OutOfMemory) }
{
    match ReplayState::new(alloc, header) {
        Ok(progress) => Ok(progress),
        Err(_) => Err(Stop::OutOfMemory),
    }
}

// Serves the trace, to its last turn.
fn serve<S: Source, K: Sink>(
    progress: &mut ReplayState,
    reader: &mut LineReader,
    source: &mut S,
    sink: &mut K,
) -> Result<(), Stop>
    requires going_on { MayGoOn progress.old.ahead reader.old.last }
    requires holds { (h : AnyHeader) × (trace : List TraceLine) × (run : Run) × LoopInvariant h progress.old trace run }
    ensures holds { OnOk result ((h : AnyHeader) × (trace : List TraceLine) × (run : Run) × LoopInvariant h progress.new trace run) }
    ensures over { OnOk result ((h : AnyHeader) (start before : Option (List ℕ)) → IsUnder h progress.old start (next_bytes reader.old.held (S.left source.old)) before (K.written sink.old)
        → IsOver h progress.new start (next_bytes reader.new.held (S.left source.new)) before (K.written sink.new)) }
    ensures begins_a_report { IfErr result (λ stop. (h : AnyHeader) (start before : Option (List ℕ)) → IsUnder h progress.old start (next_bytes reader.old.held (S.left source.old)) before (K.written sink.old)
        → StopsServing stop h start (S.left source.new) before (K.written sink.new)) }
    ensures faults_kept { OnOk result ((S.faults source.new ≡ S.faults source.old) × (K.faults sink.new ≡ K.faults sink.old)) }
    ensures faults_never_fall { S.faults source.old ≤ S.faults source.new }
    ensures write_faults_never_fall { K.faults sink.old ≤ K.faults sink.new }
    ensures cause { IfErr result (StopCause (S.faults source.old) (S.faults source.new) (K.faults sink.old) (K.faults sink.new)) }
{
    'turns: loop {
        progress.offer_all(reader, source)?;
        if !progress.turn(sink)? {
            return Ok(());
        }
    }
}
