//! Merging the lines of four ports into one job.
ghost use Rattle.std.specs.Prelude.{ℕ, ◌≡◌, ◌≢◌, ◌≤◌, List, Some, OnOk, IfOk, IfErr};
ghost use Rattle.ddr_io.specs.Faults.{Rose};
ghost use Rattle.ddr_io.specs.Line.{next_bytes};
ghost use Rattle.ddr_text.specs.Opening.{Accepts, opening_of};
ghost use Rattle.speed_bin.specs.declared.header.Header.{Header};
ghost use Rattle.fair_queue.specs.Answering.{MergeAnswers, BehindAnswers, JobMerges, JobBeginsToMerge};
ghost use Rattle.fair_queue.specs.Arrivals.{input_of};
ghost use Rattle.fair_queue.specs.Machine.{empty};
ghost use Rattle.fair_queue.specs.Merging.{ReadsEnough, StopCause};
ghost use Rattle.fair_queue.specs.Turns.{IsFair};

use crate::admitting::merge_lines;
use crate::laws::merges_fairly;
use crate::port_lines::PortLines;
use crate::queues::Queues;
use ddr_io::{Line, LineReader, OutOfMemory, Sink, Source, Status};
use ddr_text::{HeaderText, Opening, Stop, open_job, put_opening, refuse};
use std::alloc::Global;

/// Reads the lines of four ports behind the opening of a job, and writes one job: the rests of the lines, the ports in turn,
/// with a line `I 0` behind every `cap` requests. At most 64 rests are kept. An empty line ends it where a line is bad. Of an
/// opening that is refused it writes the X line alone.
#[inline(never)]
pub fn merge<S: Source, K: Sink>(alloc: Global, cap: u32, source: &mut S, sink: &mut K) -> Status
    requires { (1 ≤ cap) × (cap ≤ 32) }
    ensures answer { MergeAnswers cap result (record { had = S.left source.old; left = S.left source.new; written_before = K.written sink.old; written_after = K.written sink.new }) }
    ensures usage { result ≢ Status.Usage }
    ensures broken { result ≢ Status.Broken }

    // Each port's rests stand in their order, each once, and the ports take turns.
    ensures fair { (h : Header) (bytes text rest : List ℕ) → S.left source.old ≡ Some bytes → opening_of bytes ≡ Accepts h text rest → IsFair (input_of rest).lines }

    // A fault is told where it was counted, and none is passed over: only a read fault leaves another count of the source,
    // and only a write fault one of the sink.
    ensures read { result ≡ Status.ReadFault → Rose (S.faults source.old) (S.faults source.new) }
    ensures write { result ≡ Status.WriteFault → Rose (K.faults sink.old) (K.faults sink.new) }
    ensures reads_kept { result ≢ Status.ReadFault → S.faults source.new ≡ S.faults source.old }
    ensures writes_kept { result ≢ Status.WriteFault → K.faults sink.new ≡ K.faults sink.old }
{
    merges_fairly();
    let mut reader = LineReader::new();
    match open_job(alloc, &mut reader, source) {
        Ok(Opening::Accepted(_header, text)) => {
            merge_behind(alloc, cap, &text, reader, source, sink)
        }
        Ok(Opening::Refused(reason)) => refuse(0, reason, sink),
        Ok(Opening::Failed) => Status::ReadFault,
        Err(_) => Status::OutOfMemory,
    }
}

// Writes the opening, and merges the lines behind it.
fn merge_behind<S: Source, K: Sink>(
    alloc: Global,
    cap: u32,
    text: &HeaderText,
    reader: LineReader,
    source: &mut S,
    sink: &mut K,
) -> Status
    requires cap { 1 ≤ cap }
    requires going_on { reader.last ≡ Line.Text }
    ensures answer { BehindAnswers cap text.now (next_bytes reader.held (S.left source.old)) result (S.left source.new) (K.written sink.old) (K.written sink.new) }
    ensures read { result ≡ Status.ReadFault → Rose (S.faults source.old) (S.faults source.new) }
    ensures write { result ≡ Status.WriteFault → Rose (K.faults sink.old) (K.faults sink.new) }
    ensures reads_kept { result ≢ Status.ReadFault → S.faults source.new ≡ S.faults source.old }
    ensures writes_kept { result ≢ Status.WriteFault → K.faults sink.new ≡ K.faults sink.old }
{
    match merge_job(alloc, cap, text, reader, source, sink) {
        Ok(()) => Status::Ok,
        Err(stop) => stop.status(),
    }
}

// Writes the opening, and merges the lines behind it, or stops.
fn merge_job<S: Source, K: Sink>(
    alloc: Global,
    cap: u32,
    text: &HeaderText,
    reader: LineReader,
    source: &mut S,
    sink: &mut K,
) -> Result<(), Stop>
    requires cap { 1 ≤ cap }
    requires going_on { reader.last ≡ Line.Text }
    ensures whole { OnOk result (JobMerges cap text.now (next_bytes reader.held (S.left source.old)) (K.written sink.old) (K.written sink.new)) }
    ensures used_up { OnOk result (ReadsEnough cap (next_bytes reader.held (S.left source.old)) (S.left source.new)) }
    ensures begins_to_merge { IfErr result (λ stop. JobBeginsToMerge cap text.now (next_bytes reader.held (S.left source.old)) (K.written sink.old) (K.written sink.new)) }
    ensures faults_kept { OnOk result ((S.faults source.new ≡ S.faults source.old) × (K.faults sink.new ≡ K.faults sink.old)) }
    ensures cause { IfErr result (StopCause (S.faults source.old) (S.faults source.new) (K.faults sink.old) (K.faults sink.new)) }
{
    let mut queues = new_queues(alloc)?;
    put_opening(text, sink)?;
    let mut lines = PortLines::new(reader);
    merge_lines(cap, &mut queues, &mut lines, source, sink)
}

// Empty queues.
fn new_queues(alloc: Global) -> Result<Queues, Stop>
    ensures queues { IfOk result (λ it. it ≡ empty) }
    ensures cause { IfErr result (λ stop. stop ≡ Stop.OutOfMemory) }
{
    match Queues::new(alloc) {
        Ok(queues) => Ok(queues),
        Err(OutOfMemory) => Err(Stop::OutOfMemory),
    }
}
