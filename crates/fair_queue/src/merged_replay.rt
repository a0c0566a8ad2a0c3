//! Replaying the merged job of four ports.
ghost use Rattle.std.specs.Prelude.{ℕ, ◌≡◌, ◌≢◌, ◌≤◌, List, Option, Some};
ghost use Rattle.ddr_io.specs.Faults.{Rose};
ghost use Rattle.ddr_text.specs.Opening.{Accepts, opening_of};
ghost use Rattle.speed_bin.specs.declared.header.Header.{Header};
ghost use Rattle.trace_replay.specs.Replay.{Answers};
ghost use Rattle.fair_queue.specs.Answering.{RefusalAnswers};
ghost use Rattle.fair_queue.specs.Arrivals.{input_of};
ghost use Rattle.fair_queue.specs.Serving.{PortsAnswers};
ghost use Rattle.fair_queue.specs.Turns.{IsFair};

use crate::laws::{caps_requests, merges_fairly};
use crate::merging::merge;
use ddr_io::{PlainSink, PlainSource, Sink, Source, Status};
use std::alloc::Global;
use trace_replay::replay;

/// Merges the lines of four ports in memory, and replays the merged job. Of an opening that is refused it writes the X line.
#[inline(never)]
pub fn ports<S: Source, K: Sink>(alloc: Global, cap: u32, source: &mut S, sink: &mut K) -> Status
    requires { (1 ≤ cap) × (cap ≤ 32) }
    ensures answer { PortsAnswers cap result (record { had = S.left source.old; left = S.left source.new; written_before = K.written sink.old; written_after = K.written sink.new }) }
    ensures usage { result ≢ Status.Usage }
    ensures broken { result ≢ Status.Broken }

    // Each port's rests stand in their order, each once, and the ports take turns.
    ensures fair { (h : Header) (bytes text rest : List ℕ) → S.left source.old ≡ Some bytes → opening_of bytes ≡ Accepts h text rest → IsFair (input_of rest).lines }

    // A fault is told where it was counted, and none is passed over: only a read fault leaves another count of the source,
    // and only a write fault one of the sink.
    ensures read { result ≡ Status.ReadFault → Rose (S.faults source.old) (S.faults source.new) }
    ensures write { result ≡ Status.WriteFault → Rose (K.faults sink.old) (K.faults sink.new) }
    ensures reads_kept { result ≢ Status.ReadFault → S.faults source.new ≡ S.faults source.old }
    ensures writes_kept { result ≢ Status.WriteFault → K.faults sink.new ≡ K.faults sink.old }
{
    ddr_text::laws::opening_opens_again();
    caps_requests();
    reports::laws::caps_ages();
    merges_fairly();
    let mut job = PlainSink::new(alloc);
    match merge(alloc, cap, source, &mut job) {
        Status::Ok => replay_bytes(alloc, job.into_bytes(), sink),
        Status::Refused => refuse(job.bytes(), sink),
        Status::ReadFault => Status::ReadFault,
        Status::WriteFault => Status::WriteFault,
        Status::OutOfMemory => Status::OutOfMemory,
        Status::Usage => Status::Usage,
        Status::Broken => Status::Broken,
    }
}

// Replays a job that is in memory.
fn replay_bytes<K: Sink>(alloc: Global, job: Vec<u8>, sink: &mut K) -> Status
    ensures answer { (left : Option (List ℕ)) × Answers result (record { had = Some job.items; left = left; written_before = K.written sink.old; written_after = K.written sink.new }) }
    ensures usage { result ≢ Status.Usage }
    ensures broken { result ≢ Status.Broken }
    ensures read { result ≢ Status.ReadFault }
    ensures write { result ≡ Status.WriteFault → Rose (K.faults sink.old) (K.faults sink.new) }
    ensures writes_kept { result ≢ Status.WriteFault → K.faults sink.new ≡ K.faults sink.old }
{
    let mut source = PlainSource::new(job);
    replay(alloc, &mut source, sink)
}

// Writes the X line of an opening that is refused.
fn refuse<K: Sink>(line: &[u8], sink: &mut K) -> Status
    ensures answer { RefusalAnswers result line.now (K.written sink.old) (K.written sink.new) }
    ensures write { result ≡ Status.WriteFault → Rose (K.faults sink.old) (K.faults sink.new) }
    ensures writes_kept { result ≢ Status.WriteFault → K.faults sink.new ≡ K.faults sink.old }
{
    match ddr_text::put(line, sink) {
        Ok(()) => Status::Refused,
        Err(stop) => stop.status(),
    }
}
