//! A made job that is replayed in memory.
ghost use Rattle.std.specs.Prelude.{ℕ, ◌≡◌, ◌≢◌, ◌<◌, ◌≤◌, IfOk, length, None};
ghost use Rattle.std.specs.List.{flat_map};
ghost use Rattle.ddr_io.specs.Faults.{Rose};
ghost use Rattle.ddr_text.specs.Spelling.{spelled};
ghost use Rattle.made_jobs.specs.Made.{made};
ghost use Rattle.made_jobs.specs.Writing.{Writes};
ghost use Rattle.trace_replay.specs.Ending.{end_lines};
ghost use Rattle.ddr_cli.specs.Made.{IsMadeEnd, MadeAnswers};

use ddr_io::{OutOfMemory, PlainSink, PlainSource, Put, Sink, Status};
use made_jobs::{makes_a_header, makes_requests, write_job};
use std::alloc::Global;
use trace_replay::{Ended, Ending, run_job};

/// Makes a job, replays it in memory, and writes the end of its report: the S lines and the E line.
#[inline(never)]
pub(crate) fn run_made<K: Sink>(alloc: Global, seed: u64, requests: u64, sink: &mut K) -> Status
    requires { requests ≤ 1048576 }
    ensures answer { MadeAnswers result seed requests (K.written sink.old) (K.written sink.new) }
    ensures write { result ≡ Status.WriteFault → Rose (K.faults sink.old) (K.faults sink.new) }
    ensures writes_kept { result ≢ Status.WriteFault → K.faults sink.new ≡ K.faults sink.old }
{
    match end_made(alloc, seed, requests) {
        Ok(ending) => write_ending(&ending, sink),
        Err(_) => Status::OutOfMemory,
    }
}

// Writes what ends a report.
fn write_ending<K: Sink>(ending: &Ending, sink: &mut K) -> Status
    ensures lines { Writes result (K.written sink.old) (K.written sink.new) (flat_map spelled (end_lines ending.now)) }
    ensures write { result ≡ Status.WriteFault → Rose (K.faults sink.old) (K.faults sink.new) }
    ensures writes_kept { result ≢ Status.WriteFault → K.faults sink.new ≡ K.faults sink.old }
{
    match ending.write(sink) {
        Ok(()) => Status::Ok,
        Err(stop) => stop.status(),
    }
}

// Makes a job and replays it in memory, to the end of its report.
fn end_made(alloc: Global, seed: u64, requests: u64) -> Result<Ending, OutOfMemory>
    requires { requests ≤ 1048576 }
    ensures { IfOk result (λ ending. IsMadeEnd seed requests (flat_map spelled (end_lines ending))) }
{
    makes_a_header();
    makes_requests();
    let job = make(alloc, seed, requests)?;
    let mut source = PlainSource::new(job);
    let mut nothing = Nothing {};
    match run_job(alloc, &mut source, &mut nothing) {
        Ended::Finished(ending) => Ok(ending),
        Ended::Refused => unreachable!(),
        Ended::Stopped(_) => Err(OutOfMemory),
    }
}

// Makes a job in memory.
fn make(alloc: Global, seed: u64, requests: u64) -> Result<Vec<u8>, OutOfMemory>
    ensures { IfOk result (λ job. job.items ≡ made seed requests) }
{
    let mut job = PlainSink::new(alloc);
    match write_job(seed, requests, &mut job) {
        Status::Ok => Ok(job.into_bytes()),
        _ => Err(OutOfMemory),
    }
}

// A sink that keeps nothing, and has no faults.
#[derive(Drop)]
struct Nothing {}

impl Sink for Nothing {
    ghost written = { λ _. None };

    ghost faults = { λ _. 0 };

    fn write(&mut self, piece: &[u8]) -> Put {
        Put::Took(piece.len())
    }
}
