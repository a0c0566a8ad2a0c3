//! Writes a made job.
ghost use Rattle.std.specs.Prelude.{◌≡◌, ◌≢◌, ◌≤◌, OnOk, IfErr};
ghost use Rattle.std.specs.Io.KnownBytes.{Appends};
ghost use Rattle.ddr_io.specs.Faults.{Rose};
ghost use Rattle.ddr_io.specs.Sink.{AppendsPrefix};
ghost use Rattle.ddr_text.specs.Stop.{WriteCause};
ghost use Rattle.made_jobs.specs.Made.{made};
ghost use Rattle.made_jobs.specs.TraceText.{spelled_line};
ghost use Rattle.made_jobs.specs.Writing.{Writes};

use crate::{Generator, write_trace_line};
use arrayvec::ArrayVec;
use ddr_io::{Sink, Status};
use ddr_text::{Stop, TraceLine, put};

// The header, and the line that ends it.
const OPENING: &[u8] =
    b"format = 1\nbin = \"4800-prac\"\nrows = 65536\nath = 64\neth = 32\nraaimt = 32\nraammt = 64\nrefresh = \"all\"\necs_every = 8\n---\n";

/// Writes the made job of a seed, line by line as it draws it, in constant memory. `WriteFault`
/// and `OutOfMemory` are the sink's: some prefix of the job was written then.
pub fn write_job<K: Sink>(seed: u64, requests: u64, sink: &mut K) -> Status
    ensures bytes { Writes result (K.written sink.old) (K.written sink.new) (made seed requests) }
    ensures faults_never_fall { K.faults sink.old ≤ K.faults sink.new }
    ensures fault { result ≡ Status.WriteFault → Rose (K.faults sink.old) (K.faults sink.new) }
    ensures faults_kept { result ≢ Status.WriteFault → K.faults sink.new ≡ K.faults sink.old }
{
    match put_job(seed, requests, sink) {
        Ok(()) => Status::Ok,
        Err(stop) => stop.status(),
    }
}

fn put_job<K: Sink>(seed: u64, requests: u64, sink: &mut K) -> Result<(), Stop>
    ensures whole { OnOk result (Appends (K.written sink.old) (K.written sink.new) (made seed requests)) }
    ensures writes_a_prefix { IfErr result (λ stop. AppendsPrefix (K.written sink.old) (K.written sink.new) (made seed requests)) }
    ensures faults_never_fall { K.faults sink.old ≤ K.faults sink.new }
    ensures cause { IfErr result (WriteCause (K.faults sink.old) (K.faults sink.new)) }
    ensures faults_kept { OnOk result (K.faults sink.new ≡ K.faults sink.old) }
{
    put(OPENING, sink)?;
    let mut generator = Generator::new(seed);
    'lines: for _ in 0..requests {
        let line = generator.next_request();
        put_line(&line, sink)?;
    }
    Ok(())
}

// Writes a line.
fn put_line<K: Sink>(line: &TraceLine, sink: &mut K) -> Result<(), Stop>
    ensures whole { OnOk result (Appends (K.written sink.old) (K.written sink.new) (spelled_line line.now)) }
    ensures writes_a_prefix { IfErr result (λ stop. AppendsPrefix (K.written sink.old) (K.written sink.new) (spelled_line line.now)) }
    ensures faults_never_fall { K.faults sink.old ≤ K.faults sink.new }
    ensures cause { IfErr result (WriteCause (K.faults sink.old) (K.faults sink.new)) }
    ensures faults_kept { OnOk result (K.faults sink.new ≡ K.faults sink.old) }
{
    let mut text = ArrayVec::new();
    write_trace_line(line, &mut text);
    put(&text, sink)
}
