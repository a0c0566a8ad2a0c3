//! The D lines of the reads that are due.
ghost use Rattle.std.specs.Prelude.{ℕ, ◌≡◌, ◌<◌, ◌≤◌, ◌+◌, List, length, IfErr, OnOk};
ghost use Rattle.std.specs.List.{flat_map};
ghost use Rattle.std.specs.Io.KnownBytes.{Appends};
ghost use Rattle.speed_bin.specs.declared.header.Header.{Header as AnyHeader};
ghost use Rattle.ddr_io.specs.Sink.{AppendsPrefix};
ghost use Rattle.ddr_text.specs.Spelling.{spelled};
ghost use Rattle.ddr_text.specs.declared.lines.TraceLine.{TraceLine as AnyLine};
ghost use Rattle.ddr_text.specs.declared.lines.ReportLine.TheVariants.{Value as ValueLine};
ghost use Rattle.reports.specs.Requests.{Request as AnyRequest};
ghost use Rattle.reports.specs.Runs.{Run, ready, held as still_held};
ghost use Rattle.reports.specs.Report.{answers};
ghost use Rattle.trace_replay.specs.ReplayState.{kept_of, answer_lines};
ghost use Rattle.ddr_text.specs.Stop.{WriteCause};

use crate::request_buffer::{HeldRequest, Outcome, RequestBuffer};
use command_words::LineAddr;
use ddr_io::Sink;
use ddr_text::{ReportLine, Stop, put_line};
use error_scrub::LineRead;

// Writes the D lines of all reads before which no request is unserved.
pub(crate) fn put_answers<K: Sink>(held: &mut RequestBuffer, sink: &mut K) -> Result<(), Stop>
    ensures held { OnOk result ((h : AnyHeader) (trace : List AnyLine) (run : Run) (before : ℕ) (rs : List AnyRequest) → held.old ≡ kept_of h trace run before rs
        → held.new ≡ kept_of h trace run (before + length (ready rs run)) (still_held rs run)) }
    ensures wrote { OnOk result ((h : AnyHeader) (trace : List AnyLine) (run : Run) (before : ℕ) (rs : List AnyRequest) → held.old ≡ kept_of h trace run before rs
        → Appends (K.written sink.old) (K.written sink.new) (flat_map spelled (answers h trace run (ready rs run)))) }
    ensures writes_a_prefix { IfErr result (λ stop. (h : AnyHeader) (trace : List AnyLine) (run : Run) (before : ℕ) (rs : List AnyRequest) → held.old ≡ kept_of h trace run before rs
        → AppendsPrefix (K.written sink.old) (K.written sink.new) (flat_map spelled (answers h trace run (ready rs run)))) }
    ensures faults_never_fall { K.faults sink.old ≤ K.faults sink.new }
    ensures faults_kept { OnOk result (K.faults sink.new ≡ K.faults sink.old) }
    ensures cause { IfErr result (WriteCause (K.faults sink.old) (K.faults sink.new)) }
{
    'answers: loop {
        match held.pop_served() {
            Some(served) => put_answer(&served, sink)?,
            None => return Ok(()),
        }
    }
}

// Writes the D line of a read that was served, and nothing for a write.
fn put_answer<K: Sink>(served: &HeldRequest, sink: &mut K) -> Result<(), Stop>
    ensures whole { OnOk result (Appends (K.written sink.old) (K.written sink.new) (flat_map spelled (answer_lines served.now))) }
    ensures writes_a_prefix { IfErr result (λ stop. AppendsPrefix (K.written sink.old) (K.written sink.new) (flat_map spelled (answer_lines served.now))) }
    ensures faults_never_fall { K.faults sink.old ≤ K.faults sink.new }
    ensures faults_kept { OnOk result (K.faults sink.new ≡ K.faults sink.old) }
    ensures cause { IfErr result (WriteCause (K.faults sink.old) (K.faults sink.new)) }
{
    match &served.outcome {
        Outcome::Found(read) => put_value(served.number, served.request.line, read, sink),
        Outcome::Wrote => Ok(()),
        Outcome::Unserved => Ok(()),
    }
}

fn put_value<K: Sink>(
    number: u64,
    line: LineAddr,
    read: &LineRead,
    sink: &mut K,
) -> Result<(), Stop>
    ensures whole { OnOk result (Appends (K.written sink.old) (K.written sink.new) (spelled (ValueLine number line read.now.bytes read.now.state))) }
    ensures writes_a_prefix { IfErr result (λ stop. AppendsPrefix (K.written sink.old) (K.written sink.new) (spelled (ValueLine number line read.now.bytes read.now.state))) }
    ensures faults_never_fall { K.faults sink.old ≤ K.faults sink.new }
    ensures faults_kept { OnOk result (K.faults sink.new ≡ K.faults sink.old) }
    ensures cause { IfErr result (WriteCause (K.faults sink.old) (K.faults sink.new)) }
{
    put_line(
        &ReportLine::Value(number, line, read.bytes, read.state),
        sink,
    )
}
