//! Writing a piece or a line, with what stopped it as a stop of a trace.
ghost use Rattle.std.specs.Prelude.{ℕ, ◌≡◌, ◌+◌, List, Option, OnOk, IfErr};
ghost use Rattle.std.specs.Io.KnownBytes.{Appends};
ghost use Rattle.command_words.specs.Geometry.{Shape};
ghost use Rattle.ddr_text.specs.AcceptedReport.{IsReportLine};
ghost use Rattle.ddr_text.specs.Stop.{WriteCause};
ghost use Rattle.made_jobs.specs.TraceText.{spelled_line};
ghost use Rattle.foreign_traces.specs.Ending.{IsWriteCause};
ghost use Rattle.foreign_traces.specs.Lines.{IsJob, IsReport, IsRequest};

use crate::Stop;
use arrayvec::ArrayVec;
use ddr_io::Sink;
use ddr_text::{ReportLine, TraceLine, put, put_line};
use made_jobs::write_trace_line;

/// Writes the text of a header and its separator.
pub(crate) fn put_heading<F, K: Sink>(text: &[u8], sink: &mut K) -> Result<(), Stop<F>>
    ensures report { OnOk result ((g : Shape) → IsReport g text.now (K.written sink.old) (K.written sink.new)) }
    ensures job { OnOk result ((g : Shape) → IsJob g text.now 0 (K.written sink.old) (K.written sink.new)) }
    ensures kept { OnOk result (K.faults sink.new ≡ K.faults sink.old) }
    ensures cause { IfErr result (IsWriteCause (K.faults sink.old) (K.faults sink.new)) }
{
    match put(text, sink) {
        Ok(()) => Ok(()),
        Err(stop) => Err(Stop::of(stop)),
    }
}

/// Writes a line of a report.
pub(crate) fn put_report_line<F, K: Sink>(line: &ReportLine, sink: &mut K) -> Result<(), Stop<F>>
    ensures report { OnOk result ((g : Shape) (text : List ℕ) (before : Option (List ℕ)) → IsReportLine g line.now
        → IsReport g text before (K.written sink.old) → IsReport g text before (K.written sink.new)) }
    ensures kept { OnOk result (K.faults sink.new ≡ K.faults sink.old) }
    ensures cause { IfErr result (IsWriteCause (K.faults sink.old) (K.faults sink.new)) }
{
    match put_line(line, sink) {
        Ok(()) => Ok(()),
        Err(stop) => Err(Stop::of(stop)),
    }
}

/// Writes a line of a job.
pub(crate) fn put_job_line<F, K: Sink>(line: &TraceLine, sink: &mut K) -> Result<(), Stop<F>>
    ensures job { OnOk result ((g : Shape) (text : List ℕ) (count : ℕ) (before : Option (List ℕ)) → IsRequest g line.now
        → IsJob g text count before (K.written sink.old) → IsJob g text (count + 1) before (K.written sink.new)) }
    ensures kept { OnOk result (K.faults sink.new ≡ K.faults sink.old) }
    ensures cause { IfErr result (IsWriteCause (K.faults sink.old) (K.faults sink.new)) }
{
    match put_trace_line(line, sink) {
        Ok(()) => Ok(()),
        Err(stop) => Err(Stop::of(stop)),
    }
}

// The same.
fn put_trace_line<K: Sink>(line: &TraceLine, sink: &mut K) -> Result<(), ddr_text::Stop>
    ensures whole { OnOk result (Appends (K.written sink.old) (K.written sink.new) (spelled_line line.now)) }
    ensures kept { OnOk result (K.faults sink.new ≡ K.faults sink.old) }
    ensures cause { IfErr result (WriteCause (K.faults sink.old) (K.faults sink.new)) }
{
    let mut text = ArrayVec::new();
    write_trace_line(line, &mut text);
    put(&text, sink)
}
