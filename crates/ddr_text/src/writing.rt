//! Writing whole pieces into a sink: bytes, lines of a report, an opening.
ghost use Rattle.std.specs.Prelude.{◌≡◌, ◌≢◌, ◌≤◌, OnOk, IfErr};
ghost use Rattle.std.specs.List.{flat_map};
ghost use Rattle.std.specs.Io.KnownBytes.{Appends};
ghost use Rattle.ddr_io.specs.Faults.{Rose};
ghost use Rattle.ddr_io.specs.Sink.{AppendsPrefix};
ghost use Rattle.ddr_text.specs.Outcome.{RefusesLine};
ghost use Rattle.ddr_text.specs.Spelling.{spelled};
ghost use Rattle.ddr_text.specs.Stop.{WriteCause};

use crate::{HeaderText, ReportLine, Stop, write_report_line};
use arrayvec::ArrayVec;
use ddr_io::{Put, Sink, Status, put_all};

/// Writes the whole piece. At `Err` a prefix of it was written.
pub fn put<K: Sink>(piece: &[u8], sink: &mut K) -> Result<(), Stop>
    ensures whole { OnOk result (Appends (K.written sink.old) (K.written sink.new) piece.now) }
    ensures writes_a_prefix { IfErr result (λ stop. AppendsPrefix (K.written sink.old) (K.written sink.new) piece.now) }
    ensures faults_never_fall { K.faults sink.old ≤ K.faults sink.new }
    ensures faults_kept { OnOk result (K.faults sink.new ≡ K.faults sink.old) }
    ensures cause { IfErr result (WriteCause (K.faults sink.old) (K.faults sink.new)) }
{
    if piece.is_empty() {
        return Ok(());
    }
    match put_all(sink, piece) {
        Put::Took(_) => Ok(()),
        Put::Failed => Err(Stop::WriteFault),
        Put::NoMemory => Err(Stop::OutOfMemory),
    }
}

/// Writes a line of a report.
pub fn put_line<K: Sink>(line: &ReportLine, sink: &mut K) -> Result<(), Stop>
    ensures whole { OnOk result (Appends (K.written sink.old) (K.written sink.new) (spelled line.now)) }
    ensures writes_a_prefix { IfErr result (λ stop. AppendsPrefix (K.written sink.old) (K.written sink.new) (spelled line.now)) }
    ensures faults_never_fall { K.faults sink.old ≤ K.faults sink.new }
    ensures faults_kept { OnOk result (K.faults sink.new ≡ K.faults sink.old) }
    ensures cause { IfErr result (WriteCause (K.faults sink.old) (K.faults sink.new)) }
{
    let mut text = ArrayVec::new();
    write_report_line(line, &mut text);
    put(&text, sink)
}

/// Writes these lines of a report.
pub fn put_lines<K: Sink>(lines: &[ReportLine], sink: &mut K) -> Result<(), Stop>
    ensures whole { OnOk result (Appends (K.written sink.old) (K.written sink.new) (flat_map spelled lines.now)) }
    ensures writes_a_prefix { IfErr result (λ stop. AppendsPrefix (K.written sink.old) (K.written sink.new) (flat_map spelled lines.now)) }
    ensures faults_never_fall { K.faults sink.old ≤ K.faults sink.new }
    ensures faults_kept { OnOk result (K.faults sink.new ≡ K.faults sink.old) }
    ensures cause { IfErr result (WriteCause (K.faults sink.old) (K.faults sink.new)) }
{
    for line in lines {
        put_line(line, sink)?;
    }
    Ok(())
}

/// Writes the text of a header and its separator as one piece.
pub fn put_opening<K: Sink>(text: &HeaderText, sink: &mut K) -> Result<(), Stop>
    ensures whole { OnOk result (Appends (K.written sink.old) (K.written sink.new) text.now) }
    ensures writes_a_prefix { IfErr result (λ stop. AppendsPrefix (K.written sink.old) (K.written sink.new) text.now) }
    ensures faults_never_fall { K.faults sink.old ≤ K.faults sink.new }
    ensures faults_kept { OnOk result (K.faults sink.new ≡ K.faults sink.old) }
    ensures cause { IfErr result (WriteCause (K.faults sink.old) (K.faults sink.new)) }
{
    put(text.bytes(), sink)
}

/// Writes the X line that ends a report: the line with this number is refused for this reason. Line 0 is the opening.
pub fn refuse<K: Sink>(number: u64, reason: u8, sink: &mut K) -> Status
    ensures written { RefusesLine result number reason (K.written sink.old) (K.written sink.new) }
    ensures faults_never_fall { K.faults sink.old ≤ K.faults sink.new }
    ensures write { result ≡ Status.WriteFault → Rose (K.faults sink.old) (K.faults sink.new) }
    ensures writes_kept { result ≢ Status.WriteFault → K.faults sink.new ≡ K.faults sink.old }
{
    match put_line(&ReportLine::Refused(number, reason), sink) {
        Ok(()) => Status::Refused,
        Err(stop) => stop.status(),
    }
}
