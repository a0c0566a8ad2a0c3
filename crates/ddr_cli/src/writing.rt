//! Writing the lines of a report again, one after another.
ghost use Rattle.std.specs.Prelude.{◌≡◌, ◌≢◌, ◌≤◌, [], OnOk, IfErr};
ghost use Rattle.std.specs.Io.KnownBytes.{Appends};
ghost use Rattle.ddr_io.specs.Faults.{Rose};
ghost use Rattle.ddr_io.specs.Line.{next_bytes};
ghost use Rattle.ddr_io.specs.Sink.{AppendsPrefix};
ghost use Rattle.ddr_text.specs.Outcome.{AnswersAs, RefusesLine};
ghost use Rattle.ddr_text.specs.Stop.{WriteCause};
ghost use Rattle.ddr_cli.specs.Behind.{IsOutcomeBehind};
ghost use Rattle.ddr_cli.specs.Wording.{written_as};

use crate::shown::show_line;
use arrayvec::ArrayVec;
use ddr_io::{Line, Sink, Source, Status};
use ddr_text::{Next, ReportLine, ReportReader, Stop, put, refuse, write_report_line};

/// How a line of a report is written again.
#[derive(Clone, Copy, Debug, PartialEq, Eq)]
pub(crate) enum Wording {
    /// In readable form.
    Shown,
    /// As it is spelled.
    Spelled,
}

/// Writes the lines behind the opening. A line that is not well formed ends it with an X line.
pub(crate) fn write_behind<S: Source, K: Sink>(
    mut lines: ReportReader,
    wording: Wording,
    source: &mut S,
    sink: &mut K,
) -> Status
    requires { lines.reader.last ≡ Line.Text }
    ensures written { AnswersAs (IsOutcomeBehind (written_as wording) lines (next_bytes lines.reader.held (S.left source.old))) result (record { had = S.left source.old; left = S.left source.new; written_before = K.written sink.old; written_after = K.written sink.new }) }
    ensures read { result ≡ Status.ReadFault → Rose (S.faults source.old) (S.faults source.new) }
    ensures write { result ≡ Status.WriteFault → Rose (K.faults sink.old) (K.faults sink.new) }
    ensures faults_never_fall { S.faults source.old ≤ S.faults source.new }
    ensures reads_kept { result ≢ Status.ReadFault → S.faults source.new ≡ S.faults source.old }
    ensures writes_kept { result ≢ Status.WriteFault → K.faults sink.new ≡ K.faults sink.old }
    ensures broken { result ≢ Status.Broken }
{
    'each: loop {
        match lines.next(source) {
            Next::Line(line) => match put_worded(&line, wording, sink) {
                Ok(()) => {}
                Err(stop) => return stop.status(),
            },
            Next::End => return Status::Ok,
            Next::Refused(number, reason) => return refuse(number, reason, sink),
            Next::Failed => return Status::ReadFault,
        }
    }
}

// Writes a line again.
fn put_worded<K: Sink>(line: &ReportLine, wording: Wording, sink: &mut K) -> Result<(), Stop>
    ensures whole { OnOk result (Appends (K.written sink.old) (K.written sink.new) (written_as wording line.now)) }
    ensures writes_a_prefix { IfErr result (λ stop. AppendsPrefix (K.written sink.old) (K.written sink.new) (written_as wording line.now)) }
    ensures cause { IfErr result (WriteCause (K.faults sink.old) (K.faults sink.new)) }
    ensures faults_kept { OnOk result (K.faults sink.new ≡ K.faults sink.old) }
{
    let mut text = ArrayVec::new();
    word(line, wording, &mut text);
    put(&text, sink)
}

// Appends what is written of a line.
fn word(line: &ReportLine, wording: Wording, out: &mut ArrayVec<u8, 512>)
    requires { out.old.items ≡ [] }
    ensures { out.new.items ≡ written_as wording line.now }
{
    match wording {
        Wording::Shown => show_line(line, out),
        Wording::Spelled => write_report_line(line, out),
    }
}
