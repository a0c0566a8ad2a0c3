//! Showing a report: its commands in readable form.
ghost use Rattle.std.specs.Prelude.{◌≡◌, ◌≢◌};
ghost use Rattle.ddr_io.specs.Faults.{Rose};
ghost use Rattle.ddr_cli.specs.Shown.{ShowAnswers};

use crate::writing::{Wording, write_behind};
use ddr_io::{LineReader, Sink, Source, Status};
use ddr_text::{Opening, ReportReader, open_job, refuse};
use std::alloc::Global;

/// Reads a report, and writes for each C line its clock and its command in readable form. A line that is not well formed
/// ends it with an X line.
#[inline(never)]
pub fn show<S: Source, K: Sink>(alloc: Global, source: &mut S, sink: &mut K) -> Status
    ensures answer { ShowAnswers result (record { had = S.left source.old; left = S.left source.new; written_before = K.written sink.old; written_after = K.written sink.new }) }
    ensures usage { result ≢ Status.Usage }
    ensures broken { result ≢ Status.Broken }

    // A fault is told exactly where it was counted.
    ensures read { result ≡ Status.ReadFault → Rose (S.faults source.old) (S.faults source.new) }
    ensures write { result ≡ Status.WriteFault → Rose (K.faults sink.old) (K.faults sink.new) }
    ensures reads_kept { result ≢ Status.ReadFault → S.faults source.new ≡ S.faults source.old }
    ensures writes_kept { result ≢ Status.WriteFault → K.faults sink.new ≡ K.faults sink.old }
{
    let mut reader = LineReader::new();
    match open_job(alloc, &mut reader, source) {
        Ok(Opening::Accepted(header, _text)) => write_behind(
            ReportReader::new(reader, header.geometry()),
            Wording::Shown,
            source,
            sink,
        ),
        Ok(Opening::Refused(reason)) => refuse(0, reason, sink),
        Ok(Opening::Failed) => Status::ReadFault,
        Err(_) => Status::OutOfMemory,
    }
}
