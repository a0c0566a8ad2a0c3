//! Writing a report in version 2.
ghost use Rattle.std.specs.Prelude.{ℕ, ◌≡◌, ◌≢◌, ◌++◌, List, OnOk, IfErr, codes};
ghost use Rattle.std.specs.Io.KnownBytes.{Appends};
ghost use Rattle.std.specs.Str.{bytes_eq};
ghost use Rattle.ddr_io.specs.Faults.{Rose};
ghost use Rattle.ddr_io.specs.Sink.{AppendsPrefix};
ghost use Rattle.ddr_text.specs.Opening.{with_feed};
ghost use Rattle.ddr_text.specs.Stop.{WriteCause};
ghost use Rattle.ddr_cli.specs.Upgraded.{UpgradeAnswers, newer};

use crate::writing::{Wording, write_behind};
use ddr_io::{LineReader, Sink, Source, Status};
use ddr_text::{Apart, HeaderText, ReportReader, Stop, open_apart, put, refuse, report_lines};
use std::alloc::Global;

/// Reads a report, and writes it in version 2: the separator `---` becomes `--- 2 4 8`, and all else stays. A line that is
/// not well formed ends it with an X line.
#[inline(never)]
pub fn upgrade<S: Source, K: Sink>(alloc: Global, source: &mut S, sink: &mut K) -> Status
    ensures answer { UpgradeAnswers result (record { had = S.left source.old; left = S.left source.new; written_before = K.written sink.old; written_after = K.written sink.new }) }
    ensures usage { result ≢ Status.Usage }
    ensures broken { result ≢ Status.Broken }

    // A fault is told exactly where it was counted.
    ensures read { result ≡ Status.ReadFault → Rose (S.faults source.old) (S.faults source.new) }
    ensures write { result ≡ Status.WriteFault → Rose (K.faults sink.old) (K.faults sink.new) }
    ensures reads_kept { result ≢ Status.ReadFault → S.faults source.new ≡ S.faults source.old }
    ensures writes_kept { result ≢ Status.WriteFault → K.faults sink.new ≡ K.faults sink.old }
{
    report_lines();
    let mut reader = LineReader::new();
    match open_apart(alloc, &mut reader, source) {
        Ok(Apart::Accepted(header, text, separator)) => {
            let lines = ReportReader::new(reader, header.geometry());
            match put_heading(&text, &separator, sink) {
                Ok(()) => write_behind(lines, Wording::Spelled, source, sink),
                Err(stop) => stop.status(),
            }
        }
        Ok(Apart::Refused(reason)) => refuse(0, reason, sink),
        Ok(Apart::Failed) => Status::ReadFault,
        Err(_) => Status::OutOfMemory,
    }
}

// Writes the text of the header, and its separator in version 2.
fn put_heading<K: Sink>(text: &HeaderText, separator: &HeaderText, sink: &mut K) -> Result<(), Stop>
    requires { (line : List ℕ) × (separator.now ≡ with_feed line) }
    ensures whole { (line : List ℕ) → separator.now ≡ with_feed line → OnOk result (Appends (K.written sink.old) (K.written sink.new) (text.now ++ with_feed (newer line))) }
    ensures writes_a_prefix { (line : List ℕ) → separator.now ≡ with_feed line → IfErr result (λ stop. AppendsPrefix (K.written sink.old) (K.written sink.new) (text.now ++ with_feed (newer line))) }
    ensures cause { IfErr result (WriteCause (K.faults sink.old) (K.faults sink.new)) }
    ensures faults_kept { OnOk result (K.faults sink.new ≡ K.faults sink.old) }
{
    put(text.bytes(), sink)?;
    put(newer(separator.bytes()), sink)
}

// The separator in version 2, with its line feed.
fn newer(separator: &[u8]) -> &[u8]
    ensures { (line : List ℕ) → separator.now ≡ with_feed line → result.now ≡ with_feed (newer line) }
{
    if is_plain(separator) {
        b"--- 2 4 8\n"
    } else {
        separator
    }
}

// Whether it is the separator of version 1, with its line feed.
fn is_plain(separator: &[u8]) -> bool
    ensures { result ≡ bytes_eq separator.now (codes "---\n") }
{
    separator == b"---\n".as_slice()
}
