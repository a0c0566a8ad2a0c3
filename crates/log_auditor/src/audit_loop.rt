//! The audit of a report, from its bytes to one line.
ghost use Rattle.std.specs.Prelude.{ℕ, ◌≡◌, ◌≢◌, ◌+◌, ◌++◌, ◌∷◌, [], IfOk, IfErr, List, Some, Err};
ghost use Rattle.ddr_io.specs.Faults.{Rose};
ghost use Rattle.ddr_io.specs.Line.{next_bytes};
ghost use Rattle.ddr_text.specs.AcceptedReport.{IsReportLine};
ghost use Rattle.ddr_text.specs.Stop.{ReadCause};
ghost use Rattle.ddr_text.specs.declared.lines.ReportLine.{ReportLine as AnyReportLine};
ghost use Rattle.speed_bin.specs.Header.{IsAccepted, shape_of};
ghost use Rattle.speed_bin.specs.declared.header.Header.{Header as AnyHeader};
ghost use Rattle.log_auditor.specs.Findings.{Answers, Finds, is_place};
ghost use Rattle.log_auditor.specs.AuditSoFar.{Audited, FindsBehind, IsWritten, ReadsAllOf};
ghost use Rattle.ddr_text.specs.ReportReading.{stage_after};
ghost use Rattle.ddr_text.specs.declared.report_reader.Stage.{Stage as AnyStage};

use crate::finding::Finding;
use crate::{Auditor, Verdict};
use arrayvec::ArrayVec;
use ddr_io::{Line, LineReader, Sink, Source, Status};
use ddr_text::{Next, Opening, ReportLine, ReportReader, Stop, open_job, put};
use speed_bin::Header;
use std::alloc::Global;

/// Reads a report, and writes one line: `A ok` where it is well formed and its log satisfies the rules, `A broken` with
/// the first line at which a rule fails and the least rule there, or `X` with the first line that is not well formed and
/// the reason. A line that is not well formed comes before a broken rule, wherever it stands.
#[inline(never)]
pub fn audit<S: Source, K: Sink>(alloc: Global, source: &mut S, sink: &mut K) -> Status
    ensures answer { Answers result (record { had = S.left source.old; left = S.left source.new; written_before = K.written sink.old; written_after = K.written sink.new }) }
    ensures read { result ≡ Status.ReadFault → Rose (S.faults source.old) (S.faults source.new) }
    ensures write { result ≡ Status.WriteFault → Rose (K.faults sink.old) (K.faults sink.new) }

    // No fault is passed over: only a read fault leaves another count of the source, and only a write fault one of the sink.
    ensures reads_kept { result ≢ Status.ReadFault → S.faults source.new ≡ S.faults source.old }
    ensures writes_kept { result ≢ Status.WriteFault → K.faults sink.new ≡ K.faults sink.old }
    ensures usage { result ≢ Status.Usage }
{
    match find(alloc, source) {
        Ok(finding) => write_finding(finding, sink),
        Err(stop) => stop.status(),
    }
}

// Writes the one line.
fn write_finding<K: Sink>(finding: Finding, sink: &mut K) -> Status
    ensures written { IsWritten result finding (K.written sink.old) (K.written sink.new) }
    ensures write { result ≡ Status.WriteFault → Rose (K.faults sink.old) (K.faults sink.new) }
    ensures faults_kept { result ≢ Status.WriteFault → K.faults sink.new ≡ K.faults sink.old }
{
    let mut text = ArrayVec::new();
    finding.spell(&mut text);
    match put(&text, sink) {
        Ok(()) => finding.status(),
        Err(cut) => cut.status(),
    }
}

// Reads the whole report.
fn find<S: Source>(alloc: Global, source: &mut S) -> Result<Finding, Stop>
    ensures found { IfOk result (Finds (S.left source.old)) }
    ensures all { IfOk result (ReadsAllOf (S.left source.old) (S.left source.new)) }
    ensures cause { IfErr result (ReadCause (S.faults source.old) (S.faults source.new)) }
    ensures faults_kept { result ≢ Err Stop.ReadFault → S.faults source.new ≡ S.faults source.old }
{
    let mut reader = LineReader::new();
    match open_job(alloc, &mut reader, source) {
        Ok(Opening::Accepted(header, _text)) => find_behind(alloc, &header, reader, source),
        Ok(Opening::Refused(reason)) => Ok(Finding::Refused(0, reason)),
        Ok(Opening::Failed) => Err(Stop::ReadFault),
        Err(_) => Err(Stop::OutOfMemory),
    }
}

// Reads the lines behind the opening.
#[inline(never)]
fn find_behind<S: Source>(
    alloc: Global,
    header: &Header,
    reader: LineReader,
    source: &mut S,
) -> Result<Finding, Stop>
    requires accepted { IsAccepted header.now }
    requires going_on { reader.last ≡ Line.Text }
    ensures found { IfOk result (FindsBehind header.now (next_bytes reader.held (S.left source.old))) }
    ensures all { IfOk result (ReadsAllOf (S.left source.old) (S.left source.new)) }
    ensures cause { IfErr result (ReadCause (S.faults source.old) (S.faults source.new)) }
    ensures faults_kept { result ≢ Err Stop.ReadFault → S.faults source.new ≡ S.faults source.old }
{
    let mut auditor = match Auditor::new(alloc, header) {
        Ok(auditor) => auditor,
        Err(_) => return Err(Stop::OutOfMemory),
    };
    let mut lines = ReportReader::new(reader, header.geometry());
    let mut finding = Finding::Fine;
    loop {
        let number = lines.number();
        match lines.next(source) {
            Next::Line(line) => finding = judge(&mut auditor, finding, number, &line),
            Next::End => return Ok(finding),
            Next::Refused(number, reason) => return Ok(Finding::Refused(number, reason)),
            Next::Failed => return Err(Stop::ReadFault),
        }
    }
}

// Takes the line with this number, unless a rule was broken before: only C lines and the E line can break one.
fn judge(auditor: &mut Auditor, finding: Finding, number: u64, line: &ReportLine) -> Finding
    requires { (h : AnyHeader) × (stage : AnyStage) × (after : AnyStage) × (lines : List AnyReportLine) × Audited h stage number finding auditor.old lines × IsReportLine (shape_of h) line.now × (stage_after stage line.now ≡ Some after) }
    ensures { (h : AnyHeader) (stage after : AnyStage) (lines : List AnyReportLine) → Audited h stage number finding auditor.old lines → IsReportLine (shape_of h) line.now → stage_after stage line.now ≡ Some after
        → Audited h after (number + 1) result auditor.new (lines ++ line.now ∷ []) }
{
    if !finding.is_fine() {
        return finding;
    }
    if !is_place(line) {
        return finding;
    }
    match auditor.take(line) {
        Verdict::Fine => Finding::Fine,
        Verdict::Breaks(rule) => Finding::Broken(number, rule),
    }
}

// Whether the line is a C line or an E line.
fn is_place(line: &ReportLine) -> bool
    ensures { result ≡ is_place line.now }
{
    match line {
        ReportLine::Issued(_, _) => true,
        ReportLine::End(_) => true,
        ReportLine::Value(_, _, _, _) => false,
        ReportLine::Flip(_, _, _, _) => false,
        ReportLine::Stat(_, _) => false,
        ReportLine::Refused(_, _) => false,
    }
}
