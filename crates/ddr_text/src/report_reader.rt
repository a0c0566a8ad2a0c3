//! Reading the lines of a report, one after another, behind its opening.
ghost use Rattle.std.specs.Prelude.{ℕ, ◌≡◌, ◌≢◌, ◌+◌, ◌<◌, ◌≤◌, length, nat_lt, if◌then◌else◌};
ghost use Rattle.ddr_io.specs.Faults.{Rose};
ghost use Rattle.ddr_io.specs.Line.{next_bytes};
ghost use Rattle.ddr_text.specs.AcceptedReport.{IsReportLine};
ghost use Rattle.ddr_text.specs.Reason.{HasNumber, number_of};
ghost use Rattle.ddr_text.specs.ReportReading.{Judges, StepsOn, IsStep, judged_line, is_whole, most_lines, placed, stage_after};
ghost use Rattle.ddr_text.specs.declared.lines.ReportLine.{ReportLine as AnyReportLine};

use crate::{Reason, ReportLine, laws, read_report_line, report_lines};
use command_words::Geometry;
use ddr_io::{Line, LineReader, Source};
use std::marker::Model;

// A report has at most so many lines behind its opening.
const MOST_LINES: u64 = 4_294_967_295;

/// Where the next line of a report may stand: first C, D and F lines, then S lines, then one E line, then at most one X
/// line.
#[derive(Clone, Copy, Debug, PartialEq, Eq)]
pub enum Stage {
    /// Behind C, D and F lines.
    Body,
    /// Behind an S line.
    Counts,
    /// Behind the E line.
    Ended,
    /// Behind the X line.
    Closed,
}

/// What comes next in a report.
#[derive(Clone, Copy, Debug, PartialEq, Eq)]
pub enum Next {
    /// A line in its place.
    Line(ReportLine),
    /// No byte is left, and the report is whole.
    End,
    /// The line with this number is refused for this reason.
    Refused(u64, u8),
    /// The source had a fault.
    Failed,
}

/// Reads a report behind its opening, line by line.
#[derive(Drop)]
pub struct ReportReader {
    reader: LineReader,
    geometry: Geometry,
    stage: Stage,
    // The number of the next line, counted from 1.
    number: u64,
}

impl Model for ReportReader {
    ghost use Rattle.std.specs.Prelude.{◌+◌, ◌≤◌};
    ghost use Rattle.ddr_text.specs.ReportReading.{Place, most_lines};

    ghost Value = { Place };

    ghost view = { λ r. record { reader = r.reader; shape = r.geometry; stage = r.stage; number = r.number } };

    ghost invariant = { λ r. r.number ≤ most_lines + 1 };
}

impl ReportReader {
    /// Goes on behind the opening of a report of this geometry.
    pub fn new(reader: LineReader, geometry: Geometry) -> ReportReader
        ensures { result ≡ record { reader = reader; shape = geometry; stage = Stage.Body; number = 1 } }
    {
        ReportReader {
            reader,
            geometry,
            stage: Stage::Body,
            number: 1,
        }
    }

    /// The number of the line that comes next, counted from 1.
    pub fn number(&self) -> u64
        ensures number { result ≡ self.now.number }
        ensures most { result ≤ most_lines + 1 }
    {
        self.number
    }

    /// Reads the next line. The reader is one whose last answer, if any, was a line.
    pub fn next<S: Source>(&mut self, source: &mut S) -> Next
        requires { self.old.reader.last ≡ Line.Text }

        // What it is, by the next bytes.
        ensures step { IsStep self.old self.new (next_bytes self.old.reader.held (S.left source.old)) (next_bytes self.new.reader.held (S.left source.new)) result }

        // What is known of a line also where the bytes are not.
        ensures line { (line : AnyReportLine) → result ≡ Next.Line line → StepsOn self.old self.new line }

        // A fault is told where the source counted one.
        ensures faults_never_fall { S.faults source.old ≤ S.faults source.new }
        ensures failed { result ≡ Next.Failed → Rose (S.faults source.old) (S.faults source.new) }

        // Any other answer leaves the count: no failed read is tried again.
        ensures faults_kept { result ≢ Next.Failed → S.faults source.new ≡ S.faults source.old }
    {
        laws::lines_are_parts();
        match self.reader.next_line(source) {
            Line::Text => self.judge_line(),
            Line::TooLong => self.refuse_rest(Reason::LineTooLong),
            Line::Unended => self.refuse_rest(Reason::LineUnended),
            Line::End => self.end(),
            Line::Failed => Next::Failed,
        }
    }

    // Judges the line that was read.
    fn judge_line(&mut self) -> Next
        requires { length self.old.reader.line < 512 }
        ensures judged { Judges (judged_line self.old.shape self.old.stage self.old.number self.old.reader.line) self.old self.new result }
        ensures inside { (line : AnyReportLine) → result ≡ Next.Line line → IsReportLine self.old.shape line }
    {
        if self.number > MOST_LINES {
            return self.refuse(Reason::TooManyLines);
        }
        report_lines();
        match read_report_line(self.reader.line(), self.geometry) {
            Ok(line) => self.place(line),
            Err(fault) => self.refuse(Reason::from(fault)),
        }
    }

    // Takes a line, if it may stand at its place.
    fn place(&mut self, line: ReportLine) -> Next
        requires { self.old.number ≤ MOST_LINES }
        ensures { Judges (placed line (stage_after self.old.stage line)) self.old self.new result }
    {
        match self.stage.after(&line) {
            Some(stage) => {
                self.stage = stage;
                self.number += 1;
                Next::Line(line)
            }
            None => self.refuse(Reason::LineOutOfPlace),
        }
    }

    // Refuses the next line for this reason.
    fn refuse(&self, reason: Reason) -> Next
        requires { HasNumber reason }
        ensures { result ≡ Next.Refused self.now.number (number_of reason) }
    {
        Next::Refused(self.number, reason.number())
    }

    // Refuses the bytes that are left, of which there are some: for this reason, or as one line too many.
    fn refuse_rest(&self, reason: Reason) -> Next
        requires { HasNumber reason }
        ensures { result ≡ Next.Refused self.now.number (if nat_lt MOST_LINES self.now.number then number_of Reason.TooManyLines else number_of reason) }
    {
        if self.number > MOST_LINES {
            self.refuse(Reason::TooManyLines)
        } else {
            self.refuse(reason)
        }
    }

    // What the end of the bytes is.
    fn end(&self) -> Next
        ensures { result ≡ (if is_whole self.now.stage then Next.End else Next.Refused self.now.number (number_of Reason.NoEndLine)) }
    {
        if self.stage.is_whole() {
            Next::End
        } else {
            self.refuse(Reason::NoEndLine)
        }
    }
}

impl Stage {
    // The stage behind the line, if it may stand at this one.
    fn after(self, line: &ReportLine) -> Option<Stage>
        ensures { result ≡ stage_after self line.now }
    {
        match self {
            Stage::Body => after_body(line),
            Stage::Counts => after_counts(line),
            Stage::Ended => after_end(line),
            Stage::Closed => None,
        }
    }

    // Whether the report may end.
    fn is_whole(self) -> bool
        ensures { result ≡ is_whole self }
    {
        match self {
            Stage::Body => false,
            Stage::Counts => false,
            Stage::Ended => true,
            Stage::Closed => true,
        }
    }
}

fn after_body(line: &ReportLine) -> Option<Stage>
    ensures { result ≡ stage_after Stage.Body line.now }
{
    match line {
        ReportLine::Issued(_, _) => Some(Stage::Body),
        ReportLine::Value(_, _, _, _) => Some(Stage::Body),
        ReportLine::Flip(_, _, _, _) => Some(Stage::Body),
        ReportLine::Stat(_, _) => Some(Stage::Counts),
        ReportLine::End(_) => Some(Stage::Ended),
        ReportLine::Refused(_, _) => None,
    }
}

fn after_counts(line: &ReportLine) -> Option<Stage>
    ensures { result ≡ stage_after Stage.Counts line.now }
{
    match line {
        ReportLine::Issued(_, _) => None,
        ReportLine::Value(_, _, _, _) => None,
        ReportLine::Flip(_, _, _, _) => None,
        ReportLine::Stat(_, _) => Some(Stage::Counts),
        ReportLine::End(_) => Some(Stage::Ended),
        ReportLine::Refused(_, _) => None,
    }
}

fn after_end(line: &ReportLine) -> Option<Stage>
    ensures { result ≡ stage_after Stage.Ended line.now }
{
    match line {
        ReportLine::Issued(_, _) => None,
        ReportLine::Value(_, _, _, _) => None,
        ReportLine::Flip(_, _, _, _) => None,
        ReportLine::Stat(_, _) => None,
        ReportLine::End(_) => None,
        ReportLine::Refused(_, _) => Some(Stage::Closed),
    }
}
