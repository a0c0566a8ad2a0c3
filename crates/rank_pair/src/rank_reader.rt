//! Reading the lines of a trace of two ranks, one after another, behind the opening of its job.
ghost use Rattle.std.specs.Prelude.{ℕ, ◌≡◌, ◌≢◌, ◌<◌, ◌≤◌, ◌+◌, length};
ghost use Rattle.ddr_io.specs.Faults.{Rose};
ghost use Rattle.ddr_io.specs.Line.{next_bytes};
ghost use Rattle.ddr_text.specs.Reason.{HasNumber, number_of};
ghost use Rattle.reports.specs.Delivered.{IsInside};
ghost use Rattle.pair_reports.specs.Grammar.{rank_line_of};
ghost use Rattle.pair_reports.specs.declared.rank_line.RankLine.{RankLine as AnyRankLine};
ghost use Rattle.rank_pair.specs.Job.{clocks_of as clocks_in, judged_line, within};
ghost use Rattle.rank_pair.specs.Reading.{IsStep, Judges, StepsOn, unless_full};

use command_words::Geometry;
use ddr_io::{Line, LineReader, Source};
use ddr_text::{Reason, TraceLine};
use pair_reports::{RankLine, read_rank_line};
use std::marker::Model;

// A trace has at most so many lines.
const MOST_LINES: u64 = 1_048_576;

// Its I lines let at most so many clocks pass.
const MOST_CLOCKS: u64 = 4_294_967_296;

/// What comes next in a trace.
#[derive(Clone, Copy, Debug, PartialEq, Eq)]
pub(crate) enum Next {
    /// A line.
    Line(RankLine),
    /// No byte is left.
    End,
    /// A line that is refused for this reason.
    Refused(u8),
    /// The source had a fault.
    Failed,
}

/// Reads a trace, line by line.
#[derive(Drop)]
pub(crate) struct RankReader {
    reader: LineReader,
    geometry: Geometry,
    // of the lines that were taken, of both ranks
    lines: u64,
    clocks: u64,
}

impl Model for RankReader {
    ghost use Rattle.std.specs.Prelude.{◌≤◌};
    ghost use Rattle.rank_pair.specs.Reading.{Place};
    ghost use Rattle.rank_pair.specs.Job.{most_clocks, most_lines};

    ghost Value = { Place };

    ghost view = { λ r. record { reader = r.reader; shape = r.geometry; lines = r.lines; clocks = r.clocks } };

    ghost invariant = { λ r. (r.lines ≤ most_lines) × (r.clocks ≤ most_clocks) };
}

impl RankReader {
    /// Goes on behind the opening of a job for a subchannel of this geometry.
    pub(crate) fn new(reader: LineReader, geometry: Geometry) -> RankReader
        ensures { result ≡ record { reader = reader; shape = geometry; lines = 0; clocks = 0 } }
    {
        RankReader {
            reader,
            geometry,
            lines: 0,
            clocks: 0,
        }
    }

    /// The number of the line that comes next, counted from 1.
    pub(crate) fn number(&self) -> u64
        ensures { result ≡ self.now.lines + 1 }
    {
        self.lines + 1
    }

    /// Reads the next line. The reader is one whose last answer, if any, was a line.
    pub(crate) fn next<S: Source>(&mut self, source: &mut S) -> Next
        requires { self.old.reader.last ≡ Line.Text }

        // What it is, by the next bytes.
        ensures step { IsStep self.old self.new (next_bytes self.old.reader.held (S.left source.old)) (next_bytes self.new.reader.held (S.left source.new)) result }

        // What is known of it also where the bytes are not.
        ensures line { (it : AnyRankLine) → result ≡ Next.Line it → StepsOn self.old self.new it }

        // A fault is told where the source counted one, and any other answer leaves the count.
        ensures faults_never_fall { S.faults source.old ≤ S.faults source.new }
        ensures failed { result ≡ Next.Failed → Rose (S.faults source.old) (S.faults source.new) }
        ensures faults_kept { result ≢ Next.Failed → S.faults source.new ≡ S.faults source.old }
    {
        ddr_text::laws::lines_are_parts();
        match self.reader.next_line(source) {
            Line::Text => self.judge_line(),
            Line::TooLong => self.refuse(Reason::LineTooLong),
            Line::Unended => self.refuse(Reason::LineUnended),
            Line::End => Next::End,
            Line::Failed => Next::Failed,
        }
    }

    // Judges the line that was read.
    fn judge_line(&mut self) -> Next
        requires { length self.old.reader.line < 512 }
        ensures judged { Judges (judged_line self.old.shape self.old.lines self.old.clocks self.old.reader.line) self.old self.new result }
        ensures inside { (it : AnyRankLine) → result ≡ Next.Line it → IsInside self.old.shape it.line }
    {
        if self.lines >= MOST_LINES {
            return Next::Refused(Reason::TooManyLines.number());
        }
        pair_reports::laws::reads_lines_inside();
        match read_rank_line(self.reader.line(), self.geometry) {
            Ok(line) => self.take(line),
            Err(fault) => Next::Refused(Reason::from(fault).number()),
        }
    }

    // Takes a line, if its clocks may pass.
    fn take(&mut self, line: RankLine) -> Next
        requires { self.old.lines < MOST_LINES }
        ensures { Judges (within self.old.clocks (Ok line)) self.old self.new result }
    {
        let clocks = clocks_of(&line.line);
        if clocks > MOST_CLOCKS - self.clocks {
            return Next::Refused(Reason::TooManyClocks.number());
        }
        self.lines += 1;
        self.clocks += clocks;
        Next::Line(line)
    }

    // Refuses the bytes that are left, of which there are some: for this reason, or as one line too many.
    fn refuse(&self, reason: Reason) -> Next
        requires { HasNumber reason }
        ensures { result ≡ Next.Refused (unless_full self.now.lines (number_of reason)) }
    {
        if self.lines >= MOST_LINES {
            Next::Refused(Reason::TooManyLines.number())
        } else {
            Next::Refused(reason.number())
        }
    }
}

// The clocks that a line lets pass.
fn clocks_of(line: &TraceLine) -> u64
    ensures { result ≡ clocks_in line.now }
{
    match line {
        TraceLine::Idle(clocks) => *clocks,
        TraceLine::Read(_) => 0,
        TraceLine::Write(_, _) => 0,
        TraceLine::Flip(_, _, _) => 0,
    }
}
