//! Reading the lines of a script, one after another, behind its opening.
ghost use Rattle.std.specs.Prelude.{ℕ, ◌≡◌, ◌≢◌, ◌+◌, ◌<◌, ◌≤◌, ◌⊎◌, length, nat_lt, if◌then◌else◌};
ghost use Rattle.command_words.specs.Kinds.{is_wr};
ghost use Rattle.ddr_io.specs.Faults.{Rose};
ghost use Rattle.ddr_io.specs.Line.{next_bytes};
ghost use Rattle.ddr_text.specs.Reason.{HasNumber, number_of};
ghost use Rattle.device_exec.specs.ScriptGrammar.{IsScriptLine};
ghost use Rattle.device_exec.specs.Reading.{Judges, StepsOn, IsStep, end_at, end_next, judged_line, placed, stage_after};
ghost use Rattle.device_exec.specs.declared.script_line.ScriptLine.{ScriptLine as AnyScriptLine};

use crate::script_line::{ScriptLine, read_script_line, script_lines};
use command_words::{Command, Geometry};
use ddr_io::{Line, LineReader, Source};
use ddr_text::Reason;
use std::marker::Model;

// A script has at most so many lines behind its opening.
const MOST_LINES: u64 = 4_294_967_295;

/// Where the next line of a script may stand.
#[derive(Clone, Copy, Debug, PartialEq, Eq)]
pub enum Stage {
    /// Behind C lines, each WR with its B line, and F lines.
    Body,
    /// Behind a WR, whose B line comes next.
    Awaits,
    /// Behind the E line with this clock.
    Ended(u64),
}

/// What comes next in a script.
#[derive(Clone, Copy, Debug, PartialEq, Eq)]
pub enum Next {
    /// A line in its place.
    Line(ScriptLine),
    /// No byte is left, and the E line had this clock.
    End(u64),
    /// The line with this number is refused for this reason.
    Refused(u64, u8),
    /// The source had a fault.
    Failed,
}

/// Reads a script behind its opening, line by line.
#[derive(Drop)]
pub struct ScriptReader {
    reader: LineReader,
    geometry: Geometry,
    devices: u8,
    stage: Stage,
    // The number of the next line, counted from 1.
    number: u64,
}

impl Model for ScriptReader {
    ghost use Rattle.std.specs.Prelude.{◌≡◌, ◌+◌, ◌≤◌, ◌⊎◌};
    ghost use Rattle.device_exec.specs.Reading.{Place};
    ghost use Rattle.device_exec.specs.declared.script_reader.TheConstants.{MOST_LINES};

    ghost Value = { Place };

    ghost view = { λ r. record { reader = r.reader; shape = r.geometry; devices = r.devices; stage = r.stage; number = r.number } };

    ghost invariant = { λ r. (r.number ≤ MOST_LINES + 1) × ((r.devices ≡ 4) ⊎ (r.devices ≡ 5)) };
}

impl ScriptReader {
    /// Goes on behind the opening of a script for a memory of this geometry and so many devices, 4 or 5.
    pub fn new(reader: LineReader, geometry: Geometry, devices: u8) -> ScriptReader
        requires { (devices ≡ 4) ⊎ (devices ≡ 5) }
        ensures { result ≡ record { reader = reader; shape = geometry; devices = devices; stage = Stage.Body; number = 1 } }
    {
        ScriptReader {
            reader,
            geometry,
            devices,
            stage: Stage::Body,
            number: 1,
        }
    }

    /// The number of the line that comes next, counted from 1.
    pub fn number(&self) -> u64
        ensures number { result ≡ self.now.number }
        ensures most { result ≤ MOST_LINES + 1 }
    {
        self.number
    }

    /// Reads the next line. The reader is one whose last answer, if any, was a line.
    pub fn next<S: Source>(&mut self, source: &mut S) -> Next
        requires { self.old.reader.last ≡ Line.Text }

        // What it is, by the next bytes.
        ensures step { IsStep self.old self.new (next_bytes self.old.reader.held (S.left source.old)) (next_bytes self.new.reader.held (S.left source.new)) result }

        // What is known of it also where the bytes are not.
        ensures line { (line : AnyScriptLine) → result ≡ Next.Line line → StepsOn self.old self.new line }
        ensures ended { (clock : ℕ) → result ≡ Next.End clock → self.old.stage ≡ Stage.Ended clock }

        // A fault is told where the source counted one.
        ensures faults_never_fall { S.faults source.old ≤ S.faults source.new }
        ensures failed { result ≡ Next.Failed → Rose (S.faults source.old) (S.faults source.new) }

        // Any other answer leaves the count: no failed read is tried again.
        ensures faults_kept { result ≢ Next.Failed → S.faults source.new ≡ S.faults source.old }
    {
        ddr_text::laws::lines_are_parts();
        match self.reader.next_line(source) {
            Line::Text => self.judge_line(),
            Line::TooLong => self.refuse_rest(Reason::LineTooLong),
            Line::Unended => self.refuse_rest(Reason::LineUnended),
            Line::End => self.end(),
            Line::Failed => Next::Failed,
        }
    }

    // Judges the line that was read.
    fn judge_line(&mut self) -> Next
        requires { length self.old.reader.line < 512 }
        ensures judged { Judges (judged_line self.old.shape self.old.devices self.old.stage self.old.number self.old.reader.line) self.old self.new result }
        ensures inside { (line : AnyScriptLine) → result ≡ Next.Line line → IsScriptLine self.old.shape self.old.devices line }
    {
        if self.number > MOST_LINES {
            return self.refuse(Reason::TooManyLines);
        }
        script_lines();
        match read_script_line(self.reader.line(), self.geometry, self.devices) {
            Ok(line) => self.place(line),
            Err(fault) => self.refuse(Reason::from(fault)),
        }
    }

    // Takes a line, if it may stand at its place.
    fn place(&mut self, line: ScriptLine) -> Next
        requires { self.old.number ≤ MOST_LINES }
        ensures { Judges (placed line (stage_after self.old.stage line)) self.old self.new result }
    {
        match self.stage.after(&line) {
            Some(stage) => {
                self.stage = stage;
                self.number += 1;
                Next::Line(line)
            }
            None => self.refuse(Reason::LineOutOfPlace),
        }
    }

    // Refuses the next line for this reason.
    fn refuse(&self, reason: Reason) -> Next
        requires { HasNumber reason }
        ensures { result ≡ Next.Refused self.now.number (number_of reason) }
    {
        Next::Refused(self.number, reason.number())
    }

    // Refuses the bytes that are left, of which there are some: for this reason, or as one line too many.
    fn refuse_rest(&self, reason: Reason) -> Next
        requires { HasNumber reason }
        ensures { result ≡ Next.Refused self.now.number (if nat_lt MOST_LINES self.now.number then number_of Reason.TooManyLines else number_of reason) }
    {
        if self.number > MOST_LINES {
            self.refuse(Reason::TooManyLines)
        } else {
            self.refuse(reason)
        }
    }

    // What the end of the bytes is.
    fn end(&self) -> Next
        ensures { result ≡ end_next self.now.number (end_at self.now.stage) }
    {
        match self.stage {
            Stage::Body => self.refuse(Reason::NoEndLine),
            Stage::Awaits => self.refuse(Reason::NoEndLine),
            Stage::Ended(clock) => Next::End(clock),
        }
    }
}

impl Stage {
    // The stage behind the line, if the line may stand at this one.
    fn after(self, line: &ScriptLine) -> Option<Stage>
        ensures { result ≡ stage_after self line.now }
    {
        match self {
            Stage::Body => after_body(line),
            Stage::Awaits => after_write(line),
            Stage::Ended(_) => None,
        }
    }
}

fn after_body(line: &ScriptLine) -> Option<Stage>
    ensures { result ≡ stage_after Stage.Body line.now }
{
    match line {
        ScriptLine::Issued(_, command) => Some(after_command(command)),
        ScriptLine::Bytes(_) => None,
        ScriptLine::Flip(_, _, _) => Some(Stage::Body),
        ScriptLine::End(clock) => Some(Stage::Ended(*clock)),
    }
}

fn after_write(line: &ScriptLine) -> Option<Stage>
    ensures { result ≡ stage_after Stage.Awaits line.now }
{
    match line {
        ScriptLine::Issued(_, _) => None,
        ScriptLine::Bytes(_) => Some(Stage::Body),
        ScriptLine::Flip(_, _, _) => None,
        ScriptLine::End(_) => None,
    }
}

// The stage behind a C line.
fn after_command(command: &Command) -> Stage
    ensures { result ≡ (if is_wr command.now then Stage.Awaits else Stage.Body) }
{
    if command.is_wr() {
        Stage::Awaits
    } else {
        Stage::Body
    }
}
