//! What a slot leads to: a checked device, and what stops it.
ghost use Rattle.std.specs.Prelude.{ℕ, ◌≡◌, List, [], IfOk, None, true};
ghost use Rattle.command_words.specs.Command.{IsInRange};
ghost use Rattle.command_words.specs.Geometry.{lines_of};
ghost use Rattle.ddr_text.specs.AcceptedReport.{IsReportLine};
ghost use Rattle.ddr_text.specs.declared.lines.ReportLine.{ReportLine as AnyReportLine};
ghost use Rattle.device_core.specs.Steps.{Step, log_of};
ghost use Rattle.device_exec.specs.ScriptGrammar.{IsScriptLine};
ghost use Rattle.device_exec.specs.Scripts.{Phase};
ghost use Rattle.device_exec.specs.Standing.{AwaitsBytes, IsReady, StandsFor, geometry_of, place_in};
ghost use Rattle.device_exec.specs.declared.script_line.ScriptLine.{ScriptLine as AnyScriptLine};
ghost use Rattle.speed_bin.specs.Header.{IsAccepted, shape_of};
ghost use Rattle.speed_bin.specs.Log.{Issued as Place};
ghost use Rattle.speed_bin.specs.declared.header.Header.{Header as AnyHeader};
ghost use Rattle.ddr_c.specs.Effects.{counts_of};

use crate::answers::Refusal;
use crate::line::{Line, tell};
use crate::ranges::{is_again, is_in_reach, is_in_time, line_of_bit};
use command_words::{Command, LineAddr, Words, decode};
use ddr_io::OutOfMemory;
use device_exec::{Checked, CheckedDevice, Waiting};
use log_auditor::Rule;
use speed_bin::Header;
use std::alloc::Global;

/// Whether a session goes on.
#[derive(Clone, Copy, Debug, PartialEq, Eq)]
pub enum State {
    /// No rule is broken.
    Going,
    /// This WR breaks no rule, and there was no memory for its bytes.
    Awaits(Waiting),
    /// This rule is broken.
    Broken(Rule),
}

/// What is counted so far.
#[repr(C)]
#[derive(Clone, Copy, Debug, PartialEq, Eq)]
pub struct Totals {
    /// Codewords that the scrub fixed.
    pub found: u64,
    /// Codewords that it found lost.
    pub lost: u64,
    /// The most of both in one visit of a row number.
    pub worst: u64,
    /// The greatest number of activations of a row since its last mitigation, an open row's included.
    pub peak: u32,
}

/// A checked device, and what stops it.
#[derive(Drop)]
pub struct Session {
    device: CheckedDevice,
    state: State,
}

impl Session {
    ghost use Rattle.command_words.specs.Decode.{decode_of};
    ghost use Rattle.ddr_c.specs.Effects.{again, Carried, Ends, Follows, Turns, counted, decoded, delivered, effect_of, ended, in_reach, is_bit, is_in_reach, is_in_time, issued, judged, turned};
    ghost use Rattle.ddr_c.specs.Standing.{SessionFor, Stage, Going, Awaits, Stands};

    /// Before the first command.
    ///
    /// # Errors
    /// Want of memory.
    pub fn new(alloc: Global, header: &Header) -> Result<Session, OutOfMemory>
        requires { IsAccepted header.now }
        ensures { IfOk result (λ it. SessionFor it header.now [] Going) }
    {
        Ok(Session {
            device: CheckedDevice::new(alloc, header)?,
            state: State::Going,
        })
    }

    /// Takes a command, by its words, at its clock, with the bytes of a WR; and tells what the device answers.
    ///
    /// # Errors
    /// Words that spell no command; a number out of range; a broken rule, from then on at each command; want of memory for the
    /// bytes of a WR, which then waits: only the same WR, given again, goes on.
    pub fn step(&mut self, clock: u64, words: Words, line: &mut Line) -> Result<(), Refusal>
        requires { Stands self.old }
        ensures { (h : AnyHeader) (steps : List Step) (stage : Stage) → SessionFor self.old h steps stage
            → Follows (effect_of h steps stage clock words line.old.bytes) h steps stage self.new line.old line.new result }
    {
        match decode(words) {
            Ok(command) => self.issue(clock, words, command, line),
            Err(fault) => Err(Refusal::NoCommand(fault)),
        }
    }

    // Takes the command that these words spell.
    fn issue(
        &mut self,
        clock: u64,
        words: Words,
        command: Command,
        line: &mut Line,
    ) -> Result<(), Refusal>
        requires inside { IsInRange command }
        requires stands { Stands self.old }
        ensures { (h : AnyHeader) (steps : List Step) (stage : Stage) → SessionFor self.old h steps stage
            → Follows (in_reach (is_in_reach (shape_of h) clock command) (issued h steps stage clock command words line.old.bytes)) h steps stage self.new line.old line.new result }
    {
        let geometry = self.device.geometry();
        if is_in_reach(clock, &command, geometry) {
            self.go_on(clock, words, command, line)
        } else {
            Err(Refusal::OutOfRange)
        }
    }

    // Takes a command within its ranges.
    fn go_on(
        &mut self,
        clock: u64,
        words: Words,
        command: Command,
        line: &mut Line,
    ) -> Result<(), Refusal>
        requires inside { IsReportLine (geometry_of self.old.device) (AnyReportLine.Issued clock command) }
        requires stands { Stands self.old }
        ensures { (h : AnyHeader) (steps : List Step) (stage : Stage) → SessionFor self.old h steps stage
            → Follows (issued h steps stage clock command words line.old.bytes) h steps stage self.new line.old line.new result }
    {
        match self.state {
            State::Going => self.judge(clock, &command, line),
            State::Awaits(waiting) => self.write_again(&waiting, clock, words, line),
            State::Broken(rule) => Err(Refusal::Breaks(rule)),
        }
    }

    // Judges a command behind no broken rule, and carries it out.
    fn judge(&mut self, clock: u64, command: &Command, line: &mut Line) -> Result<(), Refusal>
        requires inside { IsReportLine (geometry_of self.old.device) (AnyReportLine.Issued clock command.now) }
        requires ready { IsReady self.old.device }
        ensures { (h : AnyHeader) (steps : List Step) → SessionFor self.old h steps Going
            → Follows (judged h steps clock command.now line.old.bytes) h steps Going self.new line.old line.new result }
    {
        match self.device.command(clock, *command) {
            Checked::Breaks(rule) => {
                self.state = State::Broken(rule);
                Err(Refusal::Breaks(rule))
            }
            Checked::Awaits => {
                self.state = State::Awaits(Waiting {
                    clock,
                    command: *command,
                });
                self.write(line)
            }
            Checked::Done(found) => {
                let raised = self.device.is_alert_raised();
                tell(line, found, raised);
                Ok(())
            }
        }
    }

    // Gives the WR that waits its bytes, where these are its clock and its words.
    fn write_again(
        &mut self,
        waiting: &Waiting,
        clock: u64,
        words: Words,
        line: &mut Line,
    ) -> Result<(), Refusal>
        requires { AwaitsBytes self.old.device }
        ensures { (h : AnyHeader) (steps : List Step) (place : Place) → SessionFor self.old h steps (Awaits place) → place_in waiting.now ≡ place
            → Follows (again place clock words line.old.bytes steps) h steps (Awaits place) self.new line.old line.new result }
    {
        if is_again(waiting, clock, words) {
            self.write(line)
        } else {
            Err(Refusal::NoMemory)
        }
    }

    // Gives the WR that waits its bytes.
    fn write(&mut self, line: &mut Line) -> Result<(), Refusal>
        requires { AwaitsBytes self.old.device }
        ensures { (h : AnyHeader) (steps : List Step) (place : Place) → SessionFor self.old h steps (Awaits place)
            → Carried (delivered place line.old.bytes steps) None h steps self.new line.old line.new result }
    {
        match self.device.write(&line.bytes) {
            Ok(()) => {
                self.state = State::Going;
                let raised = self.device.is_alert_raised();
                tell(line, None, raised);
                Ok(())
            }
            Err(OutOfMemory) => Err(Refusal::NoMemory),
        }
    }

    /// Turns one stored bit: of a line, a device below 4 and a bit below 136.
    ///
    /// # Errors
    /// A number out of range; a rule that was broken; want of memory, also for a WR that waits.
    pub fn flip(&mut self, line: u32, device: u8, bit: u8) -> Result<(), Refusal>
        requires { Stands self.old }
        ensures { (h : AnyHeader) (steps : List Step) (stage : Stage) → SessionFor self.old h steps stage
            → Turns (turned (is_bit (shape_of h) line device bit) h steps stage line device bit) h steps stage self.new result }
    {
        let geometry = self.device.geometry();
        match line_of_bit(line, device, bit, geometry) {
            Some(line) => self.turn(line, device, bit),
            None => Err(Refusal::OutOfRange),
        }
    }

    // Turns a bit that there is.
    fn turn(&mut self, line: LineAddr, device: u8, bit: u8) -> Result<(), Refusal>
        requires inside { IsScriptLine (geometry_of self.old.device) 4 (AnyScriptLine.Flip line device bit) }
        requires stands { Stands self.old }
        ensures { (h : AnyHeader) (steps : List Step) (stage : Stage) → SessionFor self.old h steps stage
            → Turns (turned true h steps stage line device bit) h steps stage self.new result }
    {
        match self.state {
            State::Going => match self.device.flip(line, device, bit) {
                Ok(()) => Ok(()),
                Err(OutOfMemory) => Err(Refusal::NoMemory),
            },
            State::Awaits(_waiting) => Err(Refusal::NoMemory),
            State::Broken(rule) => Err(Refusal::Breaks(rule)),
        }
    }

    /// Takes the end of the log. Where no rule is broken, the session has no more use.
    ///
    /// # Errors
    /// A clock out of range; a broken rule, which stays the answer; want of memory for a WR that waits.
    pub fn end(&mut self, clock: u64) -> Result<(), Refusal>
        requires { Stands self.old }
        ensures { (h : AnyHeader) (steps : List Step) (stage : Stage) → SessionFor self.old h steps stage
            → Ends (ended (is_in_time clock) h steps stage clock) h steps stage self.new result }
    {
        if is_in_time(clock) {
            self.close(clock)
        } else {
            Err(Refusal::OutOfRange)
        }
    }

    // Takes an end at a clock in range.
    fn close(&mut self, clock: u64) -> Result<(), Refusal>
        requires inside { IsReportLine (geometry_of self.old.device) (AnyReportLine.End clock) }
        requires stands { Stands self.old }
        ensures { (h : AnyHeader) (steps : List Step) (stage : Stage) → SessionFor self.old h steps stage
            → Ends (ended true h steps stage clock) h steps stage self.new result }
    {
        match self.state {
            State::Going => match self.device.end(clock) {
                Some(rule) => {
                    self.state = State::Broken(rule);
                    Err(Refusal::Breaks(rule))
                }
                None => Ok(()),
            },
            State::Awaits(_waiting) => Err(Refusal::NoMemory),
            State::Broken(rule) => Err(Refusal::Breaks(rule)),
        }
    }

    /// What is counted so far.
    ///
    /// # Errors
    /// A rule that was broken.
    pub fn counts(&self) -> Result<Totals, Refusal>
        requires { Stands self.now }
        ensures { (h : AnyHeader) (steps : List Step) (stage : Stage) → SessionFor self.now h steps stage → result ≡ counted h steps stage }
    {
        match self.state {
            State::Going => Ok(tally(&self.device)),
            State::Awaits(_waiting) => Ok(tally(&self.device)),
            State::Broken(rule) => Err(Refusal::Breaks(rule)),
        }
    }

    /// The lines of the subchannel.
    pub fn lines(&self) -> u32
        requires { Stands self.now }
        ensures { (h : AnyHeader) (steps : List Step) (stage : Stage) → SessionFor self.now h steps stage → result ≡ lines_of (shape_of h) }
    {
        self.device.geometry().lines()
    }
}

// What the device counts.
fn tally(device: &CheckedDevice) -> Totals
    ensures { (h : AnyHeader) (steps : List Step) (phase : Phase) → StandsFor device.now h steps phase → result ≡ counts_of h steps }
{
    let scrub = device.scrub_counts();
    Totals {
        found: scrub.found,
        lost: scrub.lost,
        worst: scrub.worst,
        peak: device.peak(),
    }
}
