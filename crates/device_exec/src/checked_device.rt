//! A device that is given only what an auditor found fine.
ghost use Rattle.std.specs.Prelude.{ℕ, ◌≡◌, ◌≤◌, List, Option, OnOk, OnErr, IfOk, None, Some, [], ◌∷◌, is_some};
ghost use Rattle.command_words.specs.Place.{place_of};
ghost use Rattle.ddr_text.specs.AcceptedReport.{IsReportLine};
ghost use Rattle.ddr_text.specs.declared.lines.ReportLine.{ReportLine};
ghost use Rattle.device_core.specs.Standing.{with_command};
ghost use Rattle.device_core.specs.Steps.{Step, Flips, log_of};
ghost use Rattle.device_core.specs.Stored.{scrub_counts as scrub_counts_of};
ghost use Rattle.speed_bin.specs.Alert.{alert};
ghost use Rattle.speed_bin.specs.Counts.{peak as peak_of};
ghost use Rattle.speed_bin.specs.Header.{IsAccepted, bound, shape_of};
ghost use Rattle.speed_bin.specs.Log.{Issued};
ghost use Rattle.speed_bin.specs.declared.header.Header.{Header as AnyHeader};
ghost use Rattle.device_exec.specs.ScriptGrammar.{IsScriptLine};
ghost use Rattle.device_exec.specs.Scripts.{Phase, Ready, Waits, last_clock};
ghost use Rattle.device_exec.specs.Standing.{answer_of};
ghost use Rattle.device_exec.specs.declared.checked_device.CheckedDevice.{CheckedDevice as AnyCheckedDevice};
ghost use Rattle.device_exec.specs.declared.script_line.ScriptLine.{ScriptLine};

use crate::judging::{judge, judge_end};
use crate::memory::Memory;
use command_words::{Command, Geometry, LineAddr, map_line};
use ddr_io::OutOfMemory;
use error_scrub::{LineRead, ScrubCounts};
use log_auditor::{Auditor, Rule};
use speed_bin::Header;
use std::alloc::Global;

/// A WR that was judged, and whose bytes come next.
#[derive(Clone, Copy, Debug, PartialEq, Eq)]
pub struct Waiting {
    pub clock: u64,
    pub command: Command,
}

/// What an RD found: its line, and the reading of it.
#[derive(Clone, Copy, Debug, PartialEq, Eq)]
pub struct Answer {
    pub line: LineAddr,
    pub read: LineRead,
}

/// What came of a command.
#[derive(Clone, Copy, Debug, PartialEq, Eq)]
pub enum Checked {
    /// It breaks this rule, the least of those that it breaks, and the device was not given it.
    Breaks(Rule),
    /// It is a WR that breaks no rule. Its bytes come next.
    Awaits,
    /// It breaks no rule, and the device carried it out. What it found, where it is an RD.
    Done(Option<Answer>),
}

/// An auditor and the device behind it, which stand for one list of steps. A command reaches the device only once the auditor
/// found that it breaks no rule; a WR also once its bytes are there. Whoever drives it gives a log line by line, and need not
/// know the rules.
#[derive(Drop)]
pub struct CheckedDevice {
    auditor: Auditor,
    memory: Memory,
    waiting: Option<Waiting>,
    // The clock of the last command that the device was given, and 0 before the first.
    last: u64,
}

#[tactic(auto, unfolding(crate::specs::Standing::StandsFor, crate::specs::Standing::geometry_of))]
impl CheckedDevice {
    ghost use Rattle.device_exec.specs.Standing.{StandsFor, IsReady, AwaitsBytes, Commands, Ends, geometry_of};

    /// Before the first command. It makes the counters of all rows, of the auditor and of the device.
    ///
    /// # Errors
    /// Want of memory.
    pub fn new(alloc: Global, header: &Header) -> Result<CheckedDevice, OutOfMemory>
        requires { IsAccepted header.now }
        ensures stands { IfOk result (λ it. StandsFor it header.now [] Ready) }
        ensures geometry { IfOk result (λ it. geometry_of it ≡ shape_of header.now) }
    {
        let auditor = Auditor::new(alloc, header)?;
        let memory = Memory::new(alloc, header)?;
        Ok(CheckedDevice {
            auditor,
            memory,
            waiting: None,
            last: 0,
        })
    }

    /// Judges a command at this clock, and gives it to the device if it breaks no rule, but for a WR, which waits for its
    /// bytes. The numbers of the command are in the ranges of a C line, and no WR waits. Behind a broken rule it stands for
    /// nothing any more.
    pub fn command(&mut self, clock: u64, command: Command) -> Checked
        requires inside { IsReportLine (geometry_of self.old) (ReportLine.Issued clock command) }
        requires ready { IsReady self.old }
        ensures judged { (h : AnyHeader) (steps : List Step) → StandsFor self.old h steps Ready → Commands result self.new h clock command steps }
        ensures geometry { geometry_of self.new ≡ geometry_of self.old }
    {
        match judge(&mut self.auditor, clock, command) {
            Some(rule) => return Checked::Breaks(rule),
            None => {}
        }
        if command.is_wr() {
            self.waiting = Some(Waiting { clock, command });
            return Checked::Awaits;
        }
        let line = self.memory.line(clock, &command);
        match self.memory.take(clock, command, None) {
            Ok(read) => {
                self.last = clock;
                Checked::Done(answer_of(line, read))
            }
            // Only a WR takes memory.
            Err(OutOfMemory) => Checked::Done(None),
        }
    }

    /// Gives the WR that waits to the device, with these bytes.
    ///
    /// # Errors
    /// Want of memory; then the WR waits still, and all is as it was.
    pub fn write(&mut self, bytes: &[u8; 64]) -> Result<(), OutOfMemory>
        requires { AwaitsBytes self.old }
        ensures stands { OnOk result ((h : AnyHeader) (steps : List Step) (place : Issued) → StandsFor self.old h steps (Waits place)
            → StandsFor self.new h (with_command place.clock place.command (Some bytes.now) steps) Ready) }
        ensures unchanged { OnErr result ((h : AnyHeader) (steps : List Step) (phase : Phase) → StandsFor self.old h steps phase → StandsFor self.new h steps phase) }
        ensures geometry { geometry_of self.new ≡ geometry_of self.old }
    {
        match self.waiting {
            Some(waiting) => {
                self.memory
                    .take(waiting.clock, waiting.command, Some(bytes))?;
                self.waiting = None;
                self.last = waiting.clock;
                Ok(())
            }
            // A WR waits.
            None => Ok(()),
        }
    }

    /// Turns one stored bit: of a line, a device below 4 and a bit below 136. No WR waits.
    ///
    /// # Errors
    /// Want of memory; then all is as it was.
    pub fn flip(&mut self, line: LineAddr, device: u8, bit: u8) -> Result<(), OutOfMemory>
        requires inside { IsScriptLine (geometry_of self.old) 4 (ScriptLine.Flip line device bit) }
        requires ready { IsReady self.old }
        ensures stands { OnOk result ((h : AnyHeader) (steps : List Step) → StandsFor self.old h steps Ready
            → StandsFor self.new h (Flips (place_of line (shape_of h)) device bit ∷ steps) Ready) }
        ensures unchanged { OnErr result ((h : AnyHeader) (steps : List Step) (phase : Phase) → StandsFor self.old h steps phase → StandsFor self.new h steps phase) }
        ensures geometry { geometry_of self.new ≡ geometry_of self.old }
    {
        device_core::Device::unchanged_stands();
        device_core::Device::list_is_legal();
        let place = map_line(line, self.memory.geometry);
        self.memory.device.flip(place, device, bit)
    }

    /// Judges the end at this clock, below 2^48: the least rule that it breaks, if it breaks one. No WR waits. Behind it nothing
    /// more comes.
    pub fn end(&mut self, clock: u64) -> Option<Rule>
        requires inside { IsReportLine (geometry_of self.old) (ReportLine.End clock) }
        requires ready { IsReady self.old }
        ensures judged { (h : AnyHeader) (steps : List Step) → StandsFor self.old h steps Ready → Ends result self.new h clock steps }
        ensures geometry { geometry_of self.new ≡ geometry_of self.old }
    {
        judge_end(&mut self.auditor, clock)
    }

    /// The shape of the subchannel, in which the numbers of a line are.
    pub fn geometry(&self) -> Geometry
        ensures { result ≡ geometry_of self.now }
    {
        self.auditor.geometry()
    }

    /// The clock of the last command that the device was given, and 0 before the first.
    pub fn last_clock(&self) -> u64
        ensures { (h : AnyHeader) (steps : List Step) (phase : Phase) → StandsFor self.now h steps phase → result ≡ last_clock (log_of steps) }
    {
        self.last
    }

    /// Whether ALERT is raised behind the last command that the device was given.
    pub fn is_alert_raised(&self) -> bool
        ensures { (h : AnyHeader) (steps : List Step) (phase : Phase) → StandsFor self.now h steps phase → result ≡ is_some (alert h (log_of steps)) }
    {
        self.memory.raised
    }

    /// The greatest number of activations since mitigation that a row had so far, an open row's included.
    pub fn peak(&self) -> u32
        ensures peak { (h : AnyHeader) (steps : List Step) (phase : Phase) → StandsFor self.now h steps phase → result ≡ peak_of h (log_of steps) }
        ensures bounded { (h : AnyHeader) (steps : List Step) (phase : Phase) → StandsFor self.now h steps phase → result ≤ bound h }
    {
        self.memory.device.peak()
    }

    /// What the scrub found so far.
    pub fn scrub_counts(&self) -> ScrubCounts
        ensures { (h : AnyHeader) (steps : List Step) (phase : Phase) → StandsFor self.now h steps phase → result ≡ scrub_counts_of h steps }
    {
        self.memory.device.scrub_counts()
    }

    /// A law: the shape is that of the header.
    pub fn has_shape()
        ensures { (it : AnyCheckedDevice) (h : AnyHeader) (steps : List Step) (phase : Phase) → StandsFor it h steps phase → geometry_of it ≡ shape_of h }
    {}
}

// The line of an RD, and what it found there.
fn answer_of(line: Option<LineAddr>, read: Option<LineRead>) -> Option<Answer>
    ensures { result ≡ answer_of line read }
{
    match line {
        Some(line) => match read {
            Some(read) => Some(Answer { line, read }),
            None => None,
        },
        None => None,
    }
}
