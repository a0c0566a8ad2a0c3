//! Writing what the lines of a script show.
ghost use Rattle.std.specs.Prelude.{ℕ, ◌≡◌, ◌≢◌, ◌∷◌, ◌++◌, [], OnOk, IfErr, List};
ghost use Rattle.std.specs.Io.KnownBytes.{Appends};
ghost use Rattle.std.specs.List.{flat_map};
ghost use Rattle.ddr_io.specs.Faults.{Rose};
ghost use Rattle.ddr_io.specs.Sink.{AppendsPrefix};
ghost use Rattle.ddr_text.specs.Spelling.{spelled};
ghost use Rattle.ddr_text.specs.declared.lines.ReportLine.{ReportLine as AnyReportLine};
ghost use Rattle.device_core.specs.Steps.{Step};
ghost use Rattle.speed_bin.specs.declared.header.Header.{Header as AnyHeader};
ghost use Rattle.device_exec.specs.Executed.{four_devices};
ghost use Rattle.log_auditor.specs.Findings.{broken_text};
ghost use Rattle.device_exec.specs.Running.{Closes, data_lines};
ghost use Rattle.device_exec.specs.Scripts.{Phase};
ghost use Rattle.device_exec.specs.Standing.{StandsFor};
ghost use Rattle.ddr_text.specs.Stop.{WriteCause};

use crate::checked_device::{Answer, CheckedDevice};
use arrayvec::ArrayVec;
use command_words::Command;
use ddr_io::{Sink, Status};
use ddr_text::{ReportLine, StatName, Stop, put, put_line, put_lines};
use log_auditor::{Rule, put_broken};

/// Writes the C line of a command, and the D line of an RD, with the number of that C line.
///
/// # Errors
/// A fault of the sink, or want of memory.
pub fn put_command<K: Sink>(
    number: u64,
    clock: u64,
    command: Command,
    answer: &Option<Answer>,
    sink: &mut K,
) -> Result<(), Stop>
    ensures whole { OnOk result (Appends (K.written sink.old) (K.written sink.new) (flat_map spelled (AnyReportLine.Issued clock command ∷ data_lines number answer.now))) }
    ensures writes_a_prefix { IfErr result (λ stop. AppendsPrefix (K.written sink.old) (K.written sink.new) (flat_map spelled (AnyReportLine.Issued clock command ∷ data_lines number answer.now))) }
    ensures faults_kept { OnOk result (K.faults sink.new ≡ K.faults sink.old) }
    ensures cause { IfErr result (WriteCause (K.faults sink.old) (K.faults sink.new)) }
{
    match put_line(&ReportLine::Issued(clock, command), sink) {
        Ok(()) => put_answer(number, answer, sink),
        Err(stop) => Err(stop),
    }
}

// Writes the D line of an answer, if there is one.
fn put_answer<K: Sink>(number: u64, answer: &Option<Answer>, sink: &mut K) -> Result<(), Stop>
    ensures whole { OnOk result (Appends (K.written sink.old) (K.written sink.new) (flat_map spelled (data_lines number answer.now))) }
    ensures writes_a_prefix { IfErr result (λ stop. AppendsPrefix (K.written sink.old) (K.written sink.new) (flat_map spelled (data_lines number answer.now))) }
    ensures faults_kept { OnOk result (K.faults sink.new ≡ K.faults sink.old) }
    ensures cause { IfErr result (WriteCause (K.faults sink.old) (K.faults sink.new)) }
{
    match answer {
        Some(answer) => put_line(
            &ReportLine::Value(number, answer.line, answer.read.bytes, answer.read.state),
            sink,
        ),
        None => Ok(()),
    }
}

// The counts of a script that ended at this clock, and its E line.
fn last_lines(device: &CheckedDevice, clock: u64) -> [ReportLine; 5]
    ensures { (h : AnyHeader) (steps : List Step) (phase : Phase) → StandsFor device.now h steps phase
        → result ≡ four_devices.counts h steps ++ AnyReportLine.End clock ∷ [] }
{
    let scrub = device.scrub_counts();
    [
        ReportLine::Stat(StatName::Peak, u64::from(device.peak())),
        ReportLine::Stat(StatName::Found, scrub.found),
        ReportLine::Stat(StatName::Lost, scrub.lost),
        ReportLine::Stat(StatName::Worst, scrub.worst),
        ReportLine::End(clock),
    ]
}

// Writes them.
pub(crate) fn finish<K: Sink>(device: &CheckedDevice, clock: u64, sink: &mut K) -> Status
    ensures written { (h : AnyHeader) (steps : List Step) (phase : Phase) → StandsFor device.now h steps phase
        → Closes Status.Ok result (flat_map spelled (four_devices.counts h steps ++ AnyReportLine.End clock ∷ [])) (K.written sink.old) (K.written sink.new) }
    ensures write { result ≡ Status.WriteFault → Rose (K.faults sink.old) (K.faults sink.new) }
    ensures writes_kept { result ≢ Status.WriteFault → K.faults sink.new ≡ K.faults sink.old }
{
    match put_lines(&last_lines(device, clock), sink) {
        Ok(()) => Status::Ok,
        Err(stop) => stop.status(),
    }
}

/// Writes the verdict: the line with this number breaks this rule. `Broken`, or why it could not be written.
pub fn tell<K: Sink>(number: u64, rule: Rule, sink: &mut K) -> Status
    ensures written { Closes Status.Broken result (broken_text number rule.0) (K.written sink.old) (K.written sink.new) }
    ensures write { result ≡ Status.WriteFault → Rose (K.faults sink.old) (K.faults sink.new) }
    ensures writes_kept { result ≢ Status.WriteFault → K.faults sink.new ≡ K.faults sink.old }
{
    let mut text = ArrayVec::new();
    put_broken(number, rule, &mut text);
    match put(&text, sink) {
        Ok(()) => Status::Broken,
        Err(stop) => stop.status(),
    }
}
