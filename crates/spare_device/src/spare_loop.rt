//! A script, from its bytes to what five devices make of it of which one is dead.
ghost use Rattle.std.specs.Prelude.{ℕ, ◌≡◌, ◌≢◌, ◌<◌, List, Option, OnOk, IfErr, Some, [], ◌∷◌};
ghost use Rattle.ddr_io.specs.Faults.{Rose};
ghost use Rattle.ddr_io.specs.Line.{next_bytes};
ghost use Rattle.ddr_text.specs.AcceptedReport.{IsReportLine};
ghost use Rattle.ddr_text.specs.Opening.{Accepts, opening_of};
ghost use Rattle.ddr_text.specs.Outcome.{AnswersAs};
ghost use Rattle.ddr_text.specs.Stop.{WriteCause};
ghost use Rattle.ddr_text.specs.declared.lines.ReportLine.{ReportLine as AnyReportLine};
ghost use Rattle.command_words.specs.Place.{place_of};
ghost use Rattle.ddr_text.specs.Spelling.{spelled};
ghost use Rattle.device_core.specs.Steps.{Step, Flips};
ghost use Rattle.device_core.specs.Stored.{changes_of};
ghost use Rattle.error_scrub.specs.Tame.{AreGiven};
ghost use Rattle.speed_bin.specs.Header.{IsAccepted, shape_of};
ghost use Rattle.ondie_ecc.specs.Bits.{IsBytes};
ghost use Rattle.speed_bin.specs.Log.{Issued};
ghost use Rattle.speed_bin.specs.declared.header.Header.{Header as AnyHeader};
ghost use Rattle.device_exec.specs.Promises.{IsFlawless, IsUnblamed, JudgesInOrder};
ghost use Rattle.device_exec.specs.Running.{Closes, gone_on};
ghost use Rattle.device_exec.specs.ScriptGrammar.{IsScriptLine};
ghost use Rattle.device_exec.specs.Scripts.{Ready, Script, Waits, acted};
ghost use Rattle.device_exec.specs.Standing.{Commands, IsReady, AwaitsBytes, geometry_of};
ghost use Rattle.device_exec.specs.declared.checked_device.CheckedDevice.{CheckedDevice as AnyCheckedDevice};
ghost use Rattle.device_exec.specs.declared.script_line.ScriptLine.{ScriptLine as AnyScriptLine};
ghost use Rattle.spare_device.specs.Promises.{ReadsWell};
ghost use Rattle.spare_device.specs.Running.{Acts, IsAt, IsOpened, IsRunBehind, MayAct, SpareFor, answer_in};
ghost use Rattle.spare_device.specs.Spared.{IsSpared, five_devices};
ghost use Rattle.spare_device.specs.StandIn.{stood_steps};

use crate::laws;
use crate::stand_in::{restored, stood_in};
use command_words::{Command, LineAddr};
use ddr_io::{Line, LineReader, OutOfMemory, Sink, Source, Status};
use ddr_text::{HeaderText, Opening, ReportLine, Stop, open_job, put_line, put_opening, refuse};
use device_exec::{
    Answer, Checked, CheckedDevice, Next, ScriptLine, ScriptReader, put_command, tell,
};
use log_auditor::Rule;
use speed_bin::Header;
use std::alloc::Global;

/// Runs a script on five devices, of which this one, 0 to 4, is dead: gives its commands to them, as long as they break no rule,
/// with the bytes of its WRs and the bits that it turns, and writes what a reading without the dead device finds, by
/// `docs/FORMATS.md`. The first line that is refused ends it with an X line, and the first line at which a rule fails with
/// `A broken`. It keeps no list of the lines, and nothing of the dead device, which no reading shows: the spare stands in its
/// place.
#[inline(never)]
pub fn spare<S: Source, K: Sink>(alloc: Global, dead: u8, source: &mut S, sink: &mut K) -> Status
    requires { dead < 5 }
    ensures answer { AnswersAs (IsSpared dead (S.left source.old)) result (record { had = S.left source.old; left = S.left source.new; written_before = K.written sink.old; written_after = K.written sink.new }) }
    ensures usage { result ≢ Status.Usage }

    // What comes of the script, whoever made it: its lines are judged in their order by the rules alone, and its reads are those
    // of plain memory where few bits were turned in the live devices, whatever was turned in the dead one.
    ensures judged { (bytes rest text : List ℕ) (h : AnyHeader) → S.left source.old ≡ Some bytes → opening_of bytes ≡ Accepts h text rest → JudgesInOrder (five_devices dead) h rest }
    ensures reads { (bytes rest text : List ℕ) (h : AnyHeader) → S.left source.old ≡ Some bytes → opening_of bytes ≡ Accepts h text rest → ReadsWell dead h rest }

    // A script with nothing to refuse and no broken rule is neither refused nor broken.
    ensures complete { (bytes rest text : List ℕ) (h : AnyHeader) (clock : ℕ) → S.left source.old ≡ Some bytes → opening_of bytes ≡ Accepts h text rest
        → IsFlawless (five_devices dead) h rest clock → IsUnblamed result }

    // A fault is told exactly where it was counted.
    ensures read { result ≡ Status.ReadFault → Rose (S.faults source.old) (S.faults source.new) }
    ensures write { result ≡ Status.WriteFault → Rose (K.faults sink.old) (K.faults sink.new) }
    ensures reads_kept { result ≢ Status.ReadFault → S.faults source.new ≡ S.faults source.old }
    ensures writes_kept { result ≢ Status.WriteFault → K.faults sink.new ≡ K.faults sink.old }
{
    device_exec::laws::judges_in_order();
    laws::reads_last_write();
    run_script(alloc, dead, source, sink)
}

// Opens the script, and runs it.
fn run_script<S: Source, K: Sink>(alloc: Global, dead: u8, source: &mut S, sink: &mut K) -> Status
    requires { dead < 5 }
    ensures answer { AnswersAs (IsSpared dead (S.left source.old)) result (record { had = S.left source.old; left = S.left source.new; written_before = K.written sink.old; written_after = K.written sink.new }) }
    ensures usage { result ≢ Status.Usage }
    ensures read { result ≡ Status.ReadFault → Rose (S.faults source.old) (S.faults source.new) }
    ensures write { result ≡ Status.WriteFault → Rose (K.faults sink.old) (K.faults sink.new) }
    ensures reads_kept { result ≢ Status.ReadFault → S.faults source.new ≡ S.faults source.old }
    ensures writes_kept { result ≢ Status.WriteFault → K.faults sink.new ≡ K.faults sink.old }
{
    let mut reader = LineReader::new();
    match open_job(alloc, &mut reader, source) {
        Ok(Opening::Accepted(header, text)) => {
            run_behind(alloc, dead, &header, &text, reader, source, sink)
        }
        Ok(Opening::Refused(reason)) => refuse(0, reason, sink),
        Ok(Opening::Failed) => Status::ReadFault,
        Err(_) => Status::OutOfMemory,
    }
}

// Writes the opening, and runs the lines behind it.
fn run_behind<S: Source, K: Sink>(
    alloc: Global,
    dead: u8,
    header: &Header,
    text: &HeaderText,
    reader: LineReader,
    source: &mut S,
    sink: &mut K,
) -> Status
    requires inside { dead < 5 }
    requires accepted { IsAccepted header.now }
    requires going_on { reader.last ≡ Line.Text }
    ensures answer { AnswersAs (IsOpened dead header.now text.now (next_bytes reader.held (S.left source.old))) result (record { had = S.left source.old; left = S.left source.new; written_before = K.written sink.old; written_after = K.written sink.new }) }
    ensures read { result ≡ Status.ReadFault → Rose (S.faults source.old) (S.faults source.new) }
    ensures write { result ≡ Status.WriteFault → Rose (K.faults sink.old) (K.faults sink.new) }
    ensures reads_kept { result ≢ Status.ReadFault → S.faults source.new ≡ S.faults source.old }
    ensures writes_kept { result ≢ Status.WriteFault → K.faults sink.new ≡ K.faults sink.old }
{
    let mut device = match CheckedDevice::new(alloc, header) {
        Ok(device) => device,
        Err(_) => return Status::OutOfMemory,
    };
    match put_opening(text, sink) {
        Ok(()) => run_lines(dead, header, &mut device, reader, source, sink),
        Err(stop) => stop.status(),
    }
}

// Runs the lines behind the opening.
#[inline(never)]
fn run_lines<S: Source, K: Sink>(
    dead: u8,
    header: &Header,
    device: &mut CheckedDevice,
    reader: LineReader,
    source: &mut S,
    sink: &mut K,
) -> Status
    requires inside { dead < 5 }
    requires accepted { IsAccepted header.now }
    requires going_on { reader.last ≡ Line.Text }
    requires stands { SpareFor dead device.old header.now [] Ready }
    ensures answer { AnswersAs (IsRunBehind dead header.now (next_bytes reader.held (S.left source.old))) result (record { had = S.left source.old; left = S.left source.new; written_before = K.written sink.old; written_after = K.written sink.new }) }
    ensures read { result ≡ Status.ReadFault → Rose (S.faults source.old) (S.faults source.new) }
    ensures write { result ≡ Status.WriteFault → Rose (K.faults sink.old) (K.faults sink.new) }
    ensures reads_kept { result ≢ Status.ReadFault → S.faults source.new ≡ S.faults source.old }
    ensures writes_kept { result ≢ Status.WriteFault → K.faults sink.new ≡ K.faults sink.old }
{
    let mut lines = ScriptReader::new(reader, header.geometry(), 5);
    'each: loop {
        let number = lines.number();
        match lines.next(source) {
            Next::Line(line) => match act(dead, device, number, &line, sink) {
                Ok(None) => {}
                Ok(Some(rule)) => return tell(number, rule, sink),
                Err(stop) => return stop.status(),
            },
            Next::End(clock) => return finish(clock, sink),
            Next::Refused(number, reason) => return refuse(number, reason, sink),
            Next::Failed => return Status::ReadFault,
        }
    }
}

// Carries out the line with this number, and writes what it shows. The rule that it breaks, if it breaks one.
fn act<K: Sink>(
    dead: u8,
    device: &mut CheckedDevice,
    number: u64,
    line: &ScriptLine,
    sink: &mut K,
) -> Result<Option<Rule>, Stop>
    requires dead { dead < 5 }
    requires may { MayAct dead device.old number line.now }
    ensures acts { (h : AnyHeader) (script : Script) → IsAt dead device.old h script number line.now
        → Acts dead result (acted (five_devices dead) h script line.now) h device.new (K.written sink.old) (K.written sink.new) }
    ensures faults_kept { OnOk result (K.faults sink.new ≡ K.faults sink.old) }
    ensures cause { IfErr result (WriteCause (K.faults sink.old) (K.faults sink.new)) }
{
    CheckedDevice::has_shape();
    match line {
        ScriptLine::Issued(clock, command) => issue(dead, device, number, *clock, command, sink),
        ScriptLine::Bytes(bytes) => write(dead, device, bytes),
        ScriptLine::Flip(line, chip, bit) => flip(dead, device, *line, *chip, *bit, sink),
        ScriptLine::End(clock) => Ok(device.end(*clock)),
    }
}

// Judges a command, carries it out, and writes its C line and the D line of an RD.
fn issue<K: Sink>(
    dead: u8,
    device: &mut CheckedDevice,
    number: u64,
    clock: u64,
    command: &Command,
    sink: &mut K,
) -> Result<Option<Rule>, Stop>
    requires dead { dead < 5 }
    requires inside { IsReportLine (geometry_of device.old) (AnyReportLine.Issued clock command.now) }
    requires ready { IsReady device.old }
    ensures acts { (h : AnyHeader) (script : Script) → SpareFor dead device.old h script.steps Ready → number ≡ script.number
        → Acts dead result (acted (five_devices dead) h script (AnyScriptLine.Issued clock command.now)) h device.new (K.written sink.old) (K.written sink.new) }
    ensures faults_kept { OnOk result (K.faults sink.new ≡ K.faults sink.old) }
    ensures cause { IfErr result (WriteCause (K.faults sink.old) (K.faults sink.new)) }
{
    let checked = device.command(clock, *command);
    show_command(dead, &checked, number, clock, command, sink)
}

// Writes the C line of a command of which this came, and the D line of an RD. The rule that it breaks, if it breaks one.
fn show_command<K: Sink>(
    dead: u8,
    checked: &Checked,
    number: u64,
    clock: u64,
    command: &Command,
    sink: &mut K,
) -> Result<Option<Rule>, Stop>
    requires { dead < 5 }
    ensures acts { (h : AnyHeader) (script : Script) (new : AnyCheckedDevice) → number ≡ script.number → Commands checked.now new h clock command.now (stood_steps dead script.steps) → AreGiven (changes_of h script.steps)
        → Acts dead result (acted (five_devices dead) h script (AnyScriptLine.Issued clock command.now)) h new (K.written sink.old) (K.written sink.new) }
    ensures faults_kept { OnOk result (K.faults sink.new ≡ K.faults sink.old) }
    ensures cause { IfErr result (WriteCause (K.faults sink.old) (K.faults sink.new)) }
{
    match checked {
        Checked::Breaks(rule) => Ok(Some(*rule)),
        Checked::Awaits => go_on(put_line(&ReportLine::Issued(clock, *command), sink)),
        Checked::Done(answer) => {
            let answer = answer_in(dead, answer);
            go_on(put_command(number, clock, *command, &answer, sink))
        }
    }
}

// What the live devices answered, as a reading of the line.
fn answer_in(dead: u8, answer: &Option<Answer>) -> Option<Answer>
    ensures { result ≡ answer_in dead answer.now }
{
    match answer {
        Some(answer) => Some(Answer {
            line: answer.line,
            read: restored(dead, &answer.read),
        }),
        None => None,
    }
}

// A piece that was written breaks no rule.
fn go_on(put: Result<(), Stop>) -> Result<Option<Rule>, Stop>
    ensures { result ≡ gone_on put }
{
    match put {
        Ok(()) => Ok(None),
        Err(stop) => Err(stop),
    }
}

// Gives a WR its bytes.
fn write(dead: u8, device: &mut CheckedDevice, bytes: &[u8; 64]) -> Result<Option<Rule>, Stop>
    requires { AwaitsBytes device.old }
    ensures acts { (h : AnyHeader) (script : Script) (place : Issued) (written : Option (List ℕ)) → IsBytes 64 bytes.now → SpareFor dead device.old h script.steps (Waits place) → script.phase ≡ Waits place
        → Acts dead result (acted (five_devices dead) h script (AnyScriptLine.Bytes bytes.now)) h device.new written written }
    ensures memory { IfErr result (λ stop. stop ≡ Stop.OutOfMemory) }
{
    match device.write(&stood_in(dead, bytes)) {
        Ok(()) => Ok(None),
        Err(OutOfMemory) => Err(Stop::OutOfMemory),
    }
}

// Turns a stored bit, and writes the F line.
fn flip<K: Sink>(
    dead: u8,
    device: &mut CheckedDevice,
    line: LineAddr,
    chip: u8,
    bit: u8,
    sink: &mut K,
) -> Result<Option<Rule>, Stop>
    requires dead { dead < 5 }
    requires inside { IsScriptLine (geometry_of device.old) 5 (AnyScriptLine.Flip line chip bit) }
    requires ready { IsReady device.old }
    ensures acts { (h : AnyHeader) (script : Script) → SpareFor dead device.old h script.steps Ready
        → Acts dead result (acted (five_devices dead) h script (AnyScriptLine.Flip line chip bit)) h device.new (K.written sink.old) (K.written sink.new) }
    ensures faults_kept { OnOk result (K.faults sink.new ≡ K.faults sink.old) }
    ensures cause { IfErr result (WriteCause (K.faults sink.old) (K.faults sink.new)) }
{
    let clock = device.last_clock();
    match turn(dead, device, line, chip, bit) {
        Ok(()) => go_on(put_line(&ReportLine::Flip(clock, line, chip, bit), sink)),
        Err(OutOfMemory) => Err(Stop::OutOfMemory),
    }
}

// Turns a stored bit of a live device: of the dead one nothing is kept, and the spare stands in its place.
fn turn(
    dead: u8,
    device: &mut CheckedDevice,
    line: LineAddr,
    chip: u8,
    bit: u8,
) -> Result<(), OutOfMemory>
    requires dead { dead < 5 }
    requires inside { IsScriptLine (geometry_of device.old) 5 (AnyScriptLine.Flip line chip bit) }
    requires ready { IsReady device.old }
    ensures stands { OnOk result ((h : AnyHeader) (steps : List Step) → SpareFor dead device.old h steps Ready
        → SpareFor dead device.new h (Flips (place_of line (shape_of h)) chip bit ∷ steps) Ready) }
{
    if chip == dead {
        return Ok(());
    }
    if chip == 4 {
        return device.flip(line, dead, bit);
    }
    device.flip(line, chip, bit)
}

// Writes the E line with this clock.
fn finish<K: Sink>(clock: u64, sink: &mut K) -> Status
    ensures written { Closes Status.Ok result (spelled (AnyReportLine.End clock)) (K.written sink.old) (K.written sink.new) }
    ensures write { result ≡ Status.WriteFault → Rose (K.faults sink.old) (K.faults sink.new) }
    ensures writes_kept { result ≢ Status.WriteFault → K.faults sink.new ≡ K.faults sink.old }
{
    match put_line(&ReportLine::End(clock), sink) {
        Ok(()) => Status::Ok,
        Err(stop) => stop.status(),
    }
}
