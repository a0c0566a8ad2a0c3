//! A command trace as a report.
ghost use Rattle.std.specs.Prelude.{ℕ, true, false, ◌≡◌, ◌+◌, ◌-◌, ◌<◌, ◌≤◌, ◌^◌, List, length, Option, unwrap_or, IfErr, IfOk, IfSome, None, Some, OnOk};
ghost use Rattle.command_words.specs.Geometry.{Shape};
ghost use Rattle.ddr_text.specs.AcceptedReport.{IsReportLine};
ghost use Rattle.speed_bin.specs.Header.{IsAccepted, shape_of};
ghost use Rattle.foreign_traces.specs.Ending.{IsCause, IsWriteCause};
ghost use Rattle.foreign_traces.specs.Lines.{IsEntryOf, IsPlaced, IsReport};
ghost use Rattle.foreign_traces.specs.Said.{IsShifted};
ghost use Rattle.foreign_traces.specs.declared.names.Lacking.{Lacking as AnyLacking};

use crate::open_banks::OpenBanks;
use crate::writing::{put_heading, put_report_line};
use crate::{CommandFault, Entry, Stop, Tool, read_command_line};
use command_words::{Command, Geometry, Mrw};
use ddr_io::{Line, LineReader, Sink, Source};
use ddr_text::ReportLine;
use mode_registers::writes;
use speed_bin::Header;

// A report has at most 4,294,967,295 lines; eight are register writes, and two its end.
const MOST: u64 = 4_294_967_285;

// The clocks of a report are below 2^48. This leaves 2^18 for its end, which is more than nMax.
const LIMIT: u64 = 281_474_976_448_512;

// How far the report is.
#[derive(Clone, Copy, Debug, PartialEq, Eq)]
struct Progress {
    // The clock of the trace's first command, where there was one.
    first: Option<u64>,
    // The clock at which that command stands in the report.
    begin: u64,
    // The clock of the report's last command.
    last: u64,
    // The commands of the trace.
    count: u64,
    // The banks that it leaves open.
    left: OpenBanks,
}

/// How a command trace is read.
#[derive(Clone, Copy, Debug, PartialEq, Eq)]
pub struct Reading {
    pub tool: Tool,
    /// Lines with a command that this model lacks are left out, and not refused.
    pub drops: bool,
}

/// Writes a command trace as a report with this header, whose text ends with its separator. The register writes come
/// first, and the trace's clocks are shifted so that its first command comes when they are done. Where banks are open at
/// the end, a PREab closes them once nothing blocks it any more; then the E line follows.
///
/// # Errors
/// The first line that is refused, or a fault; what is known of the lines before it was written.
pub fn write_report_of<S: Source, K: Sink>(
    reading: Reading,
    header: &Header,
    text: &[u8],
    source: &mut S,
    sink: &mut K,
) -> Result<(), Stop<CommandFault>>
    requires { IsAccepted header.now }
    ensures report { OnOk result (IsReport (shape_of header.now) text.now (K.written sink.old) (K.written sink.new)) }
    ensures kept { OnOk result ((S.faults source.new ≡ S.faults source.old) × (K.faults sink.new ≡ K.faults sink.old)) }
    ensures cause { IfErr result (IsCause (S.faults source.old) (S.faults source.new) (K.faults sink.old) (K.faults sink.new)) }
{
    put_heading(text, sink)?;
    let mut progress = put_registers(header, sink)?;
    let mut reader = LineReader::new();
    'lines: for number in 1..u64::MAX {
        match reader.next_line(source) {
            Line::Text => match place(reading, header.geometry(), reader.line(), &progress) {
                Placed::At(placed) => progress = put_placed(&placed, progress, sink)?,
                Placed::Out => {}
                Placed::Refused(fault) => return Err(Stop::Line(number, fault)),
            },
            Line::End => return put_end(header, progress, sink),
            Line::TooLong => return Err(Stop::LineTooLong(number)),
            Line::Unended => return Err(Stop::LineUnended(number)),
            Line::Failed => return Err(Stop::ReadFault),
        }
    }
    Err(Stop::Line(u64::MAX, CommandFault::Room))
}

// A command at its clock of the report.
#[derive(Clone, Copy, Debug, PartialEq, Eq)]
struct PlacedCommand {
    // The clock of the trace.
    traced: u64,
    clock: u64,
    command: Command,
}

// What becomes of a line of a trace.
#[derive(Clone, Copy, Debug, PartialEq, Eq)]
enum Placed {
    // A command of the report.
    At(PlacedCommand),
    // Nothing: the line says nothing, or is left out.
    Out,
    Refused(CommandFault),
}

// What becomes of a line.
fn place(reading: Reading, g: Geometry, line: &[u8], progress: &Progress) -> Placed
    ensures { IsPlaced g result }
{
    match read_command_line(reading.tool, g, line) {
        Ok(entry) => place_entry(entry, reading.drops, g, progress),
        Err(fault) => Placed::Refused(fault),
    }
}

// What becomes of a line that says this.
fn place_entry(entry: Entry, drops: bool, g: Geometry, progress: &Progress) -> Placed
    requires { IsEntryOf g entry }
    ensures placed { IsPlaced g result }
    ensures shifted { IsShifted progress.now.first progress.now.begin result }
    ensures refused { (lacking : AnyLacking) → entry ≡ Entry.Lacking lacking → drops ≡ false → result ≡ Placed.Refused (CommandFault.Lacking lacking) }
    ensures dropped { (lacking : AnyLacking) → entry ≡ Entry.Lacking lacking → drops ≡ true → result ≡ Placed.Out }
{
    match entry {
        Entry::Issued(traced, command) => {
            if progress.count >= MOST {
                return Placed::Refused(CommandFault::Room);
            }
            let first = progress.first.unwrap_or(traced);
            match shifted(traced, first, progress.begin) {
                Some(clock) => Placed::At(PlacedCommand {
                    traced,
                    clock,
                    command,
                }),
                None => Placed::Refused(CommandFault::ClockRange),
            }
        }
        Entry::Lacking(lacking) => {
            if drops {
                Placed::Out
            } else {
                Placed::Refused(CommandFault::Lacking(lacking))
            }
        }
        Entry::Nothing => Placed::Out,
    }
}

// The clock, where the first one stands at `begin`. `None` where it is before the first, or leaves no room for the end.
fn shifted(clock: u64, first: u64, begin: u64) -> Option<u64>
    ensures value { IfSome result (λ at. at + first ≡ begin + clock) }
    ensures below { IfSome result (λ at. at + 262144 < 2 ^ 48) }
    ensures none { result ≡ None → first ≤ clock → 2 ^ 48 ≤ begin + (clock - first) + 262144 }
{
    if clock < first {
        return None;
    }
    let since = clock - first;
    if since >= LIMIT {
        return None;
    }
    if begin >= LIMIT - since {
        return None;
    }
    Some(begin + since)
}

impl Progress {
    // With one command more.
    fn after(self, placed: &PlacedCommand) -> Progress
        ensures last { result.last ≡ placed.now.clock }
        ensures begin { result.begin ≡ self.begin }
        ensures first { result.first ≡ Some (unwrap_or self.first placed.now.traced) }
    {
        let mut left = self.left;
        left.take(&placed.command);
        Progress {
            first: Some(self.first.unwrap_or(placed.traced)),
            begin: self.begin,
            last: placed.clock,
            count: self.count.saturating_add(1),
            left,
        }
    }
}

// Writes a command, and says how far the report is then.
fn put_placed<K: Sink>(
    placed: &PlacedCommand,
    progress: Progress,
    sink: &mut K,
) -> Result<Progress, Stop<CommandFault>>
    ensures last { IfOk result (λ after. after.last ≡ placed.now.clock) }
    ensures report { OnOk result ((g : Shape) (text : List ℕ) (before : Option (List ℕ)) → IsPlaced g (Placed.At placed.now)
        → IsReport g text before (K.written sink.old) → IsReport g text before (K.written sink.new)) }
    ensures kept { OnOk result (K.faults sink.new ≡ K.faults sink.old) }
    ensures cause { IfErr result (IsWriteCause (K.faults sink.old) (K.faults sink.new)) }
{
    put_report_line(&ReportLine::Issued(placed.clock, placed.command), sink)?;
    Ok(progress.after(placed))
}

// Writes the register writes of the header.
fn put_registers<K: Sink>(header: &Header, sink: &mut K) -> Result<Progress, Stop<CommandFault>>
    requires { IsAccepted header.now }
    ensures last { IfOk result (λ after. after.last + 262144 < 2 ^ 48) }
    ensures report { OnOk result ((text : List ℕ) (before : Option (List ℕ)) → IsReport (shape_of header.now) text before (K.written sink.old)
        → IsReport (shape_of header.now) text before (K.written sink.new)) }
    ensures kept { OnOk result (K.faults sink.new ≡ K.faults sink.old) }
    ensures cause { IfErr result (IsWriteCause (K.faults sink.old) (K.faults sink.new)) }
{
    let told = writes(&header.settings);
    let apart = u64::from(header.timing.nmrd);
    let begin = put_writes(told.as_slice(), apart, sink)?;
    Ok(Progress {
        first: None,
        begin,
        last: begin.saturating_sub(apart),
        count: 0,
        left: OpenBanks::none(),
    })
}

// Writes register writes that stand so many clocks apart, from clock 0 on, and gives the clock at which the next would come.
fn put_writes<K: Sink>(told: &[Mrw], apart: u64, sink: &mut K) -> Result<u64, Stop<CommandFault>>
    requires few { length told.now ≤ 8 }
    requires near { apart ≤ 65535 }
    ensures clock { IfOk result (λ clock. clock ≤ 524280) }
    ensures report { OnOk result ((g : Shape) (text : List ℕ) (before : Option (List ℕ)) → IsReport g text before (K.written sink.old)
        → IsReport g text before (K.written sink.new)) }
    ensures kept { OnOk result (K.faults sink.new ≡ K.faults sink.old) }
    ensures cause { IfErr result (IsWriteCause (K.faults sink.old) (K.faults sink.new)) }
{
    let mut clock = 0u64;
    'registers: for write in told {
        put_report_line(&register_line(clock, write.address, write.value), sink)?;
        clock += apart;
    }
    Ok(clock)
}

// The line of a register write.
fn register_line(clock: u64, address: u8, value: u8) -> ReportLine
    requires { clock < 2 ^ 48 }
    ensures { (g : Shape) → IsReportLine g result }
{
    ReportLine::Issued(clock, Command::Mrw(Mrw { address, value }))
}

// Closes the banks that are open, and writes the E line.
fn put_end<K: Sink>(
    header: &Header,
    progress: Progress,
    sink: &mut K,
) -> Result<(), Stop<CommandFault>>
    requires accepted { IsAccepted header.now }
    requires room { progress.last + 262144 < 2 ^ 48 }
    ensures report { OnOk result ((text : List ℕ) (before : Option (List ℕ)) → IsReport (shape_of header.now) text before (K.written sink.old)
        → IsReport (shape_of header.now) text before (K.written sink.new)) }
    ensures kept { OnOk result (K.faults sink.new ≡ K.faults sink.old) }
    ensures cause { IfErr result (IsWriteCause (K.faults sink.old) (K.faults sink.new)) }
{
    if progress.left.is_any() {
        let closed = progress.last + u64::from(header.timing.n_max());
        put_report_line(&ReportLine::Issued(closed, Command::PreAb), sink)?;
        put_report_line(&ReportLine::End(closed + 1), sink)
    } else {
        put_report_line(&ReportLine::End(progress.last + 1), sink)
    }
}
