//! Reading the lines of a trace, one at a time.
ghost use Rattle.std.specs.Prelude.{ℕ, ◌≡◌, ◌<◌, ◌≤◌, List, if◌then◌else◌, IfOk, IfErr, OnOk};
ghost use Rattle.ondie_ecc.specs.Bits.{IsBytes};
ghost use Rattle.ddr_io.specs.Line.{next_bytes};
ghost use Rattle.ddr_text.specs.Reason.{HasNumber, number_of};
ghost use Rattle.ddr_text.specs.declared.lines.TraceLine.{TraceLine as AnyLine};
ghost use Rattle.trace_replay.specs.Job.{is_full, with_text, extended, clocks_of as clocks_in};
ghost use Rattle.trace_replay.specs.Reading.{IsNext, IsTally, IsMore, MayStand, GoesOn, IsUnread, HasBytes};
ghost use Rattle.ddr_text.specs.Stop.{ReadCause};

use command_words::Geometry;
use ddr_io::{Line, LineReader, Source};
use ddr_text::{Reason, Stop, TraceLine, read_trace_line, trace_grammar};

// A trace has at most so many lines.
const MOST_LINES: u64 = 1_048_576;

// Its I lines let at most so many clocks pass.
const MOST_CLOCKS: u64 = 4_294_967_296;

/// What the lines of a trace so far come to.
#[derive(Clone, Copy, Debug)]
pub(crate) struct Tally {
    /// How many they are.
    pub(crate) lines: u64,
    /// The clocks of the I lines among them.
    pub(crate) clocks: u64,
}

/// What comes next in a trace.
#[derive(Clone, Copy, Drop)]
pub(crate) enum Next {
    /// A line.
    Found(TraceLine),
    /// No byte is left.
    End,
    /// A line that is refused with this reason.
    Refused(u8),
}

/// Reads the line behind the lines of a trace that come to this.
pub(crate) fn next_line<S: Source>(
    tally: Tally,
    g: Geometry,
    reader: &mut LineReader,
    source: &mut S,
) -> Result<Next, Stop>
    requires going_on { reader.old.last ≡ Line.Text }
    requires idle { tally.clocks ≤ 4294967296 }
    ensures next { IfOk result (λ next. (trace : List AnyLine) → IsTally tally trace
        → IsNext g trace (next_bytes reader.old.held (S.left source.old)) (next_bytes reader.new.held (S.left source.new)) next) }
    ensures may_stand { IfOk result (MayStand g tally) }
    ensures going_on { IfOk result (GoesOn reader.new.last) }
    ensures unread { IfErr result (λ stop. IsUnread reader.new.held (next_bytes reader.old.held (S.left source.old)) (next_bytes reader.new.held (S.left source.new))) }
    ensures faults_never_fall { S.faults source.old ≤ S.faults source.new }
    ensures faults_kept { OnOk result (S.faults source.new ≡ S.faults source.old) }
    ensures cause { IfErr result (ReadCause (S.faults source.old) (S.faults source.new)) }
{
    ddr_text::laws::lines_are_parts();
    match reader.next_line(source) {
        Line::Text => match judged(tally, reader.line(), g) {
            Ok(line) => Ok(Next::Found(line)),
            Err(reason) => Ok(Next::Refused(reason)),
        },
        Line::End => Ok(Next::End),
        Line::TooLong => Ok(Next::Refused(unless_full(tally, Reason::LineTooLong))),
        Line::Unended => Ok(Next::Refused(unless_full(tally, Reason::LineUnended))),
        Line::Failed => Err(Stop::ReadFault),
    }
}

// A reason to refuse the line behind a trace, which comes after that of a line too many.
fn unless_full(tally: Tally, reason: Reason) -> u8
    requires { HasNumber reason }
    ensures { (trace : List AnyLine) → IsTally tally trace
        → result ≡ (if is_full trace then number_of Reason.TooManyLines else number_of reason) }
{
    if tally.lines < MOST_LINES {
        reason.number()
    } else {
        Reason::TooManyLines.number()
    }
}

// The line that a text spells behind a trace, or the first reason to refuse it.
fn judged(tally: Tally, text: &[u8], g: Geometry) -> Result<TraceLine, u8>
    requires { tally.clocks ≤ 4294967296 }
    ensures judged { (trace : List AnyLine) → IsTally tally trace → extended trace result ≡ with_text g trace text.now }
    ensures more { IfOk result (IsMore g tally) }
{
    if tally.lines >= MOST_LINES {
        return Err(Reason::TooManyLines.number());
    }
    trace_grammar();
    match read_trace_line(text, g) {
        Ok(line) => {
            has_bytes(&line);
            if clocks_of(&line) <= MOST_CLOCKS - tally.clocks {
                Ok(line)
            } else {
                Err(Reason::TooManyClocks.number())
            }
        }
        Err(fault) => Err(Reason::from(fault).number()),
    }
}

// A law: the bytes of a line are bytes.
fn has_bytes(line: &TraceLine)
    ensures { HasBytes line.now }
{
    match line {
        TraceLine::Write(_, bytes) => are_bytes(*bytes),
        TraceLine::Read(_) => {}
        TraceLine::Flip(_, _, _) => {}
        TraceLine::Idle(_) => {}
    }
}

fn are_bytes(bytes: [u8; 64])
    ensures { IsBytes 64 bytes }
{}

// The clocks that a line lets pass.
fn clocks_of(line: &TraceLine) -> u64
    ensures { result ≡ clocks_in line.now }
{
    match line {
        TraceLine::Idle(clocks) => *clocks,
        TraceLine::Read(_) => 0,
        TraceLine::Write(_, _) => 0,
        TraceLine::Flip(_, _, _) => 0,
    }
}
