//! The lines of a trace and of a report, as values. `docs/FORMATS.md` has their text.
use command_words::{Command, LineAddr, WordFault};
use ondie_ecc::ReadState;

/// A line of a trace.
#[derive(Clone, Copy, Debug, PartialEq, Eq)]
pub enum TraceLine {
    /// Read this line.
    Read(LineAddr),
    /// Write these bytes to this line.
    Write(LineAddr, [u8; 64]),
    /// Turn one stored bit: the line, the device (0 to 3) and the bit of its codeword (0 to 135).
    Flip(LineAddr, u8, u8),
    /// Let so many clocks pass.
    Idle(u64),
}

/// A line of a report.
#[derive(Clone, Copy, Debug, PartialEq, Eq)]
pub enum ReportLine {
    /// A command and its clock.
    Issued(u64, Command),
    /// The answer of the read with this trace line number: its line, bytes and state.
    Value(u64, LineAddr, [u8; 64], ReadState),
    /// A flip, with the clock of the last command before it.
    Flip(u64, LineAddr, u8, u8),
    /// A count.
    Stat(StatName, u64),
    /// The end, and its clock.
    End(u64),
    /// The line that was refused (0 for the opening), and the reason.
    Refused(u64, u8),
}

/// The counts that end a report, in their order.
#[derive(Clone, Copy, Debug, PartialEq, Eq)]
pub enum StatName {
    Act,
    Rd,
    Wr,
    Pre,
    RefAb,
    RefSb,
    RfmAb,
    RfmSb,
    Ecs,
    Alert,
    Peak,
    Found,
    Lost,
    Worst,
}

/// Why a line is outside the grammar. The first fault in this order whose condition holds is answered.
#[derive(Clone, Copy, Debug, PartialEq, Eq)]
pub enum LineFault {
    /// The line has no bytes.
    Empty,
    /// The first field is no letter of this kind of line.
    Letter,
    /// The number of fields is wrong for the letter, or a word is none of those listed.
    Fields,
    /// A field that must be a number is none.
    Number,
    /// A number is outside its range, or a command names a row or a bank group that there is not.
    Range,
    /// A `hex` or `word` field has another length or another character.
    Hex,
    /// The words of a command spell none.
    Word(WordFault),
}
