//! Why a job or a report is refused. `docs/FORMATS.md` has the same reasons, each with its number and an example.
ghost use Rattle.std.specs.Prelude.{◌≡◌};
ghost use Rattle.ddr_text.specs.Reason.{HasNumber, fault_reason, number_of, of_header, word_reason};

use crate::LineFault;
use command_words::WordFault;
use speed_bin::HeaderFault;

/// Why an opening, or a line behind it, is refused.
#[derive(Clone, Copy, Debug, PartialEq, Eq)]
pub enum Reason {
    /// The line is outside the grammar.
    Line(LineFault),
    /// The line has more than 511 bytes without its line feed.
    LineTooLong,
    /// The line feed of the last line is missing.
    LineUnended,
    /// The line is one more than a trace or a report may have.
    TooManyLines,
    /// With this line the I lines let more than 4,294,967,296 clocks pass.
    TooManyClocks,
    /// The header is no TOML.
    NotToml,
    /// A key of the header is unknown or missing.
    HeaderKey,
    /// A value of the header has another kind.
    HeaderKind,
    /// A value of the header is outside its range.
    HeaderRange,
    /// The header's `bin` names no bin.
    UnknownBin,
    /// The input ends before a separator.
    NoSeparator,
    /// A line before the separator has more than 511 bytes, or the lines there have more than 65,536 bytes.
    HeaderTooLong,
    /// A report line stands where its kind may not come.
    LineOutOfPlace,
    /// The report ends without an E line.
    NoEndLine,
    /// The check of the header with this number, from 1 to 8, fails.
    FailedCheck(u8),
    /// A line before any separator begins as one and is none.
    FaultySeparator,
}

impl Reason {
    /// The reason of a header's fault. Want of memory is none.
    pub fn of_header(fault: HeaderFault) -> Option<Reason>
        ensures { result ≡ of_header fault }
    {
        match fault {
            HeaderFault::NotToml => Some(Reason::NotToml),
            HeaderFault::Key => Some(Reason::HeaderKey),
            HeaderFault::Kind => Some(Reason::HeaderKind),
            HeaderFault::Range => Some(Reason::HeaderRange),
            HeaderFault::NoBin => Some(Reason::UnknownBin),
            HeaderFault::Check(check) => Some(Reason::FailedCheck(check)),
            HeaderFault::OutOfMemory => None,
        }
    }

    /// The number of the reason in an X line.
    pub fn number(self) -> u8
        requires { HasNumber self }
        ensures { result ≡ number_of self }
    {
        match self {
            Reason::Line(fault) => number_of_fault(fault),
            Reason::LineTooLong => 7,
            Reason::LineUnended => 8,
            Reason::TooManyLines => 9,
            Reason::TooManyClocks => 10,
            Reason::NotToml => 11,
            Reason::HeaderKey => 12,
            Reason::HeaderKind => 13,
            Reason::HeaderRange => 14,
            Reason::UnknownBin => 15,
            Reason::NoSeparator => 16,
            Reason::HeaderTooLong => 17,
            Reason::LineOutOfPlace => 18,
            Reason::NoEndLine => 19,
            Reason::FailedCheck(check) => 20 + check,
            Reason::FaultySeparator => 29,
        }
    }
}

impl From<LineFault> for Reason {
    ghost use Rattle.std.specs.Prelude.{◌≡◌};
    ghost use Rattle.ddr_text.specs.declared.reason.Reason.TheVariants.{Line};

    ghost from_gives = { λ fault reason. reason ≡ Line fault };

    fn from(fault: LineFault) -> Self {
        Reason::Line(fault)
    }
}

fn number_of_fault(fault: LineFault) -> u8
    ensures { result ≡ fault_reason fault }
{
    match fault {
        LineFault::Empty => 1,
        LineFault::Letter => 2,
        LineFault::Fields => 3,
        LineFault::Number => 4,
        LineFault::Range => 5,
        LineFault::Hex => 6,
        LineFault::Word(fault) => number_of_word_fault(fault),
    }
}

fn number_of_word_fault(fault: WordFault) -> u8
    ensures { result ≡ word_reason fault }
{
    match fault {
        WordFault::Unknown => 31,
        WordFault::SecondMissing => 32,
        WordFault::SecondExtra => 33,
        WordFault::Reserved => 34,
        WordFault::Range => 35,
    }
}
