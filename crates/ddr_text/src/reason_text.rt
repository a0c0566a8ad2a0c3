//! Reasons in words.
use crate::{LineFault, Reason};
use command_words::WordFault;
use std::fmt;

impl fmt::Display for Reason {
    ghost use Rattle.std.specs.Prelude.{Some};
    ghost use Rattle.ddr_text.specs.ReasonText.{reason_text};

    ghost output = { λ reason. Some (reason_text reason) };

    fn fmt<W: fmt::Write>(&self, f: &mut fmt::Formatter<W>) -> fmt::Result {
        match self {
            Reason::Line(fault) => write!(f, "{fault}"),
            Reason::LineTooLong => f.write_str("the line has more than 511 bytes"),
            Reason::LineUnended => f.write_str("the last line has no line feed"),
            Reason::TooManyLines => f.write_str("there are too many lines"),
            Reason::TooManyClocks => f.write_str("the I lines let too many clocks pass"),
            Reason::NotToml => f.write_str("the header is no TOML"),
            Reason::HeaderKey => f.write_str("a key of the header is unknown or missing"),
            Reason::HeaderKind => f.write_str("a value of the header has another kind"),
            Reason::HeaderRange => f.write_str("a value of the header is outside its range"),
            Reason::UnknownBin => f.write_str("the header names no known bin"),
            Reason::NoSeparator => f.write_str("there is no line that ends the header"),
            Reason::HeaderTooLong => f.write_str("the header or a line of it is too long"),
            Reason::LineOutOfPlace => f.write_str("a line of this kind may not stand here"),
            Reason::NoEndLine => f.write_str("there is no E line"),
            Reason::FailedCheck(check) => write!(f, "check {check} of the header fails"),
            Reason::FaultySeparator => f.write_str("the line begins as a separator and is none"),
        }
    }
}

impl fmt::Display for LineFault {
    ghost use Rattle.std.specs.Prelude.{Some};
    ghost use Rattle.ddr_text.specs.ReasonText.{fault_text};

    ghost output = { λ fault. Some (fault_text fault) };

    fn fmt<W: fmt::Write>(&self, f: &mut fmt::Formatter<W>) -> fmt::Result {
        f.write_str(match self {
            LineFault::Empty => "the line has no bytes",
            LineFault::Letter => "no line of this kind begins with this field",
            LineFault::Fields => "the number of fields is wrong, or a name is none of those listed",
            LineFault::Number => "a field is no number",
            LineFault::Range => "a number, a row or a bank group is outside its range",
            LineFault::Hex => "a field has other than its hexadecimal digits",
            LineFault::Word(WordFault::Unknown) => "the first word is of no kind of command",
            LineFault::Word(WordFault::SecondMissing) =>
                "the second word of the command is missing",
            LineFault::Word(WordFault::SecondExtra) => "the command has no second word",
            LineFault::Word(WordFault::Reserved) => "a fixed bit of the command has another value",
            LineFault::Word(WordFault::Range) => "a word of the command has more than 14 bits",
        })
    }
}
