//! Why a line of a command trace is refused.
use crate::Lacking;
use std::fmt;

/// A field of a line of a command trace, in both tools' order.
#[derive(Clone, Copy, Debug, PartialEq, Eq)]
pub enum CommandField {
    Clock,
    Command,
    Channel,
    Rank,
    Group,
    Bank,
    Row,
    Column,
    /// What stands behind the last field.
    End,
}

/// Why a line of a command trace is refused.
#[derive(Clone, Copy, Debug, PartialEq, Eq)]
pub enum CommandFault {
    /// This field is missing, or is not what is expected there.
    Expected(CommandField),
    /// The clock is before that of the first command, or is too late for a report.
    ClockRange,
    /// The command is one that this model lacks.
    Lacking(Lacking),
    /// A report has no room for so many commands.
    Room,
}

impl CommandField {
    /// The number of the field in its line, from 1.
    pub fn number(self) -> u8 {
        match self {
            CommandField::Clock => 1,
            CommandField::Command => 2,
            CommandField::Channel => 3,
            CommandField::Rank => 4,
            CommandField::Group => 5,
            CommandField::Bank => 6,
            CommandField::Row => 7,
            CommandField::Column => 8,
            CommandField::End => 9,
        }
    }

    // What is expected there.
    fn expected(self) -> &'static str {
        match self {
            CommandField::Clock => "a clock, in decimal digits",
            CommandField::Command => "the name of a command of this tool",
            CommandField::Channel => "channel 0, or -1: a report has one channel",
            CommandField::Rank => "rank 0, or -1: a report has one rank",
            CommandField::Group => "a bank group of the header",
            CommandField::Bank => "a bank address of 0 to 3",
            CommandField::Row => "a row of the header",
            CommandField::Column => "a column of 0 to 63, in bursts",
            CommandField::End => "the end of the line",
        }
    }
}

impl fmt::Display for CommandFault {
    fn fmt<W: fmt::Write>(&self, f: &mut fmt::Formatter<W>) -> fmt::Result {
        match self {
            CommandFault::Expected(field) => {
                let number = field.number();
                let expected = field.expected();
                write!(f, "field {number}: expected {expected}")
            }
            CommandFault::ClockRange => f.write_str(
                "field 1: expected a clock from that of the first command on, and at most 281474976448511 in the report",
            ),
            CommandFault::Lacking(command) => write!(
                f,
                "field 2: {command} is no command of this model; --drop leaves such lines out"
            ),
            CommandFault::Room => f.write_str("field 1: expected at most 4294967285 commands"),
        }
    }
}
