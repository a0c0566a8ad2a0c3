//! What ends the reading of a trace before its end.
ghost use Rattle.std.specs.Prelude.{ℕ};
ghost use Rattle.ddr_text.specs.Stop.{WriteCause};
ghost use Rattle.foreign_traces.specs.Ending.{IsWriteCause};

use std::fmt;

/// Why a trace was not written whole as a report or a job. `F` says why a line of it is refused.
#[derive(Clone, Copy, Debug, PartialEq, Eq)]
pub enum Stop<F> {
    /// The line with this number is refused.
    Line(u64, F),
    /// The line with this number has more than 511 bytes.
    LineTooLong(u64),
    /// The last line, with this number, has no line feed.
    LineUnended(u64),
    ReadFault,
    WriteFault,
    OutOfMemory,
}

impl<F> Stop<F> {
    /// What ends a run that could not write.
    pub(crate) fn of(stop: ddr_text::Stop) -> Self
        ensures { (before after : ℕ) → WriteCause before after stop → IsWriteCause before after result }
    {
        match stop {
            ddr_text::Stop::ReadFault => Stop::ReadFault,
            ddr_text::Stop::WriteFault => Stop::WriteFault,
            ddr_text::Stop::OutOfMemory => Stop::OutOfMemory,
        }
    }
}

impl<F: fmt::Display> fmt::Display for Stop<F> {
    fn fmt<W: fmt::Write>(&self, f: &mut fmt::Formatter<W>) -> fmt::Result {
        match self {
            Stop::Line(number, fault) => write!(f, "line {number}, {fault}"),
            Stop::LineTooLong(number) => write!(f, "line {number}: expected at most 511 bytes"),
            Stop::LineUnended(number) => write!(f, "line {number}: expected a line feed"),
            Stop::ReadFault => f.write_str("read fault"),
            Stop::WriteFault => f.write_str("write fault"),
            Stop::OutOfMemory => f.write_str("out of memory"),
        }
    }
}
