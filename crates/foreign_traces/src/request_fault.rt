//! Why a line of a request trace is refused.
use std::fmt;

/// What is expected in a field of a request trace.
#[derive(Clone, Copy, Debug, PartialEq, Eq)]
pub enum RequestField {
    /// `R` or `W`.
    ReadOrWrite,
    /// `LD` or `ST`.
    LoadOrStore,
    /// A word that DRAMsim3 takes for a read or a write.
    Transaction,
    /// A byte address that the mapping has.
    Address,
    /// A clock.
    Clock,
    Channel,
    Rank,
    Group,
    Bank,
    Row,
    Column,
    /// The end of the line.
    End,
    /// A request that a job has room for.
    Room,
}

/// Why a line of a request trace is refused: the field with this number, from 1, is missing or not what is expected.
#[derive(Clone, Copy, Debug, PartialEq, Eq)]
pub struct RequestFault {
    pub number: u8,
    pub expected: RequestField,
}

impl RequestField {
    // What is expected, in words.
    fn text(self) -> &'static str {
        match self {
            RequestField::ReadOrWrite => "R or W",
            RequestField::LoadOrStore => "LD or ST",
            RequestField::Transaction => {
                "READ, read, P_MEM_RD, P_FETCH, WRITE, write, P_MEM_WR or BOFF"
            }
            RequestField::Address => "a byte address of a line of the header, by the mapping",
            RequestField::Clock => "a clock, in decimal digits",
            RequestField::Channel => "channel 0, or -1: a job has one channel",
            RequestField::Rank => "rank 0, or -1: a job has one rank",
            RequestField::Group => "a bank group of the header",
            RequestField::Bank => "a bank address of 0 to 3",
            RequestField::Row => "a row of the header",
            RequestField::Column => "a column of 0 to 63, in bursts",
            RequestField::End => "the end of the line",
            RequestField::Room => "at most 1048576 requests",
        }
    }
}

impl fmt::Display for RequestFault {
    fn fmt<W: fmt::Write>(&self, f: &mut fmt::Formatter<W>) -> fmt::Result {
        let number = self.number;
        let text = self.expected.text();
        write!(f, "field {number}: expected {text}")
    }
}
