//! Requests for lines of 64 bytes.
use command_words::LineAddr;

/// Whether a request wants the line's bytes or brings them.
#[derive(Clone, Copy, Debug, PartialEq, Eq)]
pub enum Kind {
    /// It is served by an RD.
    Read,
    /// It is served by a WR.
    Write,
}

/// A request for one line.
#[derive(Clone, Copy, Debug, PartialEq, Eq)]
pub struct Request {
    pub line: LineAddr,
    pub kind: Kind,
}

/// The number of a request: 1, 2, 3 and so on, in the order in which the requests were offered.
#[derive(Clone, Copy, Debug, PartialEq, Eq)]
pub struct RequestId(pub u64);
