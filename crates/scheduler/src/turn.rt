//! What a turn of the controller answers.
use crate::Clock;
use command_words::Command;
use requests::RequestId;

/// The answer of one turn.
#[derive(Clone, Copy, Debug, PartialEq, Eq)]
pub enum Turn {
    /// The command goes out at this clock. An RD or WR serves the request with this number, and no other command has one.
    Issue(Clock, Command, Option<RequestId>),
    /// No request waits, nothing is due up to the idle target, and more requests may come.
    Idle,
    /// No request waits, nothing is due, all banks are closed, and no more requests come.
    Done,
}
