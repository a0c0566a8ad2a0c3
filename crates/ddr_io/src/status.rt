//! How a run of the program ended, and the want of memory.

use std::alloc::AllocError;

/// No memory was left. It is the one failure that no contract ties to a cause.
#[derive(Clone, Copy, Debug, PartialEq, Eq)]
pub struct OutOfMemory;

impl From<AllocError> for OutOfMemory {
    fn from(_refused: AllocError) -> OutOfMemory {
        OutOfMemory
    }
}

/// How a run of the program ended. The number of a variant is the program's exit status.
#[derive(Clone, Copy, Debug, PartialEq, Eq)]
pub enum Status {
    /// The whole input was read and answered.
    Ok = 0,
    /// The input was refused: its opening or one of its lines has a fault.
    Refused = 1,
    /// The words of the command line are none of the listed forms.
    Usage = 2,
    /// Reading failed.
    ReadFault = 3,
    /// Writing failed.
    WriteFault = 4,
    /// No memory was left.
    OutOfMemory = 5,
    /// The log that was judged breaks a rule.
    Broken = 6,
}
