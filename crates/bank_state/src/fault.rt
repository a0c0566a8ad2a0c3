//! Why a command does not fit the banks.

/// What is wrong with the banks for a command.
#[derive(Clone, Copy, Debug, PartialEq, Eq, Drop)]
pub enum StateFault {
    /// An ACT to a bank that is open.
    IsOpen = 1,
    /// A RD or WR to a bank that is closed.
    IsClosed = 2,
    /// A REF, RFM, ECS or MRW that covers an open bank.
    NotAllClosed = 3,
}
