//! A refresh that is due.

use command_words::BankAddr;

/// Which banks are to be refreshed.
#[derive(Clone, Copy, Debug, PartialEq, Eq)]
pub enum Due {
    /// All banks, by REFab.
    All,
    /// The banks with this address, by REFsb.
    Same(BankAddr),
}
