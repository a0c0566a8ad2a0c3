//! What the controller has to do beside serving requests.

use command_words::BankAddr;

/// A task of the controller. It closes the banks that it covers and then issues its own command. The first three cover
/// all banks, the others the banks with their address.
#[derive(Clone, Copy, Debug, PartialEq, Eq)]
pub enum Task {
    /// RFM of all banks, for an alert.
    RfmAll,
    /// ECS, an error check and scrub of one line.
    Ecs,
    /// REF of all banks.
    RefAll,
    /// REF of the banks with this address.
    RefSame(BankAddr),
    /// RFM of the banks with this address.
    RfmSame(BankAddr),
}
