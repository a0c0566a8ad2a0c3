//! Two ranks on one command bus: when a command of a rank may come, what was issued to each rank, and what the service of
//! a rank needs.
#![tactic(auto)]

mod bus;
mod clearance;
pub mod laws;
mod rank;
mod side;
mod sides;
#[cfg(test)]
mod tests;

pub use bus::Bus;
pub use rank::Rank;

/// A clock of the bus, counted from 0.
pub type Clock = u64;
