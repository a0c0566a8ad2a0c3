//! How soon a command may follow others: the gap between two commands, and the gate behind all that were issued.
#![tactic(auto)]

mod clocks;
mod gaps;
mod gate;
mod scope;
mod spans;
mod tables;

pub use gaps::gap;
pub use gate::Gate;

/// A clock of the bus, counted from 0. Those of a log are at most 2^48 - 1.
pub type Clock = u64;
