//! The controller of a subchannel: it takes requests for lines, and says which command goes out at which clock, by the
//! policy of `docs/POLICY.md`.
#![tactic(auto)]

mod board;
mod choice;
mod controller;
mod decision;
pub mod laws;
mod ledger;
mod state;
mod steps;
mod task;
#[cfg(test)]
mod tests;
mod turn;

pub use controller::Controller;
pub use requests::{Kind, Request, RequestId};
pub use turn::Turn;

/// A clock of the bus, counted from 0.
pub type Clock = u64;
