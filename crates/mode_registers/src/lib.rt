//! The writes of the mode registers: how settings are told to a device, and how it reads them back.
#![tactic(auto)]

mod registers;
mod telling;
#[cfg(test)]
mod tests;

pub use registers::{RegisterFault, Registers};
pub use telling::{give_back, writes};
