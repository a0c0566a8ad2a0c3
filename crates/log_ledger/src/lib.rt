//! One ledger of a log: its spacing, its open banks, its refreshes and its rolling counts.
#![tactic(auto)]

mod ledger;
mod parts;
#[cfg(test)]
mod tests;

pub use ledger::Ledger;
