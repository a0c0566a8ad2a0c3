//! Refresh debts and the places of scrubs.
#![tactic(auto)]

mod debts;
mod due_refresh;
#[cfg(test)]
mod tests;

pub use debts::Plan;
pub use due_refresh::Due;
