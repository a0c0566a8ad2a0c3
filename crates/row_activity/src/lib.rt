//! The activations of all rows of a subchannel: how often each row was closed since its last mitigation, which banks
//! have a hot row, the alert that they raise, and the peak.
#![tactic(auto)]

mod activity;
mod bank_rows;

pub use activity::Activity;

#[cfg(test)]
mod tests;
