//! The audit of a log of which only some groups of rules are judged.
#![tactic(auto)]

mod auditor;
mod groups;
mod judge;
mod judged;
pub mod laws;
mod parts;
mod rolling;
#[cfg(test)]
mod tests;

pub use auditor::Auditor;
pub use judged::Judged;
pub use log_auditor::{Rule, Verdict};
