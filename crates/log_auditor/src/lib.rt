//! The audit of a command log: whether it satisfies the rules, or the first place that fails and the least rule there.
#![tactic(auto)]

mod audit_loop;
#[cfg(test)]
mod audit_tests;
mod auditor;
mod finding;
mod judge;
mod rules;
#[cfg(test)]
mod tests;
mod verdict;

pub use audit_loop::audit;
pub use auditor::Auditor;
pub use finding::put_broken;
pub use verdict::{Rule, Verdict};
