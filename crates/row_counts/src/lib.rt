//! The counters of a bank's rows: per-row activation counting (PRAC).
#![tactic(auto)]

mod bank_counts;
mod heights;
pub mod laws;

pub use bank_counts::BankCounts;
pub use heights::height;

#[cfg(test)]
mod tests;
