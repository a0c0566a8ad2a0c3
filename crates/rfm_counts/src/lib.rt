//! The rolling activation counts of all banks (refresh management).
#![tactic(auto)]

mod rolling;
#[cfg(test)]
mod tests;

pub use rolling::Raa;
