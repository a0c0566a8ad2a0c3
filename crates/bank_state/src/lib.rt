//! The open rows of all banks, and which commands fit them.
#![tactic(auto)]

mod fault;
mod open_rows;
#[cfg(test)]
mod tests;

pub use fault::StateFault;
pub use open_rows::Banks;
