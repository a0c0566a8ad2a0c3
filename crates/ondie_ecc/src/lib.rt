//! On-die error correction: codewords of 128 data bits and 8 check bits, in which one turned bit is undone.
#![tactic(auto)]

mod codeword;
pub mod laws;
mod state;
mod syndrome;
#[cfg(test)]
mod tests;

pub use codeword::{Codeword, Repaired, flip, protect, repair};
pub use state::ReadState;
