//! The alert back-off, and the bound that it keeps: the activations of a row since its last mitigation.
#![tactic(auto)]

mod alert;
pub mod laws;
#[cfg(test)]
mod tests;

pub use alert::Alert;
