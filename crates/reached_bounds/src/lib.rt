//! Where the bound on activations is reached: worked logs, computed on the definitions alone.
#![tactic(auto)]

pub mod laws;
