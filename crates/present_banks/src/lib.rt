//! The banks that there are: over them alone, each test of a log comes to the same as over all 32 numbers of banks.
#![tactic(auto)]

pub mod laws;
