//! What C and a simulator call: a checked device behind a slot that C keeps. Every function may be called at any time, with any
//! numbers, on a slot that began as zeroes and that only these functions wrote. `c/ddr_c.h` has the same for a C programmer.
#![tactic(auto)]

mod answers;
mod exports;
mod kept;
mod line;
mod parts;
mod ranges;
mod session;
mod slot;
#[cfg(test)]
mod tests;
