//! What a report says of a trace: definitions, and laws over them.
#![tactic(auto)]

pub mod laws;
#[cfg(test)]
mod tests;
