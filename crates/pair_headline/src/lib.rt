//! What a finished report of two ranks promises, as laws over its definitions.
#![tactic(auto)]

pub mod laws;
