//! Four requesters in front of one controller: their requests are merged in turn, with barriers that cap how many later ones
//! may be served before any request.
#![tactic(auto)]

mod admitting;
pub mod laws;
mod merged_replay;
mod merging;
mod port_lines;
mod queues;
mod rest;
#[cfg(test)]
mod tests;
mod writing;

pub use merged_replay::ports;
pub use merging::merge;
