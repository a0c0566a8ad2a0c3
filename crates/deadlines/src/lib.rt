//! Why the controller meets its deadlines, and how long a job takes: laws over the controller's turns, and no code.
//! `docs/DEADLINES.md` tells the argument in words.
#![tactic(auto)]

pub mod laws;
mod task;

pub use task::Task;
