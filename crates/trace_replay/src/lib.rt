//! The replay: reads a job, serves its trace, and writes its report.
#![tactic(auto)]

mod answers;
mod barriers;
mod counts;
mod coupled;
#[cfg(test)]
mod coupled_tests;
mod ending;
mod ends;
#[cfg(test)]
mod refusal_tests;
mod replay_loop;
mod replay_state;
mod request_buffer;
#[cfg(test)]
mod request_buffer_tests;
#[cfg(test)]
mod tests;
mod trace_lines;
mod turns;
mod writing;

pub use counts::Counts;
pub use coupled::Coupled;
pub use ending::Ending;
pub use replay_loop::{Ended, replay, run_job};
