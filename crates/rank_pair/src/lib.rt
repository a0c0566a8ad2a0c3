//! Two ranks on one bus: reads a job, serves its trace with a controller that closes each row at once, and writes the report of
//! both ranks.
#![tactic(auto)]

mod deadline_laws;
mod ending;
mod finished_laws;
mod flipping;
mod idling;
mod issuing;
mod pair;
mod pair_loop;
mod putting;
mod rank_end;
mod rank_reader;
mod registers;
mod request;
mod service;
#[cfg(test)]
mod stress_tests;
#[cfg(test)]
mod tests;
mod trace_lines;

pub use pair_loop::run_pair;
