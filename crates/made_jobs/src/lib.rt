//! Made jobs: a fixed header, and requests that are drawn from a seed. `docs/FORMATS.md` has the format.
//!
//! [`write_job`] writes one as it draws, [`Generator`] draws its requests one by one, and
//! [`read_words`] reads the seed and the number of requests from words.
#![tactic(auto)]

mod generator;
mod laws;
#[cfg(test)]
mod tests;
mod trace_text;
mod words;
mod write;

pub use generator::Generator;
pub use laws::{makes_a_header, makes_requests};
pub use trace_text::write_trace_line;
pub use words::{MOST, read_numbers, read_words};
pub use write::write_job;
