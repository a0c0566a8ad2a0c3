//! Timing numbers, settings and headers, and the definitions of a log that every other crate cites (`specs/`).
#![tactic(auto)]

mod derived;
#[cfg(test)]
mod document_tests;
mod failing;
mod fault;
mod header;
mod keys;
pub mod laws;
mod read;
mod settings;
mod timing;
mod version;

pub use fault::HeaderFault;
pub use header::Header;
pub use read::read_header;
pub use settings::{RefreshMode, Settings};
pub use timing::{PRAC_4800, TINY, Timing, named};
pub use version::Version;
