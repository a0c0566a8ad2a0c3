//! What a report of two ranks says of a job: definitions, and laws over them.
#![tactic(auto)]

pub mod laws;
mod rank_line;

pub use rank_line::{RankLine, RankReportLine, read_rank_line};
