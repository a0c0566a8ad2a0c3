//! What the commands of a log come to: the counts that end a report, kept command by command, and their S lines.
#![tactic(auto)]

mod counts;
mod writing;

pub use counts::Counts;
pub use writing::stat_lines;
