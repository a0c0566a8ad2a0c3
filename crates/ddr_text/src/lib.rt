//! The lines of traces and reports, and the opening of a job; reading a report line by line, and writing lines into a sink.
#![tactic(auto)]

mod byte_digits;
#[cfg(test)]
mod byte_digits_tests;
pub mod digits;
pub mod fields;
mod header_text;
pub mod laws;
mod lines;
mod opening;
#[cfg(test)]
mod opening_tests;
mod pieces;
mod reason;
#[cfg(test)]
mod reason_tests;
mod reason_text;
mod report_line;
#[cfg(test)]
mod report_line_tests;
mod report_reader;
#[cfg(test)]
mod report_reader_tests;
mod separator;
mod spelling;
#[cfg(test)]
mod spelling_tests;
mod stop;
mod trace_line;
#[cfg(test)]
mod trace_line_tests;
mod writing;
#[cfg(test)]
mod writing_tests;

pub use fields::number_of;
pub use header_text::HeaderText;
pub use lines::{LineFault, ReportLine, StatName, TraceLine};
pub use opening::{Apart, Opening, open_apart, open_job};
pub use pieces::{put_bytes, put_number, put_spaced, put_text};
pub use reason::Reason;
pub use report_line::{read_report_line, report_lines};
pub use report_reader::{Next, ReportReader, Stage};
pub use spelling::write_report_line;
pub use stop::Stop;
pub use trace_line::{read_trace_line, trace_grammar};
pub use writing::{put, put_line, put_lines, put_opening, refuse};
