//! Traces of other simulators: the command traces and the request traces of Ramulator 2 and of DRAMsim3, read line by line,
//! and written as a report or as a job.
//!
//! A line that is not understood is refused, with its number, its field and what was expected there; nothing is guessed.
#![tactic(auto)]

mod address;
mod command_fault;
#[cfg(test)]
mod command_tests;
mod command_trace;
mod fields;
mod job_of;
mod mapping;
mod mapping_fault;
#[cfg(test)]
mod mapping_tests;
mod names;
mod numbers;
mod open_banks;
mod report_of;
mod request_fault;
#[cfg(test)]
mod request_tests;
mod request_trace;
mod stop;
mod writes;
mod writing;

pub use command_fault::{CommandFault, CommandField};
pub use command_trace::{Entry, Tool, read_command_line};
pub use job_of::write_job_of;
pub use mapping::Mapping;
pub use mapping_fault::MappingFault;
pub use names::{Lacking, Name};
pub use numbers::hexadecimal;
pub use report_of::{Reading, write_report_of};
pub use request_fault::{RequestFault, RequestField};
pub use request_trace::{Request, RequestFormat, read_request_line};
pub use stop::Stop;
