//! The program: it reads a job or a report on standard input, and writes a report, a verdict or its commands on standard
//! output; or it writes a report in version 2, runs a script, or makes a job.
#![tactic(auto)]

mod at_end;
mod command_line;
#[cfg(test)]
mod exec_tests;
mod fault;
#[cfg(test)]
mod fault_tests;
mod form;
pub mod laws;
mod lent_output;
mod made_run;
#[cfg(test)]
mod pair_tests;
#[cfg(test)]
mod ports_tests;
mod run;
mod showing;
mod shown;
#[cfg(test)]
mod stream_tests;
mod streams;
#[cfg(test)]
mod stress_tests;
#[cfg(test)]
mod tests;
mod upgrading;
#[cfg(test)]
mod version_stress_tests;
#[cfg(test)]
mod version_tests;
mod writing;

pub use at_end::{at_end, exit_code, finish};
pub use command_line::{unread_line, words_of};
use ddr_io::Status;
pub use fault::{Fault, fault_of};
pub use form::{Form, form_of};
pub use run::run;
use std::process::ExitCode;
use std::{env, io};
pub use streams::run_on_streams;

fn main(rt: HostRuntime) -> ExitCode {
    let status = whole_run(&rt);
    if let Some(fault) = fault_of(status) {
        let _ = eprintln!(rt; "{fault}");
    }
    exit_code(status)
}

// Runs on standard input and standard output.
fn whole_run(rt: &HostRuntime) -> Status {
    match words(rt) {
        Ok(words) => run_on_streams(rt.alloc(), &words, &mut rt.stdin(), &mut rt.stdout()),
        Err(error) => unread_line(&error),
    }
}

// The words of the command line.
fn words(rt: &HostRuntime) -> io::Result<Vec<String>> {
    words_of(rt.alloc(), env::args(rt)?)
}
