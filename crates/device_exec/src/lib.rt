//! The device under a foreign log: a script of commands, data and turned bits is judged line by line, and given to a device as
//! long as it breaks no rule.
#![tactic(auto)]

mod checked_device;
mod exec_loop;
mod giving;
mod judging;
pub mod laws;
mod memory;
mod script_line;
mod script_reader;
mod shown;
#[cfg(test)]
mod tests;

pub use checked_device::{Answer, Checked, CheckedDevice, Waiting};
pub use exec_loop::exec;
pub use judging::{judge, judge_end};
pub use script_line::{ScriptLine, read_script_line, script_lines};
pub use script_reader::{Next, ScriptReader, Stage};
pub use shown::{put_command, tell};
