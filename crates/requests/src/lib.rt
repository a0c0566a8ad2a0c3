//! Requests for lines, and what a controller that serves them out of order does with them: which wait, which may be
//! chosen, and what is kept from turn to turn.
#![tactic(auto)]

pub mod laws;
mod request;
#[cfg(test)]
mod tests;
mod waiting;

pub use request::{Kind, Request, RequestId};
pub use waiting::Waiting;
