//! What may come next: for the log of the commands so far and one more command, the clocks at which it keeps all fourteen
//! rules, and which rule forbids it at every clock.
#![tactic(auto)]

mod limits;
mod parts;
mod prospects;
mod span;
#[cfg(test)]
mod tests;

pub use prospects::Prospects;
