//! A rank with a fifth device, which holds the exclusive-or of the other four: what a script reads there where one of the five is
//! dead, and that any single dead device is made good.
#![tactic(auto)]

pub mod laws;
mod spare_loop;
mod stand_in;
#[cfg(test)]
mod tests;

pub use spare_loop::spare;
