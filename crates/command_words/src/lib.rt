//! The commands of a DDR5 subchannel, the words that spell them, and the places of its lines.
#![tactic(auto)]

mod command;
mod decoding;
mod geometry;
mod kinds;
mod place;
#[cfg(test)]
mod tests;
mod words;

pub use command::{Command, Mrw, covers};
pub use decoding::decode;
pub use geometry::{Geometry, LineAddr, Place, map_line, unmap};
pub use place::{Bank, BankAddr, Column, Group, Row};
pub use words::{WordFault, Words, encode};
