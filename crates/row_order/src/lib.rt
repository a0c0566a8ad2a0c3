//! The rows of a bank in the order of their last change, in buckets by count: each change, and the first row with the
//! greatest count, in constant time. The rows are nodes that name each other by number.
#![tactic(auto)]

mod blocks;
mod levels;
mod links;
mod nodes;
mod order;

pub use order::{RowOrder, same_counts, stands};

#[cfg(test)]
mod tests;
