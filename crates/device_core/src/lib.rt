//! The memory end of the bus: a device that takes command words and answers each read, and whether ALERT is raised.
#![tactic(auto)]

mod access;
mod activations;
mod device;
pub mod laws;
mod reply;
mod store;
#[cfg(test)]
mod tests;

pub use device::Device;
pub use reply::Reply;
