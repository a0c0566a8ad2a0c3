//! Bytes in and bytes out: sources and sinks that count their faults, and a reader of lines.
//!
//! A [`Source`] gives bytes and a [`Sink`] takes them, each by one call that answers with what
//! happened. [`PlainSource`] and [`PlainSink`] work on bytes in memory, [`MemorySource`] and
//! [`MemorySink`] too, with faults at listed calls, [`RealSource`] and [`RealSink`] on a reader and
//! a writer of the system. [`LineReader`] cuts a source into lines,
//! and [`put_all`] writes a whole piece.
#![tactic(auto)]

mod calls;
mod line_reader;
mod memory_sink;
mod memory_source;
#[cfg(test)]
mod memory_tests;
mod plain_sink;
mod plain_source;
mod real_sink;
mod real_source;
mod sink;
mod source;
mod status;
#[cfg(test)]
mod tests;

pub use line_reader::{Line, LineReader};
pub use memory_sink::MemorySink;
pub use memory_source::MemorySource;
pub use plain_sink::PlainSink;
pub use plain_source::PlainSource;
pub use real_sink::RealSink;
pub use real_source::RealSource;
pub use sink::{Put, Sink, put_all};
pub use source::{Got, Source};
pub use status::{OutOfMemory, Status};
