//! The text of a header.
ghost use Rattle.std.specs.Prelude.{◌≡◌, ◌+◌, ◌<◌, ◌≤◌, ◌^◌, ◌++◌, [], length, OnOk};
ghost use Rattle.ddr_text.specs.Opening.{with_feed};

use ddr_io::OutOfMemory;
use std::alloc::Global;
use std::marker::Model;

/// The text of a header as it was read, and its separator: its lines, each with its line feed. Contracts see the list of
/// its bytes.
#[derive(Drop)]
pub struct HeaderText {
    bytes: Vec<u8>,
}

impl Model for HeaderText {
    ghost use Rattle.std.specs.Prelude.{ℕ, List};

    ghost Value = { List ℕ };

    ghost view = { λ t. t.bytes.items };
}

impl HeaderText {
    // No lines yet.
    pub(crate) fn new(alloc: Global) -> Self
        ensures { result ≡ [] }
    {
        HeaderText {
            bytes: Vec::new(alloc),
        }
    }

    /// The bytes of the text.
    pub fn bytes(&self) -> &[u8]
        ensures { result.now ≡ self.now }
    {
        &self.bytes
    }

    // Appends bytes.
    pub(crate) fn push(&mut self, bytes: &[u8]) -> Result<(), OutOfMemory>
        ensures { OnOk result (self.new ≡ self.old ++ bytes.now) }
    {
        if self.bytes.extend_from_slice(bytes).is_err() {
            return Err(OutOfMemory);
        }
        Ok(())
    }

    // Appends a line and its line feed.
    pub(crate) fn push_line(&mut self, line: &[u8]) -> Result<(), OutOfMemory>
        ensures { OnOk result (self.new ≡ self.old ++ with_feed line.now) }
    {
        if self.bytes.extend_from_slice(line).is_err() || self.bytes.push(b'\n').is_err() {
            return Err(OutOfMemory);
        }
        Ok(())
    }
}
