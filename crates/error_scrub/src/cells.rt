//! The stored lines.
ghost use Rattle.std.specs.Prelude.{◌≡◌, ◌≢◌, ◌<◌, ◌≤◌, ◌+◌, ◌*◌, ℕ, [], ◌∷◌, ◌++◌, OnOk, OnErr, take, drop, slice_index_or, slice_range};
ghost use Rattle.command_words.specs.Geometry.{lines_of};
ghost use Rattle.command_words.specs.Place.{line_of, IsInside};

use crate::stored::{Stored, mend_stored, read_stored, words_of};
use crate::words::Faults;
use command_words::{Geometry, Place, unmap};
use ddr_io::OutOfMemory;
use ondie_ecc::{Codeword, ReadState, flip};
use std::alloc::{AllocError, Global};
use std::collections::BTreeMap;

/// What a reading of a line found: its 64 bytes after correction, and the worst state of its four codewords.
#[derive(Clone, Copy, Debug, PartialEq, Eq)]
pub struct LineRead {
    pub bytes: [u8; 64],
    pub state: ReadState,
}

/// The stored lines of a subchannel. Device d (0 to 3) holds bytes `16 * d` to `16 * d + 15` of a line as one codeword.
/// A line that was neither written nor flipped is zero, and takes no memory.
#[derive(Drop)]
pub struct Cells {
    geometry: Geometry,
    kept: BTreeMap<u32, Stored>,
}

#[tactic(auto, unfolding(crate::specs::Cells::stored, crate::specs::Cells::cells_shape))]
impl Cells {
    ghost use Rattle.error_scrub.specs.Cells.{zero_word, stored, cells_shape, line_read, written, flipped, scrubbed, word_of, ChangesLine, IsUnchanged};
    ghost use Rattle.error_scrub.specs.Scrubbing.{words_at, fixed_in, lost_in};

    /// Every line zero.
    pub fn new(alloc: Global, g: Geometry) -> Self
        ensures shape { cells_shape result ≡ g }
        ensures zero { (line device : ℕ) → stored result line device ≡ zero_word }
    {
        Cells {
            geometry: g,
            kept: BTreeMap::new(alloc),
        }
    }

    /// The line becomes these bytes, whatever was stored before.
    pub fn write(&mut self, place: Place, bytes: &[u8; 64]) -> Result<(), OutOfMemory>
        requires { IsInside place (cells_shape self.old) }
        ensures changes_one_line { OnOk result (ChangesLine self.old self.new (line_of place (cells_shape self.old)) (written bytes.now)) }
        ensures unchanged { OnErr result (IsUnchanged self.old self.new) }
        ensures shape { cells_shape self.new ≡ cells_shape self.old }
    {
        let line = unmap(place, self.geometry).get();
        self.keep(line, Stored::Bytes(*bytes))
    }

    /// The bytes of the line after correction. Nothing is written back.
    pub fn read(&self, place: Place) -> LineRead
        requires { IsInside place (cells_shape self.now) }
        ensures { result ≡ line_read self.now (line_of place (cells_shape self.now)) }
    {
        let line = unmap(place, self.geometry).get();
        match self.kept.get(&line) {
            Some(stored) => read_stored(stored),
            None => LineRead {
                bytes: [0; 64],
                state: ReadState::Clean,
            },
        }
    }

    /// One bit of one device's codeword is turned.
    pub fn flip(&mut self, place: Place, device: u8, bit: u8) -> Result<(), OutOfMemory>
        requires place { IsInside place (cells_shape self.old) }
        requires device { device < 4 }
        requires bit { bit < 136 }
        ensures changes_one_line { OnOk result
            (let line = line_of place (cells_shape self.old) in ChangesLine self.old self.new line (flipped self.old line device bit)) }
        ensures unchanged { OnErr result (IsUnchanged self.old self.new) }
        ensures shape { cells_shape self.new ≡ cells_shape self.old }
    {
        let line = unmap(place, self.geometry).get();
        let mut words = self.words(line);
        words[usize::from(device)] = flip(words[usize::from(device)], bit);
        self.keep(line, Stored::Words(words))
    }

    /// Repairs the four codewords of a line: the fixed ones are written back, the lost ones stay.
    pub(crate) fn scrub_line(&mut self, line: u32) -> Faults
        requires { line < lines_of (cells_shape self.old) }
        ensures line { ChangesLine self.old self.new line (scrubbed self.old line) }
        ensures fixed { result.fixed ≡ fixed_in (words_at self.old line) }
        ensures lost { result.lost ≡ lost_in (words_at self.old line) }
        ensures few { result.fixed + result.lost ≤ 4 }
    {
        match self.kept.get_mut(&line) {
            Some(stored) => mend_stored(stored),
            None => Faults { fixed: 0, lost: 0 },
        }
    }

    // The codewords of a line.
    fn words(&self, line: u32) -> [Codeword; 4]
        ensures { (device : ℕ) → device < 4 → (slice_index_or result device (record { 0 = [] })).0 ≡ stored self.now line device }
    {
        match self.kept.get(&line) {
            Some(stored) => words_of(stored),
            None => [Codeword([0; 17]); 4],
        }
    }

    // This is kept of the line from now on.
    fn keep(&mut self, line: u32, stored: Stored) -> Result<(), OutOfMemory>
        requires { line < lines_of (cells_shape self.old) }
        ensures changes_one_line { OnOk result (ChangesLine self.old self.new line (word_of stored)) }
        ensures unchanged { OnErr result (IsUnchanged self.old self.new) }
        ensures shape { cells_shape self.new ≡ cells_shape self.old }
    {
        match self.kept.insert(line, stored) {
            Ok(_) => Ok(()),
            Err(refused) => Err(AllocError::from(refused).into()),
        }
    }
}
