//! The stored lines, and the scrub that visits them.
ghost use Rattle.std.specs.Prelude.{ℕ, ◌≡◌, ◌<◌, ◌^◌, ◌+◌, List, [], ◌∷◌, length, OnOk, OnErr, if◌then◌else◌};
ghost use Rattle.command_words.specs.Geometry.{Shape};
ghost use Rattle.command_words.specs.Place.{line_of, IsInside};
ghost use Rattle.error_scrub.specs.Cells.{cells_shape};
ghost use Rattle.error_scrub.specs.Changes.{Change, wrote, turns, scrubs};
ghost use Rattle.error_scrub.specs.Scrubbing.{Step as Visit, line_after, counts_of};
ghost use Rattle.device_core.specs.Stored.{reading, words_after};

use command_words::{Geometry, Place};
use ddr_io::OutOfMemory;
use error_scrub::{Cells, LineRead, Scrub, ScrubCounts, laws};
use std::alloc::Global;

/// The stored lines of a subchannel, and the place of its scrub.
#[derive(Drop)]
pub(crate) struct Store {
    cells: Cells,
    scrub: Scrub,
}

#[tactic(auto, unfolding(crate::specs::Store::StandsFor))]
impl Store {
    ghost use Rattle.device_core.specs.Store.{StandsFor, IsUnchanged};

    // Every line zero, and the scrub at line 0.
    pub(crate) fn new(alloc: Global, g: Geometry) -> Self
        ensures { StandsFor result g [] [] }
    {
        laws::cells_stand();
        Store {
            cells: Cells::new(alloc, g),
            scrub: Scrub::new(g),
        }
    }

    // The line at the place becomes these bytes.
    pub(crate) fn write(&mut self, place: Place, bytes: &[u8; 64]) -> Result<(), OutOfMemory>
        requires { IsInside place (cells_shape self.old.cells) }
        ensures stands { OnOk result ((g : Shape) (changes : List Change) (visits : List Visit) → StandsFor self.old g changes visits
            → StandsFor self.new g (wrote (line_of place g) bytes.now ∷ changes) visits) }
        ensures unchanged { OnErr result (IsUnchanged self.old self.new) }
    {
        laws::cells_stand();
        self.cells.write(place, bytes)
    }

    // What a reading of the place finds.
    pub(crate) fn read(&self, place: Place) -> LineRead
        requires { IsInside place (cells_shape self.now.cells) }
        ensures { (g : Shape) (changes : List Change) (visits : List Visit) → StandsFor self.now g changes visits
            → result ≡ reading changes (line_of place g) }
    {
        self.cells.read(place)
    }

    // One bit of one device's codeword is turned.
    pub(crate) fn flip(&mut self, place: Place, device: u8, bit: u8) -> Result<(), OutOfMemory>
        requires place { IsInside place (cells_shape self.old.cells) }
        requires device { device < 4 }
        requires bit { bit < 136 }
        ensures stands { OnOk result ((g : Shape) (changes : List Change) (visits : List Visit) → StandsFor self.old g changes visits
            → StandsFor self.new g (turns (line_of place g) device bit ∷ changes) visits) }
        ensures shape { cells_shape self.new.cells ≡ cells_shape self.old.cells }
        ensures unchanged { OnErr result (IsUnchanged self.old self.new) }
    {
        laws::cells_stand();
        self.cells.flip(place, device, bit)
    }

    // The scrub visits its next line.
    pub(crate) fn scrub(&mut self)
        requires shape { self.old.scrub.shape ≡ cells_shape self.old.cells }
        requires steps { self.old.scrub.steps < 2 ^ 48 }
        ensures { (g : Shape) (changes : List Change) (visits : List Visit) → StandsFor self.old g changes visits
            → StandsFor self.new g (scrubs (line_after g (length visits)) ∷ changes)
            (words_after changes (line_after g (length visits)) ∷ visits) }
    {
        laws::cells_stand();
        self.scrub.step(&mut self.cells);
    }

    // What the scrub found so far.
    pub(crate) fn counts(&self) -> ScrubCounts
        ensures { (g : Shape) (changes : List Change) (visits : List Visit) → StandsFor self.now g changes visits
            → result ≡ counts_of g visits }
    {
        self.scrub.counts()
    }
}
