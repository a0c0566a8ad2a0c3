//! Draws the requests of a made job.
ghost use Rattle.std.specs.Prelude.{◌≡◌, ◌<◌};
ghost use Rattle.made_jobs.specs.Made.{start, drawn, chosen_line, drawn_bytes, line_count};

use command_words::{Geometry, LineAddr};
use ddr_text::TraceLine;
use rand_core::utils::{NextWord, fill_bytes_via_u32};
use rand_pcg::Lcg64Xsh32;
use std::marker::Model;

// The rows of a bank, as the header of a made job says, and the lines that these have.
const ROWS: u32 = 65_536;

const LINES: u32 = 134_217_728;

/// Draws the requests of a made job, one by one. Each rests on the line of the one before.
#[derive(Drop)]
pub struct Generator {
    words: Lcg64Xsh32,
    previous: u32,
}

impl Model for Generator {
    ghost use Rattle.std.specs.Prelude.{◌<◌};
    ghost use Rattle.made_jobs.specs.Made.{Drawing, line_count};

    ghost Value = { Drawing };

    ghost view = { λ g. record { words = g.words; previous = g.previous } };

    ghost invariant = { λ g. g.previous < line_count };

    ghost inverse = { λ d. record { words = d.words; previous = d.previous } };
}

impl Generator {
    /// Begins the requests of a seed.
    #[tactic(auto, unfolding(crate::specs::Made::start))]
    pub fn new(seed: u64) -> Self
        ensures { result ≡ start seed }
    {
        Generator {
            words: Lcg64Xsh32::new(seed, 54),
            previous: 0,
        }
    }

    /// Draws the next request: a read, or a write of drawn bytes.
    #[tactic(auto, unfolding(crate::specs::Made::drawn, crate::specs::Made::request_of))]
    pub fn next_request(&mut self) -> TraceLine
        ensures request { result ≡ (drawn self.old).0 }
        ensures behind { self.new ≡ (drawn self.old).1 }
    {
        let word = self.words.next_word();
        let number = choose_line(word, self.previous, &mut self.words);
        self.previous = number;
        let line = line_at(number);
        if word % 4 == 0 {
            TraceLine::Write(line, draw_bytes(&mut self.words))
        } else {
            TraceLine::Read(line)
        }
    }
}

// The line of a request by its first word: of 16 words, 4 draw a line, 8 go on behind the line
// before, and 4 take one of eight lines that lie 2,048 apart.
#[tactic(auto, unfolding(crate::specs::Made::chosen_line))]
fn choose_line(word: u32, previous: u32, words: &mut Lcg64Xsh32) -> u32
    requires { previous < line_count }
    ensures chosen { (result, words.new) ≡ chosen_line word (record { words = words.old; previous = previous }) }
    ensures in_range { result < line_count }
{
    match word / 4 % 16 {
        0..=3 => words.next_word() % LINES,
        4..=11 => (previous + 1) % LINES,
        _ => 2048 * (word / 64 % 8),
    }
}

// The line with this number.
fn line_at(number: u32) -> LineAddr
    requires { number < line_count }
    ensures { result ≡ number }
{
    match LineAddr::new(number, Geometry::with_rows(ROWS)) {
        Some(line) => line,
        None => unreachable!(),
    }
}

// The bytes of the next 16 words, each with its least byte first.
#[tactic(auto, unfolding(crate::specs::Made::drawn_bytes))]
fn draw_bytes(words: &mut Lcg64Xsh32) -> [u8; 64]
    ensures { (result, words.new) ≡ drawn_bytes words.old }
{
    let mut bytes = [0u8; 64];
    fill_bytes_via_u32(words, &mut bytes);
    bytes
}
