//! A set of levels that knows its highest.
ghost use Rattle.std.specs.Prelude.{ℕ, ◌≡◌, ◌≢◌, ◌<◌, ◌≤◌, nat_eq, if◌then◌else◌};
ghost use Rattle.std.specs.Int.{bit_at};
ghost use Rattle.row_order.specs.Marks.{mark_of};

use std::marker::Model;

/// A set of levels below 4,096, as bits.
#[derive(Drop)]
pub(crate) struct LevelSet {
    // bit `level % 64` of word `level / 64`
    words: [u64; 64],
    // bit k: whether word k has a bit
    filled: u64,
}

impl Model for LevelSet {
    ghost use Rattle.row_order.specs.Marks.{Marks, IsMarks};

    ghost Value = { Marks };

    ghost view = { λ s. record { words = s.words; filled = s.filled } };

    ghost invariant = { λ s. IsMarks (record { words = s.words; filled = s.filled }) };
}

impl LevelSet {
    pub(crate) fn new() -> Self
        ensures { (level : ℕ) → level < 4096 → mark_of result level ≡ 0 }
    {
        LevelSet {
            words: [0; 64],
            filled: 0,
        }
    }

    pub(crate) fn insert(&mut self, level: u32)
        requires { level < 4096 }
        ensures { (k : ℕ) → k < 4096 → mark_of self.new k ≡ (if nat_eq k level then 1 else mark_of self.old k) }
    {
        let word = with_bit(self.words[(level / 64) as usize], level % 64);
        self.words[(level / 64) as usize] = word;
        self.filled = with_bit(self.filled, level / 64);
    }

    pub(crate) fn remove(&mut self, level: u32)
        requires { level < 4096 }
        ensures { (k : ℕ) → k < 4096 → mark_of self.new k ≡ (if nat_eq k level then 0 else mark_of self.old k) }
    {
        let word = without_bit(self.words[(level / 64) as usize], level % 64);
        self.words[(level / 64) as usize] = word;
        if word == 0 {
            self.filled = without_bit(self.filled, level / 64);
        }
    }

    /// The highest level of the set; 0 where it is empty.
    pub(crate) fn highest(&self) -> u32
        ensures inside { result < 4096 }
        ensures highest { (k : ℕ) → k < 4096 → mark_of self.now k ≡ 1 → (k ≤ result) × (mark_of self.now result ≡ 1) }
    {
        let word = highest_bit(self.filled);
        word * 64 + highest_bit(self.words[word as usize])
    }
}

fn with_bit(number: u64, bit: u32) -> u64
    requires { bit < 64 }
    ensures set { bit_at result bit ≡ 1 }
    ensures others { (k : ℕ) → k ≢ bit → bit_at result k ≡ bit_at number k }
{
    number | (1 << bit)
}

fn without_bit(number: u64, bit: u32) -> u64
    requires { bit < 64 }
    ensures clear { bit_at result bit ≡ 0 }
    ensures others { (k : ℕ) → k < 64 → k ≢ bit → bit_at result k ≡ bit_at number k }
    ensures at_most { result ≤ number }
{
    number & !(1 << bit)
}

// The highest bit of the number; 0 where it has none.
fn highest_bit(number: u64) -> u32
    ensures inside { result < 64 }
    ensures found { 0 < number → bit_at number result ≡ 1 }
    ensures none_above { (k : ℕ) → bit_at number k ≡ 1 → k ≤ result }
{
    if number == 0 {
        0
    } else {
        63 - number.leading_zeros()
    }
}
