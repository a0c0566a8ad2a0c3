//! What repair makes of a codeword, and of a codeword with one bit turned.
ghost use Rattle.std.specs.Prelude.{◌≡◌, ◌<◌, ◌+◌, ℕ, List};
ghost use Rattle.ondie_ecc.specs.Bits.{turned, IsBytes};
ghost use Rattle.ondie_ecc.specs.Codeword.{codeword_of};
ghost use Rattle.ondie_ecc.specs.Repaired.{mended, repaired_of};
ghost use Rattle.ondie_ecc.specs.declared.codeword.Repaired.TheVariants.{Clean, Fixed};

/// A codeword is clean.
pub fn codeword_is_clean()
    ensures clean { (bytes : List ℕ) → IsBytes 16 bytes → repaired_of (codeword_of bytes) ≡ Clean bytes }
    ensures stays { (bytes : List ℕ) → mended (codeword_of bytes) ≡ codeword_of bytes }
{}

/// Any one turned bit of a codeword is fixed.
pub fn one_turn_is_undone()
    ensures fixed { (bytes : List ℕ) (bit : ℕ) → IsBytes 16 bytes → bit < 136
        → repaired_of (turned (codeword_of bytes) bit) ≡ Fixed bytes (bit + 1) }
    ensures undone { (bytes : List ℕ) (bit : ℕ) → bit < 136 → mended (turned (codeword_of bytes) bit) ≡ codeword_of bytes }
{}
