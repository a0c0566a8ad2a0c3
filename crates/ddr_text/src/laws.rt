//! Laws over the definitions of lines and openings (`specs/`). None of them does anything.
ghost use Rattle.std.specs.Prelude.{◌≡◌, ◌++◌, ℕ, List, Ok};
ghost use Rattle.hex.specs.Hex.{decode_sized};
ghost use Rattle.ondie_ecc.specs.Bits.{IsBytes};
ghost use Rattle.speed_bin.specs.Header.{IsAccepted};
ghost use Rattle.speed_bin.specs.declared.header.Header.{Header};
ghost use Rattle.ddr_text.specs.Opening.{Accepts, opening_of};
ghost use Rattle.ddr_text.specs.Parts.{LinesAreParts};
ghost use Rattle.ddr_text.specs.ReportGrammar.{lower_bytes_of};
ghost use Rattle.ddr_text.specs.Writing.{PiecesFollow};

/// What comes next in some bytes, in words of their parts between line feeds.
pub fn lines_are_parts()
    ensures { LinesAreParts }
{}

/// The opening of a job opens the same way whatever bytes it begins: with the same header and text, and these bytes behind it.
pub fn opening_opens_again()
    ensures opens { (h : Header) (job text rest more : List ℕ) → opening_of job ≡ Accepts h text rest
        → opening_of (text ++ more) ≡ Accepts h text more }
{}

/// The header that opens a job is accepted: its numbers are within their ranges and the checks hold.
pub fn opened_header_is_accepted()
    ensures accepted { (h : Header) (job text rest : List ℕ) → opening_of job ≡ Accepts h text rest → IsAccepted h }
{
    speed_bin::laws::stated_headers_are_accepted();
}

/// A field that is read as 64 bytes, in either case or in lower case, gives 64 numbers below 256.
pub fn hex_gives_bytes()
    ensures either { (field bytes : List ℕ) → decode_sized field 64 ≡ Ok bytes → IsBytes 64 bytes }
    ensures lower { (field bytes : List ℕ) → lower_bytes_of 64 field ≡ Ok bytes → IsBytes 64 bytes }
{}

/// Of pieces that are written one behind the other: what a prefix of one is to the whole.
pub fn pieces_follow()
    ensures { PiecesFollow }
{}
