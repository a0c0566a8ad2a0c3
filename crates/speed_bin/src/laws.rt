//! A law over the definitions of headers (`specs/`). It does nothing.
ghost use Rattle.std.specs.Prelude.{◌≡◌, ℕ, List, Ok};
ghost use Rattle.speed_bin.specs.Document.{header_stated};
ghost use Rattle.speed_bin.specs.Header.{IsAccepted};
ghost use Rattle.speed_bin.specs.Version.{Figures, IsVersion};
ghost use Rattle.speed_bin.specs.declared.header.Header.{Header};

/// A header that a text states in front of a separator with a version is accepted.
pub fn stated_headers_are_accepted()
    ensures accepted { (version : Figures) (text : List ℕ) (h : Header) → IsVersion version → header_stated version text ≡ Ok h → IsAccepted h }
{}
