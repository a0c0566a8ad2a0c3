//! What a reader finds in a made job: laws over the definitions, whose functions do nothing.
ghost use Rattle.std.specs.Prelude.{ℕ, ◌≡◌, length, Ok};
ghost use Rattle.std.specs.List.{All};
ghost use Rattle.speed_bin.specs.Document.{header_stated};
ghost use Rattle.speed_bin.specs.Header.{IsAccepted};
ghost use Rattle.speed_bin.specs.Version.{plain};
ghost use Rattle.made_jobs.specs.Made.{made_trace, header_text};
ghost use Rattle.made_jobs.specs.Replayed.{IsReadBack, made_header};

use ddr_text::trace_grammar;

/// The header of a made job is read, and accepted.
pub fn makes_a_header()
    ensures stated { header_stated plain header_text ≡ Ok made_header }
    ensures accepted { IsAccepted made_header }
{}

/// Each line of a made job is read as the request that was drawn, and there are as many as were asked for.
pub fn makes_requests()
    ensures reads { (seed requests : ℕ) → All IsReadBack (made_trace seed requests) }
    ensures count { (seed requests : ℕ) → length (made_trace seed requests) ≡ requests }
{
    trace_grammar();
}
