//! Laws over the definitions of a merge (`specs/`). None of them does anything.
ghost use Rattle.std.specs.Prelude.{ℕ, ◌≤◌, List};
ghost use Rattle.command_words.specs.Geometry.{Shape};
ghost use Rattle.trace_replay.specs.Job.{trace_of};
ghost use Rattle.reports.specs.Ages.{IsCapped};
ghost use Rattle.fair_queue.specs.Arrivals.{input_of};
ghost use Rattle.fair_queue.specs.Merged.{merged_behind};
ghost use Rattle.fair_queue.specs.Turns.{IsFair};

/// A merge is fair to its ports: each port's rests are admitted in their order, each once, and while a port's queue is not
/// empty between two of its admissions each other port is admitted at most once between them.
pub fn merges_fairly()
    ensures { (bytes : List ℕ) → IsFair (input_of bytes).lines }
{}

/// In a merged job no more than `cap` requests stand in a row without an I line between them.
pub fn caps_requests()
    ensures { (g : Shape) (cap : ℕ) (bytes : List ℕ) → 1 ≤ cap → IsCapped cap (trace_of g (merged_behind cap bytes)).lines }
{
    ddr_text::trace_grammar();
}
