//! Laws over the definitions of a run of two ranks. None of them does anything.
ghost use Rattle.std.specs.Prelude.{◌≤◌, ◌+◌, ◌*◌, ◌/◌, ℕ, List, length};
ghost use Rattle.speed_bin.specs.Header.{IsAccepted, shape_of};
ghost use Rattle.speed_bin.specs.declared.header.Header.{Header};
ghost use Rattle.pair_deadlines.specs.Keeping.{Keeps, Resting};
ghost use Rattle.rank_bus.specs.declared.rank.Rank.{Rank as AnyRank};
ghost use Rattle.reports.specs.Delivered.{AreInside};
ghost use Rattle.reports.specs.Runs.{log_of};
ghost use Rattle.reports.specs.Sound.{Sound};
ghost use Rattle.pair_reports.specs.Headline.{PairHeadline};
ghost use Rattle.pair_reports.specs.Lines.{lines_of, only};
ghost use Rattle.pair_reports.specs.Runs.{PairRun, bus_of, run_of};
ghost use Rattle.pair_reports.specs.Sound.{IsPairRun};
ghost use Rattle.pair_reports.specs.declared.rank_line.RankLine.{RankLine as AnyLine};

/// A finished run of two ranks keeps the headline: in each rank every rule, its reads with plain memory's bytes where they are
/// tame and the bound on activations; and both together the gaps of the bus, and the order of the trace.
pub fn headline()
    ensures promises { (h : Header) (trace : List AnyLine) (run : PairRun) (clock : ℕ) → IsAccepted h
        → AreInside (shape_of h) (lines_of trace) → IsPairRun h trace run clock → PairHeadline h trace run clock }
{
    reports::laws::reads_plain_memory();
    reports::laws::bounds_activations();
    pair_reports::laws::clocks_rise();
}

/// A controller of two ranks that keeps its deadlines has issued to a rank no more than five commands for each request and for
/// each refresh interval, but for the register writes of both.
pub fn counts_commands()
    ensures few { (h : Header) (trace : List AnyLine) (run : PairRun) (now until idle n : ℕ) (rank : AnyRank)
        → Sound h (only rank trace) (run_of rank run) → Keeps h (bus_of run) now until idle n Resting → 1 ≤ h.timing.nrefi
        → length (log_of (run_of rank run)) ≤ 16 + 5 * n + 5 * (now / h.timing.nrefi) }
{}
