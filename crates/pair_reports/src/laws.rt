//! Laws of what a report of two ranks says, over its definitions alone (`specs/`). None of them does anything.
ghost use Rattle.std.specs.Prelude.{◌≡◌, ℕ, None, Ok, List, [], ◌++◌};
ghost use Rattle.command_words.specs.Geometry.{Shape};
ghost use Rattle.speed_bin.specs.declared.header.Header.{Header};
ghost use Rattle.rank_bus.specs.Buses.{ClocksRise, part};
ghost use Rattle.rank_bus.specs.declared.rank.Rank.{Rank as AnyRank};
ghost use Rattle.reports.specs.Delivered.{IsInside};
ghost use Rattle.reports.specs.Report.{report};
ghost use Rattle.reports.specs.Runs.{log_of};
ghost use Rattle.reports.specs.Whole.{whole};
ghost use Rattle.pair_reports.specs.Grammar.{rank_line_of};
ghost use Rattle.pair_reports.specs.Lines.{only};
ghost use Rattle.pair_reports.specs.Report.{pair_report, told_of, whole_pair};
ghost use Rattle.pair_reports.specs.Runs.{PairRun, bus_of, run_of};
ghost use Rattle.pair_reports.specs.Sound.{IsBegun, IsPairRun};
ghost use Rattle.pair_reports.specs.declared.rank_line.RankLine.{RankLine as AnyLine};

/// The commands of one rank on the bus are the log of its own run.
pub fn has_both_logs()
    ensures { (rank : AnyRank) (run : PairRun) → part rank (bus_of run) ≡ log_of (run_of rank run) }
{}

/// The lines that are told of one rank are the report of its own run of its own lines, and with those of the end they are
/// all lines of that report.
pub fn tells_each_rank()
    ensures lines { (h : Header) (trace : List AnyLine) (run : PairRun) (rank : AnyRank)
        → told_of rank (pair_report h trace run) ≡ report h (only rank trace) (run_of rank run) }
    ensures all { (h : Header) (trace : List AnyLine) (run : PairRun) (clock : ℕ) (rank : AnyRank)
        → told_of rank (whole_pair h trace run clock) ≡ whole h (only rank trace) (run_of rank run) clock None }
{}

/// Nothing done is a right beginning of every trace.
pub fn begins()
    ensures empty { (h : Header) (trace : List AnyLine) → IsBegun h trace [] }
    ensures finished { (h : Header) (trace : List AnyLine) (run : PairRun) (clock : ℕ) → IsPairRun h trace run clock → IsBegun h trace run }
{}

/// The clocks of both ranks together rise strictly.
pub fn clocks_rise()
    ensures together { (h : Header) (trace : List AnyLine) (run : PairRun) → IsBegun h trace run → ClocksRise (bus_of run) }
{
    rank_bus::laws::clocks_rise();
}

/// More lines behind a trace change nothing of a run and its report so far.
pub fn rests_on_the_lines_so_far()
    ensures report { (h : Header) (trace more : List AnyLine) (run : PairRun) → IsBegun h trace run
        → pair_report h (trace ++ more) run ≡ pair_report h trace run }
    ensures begun { (h : Header) (trace more : List AnyLine) (run : PairRun) → IsBegun h trace run → IsBegun h (trace ++ more) run }
{}

/// A line that is read from a text is one of the subchannel, and a W line has 64 bytes.
pub fn reads_lines_inside()
    ensures inside { (g : Shape) (text : List ℕ) (it : AnyLine) → rank_line_of g text ≡ Ok it → IsInside g it.line }
{
    reports::laws::reads_lines_inside();
}
