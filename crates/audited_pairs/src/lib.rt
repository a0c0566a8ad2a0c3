//! A law: an audit finds nothing in the lines of each rank of a finished report of two ranks.
#![tactic(auto)]

ghost use Rattle.std.specs.Prelude.{◌≡◌, ◌≤◌, ℕ, Option, List, ◌++◌, length, sum};
ghost use Rattle.std.specs.List.{flat_map};
ghost use Rattle.speed_bin.specs.Header.{shape_of};
ghost use Rattle.speed_bin.specs.declared.header.Header.{Header};
ghost use Rattle.ddr_text.specs.Opening.{Accepts, opening_of};
ghost use Rattle.ddr_text.specs.Spelling.{spelled};
ghost use Rattle.rank_bus.specs.declared.rank.Rank.{Rank as AnyRank};
ghost use Rattle.reports.specs.Barriers.{idle_clocks};
ghost use Rattle.reports.specs.Delivered.{AreInside};
ghost use Rattle.pair_reports.specs.Lines.{lines_of};
ghost use Rattle.pair_reports.specs.Report.{digit_of, told_of, whole_pair};
ghost use Rattle.pair_reports.specs.Runs.{PairRun};
ghost use Rattle.pair_reports.specs.Sound.{IsPairRun};
ghost use Rattle.pair_reports.specs.Whole.{IsPairReportOf};
ghost use Rattle.pair_reports.specs.declared.rank_line.RankLine.{RankLine as AnyLine};
ghost use Rattle.audited_reports.specs.Audited.{IsAuditedOk, IsTold};
ghost use Rattle.audited_pairs.specs.Split.{own_lines};
ghost use Rattle.ddr_text.specs.ReportParts.{Refusal};

/// In a finished report of two ranks, of a job whose opening is accepted and whose trace is within its limits, the lines of each
/// rank without its digit are, behind the opening, a report that is audited Ok.
pub fn each_rank_is_ok()
    ensures finding { (h : Header) (job text rest : List ℕ) (trace : List AnyLine) (run : PairRun) (clock : ℕ) (rank : AnyRank)
        → opening_of job ≡ Accepts h text rest → AreInside (shape_of h) (lines_of trace) → length trace ≤ 1048576 → sum (idle_clocks (lines_of trace)) ≤ 4294967296
        → IsPairRun h trace run clock → IsAuditedOk (text ++ flat_map spelled (told_of rank (whole_pair h trace run clock))) }
{
    audited_reports::ended_run_is_ok();
    ddr_text::laws::opened_header_is_accepted();
    pair_headline::laws::headline();
    pair_reports::laws::tells_each_rank();
}

/// The same of the bytes of such a report: of what stands behind the opening, the lines that begin with the digit of a rank,
/// without their first two bytes, are behind the opening a report that is audited Ok.
pub fn split_report_is_ok()
    ensures finding { (h : Header) (job text rest : List ℕ) (trace : List AnyLine) (refusal : Option Refusal) (lines : List ℕ) (rank : AnyRank)
        → opening_of job ≡ Accepts h text rest → AreInside (shape_of h) (lines_of trace) → length trace ≤ 1048576 → sum (idle_clocks (lines_of trace)) ≤ 4294967296
        → IsTold refusal → IsPairReportOf h text trace refusal (text ++ lines) → IsAuditedOk (text ++ own_lines (digit_of rank) lines) }
{
    each_rank_is_ok();
    audited_reports::ended_run_is_ok();
    ddr_text::laws::opened_header_is_accepted();
    pair_headline::laws::headline();
    pair_reports::laws::tells_each_rank();
    reports::laws::gives_to_a_device();
}
