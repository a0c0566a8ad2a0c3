//! A law: an audit finds nothing in the lines of each rank of what `pair` writes.
#![tactic(auto)]

ghost use Rattle.std.specs.Prelude.{◌≡◌, ℕ, Option, Some, List, [], ◌++◌};
ghost use Rattle.ddr_io.specs.declared.status.Status.TheVariants as status;
ghost use Rattle.ddr_text.specs.Opening.{Accepts, opening_of};
ghost use Rattle.speed_bin.specs.declared.header.Header.{Header};
ghost use Rattle.rank_bus.specs.declared.rank.Rank.{Rank as AnyRank};
ghost use Rattle.audited_reports.specs.Audited.{IsAuditedOk};
ghost use Rattle.audited_pairs.specs.Split.{own_lines};
ghost use Rattle.pair_deadlines.specs.Budget.{HasTime};
ghost use Rattle.pair_reports.specs.Report.{digit_of};
ghost use Rattle.rank_pair.specs.Answers.{PairAnswers};

/// What `pair` writes of a job whose opening is accepted begins with that opening. Of what stands behind it, the lines that begin
/// with the digit of a rank, without their first two bytes, are behind the opening a report that is audited Ok: where `pair` answers
/// Ok, and also where it refuses a line of the trace, that is, where it answers Refused and two ranks have time for their refreshes.
pub fn paired_report_is_ok()
    ensures finished { (h : Header) (job text rest lines : List ℕ) (left : Option (List ℕ)) (rank : AnyRank) → opening_of job ≡ Accepts h text rest
        → PairAnswers status.Ok (Some job) left (Some []) (Some (text ++ lines)) → IsAuditedOk (text ++ own_lines (digit_of rank) lines) }
    ensures refused { (h : Header) (job text rest lines : List ℕ) (left : Option (List ℕ)) (rank : AnyRank) → opening_of job ≡ Accepts h text rest → HasTime h
        → PairAnswers status.Refused (Some job) left (Some []) (Some (text ++ lines)) → IsAuditedOk (text ++ own_lines (digit_of rank) lines) }
{
    audited_pairs::split_report_is_ok();
}
