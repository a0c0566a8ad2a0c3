//! Laws: an audit finds nothing in a finished report, and so none in the report that a replay has written.
#![tactic(auto)]

ghost use Rattle.std.specs.Prelude.{◌≡◌, ◌≤◌, ℕ, Option, Some, List, [], ◌++◌, length};
ghost use Rattle.std.specs.List.{flat_map};
ghost use Rattle.ddr_io.specs.declared.status.Status.{Status};
ghost use Rattle.ddr_io.specs.declared.status.Status.TheVariants as status;
ghost use Rattle.ddr_text.specs.Opening.{Accepts, opening_of};
ghost use Rattle.ddr_text.specs.Spelling.{spelled};
ghost use Rattle.ddr_text.specs.declared.lines.TraceLine.{TraceLine};
ghost use Rattle.log_auditor.specs.Findings.{Answers};
ghost use Rattle.trace_replay.specs.Replay.{Answers as ReplayAnswers};
ghost use Rattle.speed_bin.specs.declared.header.Header.{Header};
ghost use Rattle.ddr_text.specs.ReportParts.{Refusal};
ghost use Rattle.speed_bin.specs.Header.{shape_of};
ghost use Rattle.reports.specs.Delivered.{AreInside};
ghost use Rattle.reports.specs.Runs.{Run};
ghost use Rattle.reports.specs.Whole.{IsReportOf, whole};
ghost use Rattle.audited_reports.specs.Audited.{IsAuditedOk, IsEnding, IsTold, IsWithinLimits, SaysOk};

/// Every report of a run that ended within what a report can hold is audited Ok.
pub fn ended_run_is_ok()
    ensures finding { (h : Header) (job text rest : List ℕ) (trace : List TraceLine) (run : Run) (clock : ℕ) (refusal : Option Refusal)
        → opening_of job ≡ Accepts h text rest → AreInside (shape_of h) trace → length trace ≤ 1048576 → IsTold refusal
        → IsEnding h trace run clock refusal → IsAuditedOk (text ++ flat_map spelled (whole h trace run clock refusal)) }
{
    ddr_text::report_lines();
    ddr_text::laws::opened_header_is_accepted();
    reports::laws::gives_to_a_device();
}

/// Every finished report of a job is audited Ok: the bytes that a replay writes of a job whose opening is accepted and
/// whose trace is within its limits are a well-formed report whose log satisfies the rules, with an X line too.
pub fn finished_report_is_ok()
    ensures finding { (h : Header) (job text rest : List ℕ) (trace : List TraceLine) (refusal : Option Refusal) (bytes : List ℕ)
        → opening_of job ≡ Accepts h text rest → IsWithinLimits h trace → IsTold refusal
        → IsReportOf spelled h text trace refusal bytes → IsAuditedOk bytes }
{
    ended_run_is_ok();
    ddr_text::laws::opened_header_is_accepted();
    reports::laws::headline();
    reports::laws::stays_below_the_limit();
}

/// Of bytes that are audited Ok an audit says `A ok`, unless it is stopped by a fault or want of memory.
pub fn audit_says_ok()
    ensures answer { (bytes : List ℕ) (answer : Status) (left before after : Option (List ℕ)) → IsAuditedOk bytes
        → Answers answer (record { had = Some bytes; left = left; written_before = before; written_after = after }) → SaysOk answer before after }
{}

/// What a replay writes of a job is audited Ok, where it answers Ok, and also where it refuses a line of the trace: where it
/// answers Refused, and the opening of the job is accepted.
pub fn replayed_report_is_ok()
    ensures finished { (job report : List ℕ) (left : Option (List ℕ))
        → ReplayAnswers status.Ok (record { had = Some job; left = left; written_before = Some []; written_after = Some report }) → IsAuditedOk report }
    ensures refused { (h : Header) (job text rest report : List ℕ) (left : Option (List ℕ)) → opening_of job ≡ Accepts h text rest
        → ReplayAnswers status.Refused (record { had = Some job; left = left; written_before = Some []; written_after = Some report }) → IsAuditedOk report }
{
    finished_report_is_ok();
}
