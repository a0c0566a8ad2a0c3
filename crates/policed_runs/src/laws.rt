//! Laws of runs by the policy, over their definitions alone (`specs/`). None of them does anything.
ghost use Rattle.std.specs.Prelude.{◌≡◌, ℕ, Option, List, ◌++◌, take};
ghost use Rattle.std.specs.List.{flat_map};
ghost use Rattle.speed_bin.specs.declared.header.Header.{Header};
ghost use Rattle.ddr_text.specs.ReportParts.{Refusal};
ghost use Rattle.ddr_text.specs.Spelling.{spelled};
ghost use Rattle.ddr_text.specs.declared.lines.TraceLine.{TraceLine};
ghost use Rattle.reports.specs.Report.{report};
ghost use Rattle.reports.specs.Runs.{Run};
ghost use Rattle.policed_runs.specs.Progress.{Progress, Goes, IsByPolicy, EndsByPolicy};
ghost use Rattle.policed_runs.specs.Reports.{IsPolicyReport};

/// What comes next is settled.
pub fn one_step()
    ensures { (h : Header) (trace : List TraceLine) (before after other : Progress) → Goes h trace before after → Goes h trace before other → after ≡ other }
{
    scheduler::laws::one_turn();
}

/// A trace has at most one run by the policy that is over, and one clock at which it ends.
pub fn one_run()
    ensures run { (h : Header) (trace : List TraceLine) (run other : Run) (clock end : ℕ) → EndsByPolicy h trace run clock → EndsByPolicy h trace other end
        → run ≡ other }
    ensures clock { (h : Header) (trace : List TraceLine) (run other : Run) (clock end : ℕ) → EndsByPolicy h trace run clock → EndsByPolicy h trace other end
        → clock ≡ end }
{
    scheduler::laws::one_turn();
}

/// A run by the policy that is under way begins the one that is over.
pub fn goes_on()
    ensures { (h : Header) (trace : List TraceLine) (run whole : Run) (clock : ℕ) → IsByPolicy h trace run → EndsByPolicy h trace whole clock
        → (later : Run) × (whole ≡ later ++ run) }
{
    scheduler::laws::one_turn();
}

/// A job has at most one report by the policy, and what was written of a run by the policy that is under way begins it.
pub fn one_report()
    ensures whole { (h : Header) (text : List ℕ) (trace : List TraceLine) (refusal : Option Refusal) (bytes other : List ℕ)
        → IsPolicyReport h text trace refusal bytes → IsPolicyReport h text trace refusal other → bytes ≡ other }
    ensures started { (h : Header) (text : List ℕ) (trace : List TraceLine) (refusal : Option Refusal) (run : Run) (count : ℕ) (bytes : List ℕ)
        → IsByPolicy h trace run → IsPolicyReport h text trace refusal bytes
        → (shorter : ℕ) × (take count (text ++ flat_map spelled (report h trace run)) ≡ take shorter bytes) }
{
    one_run();
    goes_on();
    reports::laws::goes_on();
}
