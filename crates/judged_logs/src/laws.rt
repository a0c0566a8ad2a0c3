//! What judging a part of the rules has to do with judging all of them.
ghost use Rattle.std.specs.Prelude.{ℕ, ◌≡◌, true, None, Some};
ghost use Rattle.speed_bin.specs.Log.{Log};
ghost use Rattle.speed_bin.specs.Rules.{verdict as verdict_on_all, verdict_at_end as verdict_on_all_at_end};
ghost use Rattle.speed_bin.specs.declared.header.Header.{Header};
ghost use Rattle.judged_logs.specs.Verdicts.{everything, is_judged, verdict, verdict_at_end};
ghost use Rattle.judged_logs.specs.declared.judged.Judged.{Judged};

/// A law: judging all rules is the audit of `log_auditor`.
pub fn all_are_judged()
    ensures log { (h : Header) (log : Log) → verdict everything h log ≡ verdict_on_all h log }
    ensures at_end { (h : Header) (clock : ℕ) (log : Log) → verdict_at_end everything h clock log ≡ verdict_on_all_at_end h clock log }
{}

/// A law: a log that keeps all rules keeps those that are judged.
pub fn fine_is_fine()
    ensures log { (j : Judged) (h : Header) (log : Log) → verdict_on_all h log ≡ None → verdict j h log ≡ None }
    ensures at_end { (j : Judged) (h : Header) (clock : ℕ) (log : Log) → verdict_on_all_at_end h clock log ≡ None → verdict_at_end j h clock log ≡ None }
{}

/// A law: a verdict names no rule that is left out.
pub fn only_judged_rules()
    ensures log { (j : Judged) (h : Header) (log : Log) (breach : ℕ × ℕ) → verdict j h log ≡ Some breach → is_judged j breach.1 ≡ true }
    ensures at_end { (j : Judged) (h : Header) (clock : ℕ) (log : Log) (breach : ℕ × ℕ) → verdict_at_end j h clock log ≡ Some breach → is_judged j breach.1 ≡ true }
{}
