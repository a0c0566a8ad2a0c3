//! The bound on activations, in three steps. Each function does nothing: its contract is one step, for every accepted
//! header and every log that keeps rules 1, 2, 4, 5 and 12, from whatever controller. `docs/BOUND.md` tells the
//! argument in words.
ghost use Rattle.std.specs.Prelude.{ℕ, suc, ◌*◌, ◌^◌, ◌<◌, ◌≤◌, IsTrue};
ghost use Rattle.speed_bin.specs.declared.header.Header.{Header};
ghost use Rattle.speed_bin.specs.Log.{Log};
ghost use Rattle.speed_bin.specs.Counters.{acts};
ghost use Rattle.speed_bin.specs.Header.{IsAccepted, spare, bound as bound_of};
ghost use Rattle.speed_bin.specs.Marks.{Keeps, is_mark, acts_since_mark};
ghost use Rattle.speed_bin.specs.Weights.{weights_of, steps_of};

/// After a mark of a bank and before the next one, at most as many ACTs of that bank stand as a back-off cycle has.
pub fn cycle_activations()
    ensures at_most { (h : Header) (b : ℕ) (log : Log) → IsAccepted h → b < 32 → Keeps h log
        → acts_since_mark h b log ≤ h.version.cycle }
{}

/// At every mark of a bank the weights of its rows add up to no more than if each row were at ATH - 1.
pub fn weights_at_marks()
    ensures light { (h : Header) (b : ℕ) (log : Log) → IsAccepted h → b < 32 → Keeps h log → IsTrue (is_mark h b log)
        → weights_of h b log ≤ suc (spare h) * h.settings.rows * spare h ^ steps_of h }
{}

/// No row of any bank has more activations since its last mitigation than the bound, which is `ATH + h + A - 1` for a
/// cycle of A activations.
pub fn bound()
    ensures bounded { (h : Header) (b row : ℕ) (log : Log) → IsAccepted h → b < 32 → row < h.settings.rows → Keeps h log
        → acts h b row log ≤ bound_of h }
{}
