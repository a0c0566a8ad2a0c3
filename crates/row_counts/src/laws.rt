//! What counters that stand for a bank in a log say beside their calls. Each function does nothing: its contract is the law.
ghost use Rattle.std.specs.Prelude.{ℕ, ◌∷◌, ◌≡◌, ◌<◌, ◌+◌, ◌^◌, length};
ghost use Rattle.command_words.specs.declared.command.Command.{Command};
ghost use Rattle.speed_bin.specs.declared.header.Header.{Header};
ghost use Rattle.speed_bin.specs.Counters.{cnt, counters};
ghost use Rattle.speed_bin.specs.Header.{bound};
ghost use Rattle.speed_bin.specs.Log.{Log};
ghost use Rattle.row_counts.specs.Held.{Held, MayClose, MayMitigate, HasRow};
ghost use Rattle.row_counts.specs.Standing.{StandsFor};

/// A place that neither closes a row of the bank nor mitigates one leaves its counters as they are.
pub fn stays()
    ensures log { (it : Held) (h : Header) (b clock : ℕ) (command : Command) (log : Log) → StandsFor it h b log
        → counters h b (record { clock = clock; command = command } ∷ log) ≡ counters h b log
        → StandsFor it h b (record { clock = clock; command = command } ∷ log) }
{}

/// One more closing of a row can be counted where the row is below the bank's rows, its counter below the bound, and
/// the log shorter than 2^48 places; one more mitigation where the log is that short.
pub fn may_change()
    ensures close { (it : Held) (h : Header) (b row : ℕ) (log : Log) → StandsFor it h b log → row < h.settings.rows
        → cnt h b row log < bound h → length log < 2 ^ 48 → MayClose it row }
    ensures mitigate { (it : Held) (h : Header) (b : ℕ) (log : Log) → StandsFor it h b log → length log < 2 ^ 48
        → it.changes < 2 ^ 48 }
    ensures rows { (it : Held) (h : Header) (b : ℕ) (log : Log) → StandsFor it h b log
        → it.order.rows ≡ h.settings.rows }
{}

/// Each row of the header is one of the bank's.
pub fn has_rows()
    ensures row { (it : Held) (h : Header) (b row : ℕ) (log : Log) → StandsFor it h b log → row < h.settings.rows
        → HasRow it row }
{}

/// A condition of a call that holds by some log, whichever it is, holds.
pub fn holds_by_some_log()
    ensures close { (it : Held) (row : ℕ) → ∥ MayClose it row ∥₁ → MayClose it row }
    ensures mitigate { (it : Held) → ∥ MayMitigate it ∥₁ → MayMitigate it }
    ensures row { (it : Held) (row : ℕ) → ∥ HasRow it row ∥₁ → HasRow it row }
{}
