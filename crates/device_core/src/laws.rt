//! What every list of legal commands keeps beside the fourteen rules, and what a reading finds. Each function does nothing:
//! its contract is the law.
ghost use Rattle.std.specs.Prelude.{ℕ, ◌≡◌, ◌<◌, ◌≤◌, List, Some};
ghost use Rattle.error_scrub.specs.Changes.{Change};
ghost use Rattle.error_scrub.specs.Reading.{IsGood};
ghost use Rattle.error_scrub.specs.Tame.{AreGiven, IsTame, last_written};
ghost use Rattle.device_core.specs.Legal.{AllLegal};
ghost use Rattle.device_core.specs.Stored.{reading};
ghost use Rattle.speed_bin.specs.Counts.{peak};
ghost use Rattle.speed_bin.specs.Header.{IsAccepted, bound};
ghost use Rattle.speed_bin.specs.Log.{Log, open_at};
ghost use Rattle.speed_bin.specs.declared.header.Header.{Header};

/// Each open row is one of the header's: it is below the header's number of rows.
pub fn open_rows_are_inside()
    ensures inside { (h : Header) (b row : ℕ) (log : Log) → IsAccepted h → AllLegal h log → b < 32 → open_at b log ≡ Some row
        → row < h.settings.rows }
{}

/// No row had more activations since its last mitigation than the bound, which is `ATH + h + A - 1` for a cycle of A
/// activations.
pub fn peak_is_bounded()
    ensures bounded { (h : Header) (log : Log) → IsAccepted h → AllLegal h log → peak h log ≤ bound h }
{}

/// Where each word of a line took at most one turned bit between two neighbouring rewrites since the line's last write, and
/// at most one after the last, a reading of the line has the bytes of that write, or 64 zero bytes where there is none, and
/// is not lost.
pub fn reads_last_write()
    ensures bytes { (changes : List Change) (line : ℕ) → AreGiven changes → IsTame changes line
        → (reading changes line).bytes ≡ last_written changes line }
    ensures state { (changes : List Change) (line : ℕ) → AreGiven changes → IsTame changes line
        → IsGood (reading changes line).state }
{
    ondie_ecc::laws::codeword_is_clean();
    ondie_ecc::laws::one_turn_is_undone();
}
