//! What holds of every script that is run, whoever made it. Each function does nothing: its contract is the law.
ghost use Rattle.std.specs.Prelude.{ℕ, List};
ghost use Rattle.device_exec.specs.Promises.{AreAnswered, CountNoReads, IsWithinBound, JudgesInOrder, ReadsWell, ShowsReads};
ghost use Rattle.device_exec.specs.Executed.{execution};
ghost use Rattle.device_exec.specs.Scripts.{Devices};
ghost use Rattle.speed_bin.specs.Header.{IsAccepted};
ghost use Rattle.speed_bin.specs.declared.header.Header.{Header};

use crate::script_line::script_lines;

/// Each RD has its D line, in their order. Where each word of its line took at most one turned bit between two neighbouring
/// rewrites since the line's last WR, and at most one after the last, the D line has the bytes of that WR, or 64 zero bytes
/// where there is none, and is not lost.
pub fn reads_last_write()
    ensures reads { (h : Header) (rest : List ℕ) → ReadsWell h rest }
{
    script_lines();
    device_core::laws::reads_last_write();
}

/// No row of the device has more activations since its last mitigation than the bound.
pub fn bounds_activations()
    ensures bounded { (h : Header) (rest : List ℕ) → IsAccepted h → IsWithinBound h rest }
{
    script_lines();
    device_core::laws::peak_is_bounded();
}

/// The lines are judged in their order, by their grammar and by the rules alone, whatever the devices are.
pub fn judges_in_order()
    ensures judged { (d : Devices) (h : Header) (rest : List ℕ) → JudgesInOrder d h rest }
{}

/// Whatever the devices are, each RD has its D line, in their order, where their counts have none; and before each RD they
/// were given 64 bytes with each WR, and bits of codewords were turned alone.
pub fn reads_are_shown()
    ensures shown { (d : Devices) (h : Header) (rest : List ℕ) → CountNoReads d → ShowsReads d h rest }
    ensures given { (d : Devices) (h : Header) (rest : List ℕ) → AreAnswered h (execution d h rest).reads }
{
    script_lines();
}
