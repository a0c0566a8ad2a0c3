//! What holds of every script that is run on five devices of which one is dead, whoever made it. Each function does nothing: its
//! contract is the law.
ghost use Rattle.std.specs.Prelude.{ℕ, ◌≡◌, ◌<◌, List};
ghost use Rattle.device_core.specs.Steps.{Step, log_of};
ghost use Rattle.device_core.specs.Stored.{changes_of, reading};
ghost use Rattle.error_scrub.specs.Changes.{Change};
ghost use Rattle.error_scrub.specs.Reading.{IsGood};
ghost use Rattle.error_scrub.specs.Tame.{AreGiven, last_written};
ghost use Rattle.speed_bin.specs.declared.header.Header.{Header};
ghost use Rattle.spare_device.specs.Promises.{ReadsWell};
ghost use Rattle.spare_device.specs.Spare.{IsTameBut, spare_reading};
ghost use Rattle.spare_device.specs.StandIn.{restored, stood_changes, stood_steps};

/// Where each live device took at most one turned bit between two neighbouring rewrites of a line since its last write, and at
/// most one after the last, a reading has the bytes of that write, or 64 zero bytes where there is none, and is not lost,
/// whatever was turned in the dead device.
pub fn reads_without_one()
    ensures bytes { (dead : ℕ) (changes : List Change) (line : ℕ) → AreGiven changes → IsTameBut dead changes line
        → (spare_reading dead changes line).bytes ≡ last_written changes line }
    ensures state { (dead : ℕ) (changes : List Change) (line : ℕ) → AreGiven changes → IsTameBut dead changes line
        → IsGood (spare_reading dead changes line).state }
{
    ondie_ecc::laws::codeword_is_clean();
    ondie_ecc::laws::one_turn_is_undone();
}

/// Four devices in which the spare stands in the place of the dead one show, once their parts are put together again, what a
/// reading of the five finds.
pub fn stands_in()
    ensures shown { (dead : ℕ) (changes : List Change) (line : ℕ) → dead < 5 → AreGiven changes
        → restored dead (reading (stood_changes dead changes) line) ≡ spare_reading dead changes line }
    ensures steps { (dead : ℕ) (h : Header) (steps : List Step) → changes_of h (stood_steps dead steps) ≡ stood_changes dead (changes_of h steps) }
    ensures log { (dead : ℕ) (steps : List Step) → log_of (stood_steps dead steps) ≡ log_of steps }
{}

/// Each RD of a script has its D line, in their order, and each D line whose line took few turned bits in the live devices has
/// the bytes of the line's last WR, or 64 zero bytes where there is none, and is not lost.
pub fn reads_last_write()
    ensures reads { (dead : ℕ) (h : Header) (rest : List ℕ) → ReadsWell dead h rest }
{
    device_exec::laws::reads_are_shown();
    reads_without_one();
}
