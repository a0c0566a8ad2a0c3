//! The rules that do not speak of the clock, each by its number where it fails.
ghost use Rattle.std.specs.Prelude.{◌≡◌, ◌∷◌, [], min, length, slice_get};
ghost use Rattle.backoff.specs.Standing.{StandsFor as AlertFor};
ghost use Rattle.bank_state.specs.Standing.{StandsFor as BanksFor};
ghost use Rattle.rfm_counts.specs.Standing.{StandsFor as RaaFor};
ghost use Rattle.speed_bin.specs.Log.{Log};
ghost use Rattle.speed_bin.specs.Registers.{register_writes};
ghost use Rattle.speed_bin.specs.Rules.{first_failing, is_write, rule_11, rule_14};
ghost use Rattle.speed_bin.specs.declared.header.Header.{Header as AnyHeader};
ghost use Rattle.legality.specs.Standing.{bank_rules, write_of as write_in};

use arrayvec::ArrayVec;
use backoff::Alert;
use bank_state::{Banks, StateFault};
use command_words::{Command, Mrw};
use rfm_counts::Raa;

// Rules 4 and 5: open banks.
pub(crate) fn bank_rule(banks: &Banks, command: &Command) -> Option<u8>
    ensures { (log : Log) → BanksFor banks.now log → result ≡ first_failing 4 (bank_rules command.now log) }
{
    match banks.fits(command) {
        Ok(()) => None,
        Err(StateFault::IsOpen) => Some(4),
        Err(StateFault::IsClosed) => Some(4),
        Err(StateFault::NotAllClosed) => Some(5),
    }
}

// Rule 11: an RFMab needs a bank at RAAIMT or more, or a raised alert.
pub(crate) fn management_rule(raa: &Raa, alert: &Alert, command: &Command) -> Option<u8>
    ensures { (h : AnyHeader) (log : Log) → RaaFor raa.now h log → AlertFor alert.now h log
        → result ≡ first_failing 11 (rule_11 h command.now log ∷ []) }
{
    let holds = !command.is_rfm_all() || raa.wanted().is_some() || alert.raised().is_some();
    failing(holds, 11)
}

// Rule 14: the register writes come first, and no other.
pub(crate) fn write_rule(writes: &ArrayVec<Mrw, 8>, places: usize, command: &Command) -> Option<u8>
    ensures { (h : AnyHeader) (log : Log) → writes.now.items ≡ register_writes h.settings → places ≡ min 8 (length log)
        → result ≡ first_failing 14 (rule_14 h command.now log ∷ []) }
{
    let holds = match write_of(command) {
        Some(write) => is_due(writes, places, write),
        None => 8 <= places,
    };
    failing(holds, 14)
}

// Whether the write is the one that is due.
fn is_due(writes: &ArrayVec<Mrw, 8>, places: usize, write: Mrw) -> bool
    ensures { result ≡ is_write write (slice_get writes.now.items places) }
{
    match writes.get(places) {
        Some(due) => write.address == due.address && write.value == due.value,
        None => false,
    }
}

// The register write that the command is, if it is one.
fn write_of(command: &Command) -> Option<Mrw>
    ensures { result ≡ write_in command.now }
{
    match command {
        Command::Mrw(write) => Some(*write),
        _ => None,
    }
}

// The number of a rule that does not hold.
fn failing(holds: bool, rule: u8) -> Option<u8>
    ensures { result ≡ first_failing rule (holds ∷ []) }
{
    if holds { None } else { Some(rule) }
}
