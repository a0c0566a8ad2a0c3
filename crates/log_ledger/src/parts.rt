//! The rules of open banks, each by its number.
ghost use Rattle.std.specs.Prelude.{◌≡◌};
ghost use Rattle.bank_state.specs.Standing.{StandsFor as BanksStandFor};
ghost use Rattle.speed_bin.specs.Log.{Log};
ghost use Rattle.speed_bin.specs.Rules.{first_failing};
ghost use Rattle.log_ledger.specs.Standing.{bank_rules};

use bank_state::{Banks, StateFault};
use command_words::Command;

// The least of the rules 4 and 5 that fails: 4 where the one bank of the command is not as it needs it, 5 where some of
// those that it covers is open.
pub(crate) fn bank_rule(banks: &Banks, command: &Command) -> Option<u8>
    ensures { (log : Log) → BanksStandFor banks.now log → result ≡ first_failing 4 (bank_rules command.now log) }
{
    match banks.fits(command) {
        Ok(()) => None,
        Err(StateFault::IsOpen) => Some(4),
        Err(StateFault::IsClosed) => Some(4),
        Err(StateFault::NotAllClosed) => Some(5),
    }
}
