//! What a command reads, and what it does to the stored lines.
ghost use Rattle.std.specs.Prelude.{◌≡◌, ◌<◌, List, OnErr, OnOk, IfOk, IsTrue, Some, is_some};
ghost use Rattle.command_words.specs.Command.{bank_number};
ghost use Rattle.command_words.specs.Kinds.{is_wr};
ghost use Rattle.command_words.specs.declared.command.Command.TheVariants.{Wr as AnyWr};
ghost use Rattle.speed_bin.specs.Header.{shape_of};
ghost use Rattle.speed_bin.specs.Log.{open_at};
ghost use Rattle.speed_bin.specs.declared.header.Header.{Header as AnyHeader};
ghost use Rattle.device_core.specs.Access.{AreOf, AreOfSome, MayAccess};
ghost use Rattle.device_core.specs.Standing.{IsGiven, with_command, lent};
ghost use Rattle.device_core.specs.Steps.{Step, log_of};
ghost use Rattle.device_core.specs.Store.{StandsFor as StoreFor, IsUnchanged as StoreUnchanged};
ghost use Rattle.device_core.specs.Stored.{also, answer, change_of, changes_of, visits, line_at, reading};

use crate::activations::Activations;
use crate::store::Store;
use command_words::{Bank, Column, Command};
use ddr_io::OutOfMemory;
use error_scrub::LineRead;

// What the command reads, and what it does to the stored lines. The open rows are those before it.
pub(crate) fn access(
    rows: &Activations,
    store: &mut Store,
    clock: u64,
    command: &Command,
    bytes: Option<&[u8; 64]>,
) -> Result<Option<LineRead>, OutOfMemory>
    requires { MayAccess rows.now store.old clock command.now (lent bytes) }
    ensures store { OnOk result ((h : AnyHeader) (steps : List Step) → AreOf rows.now store.old h steps
        → IsGiven h clock command.now (lent bytes.entry) steps
        → StoreFor store.new (shape_of h) (changes_of h (with_command clock command.now (lent bytes.entry) steps))
        (visits h (with_command clock command.now (lent bytes.entry) steps))) }
    ensures line { IfOk result (λ line. (h : AnyHeader) (steps : List Step) → AreOf rows.now store.old h steps
        → IsGiven h clock command.now (lent bytes.entry) steps → line ≡ answer h command.now steps) }
    ensures unchanged { OnErr result (StoreUnchanged store.old store.new) }
    ensures only_writes { OnErr result (IsTrue (is_wr command.now)) }
{
    match command {
        Command::Rd(bank, column) => Ok(read(rows, store, bank, *column)),
        Command::Wr(bank, column) => {
            write(rows, store, bank, *column, bytes)?;
            Ok(None)
        }
        Command::Ecs => {
            store.scrub();
            Ok(None)
        }
        Command::Act(..)
        | Command::PrePb(_)
        | Command::PreSb(_)
        | Command::PreAb
        | Command::RefAb
        | Command::RefSb(_)
        | Command::RfmAb
        | Command::RfmSb(_)
        | Command::Mrw(_)
        | Command::Nop => Ok(None),
    }
}

// What a reading of the column in the open row of the bank finds.
fn read(rows: &Activations, store: &Store, bank: &Bank, column: Column) -> Option<LineRead>
    requires bank { bank_number bank.now < 32 }
    requires are { AreOfSome rows.now store.now }
    ensures { (h : AnyHeader) (steps : List Step) → AreOf rows.now store.now h steps
        → IsTrue (is_some (open_at (bank_number bank.now) (log_of steps)))
        → result ≡ Some (reading (changes_of h steps) (line_at h bank.now column (log_of steps))) }
{
    match rows.place(bank, column) {
        Some(place) => Some(store.read(place)),
        // A legal RD has an open row.
        None => None,
    }
}

// The column in the open row of the bank becomes these bytes.
fn write(
    rows: &Activations,
    store: &mut Store,
    bank: &Bank,
    column: Column,
    bytes: Option<&[u8; 64]>,
) -> Result<(), OutOfMemory>
    requires bank { bank_number bank.now < 32 }
    requires are { AreOfSome rows.now store.old }
    ensures stands { OnOk result ((h : AnyHeader) (steps : List Step) → AreOf rows.now store.old h steps
        → IsTrue (is_some (open_at (bank_number bank.now) (log_of steps))) → IsTrue (is_some (lent bytes.entry))
        → StoreFor store.new (shape_of h)
        (also (change_of h (AnyWr bank.now column) (lent bytes.entry) (log_of steps)) (changes_of h steps)) (visits h steps)) }
    ensures unchanged { OnErr result (StoreUnchanged store.old store.new) }
{
    match (rows.place(bank, column), bytes) {
        (Some(place), Some(bytes)) => store.write(place, bytes),
        // A legal WR has an open row and its bytes.
        (Some(_), None) => Ok(()),
        (None, _) => Ok(()),
    }
}
