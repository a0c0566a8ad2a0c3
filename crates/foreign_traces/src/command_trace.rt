//! Reading the lines of a command trace.
ghost use Rattle.std.specs.Prelude.{◌≡◌, ◌<◌, IfOk};
ghost use Rattle.command_words.specs.Command.{IsBank};
ghost use Rattle.foreign_traces.specs.Lines.{IsEntryOf};
ghost use Rattle.foreign_traces.specs.Said.{IsBankAt, IsEntrySaid};

use crate::address::{
    At, bank_at, column_at, decimal_level, either_level, group_at, is_only, row_at,
};
use crate::fields::{Between, Fields, is_note};
use crate::names::{Name, dramsim3_name, ramulator2_name};
use crate::numbers::decimal;
use crate::{CommandFault, CommandField, Lacking};
use command_words::{Bank, BankAddr, Column, Command, Geometry, Row};

/// A simulator whose command traces are read.
#[derive(Clone, Copy, Debug, PartialEq, Eq)]
pub enum Tool {
    /// Ramulator 2: `clock, NAME, channel, rank, group, bank, row, column`, as its recorder writes it.
    Ramulator2,
    /// DRAMsim3: the same fields with white space between them; row and column in hexadecimal digits behind `0x`.
    Dramsim3,
}

/// What a line of a command trace says.
#[derive(Clone, Copy, Debug, PartialEq, Eq)]
pub enum Entry {
    /// A command, at a clock of the trace.
    Issued(u64, Command),
    /// A command that this model lacks.
    Lacking(Lacking),
    /// Nothing: the line is empty, or a note behind `#`.
    Nothing,
}

// The levels of an address behind channel and rank.
#[derive(Clone, Copy, Debug, PartialEq, Eq)]
struct Target {
    group: At,
    bank: At,
    row: At,
    column: At,
}

/// Reads a line of a tool's command trace, without its line feed. Only what the command speaks of is looked at in its
/// address, but each field has to be there.
///
/// # Errors
/// The first field that is missing or not what is expected there.
pub fn read_command_line(tool: Tool, g: Geometry, line: &[u8]) -> Result<Entry, CommandFault>
    ensures { IfOk result (IsEntryOf g) }
{
    if is_note(line) {
        return Ok(Entry::Nothing);
    }
    let mut fields = Fields::of(line, between(tool));
    let clock = read_clock(&mut fields)?;
    let name = read_name(tool, &mut fields)?;
    read_only(&mut fields, CommandField::Channel)?;
    read_only(&mut fields, CommandField::Rank)?;
    let target = read_target(tool, &mut fields)?;
    if !fields.has_ended() {
        return Err(CommandFault::Expected(CommandField::End));
    }
    entry_of(clock, name, target, g)
}

// What the name and the target say.
fn entry_of(clock: u64, name: Name, target: Target, g: Geometry) -> Result<Entry, CommandFault>
    ensures inside { IfOk result (IsEntryOf g) }
    ensures said { IfOk result (IsEntrySaid clock name target) }
{
    match name {
        Name::Lacking(lacking) => Ok(Entry::Lacking(lacking)),
        Name::Act => {
            let bank = bank_of(target, g)?;
            Ok(Entry::Issued(clock, Command::Act(bank, row_of(target, g)?)))
        }
        Name::Rd => {
            let bank = bank_of(target, g)?;
            Ok(Entry::Issued(clock, Command::Rd(bank, column_of(target)?)))
        }
        Name::Wr => {
            let bank = bank_of(target, g)?;
            Ok(Entry::Issued(clock, Command::Wr(bank, column_of(target)?)))
        }
        Name::PrePb => Ok(Entry::Issued(clock, Command::PrePb(bank_of(target, g)?))),
        Name::PreSb => Ok(Entry::Issued(clock, Command::PreSb(address_of(target)?))),
        Name::RefSb => Ok(Entry::Issued(clock, Command::RefSb(address_of(target)?))),
        Name::RfmSb => Ok(Entry::Issued(clock, Command::RfmSb(address_of(target)?))),
        Name::PreAb => Ok(Entry::Issued(clock, Command::PreAb)),
        Name::RefAb => Ok(Entry::Issued(clock, Command::RefAb)),
        Name::RfmAb => Ok(Entry::Issued(clock, Command::RfmAb)),
    }
}

// What stands between the fields of a tool.
fn between(tool: Tool) -> Between {
    match tool {
        Tool::Ramulator2 => Between::Comma,
        Tool::Dramsim3 => Between::Blank,
    }
}

fn read_clock(fields: &mut Fields<'_>) -> Result<u64, CommandFault> {
    let wanted = CommandFault::Expected(CommandField::Clock);
    match fields.next_field() {
        Some(field) => decimal(field).ok_or(wanted),
        None => Err(wanted),
    }
}

fn read_name(tool: Tool, fields: &mut Fields<'_>) -> Result<Name, CommandFault> {
    let wanted = CommandFault::Expected(CommandField::Command);
    match fields.next_field() {
        Some(field) => match str::from_utf8(field) {
            Ok(name) => named(tool, name).ok_or(wanted),
            Err(_) => Err(wanted),
        },
        None => Err(wanted),
    }
}

// What a name of the tool says.
fn named(tool: Tool, name: &str) -> Option<Name> {
    match tool {
        Tool::Ramulator2 => ramulator2_name(name),
        Tool::Dramsim3 => dramsim3_name(name),
    }
}

// Reads the number of a channel or of a rank, which can be only 0.
fn read_only(fields: &mut Fields<'_>, field: CommandField) -> Result<(), CommandFault> {
    match fields.next_field().and_then(decimal_level) {
        Some(at) if is_only(at) => Ok(()),
        _ => Err(CommandFault::Expected(field)),
    }
}

fn read_target(tool: Tool, fields: &mut Fields<'_>) -> Result<Target, CommandFault> {
    let group = read_level(fields, CommandField::Group)?;
    let bank = read_level(fields, CommandField::Bank)?;
    let row = read_cell(tool, fields, CommandField::Row)?;
    let column = read_cell(tool, fields, CommandField::Column)?;
    Ok(Target {
        group,
        bank,
        row,
        column,
    })
}

// Reads a bank group or a bank address.
fn read_level(fields: &mut Fields<'_>, field: CommandField) -> Result<At, CommandFault> {
    fields
        .next_field()
        .and_then(decimal_level)
        .ok_or(CommandFault::Expected(field))
}

// Reads a row or a column.
fn read_cell(tool: Tool, fields: &mut Fields<'_>, field: CommandField) -> Result<At, CommandFault> {
    match tool {
        Tool::Ramulator2 => read_level(fields, field),
        Tool::Dramsim3 => fields
            .next_field()
            .and_then(either_level)
            .ok_or(CommandFault::Expected(field)),
    }
}

fn bank_of(target: Target, g: Geometry) -> Result<Bank, CommandFault>
    ensures said { IfOk result (IsBankAt target) }
    ensures bank { IfOk result IsBank }
    ensures inside { IfOk result (λ bank. bank.group < g.groups) }
{
    match group_at(target.group, g) {
        Some(group) => Ok(Bank {
            group,
            address: address_of(target)?,
        }),
        None => Err(CommandFault::Expected(CommandField::Group)),
    }
}

fn address_of(target: Target) -> Result<BankAddr, CommandFault>
    ensures said { IfOk result (λ address. target.bank ≡ At.Number address) }
    ensures inside { IfOk result (λ address. address < 4) }
{
    match bank_at(target.bank) {
        Some(address) => Ok(address),
        None => Err(CommandFault::Expected(CommandField::Bank)),
    }
}

fn row_of(target: Target, g: Geometry) -> Result<Row, CommandFault>
    ensures said { IfOk result (λ row. target.row ≡ At.Number row) }
    ensures inside { IfOk result (λ row. row < g.rows) }
{
    match row_at(target.row, g) {
        Some(row) => Ok(row),
        None => Err(CommandFault::Expected(CommandField::Row)),
    }
}

fn column_of(target: Target) -> Result<Column, CommandFault>
    ensures said { IfOk result (λ column. target.column ≡ At.Number column) }
    ensures inside { IfOk result (λ column. column < 64) }
{
    match column_at(target.column) {
        Some(column) => Ok(column),
        None => Err(CommandFault::Expected(CommandField::Column)),
    }
}
