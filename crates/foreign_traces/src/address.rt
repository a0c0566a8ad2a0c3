//! Where a command or a request goes, by the levels of the other tools.
ghost use Rattle.std.specs.Prelude.{◌≡◌, ◌<◌, IfSome};
ghost use Rattle.command_words.specs.Geometry.{lines_of};
ghost use Rattle.command_words.specs.Place.{line_of};

use crate::numbers::{decimal, either};
use command_words::{Bank, BankAddr, Column, Geometry, Group, LineAddr, Place, Row, unmap};

/// What stands at a level of an address.
#[derive(Clone, Copy, Debug, PartialEq, Eq)]
pub(crate) enum At {
    Number(u64),
    /// -1: the command does not speak of this level.
    Unmeant,
}

/// What a decimal field says of a level.
pub(crate) fn decimal_level(field: &[u8]) -> Option<At> {
    match field {
        b"-1" => Some(At::Unmeant),
        _ => decimal(field).map(At::Number),
    }
}

/// What a field says of a level, in decimal digits or in hexadecimal ones behind `0x`.
pub(crate) fn either_level(field: &[u8]) -> Option<At> {
    match field {
        b"-0x1" => Some(At::Unmeant),
        b"-1" => Some(At::Unmeant),
        _ => either(field).map(At::Number),
    }
}

/// Whether the one channel or the one rank of a report is meant, or none.
pub(crate) fn is_only(at: At) -> bool {
    match at {
        At::Number(number) => number == 0,
        At::Unmeant => true,
    }
}

/// The bank group, where the geometry has it.
pub(crate) fn group_at(at: At, g: Geometry) -> Option<Group>
    ensures inside { IfSome result (λ group. group < g.groups) }
    ensures value { IfSome result (λ group. at ≡ At.Number group) }
{
    match at {
        At::Number(number) => group_numbered(number, g),
        At::Unmeant => None,
    }
}

/// The bank group with this number, where the geometry has it.
pub(crate) fn group_numbered(number: u64, g: Geometry) -> Option<Group>
    ensures inside { IfSome result (λ group. group < g.groups) }
    ensures value { IfSome result (λ group. group ≡ number) }
{
    if number < u64::from(g.groups()) {
        Group::new(number as u8)
    } else {
        None
    }
}

/// The bank address.
pub(crate) fn bank_at(at: At) -> Option<BankAddr>
    ensures value { IfSome result (λ address. at ≡ At.Number address) }
    ensures inside { IfSome result (λ address. address < 4) }
{
    match at {
        At::Number(number) => bank_numbered(number),
        At::Unmeant => None,
    }
}

/// The bank address with this number.
pub(crate) fn bank_numbered(number: u64) -> Option<BankAddr>
    ensures value { IfSome result (λ address. address ≡ number) }
    ensures inside { IfSome result (λ address. address < 4) }
{
    if number < 4 {
        BankAddr::new(number as u8)
    } else {
        None
    }
}

/// The row, where the geometry has it.
pub(crate) fn row_at(at: At, g: Geometry) -> Option<Row>
    ensures inside { IfSome result (λ row. row < g.rows) }
    ensures value { IfSome result (λ row. at ≡ At.Number row) }
{
    match at {
        At::Number(number) => row_numbered(number, g),
        At::Unmeant => None,
    }
}

/// The row with this number, where the geometry has it.
pub(crate) fn row_numbered(number: u64, g: Geometry) -> Option<Row>
    ensures inside { IfSome result (λ row. row < g.rows) }
    ensures value { IfSome result (λ row. row ≡ number) }
{
    if number < u64::from(g.rows()) {
        Row::new(number as u32)
    } else {
        None
    }
}

/// The column, in bursts.
pub(crate) fn column_at(at: At) -> Option<Column>
    ensures value { IfSome result (λ column. at ≡ At.Number column) }
    ensures inside { IfSome result (λ column. column < 64) }
{
    match at {
        At::Number(number) => column_numbered(number),
        At::Unmeant => None,
    }
}

/// The column with this number.
pub(crate) fn column_numbered(number: u64) -> Option<Column>
    ensures value { IfSome result (λ column. column ≡ number) }
    ensures inside { IfSome result (λ column. column < 64) }
{
    if number < 64 {
        Column::new(number as u8)
    } else {
        None
    }
}

/// The line at a place of the geometry.
pub(crate) fn place_at(
    group: Group,
    address: BankAddr,
    row: Row,
    column: Column,
    g: Geometry,
) -> LineAddr
    requires group { group < g.groups }
    requires row { row < g.rows }
    ensures line { result ≡ line_of (record { bank = record { group = group; address = address }; row = row; column = column }) g }
    ensures inside { result < lines_of g }
{
    let bank = Bank { group, address };
    unmap(Place { bank, row, column }, g)
}
