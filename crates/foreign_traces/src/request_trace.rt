//! Reading the lines of a request trace.
ghost use Rattle.std.specs.Prelude.{◌≡◌, ◌<◌, IfOk, IfSome};
ghost use Rattle.command_words.specs.Geometry.{lines_of};
ghost use Rattle.foreign_traces.specs.Formats.{shape_in};

use crate::address::{bank_at, column_at, decimal_level, group_at, is_only, place_at, row_at};
use crate::fields::{Between, Fields, is_note};
use crate::numbers::{decimal, either, hexadecimal};
use crate::writes::{load_or_store, read_or_write, transaction};
use crate::{Mapping, RequestFault, RequestField};
use command_words::{Geometry, Group, LineAddr, Row};

/// A format of request traces, with what its places or its byte addresses mean.
#[derive(Clone, Copy, Debug, PartialEq, Eq)]
pub enum RequestFormat {
    /// Ramulator 2's `ReadWriteTrace`: `R` or `W`, and channel, rank, group, bank, row and column with commas between them.
    ReadWrite(Geometry),
    /// Ramulator 2's `LoadStoreTrace`: `LD` or `ST`, and a byte address.
    LoadStore(Mapping),
    /// DRAMsim3's: a byte address in hexadecimal digits behind `0x`, a word, and a clock.
    Dramsim3(Mapping),
}

/// A request of a trace.
#[derive(Clone, Copy, Debug, PartialEq, Eq)]
pub struct Request {
    pub line: LineAddr,
    pub is_write: bool,
}

/// Reads a line of a request trace, without its line feed. `Ok(None)` is a line that says nothing: it is empty, or a note
/// behind `#`. The clock of a request is looked at and forgotten, since a job has none.
///
/// # Errors
/// The first field that is missing or not what is expected there.
pub fn read_request_line(
    format: &RequestFormat,
    line: &[u8],
) -> Result<Option<Request>, RequestFault>
    ensures { IfOk result (λ asked. IfSome asked (λ it. it.line < lines_of (shape_in format.now))) }
{
    if is_note(line) {
        return Ok(None);
    }
    let request = request_in(format, Fields::of(line, Between::Blank))?;
    Ok(Some(request))
}

// The request of a line's fields.
fn request_in(format: &RequestFormat, fields: Fields<'_>) -> Result<Request, RequestFault>
    ensures { IfOk result (λ it. it.line < lines_of (shape_in format.now)) }
{
    match format {
        RequestFormat::ReadWrite(g) => read_write_request(fields, *g),
        RequestFormat::LoadStore(mapping) => load_store_request(fields, mapping),
        RequestFormat::Dramsim3(mapping) => dramsim3_request(fields, mapping),
    }
}

fn expected(number: u8, expected: RequestField) -> RequestFault
    ensures { result ≡ record { number = number; expected = expected } }
{
    RequestFault { number, expected }
}

// `LD` or `ST`, and an address.
fn load_store_request(mut fields: Fields<'_>, mapping: &Mapping) -> Result<Request, RequestFault>
    ensures { IfOk result (λ it. it.line < lines_of mapping.now.geometry) }
{
    let is_write = fields
        .next_field()
        .and_then(load_or_store)
        .ok_or(expected(1, RequestField::LoadOrStore))?;
    let Some(line) = line_at(fields.next_field().and_then(either), mapping) else {
        return Err(expected(2, RequestField::Address));
    };
    ended(&fields, 3)?;
    Ok(Request { line, is_write })
}

// The line at an address, where there is one.
fn line_at(address: Option<u64>, mapping: &Mapping) -> Option<LineAddr>
    ensures { IfSome result (λ line. line < lines_of mapping.now.geometry) }
{
    match address {
        Some(address) => mapping.line_of(address),
        None => None,
    }
}

// An address, a word and a clock.
fn dramsim3_request(mut fields: Fields<'_>, mapping: &Mapping) -> Result<Request, RequestFault>
    ensures { IfOk result (λ it. it.line < lines_of mapping.now.geometry) }
{
    let Some(line) = line_at(fields.next_field().and_then(hexadecimal), mapping) else {
        return Err(expected(1, RequestField::Address));
    };
    let is_write = fields
        .next_field()
        .and_then(transaction)
        .ok_or(expected(2, RequestField::Transaction))?;
    if fields.next_field().and_then(decimal).is_none() {
        return Err(expected(3, RequestField::Clock));
    }
    ended(&fields, 4)?;
    Ok(Request { line, is_write })
}

// `R` or `W`, and the numbers of the levels.
fn read_write_request(mut fields: Fields<'_>, g: Geometry) -> Result<Request, RequestFault>
    ensures { IfOk result (λ it. it.line < lines_of g) }
{
    let is_write = fields
        .next_field()
        .and_then(read_or_write)
        .ok_or(expected(1, RequestField::ReadOrWrite))?;
    let mut levels = fields.behind(Between::Comma);
    if !is_only_field(levels.next_field()) {
        return Err(expected(2, RequestField::Channel));
    }
    if !is_only_field(levels.next_field()) {
        return Err(expected(3, RequestField::Rank));
    }
    let line = read_place(&mut levels, g)?;
    ended(&levels, 8)?;
    Ok(Request { line, is_write })
}

// Whether the field names the one channel or the one rank.
fn is_only_field(field: Option<&[u8]>) -> bool {
    match field.and_then(decimal_level) {
        Some(at) => is_only(at),
        None => false,
    }
}

// Group, bank, row and column.
fn read_place(levels: &mut Fields<'_>, g: Geometry) -> Result<LineAddr, RequestFault>
    ensures { IfOk result (λ line. line < lines_of g) }
{
    let Some(group) = group_of(levels.next_field(), g) else {
        return Err(expected(4, RequestField::Group));
    };
    let address = levels
        .next_field()
        .and_then(decimal_level)
        .and_then(bank_at)
        .ok_or(expected(5, RequestField::Bank))?;
    let Some(row) = row_of(levels.next_field(), g) else {
        return Err(expected(6, RequestField::Row));
    };
    let column = levels
        .next_field()
        .and_then(decimal_level)
        .and_then(column_at)
        .ok_or(expected(7, RequestField::Column))?;
    Ok(place_at(group, address, row, column, g))
}

// The bank group that a field names.
fn group_of(field: Option<&[u8]>, g: Geometry) -> Option<Group>
    ensures inside { IfSome result (λ group. group < g.groups) }
{
    match field.and_then(decimal_level) {
        Some(at) => group_at(at, g),
        None => None,
    }
}

// The row that a field names.
fn row_of(field: Option<&[u8]>, g: Geometry) -> Option<Row>
    ensures inside { IfSome result (λ row. row < g.rows) }
{
    match field.and_then(decimal_level) {
        Some(at) => row_at(at, g),
        None => None,
    }
}

// No field is left.
fn ended(fields: &Fields<'_>, number: u8) -> Result<(), RequestFault> {
    if fields.has_ended() {
        Ok(())
    } else {
        Err(expected(number, RequestField::End))
    }
}
