//! The fields of a line, which stand between single spaces, and what a field spells.
ghost use Rattle.std.specs.Prelude.{◌≡◌, ◌<◌, ◌^◌, ◌∷◌, length, position, IfSome, Ok, option_copied};
ghost use Rattle.command_words.specs.Geometry.{lines_of};
ghost use Rattle.ddr_text.specs.Grammar.{is_space, fields_of, one_field, two_fields, three_fields, four_fields, number_of, below, bytes_of};
ghost use Rattle.ddr_text.specs.ReportGrammar.{optional_field, command_fields};
ghost use Rattle.ddr_text.specs.Fields.{seen_four, seen_optional, seen_command, fields_after, value_of, with_digit, seen_one, seen_two, seen_three};

use crate::LineFault;
use crate::byte_digits::bytes_at_once;
use command_words::{Geometry, LineAddr};
use hex::FromHex;
use memchr::memchr;

// From so many bytes on a text is searched many bytes at a time.
const FAR: usize = 64;

/// The first field of a text, and what follows its space, where there is one.
pub fn cut(text: &[u8]) -> (&[u8], Option<&[u8]>)
    ensures { fields_of text.now ≡ result.0.now ∷ fields_after (option_copied result.1) }
{
    match first_space(text) {
        Some(at) => (&text[..at], Some(&text[at + 1..])),
        None => (text, None),
    }
}

// The place of the first space.
fn first_space(text: &[u8]) -> Option<usize>
    ensures first { result ≡ position is_space text.now }
    ensures within { IfSome result (λ at. at < length text.now) }
{
    if text.len() < FAR {
        text.iter().position(|byte| *byte == b' ')
    } else {
        far_space(text)
    }
}

// The same, many bytes at a time: behind 64 bytes in digits it stands far off.
fn far_space(text: &[u8]) -> Option<usize>
    ensures first { result ≡ position is_space text.now }
    ensures within { IfSome result (λ at. at < length text.now) }
{
    memchr(b' ', text)
}

/// The one field that is left.
///
/// # Errors
/// `LineFault::Fields` for none, or for more than one.
pub fn one_field(rest: Option<&[u8]>) -> Result<&[u8], LineFault>
    ensures { seen_one result ≡ one_field (fields_after (option_copied rest.entry)) }
{
    let Some(text) = rest else {
        return Err(LineFault::Fields);
    };
    let (first, rest) = cut(text);
    match rest {
        None => Ok(first),
        Some(_) => Err(LineFault::Fields),
    }
}

/// The two fields that are left.
pub(crate) fn two_fields(rest: Option<&[u8]>) -> Result<(&[u8], &[u8]), LineFault>
    ensures { seen_two result ≡ two_fields (fields_after (option_copied rest.entry)) }
{
    let (first, rest) = cut(rest.ok_or(LineFault::Fields)?);
    let second = one_field(rest)?;
    Ok((first, second))
}

/// The three fields that are left.
///
/// # Errors
/// `LineFault::Fields` for any other number of fields.
pub fn three_fields(rest: Option<&[u8]>) -> Result<(&[u8], &[u8], &[u8]), LineFault>
    ensures { seen_three result ≡ three_fields (fields_after (option_copied rest.entry)) }
{
    let (first, rest) = cut(rest.ok_or(LineFault::Fields)?);
    let (second, third) = two_fields(rest)?;
    Ok((first, second, third))
}

/// The four fields that are left.
pub(crate) fn four_fields(rest: Option<&[u8]>) -> Result<(&[u8], &[u8], &[u8], &[u8]), LineFault>
    ensures { seen_four result ≡ four_fields (fields_after (option_copied rest.entry)) }
{
    let Some(text) = rest else {
        return Err(LineFault::Fields);
    };
    let (first, rest) = cut(text);
    let (second, third, fourth) = three_fields(rest)?;
    Ok((first, second, third, fourth))
}

/// The one field that is left, or none.
fn optional_field(rest: Option<&[u8]>) -> Result<Option<&[u8]>, LineFault>
    ensures { seen_optional result ≡ optional_field (fields_after (option_copied rest.entry)) }
{
    let Some(text) = rest else {
        return Ok(None);
    };
    let (first, rest) = cut(text);
    match rest {
        None => Ok(Some(first)),
        Some(_) => Err(LineFault::Fields),
    }
}

/// The three fields that are left, or two.
pub(crate) fn command_fields(
    rest: Option<&[u8]>,
) -> Result<(&[u8], &[u8], Option<&[u8]>), LineFault>
    ensures { seen_command result ≡ command_fields (fields_after (option_copied rest.entry)) }
{
    let Some(text) = rest else {
        return Err(LineFault::Fields);
    };
    let (clock, rest) = cut(text);
    let Some(text) = rest else {
        return Err(LineFault::Fields);
    };
    let (first, rest) = cut(text);
    let second = optional_field(rest)?;
    Ok((clock, first, second))
}

/// The number that a field spells: decimal digits, without a leading zero but in `0` itself, at most 2^64 - 1.
///
/// # Errors
/// `LineFault::Number` for every other field.
#[tactic(auto, unfolding(crate::specs::Grammar::number_of))]
pub fn number_of(field: &[u8]) -> Result<u64, LineFault>
    ensures { result ≡ number_of field.now }
{
    match field {
        [] | [b'0', _, ..] => Err(LineFault::Number),
        _ => value_of(field).ok_or(LineFault::Number),
    }
}

// The value of decimal digits, where it is below 2^64.
fn value_of(digits: &[u8]) -> Option<u64>
    ensures { result ≡ value_of digits.now }
{
    let mut value: u64 = 0;
    for digit in digits {
        match with_digit(value, *digit) {
            Some(more) => value = more,
            None => return None,
        }
    }
    Some(value)
}

// The value with one digit more, where it is one and the value stays below 2^64.
fn with_digit(value: u64, digit: u8) -> Option<u64>
    ensures value { result ≡ with_digit value digit }
    ensures fits { IfSome result (λ more. more < 2 ^ 64) }
{
    if digit.is_ascii_digit() {
        value.checked_mul(10)?.checked_add(u64::from(digit - b'0'))
    } else {
        None
    }
}

/// The line with this number, where the geometry has one.
///
/// # Errors
/// `LineFault::Range` where it has none.
pub fn line_at(number: u64, g: Geometry) -> Result<LineAddr, LineFault>
    ensures { result ≡ below (lines_of g) number }
{
    let lines = g.lines();
    if number < u64::from(lines) {
        LineAddr::new(number as u32, g).ok_or(LineFault::Range)
    } else {
        Err(LineFault::Range)
    }
}

/// A small number, where it is below the limit.
///
/// # Errors
/// `LineFault::Range` where it is not.
pub fn below(limit: u8, number: u64) -> Result<u8, LineFault>
    ensures { result ≡ below limit number }
{
    if number < u64::from(limit) {
        Ok(number as u8)
    } else {
        Err(LineFault::Range)
    }
}

/// The 64 bytes that a field spells.
pub(crate) fn bytes_of(field: &[u8]) -> Result<[u8; 64], LineFault>
    ensures { result ≡ bytes_of field.now }
{
    match at_once(field) {
        Some(bytes) => Ok(bytes),
        None => judged_bytes_of(field),
    }
}

fn at_once(field: &[u8]) -> Option<[u8; 64]>
    ensures { IfSome result (λ bytes. bytes_of field.now ≡ Ok bytes) }
{
    bytes_at_once(field.try_into().ok()?)
}

/// The same digit by digit, up to the first that is none.
#[tactic(auto, unfolding(crate::specs::Grammar::bytes_of))]
pub(crate) fn judged_bytes_of(field: &[u8]) -> Result<[u8; 64], LineFault>
    ensures { result ≡ bytes_of field.now }
{
    <[u8; 64] as FromHex>::from_hex(field).map_err(|_| LineFault::Hex)
}
