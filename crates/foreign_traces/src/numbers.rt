//! The numbers of a trace.
ghost use Rattle.std.specs.Prelude.{◌≡◌, IfSome, drop};
ghost use Rattle.std.specs.Str.Parse.{digits_value, without_leading_plus};

use ddr_text::number_of;

/// The number that `0x` and hexadecimal digits of either case spell, at most 2^64 - 1.
pub fn hexadecimal(field: &[u8]) -> Option<u64>
    ensures value { IfSome result (λ number. number ≡ digits_value 16 (without_leading_plus (drop 2 field.now))) }
{
    match field {
        [b'0', b'x', b'+', ..] => None,
        [b'0', b'x', ..] => hex_value(&field[2..]),
        _ => None,
    }
}

// The number that hexadecimal digits spell.
fn hex_value(digits: &[u8]) -> Option<u64>
    ensures value { IfSome result (λ number. number ≡ digits_value 16 (without_leading_plus digits.now)) }
{
    match str::from_utf8(digits) {
        Ok(text) => u64::from_str_radix(text, 16).ok(),
        Err(_) => None,
    }
}

/// The number that decimal digits spell, without a leading zero but in `0` itself.
pub(crate) fn decimal(field: &[u8]) -> Option<u64> {
    number_of(field).ok()
}

/// What either of both spells.
pub(crate) fn either(field: &[u8]) -> Option<u64> {
    match hexadecimal(field) {
        Some(number) => Some(number),
        None => decimal(field),
    }
}
