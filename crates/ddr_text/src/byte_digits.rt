//! The digits of 64 bytes at once. No loop here ends before its last digit, so the compiler takes many of them a step.
ghost use Rattle.std.specs.Prelude.{◌≡◌, ◌<◌, ◌+◌, ◌*◌, true, ℕ, IfSome, Ok, Some, slice_index};
ghost use Rattle.std.specs.List.{list_all};
ghost use Rattle.hex.specs.Hex.{encode_lower, hex_digit_value, is_hex_digit, lower_digits};
ghost use Rattle.ddr_text.specs.ByteDigits.{HaveValues, AreLower, ArePairs};
ghost use Rattle.ddr_text.specs.Grammar.{bytes_of};
ghost use Rattle.ddr_text.specs.ReportGrammar.{is_lower_digit, lower_bytes_of};

/// The 128 lower-case digits of 64 bytes, byte 0 first.
pub(crate) fn digits_of(bytes: &[u8; 64]) -> [u8; 128]
    ensures { result ≡ encode_lower bytes.now }
{
    let mut digits = [0u8; 128];
    'bytes: for k in 0..64 {
        digits[2 * k] = digit(bytes[k] / 16);
        digits[2 * k + 1] = digit(bytes[k] % 16);
    }
    digits
}

#[inline(always)]
fn digit(value: u8) -> u8
    requires { value < 16 }
    ensures { result ≡ slice_index lower_digits value }
{
    if value < 10 { 48 + value } else { 87 + value }
}

/// The 64 bytes of 128 digits in either case. Where it answers `None`, the field may have any fault.
#[tactic(auto, unfolding(crate::specs::Grammar::bytes_of))]
pub(crate) fn bytes_at_once(field: &[u8; 128]) -> Option<[u8; 64]>
    ensures { IfSome result (λ bytes. bytes_of field.now ≡ Ok bytes) }
{
    let mut values = [0u8; 128];
    let mut bad = false;
    'digits: for k in 0..128 {
        values[k] = value_of(field[k]);
        bad = bad | !is_digit(field[k]);
    }
    if bad {
        return None;
    }
    Some(paired(&values))
}

/// The 64 bytes of 128 lower-case digits. Where it answers `None`, the field may have any fault.
#[tactic(auto, unfolding(crate::specs::ReportGrammar::lower_bytes_of))]
pub(crate) fn lower_bytes_at_once(field: &[u8; 128]) -> Option<[u8; 64]>
    ensures { IfSome result (λ bytes. lower_bytes_of 64 field.now ≡ Ok bytes) }
{
    let mut values = [0u8; 128];
    let mut bad = false;
    'digits: for k in 0..128 {
        values[k] = lower_value_of(field[k]);
        bad = bad | !is_lower(field[k]);
    }
    if bad {
        return None;
    }
    Some(paired(&values))
}

// The bytes of pairs of values.
#[inline(always)]
fn paired(values: &[u8; 128]) -> [u8; 64]
    ensures { ((j : ℕ) → j < 128 → slice_index values.now j < 16) → ArePairs values.now result 64 }
{
    let mut bytes = [0u8; 64];
    'pairs: for k in 0..64 {
        bytes[k] = joined(values[2 * k], values[2 * k + 1]);
    }
    bytes
}

#[inline(always)]
fn joined(high: u8, low: u8) -> u8
    ensures { high < 16 → low < 16 → result ≡ high * 16 + low }
{
    high.wrapping_mul(16).wrapping_add(low)
}

#[inline(always)]
fn is_lower(byte: u8) -> bool
    ensures { result ≡ is_lower_digit byte }
{
    (byte.wrapping_sub(48) < 10) | (byte.wrapping_sub(97) < 6)
}

#[inline(always)]
fn lower_value_of(byte: u8) -> u8
    ensures { is_lower_digit byte ≡ true → hex_digit_value byte ≡ Some result }
{
    let digit = byte.wrapping_sub(48);
    if digit < 10 {
        digit
    } else {
        byte.wrapping_sub(87)
    }
}

// With bit 5 set a letter is one in lower case.
#[inline(always)]
fn is_digit(byte: u8) -> bool
    ensures { result ≡ is_hex_digit byte }
{
    (byte.wrapping_sub(48) < 10) | ((byte | 32).wrapping_sub(97) < 6)
}

#[inline(always)]
fn value_of(byte: u8) -> u8
    ensures { is_hex_digit byte ≡ true → hex_digit_value byte ≡ Some result }
{
    let digit = byte.wrapping_sub(48);
    if digit < 10 {
        digit
    } else {
        (byte | 32).wrapping_sub(87)
    }
}
