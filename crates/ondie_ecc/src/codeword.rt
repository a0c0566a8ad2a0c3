//! Codewords: made, turned and repaired.
ghost use Rattle.std.specs.Prelude.{◌≡◌, ◌<◌, ◌+◌, ◌-◌, ◌*◌, ◌/◌, ◌%◌, ◌^◌, ◌≤◌};
ghost use Rattle.ondie_ecc.specs.Bits.{turned};
ghost use Rattle.ondie_ecc.specs.Codeword.{codeword_of, data_of, laid, syndrome_of};
ghost use Rattle.ondie_ecc.specs.Repaired.{Mends, repaired_of};

use crate::syndrome::syndrome;

/// 136 bits, numbered from 0. Byte `k / 8` holds bit k as its bit `k % 8`, counted from its least one; bit k stands for
/// position `k + 1`.
/// The check bits stand at the positions 1, 2, 4, 8, 16, 32, 64 and 128, the data bits at the others in rising order.
#[derive(Clone, Copy, Debug, PartialEq, Eq)]
pub struct Codeword(pub [u8; 17]);

/// What a repair answers: the data bytes, and the syndrome where it is not 0.
#[derive(Clone, Copy, Debug, PartialEq, Eq)]
pub enum Repaired {
    /// The syndrome is 0.
    Clean([u8; 16]),
    /// The syndrome is a position, 1 to 136: the bit there was turned.
    Fixed([u8; 16], u8),
    /// The syndrome is above 136: the data bits as they stand.
    Lost([u8; 16], u8),
}

/// The codeword of 16 bytes: its data bits are theirs, and its syndrome is 0.
pub fn protect(bytes: [u8; 16]) -> Codeword
    ensures value { result.0 ≡ codeword_of bytes }
    ensures data { data_of result.0 ≡ bytes }
    ensures syndrome { syndrome_of result.0 ≡ 0 }
{
    let unchecked = lay(&bytes, 0);
    let check = syndrome(&unchecked);
    Codeword(lay(&bytes, check))
}

/// The word with one bit turned.
#[tactic(auto, using(std::proofs::lemmas::Nat::one_shl), unfolding(crate::specs::Bits::turned))]
pub fn flip(word: Codeword, bit: u8) -> Codeword
    requires { bit < 136 }
    ensures { result.0 ≡ turned word.0 bit }
{
    let mut bytes = word.0;
    bytes[usize::from(bit / 8)] ^= 1 << (bit % 8);
    Codeword(bytes)
}

/// The data after the bit is turned that the syndrome names, and what the syndrome was.
pub fn repair(word: Codeword) -> Repaired
    ensures value { result ≡ repaired_of word.0 }
    ensures mends { Mends word.0 result }
{
    let syndrome = syndrome(&word.0);
    match syndrome {
        0 => Repaired::Clean(data(&word.0)),
        1..=136 => Repaired::Fixed(data(&flip(word, syndrome - 1).0), syndrome),
        _ => Repaired::Lost(data(&word.0), syndrome),
    }
}

// The data bits: runs between the check bits, which stand at the bits 0, 1, 3, 7, 15, 31, 63 and 127.
fn data(word: &[u8; 17]) -> [u8; 16]
    ensures { result ≡ data_of word.now }
{
    [
        run(word[0], 2, 1) + run(word[0], 4, 3) * 2 + run(word[1], 0, 4) * 16,
        join(word[1], 4, 3, word[2]),
        join(word[2], 5, 3, word[3]),
        join(word[3], 5, 2, word[4]),
        join(word[4], 6, 2, word[5]),
        join(word[5], 6, 2, word[6]),
        join(word[6], 6, 2, word[7]),
        join(word[7], 6, 1, word[8]),
        join(word[8], 7, 1, word[9]),
        join(word[9], 7, 1, word[10]),
        join(word[10], 7, 1, word[11]),
        join(word[11], 7, 1, word[12]),
        join(word[12], 7, 1, word[13]),
        join(word[13], 7, 1, word[14]),
        join(word[14], 7, 1, word[15]),
        word[16],
    ]
}

// The word with these data bits, and the bits of `check` in rising order as its check bits.
fn lay(bytes: &[u8; 16], check: u8) -> [u8; 17]
    ensures { result ≡ laid bytes.now check }
{
    [
        first_byte(bytes[0], check),
        seven(bytes[0], 4, bytes[1]) + run(check, 4, 1) * 128,
        join(bytes[1], 3, 5, bytes[2]),
        seven(bytes[2], 3, bytes[3]) + run(check, 5, 1) * 128,
        join(bytes[3], 2, 6, bytes[4]),
        join(bytes[4], 2, 6, bytes[5]),
        join(bytes[5], 2, 6, bytes[6]),
        seven(bytes[6], 2, bytes[7]) + run(check, 6, 1) * 128,
        join(bytes[7], 1, 7, bytes[8]),
        join(bytes[8], 1, 7, bytes[9]),
        join(bytes[9], 1, 7, bytes[10]),
        join(bytes[10], 1, 7, bytes[11]),
        join(bytes[11], 1, 7, bytes[12]),
        join(bytes[12], 1, 7, bytes[13]),
        join(bytes[13], 1, 7, bytes[14]),
        (bytes[14] >> 1) + run(check, 7, 1) * 128,
        bytes[15],
    ]
}

// Check bits at the bits 0, 1, 3 and 7 of the first byte, and data bits between.
fn first_byte(byte: u8, check: u8) -> u8
    ensures { result
        ≡ check / 1 % 2 + check / 2 % 2 * 2 + byte / 1 % 2 * 4 + check / 4 % 2 * 8
        + byte / 2 % 2 * 16 + byte / 4 % 2 * 32 + byte / 8 % 2 * 64 + check / 8 % 2 * 128 }
{
    run(check, 0, 2)
        + run(byte, 0, 1) * 4
        + run(check, 2, 1) * 8
        + run(byte, 1, 3) * 16
        + run(check, 3, 1) * 128
}

// The bits of `low` from bit `from` on, and above them the lowest bits of `high`: seven bits in all.
fn seven(low: u8, from: u8, high: u8) -> u8
    requires { (2 ≤ from) × (from ≤ 7) }
    ensures bits { result ≡ low / 2 ^ from % 2 ^ (8 - from) + high % 2 ^ (from - 1) * 2 ^ (8 - from) }
    ensures below { result < 128 }
{
    run(low, from, 8 - from) + (run(high, 0, from - 1) << (8 - from))
}

// So many bits of `low` from bit `from` on, and above them the lowest bits of `high`.
fn join(low: u8, from: u8, count: u8, high: u8) -> u8
    requires within { from + count ≤ 8 }
    requires mixed { (1 ≤ from) × (1 ≤ count) }
    ensures { result ≡ low / 2 ^ from % 2 ^ count + high % 2 ^ (8 - count) * 2 ^ count }
{
    run(low, from, count) + (high << count)
}

// So many bits of a byte from bit `from` on.
fn run(byte: u8, from: u8, count: u8) -> u8
    requires within { from + count ≤ 8 }
    requires some { 1 ≤ count }
    ensures bits { result ≡ byte / 2 ^ from % 2 ^ count }
    ensures below { result < 2 ^ count }
{
    (byte >> from) & (u8::MAX >> (8 - count))
}
