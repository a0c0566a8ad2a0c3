//! The syndrome of a codeword, a byte at a time.
ghost use Rattle.std.specs.Prelude.{◌≡◌, ◌<◌};
ghost use Rattle.ondie_ecc.specs.Codeword.{byte_syndrome_of, syndrome_of};

// What each byte adds to the syndrome as byte 1.
static POSITIONS: [u8; 256] = [
    0, 9, 10, 3, 11, 2, 1, 8, 12, 5, 6, 15, 7, 14, 13, 4, 13, 4, 7, 14, 6, 15, 12, 5, 1, 8, 11, 2,
    10, 3, 0, 9, 14, 7, 4, 13, 5, 12, 15, 6, 2, 11, 8, 1, 9, 0, 3, 10, 3, 10, 9, 0, 8, 1, 2, 11,
    15, 6, 5, 12, 4, 13, 14, 7, 15, 6, 5, 12, 4, 13, 14, 7, 3, 10, 9, 0, 8, 1, 2, 11, 2, 11, 8, 1,
    9, 0, 3, 10, 14, 7, 4, 13, 5, 12, 15, 6, 1, 8, 11, 2, 10, 3, 0, 9, 13, 4, 7, 14, 6, 15, 12, 5,
    12, 5, 6, 15, 7, 14, 13, 4, 0, 9, 10, 3, 11, 2, 1, 8, 16, 25, 26, 19, 27, 18, 17, 24, 28, 21,
    22, 31, 23, 30, 29, 20, 29, 20, 23, 30, 22, 31, 28, 21, 17, 24, 27, 18, 26, 19, 16, 25, 30, 23,
    20, 29, 21, 28, 31, 22, 18, 27, 24, 17, 25, 16, 19, 26, 19, 26, 25, 16, 24, 17, 18, 27, 31, 22,
    21, 28, 20, 29, 30, 23, 31, 22, 21, 28, 20, 29, 30, 23, 19, 26, 25, 16, 24, 17, 18, 27, 18, 27,
    24, 17, 25, 16, 19, 26, 30, 23, 20, 29, 21, 28, 31, 22, 17, 24, 27, 18, 26, 19, 16, 25, 29, 20,
    23, 30, 22, 31, 28, 21, 28, 21, 22, 31, 23, 30, 29, 20, 16, 25, 26, 19, 27, 18, 17, 24,
];

/// The exclusive-or of the positions of the word's set bits.
pub(crate) fn syndrome(word: &[u8; 17]) -> u8
    ensures { result ≡ syndrome_of word.now }
{
    let mut syndrome = 0;
    for (index, byte) in word.iter().enumerate() {
        syndrome ^= byte_syndrome(index as u8, *byte);
    }
    syndrome
}

// What byte `index` adds: its bits stand at the positions `8 * index + 1` to `8 * index + 8`.
fn byte_syndrome(index: u8, byte: u8) -> u8
    requires { index < 17 }
    ensures { result ≡ byte_syndrome_of index byte }
{
    let positions = positions_of(byte);
    let odd = (positions >> 3) & 1;
    let top = positions >> 4;
    (positions & 7) ^ (odd * index * 8) ^ (top * (index + 1) * 8)
}

// What the byte adds as byte 1, whose bits stand at the positions 9 to 16.
fn positions_of(byte: u8) -> u8
    ensures positions { result ≡ byte_syndrome_of 1 byte }
    ensures below { result < 32 }
{
    POSITIONS[usize::from(byte)]
}
