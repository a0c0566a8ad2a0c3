//! Worked codewords.

use crate::{Codeword, Repaired, flip, protect, repair};

// Sixteen bytes of data that are zero but for one, and the bytes 0, 15 and 16 of their codeword.
struct Row {
    at: usize,
    byte: u8,
    word: [u8; 3],
}

const ROWS: [Row; 4] = [
    Row {
        at: 0,
        byte: 0x00,
        word: [0x00, 0x00, 0x00],
    },
    Row {
        at: 0,
        byte: 0x01,
        word: [0x07, 0x00, 0x00],
    },
    Row {
        at: 0,
        byte: 0x02,
        word: [0x19, 0x00, 0x00],
    },
    Row {
        at: 15,
        byte: 0x80,
        word: [0x80, 0x80, 0x80],
    },
];

#[test]
fn worked_codewords(rt: HostRuntime) {
    for row in &ROWS {
        let mut data = [0; 16];
        if row.at < 16 {
            data[row.at] = row.byte;
        }
        let mut word = [0; 17];
        word[0] = row.word[0];
        word[15] = row.word[1];
        word[16] = row.word[2];
        assert!(rt; protect(data) == Codeword(word), "{}", row.byte);
        assert!(rt; repair(Codeword(word)) == Repaired::Clean(data));
    }
}

#[test]
fn turned_bits(rt: HostRuntime) {
    let zero = Codeword([0; 17]);
    assert!(rt; repair(flip(zero, 135)) == Repaired::Fixed([0; 16], 136));
    let mut wrong = [0; 16];
    wrong[0] = 0x07;
    assert!(rt; repair(flip(flip(zero, 2), 4)) == Repaired::Fixed(wrong, 6));
    assert!(rt; repair(flip(flip(zero, 15), 127)) == Repaired::Lost([0; 16], 144));
}
