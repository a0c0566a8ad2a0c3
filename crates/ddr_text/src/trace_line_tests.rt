//! Trace lines with what they spell or their fault, written from the format.
use crate::{LineFault, TraceLine, read_trace_line};
use command_words::{Geometry, LineAddr};
use std::test::Fail;

// 126 digits of a byte's worth less than a line of 64 bytes needs.
const SHORT: &str =
    "000000000000000000000000000000000000000000000000000000000000000000000000000000000000000000000000000000000000000000000000000000";

// Lines that spell none, in the order of their faults.
const FAULTY_LINES: [(&str, LineFault); 38] = [
    ("", LineFault::Empty),
    (" ", LineFault::Letter),
    ("r 1", LineFault::Letter),
    ("Q 1", LineFault::Letter),
    ("RR 1", LineFault::Letter),
    (" R 1", LineFault::Letter),
    ("C 32 0000 0000", LineFault::Letter),
    ("R", LineFault::Fields),
    ("I", LineFault::Fields),
    ("W 0", LineFault::Fields),
    ("R  0", LineFault::Fields),
    ("R 0 ", LineFault::Fields),
    ("R x 0", LineFault::Fields),
    ("F 0 0", LineFault::Fields),
    ("F 0 0 0 0", LineFault::Fields),
    ("I 1 2", LineFault::Fields),
    ("W 0 00 00", LineFault::Fields),
    ("R ", LineFault::Number),
    ("R x", LineFault::Number),
    ("R +1", LineFault::Number),
    ("R -1", LineFault::Number),
    ("R 01", LineFault::Number),
    ("R 00", LineFault::Number),
    ("R 1\r", LineFault::Number),
    ("R 18446744073709551616", LineFault::Number),
    (
        "R 99999999999999999999999999999999999999",
        LineFault::Number,
    ),
    ("F 99999999 0 z", LineFault::Number),
    ("F x 9 z", LineFault::Number),
    ("W 01 zz", LineFault::Number),
    ("R 32768", LineFault::Range),
    ("R 18446744073709551615", LineFault::Range),
    ("F 32768 0 0", LineFault::Range),
    ("F 0 4 0", LineFault::Range),
    ("F 0 0 136", LineFault::Range),
    ("I 4294967297", LineFault::Range),
    ("W 32768 zz", LineFault::Range),
    ("W 0 ", LineFault::Hex),
    ("W 0 11", LineFault::Hex),
];

#[test]
fn faults_in_their_order(rt: HostRuntime) -> Result<(), Fail> {
    let g = Geometry::with_rows(16);
    for (text, fault) in FAULTY_LINES {
        assert_eq!(rt; read_trace_line(text.as_bytes(), g), Err(fault), "{text}");
    }
    Ok(())
}

#[test]
fn digits_of_a_write(rt: HostRuntime) -> Result<(), Fail> {
    let g = Geometry::with_rows(16);
    let alloc = rt.alloc();
    let line = LineAddr::new(7, g).ok_or("line 7")?;
    let mut bytes = [0u8; 64];
    bytes[0] = 0xab;
    bytes[63] = 0x01;
    let whole = format!(in alloc; "W 7 {SHORT}01")?;
    assert_eq!(rt; read_trace_line(whole.as_bytes(), g).is_ok(), true);
    let short = format!(in alloc; "W 7 {SHORT}")?;
    assert_eq!(rt; read_trace_line(short.as_bytes(), g), Err(LineFault::Hex));
    let long = format!(in alloc; "W 7 {SHORT}0000")?;
    assert_eq!(rt; read_trace_line(long.as_bytes(), g), Err(LineFault::Hex));
    let other = format!(in alloc; "W 7 {SHORT}0g")?;
    assert_eq!(rt; read_trace_line(other.as_bytes(), g), Err(LineFault::Hex));
    let either =
        "W 7 aB000000000000000000000000000000000000000000000000000000000000000000000000000000000000000000000000000000000000000000000000000001";
    assert_eq!(rt;
        read_trace_line(either.as_bytes(), g),
        Ok(TraceLine::Write(line, bytes))
    );
    Ok(())
}

#[test]
fn numbers_at_their_ends(rt: HostRuntime) -> Result<(), Fail> {
    let g = Geometry::with_rows(16);
    let first = LineAddr::new(0, g).ok_or("line 0")?;
    let last = LineAddr::new(32767, g).ok_or("line 32767")?;
    assert_eq!(rt; read_trace_line(b"R 0", g), Ok(TraceLine::Read(first)));
    assert_eq!(rt; read_trace_line(b"R 32767", g), Ok(TraceLine::Read(last)));
    assert_eq!(rt;
        read_trace_line(b"F 0 0 0", g),
        Ok(TraceLine::Flip(first, 0, 0))
    );
    assert_eq!(rt;
        read_trace_line(b"F 32767 3 135", g),
        Ok(TraceLine::Flip(last, 3, 135))
    );
    assert_eq!(rt; read_trace_line(b"I 0", g), Ok(TraceLine::Idle(0)));
    assert_eq!(rt;
        read_trace_line(b"I 4294967296", g),
        Ok(TraceLine::Idle(4_294_967_296))
    );
    Ok(())
}

// The last line of 16 rows in four groups, and the one behind it.
#[test]
fn last_line_of_four_groups(rt: HostRuntime) -> Result<(), Fail> {
    let g = Geometry::new(16, 4).ok_or("4 groups")?;
    let alloc = rt.alloc();
    let last = LineAddr::new(16383, g).ok_or("line 16383")?;
    assert_eq!(rt; read_trace_line(b"R 16383", g), Ok(TraceLine::Read(last)));
    assert_eq!(rt;
        read_trace_line(b"F 16383 0 0", g),
        Ok(TraceLine::Flip(last, 0, 0))
    );
    let write = format!(in alloc; "W 16383 {SHORT}00")?;
    assert_eq!(rt;
        read_trace_line(write.as_bytes(), g),
        Ok(TraceLine::Write(last, [0; 64]))
    );
    for line in ["R 16384", "W 16384 00", "F 16384 0 0", "R 32767"] {
        assert_eq!(rt;
            read_trace_line(line.as_bytes(), g),
            Err(LineFault::Range),
            "{line}"
        );
    }
    Ok(())
}
