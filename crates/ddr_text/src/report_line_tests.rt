//! Report lines with what they spell or their fault, written from the format.
use crate::{LineFault, ReportLine, StatName, read_report_line};
use command_words::{Command, Geometry, LineAddr, WordFault, map_line};
use ondie_ecc::ReadState;
use std::test::Fail;

// Lines that spell none, in the order of their faults.
const FAULTY_LINES: [(&str, LineFault); 34] = [
    ("", LineFault::Empty),
    (" ", LineFault::Letter),
    ("R 0", LineFault::Letter),
    ("c 32 000b", LineFault::Letter),
    ("C 32", LineFault::Fields),
    ("C 32 0000 0000 0000", LineFault::Fields),
    ("E", LineFault::Fields),
    ("E 1 2", LineFault::Fields),
    ("X 3", LineFault::Fields),
    ("S act", LineFault::Fields),
    ("S ACT x", LineFault::Fields),
    ("D x 0 00 clean", LineFault::Fields),
    ("F 1 2 3", LineFault::Fields),
    ("S act 01", LineFault::Number),
    ("C x zz", LineFault::Number),
    ("D 1 x 00 ok", LineFault::Number),
    ("F 281474976710656 0 0 x", LineFault::Number),
    ("X 3 ", LineFault::Number),
    ("E 281474976710656", LineFault::Range),
    ("C 281474976710656 zz", LineFault::Range),
    ("X 3 256", LineFault::Range),
    ("F 1 32768 0 0", LineFault::Range),
    ("D 1 32768 00 ok", LineFault::Range),
    ("C 0 001f ", LineFault::Hex),
    ("C 1 001F", LineFault::Hex),
    ("C 1 1f", LineFault::Hex),
    ("C 1 0000 000g", LineFault::Hex),
    ("D 1 0 00 ok", LineFault::Hex),
    ("C 1 0001", LineFault::Word(WordFault::Unknown)),
    ("C 1 0000", LineFault::Word(WordFault::SecondMissing)),
    ("C 1 000b 0000", LineFault::Word(WordFault::SecondExtra)),
    ("C 1 020b", LineFault::Word(WordFault::Reserved)),
    ("C 1 400b", LineFault::Word(WordFault::Range)),
    ("C 1 0000 0001", LineFault::Range),
];

#[test]
fn faults_in_their_order(rt: HostRuntime) -> Result<(), Fail> {
    let g = Geometry::with_rows(16);
    for (text, fault) in FAULTY_LINES {
        assert_eq!(rt; read_report_line(text.as_bytes(), g), Err(fault), "{text}");
    }
    Ok(())
}

#[test]
fn a_line_of_each_kind(rt: HostRuntime) -> Result<(), Fail> {
    let g = Geometry::with_rows(16);
    let line = LineAddr::new(0, g).ok_or("line 0")?;
    let place = map_line(line, g);
    let mut bytes = [0u8; 64];
    bytes[0] = 0x11;
    let value =
        "D 2 0 11000000000000000000000000000000000000000000000000000000000000000000000000000000000000000000000000000000000000000000000000000000 fixed";
    let act = Command::Act(place.bank, place.row);
    assert_eq!(rt;
        read_report_line(b"C 32 0000 0000", g),
        Ok(ReportLine::Issued(32, act))
    );
    assert_eq!(rt;
        read_report_line(b"C 54 000b", g),
        Ok(ReportLine::Issued(54, Command::PreAb))
    );
    assert_eq!(rt;
        read_report_line(value.as_bytes(), g),
        Ok(ReportLine::Value(2, line, bytes, ReadState::Fixed))
    );
    assert_eq!(rt;
        read_report_line(b"F 35 0 3 135", g),
        Ok(ReportLine::Flip(35, line, 3, 135))
    );
    assert_eq!(rt;
        read_report_line(b"S lost 7", g),
        Ok(ReportLine::Stat(StatName::Lost, 7))
    );
    assert_eq!(rt; read_report_line(b"E 55", g), Ok(ReportLine::End(55)));
    assert_eq!(rt;
        read_report_line(b"X 3 6", g),
        Ok(ReportLine::Refused(3, 6))
    );
    Ok(())
}

// The banks of four groups. `C 32 0400 0000` opens row 0 in group 4, `C 32 051b` precharges a bank of group 5.
#[test]
fn groups_of_a_header(rt: HostRuntime) -> Result<(), Fail> {
    let four = Geometry::new(16, 4).ok_or("4 groups")?;
    let eight = Geometry::with_rows(16);
    let lines = [
        "C 32 0400 0000",
        "C 32 07cc 0000",
        "C 32 043d 0400",
        "C 32 072d 0c00",
        "C 32 051b",
        "C 32 07db",
    ];
    for line in lines {
        assert_eq!(rt;
            read_report_line(line.as_bytes(), four),
            Err(LineFault::Range),
            "{line}"
        );
        assert!(rt; read_report_line(line.as_bytes(), eight).is_ok(), "{line}");
    }
    let inside = [
        "C 32 03cc 0000",
        "C 32 033d 0400",
        "C 32 032d 0c00",
        "C 32 03db",
        "C 32 04cb",
        "C 32 06d3",
        "C 32 04d3",
        "C 32 000b",
        "C 32 0213",
        "C 32 0013",
        "C 32 018f",
        "C 32 001f",
    ];
    for line in inside {
        assert!(rt; read_report_line(line.as_bytes(), four).is_ok(), "{line}");
        assert!(rt; read_report_line(line.as_bytes(), eight).is_ok(), "{line}");
    }
    Ok(())
}

// What a command of a group that there is not spells under eight groups; and which faults come before its range.
#[test]
fn commands_of_a_fifth_group(rt: HostRuntime) -> Result<(), Fail> {
    let four = Geometry::new(16, 4).ok_or("4 groups")?;
    let eight = Geometry::with_rows(16);
    let fifth = map_line(LineAddr::new(4, eight).ok_or("line 4")?, eight);
    let sixth = map_line(LineAddr::new(5, eight).ok_or("line 5")?, eight);
    assert_eq!(rt;
        read_report_line(b"C 32 0400 0000", eight),
        Ok(ReportLine::Issued(32, Command::Act(fifth.bank, fifth.row)))
    );
    assert_eq!(rt;
        read_report_line(b"C 32 051b", eight),
        Ok(ReportLine::Issued(32, Command::PrePb(sixth.bank)))
    );
    let rows = [
        ("C x 051b", LineFault::Number),
        ("C 32 051b ", LineFault::Hex),
        ("C 32 0400", LineFault::Word(WordFault::SecondMissing)),
        ("C 32 051b 0000", LineFault::Word(WordFault::SecondExtra)),
        ("C 32 151b", LineFault::Word(WordFault::Reserved)),
    ];
    for (line, fault) in rows {
        assert_eq!(rt;
            read_report_line(line.as_bytes(), four),
            Err(fault),
            "{line}"
        );
    }
    Ok(())
}

// The last line of 16 rows in four groups, and the one behind it.
#[test]
fn last_line_of_four_groups(rt: HostRuntime) -> Result<(), Fail> {
    let g = Geometry::new(16, 4).ok_or("4 groups")?;
    let last = LineAddr::new(16383, g).ok_or("line 16383")?;
    assert_eq!(rt;
        read_report_line(b"F 1 16383 0 0", g),
        Ok(ReportLine::Flip(1, last, 0, 0))
    );
    assert_eq!(rt;
        read_report_line(b"F 1 16384 0 0", g),
        Err(LineFault::Range)
    );
    assert_eq!(rt;
        read_report_line(b"D 1 16383 00 ok", g),
        Err(LineFault::Hex)
    );
    assert_eq!(rt;
        read_report_line(b"D 1 16384 00 ok", g),
        Err(LineFault::Range)
    );
    Ok(())
}
