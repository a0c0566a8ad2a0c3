//! Lines of a report with their text, written from the format.
use crate::{ReportLine, StatName, write_report_line};
use arrayvec::ArrayVec;
use command_words::{Command, Geometry, LineAddr, map_line};
use ondie_ecc::ReadState;
use std::process::Abort;
use std::test::Fail;

// 126 digits.
const ZEROS: &str =
    "000000000000000000000000000000000000000000000000000000000000000000000000000000000000000000000000000000000000000000000000000000";

fn is_spelled(rt: &impl Abort, line: &ReportLine, text: &str) {
    let mut out = ArrayVec::new();
    write_report_line(line, &mut out);
    assert_eq!(rt; out.as_slice(), text.as_bytes());
}

#[test]
fn a_line_of_each_kind(rt: HostRuntime) -> Result<(), Fail> {
    let alloc = rt.alloc();
    let g = Geometry::with_rows(16);
    let line = LineAddr::new(0, g).ok_or("line 0")?;
    let place = map_line(line, g);
    let mut bytes = [0u8; 64];
    bytes[0] = 0x11;
    is_spelled(
        &rt,
        &ReportLine::Issued(32, Command::Act(place.bank, place.row)),
        "C 32 0000 0000\n",
    );
    is_spelled(
        &rt,
        &ReportLine::Issued(35, Command::Wr(place.bank, place.column)),
        "C 35 002d 0c00\n",
    );
    is_spelled(&rt, &ReportLine::Issued(54, Command::PreAb), "C 54 000b\n");
    let value = format!(in alloc; "D 2 0 11{ZEROS} ok\n")?;
    is_spelled(
        &rt,
        &ReportLine::Value(2, line, bytes, ReadState::Clean),
        value.as_str(),
    );
    is_spelled(&rt, &ReportLine::Flip(35, line, 0, 0), "F 35 0 0 0\n");
    is_spelled(&rt, &ReportLine::Stat(StatName::Act, 1), "S act 1\n");
    is_spelled(&rt, &ReportLine::End(55), "E 55\n");
    is_spelled(&rt, &ReportLine::Refused(3, 6), "X 3 6\n");
    Ok(())
}

#[test]
fn states_and_digits(rt: HostRuntime) -> Result<(), Fail> {
    let alloc = rt.alloc();
    let g = Geometry::with_rows(65536);
    let line = LineAddr::new(134_217_727, g).ok_or("the last line")?;
    let mut bytes = [0u8; 64];
    bytes[63] = 0xfe;
    let fixed = format!(in alloc; "D 1048576 134217727 {ZEROS}fe fixed\n")?;
    is_spelled(
        &rt,
        &ReportLine::Value(1_048_576, line, bytes, ReadState::Fixed),
        fixed.as_str(),
    );
    let lost = format!(in alloc; "D 1048576 134217727 {ZEROS}fe lost\n")?;
    is_spelled(
        &rt,
        &ReportLine::Value(1_048_576, line, bytes, ReadState::Lost),
        lost.as_str(),
    );
    let flip = ReportLine::Flip(281_474_976_710_655, line, 3, 135);
    is_spelled(&rt, &flip, "F 281474976710655 134217727 3 135\n");
    Ok(())
}

#[test]
fn names_of_the_counts(rt: HostRuntime) {
    let names: [(StatName, &str); 14] = [
        (StatName::Act, "S act 0\n"),
        (StatName::Rd, "S rd 0\n"),
        (StatName::Wr, "S wr 0\n"),
        (StatName::Pre, "S pre 0\n"),
        (StatName::RefAb, "S refab 0\n"),
        (StatName::RefSb, "S refsb 0\n"),
        (StatName::RfmAb, "S rfmab 0\n"),
        (StatName::RfmSb, "S rfmsb 0\n"),
        (StatName::Ecs, "S ecs 0\n"),
        (StatName::Alert, "S alert 0\n"),
        (StatName::Peak, "S peak 0\n"),
        (StatName::Found, "S found 0\n"),
        (StatName::Lost, "S lost 0\n"),
        (StatName::Worst, "S worst 0\n"),
    ];
    for (name, text) in names {
        is_spelled(&rt, &ReportLine::Stat(name, 0), text);
    }
}
