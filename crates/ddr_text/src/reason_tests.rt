//! Reasons by the tables of `docs/FORMATS.md`: their numbers, and how they are told.
ghost use Rattle.ddr_text.specs.Reason.{HasNumber};

use crate::{LineFault, Reason};
use command_words::WordFault;
use speed_bin::HeaderFault;
use std::process::Abort;
use std::test::Fail;

fn has_number(rt: &impl Abort, reason: Reason, number: u8)
    requires { HasNumber reason }
{
    assert_eq!(rt; reason.number(), number);
}

#[test]
fn numbers_of_the_grammar(rt: HostRuntime) {
    has_number(&rt, Reason::Line(LineFault::Empty), 1);
    has_number(&rt, Reason::Line(LineFault::Letter), 2);
    has_number(&rt, Reason::Line(LineFault::Fields), 3);
    has_number(&rt, Reason::Line(LineFault::Number), 4);
    has_number(&rt, Reason::Line(LineFault::Range), 5);
    has_number(&rt, Reason::Line(LineFault::Hex), 6);
    has_number(&rt, Reason::Line(LineFault::Word(WordFault::Unknown)), 31);
    has_number(&rt, Reason::Line(LineFault::Word(WordFault::Range)), 35);
}

#[test]
fn numbers_of_other_lines(rt: HostRuntime) {
    has_number(&rt, Reason::LineTooLong, 7);
    has_number(&rt, Reason::LineUnended, 8);
    has_number(&rt, Reason::TooManyLines, 9);
    has_number(&rt, Reason::TooManyClocks, 10);
    has_number(&rt, Reason::LineOutOfPlace, 18);
    has_number(&rt, Reason::NoEndLine, 19);
    has_number(&rt, Reason::FaultySeparator, 29);
}

#[test]
fn numbers_of_openings(rt: HostRuntime) {
    has_number(&rt, Reason::NotToml, 11);
    has_number(&rt, Reason::HeaderKey, 12);
    has_number(&rt, Reason::HeaderKind, 13);
    has_number(&rt, Reason::HeaderRange, 14);
    has_number(&rt, Reason::UnknownBin, 15);
    has_number(&rt, Reason::NoSeparator, 16);
    has_number(&rt, Reason::HeaderTooLong, 17);
    has_number(&rt, Reason::FailedCheck(8), 28);
}

#[test]
fn faults_have_reasons(rt: HostRuntime) {
    assert_eq!(rt; Reason::from(LineFault::Hex), Reason::Line(LineFault::Hex));
    assert_eq!(rt;
        Reason::of_header(HeaderFault::Check(3)),
        Some(Reason::FailedCheck(3))
    );
    assert_eq!(rt; Reason::of_header(HeaderFault::OutOfMemory), None);
}

#[test]
fn reasons_in_words(rt: HostRuntime) -> Result<(), Fail> {
    let alloc = rt.alloc();
    let failed = Reason::FailedCheck(2);
    let text = format!(in alloc; "{failed}")?;
    assert_eq!(rt; text.as_str(), "check 2 of the header fails");
    let missing = Reason::Line(LineFault::Word(WordFault::SecondMissing));
    let text = format!(in alloc; "{missing}")?;
    assert_eq!(rt; text.as_str(), "the second word of the command is missing");
    Ok(())
}
