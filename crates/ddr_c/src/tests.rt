//! Worked rows: slots, through the functions that C calls.
ghost use Rattle.ddr_c.specs.Standing.{Sits};

use crate::exports::{ddr_close, ddr_counts, ddr_end, ddr_flip, ddr_lines, ddr_open, ddr_step};
use crate::line::Line;
use crate::session::Totals;
use crate::slot::Slot;
use std::alloc::Global;
use std::test::Fail;

const TINY: &str =
    "format = 1\nbin = \"tiny\"\nrows = 16\nath = 5\neth = 3\nraaimt = 8\nraammt = 16\nrefresh = \"all\"\necs_every = 0\n";

// A line of these bytes, of which nothing was told.
fn line(byte: u8) -> Line {
    Line {
        bytes: [byte; 64],
        has_line: false,
        state: 0,
        alert: false,
    }
}

fn no_totals() -> Totals {
    Totals {
        found: 0,
        lost: 0,
        worst: 0,
        peak: 0,
    }
}

// A command of two words.
fn two(alloc: Global, slot: &mut Slot, clock: u64, first: u16, second: u16, line: &mut Line) -> u8
    requires { Sits slot.old.kept.session }
    ensures { Sits slot.new.kept.session }
{
    ddr_step(alloc, slot, clock, first, second, true, line)
}

// The register writes for the header. 0 where all of them are fine.
fn write_registers(alloc: Global, slot: &mut Slot, line: &mut Line) -> u8
    requires { Sits slot.old.kept.session }
    ensures { Sits slot.new.kept.session }
{
    let first = two(alloc, slot, 0, 0x0805, 0x000f, line)
        | two(alloc, slot, 4, 0x0825, 0x0000, line)
        | two(alloc, slot, 8, 0x0845, 0x0005, line)
        | two(alloc, slot, 12, 0x0865, 0x0003, line);
    let second = two(alloc, slot, 16, 0x0885, 0x0000, line)
        | two(alloc, slot, 20, 0x08a5, 0x0008, line)
        | two(alloc, slot, 24, 0x08c5, 0x0010, line)
        | two(alloc, slot, 28, 0x08e5, 0x0000, line);
    first | second
}

// A line is written, a bit of it turned, and read.
#[test]
fn a_line_comes_back(rt: HostRuntime) -> Result<(), Fail> {
    let alloc = rt.alloc();
    let mut slot = Slot::empty(alloc);
    let mut told = line(0x11);
    let mut totals = no_totals();
    assert_eq!(rt; ddr_open(alloc, &mut slot, TINY.as_bytes(), 4, 8), 0);
    assert_eq!(rt; ddr_lines(alloc, &mut slot), 32768);
    assert_eq!(rt; write_registers(alloc, &mut slot, &mut told), 0);
    assert_eq!(rt; two(alloc, &mut slot, 32, 0x0000, 0x0000, &mut told), 0);
    assert_eq!(rt; two(alloc, &mut slot, 35, 0x002d, 0x0c00, &mut told), 0);
    assert_eq!(rt; ddr_flip(alloc, &mut slot, 0, 0, 0), 0);
    told = line(0);
    assert_eq!(rt; two(alloc, &mut slot, 51, 0x003d, 0x0400, &mut told), 0);
    assert!(rt; told.has_line);
    assert_eq!(rt; told.state, 1);
    assert_eq!(rt; told.bytes.as_slice(), [0x11; 64].as_slice());
    assert_eq!(rt;
        ddr_step(alloc, &mut slot, 54, 0x000b, 0, false, &mut told),
        0
    );
    assert!(rt; !told.has_line);
    assert_eq!(rt; ddr_counts(alloc, &mut slot, &mut totals), 0);
    assert_eq!(rt; totals.peak, 1);
    assert_eq!(rt; ddr_end(alloc, &mut slot, 55), 0);
    assert_eq!(rt; ddr_end(alloc, &mut slot, 56), 255);
    ddr_close(alloc, &mut slot);
    slot.let_go();
    Ok(())
}

// Row 0 of bank 0 is opened at one clock and closed at another. 0 where both are fine.
fn open_and_close(alloc: Global, slot: &mut Slot, open: u64, close: u64, line: &mut Line) -> u8
    requires { Sits slot.old.kept.session }
    ensures { Sits slot.new.kept.session }
{
    let opened = two(alloc, slot, open, 0x0000, 0x0000, line);
    opened | ddr_step(alloc, slot, close, 0x001b, 0, false, line)
}

// The fifth closing of a row raises ALERT, and an RFMab takes it back.
#[test]
fn an_alert_is_raised(rt: HostRuntime) -> Result<(), Fail> {
    let alloc = rt.alloc();
    let mut slot = Slot::empty(alloc);
    let mut told = line(0);
    assert_eq!(rt; ddr_open(alloc, &mut slot, TINY.as_bytes(), 4, 8), 0);
    assert_eq!(rt; write_registers(alloc, &mut slot, &mut told), 0);
    assert_eq!(rt; open_and_close(alloc, &mut slot, 32, 38, &mut told), 0);
    assert_eq!(rt; open_and_close(alloc, &mut slot, 42, 48, &mut told), 0);
    assert_eq!(rt; open_and_close(alloc, &mut slot, 52, 58, &mut told), 0);
    assert_eq!(rt; open_and_close(alloc, &mut slot, 62, 68, &mut told), 0);
    assert!(rt; !told.alert);
    assert_eq!(rt; open_and_close(alloc, &mut slot, 72, 78, &mut told), 0);
    assert!(rt; told.alert);
    assert_eq!(rt;
        ddr_step(alloc, &mut slot, 82, 0x0013, 0, false, &mut told),
        0
    );
    assert!(rt; !told.alert);
    assert_eq!(rt; ddr_end(alloc, &mut slot, 83), 0);
    ddr_close(alloc, &mut slot);
    slot.let_go();
    Ok(())
}

// What is refused changes nothing, and a broken rule stays the answer.
#[test]
fn refusals(rt: HostRuntime) -> Result<(), Fail> {
    let alloc = rt.alloc();
    let mut slot = Slot::empty(alloc);
    let mut told = line(0);
    let mut totals = no_totals();
    assert_eq!(rt; two(alloc, &mut slot, 0, 0, 0, &mut told), 255);
    assert_eq!(rt; ddr_open(alloc, &mut slot, TINY.as_bytes(), 6, 8), 105);
    assert_eq!(rt;
        ddr_open(alloc, &mut slot, "colour = 1\n".as_bytes(), 4, 8),
        12
    );
    assert_eq!(rt; ddr_open(alloc, &mut slot, TINY.as_bytes(), 3, 8), 22);
    assert_eq!(rt; ddr_open(alloc, &mut slot, TINY.as_bytes(), 4, 8), 0);
    assert_eq!(rt; write_registers(alloc, &mut slot, &mut told), 0);
    assert_eq!(rt; two(alloc, &mut slot, 32, 0x0001, 0x0000, &mut told), 131);
    assert_eq!(rt; two(alloc, &mut slot, 32, 0x0000, 0x0001, &mut told), 105);
    assert_eq!(rt; ddr_flip(alloc, &mut slot, 32768, 0, 0), 105);
    assert_eq!(rt; two(alloc, &mut slot, 32, 0x0000, 0x0000, &mut told), 0);
    assert_eq!(rt; two(alloc, &mut slot, 34, 0x003d, 0x0400, &mut told), 2);
    assert_eq!(rt; two(alloc, &mut slot, 35, 0x003d, 0x0400, &mut told), 2);
    assert_eq!(rt; two(alloc, &mut slot, 36, 0x0001, 0x0000, &mut told), 131);
    assert_eq!(rt; ddr_counts(alloc, &mut slot, &mut totals), 2);
    assert_eq!(rt; ddr_end(alloc, &mut slot, 60), 2);
    assert_eq!(rt; ddr_end(alloc, &mut slot, 60), 2);
    ddr_close(alloc, &mut slot);
    assert_eq!(rt; ddr_end(alloc, &mut slot, 60), 255);
    ddr_close(alloc, &mut slot);
    slot.let_go();
    Ok(())
}

// A slot that is open can be opened again: what it had goes on where the header is refused, and is gone where it is not.
#[test]
fn opened_again(rt: HostRuntime) -> Result<(), Fail> {
    let alloc = rt.alloc();
    let mut slot = Slot::empty(alloc);
    let mut told = line(0);
    assert_eq!(rt; ddr_open(alloc, &mut slot, TINY.as_bytes(), 4, 8), 0);
    assert_eq!(rt; write_registers(alloc, &mut slot, &mut told), 0);
    assert_eq!(rt; ddr_open(alloc, &mut slot, TINY.as_bytes(), 6, 8), 105);
    assert_eq!(rt; ddr_open(alloc, &mut slot, TINY.as_bytes(), 3, 8), 22);
    assert_eq!(rt; two(alloc, &mut slot, 32, 0x0000, 0x0000, &mut told), 0);
    assert_eq!(rt; ddr_open(alloc, &mut slot, TINY.as_bytes(), 4, 4), 0);
    assert_eq!(rt; ddr_lines(alloc, &mut slot), 16384);
    assert_eq!(rt; two(alloc, &mut slot, 42, 0x0000, 0x0000, &mut told), 14);
    assert_eq!(rt; ddr_open(alloc, &mut slot, TINY.as_bytes(), 4, 8), 0);
    assert_eq!(rt; write_registers(alloc, &mut slot, &mut told), 0);
    ddr_close(alloc, &mut slot);
    slot.let_go();
    Ok(())
}
