//! What may come first, and what behind the register writes: the clocks were worked out by hand from the rules.
ghost use Rattle.std.specs.Prelude.{◌<◌, ◌^◌, IfSome};
ghost use Rattle.legality.specs.Standing.{StandsForSome};

use crate::Prospects;
use command_words::{Bank, BankAddr, Column, Command, Mrw, Row};
use mode_registers::writes;
use speed_bin::{Header, Version, read_header};
use std::alloc::Global;
use std::test::Fail;
use timing_rules::Clock;

const HEADER: &[u8] =
    b"format = 1\nbin = \"tiny\"\nrows = 16\nath = 5\neth = 3\nraaimt = 8\nraammt = 16\nrefresh = \"all\"\necs_every = 0\n";

fn fresh(alloc: Global) -> Option<Prospects>
    ensures { IfSome result (λ it. StandsForSome it) }
{
    let Ok(header) = read_header(alloc, HEADER, Version::plain()) else {
        return None;
    };
    match Prospects::new(alloc, &header) {
        Ok(it) => Some(it),
        Err(_) => None,
    }
}

// The first command is the first register write, at any clock before the fifth refresh is late.
#[test]
fn before_the_first_command(rt: HostRuntime) -> Result<(), Fail> {
    let it = fresh(rt.alloc()).ok_or("memory")?;
    let first = Command::Mrw(Mrw {
        address: 64,
        value: 15,
    });
    assert_eq!(rt; it.legal(&first), Some((0, 4999)));
    assert_eq!(rt; it.forbidden(&first), None);
    // a command, and the least rule that forbids it for good
    let others = [
        (
            Some(Command::Act(Bank::numbered(0), Row::new(0).ok_or("row")?)),
            14,
        ),
        (
            Some(Command::Rd(Bank::numbered(0), Column::new(0).ok_or("column")?)),
            4,
        ),
        (Some(Command::RfmAb), 11),
        (Some(Command::Ecs), 8),
        (Some(Command::Nop), 14),
    ];
    for (command, rule) in others {
        let command = command.ok_or("command")?;
        assert_eq!(rt; it.legal(&command), None);
        assert_eq!(rt; it.forbidden(&command), Some(rule));
    }
    Ok(())
}

// Issues the register write at the clock, if it may come there, and says whether it did.
fn write(it: &mut Prospects, clock: Clock, address: u8, value: u8) -> bool
    requires in_time { clock < 2 ^ 48 }
    requires stands { StandsForSome it.old }
    ensures { StandsForSome it.new }
{
    let command = Command::Mrw(Mrw { address, value });
    let Some((first, last)) = it.legal(&command) else {
        return false;
    };
    if clock < first {
        return false;
    }
    if last < clock {
        return false;
    }
    it.issue(clock, &command);
    true
}

// Whether the register writes of the header above may come, one after the other from clock 0 on; they are issued.
fn is_settled(it: &mut Prospects) -> bool
    requires { StandsForSome it.old }
{
    if !write(it, 0, 64, 15) {
        return false;
    }
    if !write(it, 4, 65, 0) {
        return false;
    }
    if !write(it, 8, 66, 5) {
        return false;
    }
    if !write(it, 12, 67, 3) {
        return false;
    }
    if !write(it, 16, 68, 0) {
        return false;
    }
    if !write(it, 20, 69, 8) {
        return false;
    }
    if !write(it, 24, 70, 16) {
        return false;
    }
    write(it, 28, 71, 0)
}

// Behind the register writes at the clocks 0, 4 .. 28.
#[test]
fn behind_the_register_writes(rt: HostRuntime) -> Result<(), Fail> {
    let mut it = fresh(rt.alloc()).ok_or("memory")?;
    assert!(rt; is_settled(&mut it));
    let act = Command::Act(Bank::numbered(0), Row::new(0).ok_or("row")?);
    let same = Command::RefSb(BankAddr::new(0).ok_or("address")?);
    assert_eq!(rt; it.legal(&act), Some((32, 4999)));
    assert_eq!(rt; it.legal(&Command::Nop), Some((30, 4999)));
    assert_eq!(rt; it.legal(&same), Some((32, 4999)));
    assert_eq!(rt; it.legal(&Command::RefAb), Some((32, 5999)));
    assert_eq!(rt; it.forbidden(&Command::RefAb), None);
    assert_eq!(rt; it.forbidden(&Command::RfmAb), Some(11));
    let again = Command::Mrw(Mrw {
        address: 64,
        value: 15,
    });
    assert_eq!(rt; it.forbidden(&again), Some(14));
    Ok(())
}
