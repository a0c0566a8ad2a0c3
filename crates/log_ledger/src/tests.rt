use crate::Ledger;
use command_words::{Bank, BankAddr, Column, Command, Row};
use speed_bin::{Version, read_header};
use std::alloc::Global;
use std::test::Fail;

const HEADER: &[u8] =
    b"format = 1\nbin = \"tiny\"\nrows = 16\nath = 5\neth = 3\nraaimt = 8\nraammt = 16\nrefresh = \"all\"\necs_every = 0\n";

fn fresh(alloc: Global) -> Option<Ledger> {
    let Ok(header) = read_header(alloc, HEADER, Version::plain()) else {
        return None;
    };
    match Ledger::new(alloc, &header) {
        Ok(ledger) => Some(ledger),
        Err(_) => None,
    }
}

// Issues the command at this clock where it breaks none of the rules, and says which one it breaks.
fn step(ledger: &mut Ledger, clock: u32, command: &Command) -> Option<u8> {
    let clock = u64::from(clock);
    let broken = ledger.broken(clock, command);
    if broken.is_none() {
        ledger.issue(clock, command);
    }
    broken
}

fn act() -> Option<Command> {
    Some(Command::Act(Bank::numbered(0), Row::new(0)?))
}

fn rd() -> Option<Command> {
    Some(Command::Rd(Bank::numbered(0), Column::new(0)?))
}

fn wr() -> Option<Command> {
    Some(Command::Wr(Bank::numbered(0), Column::new(0)?))
}

fn ref_same() -> Option<Command> {
    Some(Command::RefSb(BankAddr::new(0)?))
}

fn rfm_same() -> Option<Command> {
    Some(Command::RfmSb(BankAddr::new(0)?))
}

// A command is let through at the clocks of the worked job of the README.
#[test]
fn one_bank_in_turn(rt: HostRuntime) -> Result<(), Fail> {
    // a clock, a command, and the least rule that it breaks there
    let turns = [
        (0_u32, rd(), Some(4)),
        (32, act(), None),
        (32, wr(), Some(1)),
        (34, wr(), Some(2)),
        (35, wr(), None),
        (50, rd(), Some(2)),
        (51, rd(), None),
        (53, Some(Command::PreAb), Some(2)),
        (54, Some(Command::PreAb), None),
    ];
    let mut ledger = fresh(rt.alloc()).ok_or("ledger")?;
    for (clock, command, broken) in turns {
        let command = command.ok_or("command")?;
        assert_eq!(rt; step(&mut ledger, clock, &command), broken, "{clock}");
    }
    assert!(rt; ledger.all_closed());
    Ok(())
}

#[test]
fn refreshes_of_closed_banks(rt: HostRuntime) -> Result<(), Fail> {
    // a clock, a command, and the least rule that it breaks there
    let turns = [
        (0_u32, act(), None),
        (50, Some(Command::RefAb), Some(5)),
        (50, act(), Some(4)),
        (50, Some(Command::PreAb), None),
        (94, rfm_same(), Some(10)),
        (94, ref_same(), None),
        (200, ref_same(), Some(7)),
        (200, Some(Command::Ecs), Some(8)),
        (6000, Some(Command::Nop), Some(6)),
        (200, Some(Command::RefAb), None),
    ];
    let mut ledger = fresh(rt.alloc()).ok_or("ledger")?;
    for (clock, command, broken) in turns {
        let command = command.ok_or("command")?;
        assert_eq!(rt; step(&mut ledger, clock, &command), broken, "{clock}");
    }
    Ok(())
}
