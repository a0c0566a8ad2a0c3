ghost use Rattle.bank_state.specs.Standing.{StandsForSome};

use crate::{Banks, StateFault};
use command_words::{Bank, BankAddr, Column, Command, Group, Mrw, Row};
use std::test::Fail;

// Issues the command if it fits.
fn step(banks: &mut Banks, command: &Command) -> Result<(), StateFault>
    requires { StandsForSome banks.old }
    ensures { StandsForSome banks.new }
{
    banks.fits(command)?;
    banks.issue(command);
    Ok(())
}

fn bank(group: u8, address: u8) -> Option<Bank> {
    Some(Bank {
        group: Group::new(group)?,
        address: BankAddr::new(address)?,
    })
}

fn act(group: u8, address: u8) -> Option<Command> {
    Some(Command::Act(bank(group, address)?, Row::new(9)?))
}

fn rd(group: u8, address: u8) -> Option<Command> {
    Some(Command::Rd(bank(group, address)?, Column::new(1)?))
}

fn wr(group: u8, address: u8) -> Option<Command> {
    Some(Command::Wr(bank(group, address)?, Column::new(1)?))
}

fn pre(group: u8, address: u8) -> Option<Command> {
    Some(Command::PrePb(bank(group, address)?))
}

fn pre_same(address: u8) -> Option<Command> {
    Some(Command::PreSb(BankAddr::new(address)?))
}

fn ref_same(address: u8) -> Option<Command> {
    Some(Command::RefSb(BankAddr::new(address)?))
}

const WRITE: Mrw = Mrw {
    address: 64,
    value: 15,
};

#[test]
fn commands_in_turn(rt: HostRuntime) -> Result<(), Fail> {
    let turns = [
        (Some(Command::Mrw(WRITE)), Ok(())),
        (rd(0, 0), Err(StateFault::IsClosed)),
        (act(0, 0), Ok(())),
        (act(0, 0), Err(StateFault::IsOpen)),
        (act(5, 0), Ok(())),
        (act(7, 3), Ok(())),
        (rd(0, 0), Ok(())),
        (wr(7, 3), Ok(())),
        (ref_same(3), Err(StateFault::NotAllClosed)),
        (pre_same(0), Ok(())),
        (ref_same(0), Ok(())),
        (wr(5, 0), Err(StateFault::IsClosed)),
        (rd(7, 3), Ok(())),
        (Some(Command::Ecs), Err(StateFault::NotAllClosed)),
        (pre(7, 3), Ok(())),
        (Some(Command::RfmAb), Ok(())),
        (act(5, 0), Ok(())),
        (Some(Command::RefAb), Err(StateFault::NotAllClosed)),
        (Some(Command::PreAb), Ok(())),
        (Some(Command::RefAb), Ok(())),
        (Some(Command::Nop), Ok(())),
    ];
    let mut banks = Banks::new();
    for (command, want) in turns {
        let command = command.ok_or("command")?;
        assert_eq!(rt; step(&mut banks, &command), want, "{command:?}");
    }
    Ok(())
}

#[test]
fn rows_open_and_close(rt: HostRuntime) -> Result<(), Fail> {
    let mut banks = Banks::new();
    assert!(rt; banks.all_closed());
    assert_eq!(rt; banks.open_row(bank(2, 1).ok_or("bank")?), None);
    step(&mut banks, &act(2, 1).ok_or("command")?)?;
    assert!(rt; !banks.all_closed());
    assert_eq!(rt; banks.open_row(bank(2, 1).ok_or("bank")?), Row::new(9));
    step(&mut banks, &pre(2, 1).ok_or("command")?)?;
    assert!(rt; banks.all_closed());
    Ok(())
}

#[test]
fn each_fault_has_its_number(rt: HostRuntime) {
    let rows = [
        (StateFault::IsOpen, 1),
        (StateFault::IsClosed, 2),
        (StateFault::NotAllClosed, 3),
    ];
    for (fault, number) in rows {
        assert_eq!(rt; number, fault as u8);
    }
}
