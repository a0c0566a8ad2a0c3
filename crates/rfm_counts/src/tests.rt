ghost use Rattle.std.specs.Prelude.{◌≡◌};
ghost use Rattle.speed_bin.specs.declared.header.Header.{Header as AnyHeader};
ghost use Rattle.speed_bin.specs.Log.{Log};
ghost use Rattle.speed_bin.specs.Rules.{rule_9};
ghost use Rattle.rfm_counts.specs.Standing.{StandsFor, StandsForSome};

use crate::Raa;
use command_words::{Bank, BankAddr, Command, Group, Row};
use speed_bin::{RefreshMode, Settings};
use std::test::Fail;

const SETTINGS: Settings = Settings {
    rows: 16,
    ath: 100,
    eth: 50,
    raaimt: 8,
    raammt: 8,
    refresh: RefreshMode::All,
    ecs_every: 0,
};

fn fresh() -> Raa
    ensures { StandsForSome result }
{
    Raa::new(&SETTINGS)
}

fn bank(group: u8, address: u8) -> Option<Bank> {
    Some(Bank {
        group: Group::new(group)?,
        address: BankAddr::new(address)?,
    })
}

fn act(group: u8, address: u8) -> Option<Command> {
    Some(Command::Act(bank(group, address)?, Row::new(0)?))
}

fn rfm_same(address: u8) -> Option<Command> {
    Some(Command::RfmSb(BankAddr::new(address)?))
}

fn ref_same(address: u8) -> Option<Command> {
    Some(Command::RefSb(BankAddr::new(address)?))
}

fn is_allowed(raa: &Raa, command: &Command) -> bool
    ensures { (h : AnyHeader) (log : Log) → StandsFor raa.now h log → result ≡ rule_9 h command.now log }
{
    match command {
        Command::Act(bank, _) => raa.may_activate(*bank),
        _ => true,
    }
}

// Issues the command if it is allowed, and says whether it was.
fn step(raa: &mut Raa, command: &Command) -> bool
    requires { StandsForSome raa.old }
    ensures { StandsForSome raa.new }
{
    if !is_allowed(raa, command) {
        return false;
    }
    raa.issue(command);
    true
}

#[test]
fn ninth_activation_is_not_allowed(rt: HostRuntime) -> Result<(), Fail> {
    let mut raa = fresh();
    for number in 0..9 {
        let command = act(0, 0).ok_or("command")?;
        assert_eq!(rt; step(&mut raa, &command), number < 8, "{number}");
    }
    Ok(())
}

#[test]
fn counts_in_turn(rt: HostRuntime) -> Result<(), Fail> {
    // a command, the count of the first bank of address 1 after it, and the address for which an RFM is wanted
    let turns = [
        (Some(Command::RefAb), 0, None),
        (act(0, 1), 1, None),
        (act(0, 1), 2, None),
        (act(0, 1), 3, None),
        (act(0, 1), 4, None),
        (act(0, 1), 5, None),
        (act(0, 1), 6, None),
        (act(0, 1), 7, None),
        (act(0, 1), 8, BankAddr::new(1)),
        (rfm_same(0), 8, BankAddr::new(1)),
        (ref_same(2), 8, BankAddr::new(1)),
        (ref_same(1), 4, None),
        (Some(Command::PreAb), 4, None),
        (Some(Command::RefAb), 0, None),
        (act(0, 1), 1, None),
        (rfm_same(1), 0, None),
        (act(0, 1), 1, None),
        (Some(Command::RfmAb), 0, None),
    ];
    let mut raa = fresh();
    for (command, count, wanted) in turns {
        let command = command.ok_or("command")?;
        assert!(rt; step(&mut raa, &command), "{command:?}");
        assert_eq!(rt; raa.count(bank(0, 1).ok_or("bank")?), count, "{command:?}");
        assert_eq!(rt; raa.wanted(), wanted, "{command:?}");
    }
    Ok(())
}
