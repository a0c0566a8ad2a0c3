//! Worked clocks of both ranks. Each command is tried on the rules 1 to 10 of its rank before it is issued.
ghost use Rattle.std.specs.Prelude.{ℕ, ◌<◌, ◌^◌, [], IsTrue};
ghost use Rattle.log_ledger.specs.Standing.{Follows, StandsFor as LedgerFor};
ghost use Rattle.rank_bus.specs.Buses.{BusLog, part};
ghost use Rattle.rank_bus.specs.Sides.{SidesStandFor};
ghost use Rattle.rank_bus.specs.Standing.{StandsFor};
ghost use Rattle.rank_bus.specs.Trial.{AgreeOnSome};
ghost use Rattle.speed_bin.specs.Header.{IsAccepted};
ghost use Rattle.speed_bin.specs.Log.{Log};
ghost use Rattle.speed_bin.specs.declared.header.Header.{Header as AnyHeader};

use crate::sides::Sides;
use crate::{Bus, Rank};
use command_words::{Bank, BankAddr, Column, Command, Group, Mrw, Row};
use log_ledger::Ledger;
use speed_bin::{Header, Version, read_header};
use std::alloc::Global;
use std::marker::Model;
use std::test::Fail;

const PLAIN: &[u8] =
    b"format = 1\nbin = \"tiny\"\nrows = 16\nath = 5\neth = 3\nraaimt = 8\nraammt = 16\nrefresh = \"all\"\necs_every = 0\n";

const SCRUBBED: &[u8] =
    b"format = 1\nbin = \"tiny\"\nrows = 16\nath = 5\neth = 3\nraaimt = 8\nraammt = 16\nrefresh = \"all\"\necs_every = 1\n";

const SAME_BANK: &[u8] =
    b"format = 1\nbin = \"tiny\"\nrows = 16\nath = 5\neth = 3\nraaimt = 8\nraammt = 16\nrefresh = \"same\"\necs_every = 0\n";

// A bus, and beside it both sides, which keep the same list and say whether a command keeps the rules.
#[derive(Drop)]
struct Trial {
    bus: Bus,
    sides: Sides,
}

impl Model for Trial {
    ghost use Rattle.rank_bus.specs.Trial.{AgreeOnSome, Tried};

    ghost Value = { Tried };

    ghost view = { λ t. record { bus = t.bus; sides = t.sides } };

    ghost invariant = { λ t. AgreeOnSome t.bus t.sides };
}

impl Trial {
    // Issues the command where it keeps the rules, and says at which clock.
    fn issue(&mut self, rank: Rank, command: &Command) -> Option<u64> {
        step(&mut self.bus, &mut self.sides, rank, command)
    }

    // Issues what the service of the rank needs, if it needs something.
    fn serve(&mut self, rank: Rank) -> Option<u64> {
        let command = self.bus.service(rank)?;
        self.issue(rank, &command)
    }

    // No command comes before this clock.
    fn wait(&mut self, clock: u32) {
        self.bus.wait(u64::from(clock));
    }

    // Writes a register of each rank eight times.
    fn write_registers(&mut self) {
        for _ in 0..8 {
            let _ = self.issue(Rank::Zero, &register_write());
        }
        for _ in 0..8 {
            let _ = self.issue(Rank::One, &register_write());
        }
    }
}

fn fresh(alloc: Global, text: &[u8]) -> Option<Trial> {
    let Ok(header) = read_header(alloc, text, Version::plain()) else {
        return None;
    };
    match Bus::new(alloc, &header) {
        Ok(bus) => beside(alloc, &header, bus),
        Err(_) => None,
    }
}

// The two sides beside a bus of no commands.
fn beside(alloc: Global, header: &Header, bus: Bus) -> Option<Trial>
    requires accepted { IsAccepted header.now }
    requires stands { StandsFor bus header.now [] }
{
    match Sides::new(alloc, header) {
        Ok(sides) => Some(Trial { bus, sides }),
        Err(_) => None,
    }
}

fn step(bus: &mut Bus, sides: &mut Sides, rank: Rank, command: &Command) -> Option<u64>
    requires { AgreeOnSome bus.old sides.old }
    ensures { AgreeOnSome bus.new sides.new }
{
    let clock = bus.earliest(rank, command);
    if clock >= 1_000_000 {
        return None;
    }
    if !keeps_rules(sides, rank, clock, command) {
        return None;
    }
    bus.issue(rank, command);
    sides.issue(rank, clock, command);
    Some(clock)
}

// Whether the command of the rank keeps the rules 1 to 10 at this clock.
fn keeps_rules(sides: &Sides, rank: Rank, clock: u64, command: &Command) -> bool
    requires { clock < 2 ^ 48 }
    ensures { (h : AnyHeader) (log : BusLog) → SidesStandFor sides.now h log → IsTrue result → Follows h clock command.now (part rank log) }
{
    match rank {
        Rank::Zero => breaks_none(&sides.zero.ledger, clock, command),
        Rank::One => breaks_none(&sides.one.ledger, clock, command),
    }
}

fn breaks_none(ledger: &Ledger, clock: u64, command: &Command) -> bool
    requires { clock < 2 ^ 48 }
    ensures { (h : AnyHeader) (log : Log) → LedgerFor ledger.now h log → IsTrue result → Follows h clock command.now log }
{
    ledger.broken(clock, command).is_none()
}

fn register_write() -> Command {
    Command::Mrw(Mrw {
        address: 64,
        value: 0,
    })
}

fn act() -> Option<Command> {
    Some(Command::Act(Bank::numbered(0), Row::new(0)?))
}

// An ACT of the bank with this number.
fn act_of(number: u8) -> Option<Command> {
    Some(Command::Act(bank_of(number)?, Row::new(0)?))
}

fn precharge_of(number: u8) -> Option<Command> {
    Some(Command::PrePb(bank_of(number)?))
}

// The bank of group 0 with this address.
fn bank_of(address: u8) -> Option<Bank> {
    Some(Bank {
        group: Group::new(0)?,
        address: BankAddr::new(address)?,
    })
}

fn ref_same(address: u8) -> Option<Command> {
    Some(Command::RefSb(BankAddr::new(address)?))
}

fn rfm_same(address: u8) -> Option<Command> {
    Some(Command::RfmSb(BankAddr::new(address)?))
}

fn rd() -> Option<Command> {
    Some(Command::Rd(Bank::numbered(0), Column::new(0)?))
}

fn wr() -> Option<Command> {
    Some(Command::Wr(Bank::numbered(0), Column::new(0)?))
}

fn precharge() -> Option<Command> {
    Some(Command::PrePb(Bank::numbered(0)))
}

// A write and a read of rank 0, with a read of rank 1 between: the second RD of the bus waits for the burst of the other
// rank.
#[test]
fn reads_of_both_ranks_in_turn(rt: HostRuntime) -> Result<(), Fail> {
    let mut trial = fresh(rt.alloc(), PLAIN).ok_or("trial")?;
    for write in 0..8_u64 {
        assert_eq!(rt; trial.issue(Rank::Zero, &register_write()), Some(4 * write));
    }
    for write in 0..8_u64 {
        assert_eq!(rt;
            trial.issue(Rank::One, &register_write()),
            Some(30 + 4 * write)
        );
    }
    assert_eq!(rt; trial.bus.now(), 59);
    let turns = [
        (Rank::Zero, act(), 60_u64),
        (Rank::Zero, wr(), 63),
        (Rank::Zero, precharge(), 80),
        (Rank::One, act(), 81),
        (Rank::One, rd(), 84),
        (Rank::One, precharge(), 87),
        (Rank::Zero, act(), 88),
        (Rank::Zero, rd(), 94),
        (Rank::Zero, precharge(), 97),
    ];
    for (rank, command, clock) in turns {
        let command = command.ok_or("command")?;
        assert_eq!(rt; trial.issue(rank, &command), Some(clock));
        assert_eq!(rt; trial.bus.now(), clock + 1);
    }
    Ok(())
}

// Five reads of one row of rank 0, and the RFMab that answers its alert, before a read of rank 1.
#[test]
fn the_other_rank_comes_behind_the_management(rt: HostRuntime) -> Result<(), Fail> {
    let mut trial = fresh(rt.alloc(), PLAIN).ok_or("trial")?;
    trial.write_registers();
    for read in 0..5_u64 {
        let from = 60 + 10 * read;
        assert_eq!(rt; trial.issue(Rank::Zero, &act().ok_or("act")?), Some(from));
        assert_eq!(rt; trial.issue(Rank::Zero, &rd().ok_or("rd")?), Some(from + 3));
        assert_eq!(rt;
            trial.issue(Rank::Zero, &precharge().ok_or("precharge")?),
            Some(from + 6)
        );
    }
    assert_eq!(rt; trial.issue(Rank::Zero, &Command::RfmAb), Some(110));
    assert_eq!(rt; trial.bus.service(Rank::Zero), None);
    assert_eq!(rt; trial.bus.service(Rank::One), None);
    assert_eq!(rt; trial.issue(Rank::One, &act().ok_or("act")?), Some(111));
    assert_eq!(rt; trial.issue(Rank::One, &rd().ok_or("rd")?), Some(114));
    assert_eq!(rt;
        trial.issue(Rank::One, &precharge().ok_or("precharge")?),
        Some(117)
    );
    assert_eq!(rt; trial.bus.now(), 118);
    Ok(())
}

// What rank 1 waits for behind an RD, and behind a WR, of rank 0 at clock 63.
#[test]
fn bursts_do_not_meet(rt: HostRuntime) -> Result<(), Fail> {
    // a column of rank 0, and the earliest clocks of an RD, a WR and an ACT of rank 1
    let turns = [(rd(), 73_u64, 75_u64, 65_u64), (wr(), 71, 73, 65)];
    for (column, read, write, other) in turns {
        let mut trial = fresh(rt.alloc(), PLAIN).ok_or("trial")?;
        trial.write_registers();
        assert_eq!(rt; trial.issue(Rank::Zero, &act().ok_or("act")?), Some(60));
        assert_eq!(rt; trial.issue(Rank::Zero, &column.ok_or("column")?), Some(63));
        assert_eq!(rt; trial.bus.earliest(Rank::One, &rd().ok_or("rd")?), read);
        assert_eq!(rt; trial.bus.earliest(Rank::One, &wr().ok_or("wr")?), write);
        assert_eq!(rt; trial.bus.earliest(Rank::One, &act().ok_or("act")?), other);
    }
    Ok(())
}

// Both ranks fall due at one clock; the scrub comes behind its refresh.
#[test]
fn refreshes_and_scrubs_of_both_ranks(rt: HostRuntime) -> Result<(), Fail> {
    let mut trial = fresh(rt.alloc(), SCRUBBED).ok_or("trial")?;
    trial.write_registers();
    assert_eq!(rt; trial.bus.next_due(), 2000);
    trial.wait(1999);
    assert_eq!(rt; trial.bus.service(Rank::Zero), None);
    trial.wait(2000);
    assert_eq!(rt; trial.bus.service(Rank::Zero), Some(Command::RefAb));
    assert_eq!(rt; trial.serve(Rank::Zero), Some(2000));
    assert_eq!(rt; trial.bus.service(Rank::Zero), Some(Command::Ecs));
    assert_eq!(rt; trial.serve(Rank::Zero), Some(2020));
    assert_eq!(rt; trial.serve(Rank::Zero), None);
    assert_eq!(rt; trial.bus.next_due(), 2000);
    assert_eq!(rt; trial.serve(Rank::One), Some(2021));
    assert_eq!(rt; trial.serve(Rank::One), Some(2041));
    assert_eq!(rt; trial.serve(Rank::One), None);
    assert_eq!(rt; trial.bus.next_due(), 3000);
    trial.wait(2000);
    assert_eq!(rt; trial.bus.now(), 2042);
    Ok(())
}

// Refreshes of one address do not wait for each other.
#[test]
fn one_address_after_the_other(rt: HostRuntime) -> Result<(), Fail> {
    let mut trial = fresh(rt.alloc(), SAME_BANK).ok_or("trial")?;
    trial.write_registers();
    trial.wait(2000);
    for address in 0..4_u8 {
        assert_eq!(rt; trial.bus.service(Rank::One), ref_same(address));
        assert_eq!(rt; trial.serve(Rank::One), Some(2000 + u64::from(address)));
    }
    assert_eq!(rt; trial.serve(Rank::One), None);
    Ok(())
}

// Of two addresses at RAAIMT the lower one is managed first.
#[test]
fn the_lower_address_is_managed_first(rt: HostRuntime) -> Result<(), Fail> {
    let mut trial = fresh(rt.alloc(), PLAIN).ok_or("trial")?;
    trial.write_registers();
    for number in [2_u8, 1] {
        for _ in 0..8 {
            let _ = trial.issue(Rank::One, &act_of(number).ok_or("act")?);
            let _ = trial.issue(Rank::One, &precharge_of(number).ok_or("precharge")?);
        }
    }
    assert_eq!(rt; trial.bus.service(Rank::One), rfm_same(1));
    let _ = trial.serve(Rank::One);
    assert_eq!(rt; trial.bus.service(Rank::One), rfm_same(2));
    let _ = trial.serve(Rank::One);
    assert_eq!(rt; trial.serve(Rank::One), None);
    Ok(())
}
