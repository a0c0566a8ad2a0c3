ghost use Rattle.std.specs.Prelude.{ℕ};
ghost use Rattle.speed_bin.specs.Log.{Log};
ghost use Rattle.speed_bin.specs.Timing.{IsTiming};
ghost use Rattle.speed_bin.specs.declared.timing.Timing.{Timing};
ghost use Rattle.timing_rules.specs.Gate.{StandsFor};

use super::*;
use crate::gap;
use command_words::{Bank, BankAddr, Column, Group, Mrw, Row};
use rand_core::utils::NextWord;
use rand_pcg::Pcg32;
use speed_bin::TINY;
use std::process::Abort;

// The least clock of the command behind the others; `None` where one of those comes too soon, or memory is short.
fn earliest_after(
    alloc: Global,
    timing: &Timing,
    issued: &[(Clock, Command)],
    command: &Command,
) -> Option<Clock>
    requires { IsTiming timing.now }
{
    let mut gate = Gate::new(alloc, timing).ok()?;
    for (clock, earlier) in issued {
        if !issue_in_time(&mut gate, *clock, earlier) {
            return None;
        }
    }
    Some(gate.earliest(command))
}

// The least rule that the command breaks behind the others at this clock; `None` where one of those comes too soon, or
// memory is short.
fn broken_after(
    alloc: Global,
    timing: &Timing,
    issued: &[(Clock, Command)],
    clock: Clock,
    command: &Command,
) -> Option<Option<u8>>
    requires { IsTiming timing.now }
{
    let mut gate = Gate::new(alloc, timing).ok()?;
    for (clock, earlier) in issued {
        if !issue_in_time(&mut gate, *clock, earlier) {
            return None;
        }
    }
    Some(gate.broken(clock, command))
}

// Issues the command if it is not too soon for it.
fn issue_in_time(gate: &mut Gate, clock: Clock, command: &Command) -> bool {
    if clock < 1 << 48 && gate.earliest(command) <= clock {
        gate.issue(clock, command);
        return true;
    }
    false
}

fn write() -> Command {
    Command::Mrw(Mrw {
        address: 64,
        value: 0,
    })
}

// The small timing of examples.
fn tiny() -> Timing
    ensures { IsTiming result }
{
    TINY
}

fn bank(rt: &impl Abort, group: u8) -> Bank {
    Bank {
        group: Group::new(group).expect(rt, "a group"),
        address: BankAddr::new(0).expect(rt, "an address"),
    }
}

fn act(rt: &impl Abort, group: u8) -> Command {
    Command::Act(bank(rt, group), Row::new(0).expect(rt, "a row"))
}

fn rd(rt: &impl Abort, group: u8) -> Command {
    Command::Rd(bank(rt, group), Column::new(0).expect(rt, "a column"))
}

fn wr(rt: &impl Abort, group: u8) -> Command {
    Command::Wr(bank(rt, group), Column::new(0).expect(rt, "a column"))
}

#[test]
fn waits_for_the_window_of_five_acts(rt: HostRuntime) {
    let issued = [
        (32, act(&rt, 0)),
        (34, act(&rt, 1)),
        (36, act(&rt, 2)),
        (38, act(&rt, 3)),
    ];
    let found = earliest_after(rt.alloc(), &tiny(), &issued, &act(&rt, 4));
    assert_eq!(rt; found, Some(42));
}

#[test]
fn names_the_least_rule_that_fails(rt: HostRuntime) {
    let issued = [
        (32, act(&rt, 0)),
        (34, act(&rt, 1)),
        (36, act(&rt, 2)),
        (38, act(&rt, 3)),
    ];
    for (clock, want) in [
        (38, Some(1)),
        (39, Some(2)),
        (40, Some(3)),
        (41, Some(3)),
        (42, None),
    ] {
        let found = broken_after(rt.alloc(), &tiny(), &issued, clock, &act(&rt, 4));
        assert_eq!(rt; found, Some(want));
    }
}

#[test]
fn waits_for_every_earlier_command(rt: HostRuntime) {
    let issued = [
        (0, write()),
        (4, write()),
        (8, write()),
        (12, write()),
        (16, write()),
        (20, write()),
        (24, write()),
        (28, write()),
        (32, act(&rt, 0)),
        (34, act(&rt, 1)),
        (36, wr(&rt, 0)),
        (50, rd(&rt, 1)),
    ];
    let close = Command::PrePb(bank(&rt, 0));
    for (count, command, want) in [(11, rd(&rt, 1), 50), (11, rd(&rt, 0), 52), (12, close, 53)] {
        let found = earliest_after(rt.alloc(), &tiny(), &issued[..count], &command);
        assert_eq!(rt; found, Some(want));
    }
}

#[test]
fn starts_at_clock_0(rt: HostRuntime) {
    let found = earliest_after(rt.alloc(), &tiny(), &[], &act(&rt, 0));
    assert_eq!(rt; found, Some(0));
}

#[test]
fn keeps_the_table(rt: HostRuntime) {
    for (first, second, want) in [
        (wr(&rt, 0), rd(&rt, 1), 14),
        (wr(&rt, 0), rd(&rt, 0), 16),
        (rd(&rt, 0), wr(&rt, 1), 12),
        (act(&rt, 0), act(&rt, 1), 2),
        (act(&rt, 0), act(&rt, 0), 10),
        (wr(&rt, 0), Command::PreAb, 17),
        (Command::RefAb, Command::Nop, 1),
        (Command::RefAb, act(&rt, 0), 20),
        (write(), Command::Nop, 2),
    ] {
        assert_eq!(rt; gap(&tiny(), &first, &second), want);
    }
}

// The plain program: every command is kept, and each is looked at.
fn scanned(timing: &Timing, issued: &[(Clock, Command)], command: &Command) -> Clock
    requires { IsTiming timing.now }
{
    let mut least = 0u64;
    for (clock, earlier) in issued {
        least = least.max(clock.saturating_add(u64::from(gap(timing, earlier, command))));
    }
    if !command.is_act() {
        return least;
    }
    match issued
        .iter()
        .rev()
        .filter(|(_, earlier)| earlier.is_act())
        .nth(3)
    {
        Some((clock, _)) => least.max(clock.saturating_add(u64::from(timing.nfaw))),
        None => least,
    }
}

// A command by the bits of a word: three in four are ACT, RD, WR or a precharge.
fn command_of(word: u32) -> Option<Command> {
    let group = Group::new(u8::try_from((word >> 8) % 8).ok()?)?;
    let address = BankAddr::new(u8::try_from((word >> 16) % 4).ok()?)?;
    let bank = Bank { group, address };
    let command = match word % 16 {
        0 | 1 | 2 => Command::Act(bank, Row::new(0)?),
        3 | 4 | 5 => Command::Rd(bank, Column::new(0)?),
        6 | 7 | 8 => Command::Wr(bank, Column::new(0)?),
        9 => Command::PrePb(bank),
        10 => Command::PreSb(address),
        11 => Command::PreAb,
        12 => Command::RefSb(address),
        13 => Command::RfmSb(address),
        14 => match (word >> 4) % 4 {
            0 => Command::RefAb,
            1 => Command::RfmAb,
            2 => Command::Ecs,
            _ => write(),
        },
        _ => Command::Nop,
    };
    Some(command)
}

// Of so many random commands, each issued at most 3 clocks late, the number before the first for which the gate and
// the plain program answer differently.
fn agreed(alloc: Global, timing: &Timing, count: u32) -> Option<u32>
    requires { IsTiming timing.now }
{
    let mut gate = Gate::new(alloc, timing).ok()?;
    let mut issued = Vec::new(alloc);
    let mut words = Pcg32::new(42, 54);
    for step in 0..count {
        let command = command_of(words.next_word())?;
        let earliest = gate.earliest(&command);
        if earliest != scanned(timing, &issued, &command) {
            return Some(step);
        }
        let clock = earliest + u64::from(words.next_word() % 4);
        if !issue_in_time(&mut gate, clock, &command) {
            return None;
        }
        issued.push((clock, command)).ok()?;
    }
    Some(count)
}

#[test]
fn answers_as_the_plain_program(rt: HostRuntime) {
    assert_eq!(rt; agreed(rt.alloc(), &tiny(), 1000), Some(1000));
}
