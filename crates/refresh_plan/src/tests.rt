ghost use Rattle.std.specs.Prelude.{◌<◌, ◌^◌, IfSome};
ghost use Rattle.refresh_plan.specs.Standing.{StandsForSome};

use crate::{Due, Plan};
use command_words::{BankAddr, Command};
use speed_bin::{Header, RefreshMode, Settings, Version, named};
use std::test::Fail;

fn plan(bin: &str, refresh: RefreshMode, ecs_every: u32) -> Option<Plan>
    ensures { IfSome result (λ plan. StandsForSome plan) }
{
    let timing = named(bin)?;
    if timing.nrefi < 1 || timing.nrefi > 65535 {
        return None;
    }
    let settings = Settings {
        rows: 16,
        ath: 5,
        eth: 3,
        raaimt: 8,
        raammt: 16,
        refresh,
        ecs_every,
    };
    Some(Plan::new(&Header {
        timing,
        settings,
        version: Version::plain(),
    }))
}

fn ref_same(address: u8) -> Option<Command> {
    Some(Command::RefSb(BankAddr::new(address)?))
}

fn same(address: u8) -> Option<Due> {
    Some(Due::Same(BankAddr::new(address)?))
}

// Issues the command at the clock if it is allowed, and says whether it was.
fn step(plan: &mut Plan, clock: u64, command: &Command) -> bool
    requires clock { clock < 2 ^ 48 }
    requires stands { StandsForSome plan.old }
    ensures { StandsForSome plan.new }
{
    if !plan.allowed(command, clock) {
        return false;
    }
    plan.issue(clock, command);
    true
}

#[test]
fn refreshes_of_all_banks(rt: HostRuntime) -> Result<(), Fail> {
    let mut plan = plan("4800-prac", RefreshMode::All, 0).ok_or("bin")?;
    for clock in [18750_u32, 28125, 37500, 46875] {
        let clock = u64::from(clock);
        assert_eq!(rt; plan.next_due(), clock);
        assert_eq!(rt; plan.due(clock.saturating_sub(1)), None);
        assert_eq!(rt; plan.due(clock), Some(Due::All));
        assert!(rt; step(&mut plan, clock, &Command::RefAb));
        assert_eq!(rt; plan.due(clock), None);
    }
    assert!(rt; plan.allowed_at_end(50239));
    assert!(rt; !plan.allowed_at_end(84375));
    Ok(())
}

#[test]
fn refreshes_of_one_address(rt: HostRuntime) -> Result<(), Fail> {
    let mut plan = plan("tiny", RefreshMode::Same, 0).ok_or("bin")?;
    assert_eq!(rt; plan.next_due(), 2000);
    for address in 0..4 {
        let clock = 2000 + u64::from(address);
        let command = ref_same(address).ok_or("address")?;
        assert_eq!(rt; plan.due(clock), same(address));
        assert!(rt; step(&mut plan, clock, &command));
        assert!(rt; address == 3 || plan.broken(&command, clock) == Some(7));
    }
    assert_eq!(rt; plan.due(2999), None);
    assert_eq!(rt; plan.due(3000), same(0));
    assert_eq!(rt; plan.debt(BankAddr::new(3).ok_or("address")?, 3999), 2);
    Ok(())
}

#[test]
fn commands_in_turn(rt: HostRuntime) -> Result<(), Fail> {
    // a clock, a command, the least rule that it breaks there, and whether an ECS is due then
    let turns = [
        (0_u32, Command::Ecs, Some(8), false),
        (10, Command::RefAb, None, false),
        (20, Command::Ecs, Some(8), false),
        (30, Command::RefAb, None, true),
        (40, Command::RefAb, Some(8), true),
        (50, Command::Ecs, None, false),
        (60, Command::Ecs, Some(8), false),
        (70, Command::RefAb, None, false),
        (80, Command::RefAb, None, true),
        (90, Command::Ecs, None, false),
        (999, Command::RefAb, Some(6), false),
        (1000, Command::RefAb, None, false),
        (9999, Command::PreAb, None, false),
        (10000, Command::PreAb, Some(6), false),
    ];
    let mut plan = plan("tiny", RefreshMode::All, 2).ok_or("bin")?;
    for (clock, command, broken, ecs_due) in turns {
        let clock = u64::from(clock);
        assert_eq!(rt; plan.broken(&command, clock), broken, "{clock}");
        let issued = step(&mut plan, clock, &command);
        assert_eq!(rt; issued, broken.is_none(), "{clock}");
        assert_eq!(rt; plan.ecs_due(), ecs_due, "{clock}");
    }
    Ok(())
}
