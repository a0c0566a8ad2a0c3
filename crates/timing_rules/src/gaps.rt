//! The gap between two commands, by the table of `docs/RULES.md`: a function for the rows of each kind of first
//! command, in the order of the table.
ghost use Rattle.std.specs.Prelude.{ℕ, ◌≡◌, ◌<◌, ◌≤◌, ◌^◌, ◌==◌, ◌&&◌, ◌||◌, not, max, if◌then◌else◌};
ghost use Rattle.command_words.specs.declared.place.Bank.{Bank};
ghost use Rattle.speed_bin.specs.Gap.{gap, meet};
ghost use Rattle.command_words.specs.Kinds.{group_of, is_act, is_nop, needs_closed};
ghost use Rattle.speed_bin.specs.Timing.{IsClocks, IsTiming};

use crate::scope::meet;
use command_words::Command;
use speed_bin::Timing;

/// How many clocks the second command stands behind the first at the least: the greatest entry of the table that
/// applies to the two, 1 to 262,143 clocks.
pub fn gap(timing: &Timing, first: &Command, second: &Command) -> u32
    requires { IsTiming timing.now }
    ensures gap { result ≡ gap timing.now first.now second.now }
    ensures in_range { (1 ≤ result) × (result < 2 ^ 18) }
{
    let together = meet(first, second);
    let same_group = first.group() == second.group();
    match first {
        Command::Act(_, _) => after_act(timing, second, same_group, together),
        Command::Rd(_, _) => after_rd(timing, second, same_group, together),
        Command::Wr(_, _) => after_wr(timing, second, same_group, together),
        Command::PrePb(_) => after_precharge(timing, second, together),
        Command::PreSb(_) => after_precharge(timing, second, together),
        Command::PreAb => after_precharge(timing, second, together),
        Command::RefAb => after_busy(timing.nrfc, second, true),
        Command::RefSb(_) => after_busy(timing.nrfcsb, second, together),
        Command::RfmAb => after_busy(timing.nrfm, second, true),
        Command::RfmSb(_) => after_busy(timing.nrfmsb, second, together),
        Command::Mrw(_) => after_busy(timing.nmrd, second, true).max(2),
        Command::Ecs => after_busy(timing.necs, second, true),
        Command::Nop => 1,
    }
}

fn after_act(timing: &Timing, second: &Command, same_group: bool, together: bool) -> u32
    requires { IsTiming timing.now }
    ensures gap { (bank : Bank) (row : ℕ) → same_group ≡ (bank.group == group_of second.now) → together ≡ meet (Command.Act bank row) second.now → result ≡ gap timing.now (Command.Act bank row) second.now }
    ensures in_range { (1 ≤ result) × (result < 2 ^ 18) }
{
    entry(true, 2)
        .max(entry(second.is_act(), timing.nrrd_s))
        .max(entry_where(second.is_act(), same_group, timing.nrrd_l))
        .max(entry_where(second.is_act(), together, timing.nrc))
        .max(entry_where(second.is_column(), together, timing.nrcd))
        .max(entry_where(second.is_precharge(), together, timing.nras))
}

fn after_rd(timing: &Timing, second: &Command, same_group: bool, together: bool) -> u32
    requires { IsTiming timing.now }
    ensures gap { (bank : Bank) (column : ℕ) → same_group ≡ (bank.group == group_of second.now) → together ≡ meet (Command.Rd bank column) second.now → result ≡ gap timing.now (Command.Rd bank column) second.now }
    ensures in_range { (1 ≤ result) × (result < 2 ^ 18) }
{
    entry(true, 2)
        .max(entry(second.is_rd(), timing.nccd_s))
        .max(entry_where(second.is_rd(), same_group, timing.nccd_l))
        .max(entry(
            second.is_wr(),
            (timing.ncl + 10).saturating_sub(timing.ncwl),
        ))
        .max(entry_where(second.is_precharge(), together, timing.nrtp))
}

fn after_wr(timing: &Timing, second: &Command, same_group: bool, together: bool) -> u32
    requires { IsTiming timing.now }
    ensures gap { (bank : Bank) (column : ℕ) → same_group ≡ (bank.group == group_of second.now) → together ≡ meet (Command.Wr bank column) second.now → result ≡ gap timing.now (Command.Wr bank column) second.now }
    ensures in_range { (1 ≤ result) × (result < 2 ^ 18) }
{
    let burst = timing.ncwl + 8;
    entry(true, 2)
        .max(entry(second.is_wr(), timing.nccd_s))
        .max(entry_where(second.is_wr(), same_group, timing.nccd_l_wr))
        .max(entry(second.is_rd(), burst + timing.nwtr_s))
        .max(entry_where(second.is_rd(), same_group, burst + timing.nwtr_l))
        .max(entry_where(second.is_precharge(), together, burst + timing.nwr))
}

// Of PREpb, PREsb and PREab.
fn after_precharge(timing: &Timing, second: &Command, together: bool) -> u32
    requires { IsTiming timing.now }
    ensures bank { (bank : Bank) → together ≡ meet (Command.PrePb bank) second.now → result ≡ gap timing.now (Command.PrePb bank) second.now }
    ensures address { (address : ℕ) → together ≡ meet (Command.PreSb address) second.now → result ≡ gap timing.now (Command.PreSb address) second.now }
    ensures all { together ≡ meet Command.PreAb second.now → result ≡ gap timing.now Command.PreAb second.now }
    ensures in_range { (1 ≤ result) × (result < 2 ^ 18) }
{
    entry(true, 1).max(entry_where(follows_precharge(second), together, timing.nrp))
}

// Of REF, RFM, ECS and MRW, which take so many clocks.
fn after_busy(clocks: u32, second: &Command, together: bool) -> u32
    requires { IsClocks clocks }
    ensures busy { result ≡ max 1 (if not (is_nop second.now) && together then clocks else 0) }
    ensures in_range { (1 ≤ result) × (result < 2 ^ 16) }
{
    entry(true, 1).max(entry_where(!second.is_nop(), together, clocks))
}

// An entry of the table: its clocks where it applies.
fn entry(applies: bool, clocks: u32) -> u32
    ensures { result ≡ (if applies then clocks else 0) }
{
    if applies { clocks } else { 0 }
}

// An entry that applies only within a group or where the two commands meet.
fn entry_where(applies: bool, there: bool, clocks: u32) -> u32
    ensures { result ≡ (if applies && there then clocks else 0) }
{
    if applies && there { clocks } else { 0 }
}

// ACT, and the commands that need their banks closed.
pub(crate) fn follows_precharge(command: &Command) -> bool
    ensures { result ≡ (is_act command.now || needs_closed command.now) }
{
    command.is_act() || command.needs_closed()
}
