//! For how many clocks a command blocks others: the gap table of `docs/RULES.md`, by its first command.
ghost use Rattle.std.specs.Prelude.{ℕ, ◌≡◌, ◌≤◌};
ghost use Rattle.command_words.specs.declared.place.Bank.{Bank};
ghost use Rattle.command_words.specs.declared.command.Mrw.{Mrw as Write};
ghost use Rattle.speed_bin.specs.Timing.{IsTiming};
ghost use Rattle.speed_bin.specs.declared.timing.Timing.{Timing};
ghost use Rattle.timing_rules.specs.Blocks.{AreSpans};

use command_words::Command;
use speed_bin::Timing;

/// For how many clocks a command blocks each kind of others, 0 where it does not.
#[derive(Clone, Copy)]
pub struct Spans {
    /// Every command, and every one but NOP.
    pub bus: u32,
    pub floor: u32,
    /// In any bank.
    pub act: u32,
    pub rd: u32,
    pub wr: u32,
    /// In the command's own group.
    pub act_group: u32,
    pub rd_group: u32,
    pub wr_group: u32,
    /// In the banks that it covers: ACT, RD and WR, precharges, and what needs its banks closed.
    pub act_bank: u32,
    pub column: u32,
    pub pre: u32,
    pub closed: u32,
}

// The bus for one clock, and nothing else.
const BUS_ALONE: Spans = Spans {
    bus: 1,
    floor: 1,
    act: 0,
    rd: 0,
    wr: 0,
    act_group: 0,
    rd_group: 0,
    wr_group: 0,
    act_bank: 0,
    column: 0,
    pre: 0,
    closed: 0,
};

/// The clocks for which the command blocks others.
pub(crate) fn spans_of(timing: &Timing, command: &Command) -> Spans
    requires { IsTiming timing.now }
    ensures { AreSpans result timing.now command.now }
{
    match command {
        Command::Act(_, _) => after_act(timing),
        Command::Rd(_, _) => after_rd(timing),
        Command::Wr(_, _) => after_wr(timing),
        Command::PrePb(_) => after_precharge(timing),
        Command::PreSb(_) => after_precharge(timing),
        Command::PreAb => after_precharge(timing),
        Command::RefAb => after_all(timing.nrfc),
        Command::RefSb(_) => after_same(timing.nrfcsb),
        Command::RfmAb => after_all(timing.nrfm),
        Command::RfmSb(_) => after_same(timing.nrfmsb),
        Command::Mrw(_) => after_write(timing),
        Command::Ecs => after_all(timing.necs),
        Command::Nop => BUS_ALONE,
    }
}

fn after_act(timing: &Timing) -> Spans
    ensures { (bank : Bank) (row : ℕ) → AreSpans result timing.now (Command.Act bank row) }
{
    Spans {
        bus: 2,
        floor: 2,
        act: timing.nrrd_s,
        act_group: timing.nrrd_l,
        act_bank: timing.nrc,
        column: timing.nrcd,
        pre: timing.nras,
        ..BUS_ALONE
    }
}

fn after_rd(timing: &Timing) -> Spans
    requires { IsTiming timing.now }
    ensures { (bank : Bank) (column : ℕ) → AreSpans result timing.now (Command.Rd bank column) }
{
    Spans {
        bus: 2,
        floor: 2,
        rd: timing.nccd_s,
        rd_group: timing.nccd_l,
        wr: (timing.ncl + 10).saturating_sub(timing.ncwl),
        pre: timing.nrtp,
        ..BUS_ALONE
    }
}

fn after_wr(timing: &Timing) -> Spans
    requires { IsTiming timing.now }
    ensures { (bank : Bank) (column : ℕ) → AreSpans result timing.now (Command.Wr bank column) }
{
    let burst = timing.ncwl + 8;
    Spans {
        bus: 2,
        floor: 2,
        wr: timing.nccd_s,
        wr_group: timing.nccd_l_wr,
        rd: burst + timing.nwtr_s,
        rd_group: burst + timing.nwtr_l,
        pre: burst + timing.nwr,
        ..BUS_ALONE
    }
}

// PREpb, PREsb and PREab.
fn after_precharge(timing: &Timing) -> Spans
    ensures bank { (bank : Bank) → AreSpans result timing.now (Command.PrePb bank) }
    ensures address { (address : ℕ) → AreSpans result timing.now (Command.PreSb address) }
    ensures all { AreSpans result timing.now Command.PreAb }
{
    Spans {
        act_bank: timing.nrp,
        closed: timing.nrp,
        ..BUS_ALONE
    }
}

// REFsb and RFMsb, which take so many clocks in the banks that they cover.
fn after_same(clocks: u32) -> Spans
    ensures refresh { (t : Timing) (address : ℕ) → clocks ≡ t.nrfcsb → AreSpans result t (Command.RefSb address) }
    ensures management { (t : Timing) (address : ℕ) → clocks ≡ t.nrfmsb → AreSpans result t (Command.RfmSb address) }
{
    Spans {
        act_bank: clocks,
        column: clocks,
        pre: clocks,
        closed: clocks,
        ..BUS_ALONE
    }
}

// REFab, RFMab and ECS, which take so many clocks.
fn after_all(clocks: u32) -> Spans
    requires { 1 ≤ clocks }
    ensures refresh { (t : Timing) → clocks ≡ t.nrfc → AreSpans result t Command.RefAb }
    ensures management { (t : Timing) → clocks ≡ t.nrfm → AreSpans result t Command.RfmAb }
    ensures scrub { (t : Timing) → clocks ≡ t.necs → AreSpans result t Command.Ecs }
{
    Spans {
        floor: clocks,
        ..BUS_ALONE
    }
}

// MRW.
fn after_write(timing: &Timing) -> Spans
    ensures { (write : Write) → AreSpans result timing.now (Command.Mrw write) }
{
    Spans {
        bus: 2,
        floor: timing.nmrd.max(2),
        ..BUS_ALONE
    }
}
