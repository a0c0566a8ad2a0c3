//! The commands, and which banks each acts on.
ghost use Rattle.std.specs.Prelude.{◌≡◌};
ghost use Rattle.command_words.specs.Command.{bank_number, covers};

use crate::{Bank, BankAddr, Column, Row};

/// A write of a mode register: its address and its new contents.
#[derive(Clone, Copy, Debug, PartialEq, Eq)]
pub struct Mrw {
    pub address: u8,
    pub value: u8,
}

/// A command of the bus, in the order of the command table of `docs/FORMATS.md`.
#[derive(Clone, Copy, Debug, PartialEq, Eq)]
pub enum Command {
    /// ACT: opens a row of a closed bank.
    Act(Bank, Row),
    /// RD: reads the column of the open row.
    Rd(Bank, Column),
    /// WR: writes the column of the open row.
    Wr(Bank, Column),
    /// PREpb: closes one bank.
    PrePb(Bank),
    /// PREsb: closes the bank with this address in every group.
    PreSb(BankAddr),
    /// PREab: closes all banks.
    PreAb,
    /// REFab: refreshes all banks.
    RefAb,
    /// REFsb: refreshes the bank with this address in every group.
    RefSb(BankAddr),
    /// RFMab: refresh management of all banks.
    RfmAb,
    /// RFMsb: refresh management of the bank with this address in every group.
    RfmSb(BankAddr),
    /// MRW: writes a mode register.
    Mrw(Mrw),
    /// ECS: scrubs one line, by a multi-purpose command.
    Ecs,
    /// NOP: nothing.
    Nop,
}

/// Whether the command acts on the bank: its own bank, the banks with its address, all banks, or none at a NOP.
pub fn covers(command: &Command, bank: Bank) -> bool
    ensures { result ≡ covers command.now (bank_number bank) }
{
    match command {
        Command::Act(own, _) => own.number() == bank.number(),
        Command::Rd(own, _) => own.number() == bank.number(),
        Command::Wr(own, _) => own.number() == bank.number(),
        Command::PrePb(own) => own.number() == bank.number(),
        Command::PreSb(address) => *address == bank.address,
        Command::RefSb(address) => *address == bank.address,
        Command::RfmSb(address) => *address == bank.address,
        Command::PreAb | Command::RefAb | Command::RfmAb | Command::Mrw(_) | Command::Ecs => true,
        Command::Nop => false,
    }
}
