//! The banks that a command acts on, and whether two commands have one in common.
ghost use Rattle.std.specs.Prelude.{ℕ, ◌≡◌};
ghost use Rattle.command_words.specs.Command.{covers};
ghost use Rattle.speed_bin.specs.Gap.{meet};
ghost use Rattle.timing_rules.specs.Scope.{is_within, overlap_of, IsScope};

use command_words::{Bank, BankAddr, Command};

/// The banks that a command covers.
#[derive(Clone, Copy, Debug, PartialEq, Eq)]
pub(crate) enum Scope {
    /// The bank with this number.
    Bank(u8),
    /// The bank with this address in every group.
    Address(u8),
    /// Every bank.
    All,
    /// None.
    Nothing,
}

pub(crate) fn scope_of(command: &Command) -> Scope
    ensures covers { (b : ℕ) → is_within result b ≡ covers command.now b }
    ensures in_range { IsScope result }
{
    match *command {
        Command::Act(bank, _) => Scope::Bank(bank.number()),
        Command::Rd(bank, _) => Scope::Bank(bank.number()),
        Command::Wr(bank, _) => Scope::Bank(bank.number()),
        Command::PrePb(bank) => Scope::Bank(bank.number()),
        Command::PreSb(address) => Scope::Address(address.get()),
        Command::RefSb(address) => Scope::Address(address.get()),
        Command::RfmSb(address) => Scope::Address(address.get()),
        Command::PreAb => Scope::All,
        Command::RefAb => Scope::All,
        Command::RfmAb => Scope::All,
        Command::Mrw(_) => Scope::All,
        Command::Ecs => Scope::All,
        Command::Nop => Scope::Nothing,
    }
}

/// The bank with this number is one of the scope.
#[inline(always)]
pub(crate) fn is_within(scope: Scope, bank: u8) -> bool
    ensures { result ≡ is_within scope bank }
{
    match scope {
        Scope::Bank(own) => own == bank,
        Scope::Address(own) => bank % 4 == own,
        Scope::All => true,
        Scope::Nothing => false,
    }
}

// Some bank is covered by both.
pub(crate) fn meet(first: &Command, second: &Command) -> bool
    ensures { result ≡ meet first.now second.now }
{
    overlap(scope_of(first), scope_of(second))
}

fn overlap(first: Scope, second: Scope) -> bool
    ensures { result ≡ overlap_of first second }
{
    match (first, second) {
        (Scope::Nothing, _) | (_, Scope::Nothing) => false,
        (Scope::All, _) | (_, Scope::All) => true,
        (Scope::Bank(own), Scope::Bank(other)) => own == other,
        (Scope::Bank(own), Scope::Address(other)) => own % 4 == other,
        (Scope::Address(own), Scope::Bank(other)) => other % 4 == own,
        (Scope::Address(own), Scope::Address(other)) => own == other,
    }
}
