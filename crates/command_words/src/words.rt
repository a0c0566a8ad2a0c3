//! How a command is spelled on CA[13:0], by the command table of `docs/FORMATS.md`.
ghost use Rattle.std.specs.Prelude.{◌≡◌, ◌<◌, ◌*◌, ◌+◌};
ghost use Rattle.command_words.specs.Command.{IsBank, IsInRange};
ghost use Rattle.command_words.specs.Words.{Spells, at_bank, words_of};

use crate::{Bank, BankAddr, Column, Command};

/// The one or two words of a command. Bit k of a word is CAk.
#[derive(Clone, Copy, Debug, PartialEq, Eq)]
pub struct Words {
    pub first: u16,
    pub second: Option<u16>,
}

/// Why words spell no command. The first fault in this order whose condition holds is answered.
#[derive(Clone, Copy, Debug, PartialEq, Eq)]
pub enum WordFault {
    /// No kind of command is found in the first word.
    Unknown = 1,
    /// The kind has a second word, and there is none.
    SecondMissing = 2,
    /// The kind has no second word, and there is one.
    SecondExtra = 3,
    /// A bit that the command's table fixes, or does not name, has another value.
    Reserved = 4,
    /// A word has more than 14 bits.
    Range = 5,
}

/// The words that spell the command.
pub fn encode(command: &Command) -> Words
    ensures spelled { Spells command.now result }
    ensures words { result ≡ words_of command.now }
    ensures in_range { IsInRange command.now }
{
    match *command {
        Command::Act(bank, row) => two(
            (row.get() & 0xf) as u16 * 4 + bank_bits(bank),
            (row.get() >> 4) as u16,
        ),
        Command::Rd(bank, column) => two(0x3d + bank_bits(bank), 0x400 + column_bits(column)),
        Command::Wr(bank, column) => two(0x2d + bank_bits(bank), 0xc00 + column_bits(column)),
        Command::Mrw(write) => write_words(write.address, write.value),
        Command::PrePb(bank) => one(0x1b + bank_bits(bank)),
        Command::PreSb(address) => one(0x40b + address_bits(address)),
        Command::PreAb => one(0x00b),
        Command::RefAb => one(0x213),
        Command::RefSb(address) => one(0x613 + address_bits(address)),
        Command::RfmAb => one(0x013),
        Command::RfmSb(address) => one(0x413 + address_bits(address)),
        Command::Ecs => one(0x18f),
        Command::Nop => one(0x01f),
    }
}

fn one(first: u16) -> Words
    ensures { result ≡ record { first = first; second = None } }
{
    Words {
        first,
        second: None,
    }
}

fn two(first: u16, second: u16) -> Words
    ensures { result ≡ record { first = first; second = Some second } }
{
    Words {
        first,
        second: Some(second),
    }
}

// The bank address in bits 7..6, and the group in bits 10..8.
fn bank_bits(bank: Bank) -> u16
    ensures bits { result ≡ at_bank bank }
    ensures below { result < 2048 }
    ensures in_range { IsBank bank }
{
    u16::from(bank.address.get()) << 6 | u16::from(bank.group.get()) << 8
}

// The bank address in bits 7..6.
fn address_bits(address: BankAddr) -> u16
    ensures bits { result ≡ 64 * address }
    ensures below { result < 256 }
{
    u16::from(address.get()) << 6
}

// The column in bits 7..2.
fn column_bits(column: Column) -> u16
    ensures bits { result ≡ 4 * column }
    ensures below { result < 256 }
{
    u16::from(column.get()) << 2
}

// A register's address in bits 12..5 of the first word, and its value in the second.
fn write_words(address: u8, value: u8) -> Words
    ensures words { result ≡ record { first = 0x05 + 32 * address; second = Some value } }
    ensures in_range { (address < 256) × (value < 256) }
{
    two(0x05 + (u16::from(address) << 5), u16::from(value))
}
