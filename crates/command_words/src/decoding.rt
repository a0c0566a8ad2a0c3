//! Which command words spell, by the command table of `docs/FORMATS.md`.
ghost use Rattle.std.specs.Prelude.{◌≡◌, Some, Ok, IfOk};
ghost use Rattle.command_words.specs.Command.{IsInRange};
ghost use Rattle.command_words.specs.Words.{Spells};
ghost use Rattle.command_words.specs.Decode.{decode_of, judged, low_words, are_equal, named_in, kind_in, managed_in, precharge_in, bank_in, address_in, row_in, column_in};

use crate::{Bank, BankAddr, Column, Command, Group, Mrw, Row, WordFault, Words, encode};

// The bits that a word may have.
const WORD: u16 = 0x3fff;

/// The command that the words spell, or the first of the faults in the order of `WordFault` whose condition holds.
pub fn decode(words: Words) -> Result<Command, WordFault>
    ensures decoded { result ≡ decode_of words }
    ensures spelled { IfOk result (λ command. Spells command words) }
    ensures in_range { IfOk result IsInRange }
    ensures only { (command : Command) → IsInRange command → Spells command words → result ≡ Ok command }
{
    let low = low_words(words);
    let second = low.second.unwrap_or(0);
    let command = named_in(low.first, second).ok_or(WordFault::Unknown)?;
    judge(words, command)
}

// The faults that the words have as those of this kind of command, in their order.
fn judge(words: Words, command: Command) -> Result<Command, WordFault>
    ensures judged { result ≡ judged words (Some command) }
    ensures spelled { IfOk result (λ command. Spells command words) }
    ensures in_range { IfOk result IsInRange }
{
    let spelled = encode(&command);
    let low = low_words(words);
    if spelled.second.is_some() && words.second.is_none() {
        Err(WordFault::SecondMissing)
    } else if spelled.second.is_none() && words.second.is_some() {
        Err(WordFault::SecondExtra)
    } else if !are_equal(spelled, low) {
        Err(WordFault::Reserved)
    } else if !are_equal(low, words) {
        Err(WordFault::Range)
    } else {
        Ok(command)
    }
}

fn are_equal(words: Words, others: Words) -> bool
    ensures { result ≡ are_equal words others }
{
    match (words.second, others.second) {
        (Some(word), Some(other)) => words.first == others.first && word == other,
        (None, None) => words.first == others.first,
        (Some(_), None) | (None, Some(_)) => false,
    }
}

// The low 14 bits of the words.
fn low_words(words: Words) -> Words
    ensures { result ≡ low_words words }
{
    Words {
        first: words.first & WORD,
        second: words.second.map(|word| word & WORD),
    }
}

// The command of the kind that a first word gives, with its parts from the bits that name them.
#[tactic(auto, unfolding(crate::specs::Decode::named_in))]
fn named_in(first: u16, second: u16) -> Option<Command>
    ensures { result ≡ named_in first second }
{
    if first & 3 == 0 {
        return Some(Command::Act(bank_in(first), row_in(first, second)));
    }
    kind_in(first & 0x1f, first, second)
}

// The same where bits 1..0 of the first word are not 00.
fn kind_in(five: u16, first: u16, second: u16) -> Option<Command>
    ensures { result ≡ kind_in five first second }
{
    match five {
        0x1d => Some(Command::Rd(bank_in(first), column_in(second))),
        0x0d => Some(Command::Wr(bank_in(first), column_in(second))),
        0x05 => Some(Command::Mrw(Mrw {
            address: (first >> 5 & 0xff) as u8,
            value: (second & 0xff) as u8,
        })),
        0x1b => Some(Command::PrePb(bank_in(first))),
        0x0b => Some(precharge_in(first)),
        0x1f => Some(Command::Nop),
        0x13 => Some(managed_in(first)),
        0x0f if first >> 5 & 0xff == 0x0c => Some(Command::Ecs),
        _ => None,
    }
}

// PREsb or PREab: bit 10 is set for one address.
fn precharge_in(first: u16) -> Command
    ensures { result ≡ precharge_in first }
{
    if first >> 10 & 1 == 1 {
        Command::PreSb(address_in(first))
    } else {
        Command::PreAb
    }
}

// The refreshes and the managements: bit 10 is set for one address, bit 9 for a refresh.
fn managed_in(first: u16) -> Command
    ensures { result ≡ managed_in first }
{
    match (first >> 10 & 1 == 1, first >> 9 & 1 == 1) {
        (true, true) => Command::RefSb(address_in(first)),
        (true, false) => Command::RfmSb(address_in(first)),
        (false, true) => Command::RefAb,
        (false, false) => Command::RfmAb,
    }
}

// The bank address in bits 7..6, and the group in bits 10..8.
fn bank_in(first: u16) -> Bank
    ensures { result ≡ bank_in first }
{
    Bank {
        group: Group::of(u32::from(first >> 8 & 7)),
        address: address_in(first),
    }
}

// The bank address in bits 7..6.
fn address_in(first: u16) -> BankAddr
    ensures { result ≡ address_in first }
{
    BankAddr::of(u32::from(first >> 6 & 3))
}

// The row: its low four bits in bits 5..2 of the first word, its others in bits 11..0 of the second.
fn row_in(first: u16, second: u16) -> Row
    ensures { result ≡ row_in first second }
{
    Row::of(u32::from(second & 0xfff) * 16 + u32::from(first >> 2 & 0xf))
}

// The column in bits 7..2.
fn column_in(second: u16) -> Column
    ensures { result ≡ column_in second }
{
    Column::of(u32::from(second >> 2 & 0x3f))
}
