//! The words, states and names of a report line's fields.
ghost use Rattle.std.specs.Prelude.{◌≡◌, IfSome, Ok, option_copied};
ghost use Rattle.std.specs.List.{list_all};
ghost use Rattle.ddr_text.specs.ReportGrammar.{is_lower_digit, lower_bytes_of, word_of, words_in, state_of, stat_of, command_of, has_place, in_place};

use crate::byte_digits::lower_bytes_at_once;
use crate::{LineFault, StatName};
use command_words::{Command, Geometry, Words, decode};
use hex::FromHex;
use ondie_ecc::ReadState;

/// The 64 bytes of 128 lower-case hexadecimal digits, byte 0 first.
///
/// # Errors
/// `LineFault::Hex` for every other field.
pub fn lower_bytes_of(field: &[u8]) -> Result<[u8; 64], LineFault>
    ensures { result ≡ lower_bytes_of 64 field.now }
{
    match at_once(field) {
        Some(bytes) => Ok(bytes),
        None => judged_lower_bytes_of(field),
    }
}

fn at_once(field: &[u8]) -> Option<[u8; 64]>
    ensures { IfSome result (λ bytes. lower_bytes_of 64 field.now ≡ Ok bytes) }
{
    lower_bytes_at_once(field.try_into().ok()?)
}

/// The same digit by digit, up to the first that is none.
#[tactic(auto, unfolding(crate::specs::ReportGrammar::lower_bytes_of))]
pub(crate) fn judged_lower_bytes_of(field: &[u8]) -> Result<[u8; 64], LineFault>
    ensures { result ≡ lower_bytes_of 64 field.now }
{
    if all_lower(field) {
        <[u8; 64] as FromHex>::from_hex(field).map_err(|_| LineFault::Hex)
    } else {
        Err(LineFault::Hex)
    }
}

// The two bytes of four lower-case digits.
#[tactic(auto, unfolding(crate::specs::ReportGrammar::lower_bytes_of))]
fn two_bytes_of(field: &[u8]) -> Result<[u8; 2], LineFault>
    ensures { result ≡ lower_bytes_of 2 field.now }
{
    if all_lower(field) {
        <[u8; 2] as FromHex>::from_hex(field).map_err(|_| LineFault::Hex)
    } else {
        Err(LineFault::Hex)
    }
}

// Whether each byte is a digit or one of `a` to `f`.
fn all_lower(field: &[u8]) -> bool
    ensures { result ≡ list_all is_lower_digit field.now }
{
    field
        .iter()
        .all(|digit| matches!(*digit, b'0'..=b'9' | b'a'..=b'f'))
}

#[tactic(auto, unfolding(crate::specs::ReportGrammar::word_of))]
fn word_of(field: &[u8]) -> Result<u16, LineFault>
    ensures { result ≡ word_of field.now }
{
    Ok(u16::from_be_bytes(two_bytes_of(field)?))
}

/// The words of one field or two.
#[tactic(auto, unfolding(crate::specs::ReportGrammar::words_in))]
pub(crate) fn words_in(first: &[u8], second: Option<&[u8]>) -> Result<Words, LineFault>
    ensures { result ≡ words_in first.now (option_copied second.entry) }
{
    let first = word_of(first)?;
    let second = match second {
        Some(field) => Some(word_of(field)?),
        None => None,
    };
    Ok(Words { first, second })
}

/// The command that words spell.
#[tactic(auto, unfolding(crate::specs::ReportGrammar::command_of))]
pub(crate) fn command_of(words: Words) -> Result<Command, LineFault>
    ensures { result ≡ command_of words }
{
    decode(words).map_err(|fault| LineFault::Word(fault))
}

/// The command, where the geometry has its place.
pub(crate) fn in_place(command: Command, g: Geometry) -> Result<Command, LineFault>
    ensures { result ≡ in_place g command }
{
    if has_place(&command, g) {
        Ok(command)
    } else {
        Err(LineFault::Range)
    }
}

// Whether the geometry has what the command names: the group of its one bank, and the row of an activation.
fn has_place(command: &Command, g: Geometry) -> bool
    ensures { result ≡ has_place g command.now }
{
    match command {
        Command::Act(bank, row) => row.get() < g.rows() && bank.group.get() < g.groups(),
        Command::Rd(bank, _) => bank.group.get() < g.groups(),
        Command::Wr(bank, _) => bank.group.get() < g.groups(),
        Command::PrePb(bank) => bank.group.get() < g.groups(),
        Command::PreSb(_) => true,
        Command::PreAb => true,
        Command::RefAb => true,
        Command::RefSb(_) => true,
        Command::RfmAb => true,
        Command::RfmSb(_) => true,
        Command::Mrw(_) => true,
        Command::Ecs => true,
        Command::Nop => true,
    }
}

/// The state with this name.
#[tactic(auto, unfolding(crate::specs::ReportGrammar::state_of))]
pub(crate) fn state_of(field: &[u8]) -> Result<ReadState, LineFault>
    ensures { result ≡ state_of field.now }
{
    match field {
        b"ok" => Ok(ReadState::Clean),
        b"fixed" => Ok(ReadState::Fixed),
        b"lost" => Ok(ReadState::Lost),
        _ => Err(LineFault::Fields),
    }
}

/// The count with this name.
#[tactic(auto, unfolding(crate::specs::ReportGrammar::stat_of))]
pub(crate) fn stat_of(field: &[u8]) -> Result<StatName, LineFault>
    ensures { result ≡ stat_of field.now }
{
    match field {
        b"act" => Ok(StatName::Act),
        b"rd" => Ok(StatName::Rd),
        b"wr" => Ok(StatName::Wr),
        b"pre" => Ok(StatName::Pre),
        b"refab" => Ok(StatName::RefAb),
        b"refsb" => Ok(StatName::RefSb),
        b"rfmab" => Ok(StatName::RfmAb),
        b"rfmsb" => Ok(StatName::RfmSb),
        b"ecs" => Ok(StatName::Ecs),
        b"alert" => Ok(StatName::Alert),
        b"peak" => Ok(StatName::Peak),
        b"found" => Ok(StatName::Found),
        b"lost" => Ok(StatName::Lost),
        b"worst" => Ok(StatName::Worst),
        _ => Err(LineFault::Fields),
    }
}
