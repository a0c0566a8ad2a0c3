//! Reading a line of a report, without memory.
ghost use Rattle.std.specs.Prelude.{◌≡◌, ◌^◌, option_copied};
ghost use Rattle.ddr_text.specs.Grammar.{below};
ghost use Rattle.ddr_text.specs.AcceptedReport.{ReportLines};
ghost use Rattle.ddr_text.specs.Fields.{fields_after};
ghost use Rattle.ddr_text.specs.ReportGrammar.{report_line_of, clock_of, issued_line_of, value_line_of, flipped_line_of, stat_line_of, end_line_of, refused_line_of};

use crate::digits::{command_of, in_place, lower_bytes_of, stat_of, state_of, words_in};
use crate::fields::{
    below, command_fields, cut, four_fields, line_at, number_of, one_field, two_fields,
};
use crate::{LineFault, ReportLine};
use command_words::Geometry;

/// The line of a report that a text spells, without its line feed.
///
/// # Errors
/// The first fault, in the order of `LineFault`; but a row or a bank group that the geometry does not have, which is
/// `Range`, is found after the words are decoded.
#[tactic(auto, unfolding(crate::specs::ReportGrammar::report_line_of, crate::specs::ReportGrammar::report_line_of_fields))]
pub fn read_report_line(text: &[u8], g: Geometry) -> Result<ReportLine, LineFault>
    ensures { result ≡ report_line_of g text.now }
{
    if text.is_empty() {
        return Err(LineFault::Empty);
    }
    let (letter, rest) = cut(text);
    match letter {
        b"C" => issued_line(rest, g),
        b"D" => value_line(rest, g),
        b"F" => flipped_line(rest, g),
        b"S" => stat_line(rest),
        b"E" => end_line(rest),
        b"X" => refused_line(rest),
        _ => Err(LineFault::Letter),
    }
}

/// A text is read as a line exactly where it is the line's one text and the line's numbers are within their ranges.
pub fn report_lines()
    ensures { ReportLines }
{}

#[tactic(auto, unfolding(crate::specs::ReportGrammar::issued_line_of))]
fn issued_line(rest: Option<&[u8]>, g: Geometry) -> Result<ReportLine, LineFault>
    ensures { result ≡ issued_line_of g (fields_after (option_copied rest.entry)) }
{
    let (clock, first, second) = command_fields(rest)?;
    let clock = clock_of(number_of(clock)?)?;
    let command = command_of(words_in(first, second)?)?;
    Ok(ReportLine::Issued(clock, in_place(command, g)?))
}

#[tactic(auto, unfolding(crate::specs::ReportGrammar::value_line_of))]
fn value_line(rest: Option<&[u8]>, g: Geometry) -> Result<ReportLine, LineFault>
    ensures { result ≡ value_line_of g (fields_after (option_copied rest.entry)) }
{
    let (number, addr, hex, state) = four_fields(rest)?;
    let state = state_of(state)?;
    let number = number_of(number)?;
    let line = line_at(number_of(addr)?, g)?;
    Ok(ReportLine::Value(number, line, lower_bytes_of(hex)?, state))
}

#[tactic(auto, unfolding(crate::specs::ReportGrammar::flipped_line_of))]
fn flipped_line(rest: Option<&[u8]>, g: Geometry) -> Result<ReportLine, LineFault>
    ensures { result ≡ flipped_line_of g (fields_after (option_copied rest.entry)) }
{
    let (clock, addr, device, bit) = four_fields(rest)?;
    let clock = number_of(clock)?;
    let number = number_of(addr)?;
    let device = number_of(device)?;
    let bit = number_of(bit)?;
    let clock = clock_of(clock)?;
    let line = line_at(number, g)?;
    Ok(ReportLine::Flip(clock, line, below(4, device)?, below(136, bit)?))
}

#[tactic(auto, unfolding(crate::specs::ReportGrammar::stat_line_of))]
fn stat_line(rest: Option<&[u8]>) -> Result<ReportLine, LineFault>
    ensures { result ≡ stat_line_of (fields_after (option_copied rest.entry)) }
{
    let (name, number) = two_fields(rest)?;
    let name = stat_of(name)?;
    Ok(ReportLine::Stat(name, number_of(number)?))
}

#[tactic(auto, unfolding(crate::specs::ReportGrammar::end_line_of))]
fn end_line(rest: Option<&[u8]>) -> Result<ReportLine, LineFault>
    ensures { result ≡ end_line_of (fields_after (option_copied rest.entry)) }
{
    let clock = clock_of(number_of(one_field(rest)?)?)?;
    Ok(ReportLine::End(clock))
}

#[tactic(auto, unfolding(crate::specs::ReportGrammar::refused_line_of))]
fn refused_line(rest: Option<&[u8]>) -> Result<ReportLine, LineFault>
    ensures { result ≡ refused_line_of (fields_after (option_copied rest.entry)) }
{
    let (line, reason) = two_fields(rest)?;
    let line = number_of(line)?;
    let reason = number_of(reason)?;
    if reason < 256 {
        Ok(ReportLine::Refused(line, reason as u8))
    } else {
        Err(LineFault::Range)
    }
}

// A clock, where it is at most 281,474,976,710,655.
fn clock_of(number: u64) -> Result<u64, LineFault>
    ensures { result ≡ clock_of number }
{
    if number < 1 << 48 {
        Ok(number)
    } else {
        Err(LineFault::Range)
    }
}
