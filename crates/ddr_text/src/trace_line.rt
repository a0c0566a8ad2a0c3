//! Reading a line of a trace, without memory.
ghost use Rattle.std.specs.Prelude.{◌≡◌, option_copied};
ghost use Rattle.ddr_text.specs.Grammar.{trace_line_of, read_line_of, write_line_of, flip_line_of, idle_line_of};
ghost use Rattle.ddr_text.specs.Accepted.{TraceGrammar};
ghost use Rattle.ddr_text.specs.Fields.{fields_after};

use crate::fields::{
    below, bytes_of, cut, line_at, number_of, one_field, three_fields, two_fields,
};
use crate::{LineFault, TraceLine};
use command_words::Geometry;

/// The line of a trace that a text spells, without its line feed.
///
/// # Errors
/// The first fault, in the order of `LineFault`; never `Word`.
#[tactic(auto, unfolding(crate::specs::Grammar::trace_line_of, crate::specs::Grammar::line_of_fields))]
pub fn read_trace_line(text: &[u8], g: Geometry) -> Result<TraceLine, LineFault>
    ensures { result ≡ trace_line_of g text.now }
{
    if text.is_empty() {
        return Err(LineFault::Empty);
    }
    let (letter, rest) = cut(text);
    match letter {
        b"R" => read_line(rest, g),
        b"W" => write_line(rest, g),
        b"F" => flip_line(rest, g),
        b"I" => idle_line(rest),
        _ => Err(LineFault::Letter),
    }
}

/// A text is read as a line exactly where it spells it and the line's numbers are within their ranges.
pub fn trace_grammar()
    ensures { TraceGrammar }
{}

#[tactic(auto, unfolding(crate::specs::Grammar::read_line_of))]
fn read_line(rest: Option<&[u8]>, g: Geometry) -> Result<TraceLine, LineFault>
    ensures { result ≡ read_line_of g (fields_after (option_copied rest.entry)) }
{
    let addr = one_field(rest)?;
    let line = line_at(number_of(addr)?, g)?;
    Ok(TraceLine::Read(line))
}

#[tactic(auto, unfolding(crate::specs::Grammar::write_line_of))]
fn write_line(rest: Option<&[u8]>, g: Geometry) -> Result<TraceLine, LineFault>
    ensures { result ≡ write_line_of g (fields_after (option_copied rest.entry)) }
{
    let (addr, hex) = two_fields(rest)?;
    let line = line_at(number_of(addr)?, g)?;
    Ok(TraceLine::Write(line, bytes_of(hex)?))
}

#[tactic(auto, unfolding(crate::specs::Grammar::flip_line_of))]
fn flip_line(rest: Option<&[u8]>, g: Geometry) -> Result<TraceLine, LineFault>
    ensures { result ≡ flip_line_of g (fields_after (option_copied rest.entry)) }
{
    let (addr, device, bit) = three_fields(rest)?;
    let number = number_of(addr)?;
    let device = number_of(device)?;
    let bit = number_of(bit)?;
    let line = line_at(number, g)?;
    Ok(TraceLine::Flip(line, below(4, device)?, below(136, bit)?))
}

#[tactic(auto, unfolding(crate::specs::Grammar::idle_line_of))]
fn idle_line(rest: Option<&[u8]>) -> Result<TraceLine, LineFault>
    ensures { result ≡ idle_line_of (fields_after (option_copied rest.entry)) }
{
    let clocks = number_of(one_field(rest)?)?;
    if clocks <= 4_294_967_296 {
        Ok(TraceLine::Idle(clocks))
    } else {
        Err(LineFault::Range)
    }
}
