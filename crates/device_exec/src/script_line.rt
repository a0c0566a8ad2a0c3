//! A line of a script, and reading one without memory.
ghost use Rattle.std.specs.Prelude.{◌≡◌, ◌⊎◌, ◌∷◌, bytes_eq, codes, option_copied, true};
ghost use Rattle.ddr_text.specs.Fields.{fields_after};
ghost use Rattle.ddr_text.specs.Grammar.{fields_of};
ghost use Rattle.ddr_text.specs.ReportGrammar.{end_line_of, issued_line_of};
ghost use Rattle.device_exec.specs.ScriptGrammar.{ScriptLines, bytes_line_of, flip_line_of, of_report, script_line_of};

use command_words::{Command, Geometry, LineAddr};
use ddr_text::digits::lower_bytes_of;
use ddr_text::fields::{below, cut, line_at, number_of, one_field, three_fields};
use ddr_text::{LineFault, ReportLine, read_report_line, report_lines};

/// A line of a script: of a log that is given to a device, with the data of its writes and the bits to turn.
#[derive(Clone, Copy, Debug, PartialEq, Eq)]
pub enum ScriptLine {
    /// A command and its clock.
    Issued(u64, Command),
    /// The bytes of the WR on the line before.
    Bytes([u8; 64]),
    /// Turn one stored bit: the line, the device and the bit of its codeword (0 to 135).
    Flip(LineAddr, u8, u8),
    /// The end, and its clock.
    End(u64),
}

/// The line of a script for 4 or 5 devices that a text spells, without its line feed.
///
/// # Errors
/// The first fault, in the order of `LineFault`; but a row or a bank group that the geometry does not have, which is
/// `Range`, is found after the words are decoded.
#[tactic(auto, unfolding(crate::specs::ScriptGrammar::script_line_of, crate::specs::ScriptGrammar::script_line_of_fields))]
pub fn read_script_line(text: &[u8], g: Geometry, devices: u8) -> Result<ScriptLine, LineFault>
    requires { (devices ≡ 4) ⊎ (devices ≡ 5) }
    ensures { result ≡ script_line_of g devices text.now }
{
    if text.is_empty() {
        return Err(LineFault::Empty);
    }
    let (letter, rest) = cut(text);
    match letter {
        b"C" => issued_line(text, letter, rest, g),
        b"B" => bytes_line(rest),
        b"F" => flip_line(rest, g, devices),
        b"E" => end_line(text, letter, rest, g),
        _ => Err(LineFault::Letter),
    }
}

/// A text is read as a line exactly where it is the line's one text and the line's numbers are within their ranges.
pub fn script_lines()
    ensures { ScriptLines }
{
    report_lines();
}

// A C line, of which this is the letter and what follows it: it is one of a report.
fn issued_line(
    text: &[u8],
    letter: &[u8],
    rest: Option<&[u8]>,
    g: Geometry,
) -> Result<ScriptLine, LineFault>
    requires parted { fields_of text.now ≡ letter.now ∷ fields_after (option_copied rest) }
    requires letter { bytes_eq letter.now (codes "C") ≡ true }
    ensures { result ≡ of_report (issued_line_of g (fields_after (option_copied rest.entry))) }
{
    of_report(read_report_line(text, g))
}

// An E line, likewise.
fn end_line(
    text: &[u8],
    letter: &[u8],
    rest: Option<&[u8]>,
    g: Geometry,
) -> Result<ScriptLine, LineFault>
    requires parted { fields_of text.now ≡ letter.now ∷ fields_after (option_copied rest) }
    requires letter { bytes_eq letter.now (codes "E") ≡ true }
    ensures { result ≡ of_report (end_line_of (fields_after (option_copied rest.entry))) }
{
    of_report(read_report_line(text, g))
}

// The C or E line of a report.
fn of_report(read: Result<ReportLine, LineFault>) -> Result<ScriptLine, LineFault>
    ensures { result ≡ of_report read }
{
    match read? {
        ReportLine::Issued(clock, command) => Ok(ScriptLine::Issued(clock, command)),
        ReportLine::End(clock) => Ok(ScriptLine::End(clock)),
        ReportLine::Value(_, _, _, _) => Err(LineFault::Letter),
        ReportLine::Flip(_, _, _, _) => Err(LineFault::Letter),
        ReportLine::Stat(_, _) => Err(LineFault::Letter),
        ReportLine::Refused(_, _) => Err(LineFault::Letter),
    }
}

#[tactic(auto, unfolding(crate::specs::ScriptGrammar::bytes_line_of))]
fn bytes_line(rest: Option<&[u8]>) -> Result<ScriptLine, LineFault>
    ensures { result ≡ bytes_line_of (fields_after (option_copied rest.entry)) }
{
    let field = one_field(rest)?;
    Ok(ScriptLine::Bytes(lower_bytes_of(field)?))
}

#[tactic(auto, unfolding(crate::specs::ScriptGrammar::flip_line_of))]
fn flip_line(rest: Option<&[u8]>, g: Geometry, devices: u8) -> Result<ScriptLine, LineFault>
    ensures { result ≡ flip_line_of g devices (fields_after (option_copied rest.entry)) }
{
    let (addr, device, bit) = three_fields(rest)?;
    let number = number_of(addr)?;
    let device = number_of(device)?;
    let bit = number_of(bit)?;
    let line = line_at(number, g)?;
    Ok(ScriptLine::Flip(line, below(devices, device)?, below(136, bit)?))
}
