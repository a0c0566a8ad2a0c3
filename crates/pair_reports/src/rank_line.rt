//! The lines of a job and of a report of two ranks: each begins with the digit of its rank and a space.
ghost use Rattle.std.specs.Prelude.{◌≡◌, Some};
ghost use Rattle.pair_reports.specs.Grammar.{for_rank, rank_line_of, rank_of};
ghost use Rattle.ddr_text.specs.Grammar.{trace_line_of};

use command_words::Geometry;
use ddr_text::{LineFault, ReportLine, TraceLine, read_trace_line};
use rank_bus::Rank;

/// A line of a trace, and the rank that it is for.
#[derive(Clone, Copy, Debug, PartialEq, Eq)]
pub struct RankLine {
    pub rank: Rank,
    pub line: TraceLine,
}

/// A line of a report, and the rank that it tells of.
#[derive(Clone, Copy, Debug, PartialEq, Eq)]
pub struct RankReportLine {
    pub rank: Rank,
    pub line: ReportLine,
}

/// The line of a trace of two ranks that a text spells, without its line feed: the digit of its rank, a space, and a line
/// of a trace.
///
/// # Errors
/// An empty text is `Empty`, and one that does not begin with `0` or `1` and a space is `Letter`. Of other texts it is the
/// first fault of what stands behind the space.
pub fn read_rank_line(text: &[u8], g: Geometry) -> Result<RankLine, LineFault>
    ensures { result ≡ rank_line_of g text.now }
{
    match text {
        [] => Err(LineFault::Empty),
        [digit, b' ', rest @ ..] => line_of_rank(*digit, rest, g),
        _ => Err(LineFault::Letter),
    }
}

// The line for the rank with this digit.
fn line_of_rank(digit: u8, rest: &[u8], g: Geometry) -> Result<RankLine, LineFault>
    ensures { result ≡ for_rank (rank_of digit) (trace_line_of g rest.now) }
{
    match rank_with(digit) {
        Some(rank) => with_rank(rank, rest, g),
        None => Err(LineFault::Letter),
    }
}

// The rank with this digit.
fn rank_with(digit: u8) -> Option<Rank>
    ensures { result ≡ rank_of digit }
{
    match digit {
        b'0' => Some(Rank::Zero),
        b'1' => Some(Rank::One),
        _ => None,
    }
}

// A line of a trace, for this rank.
fn with_rank(rank: Rank, rest: &[u8], g: Geometry) -> Result<RankLine, LineFault>
    ensures { result ≡ for_rank (Some rank) (trace_line_of g rest.now) }
{
    let line = read_trace_line(rest, g)?;
    Ok(RankLine { rank, line })
}
