//! Why a call is not carried out, and the numbers that C is told: 0 where all is well, 1 to 14 a broken rule, 105 a number out of
//! range, 131 to 135 words that spell no command, 11 to 15 and 21 to 28 a refused header, 254 want of memory, 255 an empty slot.
ghost use Rattle.std.specs.Prelude.{◌≡◌};
ghost use Rattle.ddr_c.specs.Answers.{code_of, header_code, refusal_code, word_code};

use command_words::WordFault;
use log_auditor::Rule;
use speed_bin::HeaderFault;

/// A number is outside its range.
pub const OUT_OF_RANGE: u8 = 105;

/// There is not enough memory.
pub const NO_MEMORY: u8 = 254;

/// The slot is empty.
pub const EMPTY: u8 = 255;

/// Why a call is not carried out.
#[derive(Clone, Copy, Debug, PartialEq, Eq)]
pub enum Refusal {
    /// This rule is broken, now or before.
    Breaks(Rule),
    /// A number is outside its range: a clock, a row, a bank group, a line, a device or a bit.
    OutOfRange,
    /// The words spell no command.
    NoCommand(WordFault),
    /// There is not enough memory for the bytes of a WR, or for a turned bit.
    NoMemory,
}

impl Refusal {
    /// The number of it.
    pub fn code(self) -> u8
        ensures { result ≡ refusal_code self }
    {
        match self {
            Refusal::Breaks(rule) => rule.0,
            Refusal::OutOfRange => OUT_OF_RANGE,
            Refusal::NoCommand(fault) => word_code(fault),
            Refusal::NoMemory => NO_MEMORY,
        }
    }
}

/// What C is told of a call of which this came.
pub fn code(outcome: Result<(), Refusal>) -> u8
    ensures { result ≡ code_of outcome }
{
    match outcome {
        Ok(()) => 0,
        Err(refusal) => refusal.code(),
    }
}

fn word_code(fault: WordFault) -> u8
    ensures { result ≡ word_code fault }
{
    match fault {
        WordFault::Unknown => 131,
        WordFault::SecondMissing => 132,
        WordFault::SecondExtra => 133,
        WordFault::Reserved => 134,
        WordFault::Range => 135,
    }
}

/// What C is told of a header that is refused. There are eight checks, which have the numbers 21 to 28.
pub fn header_code(fault: HeaderFault) -> u8
    ensures { result ≡ header_code fault }
{
    match fault {
        HeaderFault::NotToml => 11,
        HeaderFault::Key => 12,
        HeaderFault::Kind => 13,
        HeaderFault::Range => 14,
        HeaderFault::NoBin => 15,
        HeaderFault::Check(check) => check.saturating_add(20),
        HeaderFault::OutOfMemory => NO_MEMORY,
    }
}
