//! Writing a line of a report, without memory.
ghost use Rattle.std.specs.Prelude.{◌≡◌, ◌++◌, ◌≤◌, ◌+◌, [], length, codes};
ghost use Rattle.command_words.specs.Words.{words_of};
ghost use Rattle.ddr_text.specs.Spelling.{spelled, spaced_word, spaced_words, stat_name, state_name};

use crate::pieces::{put_bytes, put_spaced, put_text};
use crate::{ReportLine, StatName};
use arrayvec::ArrayVec;
use command_words::{Words, encode};
use ondie_ecc::ReadState;

/// Appends the line and its line feed. It takes no memory and cannot fail.
#[tactic(auto, unfolding(crate::specs::Spelling::spelled, crate::specs::Spelling::report_text))]
pub fn write_report_line(line: &ReportLine, out: &mut ArrayVec<u8, 512>)
    requires { out.old.items ≡ [] }
    ensures { out.new.items ≡ spelled line.now }
{
    match line {
        ReportLine::Issued(clock, command) => {
            put_text(b"C", out);
            put_spaced(*clock, out);
            put_words(encode(command), out);
        }
        ReportLine::Value(number, line, bytes, state) => {
            put_text(b"D", out);
            put_spaced(*number, out);
            put_spaced(u64::from(line.get()), out);
            put_bytes(bytes, out);
            put_state(*state, out);
        }
        ReportLine::Flip(clock, line, device, bit) => {
            put_text(b"F", out);
            put_spaced(*clock, out);
            put_spaced(u64::from(line.get()), out);
            put_spaced(u64::from(*device), out);
            put_spaced(u64::from(*bit), out);
        }
        ReportLine::Stat(name, number) => {
            put_text(b"S ", out);
            put_text(name_of(*name), out);
            put_spaced(*number, out);
        }
        ReportLine::End(clock) => {
            put_text(b"E", out);
            put_spaced(*clock, out);
        }
        ReportLine::Refused(line, reason) => {
            put_text(b"X", out);
            put_spaced(*line, out);
            put_spaced(u64::from(*reason), out);
        }
    }
    put_text(b"\n", out);
}

// Appends the words of a command, each after a space.
fn put_words(words: Words, out: &mut ArrayVec<u8, 512>)
    requires { length out.old.items + 10 ≤ 512 }
    ensures words { out.new.items ≡ out.old.items ++ spaced_words words }
    ensures short { length out.new.items ≤ length out.old.items + 10 }
{
    put_word(words.first, out);
    if let Some(second) = words.second {
        put_word(second, out);
    }
}

// Appends a space and a word in four hexadecimal digits.
fn put_word(word: u16, out: &mut ArrayVec<u8, 512>)
    requires { length out.old.items + 5 ≤ 512 }
    ensures digits { out.new.items ≡ out.old.items ++ spaced_word word }
    ensures five { length out.new.items ≡ length out.old.items + 5 }
{
    let mut digits = [0u8; 4];
    let _ = hex::encode_to_slice(word.to_be_bytes().as_slice(), &mut digits);
    put_text(b" ", out);
    put_text(&digits, out);
}

// Appends a space and the name of a state.
fn put_state(state: ReadState, out: &mut ArrayVec<u8, 512>)
    requires { length out.old.items + 6 ≤ 512 }
    ensures name { out.new.items ≡ out.old.items ++ (codes " " ++ state_name state) }
    ensures short { length out.new.items ≤ length out.old.items + 6 }
{
    let name: &[u8] = match state {
        ReadState::Clean => b"ok",
        ReadState::Fixed => b"fixed",
        ReadState::Lost => b"lost",
    };
    put_text(b" ", out);
    put_text(name, out);
}

// The name of a count.
fn name_of(name: StatName) -> &'static [u8]
    ensures name { result.now ≡ stat_name name }
    ensures short { length result.now ≤ 5 }
{
    match name {
        StatName::Act => b"act",
        StatName::Rd => b"rd",
        StatName::Wr => b"wr",
        StatName::Pre => b"pre",
        StatName::RefAb => b"refab",
        StatName::RefSb => b"refsb",
        StatName::RfmAb => b"rfmab",
        StatName::RfmSb => b"rfmsb",
        StatName::Ecs => b"ecs",
        StatName::Alert => b"alert",
        StatName::Peak => b"peak",
        StatName::Found => b"found",
        StatName::Lost => b"lost",
        StatName::Worst => b"worst",
    }
}
