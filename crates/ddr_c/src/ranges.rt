//! The ranges of the numbers that a caller gives, and whether two words are those of a command.
ghost use Rattle.std.specs.Prelude.{◌≡◌, MatchOption, true, false};
ghost use Rattle.command_words.specs.Decode.{are_equal};
ghost use Rattle.ddr_text.specs.ReportGrammar.{has_place};
ghost use Rattle.ddr_c.specs.Effects.{is_again, is_bit, is_in_reach, is_in_time};

use command_words::{Command, Geometry, LineAddr, Words, encode};
use device_exec::Waiting;

// Clocks are below this.
const CLOCKS: u64 = 1 << 48;

/// Whether the clock is below 2^48.
pub fn is_in_time(clock: u64) -> bool
    ensures { result ≡ is_in_time clock }
{
    clock < CLOCKS
}

/// Whether the clock is below 2^48, and the subchannel has what the command names.
pub fn is_in_reach(clock: u64, command: &Command, g: Geometry) -> bool
    ensures { result ≡ is_in_reach g clock command.now }
{
    is_in_time(clock) && has_place(command, g)
}

// Whether the geometry has what the command names: the group of its one bank, and the row of an activation.
fn has_place(command: &Command, g: Geometry) -> bool
    ensures { result ≡ has_place g command.now }
{
    match command {
        Command::Act(bank, row) => row.get() < g.rows() && bank.group.get() < g.groups(),
        Command::Rd(bank, _) => bank.group.get() < g.groups(),
        Command::Wr(bank, _) => bank.group.get() < g.groups(),
        Command::PrePb(bank) => bank.group.get() < g.groups(),
        Command::PreSb(_) => true,
        Command::PreAb => true,
        Command::RefAb => true,
        Command::RefSb(_) => true,
        Command::RfmAb => true,
        Command::RfmSb(_) => true,
        Command::Mrw(_) => true,
        Command::Ecs => true,
        Command::Nop => true,
    }
}

/// The line of a stored bit, where there is that bit: of a line, a device below 4 and a bit below 136.
pub fn line_of_bit(line: u32, device: u8, bit: u8, g: Geometry) -> Option<LineAddr>
    ensures { MatchOption result (is_bit g line device bit ≡ false) (λ found. (found ≡ line) × (is_bit g line device bit ≡ true)) }
{
    if device < 4 && bit < 136 {
        LineAddr::new(line, g)
    } else {
        None
    }
}

/// Whether these are the clock and the words of the WR that waits.
pub fn is_again(waiting: &Waiting, clock: u64, words: Words) -> bool
    ensures { result ≡ is_again waiting.now.clock waiting.now.command clock words }
{
    let spelled = encode(&waiting.command);
    waiting.clock == clock && are_equal(spelled, words)
}

fn are_equal(words: Words, others: Words) -> bool
    ensures { result ≡ are_equal words others }
{
    match (words.second, others.second) {
        (Some(word), Some(other)) => words.first == others.first && word == other,
        (None, None) => words.first == others.first,
        (Some(_), None) | (None, Some(_)) => false,
    }
}
