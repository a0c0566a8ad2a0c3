//! What goes to the device with a command, and what comes back.
ghost use Rattle.std.specs.Prelude.{◌≡◌};
ghost use Rattle.ddr_c.specs.Effects.{line_told, state_code};

use device_exec::Answer;
use ondie_ecc::ReadState;

/// The bytes of a WR and of an RD, and what is told of the device behind a command.
#[repr(C)]
#[derive(Clone, Copy, Debug, PartialEq, Eq)]
pub struct Line {
    /// The bytes of a WR before the call, and of an RD after it.
    pub bytes: [u8; 64],
    /// Whether the command was an RD, and `bytes` is what it found.
    pub has_line: bool,
    /// Of an RD 0 where it found no fault, 1 where it corrected one, 2 where a codeword is lost; and else 0.
    pub state: u8,
    /// Whether ALERT is raised behind the command.
    pub alert: bool,
}

/// Writes down what an RD found, if the command was one, and whether ALERT is raised.
pub fn tell(line: &mut Line, found: Option<Answer>, alert: bool)
    ensures { line.new ≡ line_told line.old.bytes alert found }
{
    line.alert = alert;
    match found {
        Some(found) => {
            let bytes = found.read.bytes;
            line.bytes = bytes;
            line.has_line = true;
            line.state = state_code(found.read.state);
        }
        None => {
            line.has_line = false;
            line.state = 0;
        }
    }
}

fn state_code(state: ReadState) -> u8
    ensures { result ≡ state_code state }
{
    match state {
        ReadState::Clean => 0,
        ReadState::Fixed => 1,
        ReadState::Lost => 2,
    }
}
