//! What both ends of the bus hold, and the command that is on its way.
ghost use Rattle.std.specs.Prelude.{◌≡◌, option_map};
ghost use Rattle.trace_replay.specs.Coupled.{step_of, issued_in};

use command_words::Command;
use device_core::Device;
use requests::RequestId;
use scheduler::{Clock, Controller, Turn};

/// One controller and one device.
#[derive(Drop)]
pub(crate) struct Ends {
    pub controller: Controller,
    pub device: Device,
    pub pending: Option<Pending>,
    // the device's last answer
    pub alert: bool,
}

// A command that was issued and not delivered yet.
#[derive(Clone, Copy, Debug)]
pub(crate) struct Pending {
    pub clock: Clock,
    pub command: Command,
    pub id: Option<RequestId>,
}

// The command that a turn answers.
pub(crate) fn pending_in(turn: &Turn) -> Option<Pending>
    ensures { option_map step_of result ≡ issued_in turn.now }
{
    match turn {
        Turn::Issue(clock, command, id) => Some(Pending {
            clock: *clock,
            command: *command,
            id: *id,
        }),
        Turn::Idle => None,
        Turn::Done => None,
    }
}
