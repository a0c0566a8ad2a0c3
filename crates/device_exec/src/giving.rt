//! Giving the commands that were judged to the device.
ghost use Rattle.std.specs.Prelude.{ℕ, ◌≡◌, true, List, Option, OnOk, OnErr, IfOk, is_some};
ghost use Rattle.command_words.specs.Kinds.{is_wr};
ghost use Rattle.device_core.specs.Standing.{StandsFor as DeviceFor, lent, with_command};
ghost use Rattle.device_core.specs.Steps.{Step, log_of};
ghost use Rattle.device_core.specs.Stored.{answer};
ghost use Rattle.speed_bin.specs.Alert.{alert};
ghost use Rattle.speed_bin.specs.declared.header.Header.{Header as AnyHeader};
ghost use Rattle.device_exec.specs.Standing.{IsJudged, MayGive};

use command_words::{Command, encode};
use ddr_io::OutOfMemory;
use device_core::{Device, Reply};

// Gives the device a command that was judged fine behind its list, with the bytes of a WR. What an RD finds, and whether the
// alert is raised behind the command. Only a WR takes memory; where there is none, the device stands for what it stood for.
pub(crate) fn give(
    device: &mut Device,
    clock: u64,
    command: Command,
    bytes: Option<&[u8; 64]>,
) -> Result<Reply, OutOfMemory>
    requires { MayGive device.old clock command (lent bytes) }
    ensures stands { OnOk result ((h : AnyHeader) (steps : List Step) → DeviceFor device.old h steps → IsJudged h clock command (lent bytes.entry) steps
        → DeviceFor device.new h (with_command clock command (lent bytes.entry) steps)) }
    ensures line { IfOk result (λ reply. (h : AnyHeader) (steps : List Step) → DeviceFor device.old h steps → IsJudged h clock command (lent bytes.entry) steps
        → reply.line ≡ answer h command steps) }
    ensures alert { IfOk result (λ reply. (h : AnyHeader) (steps : List Step) → DeviceFor device.old h steps → IsJudged h clock command (lent bytes.entry) steps
        → reply.alert ≡ is_some (alert h (log_of (with_command clock command (lent bytes.entry) steps)))) }
    ensures unchanged { OnErr result ((h : AnyHeader) (steps : List Step) → DeviceFor device.old h steps → DeviceFor device.new h steps) }
    ensures only_writes { OnErr result (is_wr command ≡ true) }
{
    Device::unchanged_stands();
    let words = encode(&command);
    match device.step(clock, words, bytes) {
        Ok(reply) => Ok(reply),
        Err(OutOfMemory) => Err(OutOfMemory),
    }
}
