//! A device with its open rows.
ghost use Rattle.std.specs.Prelude.{ℕ, ◌≡◌, true, List, Option, OnOk, OnErr, IfOk, IfErr, None, [], ◌∷◌};
ghost use Rattle.command_words.specs.Kinds.{is_wr};
ghost use Rattle.command_words.specs.Place.{place_of};
ghost use Rattle.device_core.specs.Standing.{IsBit, lent, with_command};
ghost use Rattle.device_core.specs.Steps.{Step, Flips, log_of};
ghost use Rattle.device_core.specs.Stored.{answer};
ghost use Rattle.speed_bin.specs.Header.{IsAccepted};
ghost use Rattle.speed_bin.specs.declared.header.Header.{Header as AnyHeader};
ghost use Rattle.device_exec.specs.Standing.{BothStand, IsJudged, MayTake, line_read};

use crate::giving::give;
use bank_state::Banks;
use command_words::{Command, Geometry, LineAddr, Place, unmap};
use ddr_io::OutOfMemory;
use device_core::Device;
use error_scrub::LineRead;
use speed_bin::Header;
use std::alloc::Global;

// What the commands of a script are given to. The device does not tell its open rows, so they are kept beside it.
#[derive(Drop)]
pub(crate) struct Memory {
    pub(crate) device: Device,
    banks: Banks,
    pub(crate) geometry: Geometry,
    // Whether the alert is raised.
    pub(crate) raised: bool,
}

impl Memory {
    // Before its first command.
    pub(crate) fn new(alloc: Global, header: &Header) -> Result<Memory, OutOfMemory>
        requires { IsAccepted header.now }
        ensures { IfOk result (λ it. BothStand it header.now []) }
    {
        Ok(Memory {
            device: Device::new(alloc, header)?,
            banks: Banks::new(),
            geometry: header.geometry(),
            raised: false,
        })
    }

    // Carries out a command that was judged fine, with the bytes of a WR. What an RD finds.
    pub(crate) fn take(
        &mut self,
        clock: u64,
        command: Command,
        bytes: Option<&[u8; 64]>,
    ) -> Result<Option<LineRead>, OutOfMemory>
        requires { MayTake self.old clock command (lent bytes) }
        ensures stands { OnOk result ((h : AnyHeader) (steps : List Step) → BothStand self.old h steps → IsJudged h clock command (lent bytes.entry) steps
            → BothStand self.new h (with_command clock command (lent bytes.entry) steps)) }
        ensures line { IfOk result (λ line. (h : AnyHeader) (steps : List Step) → BothStand self.old h steps → IsJudged h clock command (lent bytes.entry) steps
            → line ≡ answer h command steps) }
        ensures unchanged { OnErr result ((h : AnyHeader) (steps : List Step) → BothStand self.old h steps → BothStand self.new h steps) }
        ensures only_writes { OnErr result (is_wr command ≡ true) }
    {
        let reply = give(&mut self.device, clock, command, bytes)?;
        self.banks.issue(&command);
        self.raised = reply.alert;
        Ok(reply.line)
    }

    // The line that an RD reads.
    pub(crate) fn line(&self, clock: u64, command: &Command) -> Option<LineAddr>
        requires { MayTake self.now clock command.now None }
        ensures { (h : AnyHeader) (steps : List Step) → BothStand self.now h steps → IsJudged h clock command.now None steps
            → result ≡ line_read h command.now (log_of steps) }
    {
        let _clock = clock;
        Device::list_is_legal();
        device_core::laws::open_rows_are_inside();
        let Command::Rd(bank, column) = command else {
            return None;
        };
        match self.banks.open_row(*bank) {
            Some(row) => Some(unmap(
                Place {
                    bank: *bank,
                    row,
                    column: *column,
                },
                self.geometry,
            )),
            // A legal RD has an open row.
            None => None,
        }
    }
}
