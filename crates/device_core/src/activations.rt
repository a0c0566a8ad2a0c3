//! The open rows of a legal log, and the activations of all rows.
ghost use Rattle.std.specs.Prelude.{[], ◌∷◌, ◌≡◌, ◌<◌, ◌≤◌, IfOk, IfSome, is_some};
ghost use Rattle.command_words.specs.Command.{bank_number};
ghost use Rattle.command_words.specs.Place.{IsInside};
ghost use Rattle.device_core.specs.Legal.{IsLegal};
ghost use Rattle.device_core.specs.Stored.{place_in};
ghost use Rattle.row_activity.specs.Standing.{AreTold};
ghost use Rattle.speed_bin.specs.Alert.{alert};
ghost use Rattle.speed_bin.specs.Counts.{peak as peak_of};
ghost use Rattle.speed_bin.specs.Header.{IsAccepted, bound, shape_of};
ghost use Rattle.speed_bin.specs.Log.{Log, open_at};
ghost use Rattle.speed_bin.specs.declared.header.Header.{Header as AnyHeader};

use bank_state::Banks;
use command_words::{Bank, Column, Command, Place};
use ddr_io::OutOfMemory;
use row_activity::Activity;
use speed_bin::{Header, Settings};
use std::alloc::Global;

/// The open rows of a log, and what its activations say of each row, the alert and the peak.
#[derive(Drop)]
pub(crate) struct Activations {
    rows: Banks,
    activity: Activity,
}

#[tactic(auto, unfolding(crate::specs::Rows::StandsFor))]
impl Activations {
    ghost use Rattle.device_core.specs.Rows.{StandsFor, MayIssue};

    // All rows closed and no counter above 0.
    pub(crate) fn new(alloc: Global, header: &Header) -> Result<Activations, OutOfMemory>
        requires { IsAccepted header.now }
        ensures { IfOk result (λ it. StandsFor it header.now []) }
    {
        Ok(Activations {
            rows: Banks::new(),
            activity: Activity::new(alloc, header)?,
        })
    }

    // The place of the column in the open row of the bank.
    pub(crate) fn place(&self, bank: &Bank, column: Column) -> Option<Place>
        requires { bank_number bank.now < 32 }
        ensures place { (h : AnyHeader) (log : Log) → StandsFor self.now h log
            → result ≡ place_in bank.now column (open_at (bank_number bank.now) log) }
        ensures inside { IfSome result (λ place. (h : AnyHeader) (log : Log) → StandsFor self.now h log → IsInside place (shape_of h)) }
    {
        match self.rows.open_row(*bank) {
            Some(row) => Some(Place {
                bank: *bank,
                row,
                column,
            }),
            None => None,
        }
    }

    // Whether the alert is raised.
    pub(crate) fn is_raised(&self) -> bool
        ensures { (h : AnyHeader) (log : Log) → StandsFor self.now h log → result ≡ is_some (alert h log) }
    {
        self.activity.alert().raised().is_some()
    }

    // The greatest number of activations since mitigation that a row had so far.
    pub(crate) fn peak(&self) -> u32
        ensures peak { (h : AnyHeader) (log : Log) → StandsFor self.now h log → result ≡ peak_of h log }
        ensures bounded { (h : AnyHeader) (log : Log) → StandsFor self.now h log → result ≤ bound h }
    {
        self.activity.peak()
    }

    // Appends the command at the clock to the log, with the settings that the registers hold once all are written.
    pub(crate) fn issue(&mut self, clock: u64, command: &Command, told: Option<Settings>)
        requires { MayIssue self.old clock command.now }
        ensures { (h : AnyHeader) (log : Log) → StandsFor self.old h log → IsLegal h clock command.now log
            → AreTold told h command.now
            → StandsFor self.new h (record { clock = clock; command = command.now } ∷ log) }
    {
        self.activity.issue(clock, command, &self.rows, told);
        self.rows.issue(command);
    }
}
