//! The device.
ghost use Rattle.std.specs.Prelude.{ℕ, suc, ◌≡◌, ◌<◌, ◌≤◌, List, [], ◌∷◌, OnErr, OnOk, IfOk, IsTrue, is_some, length};
ghost use Rattle.command_words.specs.Command.{IsInRange};
ghost use Rattle.command_words.specs.Place.{IsInside};
ghost use Rattle.command_words.specs.Words.{Spells};
ghost use Rattle.command_words.specs.declared.command.Command.{Command as AnyCommand};
ghost use Rattle.speed_bin.specs.Alert.{alert};
ghost use Rattle.speed_bin.specs.Counts.{peak as peak_of};
ghost use Rattle.speed_bin.specs.Header.{IsAccepted, bound, shape_of};
ghost use Rattle.command_words.specs.Kinds.{is_wr};
ghost use Rattle.speed_bin.specs.Log.{Log};
ghost use Rattle.speed_bin.specs.declared.header.Header.{Header as AnyHeader};
ghost use Rattle.device_core.specs.Held.{Held};
ghost use Rattle.device_core.specs.Legal.{IsLegal, AllLegal};
ghost use Rattle.device_core.specs.Steps.{Step, Flips, log_of};
ghost use Rattle.device_core.specs.Stored.{answer, scrub_counts as scrub_counts_of};
ghost use Rattle.device_core.specs.Told.{told};

use crate::Reply;
use crate::access::access;
use crate::activations::Activations;
use crate::store::Store;
use command_words::{Command, Place, Words, decode};
use ddr_io::OutOfMemory;
use error_scrub::{ScrubCounts, laws};
use mode_registers::{Registers, give_back};
use speed_bin::Header;
use std::alloc::Global;
use std::marker::Model;

/// The memory end of a subchannel: it applies the register writes, keeps its own open rows, stored lines and row
/// counters, and raises ALERT. It stands for the list of the commands that it was given, each with the bytes of a WR,
/// and of the bits that were turned in it. It keeps no such list, and yet there is always one for which it stands, under
/// some header.
#[derive(Drop)]
pub struct Device {
    registers: Registers,
    activations: Activations,
    store: Store,
}

impl Model for Device {
    ghost use Rattle.std.specs.Prelude.{ℕ, List, Option, refl};
    ghost use Rattle.std.specs.Coded.{code_by, coded×, coded_list, coded_option, coded_ℕ};
    ghost use Rattle.device_core.specs.Held.{Held};
    ghost use Rattle.device_core.specs.Standing.{StandsForSome};
    ghost use Rattle.device_core.specs.contracts.activations.Activations.{the_row as activations_row};
    ghost use Rattle.device_core.specs.contracts.store.Store.{the_row as store_row};
    ghost use Rattle.device_core.specs.declared.activations.Activations.{Activations};
    ghost use Rattle.device_core.specs.declared.store.Store.{Store};

    ghost Value = { Held };

    ghost coded = { code_by (List (Option ℕ) × (Activations × Store))
        (coded× (coded_list (coded_option coded_ℕ)) (coded× activations_row.coded store_row.coded))
        (λ d. (d.registers, (d.activations, d.store)))
        (λ p. record { registers = p.0; activations = p.1.0; store = p.1.1 })
        (λ _. refl) };

    ghost view = { λ d. record { registers = d.registers; activations = d.activations; store = d.store } };

    ghost invariant = { λ d. StandsForSome (record { registers = d.registers; activations = d.activations; store = d.store }) };
}

#[tactic(auto, unfolding(crate::specs::Standing::StandsFor, crate::specs::Standing::IsUnchanged, crate::specs::Standing::geometry_of))]
impl Device {
    ghost use Rattle.device_core.specs.Standing.{StandsFor, MayFollow, MayStep, AllGiven, IsUnchanged, StandsForSome, geometry_of, with_command, lent};

    /// A device before its first command: no register is written, all banks are closed, and every line is zero. It makes
    /// the counters of all rows.
    pub fn new(alloc: Global, header: &Header) -> Result<Device, OutOfMemory>
        requires { IsAccepted header.now }
        ensures stands { IfOk result (λ device. StandsFor device header.now []) }
        ensures geometry { IfOk result (λ device. geometry_of device ≡ shape_of header.now) }
    {
        Ok(Device {
            registers: Registers::new(),
            activations: Activations::new(alloc, header)?,
            store: Store::new(alloc, header.geometry()),
        })
    }

    /// Carries out at the clock the command that the words spell, with the bytes of a WR. The command is legal after the
    /// device's list: its row and its bank group are the header's, and all fourteen rules of `docs/RULES.md` hold. Only
    /// a WR takes memory; where there is none, the device is as it was.
    pub fn step(
        &mut self,
        clock: u64,
        words: Words,
        bytes: Option<&[u8; 64]>,
    ) -> Result<Reply, OutOfMemory>
        requires { MayStep self.old clock words (lent bytes) }
        ensures stands { OnOk result ((h : AnyHeader) (steps : List Step) (command : AnyCommand) → StandsFor self.old h steps
            → MayFollow h clock command words (lent bytes.entry) steps
            → StandsFor self.new h (with_command clock command (lent bytes.entry) steps)) }
        ensures line { IfOk result (λ reply. (h : AnyHeader) (steps : List Step) (command : AnyCommand) → StandsFor self.old h steps
            → MayFollow h clock command words (lent bytes.entry) steps → reply.line ≡ answer h command steps) }
        ensures alert { IfOk result (λ reply. (h : AnyHeader) (steps : List Step) (command : AnyCommand) → StandsFor self.old h steps
            → MayFollow h clock command words (lent bytes.entry) steps
            → reply.alert ≡ is_some (alert h (log_of (with_command clock command (lent bytes.entry) steps)))) }
        ensures geometry { geometry_of self.new ≡ geometry_of self.old }
        ensures unchanged { OnErr result (IsUnchanged self.old self.new) }
        ensures only_writes { OnErr result ((command : AnyCommand) → IsInRange command → Spells command words → IsTrue (is_wr command)) }
    {
        give_back();
        Device::unchanged_stands();
        let command = decode(words).unwrap();
        let line = access(&self.activations, &mut self.store, clock, &command, bytes)?;
        tell(&mut self.registers, &command);
        let told = self.registers.settings();
        self.activations.issue(clock, &command, told);
        Ok(Reply {
            line,
            alert: self.activations.is_raised(),
        })
    }

    /// Turns one bit of one device's codeword. The place is inside the geometry, the device below 4, the bit below 136.
    /// Where there is no memory, the device is as it was.
    pub fn flip(&mut self, place: Place, device: u8, bit: u8) -> Result<(), OutOfMemory>
        requires place { IsInside place (geometry_of self.old) }
        requires device { device < 4 }
        requires bit { bit < 136 }
        ensures stands { OnOk result ((h : AnyHeader) (steps : List Step) → StandsFor self.old h steps
            → StandsFor self.new h (Flips place device bit ∷ steps)) }
        ensures geometry { geometry_of self.new ≡ geometry_of self.old }
        ensures unchanged { OnErr result (IsUnchanged self.old self.new) }
    {
        Device::unchanged_stands();
        self.store.flip(place, device, bit)
    }

    /// What the scrub found so far.
    pub fn scrub_counts(&self) -> ScrubCounts
        ensures counts { (h : AnyHeader) (steps : List Step) → StandsFor self.now h steps → result ≡ scrub_counts_of h steps }
        ensures stands { StandsForSome self.now }
    {
        self.store.counts()
    }

    /// The greatest number of activations since mitigation that a row had so far, the activation of an open row
    /// included.
    pub fn peak(&self) -> u32
        ensures peak { (h : AnyHeader) (steps : List Step) → StandsFor self.now h steps → result ≡ peak_of h (log_of steps) }
        ensures bounded { (h : AnyHeader) (steps : List Step) → StandsFor self.now h steps → result ≤ bound h }
        ensures stands { StandsForSome self.now }
    {
        self.activations.peak()
    }

    /// A law: a device that is as it was stands for the lists that it stood for.
    pub fn unchanged_stands()
        ensures { (old new : Held) (h : AnyHeader) (steps : List Step) → IsUnchanged old new → StandsFor old h steps → StandsFor new h steps }
    {
        laws::cells_stand();
    }

    /// A law: the header is accepted and has the device's geometry, each command of the list was legal in its place, and
    /// each step had its bytes or turned a bit that there is.
    pub fn list_is_legal()
        ensures accepted { (device : Held) (h : AnyHeader) (steps : List Step) → StandsFor device h steps → IsAccepted h }
        ensures geometry { (device : Held) (h : AnyHeader) (steps : List Step) → StandsFor device h steps → geometry_of device ≡ shape_of h }
        ensures legal { (device : Held) (h : AnyHeader) (steps : List Step) → StandsFor device h steps → AllLegal h (log_of steps) }
        ensures given { (device : Held) (h : AnyHeader) (steps : List Step) → StandsFor device h steps → AllGiven h steps }
    {}
}

// Applies a register write. A legal list writes no register that there is not, and no value that one cannot hold.
fn tell(registers: &mut Registers, command: &Command)
    ensures { (h : AnyHeader) (clock : ℕ) (log : Log) → registers.old ≡ told h (length log) → IsAccepted h
        → IsLegal h clock command.now log → registers.new ≡ told h (suc (length log)) }
{
    give_back();
    if let Command::Mrw(write) = command {
        let _outcome = registers.apply(*write);
    }
}
