//! The names of commands.
ghost use Rattle.std.specs.Prelude.{◌≡◌};
ghost use Rattle.foreign_traces.specs.Names.{dramsim3_name, ramulator2_name};

use std::fmt;

/// A command that the other tools have and this model lacks.
#[derive(Clone, Copy, Debug, PartialEq, Eq)]
pub enum Lacking {
    /// A read with its bank's precharge.
    ReadPrecharge,
    /// A write with its bank's precharge.
    WritePrecharge,
    /// A refresh of one bank alone.
    RefreshBank,
    /// A refresh management of one row that the controller names.
    DirectedRefresh,
    /// Power-down, entered or left.
    PowerDown,
    /// Self refresh, entered or left.
    SelfRefresh,
}

/// What the name of a command says.
#[derive(Clone, Copy, Debug, PartialEq, Eq)]
pub enum Name {
    Act,
    Rd,
    Wr,
    PrePb,
    PreSb,
    PreAb,
    RefAb,
    RefSb,
    RfmAb,
    RfmSb,
    /// One that this model lacks.
    Lacking(Lacking),
}

/// What a name of Ramulator 2's command trace says. `None` where it is not known.
#[tactic(auto, unfolding(crate::specs::Names::ramulator2_name))]
pub(crate) fn ramulator2_name(name: &str) -> Option<Name>
    ensures { result ≡ ramulator2_name name.now }
{
    match name {
        "ACT" => Some(Name::Act),
        "RD" => Some(Name::Rd),
        "WR" => Some(Name::Wr),
        "PRE" => Some(Name::PrePb),
        "PREsb" => Some(Name::PreSb),
        "PREA" => Some(Name::PreAb),
        "REFab" => Some(Name::RefAb),
        "REFsb" => Some(Name::RefSb),
        "RFMab" => Some(Name::RfmAb),
        "RFMsb" => Some(Name::RfmSb),
        "RDA" => Some(Name::Lacking(Lacking::ReadPrecharge)),
        "WRA" => Some(Name::Lacking(Lacking::WritePrecharge)),
        "DRFMab" => Some(Name::Lacking(Lacking::DirectedRefresh)),
        "DRFMsb" => Some(Name::Lacking(Lacking::DirectedRefresh)),
        "PDE" => Some(Name::Lacking(Lacking::PowerDown)),
        "PDX" => Some(Name::Lacking(Lacking::PowerDown)),
        "SRE" => Some(Name::Lacking(Lacking::SelfRefresh)),
        "SRX" => Some(Name::Lacking(Lacking::SelfRefresh)),
        _ => None,
    }
}

/// What a name of DRAMsim3's command trace says. `None` where it is not known.
#[tactic(auto, unfolding(crate::specs::Names::dramsim3_name))]
pub(crate) fn dramsim3_name(name: &str) -> Option<Name>
    ensures { result ≡ dramsim3_name name.now }
{
    match name {
        "activate" => Some(Name::Act),
        "read" => Some(Name::Rd),
        "write" => Some(Name::Wr),
        "precharge" => Some(Name::PrePb),
        "refresh" => Some(Name::RefAb),
        "read_p" => Some(Name::Lacking(Lacking::ReadPrecharge)),
        "write_p" => Some(Name::Lacking(Lacking::WritePrecharge)),
        "refresh_bank" => Some(Name::Lacking(Lacking::RefreshBank)),
        "self_refresh_enter" => Some(Name::Lacking(Lacking::SelfRefresh)),
        "self_refresh_exit" => Some(Name::Lacking(Lacking::SelfRefresh)),
        _ => None,
    }
}

impl fmt::Display for Lacking {
    fn fmt<W: fmt::Write>(&self, f: &mut fmt::Formatter<W>) -> fmt::Result {
        f.write_str(match self {
            Lacking::ReadPrecharge => "a read with precharge",
            Lacking::WritePrecharge => "a write with precharge",
            Lacking::RefreshBank => "a refresh of one bank",
            Lacking::DirectedRefresh => "a directed refresh management",
            Lacking::PowerDown => "power-down",
            Lacking::SelfRefresh => "self refresh",
        })
    }
}
