//! The lines of a subchannel, and the places where they lie.
ghost use Rattle.std.specs.Prelude.{◌≡◌, ◌<◌, ◌≤◌, ◌*◌, ◌↔◌, IsSome, IfSome};
ghost use Rattle.command_words.specs.Geometry.{IsGroups, lines_of};
ghost use Rattle.command_words.specs.Place.{line_of, place_of, IsInside};

use crate::{Bank, BankAddr, Column, Group, Row};
use std::marker::Model;

/// How many rows a bank has (1 to 65,536), and how many bank groups there are (4 or 8).
#[derive(Clone, Copy, Debug, PartialEq, Eq)]
pub struct Geometry {
    rows: u32,
    groups: u8,
}

impl Model for Geometry {
    ghost use Rattle.std.specs.Prelude.{◌≡◌, ◌≤◌};
    ghost use Rattle.command_words.specs.Geometry.{Shape, IsGroups};

    ghost Value = { Shape };

    ghost view = { λ g. record { rows = g.rows; groups = g.groups } };

    ghost invariant = { λ g. (1 ≤ g.rows) × (g.rows ≤ 65536) × IsGroups g.groups };

    ghost inverse = { λ s. record { rows = s.rows; groups = s.groups } };
}

impl Geometry {
    /// `None` exactly where the rows are not 1 to 65,536 or the groups are neither 4 nor 8.
    pub fn new(rows: u32, groups: u8) -> Option<Self>
        ensures in_range { IsSome result ↔ ((1 ≤ rows) × (rows ≤ 65536) × IsGroups groups) }
        ensures value { IfSome result (λ g. g ≡ record { rows = rows; groups = groups }) }
    {
        if 1 <= rows && rows <= 65536 && (groups == 4 || groups == 8) {
            Some(Geometry { rows, groups })
        } else {
            None
        }
    }

    /// That of so many rows and groups.
    pub fn with(rows: u32, groups: u8) -> Self
        requires rows { (1 ≤ rows) × (rows ≤ 65536) }
        requires groups { IsGroups groups }
        ensures { result ≡ record { rows = rows; groups = groups } }
    {
        Geometry { rows, groups }
    }

    /// That of so many rows and 8 groups.
    pub fn with_rows(rows: u32) -> Self
        requires { (1 ≤ rows) × (rows ≤ 65536) }
        ensures { result ≡ record { rows = rows; groups = 8 } }
    {
        Geometry { rows, groups: 8 }
    }

    /// The rows of a bank.
    pub fn rows(self) -> u32
        ensures rows { result ≡ self.rows }
        ensures in_range { (1 ≤ result) × (result ≤ 65536) }
    {
        self.rows
    }

    /// The bank groups.
    pub fn groups(self) -> u8
        ensures groups { result ≡ self.groups }
        ensures in_range { IsGroups result }
    {
        self.groups
    }

    /// The lines of the subchannel: 64 columns of each row of each bank.
    pub fn lines(self) -> u32
        ensures lines { result ≡ lines_of self }
        ensures in_range { result ≤ 134217728 }
    {
        self.rows() * 256 * u32::from(self.groups())
    }
}

/// The number of a line of 64 bytes, below the `lines` of the geometry that it was made with.
#[derive(Clone, Copy, Debug, PartialEq, Eq)]
pub struct LineAddr {
    number: u32,
}

impl Model for LineAddr {
    ghost use Rattle.std.specs.Prelude.{ℕ, ◌<◌};

    ghost Value = { ℕ };

    ghost view = { λ x. x.number };

    ghost invariant = { λ x. x.number < 134217728 };

    ghost inverse = { λ n. record { number = n } };
}

impl LineAddr {
    /// `None` exactly where the number is `lines` or more.
    pub fn new(number: u32, g: Geometry) -> Option<Self>
        ensures in_range { IsSome result ↔ (number < lines_of g) }
        ensures value { IfSome result (λ x. x ≡ number) }
    {
        if number < g.lines() {
            Some(LineAddr { number })
        } else {
            None
        }
    }

    /// The number.
    pub fn get(self) -> u32
        ensures number { result ≡ self }
        ensures in_range { result < 134217728 }
    {
        self.number
    }
}

/// Where a line lies.
#[derive(Clone, Copy, Debug, PartialEq, Eq)]
pub struct Place {
    pub bank: Bank,
    pub row: Row,
    pub column: Column,
}

/// The place of a line: from the least digit, its group, bank address, column and row.
pub fn map_line(line: LineAddr, g: Geometry) -> Place
    requires { line < lines_of g }
    ensures place { result ≡ place_of line g }
    ensures inside { IsInside result g }
    ensures back { line_of result g ≡ line }
{
    let groups = u32::from(g.groups());
    let number = line.get();
    let group = number % groups;
    let banked = number / groups;
    let address = banked % 4;
    let columned = banked / 4;
    Place {
        bank: Bank {
            group: Group::of(group),
            address: BankAddr::of(address),
        },
        row: Row::of(columned / 64),
        column: Column::of(columned % 64),
    }
}

/// The line at a place.
pub fn unmap(place: Place, g: Geometry) -> LineAddr
    requires { IsInside place g }
    ensures line { result ≡ line_of place g }
    ensures below { result < lines_of g }
    ensures back { place_of result g ≡ place }
{
    let above = place.row.get() * 64 + u32::from(place.column.get());
    let banked = above * 4 + u32::from(place.bank.address.get());
    LineAddr {
        number: banked * u32::from(g.groups()) + u32::from(place.bank.group.get()),
    }
}
