//! Which bits of an address say which level.
ghost use Rattle.std.specs.Prelude.{◌≡◌, ◌/◌, ◌%◌, ◌<◌, IfSome};
ghost use Rattle.command_words.specs.Geometry.{lines_of};

use crate::MappingFault;
use crate::address::{bank_numbered, column_numbered, group_numbered, place_at, row_numbered};
use command_words::{Geometry, LineAddr};

/// A level of an address, by its two letters.
#[derive(Clone, Copy, Debug, PartialEq, Eq)]
enum Level {
    Channel,
    Rank,
    Group,
    Bank,
    Row,
    Column,
}

// The digits of a level in an address: what is above the unit, and of that the least `count` values.
#[derive(Clone, Copy, Debug, PartialEq, Eq)]
struct Digit {
    unit: u64,
    count: u64,
}

/// Which bits of a byte address say which level, for one channel and one rank. The lowest 6 bits are those within a line
/// of 64 bytes.
#[derive(Clone, Copy, Debug, PartialEq, Eq)]
pub struct Mapping {
    group: Digit,
    bank: Digit,
    row: Digit,
    column: Digit,
    // The bytes that addresses can name.
    size: u64,
    /// The geometry that it was read for.
    pub geometry: Geometry,
}

impl Digit {
    // The digit of an address: its bits above the unit, as many as the count has.
    fn of(self, address: u64) -> Option<u64>
        ensures value { IfSome result (λ digit. digit ≡ address / self.unit % self.count) }
    {
        if self.unit == 0 {
            return None;
        }
        if self.count == 0 {
            return None;
        }
        Some(address / self.unit % self.count)
    }
}

impl Level {
    // The level that two letters name.
    fn named(letters: &str) -> Option<Level> {
        match letters {
            "ch" => Some(Level::Channel),
            "ra" => Some(Level::Rank),
            "bg" => Some(Level::Group),
            "ba" => Some(Level::Bank),
            "ro" => Some(Level::Row),
            "co" => Some(Level::Column),
            _ => None,
        }
    }

    // How many values the level has.
    fn count(self, g: Geometry) -> u64 {
        match self {
            Level::Channel => 1,
            Level::Rank => 1,
            Level::Group => u64::from(g.groups()),
            Level::Bank => 4,
            Level::Row => row_count(g),
            Level::Column => 64,
        }
    }
}

// The rows that the bits of a row can name: the least power of two that is not below those of the geometry.
fn row_count(g: Geometry) -> u64 {
    let rows = u64::from(g.rows());
    let mut count = 1u64;
    for _ in 0..16u8 {
        if count < rows {
            count = count.saturating_mul(2);
        }
    }
    count
}

impl Mapping {
    /// The mapping of a tool's own notation: six fields of two letters from the highest bits to the lowest, as DRAMsim3
    /// has them (`rochrababgco`), or the name of one of Ramulator 2's mappings, `RoBaRaCoCh` or `ChRaBaRoCo`.
    ///
    /// # Errors
    /// Where the notation is none of these.
    pub fn read(notation: &str, g: Geometry) -> Result<Mapping, MappingFault> {
        match notation {
            "RoBaRaCoCh" => from_levels(ROW_FIRST, g),
            "ChRaBaRoCo" => from_levels(CHANNEL_FIRST, g),
            _ => from_levels(levels_of(notation)?, g),
        }
    }

    /// The line of 64 bytes that a byte address names. `None` where the geometry has no such line.
    pub fn line_of(&self, address: u64) -> Option<LineAddr>
        ensures inside { IfSome result (λ line. line < lines_of self.now.geometry) }
    {
        if address >= self.size {
            return None;
        }
        let Some(group) = group_numbered(self.group.of(address)?, self.geometry) else {
            return None;
        };
        let bank = bank_numbered(self.bank.of(address)?)?;
        let Some(row) = row_numbered(self.row.of(address)?, self.geometry) else {
            return None;
        };
        let column = column_numbered(self.column.of(address)?)?;
        Some(place_at(group, bank, row, column, self.geometry))
    }
}

// From the highest bits to the lowest.
const ROW_FIRST: [Level; 6] = [
    Level::Row,
    Level::Bank,
    Level::Group,
    Level::Rank,
    Level::Column,
    Level::Channel,
];

const CHANNEL_FIRST: [Level; 6] = [
    Level::Channel,
    Level::Rank,
    Level::Group,
    Level::Bank,
    Level::Row,
    Level::Column,
];

// The levels of a notation of six fields of two letters.
fn levels_of(notation: &str) -> Result<[Level; 6], MappingFault> {
    if notation.len() != 12 {
        return Err(MappingFault::Length);
    }
    Ok([
        level_at(notation, 1)?,
        level_at(notation, 2)?,
        level_at(notation, 3)?,
        level_at(notation, 4)?,
        level_at(notation, 5)?,
        level_at(notation, 6)?,
    ])
}

// The level of the field with this number.
fn level_at(notation: &str, number: u8) -> Result<Level, MappingFault> {
    let end = usize::from(number) * 2;
    match notation.get(end.saturating_sub(2)..end) {
        Some(letters) => Level::named(letters).ok_or(MappingFault::Unknown(number)),
        None => Err(MappingFault::Unknown(number)),
    }
}

// The digits found so far, from the lowest bits up.
#[derive(Clone, Copy, Debug, PartialEq, Eq)]
struct Found {
    unit: u64,
    channel: Option<Digit>,
    rank: Option<Digit>,
    group: Option<Digit>,
    bank: Option<Digit>,
    row: Option<Digit>,
    column: Option<Digit>,
}

impl Found {
    // No level yet: the lowest bits are those within a line.
    fn nothing() -> Found {
        Found {
            unit: 64,
            channel: None,
            rank: None,
            group: None,
            bank: None,
            row: None,
            column: None,
        }
    }

    // With the level that is above those found so far.
    fn with(self, level: Level, g: Geometry) -> Found {
        let count = level.count(g);
        let digit = Some(Digit {
            unit: self.unit,
            count,
        });
        let mut found = self;
        found.unit = self.unit.saturating_mul(count);
        match level {
            Level::Channel => found.channel = digit,
            Level::Rank => found.rank = digit,
            Level::Group => found.group = digit,
            Level::Bank => found.bank = digit,
            Level::Row => found.row = digit,
            Level::Column => found.column = digit,
        }
        found
    }

    // The mapping, where each level was found.
    fn mapping(self, g: Geometry) -> Result<Mapping, MappingFault> {
        match (
            self.channel,
            self.rank,
            self.group,
            self.bank,
            self.row,
            self.column,
        ) {
            (Some(_), Some(_), Some(group), Some(bank), Some(row), Some(column)) => Ok(Mapping {
                group,
                bank,
                row,
                column,
                size: self.unit,
                geometry: g,
            }),
            _ => Err(MappingFault::Twice),
        }
    }
}

// The mapping of six levels, from the highest bits to the lowest.
fn from_levels(levels: [Level; 6], g: Geometry) -> Result<Mapping, MappingFault> {
    let mut found = Found::nothing();
    for level in levels.iter().rev() {
        found = found.with(*level, g);
    }
    found.mapping(g)
}
