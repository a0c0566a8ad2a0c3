//! The rows of a bank with their counts, in the order of their last change.
ghost use Rattle.std.specs.Prelude.{ℕ, ◌≡◌, ◌<◌, ◌≤◌, ◌+◌, List, IfOk, nat_eq, nat_lt, if◌then◌else◌};
ghost use Rattle.row_order.specs.Entries.{Entry, IsFirstGreatest, changed, count_in, rising};
ghost use Rattle.row_order.specs.Marks.{mark_of};
ghost use Rattle.row_order.specs.Nodes.{store_of, next_in};
ghost use Rattle.row_order.specs.Standing.{Held, MayRaise, StandsFor, StandsForSome};

use crate::levels::LevelSet;
use crate::links::Links;
use command_words::Row;
use ddr_io::OutOfMemory;
use std::alloc::Global;
use std::marker::Model;

/// The rows of a bank with their counts, in the order of their last change. Contracts see a list of (row, count), the
/// oldest change first, for which the order stands. No call after `new` takes memory or walks over rows or levels.
#[derive(Drop)]
pub struct RowOrder {
    links: Links,
    // the levels whose buckets are not empty
    used: LevelSet,
}

impl Model for RowOrder {
    ghost use Rattle.row_order.specs.Nodes.{store_of};
    ghost use Rattle.row_order.specs.Standing.{Held, StandsForSome};

    ghost Value = { Held };

    ghost view = { λ s. record { rows = s.links.nodes.rows; levels = s.links.nodes.levels; store = store_of s.links.nodes; used = s.used } };

    ghost invariant = { λ s. StandsForSome (record { rows = s.links.nodes.rows; levels = s.links.nodes.levels; store = store_of s.links.nodes; used = s.used }) };
}

impl RowOrder {
    /// All rows in rising order with count 0, for counts below `levels`. There are 1 to 65,536 rows, and 1 to 2,048
    /// levels.
    pub fn new(alloc: Global, rows: u32, levels: u32) -> Result<RowOrder, OutOfMemory>
        requires rows { (1 ≤ rows) × (rows ≤ 65536) }
        requires levels { (1 ≤ levels) × (levels ≤ 2048) }
        ensures sizes { IfOk result (λ order. (order.rows ≡ rows) × (order.levels ≡ levels)) }
        ensures list { IfOk result (λ order. StandsFor order (rising rows)) }
    {
        let links = Links::new(alloc, rows, levels)?;
        let mut used = LevelSet::new();
        used.insert(0);
        Ok(RowOrder { links, used })
    }

    /// The count of the row. The row is below `rows`.
    pub fn count(&self, row: Row) -> u32
        requires { row < self.now.rows }
        ensures { (list : List Entry) → StandsFor self.now list → result ≡ count_in list row }
    {
        self.links.level(row.get())
    }

    /// The count of the row grows by 1, and the row moves to the end. The row is below `rows`, and its count plus 1
    /// below `levels`.
    pub fn raise(&mut self, row: Row)
        requires { MayRaise self.old row }
        ensures sizes { (self.new.rows ≡ self.old.rows) × (self.new.levels ≡ self.old.levels) }
        ensures list { (list : List Entry) → StandsFor self.old list → StandsFor self.new (changed row (count_in list row + 1) list) }
    {
        let count = self.links.level(row.get());
        self.put(row, count + 1);
    }

    /// The count of the row becomes 0, and the row moves to the end. The row is below `rows`.
    pub fn clear(&mut self, row: Row)
        requires { row < self.old.rows }
        ensures sizes { (self.new.rows ≡ self.old.rows) × (self.new.levels ≡ self.old.levels) }
        ensures list { (list : List Entry) → StandsFor self.old list → StandsFor self.new (changed row 0 list) }
    {
        self.put(row, 0);
    }

    /// Of the entries with the greatest count, the one that stands first in the list.
    pub fn greatest(&self) -> (Row, u32)
        ensures inside { result.0 < self.now.rows }
        ensures list { (list : List Entry) → StandsFor self.now list → IsFirstGreatest list (record { row = result.0; count = result.1 }) }
    {
        let level = self.used.highest();
        let row = Row::new(self.links.first(level)).unwrap();
        (row, level)
    }

    // The row moves to the end of the list, with this count.
    fn put(&mut self, row: Row, count: u32)
        requires inside { row < self.old.rows }
        requires level { 0 < count → count < self.old.levels }
        ensures sizes { (self.new.rows ≡ self.old.rows) × (self.new.levels ≡ self.old.levels) }
        ensures list { (list : List Entry) → StandsFor self.old list → StandsFor self.new (changed row count list) }
    {
        let number = row.get();
        let before = self.links.level(number);
        self.links.unlink(number);
        self.links.append(number, count);
        forget_if_empty(&self.links, &mut self.used, before);
        self.used.insert(count);
    }
}

/// A row order always stands for some list.
pub fn stands(order: &RowOrder)
    ensures { StandsForSome order.now }
{
    let _links = &order.links;
}

/// A law: a row has the same count in each list that a row order stands for.
pub fn same_counts()
    ensures { (it : Held) (row : ℕ) (list other : List Entry) → row < it.rows → StandsFor it list → StandsFor it other → count_in list row ≡ count_in other row }
{}

// A level whose bucket is empty is no longer one in use.
fn forget_if_empty(links: &Links, used: &mut LevelSet, level: u32)
    requires { level < links.now.nodes.levels }
    ensures { (k : ℕ) → k < 4096 → mark_of used.new k ≡ (if nat_eq k level then (if nat_lt (next_in (store_of links.now.nodes) (links.now.nodes.rows + level)) links.now.nodes.rows then mark_of used.old k else 0) else mark_of used.old k) }
{
    if links.first(level) >= links.rows() {
        used.remove(level);
    }
}
