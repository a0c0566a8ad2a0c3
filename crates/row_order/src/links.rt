//! Rows in buckets by level, first in, first out.
ghost use Rattle.std.specs.Prelude.{◌≡◌, ℕ, ◌<◌, ◌≤◌, ◌+◌, IfOk, nat_eq, if◌then◌else◌};
ghost use Rattle.row_order.specs.Nodes.{store_of, next_in, prev_in, level_in, IsNodes, AreLinked};
ghost use Rattle.row_order.specs.Runs.{first_next, first_prev};

use crate::nodes::{Node, Nodes};
use std::alloc::{AllocError, Global};

/// A bucket is the ring through its end: what the end is followed by is its first row.
#[derive(Drop)]
pub(crate) struct Links {
    nodes: Nodes,
    ghost whole: { IsNodes nodes },
    ghost some_levels: { (0 < nodes.levels) × (nodes.levels ≤ 2048) },
    ghost linked: { AreLinked (store_of nodes) (nodes.rows + nodes.levels) },
}

impl Links {
    /// Each row in rising order in the bucket of level 0.
    pub(crate) fn new(alloc: Global, rows: u32, levels: u32) -> Result<Links, AllocError>
        requires rows { (0 < rows) × (rows ≤ 65536) }
        requires levels { (0 < levels) × (levels ≤ 2048) }
        ensures sizes { IfOk result (λ o. (o.nodes.rows ≡ rows) × (o.nodes.levels ≡ levels)) }
        ensures next { IfOk result (λ o. (k : ℕ) → k < rows + levels → next_in (store_of o.nodes) k ≡ first_next rows k) }
        ensures prev { IfOk result (λ o. (k : ℕ) → k < rows + levels → prev_in (store_of o.nodes) k ≡ first_prev rows k) }
        ensures level { IfOk result (λ o. (k : ℕ) → k < rows + levels → level_in (store_of o.nodes) k ≡ 0) }
    {
        let nodes = Nodes::new(alloc, rows, levels)?;
        Ok(Links { nodes })
    }

    // The node with this number becomes `node`.
    fn set(&mut self, of: u32, node: Node)
        requires of { of < self.old.nodes.rows + self.old.nodes.levels }
        requires links { (node.after < self.old.nodes.rows + self.old.nodes.levels) × (node.before < self.old.nodes.rows + self.old.nodes.levels) }
        ensures same { (self.new.nodes.rows ≡ self.old.nodes.rows) × (self.new.nodes.levels ≡ self.old.nodes.levels) }
        ensures next { (k : ℕ) → k < self.old.nodes.rows + self.old.nodes.levels → next_in (store_of self.new.nodes) k ≡ (if nat_eq k of then node.after else next_in (store_of self.old.nodes) k) }
        ensures prev { (k : ℕ) → k < self.old.nodes.rows + self.old.nodes.levels → prev_in (store_of self.new.nodes) k ≡ (if nat_eq k of then node.before else prev_in (store_of self.old.nodes) k) }
        ensures level { (k : ℕ) → k < self.old.nodes.rows + self.old.nodes.levels → level_in (store_of self.new.nodes) k ≡ (if nat_eq k of then node.count else level_in (store_of self.old.nodes) k) }
    {
        self.nodes.set(of, node);
    }

    // The node `of` is followed by the node `to`.
    fn set_after(&mut self, of: u32, to: u32)
        requires inside { (of < self.old.nodes.rows + self.old.nodes.levels) × (to < self.old.nodes.rows + self.old.nodes.levels) }
        ensures same { (self.new.nodes.rows ≡ self.old.nodes.rows) × (self.new.nodes.levels ≡ self.old.nodes.levels) }
        ensures next { (k : ℕ) → k < self.old.nodes.rows + self.old.nodes.levels → next_in (store_of self.new.nodes) k ≡ (if nat_eq k of then to else next_in (store_of self.old.nodes) k) }
        ensures prev { (k : ℕ) → k < self.old.nodes.rows + self.old.nodes.levels → prev_in (store_of self.new.nodes) k ≡ prev_in (store_of self.old.nodes) k }
        ensures level { (k : ℕ) → k < self.old.nodes.rows + self.old.nodes.levels → level_in (store_of self.new.nodes) k ≡ level_in (store_of self.old.nodes) k }
    {
        let Node {
            before,
            after: _,
            count,
        } = self.nodes.get(of);
        self.set(
            of,
            Node {
                before,
                after: to,
                count,
            },
        );
    }

    // The node `of` is preceded by the node `to`.
    fn set_before(&mut self, of: u32, to: u32)
        requires inside { (of < self.old.nodes.rows + self.old.nodes.levels) × (to < self.old.nodes.rows + self.old.nodes.levels) }
        ensures same { (self.new.nodes.rows ≡ self.old.nodes.rows) × (self.new.nodes.levels ≡ self.old.nodes.levels) }
        ensures prev { (k : ℕ) → k < self.old.nodes.rows + self.old.nodes.levels → prev_in (store_of self.new.nodes) k ≡ (if nat_eq k of then to else prev_in (store_of self.old.nodes) k) }
        ensures next { (k : ℕ) → k < self.old.nodes.rows + self.old.nodes.levels → next_in (store_of self.new.nodes) k ≡ next_in (store_of self.old.nodes) k }
        ensures level { (k : ℕ) → k < self.old.nodes.rows + self.old.nodes.levels → level_in (store_of self.new.nodes) k ≡ level_in (store_of self.old.nodes) k }
    {
        let Node {
            before: _,
            after,
            count,
        } = self.nodes.get(of);
        self.set(
            of,
            Node {
                before: to,
                after,
                count,
            },
        );
    }

    /// How many rows there are.
    pub(crate) fn rows(&self) -> u32
        ensures { result ≡ self.now.nodes.rows }
    {
        self.nodes.rows()
    }

    /// The level of the row.
    pub(crate) fn level(&self, row: u32) -> u32
        requires { row < self.now.nodes.rows }
        ensures { result ≡ level_in (store_of self.now.nodes) row }
    {
        self.nodes.get(row).count
    }

    /// The first row of the bucket of the level; a number from `rows` on where it is empty.
    pub(crate) fn first(&self, level: u32) -> u32
        requires { level < self.now.nodes.levels }
        ensures { result ≡ next_in (store_of self.now.nodes) (self.now.nodes.rows + level) }
    {
        self.nodes.get(self.nodes.rows() + level).after
    }

    // The row's node comes out of its bucket.
    pub(crate) fn unlink(&mut self, row: u32)
        requires { row < self.old.nodes.rows }
        ensures same { (self.new.nodes.rows ≡ self.old.nodes.rows) × (self.new.nodes.levels ≡ self.old.nodes.levels) }
        ensures next { (k : ℕ) → k < self.old.nodes.rows + self.old.nodes.levels → next_in (store_of self.new.nodes) k ≡ (if nat_eq k (prev_in (store_of self.old.nodes) row) then next_in (store_of self.old.nodes) row else next_in (store_of self.old.nodes) k) }
        ensures prev { (k : ℕ) → k < self.old.nodes.rows + self.old.nodes.levels → prev_in (store_of self.new.nodes) k ≡ (if nat_eq k (next_in (store_of self.old.nodes) row) then prev_in (store_of self.old.nodes) row else prev_in (store_of self.old.nodes) k) }
        ensures level { (k : ℕ) → k < self.old.nodes.rows + self.old.nodes.levels → level_in (store_of self.new.nodes) k ≡ level_in (store_of self.old.nodes) k }
    {
        let Node {
            before,
            after,
            count: _,
        } = self.nodes.get(row);
        self.set_after(before, after);
        self.set_before(after, before);
    }

    // The row's node goes to the end of the bucket of `level`.
    pub(crate) fn append(&mut self, row: u32, level: u32)
        requires { (row < self.old.nodes.rows) × (level < self.old.nodes.levels) }
        ensures same { (self.new.nodes.rows ≡ self.old.nodes.rows) × (self.new.nodes.levels ≡ self.old.nodes.levels) }
        ensures next { (k : ℕ) → k < self.old.nodes.rows + self.old.nodes.levels → next_in (store_of self.new.nodes) k ≡ (if nat_eq k (prev_in (store_of self.old.nodes) (self.old.nodes.rows + level)) then row else if nat_eq k row then self.old.nodes.rows + level else next_in (store_of self.old.nodes) k) }
        ensures prev { (k : ℕ) → k < self.old.nodes.rows + self.old.nodes.levels → prev_in (store_of self.new.nodes) k ≡ (if nat_eq k (self.old.nodes.rows + level) then row else if nat_eq k row then prev_in (store_of self.old.nodes) (self.old.nodes.rows + level) else prev_in (store_of self.old.nodes) k) }
        ensures level { (k : ℕ) → k < self.old.nodes.rows + self.old.nodes.levels → level_in (store_of self.new.nodes) k ≡ (if nat_eq k row then level else level_in (store_of self.old.nodes) k) }
    {
        let end = self.nodes.rows() + level;
        let last = self.nodes.get(end).before;
        self.set(
            row,
            Node {
                before: last,
                after: end,
                count: level,
            },
        );
        self.set_after(last, row);
        self.set_before(end, row);
    }
}
