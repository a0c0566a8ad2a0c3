//! The nodes of a row order. Those of the rows are made when a row of their block of sixteen is first changed; until then
//! such a row has the node that it had at the start.
ghost use Rattle.std.specs.Prelude.{◌≡◌, ℕ, ◌<◌, ◌≤◌, ◌+◌, ◌*◌, ◌/◌, ◌^◌, IfOk, nat_eq, if◌then◌else◌};
ghost use Rattle.row_order.specs.Nodes.{store_of, node_in, IsNodes};
ghost use Rattle.row_order.specs.Blocks.{natural};
ghost use Rattle.row_order.specs.Runs.{first_next, first_prev};

use crate::blocks::{node_of, open, put_node};
use std::alloc::{AllocError, Global};

/// A row's node, or the end of a bucket. Its links are numbers of nodes.
#[derive(Clone, Copy)]
pub struct Node {
    pub before: u32,
    pub after: u32,
    pub count: u32,
}

/// The nodes of the rows have their numbers. After them come the ends of the buckets, one for each level.
#[derive(Drop)]
pub struct Nodes {
    rows: u32,
    levels: u32,
    // for each sixteen rows 0, or d where their nodes are the d-th sixteen of `pool`
    places: Vec<u16>,
    // has room for all rows from the start on
    pool: Vec<Node>,
    ends: Vec<Node>,
}

/// The node with this number at the start.
pub(crate) fn natural(number: u32, rows: u32) -> Node
    requires { (0 < rows) × (number < 2 ^ 24) }
    ensures { result ≡ natural rows number }
{
    Node {
        before: first_before(number, rows),
        after: first_after(number, rows),
        count: 0,
    }
}

// The number of the node before the node `number` at the start.
fn first_before(number: u32, rows: u32) -> u32
    requires { 0 < rows }
    ensures { result ≡ first_prev rows number }
{
    if number == 0 {
        rows
    } else if number <= rows {
        number - 1
    } else {
        number
    }
}

// The number of the node after the node `number` at the start.
fn first_after(number: u32, rows: u32) -> u32
    requires { number < 2 ^ 24 }
    ensures { result ≡ first_next rows number }
{
    if number < rows {
        number + 1
    } else if number == rows {
        0
    } else {
        number
    }
}

#[tactic(auto, unfolding(crate::specs::Nodes::store_of, crate::specs::Nodes::node_in))]
impl Nodes {
    /// Each row in rising order in the bucket of level 0.
    pub(crate) fn new(alloc: Global, rows: u32, levels: u32) -> Result<Nodes, AllocError>
        requires rows { (0 < rows) × (rows ≤ 65536) }
        requires levels { (0 < levels) × (levels ≤ 2048) }
        ensures sizes { IfOk result (λ o. (o.rows ≡ rows) × (o.levels ≡ levels)) }
        ensures whole { IfOk result (λ o. IsNodes o) }
        ensures nodes { IfOk result (λ o. (k : ℕ) → k < rows + levels → node_in (store_of o) k ≡ natural rows k) }
    {
        let blocks = ((rows + 15) / 16) as usize;
        let places = Vec::from_elem(alloc, 0u16, blocks)?;
        let pool = Vec::with_capacity(alloc, 16 * blocks)?;
        let mut ends = Vec::with_capacity(alloc, levels as usize)?;
        'levels: for level in 0..levels {
            ends.push_reserved(natural(rows + level, rows));
        }
        Ok(Nodes {
            rows,
            levels,
            places,
            pool,
            ends,
        })
    }

    pub(crate) fn rows(&self) -> u32
        ensures { result ≡ self.now.rows }
    {
        self.rows
    }

    pub(crate) fn get(&self, number: u32) -> Node
        requires whole { IsNodes self.now }
        requires inside { number < self.now.rows + self.now.levels }
        ensures { result ≡ node_in (store_of self.now) number }
    {
        if number < self.rows {
            node_of(&self.places, &self.pool, self.rows, number)
        } else {
            self.ends[(number - self.rows) as usize]
        }
    }

    /// The node of this number becomes `node`.
    pub(crate) fn set(&mut self, number: u32, node: Node)
        requires whole { IsNodes self.old }
        requires inside { number < self.old.rows + self.old.levels }
        ensures same { (self.new.rows ≡ self.old.rows) × (self.new.levels ≡ self.old.levels) }
        ensures whole { IsNodes self.new }
        ensures nodes { (k : ℕ) → k < self.old.rows + self.old.levels
            → node_in (store_of self.new) k ≡ (if nat_eq k number then node else node_in (store_of self.old) k) }
    {
        if number < self.rows {
            open(&mut self.places, &mut self.pool, self.rows, number / 16);
            put_node(&self.places, &mut self.pool, self.rows, number, node);
        } else {
            self.ends[(number - self.rows) as usize] = node;
        }
    }
}
