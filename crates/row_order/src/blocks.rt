//! The nodes of rows by blocks of sixteen.
ghost use Rattle.std.specs.Prelude.{◌≡◌, ℕ, ◌+◌, ◌*◌, ◌/◌, ◌<◌, ◌≤◌, length, vec_capacity, nat_eq, if◌then◌else◌};
ghost use Rattle.row_order.specs.Blocks.{row_node, place_of, AreBlocks};
ghost use Rattle.row_order.specs.declared.nodes.Node.{Node as NodeValue};

use crate::nodes::{Node, natural};

/// The node of a row.
pub(crate) fn node_of(places: &Vec<u16>, pool: &Vec<Node>, rows: u32, row: u32) -> Node
    requires blocks { AreBlocks places.now.items pool.now.items }
    requires rows { 0 < rows }
    requires low { row / 16 < length places.now.items }
    ensures { result ≡ row_node rows places.now.items pool.now.items row }
{
    let place = places[(row / 16) as usize] as usize;
    if place == 0 {
        natural(row, rows)
    } else {
        pool[(place - 1) * 16 + (row % 16) as usize]
    }
}

/// Makes the nodes of a block where it has none. The pool has room for them.
pub(crate) fn open(places: &mut Vec<u16>, pool: &mut Vec<Node>, rows: u32, block: u32)
    requires blocks { AreBlocks places.old.items pool.old.items }
    requires rows { 0 < rows }
    requires low { block < length places.old.items }
    requires room { 16 * length places.old.items ≤ vec_capacity pool.old }
    ensures blocks { AreBlocks places.new.items pool.new.items }
    ensures same { (row : ℕ) → row_node rows places.new.items pool.new.items row ≡ row_node rows places.old.items pool.old.items row }
    ensures opened { 0 < place_of places.new.items block }
    ensures long { length places.new.items ≡ length places.old.items }
    ensures capacity { vec_capacity pool.new ≡ vec_capacity pool.old }
{
    if places[block as usize] == 0 {
        make(places, pool, rows, block);
    }
}

fn make(places: &mut Vec<u16>, pool: &mut Vec<Node>, rows: u32, block: u32)
    requires blocks { AreBlocks places.old.items pool.old.items }
    requires rows { 0 < rows }
    requires low { block < length places.old.items }
    requires fresh { place_of places.old.items block ≡ 0 }
    requires room { 16 * length places.old.items ≤ vec_capacity pool.old }
    ensures blocks { AreBlocks places.new.items pool.new.items }
    ensures same { (row : ℕ) → row_node rows places.new.items pool.new.items row ≡ row_node rows places.old.items pool.old.items row }
    ensures opened { 0 < place_of places.new.items block }
    ensures long { length places.new.items ≡ length places.old.items }
    ensures capacity { vec_capacity pool.new ≡ vec_capacity pool.old }
{
    let from = block * 16;
    'rows: for i in 0..16_u32 {
        pool.push_reserved(natural(from + i, rows));
    }
    let place = pool.len() / 16;
    places[block as usize] = place as u16;
}

/// The node of a row whose block is open becomes `node`.
pub(crate) fn put_node(places: &Vec<u16>, pool: &mut Vec<Node>, rows: u32, row: u32, node: Node)
    requires blocks { AreBlocks places.now.items pool.old.items }
    requires opened { 0 < place_of places.now.items (row / 16) }
    requires low { row / 16 < length places.now.items }
    ensures blocks { AreBlocks places.now.items pool.new.items }
    ensures nodes { (k : ℕ) → row_node rows places.now.items pool.new.items k
        ≡ (if nat_eq k row then node else row_node rows places.now.items pool.old.items k) }
    ensures capacity { vec_capacity pool.new ≡ vec_capacity pool.old }
{
    let place = places[(row / 16) as usize] as usize;
    pool[(place - 1) * 16 + (row % 16) as usize] = node;
}
