//! The height of a number of rows: how far above ATH - 1 a row's activations can be at a mark of its bank.
ghost use Rattle.std.specs.Prelude.{suc, ◌≡◌, ◌≤◌, ◌-◌};
ghost use Rattle.speed_bin.specs.Height.{height_of, IsHeight};

/// The greatest h with `cycle ^ h <= rows * (cycle - 1) ^ h`, for a bank of 1 to 65,536 rows and a back-off cycle of 2 to
/// 5 activations: how many activations more than ATH - 1 a row can have when its bank begins a cycle.
pub fn height(rows: u32, cycle: u32) -> u32
    requires rows { (1 ≤ rows) × (rows ≤ 65536) }
    requires cycle { (2 ≤ cycle) × (cycle ≤ 5) }
    ensures value { result ≡ height_of (cycle - 1) rows }
    ensures greatest { IsHeight (cycle - 1) rows result }
{
    height_by(u128::from(rows), u128::from(cycle - 1), u128::from(cycle))
}

// The same, by the rows, the activations that a cycle has beyond the first, and all of its activations.
fn height_by(rows: u128, spare: u128, cycle: u128) -> u32
    requires rows { (1 ≤ rows) × (rows ≤ 65536) }
    requires spare { (1 ≤ spare) × (spare ≤ 4) }
    requires cycle { cycle ≡ suc spare }
    ensures value { result ≡ height_of spare rows }
    ensures greatest { IsHeight spare rows result }
{
    let mut power = cycle;
    let mut limit = spare * rows;
    for height in 0..50 {
        if power > limit {
            return height;
        }
        power *= cycle;
        limit *= spare;
    }
    50
}
