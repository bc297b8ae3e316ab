//! How large a built tree is, and what a split needs.
ghost use Rattle.std.specs.Prelude.{◌≡◌, ℕ, ◌+◌, ◌*◌, ◌^◌, ◌<◌, ◌≤◌, [], ◌∷◌};
ghost use Rattle.std.specs.Int.{div_ceil};
ghost use Rattle.shard_plan.specs.Building.{parent_nodes, leaves_for, levels_over, cells_for, levels_for, split_need};

/// How many rows a built leaf has, but for the last.
pub const LEAF_ROWS: u64 = 24;

/// How many nodes a built parent has, but for the last of a level.
pub const PARENT_NODES: u64 = 12;

/// How many blocks a tree of so many rows is built of.
pub fn cells_for(n: u64) -> u64
    requires { n < 2 ^ 40 }
    ensures { result ≡ cells_for n }
{
    let mut level = leaves_for(n);
    let mut cells = level;
    while level > 1 {
        level = level.div_ceil(PARENT_NODES);
        cells += level;
    }
    cells
}

/// How many levels that tree has.
pub fn levels_for(n: u64) -> u32
    requires { n < 2 ^ 40 }
    ensures { result ≡ levels_for n }
{
    let mut level = leaves_for(n);
    let mut levels = 1;
    while level > 1 {
        level = level.div_ceil(PARENT_NODES);
        levels += 1;
    }
    levels
}

/// How many cells the stock must have before a shard of so many rows is split.
pub fn split_need(n: u64) -> u64
    requires { n < 2 ^ 40 }
    ensures { result ≡ split_need n }
{
    2 + cells_for(n) + 2 * u64::from(levels_for(n))
}

/// The cells that a split needs are enough for the two trees that it builds, beside the two gates.
pub fn parts_fit()
    ensures { (a b : ℕ) → cells_for a + cells_for b + 2 ≤ split_need (a + b) }
{}

/// The levels of a tree from one of n nodes up: that one alone where it is the root, else that one and the
/// levels from its parents up.
pub fn level_laws()
    ensures root { (n : ℕ) → n ≤ 1 → levels_over n n ≡ n ∷ [] }
    ensures parents { (n : ℕ) → 1 < n
        → levels_over n n ≡ n ∷ levels_over (div_ceil n parent_nodes) (div_ceil n parent_nodes) }
{}

/// How many leaves there are: one at least.
pub fn leaves_for(n: u64) -> u64
    requires { n < 2 ^ 40 }
    ensures { result ≡ leaves_for n }
{
    n.div_ceil(LEAF_ROWS).max(1)
}
