//! Which entry of a directory a row goes down by.
ghost use Rattle.std.specs.Prelude.{ℕ, ◌≡◌, ◌<◌, ◌≤◌, ◌⊎◌, ◌↔◌, Some, length, map, All, IsTrue};
ghost use Rattle.describing_set.specs.Sets.{growth_of, size_of, IsDescSetOf};
ghost use Rattle.dc_node.specs.Block.{entries_in, IsBodyOf};
ghost use Rattle.dc_node.specs.Limits.{most_of_directory};
ghost use Rattle.link_descent.specs.Pick.{IsPick, pick_place};

use dc_node::{Block, Entry};
use describing_set::DescSet;
use dim_hierarchy::{CoordLineages, Hierarchy};

/// Whether a set that grows so much comes before one that grows `least`: by less growth, or by as
/// much where it is smaller. Sizes are counted on a tie only.
fn comes_before(set: &DescSet, growth: u32, best: &DescSet, least: u32, h: &Hierarchy) -> bool
    requires set { IsDescSetOf h.now set.now }
    requires best { IsDescSetOf h.now best.now }
    ensures { IsTrue result ↔ ((growth < least)
        ⊎ ((growth ≡ least) × (size_of h.now set.now < size_of h.now best.now))) }
{
    if growth != least {
        return growth < least;
    }
    set.size(h) < best.size(h)
}

/// Whether the first set is grown less by the coordinate than the second, or as much and is smaller.
pub fn is_before(a: &DescSet, b: &DescSet, h: &Hierarchy, at: &CoordLineages) -> bool
    requires a { IsDescSetOf h.now a.now }
    requires b { IsDescSetOf h.now b.now }
    requires at { at.now.hierarchy ≡ h.now }
    ensures { IsTrue result
        ↔ ((growth_of h.now a.now at.now.coord < growth_of h.now b.now at.now.coord)
        ⊎ ((growth_of h.now a.now at.now.coord ≡ growth_of h.now b.now at.now.coord)
        × (size_of h.now a.now < size_of h.now b.now))) }
{
    comes_before(a, a.growth(h, at), b, b.growth(h, at), h)
}

/// The place of the entry that comes first for a coordinate.
fn place_of(entries: &[Entry], h: &Hierarchy, at: &CoordLineages) -> u8
    requires some { 0 < length entries.now }
    requires few { length entries.now ≤ most_of_directory }
    requires sets { All (λ e. IsDescSetOf h.now e.set) entries.now }
    requires at { at.now.hierarchy ≡ h.now }
    ensures { IsPick h.now at.now.coord (map (λ e. e.set) entries.now) result }
{
    let mut best = 0;
    let mut least = entries[0].set.growth(h, at);
    for place in 1..entries.len() as u8 {
        let next = &entries[usize::from(place)].set;
        // A growth beyond the least so far is not counted to its end.
        if let Some(growth) = next.growth_within(h, at, least) {
            if comes_before(next, growth, &entries[usize::from(best)].set, least, h) {
                best = place;
                least = growth;
            }
        }
    }
    best
}

/// The place of the entry by which a coordinate goes down: the one whose set is grown least by it,
/// then the smallest set, then the lowest place. The block is a directory with an entry.
pub fn pick(block: &Block, h: &Hierarchy, at: &CoordLineages) -> u8
    requires some { 0 < length (entries_in block.now.body) }
    requires body { IsBodyOf h.now block.now.body }
    requires at { at.now.hierarchy ≡ h.now }
    ensures first { IsPick h.now at.now.coord (map (λ e. e.set) (entries_in block.now.body)) result }
    ensures place { pick_place h.now at.now.coord (map (λ e. e.set) (entries_in block.now.body)) ≡ Some result }
    ensures only { (other : ℕ)
        → IsPick h.now at.now.coord (map (λ e. e.set) (entries_in block.now.body)) other → other ≡ result }
{
    place_of(block.entries(), h, at)
}
