//! The shard to which a row goes.
ghost use Rattle.std.specs.Prelude.{◌≡◌, ◌<◌, ◌+◌, ◌↔◌, IsTrue, length};
ghost use Rattle.describing_set.specs.Sets.{IsDescSetOf, size_of};
ghost use Rattle.server_image.specs.Spots.{AreBoxes};
ghost use Rattle.server_image.specs.Image.{IsRoute};
ghost use Rattle.server_image.specs.Rank.{IsLower, IsRouteAmong};

use describing_set::Spot;
use dim_hierarchy::{CoordLineages, Hierarchy};

/// What a spot is ranked by for a coordinate: by how much its box is grown, how large that is, and its id.
#[derive(Clone, Copy, Debug, PartialEq, Eq)]
pub struct Rank {
    pub growth: u32,
    pub size: u32,
    pub shard: u32,
}

/// The rank of a spot whose box is grown so much.
fn rank_of(spot: &Spot, growth: u32, h: &Hierarchy) -> Rank
    requires { IsDescSetOf h.now spot.now.set }
    ensures { result ≡ record { growth = growth; size = size_of h.now spot.now.set; shard = spot.now.shard } }
{
    Rank {
        growth,
        size: spot.set.size(h),
        shard: spot.shard,
    }
}

/// Whether the first growth is less, or it is as much and the first size is less, or that is the same
/// and the first id is lower.
fn is_lower(a: &Rank, b: &Rank) -> bool
    ensures { IsTrue result ↔ IsLower a.now b.now }
{
    if a.growth != b.growth {
        return a.growth < b.growth;
    }
    a.size < b.size || (a.size == b.size && a.shard < b.shard)
}

/// The place of the first spot whose box covers the coordinate; the first place where there is none.
fn covering(spots: &[Spot], at: &CoordLineages, h: &Hierarchy) -> usize
    requires some { 0 < length spots.now }
    requires boxes { AreBoxes h.now spots.now }
    requires at { at.now.hierarchy ≡ h.now }
    ensures within { result < length spots.now }
    ensures first { IsRouteAmong h.now at.now.coord spots.now (result + 1) result }
{
    for place in 0..spots.len() {
        if spots[place].set.growth_within(h, at, 0).is_some() {
            return place;
        }
    }
    0
}

/// The place of the spot before which no other comes. Of boxes that cover the coordinate sizes alone are
/// compared, and of others it is mostly seen in one dimension that they don't.
pub fn first_for(spots: &[Spot], at: &CoordLineages, h: &Hierarchy) -> usize
    requires some { 0 < length spots.now }
    requires boxes { AreBoxes h.now spots.now }
    requires at { at.now.hierarchy ≡ h.now }
    ensures { IsRoute h.now at.now.coord spots.now result }
{
    let mut best = covering(spots, at, h);
    let mut least = rank_of(&spots[best], spots[best].set.growth(h, at), h);
    for place in best + 1..spots.len() {
        let spot = &spots[place];
        // A growth beyond the least so far is not counted to its end.
        if let Some(growth) = spot.set.growth_within(h, at, least.growth) {
            let rank = rank_of(spot, growth, h);
            if is_lower(&rank, &least) {
                best = place;
                least = rank;
            }
        }
    }
    best
}
