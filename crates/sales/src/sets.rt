//! The describing set of two sales.
ghost use Rattle.std.specs.Prelude.{[], ◌∷◌};
ghost use Rattle.dim_hierarchy.specs.Row.{IsCoordOf};
ghost use Rattle.describing_set.specs.DescSet.{IsSetOf};

use describing_set::DescSet;
use dim_hierarchy::{Coord, Hierarchy};

/// The set of two sales.
pub fn set_of_both(h: &Hierarchy, one: &Coord, other: &Coord) -> DescSet
    requires one { IsCoordOf h.now one.now }
    requires other { IsCoordOf h.now other.now }
    ensures { IsSetOf h.now (other.now ∷ one.now ∷ []) result }
{
    let mut set = DescSet::of_coord(h, one);
    set.grow(h, other);
    set
}
