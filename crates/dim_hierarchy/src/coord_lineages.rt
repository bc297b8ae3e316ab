//! A coordinate with the ancestors of its concepts.
ghost use Rattle.std.specs.Prelude.{◌≡◌, ◌<◌, ◌≤◌, length};
ghost use Rattle.dim_hierarchy.specs.Tree.{leaf_level, up};
ghost use Rattle.dim_hierarchy.specs.Dimension.{tree};
ghost use Rattle.dim_hierarchy.specs.Row.{IsCoordOf, concept_at};

use crate::concept::ConceptId;
use crate::hierarchy::Hierarchy;
use crate::lineage::Lineage;
use crate::row::Coord;
use std::marker::Model;
use std::snapshot::Snapshot;

/// A coordinate with the lineages of its concepts, made once for many questions about its ancestors.
/// Contracts see the coordinate, and the hierarchy over which it was made.
#[derive(Drop)]
pub struct CoordLineages {
    hierarchy: Snapshot<Hierarchy>,
    coord: Snapshot<Coord>,
    lineages: [Lineage; 8],
}

impl Model for CoordLineages {
    ghost use Rattle.dim_hierarchy.specs.CoordLineages.{CoordOf, coord_of_code, AreLineagesAt};

    ghost Value = { CoordOf };

    ghost coded = { coord_of_code };

    ghost view = { λ c. record { hierarchy = c.hierarchy.value; coord = c.coord.value } };

    ghost invariant = { λ c. AreLineagesAt c.hierarchy.value c.coord.value c.lineages };
}

impl Hierarchy {
    ghost use Rattle.dim_hierarchy.specs.CoordLineages.{coord_of};

    /// The coordinate with the ancestors of its concepts. Takes no memory.
    pub fn lineages(&self, at: &Coord) -> CoordLineages
        requires { IsCoordOf self.now at.now }
        ensures { result ≡ coord_of self.now at.now }
    {
        let mut lineages = [[ConceptId::ALL; 9]; 8];
        for dim in 0..self.dims() {
            lineages[usize::from(dim)] = self.table(dim).lineage(at.concept(dim));
        }
        CoordLineages {
            hierarchy: Snapshot::of(self),
            coord: Snapshot::of(at),
            lineages,
        }
    }
}

impl CoordLineages {
    /// The ancestor of the concept in a dimension.
    pub fn up(&self, dim: u8, level: u8) -> ConceptId
        requires dim { dim < length self.now.hierarchy }
        requires level { level ≤ leaf_level (tree self.now.hierarchy dim) }
        ensures value { result ≡ up (tree self.now.hierarchy dim) (concept_at self.now.coord dim) level }
        ensures valid { IsCoordOf self.now.hierarchy self.now.coord }
    {
        let lineage = &self.lineages[usize::from(dim)];
        lineage[usize::from(level)]
    }

    /// A law without code: the coordinate is one of the hierarchy.
    pub fn law(&self)
        ensures { IsCoordOf self.now.hierarchy self.now.coord }
    {
        let _ = &self.lineages;
    }
}
