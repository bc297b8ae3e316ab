//! The parts of a describing set.
ghost use Rattle.std.specs.Prelude.{◌≡◌, ◌<◌, ◌≤◌, ◌+◌, [], ◌∷◌, ◌++◌, length, slice_set};
ghost use Rattle.std.specs.List.{slice_index_or};
ghost use Rattle.dim_hierarchy.specs.Concept.{level_of};
ghost use Rattle.dim_hierarchy.specs.Tree.{IsConcept};
ghost use Rattle.dim_hierarchy.specs.Dimension.{tree, IsHierarchy};

use crate::few::FewConcepts;
use crate::part::Part;
use dim_hierarchy::{ConceptId, Hierarchy};
use std::marker::Model;

/// At most eight parts, one for each dimension. Contracts see the list.
///
/// They stand where the set stands, and an unused place holds no concept of level 0, so that a set
/// is made and copied without a loop.
#[derive(Clone, Copy, Debug, Drop, PartialEq)]
pub struct PartList {
    places: [Part; 8],
    count: u8,
}

impl Model for PartList {
    ghost use Rattle.std.specs.Prelude.{◌≡◌, ◌≤◌, ◌++◌, ◌-◌, [], take, length, replicate};
    ghost use Rattle.arrayvec.specs.ArrayVec.{ArrayVec as Items};
    ghost use Rattle.describing_set.specs.declared.part.Part.{Part};
    ghost use Rattle.describing_set.specs.Part.{part};
    ghost use Rattle.describing_set.specs.Parts.{AreParts};

    ghost Value = { Items Part };

    ghost view = { λ s. record { items = take s.count s.places } };

    ghost invariant = { λ s. AreParts s.count s.places };

    ghost inverse = { λ v. record {
      places = v.items ++ replicate (8 - length v.items) (part 0 []);
      count = length v.items;
    } };

    ghost inverse_ok = { λ s h i. record { places = h.unused i; count = h.used i } };
}

impl PartList {
    ghost use Rattle.describing_set.specs.Part.{part};
    ghost use Rattle.describing_set.specs.Parts.{IsPart, PartGrows};

    /// None.
    pub fn new() -> PartList
        ensures { result.items ≡ [] }
    {
        let none = Part {
            level: 0,
            ids: FewConcepts::new(),
        };
        PartList {
            places: [none; 8],
            count: 0,
        }
    }

    /// The parts.
    pub fn as_slice(&self) -> &[Part]
        ensures value { result.now ≡ self.now.items }
        ensures few { length result.now ≤ 8 }
    {
        &self.places[..usize::from(self.count)]
    }

    /// Adds a part at the end.
    pub fn push(&mut self, part: Part)
        requires { length self.old.items < 8 }
        ensures items { self.new.items ≡ self.old.items ++ part ∷ [] }
        ensures len { length self.new.items ≡ length self.old.items + 1 }
    {
        self.places[usize::from(self.count)] = part;
        self.count += 1;
    }

    /// Puts a part in place of that of a dimension.
    pub(crate) fn set(&mut self, dim: u8, part: Part)
        requires { dim < length self.old.items }
        ensures { self.new.items ≡ slice_set self.old.items dim part }
    {
        self.places[usize::from(dim)] = part;
    }

    /// Adds a concept to the part of a dimension. A part that has the concept's ancestor is read only.
    pub(crate) fn add(&mut self, h: &Hierarchy, dim: u8, id: ConceptId)
        requires hierarchy { IsHierarchy h.now }
        requires dim { dim < length h.now }
        requires within { dim < length self.old.items }
        requires part { IsPart (tree h.now dim) (slice_index_or self.old.items dim (part 0 [])) }
        requires concept { IsConcept (tree h.now dim) id }
        requires level { (slice_index_or self.old.items dim (part 0 [])).level ≤ level_of id }
        ensures { PartGrows (tree h.now dim) dim id self.old.items self.new.items }
    {
        let part = &self.as_slice()[usize::from(dim)];
        if part.has_ancestor(h, dim, id) {
            return;
        }
        let mut part = *part;
        part.add(h, dim, id);
        self.places[usize::from(dim)] = part;
    }
}

impl Default for PartList {
    ghost is_default = { λ s. s.items ≡ [] };

    fn default() -> PartList {
        PartList::new()
    }
}
