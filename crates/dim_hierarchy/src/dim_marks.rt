//! The marks of one dimension: one for each concept, or a few.
ghost use Rattle.std.specs.Prelude.{All, IfOk, OnOk};
ghost use Rattle.dim_hierarchy.specs.Tree.{IsConcept, IsTree};
ghost use Rattle.dim_hierarchy.specs.declared.filter.Pick.TheVariants.{Ids};
ghost use Rattle.dim_hierarchy.specs.FewMarks.{AreFewMarks, NotesWay};
ghost use Rattle.dim_hierarchy.specs.Compiled.{AreDimMarks};

use crate::concept::ConceptId;
use crate::dimension::DimensionTable;
use crate::few_marks::{FewMarks, note_above, note_listed};
use crate::marks::FullMarks;
use std::alloc::{AllocError, Global};
use std::collections::BTreeMap;

/// A mark for each of so many concepts takes about as long as to note one.
const MANY_FOR_ONE: usize = 64;

/// So many listed concepts at most make no difference for how marks are kept. They are asked much faster where there
/// is one for each concept, so a query of many rows is to have these up to 64 times so many concepts.
const FEW_LISTED: usize = 1024;

/// What tells how a concept of one dimension lies to a pick.
#[derive(Drop)]
pub enum DimMarks {
    /// The pick is all.
    All,
    /// A mark for each concept.
    Full(FullMarks),
    /// Marks of those that are listed and of those above them.
    Few(Box<FewMarks>),
}

impl DimensionTable {
    /// The marks where these concepts are listed.
    pub fn marks(&self, alloc: Global, ids: &[ConceptId]) -> Result<DimMarks, AllocError>
        requires tree { IsTree self.now.tree }
        requires ids { All (IsConcept self.now.tree) ids.now }
        ensures { IfOk result (AreDimMarks self.now.tree (Ids ids.now)) }
    {
        if self.has_many_beside(ids.len()) {
            Ok(DimMarks::Few(Box::new(alloc, self.few_marks(alloc, ids)?)?))
        } else {
            Ok(DimMarks::Full(self.full_marks(alloc, ids)?))
        }
    }

    /// Whether the dimension has so many concepts that marks of a few take less than a mark for each, where so many
    /// are listed. It changes no answer.
    fn has_many_beside(&self, listed: usize) -> bool {
        self.concepts() / MANY_FOR_ONE > listed.max(FEW_LISTED)
    }

    /// Marks of the listed concepts and of those above them.
    fn few_marks(&self, alloc: Global, ids: &[ConceptId]) -> Result<FewMarks, AllocError>
        requires tree { IsTree self.now.tree }
        requires ids { All (IsConcept self.now.tree) ids.now }
        ensures { IfOk result (AreFewMarks self.now.tree (Ids ids.now)) }
    {
        let mut marks = BTreeMap::new(alloc);
        for id in ids {
            self.note_way(&mut marks, *id)?;
        }
        Ok(FewMarks {
            lineages: self.shared_lineages()?,
            marks,
        })
    }

    /// Notes a listed concept, and those that lie above it.
    fn note_way(&self, marks: &mut BTreeMap<u32, u8>, id: ConceptId) -> Result<(), AllocError>
        requires tree { IsTree self.now.tree }
        requires concept { IsConcept self.now.tree id }
        ensures { OnOk result (NotesWay self.now.tree id marks.old marks.new) }
    {
        for level in 0..id.level() {
            note_above(marks, self.up(id, level))?;
        }
        note_listed(marks, id)
    }
}
