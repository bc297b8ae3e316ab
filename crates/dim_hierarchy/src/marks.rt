//! The marks of concepts, by which a compiled filter answers.
ghost use Rattle.std.specs.Prelude.{◌≡◌, ◌==◌, ◌<◌, ◌-◌, ℕ, List, [], All, filter, length, nat_lt, if◌then◌else◌, slice_index, slice_set, IfOk};
ghost use Rattle.std.specs.List.{slice_index_or, list_all, list_any};
ghost use Rattle.dim_hierarchy.specs.Concept.{level_of, number_of};
ghost use Rattle.dim_hierarchy.specs.Tree.{IsConcept, IsTree, parent, parents_at};
ghost use Rattle.dim_hierarchy.specs.Column.{is_marked};
ghost use Rattle.dim_hierarchy.specs.declared.filter.Pick.TheVariants.{Ids};
ghost use Rattle.dim_hierarchy.specs.Marks.{AreLevelMarks, AreUpperMarks, AreMarksOf, AreListed, Notes, Inherits, mark_at};

use crate::column::{Column, RowPlaces};
use crate::concept::ConceptId;
use crate::dimension::DimensionTable;
use std::alloc::{AllocError, Global};
use std::marker::Model;

/// The mark of a concept that is neither `ABOVE` nor `UNDER`.
pub(crate) const APART: u8 = 0;

/// The mark of a concept that is not under a listed one, and above one.
pub(crate) const ABOVE: u8 = 1;

/// The mark of a concept that the pick has.
pub const UNDER: u8 = 2;

/// The marks of the concepts of one level, by number.
#[derive(Drop)]
pub struct LevelMarks {
    all: Vec<u8>,
}

impl Model for LevelMarks {
    ghost Value = { List ℕ };

    ghost view = { λ m. m.all.items };
}

/// The marks of all concepts of one dimension by a pick: whether it has the concept, and else
/// whether the concept lies above a listed one.
#[derive(Drop)]
pub struct FullMarks {
    levels: Vec<LevelMarks>,
}

impl Model for FullMarks {
    ghost Value = { List (List ℕ) };

    ghost view = { λ m. m.levels.items };
}

impl LevelMarks {
    /// The mark of a concept of the level.
    fn mark(&self, id: ConceptId) -> u8
        requires { number_of id < length self.now }
        ensures { result ≡ slice_index self.now (number_of id) }
    {
        self.all[id.number() as usize]
    }

    /// Whether each of these concepts of the level is marked `UNDER`.
    pub fn are_under(&self, ids: &[ConceptId]) -> bool
        requires { All (λ id. number_of id < length self.now) ids.now }
        ensures { result ≡ list_all (λ id. slice_index self.now (number_of id) == 2) ids.now }
    {
        ids.iter().all(|id| self.mark(*id) == UNDER)
    }

    /// Whether one of these concepts of the level is not marked `APART`.
    pub fn is_any_related(&self, ids: &[ConceptId]) -> bool
        requires { All (λ id. number_of id < length self.now) ids.now }
        ensures { result ≡ list_any (λ id. nat_lt 0 (slice_index self.now (number_of id))) ids.now }
    {
        ids.iter().any(|id| APART < self.mark(*id))
    }

    /// Keeps the places at which the column has a concept that is marked `UNDER`.
    pub fn keep(&self, column: &Column, places: &mut RowPlaces)
        requires { All (λ place. number_of (slice_index column.now place) < length self.now) places.old }
        ensures { places.new ≡ filter (is_marked column.now self.now) places.old }
    {
        places.keep(column, &self.all);
    }
}

impl FullMarks {
    /// The mark of a concept.
    pub fn mark(&self, id: ConceptId) -> u8
        requires level { level_of id < length self.now }
        requires number { number_of id < length (slice_index_or self.now (level_of id) []) }
        ensures { result ≡ mark_at self.now id }
    {
        let level = &self.levels[usize::from(id.level())];
        level.all[id.number() as usize]
    }

    /// The marks of the concepts of a level.
    pub fn level(&self, level: u8) -> &LevelMarks
        requires { level < length self.now }
        ensures { result.now ≡ slice_index_or self.now level [] }
    {
        &self.levels[usize::from(level)]
    }

    /// The marks of the concepts of the last level.
    pub fn leaves(&self) -> &LevelMarks
        requires { 0 < length self.now }
        ensures { result.now ≡ slice_index_or self.now (length self.now - 1) [] }
    {
        &self.levels[self.levels.len() - 1]
    }
}

impl DimensionTable {
    /// A mark for each concept, where these are listed.
    pub(crate) fn full_marks(
        &self,
        alloc: Global,
        ids: &[ConceptId],
    ) -> Result<FullMarks, AllocError>
        requires tree { IsTree self.now.tree }
        requires ids { All (IsConcept self.now.tree) ids.now }
        ensures { IfOk result (AreMarksOf self.now.tree (Ids ids.now)) }
    {
        let count = self.leaf_level() + 1;
        let mut levels = Vec::with_capacity(alloc, usize::from(count))?;
        for level in 0..count {
            let marks = self.level_marks(alloc, ids, level, levels.as_slice())?;
            levels.push(marks)?;
        }
        Ok(FullMarks { levels })
    }

    /// The marks of the concepts of a level, by those of the levels above.
    fn level_marks(
        &self,
        alloc: Global,
        ids: &[ConceptId],
        level: u8,
        upper: &[LevelMarks],
    ) -> Result<LevelMarks, AllocError>
        requires tree { IsTree self.now.tree }
        requires ids { All (IsConcept self.now.tree) ids.now }
        requires level { level < length self.now.tree }
        requires upper { AreUpperMarks self.now.tree (Ids ids.now) level upper.now }
        ensures { IfOk result (AreLevelMarks self.now.tree (Ids ids.now) level) }
    {
        let mut all = vec![in alloc; APART; self.level_len(level)]?;
        let marks = all.as_mut_slice();
        self.note_all(level, ids, marks);
        self.inherit(level, upper, marks);
        Ok(LevelMarks { all })
    }

    /// Marks the listed concepts of a level, and those that lie above a listed one.
    fn note_all(&self, level: u8, ids: &[ConceptId], marks: &mut [u8])
        requires tree { IsTree self.now.tree }
        requires ids { All (IsConcept self.now.tree) ids.now }
        requires level { level < length self.now.tree }
        requires count { length marks.old ≡ length (parents_at self.now.tree level) }
        requires none { AreListed self.now.tree level [] marks.old }
        ensures { AreListed self.now.tree level ids.now marks.new }
    {
        for id in ids {
            self.note(level, *id, marks);
        }
    }

    /// Marks a listed concept of a level, or that which lies above it.
    fn note(&self, level: u8, id: ConceptId, marks: &mut [u8])
        requires tree { IsTree self.now.tree }
        requires concept { IsConcept self.now.tree id }
        requires level { level < length self.now.tree }
        requires count { length marks.old ≡ length (parents_at self.now.tree level) }
        ensures { Notes self.now.tree level id marks.old marks.new }
    {
        if id.level() < level {
            return;
        }
        let number = self.up(id, level).number() as usize;
        if id.level() == level {
            marks[number] = UNDER;
        } else if marks[number] == APART {
            marks[number] = ABOVE;
        }
    }

    /// Each concept of a level has the mark of its parent, where the pick has that.
    fn inherit(&self, level: u8, upper: &[LevelMarks], marks: &mut [u8])
        requires tree { IsTree self.now.tree }
        requires level { level < length self.now.tree }
        requires upper { length upper.now ≡ level }
        requires each { (k : ℕ) → k < level
            → length (slice_index_or upper.now k []) ≡ length (parents_at self.now.tree k) }
        requires count { length marks.old ≡ length (parents_at self.now.tree level) }
        ensures top { level ≡ 0 → marks.new ≡ marks.old }
        ensures below { 0 < level
            → Inherits self.now.tree level (slice_index_or upper.now (level - 1) []) marks.old marks.new }
    {
        if level > 0 {
            let above = &upper[usize::from(level - 1)];
            // Where the pick has no concept of the level above, the many concepts of this one are passed over.
            if above.all.as_slice().contains(&UNDER) {
                self.inherit_from(level, above.all.as_slice(), marks);
            }
        }
    }

    /// Each concept of a level has the mark of its parent, where the pick has that, by the marks of the
    /// level above.
    fn inherit_from(&self, level: u8, upper: &[u8], marks: &mut [u8])
        requires tree { IsTree self.now.tree }
        requires level { level < length self.now.tree }
        requires below { 0 < level }
        requires upper { length upper.now ≡ length (parents_at self.now.tree (level - 1)) }
        requires count { length marks.old ≡ length (parents_at self.now.tree level) }
        ensures { Inherits self.now.tree level upper.now marks.old marks.new }
    {
        // Taken out of the loop, in which each write of a mark might else have changed where they are.
        let parents = self.parents(level);
        let count = marks.len().min(0x1000_0000);
        for number in 0..count {
            let id = ConceptId::new(level, number as u32);
            self.inherit_one(id, parents[number], upper, marks);
        }
    }

    /// A concept has the mark of its parent `top`, where the pick has that.
    fn inherit_one(&self, id: ConceptId, top: ConceptId, upper: &[u8], marks: &mut [u8])
        requires tree { IsTree self.now.tree }
        requires concept { IsConcept self.now.tree id }
        requires top { top ≡ parent self.now.tree id }
        requires upper { length upper.now ≡ length (parents_at self.now.tree (level_of id - 1)) }
        requires count { length marks.old ≡ length (parents_at self.now.tree (level_of id)) }
        ensures { marks.new
            ≡ (if slice_index_or upper.now (number_of (parent self.now.tree id)) 0 == 2
            then slice_set marks.old (number_of id) 2 else marks.old) }
    {
        if upper[top.number() as usize] == UNDER {
            marks[id.number() as usize] = UNDER;
        }
    }
}
