//! Marks of a few concepts, by which the way up of any other tells its own.
ghost use Rattle.std.specs.Prelude.{◌≡◌, ◌==◌, ℕ, All, OnOk};
ghost use Rattle.std.specs.List.{list_all, list_any};
ghost use Rattle.std.specs.Prelude.{false, nat_lt, filter, slice_index};
ghost use Rattle.dim_hierarchy.specs.Marks.{mark_more, raised};
ghost use Rattle.dim_hierarchy.specs.FewMarks.{HasLineage, few_mark, has_few_mark, noted_in};

use crate::column::{Column, RowPlaces};
use crate::concept::ConceptId;
use crate::lineage::{Lineages, lineage_of};
use crate::marks::{ABOVE, APART, UNDER};
use std::alloc::{AllocError, Global};
use std::collections::BTreeMap;
use std::sync::Arc;

/// The marks of the concepts that a pick lists and of those above them, with the lineages of all concepts.
/// These are the dimension's own, and are not copied.
///
/// What a compiled filter asks is cold, as few dimensions have so many concepts: else the look-ups in marks of all
/// concepts, which stand beside, would take longer.
#[derive(Drop)]
pub struct FewMarks {
    pub(crate) lineages: Arc<Lineages>,
    pub(crate) marks: BTreeMap<u32, u8>,
}

/// The mark with which a concept is noted; `APART` where it isn't.
pub(crate) fn noted(marks: &BTreeMap<u32, u8>, id: ConceptId) -> u8
    ensures { result ≡ noted_in marks.now id }
{
    match marks.get(&id.0) {
        Some(mark) => *mark,
        None => APART,
    }
}

/// Notes a concept that lies above a listed one.
pub(crate) fn note_above(marks: &mut BTreeMap<u32, u8>, id: ConceptId) -> Result<(), AllocError>
    ensures { OnOk result ((other : ℕ) → noted_in marks.new other ≡ mark_more false (other == id) (noted_in marks.old other)) }
{
    if noted(marks, id) == APART {
        marks.insert(id.0, ABOVE)?;
    }
    Ok(())
}

/// Notes a listed concept.
pub(crate) fn note_listed(marks: &mut BTreeMap<u32, u8>, id: ConceptId) -> Result<(), AllocError>
    ensures { OnOk result ((other : ℕ) → noted_in marks.new other ≡ mark_more (other == id) false (noted_in marks.old other)) }
{
    marks.insert(id.0, UNDER)?;
    Ok(())
}

impl FewMarks {
    /// The mark of a concept: that with which it is noted, but `UNDER` where one above it is noted so.
    pub fn mark(&self, id: ConceptId) -> u8
        requires { HasLineage self.now id }
        ensures { result ≡ few_mark self.now id }
    {
        let lineage = lineage_of(&self.lineages, id);
        let mut mark = APART;
        for level in 0..id.level() + 1 {
            mark = raised(mark, noted(&self.marks, lineage[usize::from(level)]));
        }
        mark
    }

    /// Whether each of these concepts has the mark `UNDER`.
    #[cold]
    #[inline(never)]
    pub fn are_under(&self, ids: &[ConceptId]) -> bool
        requires { All (HasLineage self.now) ids.now }
        ensures { result ≡ list_all (λ id. few_mark self.now id == 2) ids.now }
    {
        ids.iter().all(|id| self.mark(*id) == UNDER)
    }

    /// Whether one of these concepts has another mark than `APART`.
    #[cold]
    #[inline(never)]
    pub fn is_any_related(&self, ids: &[ConceptId]) -> bool
        requires { All (HasLineage self.now) ids.now }
        ensures { result ≡ list_any (λ id. nat_lt 0 (few_mark self.now id)) ids.now }
    {
        ids.iter().any(|id| APART < self.mark(*id))
    }

    /// Keeps the places at which the column has a concept with the mark `UNDER`.
    #[cold]
    #[inline(never)]
    pub fn keep(&self, column: &Column, places: &mut RowPlaces)
        requires { All (λ place. HasLineage self.now (slice_index column.now place)) places.old }
        ensures { places.new ≡ filter (has_few_mark column.now self.now) places.old }
    {
        places.keep_few(column, self);
    }
}

/// A mark, or `UNDER` where that is the mark of the concept above.
fn raised(above: u8, mark: u8) -> u8
    ensures { result ≡ raised (above == 2) mark }
{
    if above == UNDER { UNDER } else { mark }
}
