//! Concepts of rows by place, and some of these places.
ghost use Rattle.std.specs.Prelude.{◌≡◌, ◌<◌, ◌≤◌, if◌then◌else◌, length, filter, take, slice_index, All};
ghost use Rattle.std.specs.List.{range_with_len};
ghost use Rattle.dim_hierarchy.specs.Concept.{number_of};
ghost use Rattle.dim_hierarchy.specs.Column.{column_places, is_marked};
ghost use Rattle.dim_hierarchy.specs.FewMarks.{HasLineage, has_few_mark};

use crate::concept::ConceptId;
use crate::few_marks::FewMarks;
use crate::marks::UNDER;
use std::marker::Model;

/// How many places a column has: one for each row of a full leaf.
pub const COLUMN_PLACES: usize = 32;

/// The concepts of a leaf's rows in one dimension, by the rows' places.
pub type Column = [ConceptId; COLUMN_PLACES];

/// Some of the places of a column. Contracts see the list.
#[derive(Drop)]
pub struct RowPlaces {
    count: usize,
    all: [u8; COLUMN_PLACES],
}

impl Model for RowPlaces {
    ghost use Rattle.std.specs.Prelude.{List, ℕ, take};
    ghost use Rattle.dim_hierarchy.specs.Column.{ArePlaces};

    ghost Value = { List ℕ };

    ghost view = { λ p. take p.count p.all };

    ghost invariant = { λ p. ArePlaces p.count p.all };
}

impl RowPlaces {
    /// The first so many.
    pub fn first(count: usize) -> RowPlaces
        requires { count ≤ column_places }
        ensures { result ≡ range_with_len 0 count }
    {
        RowPlaces {
            count,
            all: [
                0, 1, 2, 3, 4, 5, 6, 7, 8, 9, 10, 11, 12, 13, 14, 15, 16, 17, 18, 19, 20, 21, 22,
                23, 24, 25, 26, 27, 28, 29, 30, 31,
            ],
        }
    }

    /// The places.
    pub fn as_slice(&self) -> &[u8]
        ensures value { result.now ≡ self.now }
        ensures few { length result.now ≤ column_places }
        ensures within { All (λ place. place < column_places) result.now }
    {
        &self.all[..self.count]
    }

    /// Keeps those at which the column has a concept that is marked `UNDER`. The marks are those of
    /// a level by number.
    pub(crate) fn keep(&mut self, column: &Column, marks: &[u8])
        requires { All (λ place. number_of (slice_index column.now place) < length marks.now) self.old }
        ensures { self.new ≡ filter (is_marked column.now marks.now) self.old }
    {
        self.count = sift(&mut self.all, self.count, column, marks);
    }

    /// Keeps those at which the column has a concept with the mark `UNDER` by these marks.
    pub(crate) fn keep_few(&mut self, column: &Column, marks: &FewMarks)
        requires { All (λ place. HasLineage marks.now (slice_index column.now place)) self.old }
        ensures { self.new ≡ filter (has_few_mark column.now marks.now) self.old }
    {
        self.count = sift_few(&mut self.all, self.count, column, marks);
    }
}

/// Moves the places that are kept to the front, in their order and without a branch, and tells how
/// many they are.
fn sift(all: &mut [u8; COLUMN_PLACES], count: usize, column: &Column, marks: &[u8]) -> usize
    requires few { count ≤ column_places }
    requires within { All (λ place. place < column_places) (take count all.old) }
    requires concepts { All (λ place. number_of (slice_index column.now place) < length marks.now) (take count all.old) }
    ensures kept { take result all.new ≡ filter (is_marked column.now marks.now) (take count all.old) }
    ensures few { result ≤ count }
    ensures length { length all.new ≡ column_places }
{
    let mut kept = 0;
    for at in 0..count {
        let place = all[at];
        all[kept] = place;
        kept += one_if_marked(column, marks, place);
    }
    kept
}

/// One where the concept at a place is marked `UNDER`, else none. That is the greatest mark, and by its order it
/// is counted in fewer steps than by whether it is equal.
fn one_if_marked(column: &Column, marks: &[u8], place: u8) -> usize
    requires place { place < column_places }
    requires concept { number_of (slice_index column.now place) < length marks.now }
    ensures { result ≡ (if is_marked column.now marks.now place then 1 else 0) }
{
    let mark = marks[column[usize::from(place)].number() as usize];
    usize::from(UNDER <= mark)
}

/// As `sift`, by marks of a few concepts.
fn sift_few(all: &mut [u8; COLUMN_PLACES], count: usize, column: &Column, marks: &FewMarks) -> usize
    requires few { count ≤ column_places }
    requires within { All (λ place. place < column_places) (take count all.old) }
    requires concepts { All (λ place. HasLineage marks.now (slice_index column.now place)) (take count all.old) }
    ensures kept { take result all.new ≡ filter (has_few_mark column.now marks.now) (take count all.old) }
    ensures few { result ≤ count }
    ensures length { length all.new ≡ column_places }
{
    let mut kept = 0;
    for at in 0..count {
        let place = all[at];
        all[kept] = place;
        kept += one_if_under(column, marks, place);
    }
    kept
}

/// One where the concept at a place has the mark `UNDER`, else none.
fn one_if_under(column: &Column, marks: &FewMarks, place: u8) -> usize
    requires place { place < column_places }
    requires concept { HasLineage marks.now (slice_index column.now place) }
    ensures { result ≡ (if has_few_mark column.now marks.now place then 1 else 0) }
{
    usize::from(marks.mark(column[usize::from(place)]) == UNDER)
}
