//! Coordinates and rows.
ghost use Rattle.std.specs.Prelude.{◌≡◌, ◌<◌};

use crate::concept::ConceptId;

/// A leaf concept for each dimension; places past the last dimension are `ALL`.
#[derive(Clone, Copy, Debug, Default, PartialEq, Eq)]
pub struct Coord {
    pub at: [ConceptId; 8],
}

impl Coord {
    ghost use Rattle.dim_hierarchy.specs.Row.{concept_at};

    /// The concept in a dimension.
    pub fn concept(&self, dim: u8) -> ConceptId
        requires { dim < 8 }
        ensures { result ≡ concept_at self.now dim }
    {
        self.at[usize::from(dim)]
    }
}

/// What a row measures: one whole number. Only aggregates and the printed line look into it.
pub type Measures = i64;

/// A row: its number, which is the place of its beginning in the history, its coordinate and what it
/// measures.
#[derive(Clone, Copy, Debug, Default, PartialEq, Eq)]
pub struct Row {
    pub no: u64,
    pub at: Coord,
    pub measures: Measures,
}
