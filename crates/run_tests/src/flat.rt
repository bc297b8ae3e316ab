//! The plain program beside the core: rows in a list, which answers by going over all of them.
ghost use Rattle.std.specs.Prelude.{◌≡◌, [], ◌∷◌, ◌++◌, filter, All, OnOk, OnErr};
ghost use Rattle.dim_hierarchy.specs.Filter.{IsFilterOf, matches};
ghost use Rattle.dim_hierarchy.specs.Rows.{IsRowOf};
ghost use Rattle.measure_agg.specs.Aggregate.{agg};

use dim_hierarchy::{Coord, Filter, Hierarchy, Items, Row};
use measure_agg::Agg;
use std::alloc::{AllocError, Global};

/// The aggregate of the rows that a filter matches.
fn of_rows(rows: &[Row], wanted: &Filter, h: &Hierarchy) -> Agg
    requires filter { IsFilterOf h.now wanted.now }
    requires rows { All (IsRowOf h.now) rows.now }
    ensures { result ≡ agg (filter (λ r. matches h.now wanted.now r.at) rows.now) }
{
    let mut total = Agg::EMPTY;
    for row in rows {
        if h.matches(wanted, &row.at) {
            total = total.join(&Agg::one(row.measures));
        }
    }
    total
}

/// Rows in a list.
#[derive(Drop)]
pub(crate) struct FlatRows {
    pub(crate) rows: Items<Row>,
}

impl FlatRows {
    /// No row. Takes no memory.
    pub(crate) fn new(alloc: Global) -> FlatRows
        ensures { result.rows ≡ [] }
    {
        FlatRows {
            rows: Items::new(alloc),
        }
    }

    /// Adds a row behind the others.
    pub(crate) fn insert(&mut self, row: &Row) -> Result<(), AllocError>
        ensures ok { OnOk result (self.new.rows ≡ self.old.rows ++ row.now ∷ []) }
        ensures err { OnErr result (self.new.rows ≡ self.old.rows) }
    {
        // Laid out as far as its concepts, since the checker plans by the types that it meets.
        let at = Coord { at: row.at.at };
        self.rows.push(Row { at, ..*row })?;
        Ok(())
    }

    /// The aggregate of the rows that a filter matches.
    pub(crate) fn total(&self, h: &Hierarchy, wanted: &Filter) -> Agg
        requires filter { IsFilterOf h.now wanted.now }
        requires rows { All (IsRowOf h.now) self.now.rows }
        ensures { result ≡ agg (filter (λ r. matches h.now wanted.now r.at) self.now.rows) }
    {
        of_rows(self.rows.as_slice(), wanted, h)
    }
}
