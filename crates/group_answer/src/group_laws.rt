//! What follows of groups of rows.
ghost use Rattle.std.specs.Prelude.{◌≡◌, List};
ghost use Rattle.dim_hierarchy.specs.declared.row.Row.{Row};
ghost use Rattle.measure_agg.specs.Aggregate.{agg};
ghost use Rattle.group_answer.specs.Groups.{Question, all_of, groups, matching};

/// The lines of the groups of rows are together the aggregate of all rows that match.
pub fn laws()
    ensures { (q : Question) (rows : List Row) → all_of (groups q rows) ≡ agg (matching q rows) }
{}
