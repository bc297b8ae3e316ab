//! The total of rows that lie in two lists.
ghost use Rattle.std.specs.Prelude.{◌≡◌, ◌+◌, ◌++◌, ◌<◌, ◌^◌, length};
ghost use Rattle.measure_agg.specs.Aggregate.{agg};

use dim_hierarchy::Row;
use measure_agg::{Agg, laws};

/// The aggregate of the rows of both lists, from those of each. Takes no memory.
pub fn total_of_both(xs: &[Row], ys: &[Row]) -> Agg
    requires { length xs.now + length ys.now < 2 ^ 63 }
    ensures { result ≡ agg (xs.now ++ ys.now) }
{
    laws();
    Agg::of_rows(xs).join(&Agg::of_rows(ys))
}
