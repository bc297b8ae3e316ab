//! The summary of a body: the aggregate and the set of all rows beneath it.
ghost use Rattle.std.specs.Prelude.{◌≡◌, ◌<◌, ◌^◌, List, ◌∷◌, [], ◌++◌, map, All, IsPermutation};
ghost use Rattle.std.specs.List.{AllZip, flat_map};
ghost use Rattle.dim_hierarchy.specs.declared.row.Row.{Row};
ghost use Rattle.dim_hierarchy.specs.Rows.{IsRowOf};
ghost use Rattle.measure_agg.specs.Aggregate.{Aggregate, agg};
ghost use Rattle.measure_agg.specs.Joining.{one, join};
ghost use Rattle.describing_set.specs.Sets.{IsDescSetOf, GrowsBy, JoinsTo};
ghost use Rattle.describing_set.specs.declared.set.DescSet.{DescSet};
ghost use Rattle.dc_node.specs.Summary.{aggs, joined, IsSummaryOf, IsUnionOf, IsSummary};
ghost use Rattle.dc_node.specs.declared.block.Body.TheVariants.{Rows, Entries};
ghost use Rattle.dc_node.specs.declared.entry.Entry.{Entry};

use crate::entry::Entry;
use describing_set::DescSet;
use dim_hierarchy::Hierarchy;
use measure_agg::Agg;

/// The aggregates of entries together.
pub(crate) fn agg_of_entries(entries: &[Entry]) -> Agg
    requires { (joined (aggs entries.now)).count < 2 ^ 63 }
    ensures { result ≡ joined (aggs entries.now) }
{
    measure_agg::laws();
    let mut agg = Agg::EMPTY;
    for entry in entries {
        agg = agg.join(&entry.agg);
    }
    agg
}

/// The set of the coordinates of the sets of entries together.
pub(crate) fn set_of_entries(entries: &[Entry], h: &Hierarchy) -> DescSet
    requires { All (λ e. IsDescSetOf h.now e.set) entries.now }
    ensures set { IsUnionOf h.now (map (λ e. e.set) entries.now) result }
    ensures valid { IsDescSetOf h.now result }
{
    let mut set = DescSet::empty(h);
    for entry in entries {
        set = set.join(h, &entry.set);
    }
    set
}

/// Laws of summaries, with no code: what the summary of a block says of all rows beneath it, that it
/// does not depend on their order, and how it is kept when rows are added.
pub fn laws(h: &Hierarchy)
    ensures leaf { (rows : List Row) (total : Aggregate) (set : DescSet)
        → All (IsRowOf h.now) rows
        → IsSummary h.now (Rows (record { items = rows })) total set
        → IsSummaryOf h.now rows total set }
    ensures directory { (lists : List (List Row)) (entries : List Entry) (total : Aggregate) (set : DescSet)
        → AllZip (λ rows e. IsSummaryOf h.now rows e.agg e.set) lists entries
        → IsSummary h.now (Entries (record { items = entries })) total set
        → IsSummaryOf h.now (flat_map (λ rows. rows) lists) total set }
    ensures joined { (lists : List (List Row)) (entries : List Entry)
        → AllZip (λ rows e. e.agg ≡ agg rows) lists entries
        → joined (aggs entries) ≡ agg (flat_map (λ rows. rows) lists) }

    ensures order { (rows others : List Row) (total : Aggregate) (set : DescSet)
        → IsPermutation rows others
        → IsSummaryOf h.now rows total set → IsSummaryOf h.now others total set }
    ensures push { (rows : List Row) (row : Row) (total : Aggregate) (set grown : DescSet)
        → IsRowOf h.now row → GrowsBy h.now row.at set grown
        → IsSummaryOf h.now rows total set
        → IsSummaryOf h.now (rows ++ row ∷ []) (join total (one row.measures)) grown }
    ensures append { (xs ys : List Row) (a b : Aggregate) (s t both : DescSet)
        → JoinsTo h.now s t both
        → IsSummaryOf h.now xs a s → IsSummaryOf h.now ys b t
        → IsSummaryOf h.now (xs ++ ys) (join a b) both }

    ensures unique { (rows : List Row) (a b : Aggregate) (s t : DescSet)
        → IsSummaryOf h.now rows a s → IsSummaryOf h.now rows b t → (a ≡ b) × (s ≡ t) }
    ensures valid { (rows : List Row) (total : Aggregate) (set : DescSet)
        → IsSummaryOf h.now rows total set → IsDescSetOf h.now set }
{
    // The first call says that it is a hierarchy.
    let _dims = h.dims();
    DescSet::laws(h);
    measure_agg::laws();
}

/// The law of the aggregates of two lists of entries together, with no code.
pub fn agg_laws()
    ensures joined_append { (xs ys : List Aggregate)
        → joined (xs ++ ys) ≡ join (joined xs) (joined ys) }
{
    measure_agg::laws();
}
