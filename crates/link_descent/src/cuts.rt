//! By which cut a full head is divided.
ghost use Rattle.std.specs.Prelude.{◌≡◌, ◌≤◌, [], ◌∷◌, true, length, map, All, IfSome, IfNone};
ghost use Rattle.std.specs.Option.{option_copied, option_to_list};
ghost use Rattle.std.specs.List.{AllZip};
ghost use Rattle.dim_hierarchy.specs.Rows.{IsRowOf};
ghost use Rattle.describing_set.specs.DescSet.{IsSetOf};
ghost use Rattle.describing_set.specs.Sets.{IsDescSetOf};
ghost use Rattle.hierarchy_split.specs.Flags.{AreHeadCuts};
ghost use Rattle.dc_node.specs.Block.{size, is_full, IsBodyOf};
ghost use Rattle.dc_node.specs.declared.block.Body.TheVariants.{Rows, Entries};
ghost use Rattle.hierarchy_split.specs.Limits.{most_items};
ghost use Rattle.link_descent.specs.Divide.{front, together, AreItemSets, HasNoCut, HasNoHeadCut};
ghost use Rattle.link_descent.specs.Room.{Strikes, IsTheCut, AreTheParts};

use crate::item_sets::ItemSets;
use crate::tail::Tail;
use dc_node::{Block, Body, Entry, LeafRows};
use dim_hierarchy::Hierarchy;
use hierarchy_split::{Cut, HeadCuts, Places, choose};

/// Puts the describing sets of rows into an empty list.
fn row_sets(rows: &LeafRows, h: &Hierarchy, sets: &mut ItemSets)
    requires rows { All (IsRowOf h.now) rows.now.items }
    requires empty { sets.old.items ≡ [] }
    ensures sets { AllZip (λ r s. IsSetOf h.now (r.at ∷ []) s) rows.now.items sets.new.items }
    ensures valid { All (IsDescSetOf h.now) sets.new.items }
    ensures count { length sets.new.items ≡ length rows.now.items }
{
    for place in 0..rows.len() {
        if let Some(row) = rows.row(place) {
            sets.push_coord(h, &row.at);
        }
    }
}

/// Puts the describing sets of entries into an empty list.
fn entry_sets(entries: &[Entry], sets: &mut ItemSets)
    requires few { length entries.now ≤ most_items }
    requires empty { sets.old.items ≡ [] }
    ensures { sets.new.items ≡ map (λ e. e.set) entries.now }
{
    for entry in entries {
        sets.push_copy(&entry.set);
    }
}

/// Puts the describing sets of a body's items into an empty list, which is lent, as a list that is
/// returned is one more among the caller's locals.
fn item_sets(body: &Body, h: &Hierarchy, sets: &mut ItemSets)
    requires body { IsBodyOf h.now body.now }
    requires empty { sets.old.items ≡ [] }
    ensures sets { AreItemSets h.now body.now sets.new.items }
    ensures valid { All (IsDescSetOf h.now) sets.new.items }
    ensures count { length sets.new.items ≡ size body.now }
{
    match body {
        Body::Rows(rows) => row_sets(rows, h, sets),
        Body::Entries(entries) => entry_sets(entries.as_slice(), sets),
    }
}

/// The good cut of a full head that is its whole group.
pub fn good_cut(body: &Body, sets: &mut ItemSets, h: &Hierarchy) -> Option<Cut>
    requires full { is_full body.now ≡ true }
    requires body { IsBodyOf h.now body.now }
    ensures cut { IfSome result (IsTheCut h.now body.now) }
    ensures none { IfNone result (HasNoCut h.now body.now) }
{
    sets.clear();
    item_sets(body, h, sets);
    choose(sets.as_slice(), h)
}

/// Tells head cuts of the rows of another block.
fn strike_rows(cuts: &mut HeadCuts, rows: &LeafRows, h: &Hierarchy)
    requires cuts { AreHeadCuts h.now cuts.old }
    requires rows { All (IsRowOf h.now) rows.now.items }
    ensures struck { Strikes h.now (Rows rows.now) cuts.old cuts.new }
    ensures cuts { AreHeadCuts h.now cuts.new }
{
    for place in 0..rows.len() {
        cuts.strike(h, &rows.set_at(place, h));
    }
}

/// Tells head cuts of the entries of another block.
fn strike_entries(cuts: &mut HeadCuts, entries: &[Entry], h: &Hierarchy)
    requires cuts { AreHeadCuts h.now cuts.old }
    requires entries { All (λ e. IsDescSetOf h.now e.set) entries.now }
    ensures struck { Strikes h.now (Entries (record { items = entries.now })) cuts.old cuts.new }
    ensures cuts { AreHeadCuts h.now cuts.new }
{
    for entry in entries {
        cuts.strike(h, &entry.set);
    }
}

/// Tells head cuts of the items of a block behind the head, if there is one and its items are of the
/// kind of the head's.
fn strike_block(cuts: &mut HeadCuts, head: &Body, block: Option<&Block>, h: &Hierarchy)
    requires cuts { AreHeadCuts h.now cuts.old }
    requires block { IfSome (option_copied block) (λ b. IsBodyOf h.now b.body) }
    ensures struck { Strikes h.now (together (front head.now 0) (option_to_list (option_copied block.entry))) cuts.old cuts.new }
    ensures cuts { AreHeadCuts h.now cuts.new }
{
    let Some(block) = block else {
        return;
    };
    match head {
        Body::Rows(_) => {
            if let Body::Rows(rows) = &block.body {
                strike_rows(cuts, rows, h);
            }
        }
        Body::Entries(_) => strike_entries(cuts, block.entries(), h),
    }
}

/// The places of the items that the good head cut of a group keeps, and those of the others.
pub fn good_head_cut(
    body: &Body,
    tail: &Tail,
    sets: &mut ItemSets,
    h: &Hierarchy,
) -> Option<(Places, Places)>
    requires full { is_full body.now ≡ true }
    requires body { IsBodyOf h.now body.now }
    requires tail { All (λ b. IsBodyOf h.now b.body) tail.now }
    ensures parts { IfSome result (λ parts. AreTheParts h.now body.now tail.now parts.0.items parts.1.items) }
    ensures none { IfNone result (HasNoHeadCut h.now body.now tail.now) }
{
    sets.clear();
    item_sets(body, h, sets);
    let sets = sets.as_slice();
    let mut cuts = HeadCuts::of(sets, h);
    let (first, second) = tail.blocks();
    strike_block(&mut cuts, body, first, h);
    strike_block(&mut cuts, body, second, h);
    let cut = cuts.best(h)?;
    Some(cut.parts(sets, h))
}
