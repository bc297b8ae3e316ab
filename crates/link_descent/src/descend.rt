//! The steps of a row down a tree.
ghost use Rattle.std.specs.Prelude.{◌≡◌, ◌+◌, ◌*◌, ◌^◌, ◌<◌, ◌≤◌, true, false, List, [], ◌∷◌, ◌++◌, length, map, slice_get, All, IfSome};
ghost use Rattle.dim_hierarchy.specs.Dimension.{Dimension};
ghost use Rattle.dim_hierarchy.specs.Rows.{IsRowOf};
ghost use Rattle.describing_set.specs.Sets.{IsDescSetOf};
ghost use Rattle.dc_node.specs.Block.{rows_in, entries_in, is_leaf, is_full, with_rows, IsBodyOf};
ghost use Rattle.dc_node.specs.Summary.{row_count};
ghost use Rattle.shard_store.specs.Gate.{root_entry};
ghost use Rattle.shard_store.specs.declared.gate.Phase.TheVariants.{Open};
ghost use Rattle.dc_node.specs.declared.block.Body.TheVariants.{Entries};
ghost use Rattle.dc_node.specs.Limits.{most_of_directory};
ghost use Rattle.link_descent.specs.Pick.{IsPick};
ghost use Rattle.link_descent.specs.Descend.{IsEntryOf, IsShared, StepsDown, Enters};
ghost use Rattle.link_descent.specs.Pass.{PassesDown, PassesIn};
ghost use Rattle.link_descent.specs.Divide.{together};
ghost use Rattle.link_descent.specs.Room.{MakesRoom, AreTwoGroups, new_blocks, HasRoom, AreNew, IsRaised};
ghost use Rattle.dc_node.specs.declared.entry.Entry.{Entry};

use crate::choice::is_before;
use crate::divide::{Division, divide};
use crate::entered::{Entered, Fresh};
use crate::groups::group_entry;
use crate::item_sets::ItemSets;
use crate::tail::Tail;
use cell_stock::Purse;
use dc_node::{Blanks, Block, Body, Entry, EntryBox};
use dim_hierarchy::{Hierarchy, Row};
use measure_agg::Agg;
use shard_store::Gate;

/// How room was made for a row at the head of an entry's group.
#[derive(Drop)]
pub enum Room {
    /// The head had room.
    Had,
    /// The head was halved, with this new block.
    Half(Fresh),
    /// The head was cut in two, with this new block; the entries of both, from left to right.
    Two(Fresh, Entry, Entry),
}

/// The entry of a block that is a whole group.
pub fn entry_of(block: &Block, cell: u32, h: &Hierarchy) -> Entry
    requires body { IsBodyOf h.now block.now.body }
    requires few { row_count block.now.body < 2 ^ 63 }
    ensures { IsEntryOf h.now cell block.now result }
{
    let (agg, set) = block.summary(h);
    Entry {
        child: cell,
        stamp: block.stamp,
        agg,
        set,
    }
}

/// A gate as the entry of its root's group.
pub(crate) fn root_entry(gate: &Gate) -> Entry
    ensures { result ≡ root_entry gate.now }
{
    Entry {
        child: gate.root,
        stamp: gate.stamp,
        agg: gate.agg,
        set: gate.set.copy(),
    }
}

/// Counts a row beneath that of two entries that comes first for it, and tells that entry's child.
fn share(left: &mut Entry, right: &mut Entry, h: &Hierarchy, row: &Row) -> u32
    requires left { IsDescSetOf h.now left.old.set }
    requires right { IsDescSetOf h.now right.old.set }
    requires row { IsRowOf h.now row.now }
    requires few_left { left.old.agg.count + 1 < 2 ^ 63 }
    requires few_right { right.old.agg.count + 1 < 2 ^ 63 }
    ensures shared { (chosen : Entry)
        × IsShared h.now row.now left.old right.old left.new right.new chosen
        × (result ≡ chosen.child) }
    ensures left { IsDescSetOf h.now left.new.set }
    ensures right { IsDescSetOf h.now right.new.set }
{
    let at = h.lineages(&row.at);
    if is_before(&right.set, &left.set, h, &at) {
        right.add_row(h, row);
        right.child
    } else {
        left.add_row(h, row);
        left.child
    }
}

/// The entries of the two groups into which a group was cut: of the head alone, and of the new block
/// with the blocks behind it.
fn two_groups(
    head: &Block,
    new: Block,
    behind: &Tail,
    entry: &Entry,
    cell: u32,
    h: &Hierarchy,
) -> Room
    requires head { IsBodyOf h.now head.now.body }
    requires new { IsBodyOf h.now new.body }
    requires behind { All (λ b. IsBodyOf h.now b.body) behind.now }
    requires few { row_count head.now.body + row_count (together new.body behind.now) < 2 ^ 63 }
    ensures { AreTwoGroups h.now behind.now entry.now head.now new cell result }
{
    let left = entry_of(head, entry.child, h);
    let right = group_entry(&new, behind, cell, entry.stamp, h);
    let fresh = Fresh { cell, block: new };
    Room::Two(fresh, left, right)
}

/// Makes room at the head of an entry's group: where it is full, it is divided.
fn make_room(
    head: &mut Block,
    tail: &Tail,
    entry: &Entry,
    purse: &mut Purse,
    blanks: &mut Blanks,
    sets: &mut ItemSets,
    h: &Hierarchy,
) -> Room
    requires body { IsBodyOf h.now head.old.body }
    requires tail { All (λ b. IsBodyOf h.now b.body) tail.now }
    requires few { row_count (together head.old.body tail.now) < 2 ^ 63 }
    requires purse { 0 < length purse.old.spares }
    requires blanks { 2 ≤ blanks.old }
    ensures step { MakesRoom h.now tail.now entry.now head.old head.new purse.old purse.new result }
    ensures head { HasRoom h.now head.new }
    ensures new { AreNew h.now (row_count (together head.old.body tail.now)) result }
    ensures blanks { blanks.old ≤ blanks.new + 2 * new_blocks result }
{
    if !head.is_full() {
        return Room::Had;
    }
    let spare = purse.next();
    match divide(head, tail, entry.stamp, spare, blanks, sets, h) {
        Division::Halved(block) => Room::Half(Fresh {
            cell: spare.cell,
            block,
        }),
        Division::Cut(block) => two_groups(head, block, &Tail::none(), entry, spare.cell, h),
        Division::HeadCut(block) => two_groups(head, block, tail, entry, spare.cell, h),
    }
}

/// Takes a row from a directory down to a child, the one at the place that `pick` tells. Where the
/// child is full it is divided first, into blank boxes; the tail is what stands behind it then, and is
/// looked at in no other case. Tells the new blocks, and where the row is carried then. Takes no
/// memory.
pub fn step_down(
    parent: &mut Block,
    place: u8,
    child: &mut Block,
    tail: &Tail,
    purse: &mut Purse,
    blanks: &mut Blanks,
    sets: &mut ItemSets,
    h: &Hierarchy,
    row: &Row,
) -> Entered
    requires room { is_full parent.old.body ≡ false }
    requires parent { IsBodyOf h.now parent.old.body }
    requires child { IsBodyOf h.now child.old.body }
    requires row { IsRowOf h.now row.now }
    requires place { IsPick h.now row.now.at (map (λ e. e.set) (entries_in parent.old.body)) place }
    requires purse { 0 < length purse.old.spares }
    requires few { IfSome (slice_get (entries_in parent.old.body) place) (λ e. e.agg.count + 1 < 2 ^ 63) }
    requires tail { All (λ b. IsBodyOf h.now b.body) tail.now }
    requires few_beneath { row_count (together child.old.body tail.now) + 1 < 2 ^ 63 }
    requires blanks { 2 ≤ blanks.old }
    ensures step { StepsDown h.now row.now place tail.now parent.old parent.new child.old child.new purse.old purse.new result }
    ensures parent { IsBodyOf h.now parent.new.body }
    ensures child { HasRoom h.now child.new }
    ensures fresh { All (λ f. HasRoom h.now f.block) result.fresh.items }
    ensures few { length (entries_in parent.new.body) ≤ most_of_directory }
    ensures blanks { blanks.old ≤ blanks.new + 2 * length result.fresh.items }
{
    let place = usize::from(place);
    let mut entry = parent.entries()[place].copy();
    match make_room(child, tail, &entry, purse, blanks, sets, h) {
        Room::Had => {
            let at = entry.child;
            entry.add_row(h, row);
            parent.set_entry(place, entry);
            Entered::none(at)
        }
        Room::Half(fresh) => {
            let at = entry.child;
            entry.add_row(h, row);
            parent.set_entry(place, entry);
            Entered::one(fresh, at)
        }
        Room::Two(fresh, left, right) => {
            let mut left = left;
            let mut right = right;
            let at = share(&mut left, &mut right, h, row);
            parent.split_entry(place, left, right);
            Entered::one(fresh, at)
        }
    }
}

/// The directory of two entries, in this box.
fn directory_of(entries: EntryBox, stamp: u64, left: Entry, right: Entry) -> Block
    ensures { result ≡ record { stamp = stamp; right = None; body = Entries (record { items = left ∷ right ∷ [] }) } }
{
    let mut block = Block::directory(entries, stamp);
    block.add_entry(left);
    block.add_entry(right);
    block
}

/// Sets a gate's root to a new directory over the two blocks into which the root was cut.
fn raise(
    gate: &mut Gate,
    cut: Fresh,
    left: Entry,
    right: Entry,
    purse: &mut Purse,
    blanks: &mut Blanks,
) -> Entered
    requires purse { 0 < length purse.old.spares }
    requires height { gate.old.height + 1 < 2 ^ 32 }
    requires blanks { 0 < blanks.old }
    ensures blanks { blanks.old ≤ blanks.new + 1 }
    ensures raised { IsRaised gate.old gate.new cut left right purse.old purse.new result }
{
    let top = purse.next();
    gate.root = top.cell;
    gate.stamp = top.stamp;
    gate.height += 1;
    let mut entered = Entered::one(cut, top.cell);
    entered.fresh.push(Fresh {
        cell: top.cell,
        block: directory_of(blanks.directory(), top.stamp, left, right),
    });
    entered
}

/// Takes a row in at an open gate, to the root of its tree. Where the root is full it is divided
/// first, by what stands behind it, the tail; where it is cut in two, a new root stands above both, at
/// which the row is carried. Takes no memory: there are blank boxes for what is new.
pub fn enter_root(
    gate: &mut Gate,
    root: &mut Block,
    tail: &Tail,
    purse: &mut Purse,
    blanks: &mut Blanks,
    sets: &mut ItemSets,
    h: &Hierarchy,
    row: &Row,
) -> Entered
    requires open { gate.old.phase ≡ Open }
    requires purse { gate.old.height + 2 ≤ length purse.old.spares }
    requires root { IsBodyOf h.now root.old.body }
    requires row { IsRowOf h.now row.now }
    requires set { IsDescSetOf h.now gate.old.set }
    requires few { gate.old.agg.count + 1 < 2 ^ 63 }
    requires tail { All (λ b. IsBodyOf h.now b.body) tail.now }
    requires few_beneath { row_count (together root.old.body tail.now) + 1 < 2 ^ 63 }
    requires height { gate.old.height + 1 < 2 ^ 32 }
    requires blanks { 3 ≤ blanks.old }
    ensures step { Enters h.now row.now tail.now gate.old gate.new root.old root.new purse.old purse.new result }
    ensures set { IsDescSetOf h.now gate.new.set }
    ensures root { HasRoom h.now root.new }
    ensures height { gate.new.height ≤ gate.old.height + 1 }
    ensures blanks { blanks.old ≤ blanks.new + 2 * length result.fresh.items }
    ensures fresh { All (λ f. HasRoom h.now f.block) result.fresh.items }
{
    let mut entry = root_entry(gate);
    let room = make_room(root, tail, &entry, purse, blanks, sets, h);
    entry.add_row(h, row);
    gate.agg = entry.agg;
    gate.set = entry.set;
    match room {
        Room::Had => Entered::none(entry.child),
        Room::Half(fresh) => Entered::one(fresh, entry.child),
        Room::Two(fresh, left, right) => raise(gate, fresh, left, right, purse, blanks),
    }
}

/// Counts a row beneath the entry at a place of a directory. Where the entry's child has room, that
/// is the whole step down.
pub fn pass_down(parent: &mut Block, place: u8, h: &Hierarchy, row: &Row)
    requires parent { IsBodyOf h.now parent.old.body }
    requires row { IsRowOf h.now row.now }
    requires place { place < length (entries_in parent.old.body) }
    requires few { IfSome (slice_get (entries_in parent.old.body) place) (λ e. e.agg.count + 1 < 2 ^ 63) }
    ensures { PassesDown h.now row.now place parent.old parent.new }
{
    if let Body::Entries(entries) = &mut parent.body {
        entries.add_row(usize::from(place), h, row);
    }
}

/// Counts a row in at an open gate. Where the root has room, that is the whole step in.
pub fn pass_root(gate: &mut Gate, h: &Hierarchy, row: &Row)
    requires set { IsDescSetOf h.now gate.old.set }
    requires row { IsRowOf h.now row.now }
    requires few { gate.old.agg.count + 1 < 2 ^ 63 }
    ensures step { PassesIn h.now row.now gate.old gate.new }
    ensures set { IsDescSetOf h.now gate.new.set }
    ensures height { gate.new.height ≡ gate.old.height }
{
    gate.agg = gate.agg.join(&Agg::one(row.measures));
    gate.set.grow(h, &row.at);
}

/// Puts a row into a leaf with room, behind its rows. The first one's box comes from the blanks.
pub fn put_leaf(block: &mut Block, row: &Row, blanks: &mut Blanks)
    requires leaf { is_leaf block.old.body ≡ true }
    requires room { is_full block.old.body ≡ false }
    requires blanks { 0 < blanks.old }
    ensures blanks { blanks.old ≤ blanks.new + 1 }
    ensures row { block.new ≡ with_rows block.old (rows_in block.old.body ++ row.now ∷ []) }
    ensures valid { (h : List Dimension) → IsBodyOf h block.old.body → IsRowOf h row.now → IsBodyOf h block.new.body }
{
    block.add_row(row, blanks);
}
