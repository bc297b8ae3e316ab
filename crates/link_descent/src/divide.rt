//! How a full head is divided.
ghost use Rattle.std.specs.Prelude.{◌≡◌, ◌+◌, ◌<◌, ◌≤◌, ◌++◌, true, length, take, drop, All, IsPermutation};
ghost use Rattle.std.specs.List.{range_with_len};
ghost use Rattle.dc_node.specs.Block.{size, is_full, IsBodyOf};
ghost use Rattle.dc_node.specs.Limits.{most_of_leaf, most_of_directory};
ghost use Rattle.link_descent.specs.Divide.{items_at, body_at, front, rest, half, left_block, right_block, IsHalved};
ghost use Rattle.link_descent.specs.Room.{IsCutBy, DividesAlone, DividesGroup, Divides};

use crate::cuts::{good_cut, good_head_cut};
use crate::item_sets::ItemSets;
use crate::tail::Tail;
use cell_stock::Spare;
use dc_node::{Blanks, Block, Body, Entry, EntryBox, LeafRows, RowBox};
use dim_hierarchy::Hierarchy;
use std::mem;

/// Half of the rows of a full leaf, and of the entries of a full directory.
const HALF_OF_LEAF: usize = 16;

const HALF_OF_DIRECTORY: usize = 8;

/// How a full head was divided, with the new block.
#[derive(Drop)]
pub enum Division {
    /// The new block has the first half of the items.
    Halved(Block),
    /// The new block has the items on the right of the good cut.
    Cut(Block),
    /// The new block has the items that the good head cut does not keep.
    HeadCut(Block),
}

/// Copies of the rows at some places, in a blank box.
fn rows_at(rows: &LeafRows, places: &[u8], blanks: &mut Blanks) -> RowBox
    requires few { length places.now ≤ length rows.now.items }
    requires places { All (λ place. place < length rows.now.items) places.now }
    requires blanks { 0 < blanks.old }
    ensures rows { result.items ≡ items_at rows.now.items places.now }
    ensures blanks { blanks.old ≤ blanks.new + 1 }
{
    prove!(places.len() <= rows.len());
    let mut some = blanks.leaf();
    for place in places {
        rows.copy_row(usize::from(*place), &mut some);
    }
    some
}

/// Copies of the entries at some places, in a blank box.
fn entries_at(entries: &[Entry], places: &[u8], blanks: &mut Blanks) -> EntryBox
    requires few { length places.now ≤ most_of_directory }
    requires places { All (λ place. place < length entries.now) places.now }
    requires blanks { 0 < blanks.old }
    ensures entries { result.items ≡ items_at entries.now places.now }
    ensures blanks { blanks.old ≤ blanks.new + 1 }
{
    let mut some = blanks.directory();
    for place in places {
        some.push(entries[usize::from(*place)].copy());
    }
    some
}

/// The items of a body at some places, in a blank box.
fn body_at(body: &Body, places: &[u8], blanks: &mut Blanks) -> Body
    requires few { length places.now ≤ size body.now }
    requires places { All (λ place. place < size body.now) places.now }
    requires blanks { 0 < blanks.old }
    ensures body { result ≡ body_at body.now places.now }
    ensures blanks { blanks.old ≤ blanks.new + 1 }
{
    match body {
        Body::Rows(rows) => Body::Rows(LeafRows::of(rows_at(rows, places, blanks))),
        Body::Entries(entries) => Body::Entries(entries_at(entries.as_slice(), places, blanks)),
    }
}

/// Copies of so many rows from a place on, in a blank box.
fn copy_rows(rows: &LeafRows, first: usize, count: usize, blanks: &mut Blanks) -> RowBox
    requires few { first + count ≤ most_of_leaf }
    requires within { first + count ≤ length rows.now.items }
    requires blanks { 0 < blanks.old }
    ensures rows { result.items ≡ take count (drop first rows.now.items) }
    ensures blanks { blanks.old ≤ blanks.new + 1 }
{
    let mut copies = blanks.leaf();
    for number in 0..count {
        rows.copy_row(first + number, &mut copies);
    }
    copies
}

/// Copies of all entries, in a blank box.
fn copy_entries(entries: &[Entry], blanks: &mut Blanks) -> EntryBox
    requires few { length entries.now ≤ most_of_directory }
    requires blanks { 0 < blanks.old }
    ensures entries { result.items ≡ entries.now }
    ensures blanks { blanks.old ≤ blanks.new + 1 }
{
    let mut copies = blanks.directory();
    for entry in entries {
        copies.push(entry.copy());
    }
    copies
}

/// The first half of a full body's items, in a blank box.
fn first_half(body: &Body, blanks: &mut Blanks) -> Body
    requires full { is_full body.now ≡ true }
    requires blanks { 0 < blanks.old }
    ensures body { result ≡ front body.now (half body.now) }
    ensures blanks { blanks.old ≤ blanks.new + 1 }
{
    match body {
        Body::Rows(rows) => Body::Rows(LeafRows::of(copy_rows(rows, 0, HALF_OF_LEAF, blanks))),
        Body::Entries(entries) => Body::Entries(copy_entries(
            &entries.as_slice()[..HALF_OF_DIRECTORY],
            blanks,
        )),
    }
}

/// The second half of a full body's items, in a blank box.
fn second_half(body: &Body, blanks: &mut Blanks) -> Body
    requires full { is_full body.now ≡ true }
    requires blanks { 0 < blanks.old }
    ensures body { result ≡ rest body.now (half body.now) }
    ensures blanks { blanks.old ≤ blanks.new + 1 }
{
    match body {
        Body::Rows(rows) => Body::Rows(LeafRows::of(copy_rows(
            rows,
            HALF_OF_LEAF,
            HALF_OF_LEAF,
            blanks,
        ))),
        Body::Entries(entries) => Body::Entries(copy_entries(
            &entries.as_slice()[HALF_OF_DIRECTORY..],
            blanks,
        )),
    }
}

/// Leaves one part of a head's items where they are, under a fresh stamp, and gives a new block to
/// its right with the other part, the old stamp and the old link. The box of the whole becomes a blank.
fn part(head: &mut Block, stays: Body, goes: Body, spare: Spare, blanks: &mut Blanks) -> Block
    ensures head { head.new ≡ left_block spare.cell spare.stamp stays }
    ensures new { result ≡ right_block head.old goes }
    ensures blanks { blanks.old ≤ blanks.new }
{
    let new = Block {
        stamp: head.stamp,
        right: head.right,
        body: goes,
    };
    head.stamp = spare.stamp;
    head.right = Some(spare.cell);
    blanks.give(mem::replace(&mut head.body, stays));
    new
}

/// Divides a full head by halves.
fn halve(head: &mut Block, spare: Spare, blanks: &mut Blanks) -> Block
    requires full { is_full head.old.body ≡ true }
    requires blanks { 2 ≤ blanks.old }
    ensures halved { IsHalved head.old spare.cell spare.stamp head.new result }
    ensures blanks { blanks.old ≤ blanks.new + 2 }
{
    let stays = second_half(&head.body, blanks);
    let goes = first_half(&head.body, blanks);
    part(head, stays, goes, spare, blanks)
}

/// Divides a full head into the items at some places, which stay, and those at the others.
fn cut_in_two(
    head: &mut Block,
    stays: &[u8],
    goes: &[u8],
    spare: Spare,
    blanks: &mut Blanks,
) -> Block
    requires places { IsPermutation (range_with_len 0 (size head.old.body)) (stays.now ++ goes.now) }
    requires blanks { 2 ≤ blanks.old }
    ensures cut { IsCutBy stays.now goes.now head.old spare.cell spare.stamp head.new result }
    ensures blanks { blanks.old ≤ blanks.new + 2 }
{
    let stays = body_at(&head.body, stays, blanks);
    let goes = body_at(&head.body, goes, blanks);
    part(head, stays, goes, spare, blanks)
}

/// Divides a full head that is its whole group: by its good cut, else by halves.
fn divide_alone(
    head: &mut Block,
    spare: Spare,
    blanks: &mut Blanks,
    sets: &mut ItemSets,
    h: &Hierarchy,
) -> Division
    requires full { is_full head.old.body ≡ true }
    requires body { IsBodyOf h.now head.old.body }
    requires blanks { 2 ≤ blanks.old }
    ensures divided { DividesAlone h.now head.old spare head.new result }
    ensures blanks { blanks.old ≤ blanks.new + 2 }
{
    let Some(cut) = good_cut(&head.body, sets, h) else {
        return Division::Halved(halve(head, spare, blanks));
    };
    let (left, right) = cut.order.as_slice().split_at(usize::from(cut.left));
    Division::Cut(cut_in_two(head, left, right, spare, blanks))
}

/// Divides a full head whose group goes on with its tail alone: by the good head cut, else by halves.
fn divide_group(
    head: &mut Block,
    tail: &Tail,
    spare: Spare,
    blanks: &mut Blanks,
    sets: &mut ItemSets,
    h: &Hierarchy,
) -> Division
    requires full { is_full head.old.body ≡ true }
    requires body { IsBodyOf h.now head.old.body }
    requires tail { All (λ b. IsBodyOf h.now b.body) tail.now }
    requires blanks { 2 ≤ blanks.old }
    ensures divided { DividesGroup h.now tail.now head.old spare head.new result }
    ensures blanks { blanks.old ≤ blanks.new + 2 }
{
    let Some((stays, goes)) = good_head_cut(&head.body, tail, sets, h) else {
        return Division::Halved(halve(head, spare, blanks));
    };
    Division::HeadCut(cut_in_two(head, stays.as_slice(), goes.as_slice(), spare, blanks))
}

/// Divides a full head whose group's last block is expected to have a stamp: by the good cut where
/// the head is the whole group, by the good head cut where the tail is the rest of it, and by halves
/// where there is no such cut, or there are more blocks.
pub fn divide(
    head: &mut Block,
    tail: &Tail,
    expected: u64,
    spare: Spare,
    blanks: &mut Blanks,
    sets: &mut ItemSets,
    h: &Hierarchy,
) -> Division
    requires full { is_full head.old.body ≡ true }
    requires body { IsBodyOf h.now head.old.body }
    requires tail { All (λ b. IsBodyOf h.now b.body) tail.now }
    requires blanks { 2 ≤ blanks.old }
    ensures divided { Divides h.now tail.now expected head.old spare head.new result }
    ensures blanks { blanks.old ≤ blanks.new + 2 }
{
    if head.stamp == expected {
        return divide_alone(head, spare, blanks, sets, h);
    }
    if tail.ends_with(expected) {
        return divide_group(head, tail, spare, blanks, sets, h);
    }
    Division::Halved(halve(head, spare, blanks))
}
