//! The head to which a row's step comes, and what is held besides it.
ghost use Rattle.std.specs.Prelude.{◌≡◌, ◌<◌, ◌≤◌, length};
ghost use Rattle.seat_steps.specs.core_due.specs.Rows.{next_behind, second_behind};
ghost use Rattle.seat_steps.specs.core_steps.specs.Places.{number_at, numbers};
ghost use Rattle.dc_node.specs.Block.{is_full};
ghost use Rattle.list_words.specs.Counts.{Each};
ghost use Rattle.seat_steps.specs.Floors.{IsSeated};
ghost use Rattle.part_steps.specs.Heads.{AreUpToBlocks, CanTake, InAll, TakesAll, full_at, head_at, places_behind, places_of};
ghost use Rattle.seat_steps.specs.Looks.{Sees};
ghost use Rattle.seat_steps.specs.volap_cell.specs.Cells.{block_in, cell_of};
ghost use Rattle.seat_steps.specs.volap_turns.specs.Rows.{IsThere};

use seat_steps::of_core_due::next_of;
use seat_steps::of_volap_cell::Cell;
use seat_steps::{Floor, Player, take};
use std::sync::Wait;

/// The rank of blocks, which are taken in any order.
const BLOCKS: u8 = 3;

/// A group of blocks to which an entry or a gate leads: its head, and the stamp that is expected of its last block.
#[derive(Clone, Copy)]
pub(crate) struct Group {
    pub(crate) head: u32,
    pub(crate) stamp: u64,
}

/// A head that is held. Where it is full, the next two blocks behind it are held too, as many as there are, and the
/// cells of spares for new blocks.
#[derive(Clone, Copy)]
pub(crate) struct Head {
    pub(crate) at: u32,
    pub(crate) first: Option<u32>,
    pub(crate) second: Option<u32>,
    pub(crate) fresh: Option<u32>,
    /// For a new root.
    pub(crate) top: Option<u32>,
}

/// Whether a cell has a full block.
fn is_full(cell: &Cell) -> bool
    ensures { result ≡ is_full (block_in (cell_of cell.now)).body }
{
    match cell {
        Cell::Block(block) => block.is_full(),
        _ => false,
    }
}

/// The next block of a group behind the one in a cell.
fn next_in(cell: &Cell, expected: u64) -> Option<u32>
    ensures { result ≡ next_behind expected (block_in (cell_of cell.now)) }
{
    match cell {
        Cell::Block(block) => next_of(block, expected),
        _ => None,
    }
}

/// Whether the block in a held cell is full.
fn is_full_at(floor: &Floor, player: &mut Player, block: u32) -> bool
    requires seated { IsSeated floor.now player.old }
    requires held { IsThere player.old.seat.view.held block }
    ensures seen { Sees player.old block (λ cell. result ≡ is_full (block_in cell).body) }
    ensures same { player.new ≡ player.old }
{
    is_full(player.seat.see(&floor.table, block))
}

/// The next block of a group behind the one in a held cell.
fn next_at(floor: &Floor, player: &mut Player, block: u32, expected: u64) -> Option<u32>
    requires seated { IsSeated floor.now player.old }
    requires held { IsThere player.old.seat.view.held block }
    ensures seen { Sees player.old block (λ cell. result ≡ next_behind expected (block_in cell)) }
    ensures same { player.new ≡ player.old }
{
    next_in(player.seat.see(&floor.table, block), expected)
}

/// The next block of a group behind the one that is held; there is none behind none.
fn next_behind(floor: &Floor, player: &mut Player, block: Option<u32>, expected: u64) -> Option<u32>
    requires seated { IsSeated floor.now player.old }
    requires held { Each (IsThere player.old.seat.view.held) (number_at block) }
    ensures next { InAll floor.now player.old (λ w. result ≡ second_behind w expected block) }
    ensures same { player.new ≡ player.old }
{
    match block {
        Some(block) => next_at(floor, player, block, expected),
        None => None,
    }
}

/// Takes a block, if there is one.
fn take_if<R: Wait>(rt: &R, floor: &Floor, player: &mut Player, block: Option<u32>)
    requires seated { IsSeated floor.now player.old }
    requires can { CanTake floor.now player.old (number_at block) }
    requires ranks { AreUpToBlocks player.old.seat.ranks }
    requires room { length player.old.seat.view.held < 7 }
    ensures seated { IsSeated floor.now player.new }
    ensures took { TakesAll (number_at block) player.old player.new }
{
    if let Some(block) = block {
        take(rt, floor, player, block, BLOCKS);
    }
}

/// Takes the next block of a group behind one that is held.
fn take_next<R: Wait>(
    rt: &R,
    floor: &Floor,
    player: &mut Player,
    block: Option<u32>,
    expected: u64,
) -> Option<u32>
    requires seated { IsSeated floor.now player.old }
    requires held { Each (IsThere player.old.seat.view.held) (number_at block) }
    requires can { InAll floor.now player.old (λ w. CanTake floor.now player.old (number_at (second_behind w expected block))) }
    requires ranks { AreUpToBlocks player.old.seat.ranks }
    requires room { length player.old.seat.view.held < 7 }
    ensures seated { IsSeated floor.now player.new }
    ensures next { InAll floor.now player.old (λ w. result ≡ second_behind w expected block) }
    ensures took { TakesAll (number_at result) player.old player.new }
{
    let next = next_behind(floor, player, block, expected);
    take_if(rt, floor, player, next);
    next
}

/// Takes what is held besides a full head: the next two blocks, and the cells of spares.
fn take_behind<R: Wait>(
    rt: &R,
    floor: &Floor,
    player: &mut Player,
    group: Group,
    last: Option<u32>,
    before: Option<u32>,
) -> Head
    requires seated { IsSeated floor.now player.old }
    requires held { IsThere player.old.seat.view.held group.head }
    requires can { InAll floor.now player.old (λ w. CanTake floor.now player.old (numbers (places_behind (full_at w group last before)))) }
    requires ranks { AreUpToBlocks player.old.seat.ranks }
    requires room { length player.old.seat.view.held ≤ 3 }
    ensures seated { IsSeated floor.now player.new }
    ensures at { result.at ≡ group.head }
    ensures head { InAll floor.now player.new (λ w. result ≡ full_at w group last before) }
    ensures took { TakesAll (numbers (places_behind result)) player.old player.new }
{
    let first = take_next(rt, floor, player, Some(group.head), group.stamp);
    let second = take_next(rt, floor, player, first, group.stamp);
    take_if(rt, floor, player, last);
    take_if(rt, floor, player, before);
    Head {
        at: group.head,
        first,
        second,
        fresh: last,
        top: before,
    }
}

/// Takes the head of a group, and where it is full what is held besides it: the next two blocks, and the cells of these
/// spares.
pub(crate) fn take_head<R: Wait>(
    rt: &R,
    floor: &Floor,
    player: &mut Player,
    group: Group,
    last: Option<u32>,
    before: Option<u32>,
) -> Head
    requires seated { IsSeated floor.now player.old }
    requires can { InAll floor.now player.old (λ w. CanTake floor.now player.old (numbers (places_of (head_at w group last before)))) }
    requires ranks { AreUpToBlocks player.old.seat.ranks }
    requires room { length player.old.seat.view.held ≤ 2 }
    ensures seated { IsSeated floor.now player.new }
    ensures head { InAll floor.now player.new (λ w. result ≡ head_at w group last before) }
    ensures took { TakesAll (numbers (places_of result)) player.old player.new }
{
    take(rt, floor, player, group.head, BLOCKS);
    if is_full_at(floor, player, group.head) {
        return take_behind(rt, floor, player, group, last, before);
    }
    Head {
        at: group.head,
        first: None,
        second: None,
        fresh: None,
        top: None,
    }
}
