//! New blocks, put into the cells that are held for them.
ghost use Rattle.std.specs.Prelude.{◌≡◌, ◌+◌, ◌<◌, ◌≤◌, [], ◌∷◌, length, Some, option_map};
ghost use Rattle.volap_cell.specs.Cells.{BlockCell, cell_of};
ghost use Rattle.volap_cell.specs.NewBlocks.{HaveNew};

use crate::cell::Cell;
use arrayvec::ArrayVec;
use dc_node::Block;
use shard_build::link_descent::Fresh;
use std::mem;

/// A cell with this block, behind the last of the pointers. Takes no memory.
fn boxed(pointers: &mut Vec<Box<Block>>, block: Block) -> Cell
    requires some { 0 < length pointers.old.items }
    ensures cell { cell_of result ≡ BlockCell block }
    ensures left { length pointers.new.items + 1 ≡ length pointers.old.items }
{
    let mut home = pointers.take_last();
    *home = block;
    Cell::Block(home)
}

/// Puts a block into a cell that is held for it. What the cell had goes. Takes no memory.
fn fill(cell: &mut Option<Cell>, pointers: &mut Vec<Box<Block>>, block: Block)
    requires some { 0 < length pointers.old.items }
    ensures cell { option_map cell_of cell.new ≡ Some (BlockCell block) }
    ensures left { length pointers.new.items + 1 ≡ length pointers.old.items }
{
    let filled = boxed(pointers, block);
    mem::replace(cell, Some(filled));
}

/// Puts a new block, if there is one, into the cell that is held for it.
pub(crate) fn fill_one(
    cell: &mut Option<Cell>,
    pointers: &mut Vec<Box<Block>>,
    fresh: ArrayVec<Fresh, 2>,
)
    requires few { length fresh.items ≤ 1 }
    requires some { length fresh.items ≤ length pointers.old.items }
    ensures filled { HaveNew fresh.items (option_map cell_of cell.old ∷ []) (option_map cell_of cell.new ∷ []) }
    ensures left { length pointers.new.items + length fresh.items ≡ length pointers.old.items }
{
    let mut fresh = fresh;
    if let Some(new) = fresh.pop() {
        fill(cell, pointers, new.block);
    }
}

/// Puts up to two new blocks into the cells that are held for them, the first one into the first.
pub(crate) fn fill_two(
    first: &mut Option<Cell>,
    second: &mut Option<Cell>,
    pointers: &mut Vec<Box<Block>>,
    fresh: ArrayVec<Fresh, 2>,
)
    requires few { length fresh.items ≤ 2 }
    requires some { length fresh.items ≤ length pointers.old.items }
    ensures filled { HaveNew fresh.items (option_map cell_of first.old ∷ option_map cell_of second.old ∷ [])
        (option_map cell_of first.new ∷ option_map cell_of second.new ∷ []) }
    ensures left { length pointers.new.items + length fresh.items ≡ length pointers.old.items }
{
    let mut fresh = fresh;
    if fresh.len() == 2 {
        if let Some(last) = fresh.pop() {
            fill(second, pointers, last.block);
        }
    }
    fill_one(first, pointers, fresh);
}
