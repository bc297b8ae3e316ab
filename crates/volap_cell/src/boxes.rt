//! Boxes for new blocks, and the steps of a row that take them.
ghost use Rattle.std.specs.Prelude.{◌≡◌, ◌+◌, ◌<◌, ◌≤◌, true, false, length, option_map, OnErr, OnOk, [], ◌∷◌, ◌++◌};
ghost use Rattle.dc_node.specs.Block.{is_leaf, is_full, rows_in, with_rows};
ghost use Rattle.volap_cell.specs.Cells.{cell_of};
ghost use Rattle.volap_cell.specs.NewBlocks.{FitsDown, FitsIn, WentDown, WentIn};

use crate::cell::Cell;
use crate::fills::{fill_one, fill_two};
use cell_stock::Purse;
use dc_node::{Blanks, Block};
use dim_hierarchy::{Hierarchy, Row};
use shard_build::link_descent::{ItemSets, Tail, enter_root, put_leaf, step_down};
use shard_build::shard_store::Gate;
use std::alloc::{AllocError, Global};
use std::marker::Model;

/// Boxes for new blocks, for the steps that may take no memory: what stands in a cell, and what a block
/// keeps its items in. Contracts see how many blocks they are enough for at least.
#[derive(Drop)]
pub struct Boxes {
    alloc: Global,
    blocks: Vec<Box<Block>>,
    blanks: Blanks,
    /// Lent to each step that may divide a block. There is none before the first boxes.
    sets: Option<Box<ItemSets>>,
    /// For how many blocks they count: there may be more, where memory was wanting for all that were asked for.
    ready: u64,
}

impl Model for Boxes {
    ghost use Rattle.std.specs.Prelude.{ℕ, ◌<◌, ◌≤◌, length, IsSome};

    ghost Value = { ℕ };

    ghost view = { λ b. b.ready };

    ghost invariant = { λ b. (b.ready ≤ length b.blocks.items) × (b.ready ≤ b.blanks) × (0 < b.ready → IsSome b.sets) };
}

impl Boxes {
    /// No box. Takes no memory.
    pub fn new(alloc: Global) -> Boxes
        ensures { result ≡ 0 }
    {
        Boxes {
            alloc,
            blocks: Vec::new(alloc),
            blanks: Blanks::new(alloc),
            sets: None,
            ready: 0,
        }
    }

    /// For how many blocks there are enough.
    pub fn count(&self) -> u64
        ensures { result ≡ self.now }
    {
        self.ready
    }

    /// Makes boxes until there are enough for `n` blocks. Where memory is wanting, as many count as before.
    pub fn refill(&mut self, n: u64) -> Result<(), AllocError>
        ensures ok { OnOk result (n ≤ self.new) }
        ensures err { OnErr result (self.new ≡ self.old) }
    {
        self.blanks.refill(n)?;
        make_blocks(&mut self.blocks, self.alloc, n as usize)?;
        if self.sets.is_none() {
            self.sets = Some(new_sets(self.alloc)?);
        }
        if self.ready < n {
            self.ready = n;
        }
        Ok(())
    }

    /// Puts a row into a leaf with room, behind its rows. The first one's box comes from here. Takes no
    /// memory.
    pub fn put_leaf(&mut self, leaf: &mut Block, row: &Row)
        requires leaf { is_leaf leaf.old.body ≡ true }
        requires room { is_full leaf.old.body ≡ false }
        requires some { 0 < self.old }
        ensures left { self.old ≤ self.new + 1 }
        ensures row { leaf.new ≡ with_rows leaf.old (rows_in leaf.old.body ++ row.now ∷ []) }
    {
        put_leaf(leaf, row, &mut self.blanks);
        self.ready -= 1;
    }

    /// Takes a row from a directory down to a child, the one at the place that `pick` tells. Where the
    /// child is full it is divided, and the new block comes into the cell that is held for it. Tells where
    /// the row is carried then. Takes no memory.
    pub fn step_down(
        &mut self,
        parent: &mut Block,
        place: u8,
        child: &mut Block,
        tail: &Tail,
        fresh: &mut Option<Cell>,
        purse: &mut Purse,
        h: &Hierarchy,
        row: &Row,
    ) -> u32
        requires fits { FitsDown h.now row.now place parent.old child.old tail.now purse.old.spares }
        requires some { 2 ≤ self.old }
        ensures { WentDown h.now row.now place tail.now parent.old parent.new child.old child.new purse.old purse.new
            (option_map cell_of fresh.old) (option_map cell_of fresh.new) self.old self.new result }
    {
        let Some(sets) = &mut self.sets else {
            unreachable!()
        };
        let entered = step_down(
            parent,
            place,
            child,
            tail,
            purse,
            &mut self.blanks,
            sets,
            h,
            row,
        );
        let at = entered.at;
        self.ready -= 2 * entered.fresh.len() as u64;
        fill_one(fresh, &mut self.blocks, entered.fresh);
        at
    }

    /// Takes a row in at an open gate, to the root of its tree. Where the root is full it is divided, and
    /// the new blocks come into the cells that are held for them: the second one is the new root, where
    /// there is one. Tells where the row is carried then. Takes no memory.
    pub fn enter_root(
        &mut self,
        gate: &mut Gate,
        root: &mut Block,
        tail: &Tail,
        first: &mut Option<Cell>,
        second: &mut Option<Cell>,
        purse: &mut Purse,
        h: &Hierarchy,
        row: &Row,
    ) -> u32
        requires fits { FitsIn h.now row.now gate.old root.old tail.now purse.old.spares }
        requires some { 4 ≤ self.old }
        ensures { WentIn h.now row.now tail.now gate.old gate.new root.old root.new purse.old purse.new
            (option_map cell_of first.old) (option_map cell_of second.old) (option_map cell_of first.new) (option_map cell_of second.new)
            self.old self.new result }
    {
        let Some(sets) = &mut self.sets else {
            unreachable!()
        };
        let entered = enter_root(gate, root, tail, purse, &mut self.blanks, sets, h, row);
        let at = entered.at;
        self.ready -= 2 * entered.fresh.len() as u64;
        fill_two(first, second, &mut self.blocks, entered.fresh);
        at
    }
}

/// Room for the sets of a full block's items, in a box. A function of its own, and never inlined, as it pays
/// for 8 KB among its locals: else each step of an actor would.
#[inline(never)]
fn new_sets(alloc: Global) -> Result<Box<ItemSets>, AllocError> {
    Ok(Box::new(alloc, ItemSets::new())?)
}

/// Makes boxes of blocks until there are `n` at least.
fn make_blocks(boxes: &mut Vec<Box<Block>>, alloc: Global, n: usize) -> Result<(), AllocError>
    ensures ok { OnOk result (n ≤ length boxes.new.items) }
    ensures kept { length boxes.old.items ≤ length boxes.new.items }
{
    for _ in boxes.len()..n {
        boxes.push(Box::new(alloc, Block::leaf(0))?)?;
    }
    Ok(())
}
