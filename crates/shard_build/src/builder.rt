//! A tree level by level: the leaves, then directories over each level until there is one block.
ghost use Rattle.std.specs.Prelude.{◌≡◌, ◌+◌, ◌*◌, ◌<◌, ◌≤◌, ◌^◌, [], ◌∷◌, length, drop, All, IfOk, OnErr};
ghost use Rattle.dim_hierarchy.specs.Rows.{IsRowOf};
ghost use Rattle.tree_shape.specs.link_descent.specs.declared.entered.Fresh as declared;
ghost use Rattle.shard_plan.specs.Building.{leaves_for, cells_for, parent_nodes};
ghost use Rattle.shard_build.specs.Building.{AddsLeaves, AddsLevel, IsCountable, IsEntryTo};
ghost use Rattle.shard_build.specs.Built.{IsBuilt, root_of};

use crate::order::in_order;
use crate::site::Site;
use cell_stock::Purse;
use describing_set::DescSet;
use dim_hierarchy::{Hierarchy, Row};
use measure_agg::Agg;
use shard_plan::{LEAF_ROWS, PARENT_NODES, cells_for, leaves_for, level_laws, levels_for};
use std::alloc::{AllocError, Global};
use tree_shape::build_laws;
use tree_shape::link_descent::{Fresh, entry_of};

/// The blocks of a built tree with their cells, and what its gate says of it: the root's cell and
/// stamp, the height (1 where the root is a leaf), and the aggregate and the set of its rows.
#[derive(Drop)]
pub struct Built {
    pub blocks: Vec<Fresh>,
    pub root: u32,
    pub stamp: u64,
    pub height: u32,
    pub agg: Agg,
    pub set: DescSet,
}

/// Builds a tree of rows: in order, 24 to a leaf, and 12 blocks to a parent until one is left. Each
/// block takes the last spare of the purse. Takes its memory first.
pub fn build(
    alloc: Global,
    rows: Vec<Row>,
    purse: &mut Purse,
    h: &Hierarchy,
) -> Result<Built, AllocError>
    requires rows { All (IsRowOf h.now) rows.items }
    requires few { length rows.items < 2 ^ 40 }
    requires cells { cells_for (length rows.items) ≤ length purse.old.spares }
    ensures ok { IfOk result (IsBuilt h.now rows.items purse.old purse.new) }
    ensures err { OnErr result (purse.new ≡ purse.old) }
{
    build_laws();
    level_laws();
    let rows = in_order(rows);
    let n = rows.len() as u64;
    let mut site = Site::new(alloc, cells_for(n) as usize, leaves_for(n) as usize)?;
    add_leaves(&mut site, rows.as_slice(), purse);

    let height = levels_for(n);
    let mut from = 0;
    for _ in 1..height {
        let to = site.blocks().len();
        add_level(&mut site, from, purse, h);
        from = to;
    }
    Ok(finished(site, from, height, h))
}

/// Puts rows to leaves, 24 to each.
fn add_leaves(site: &mut Site, rows: &[Row], purse: &mut Purse)
    requires empty { site.old.blocks ≡ [] }
    requires boxes { site.old.leaves ≡ leaves_for (length rows.now) }
    requires spares { leaves_for (length rows.now) ≤ length purse.old.spares }
    ensures leaves { AddsLeaves rows.now (length rows.now) site.new.blocks purse.old purse.new }
    ensures count { length site.new.blocks ≡ leaves_for (length rows.now) }
    ensures directories { site.new.directories ≡ site.old.directories }
{
    let mut at = 0;
    for _ in 0..site.leaves() {
        let end = (at + LEAF_ROWS as usize).min(rows.len());
        site.add_leaf(&rows[at..end], purse.next());
        at = end;
    }
}

/// Puts directories over the blocks from a place on, 12 to each.
fn add_level(site: &mut Site, from: usize, purse: &mut Purse, h: &Hierarchy)
    requires within { from < length site.old.blocks }
    requires countable { All (IsCountable h.now) (drop from site.old.blocks) }
    requires boxes { length site.old.blocks ≤ from + parent_nodes * site.old.directories }
    requires spares { site.old.directories ≤ length purse.old.spares }
    ensures { AddsLevel h.now from (length site.old.blocks) site.old site.new purse.old purse.new }
{
    let to = site.blocks().len();
    let mut at = from;
    while at < to {
        let end = (at + PARENT_NODES as usize).min(to);
        site.add_directory(at, end, purse.next(), h);
        at = end;
    }
}

/// The tree whose root is the block at a place.
fn finished(site: Site, place: usize, height: u32, h: &Hierarchy) -> Built
    requires within { place < length site.blocks }
    requires countable { All (IsCountable h.now) (drop place site.blocks) }
    ensures blocks { result.blocks.items ≡ site.blocks }
    ensures height { result.height ≡ height }
    ensures root { (f : declared.Fresh) → drop place site.blocks ≡ f ∷ []
        → IsEntryTo h.now f (root_of result) }
{
    let blocks = site.into_blocks();
    let root = &blocks[place];
    let entry = entry_of(&root.block, root.cell, h);
    Built {
        blocks,
        root: entry.child,
        stamp: entry.stamp,
        height,
        agg: entry.agg,
        set: entry.set,
    }
}
