//! The blocks of a tree that is being built, with the memory for those that it has not yet.
ghost use Rattle.std.specs.Prelude.{◌≡◌, ◌+◌, ◌<◌, ◌≤◌, ◌-◌, [], ◌∷◌, ◌++◌, length, take, drop, All, IfOk};
ghost use Rattle.std.specs.List.{AllZip};
ghost use Rattle.dc_node.specs.Limits.{most_of_leaf, most_of_directory};
ghost use Rattle.shard_build.specs.Building.{leaf_in, IsEntryTo, AddsDirectory, IsCountable};

use cell_stock::Spare;
use dc_node::{Block, Body, EntryBox, LeafRows, RowBox};
use dim_hierarchy::{Hierarchy, Row};
use std::alloc::{AllocError, Global};
use std::marker::Model;
use tree_shape::link_descent::{Fresh, entry_of};

/// The blocks so far, and boxes for further leaves and directories, for which there is room among the
/// blocks.
#[derive(Drop)]
pub struct Site {
    blocks: Vec<Fresh>,
    leaves: Vec<RowBox>,
    directories: Vec<EntryBox>,
}

impl Model for Site {
    ghost use Rattle.std.specs.Prelude.{◌+◌, ◌≤◌, length, vec_capacity};
    ghost use Rattle.shard_build.specs.Building.{SiteValue};

    ghost Value = { SiteValue };

    ghost view = { λ a. record { blocks = a.blocks.items; leaves = length a.leaves.items; directories = length a.directories.items } };

    ghost invariant = { λ a. length a.blocks.items + length a.leaves.items + length a.directories.items ≤ vec_capacity a.blocks };
}

impl Site {
    /// Memory for so many blocks, so many leaves among them.
    pub fn new(alloc: Global, blocks: usize, leaves: usize) -> Result<Site, AllocError>
        requires { leaves ≤ blocks }
        ensures { IfOk result (λ s. s ≡ record { blocks = []; leaves = leaves; directories = blocks - leaves }) }
    {
        Ok(Site {
            blocks: Vec::with_capacity(alloc, blocks)?,
            leaves: leaf_boxes(alloc, leaves)?,
            directories: directory_boxes(alloc, blocks - leaves)?,
        })
    }

    /// The blocks so far.
    pub fn blocks(&self) -> &[Fresh]
        ensures { result.now ≡ self.now.blocks }
    {
        self.blocks.as_slice()
    }

    /// For how many leaves there are boxes.
    pub fn leaves(&self) -> usize
        ensures { result ≡ self.now.leaves }
    {
        self.leaves.len()
    }

    /// The blocks as they are.
    pub fn into_blocks(self) -> Vec<Fresh>
        ensures { result.items ≡ self.blocks }
    {
        self.blocks
    }

    /// Adds a leaf of rows.
    pub fn add_leaf(&mut self, rows: &[Row], spare: Spare)
        requires room { 0 < self.old.leaves }
        requires few { length rows.now ≤ most_of_leaf }
        ensures blocks { self.new.blocks ≡ self.old.blocks ++ leaf_in spare rows.now ∷ [] }
        ensures leaves { self.new.leaves + 1 ≡ self.old.leaves }
        ensures directories { self.new.directories ≡ self.old.directories }
    {
        let rows = filled(self.leaves.take_last(), rows);
        self.blocks.push_reserved(Fresh {
            cell: spare.cell,
            block: Block {
                stamp: spare.stamp,
                right: None,
                body: Body::Rows(LeafRows::of(rows)),
            },
        });
    }

    /// Adds a directory over the blocks from one place to another.
    pub fn add_directory(&mut self, from: usize, to: usize, spare: Spare, h: &Hierarchy)
        requires room { 0 < self.old.directories }
        requires order { from ≤ to }
        requires within { to ≤ length self.old.blocks }
        requires few { to ≤ from + most_of_directory }
        requires countable { All (IsCountable h.now) (take (to - from) (drop from self.old.blocks)) }
        ensures added { AddsDirectory h.now (take (to - from) (drop from self.old.blocks)) spare self.old.blocks self.new.blocks }
        ensures leaves { self.new.leaves ≡ self.old.leaves }
        ensures directories { self.new.directories + 1 ≡ self.old.directories }
    {
        let entries = entered(self.directories.take_last(), &self.blocks[from..to], h);
        self.blocks.push_reserved(Fresh {
            cell: spare.cell,
            block: Block {
                stamp: spare.stamp,
                right: None,
                body: Body::Entries(entries),
            },
        });
    }
}

/// These rows in a leaf's box.
fn filled(leaf: RowBox, rows: &[Row]) -> RowBox
    requires { length rows.now ≤ most_of_leaf }
    ensures { result.items ≡ rows.now }
{
    let mut leaf = leaf;
    leaf.clear();
    for row in rows {
        leaf.push(row);
    }
    leaf
}

/// The entries that lead to blocks, in a directory's box.
fn entered(entries: EntryBox, children: &[Fresh], h: &Hierarchy) -> EntryBox
    requires few { length children.now ≤ most_of_directory }
    requires countable { All (IsCountable h.now) children.now }
    ensures { AllZip (IsEntryTo h.now) children.now result.items }
{
    let mut entries = entries;
    entries.clear();
    for child in children {
        entries.push(entry_of(&child.block, child.cell, h));
    }
    entries
}

/// Boxes for so many leaves.
fn leaf_boxes(alloc: Global, n: usize) -> Result<Vec<RowBox>, AllocError>
    ensures { IfOk result (λ boxes. length boxes.items ≡ n) }
{
    let mut boxes = Vec::with_capacity(alloc, n)?;
    for _ in 0..n {
        boxes.push(RowBox::new(alloc)?)?;
    }
    Ok(boxes)
}

/// Boxes for so many directories.
fn directory_boxes(alloc: Global, n: usize) -> Result<Vec<EntryBox>, AllocError>
    ensures { IfOk result (λ boxes. length boxes.items ≡ n) }
{
    let mut boxes = Vec::with_capacity(alloc, n)?;
    for _ in 0..n {
        boxes.push(EntryBox::new(alloc)?)?;
    }
    Ok(boxes)
}
