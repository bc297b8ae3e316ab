//! Groups of blocks, looked at one after the other.
ghost use Rattle.std.specs.Prelude.{◌≡◌, ◌<◌, ◌^◌, ◌++◌, length, IfOk, OnOk};
ghost use Rattle.std.specs.List.{flat_map};
ghost use Rattle.dc_node.specs.Block.{entries_in, size};
ghost use Rattle.list_words.specs.Counts.{total};
ghost use Rattle.core_image.specs.tree_shape.specs.PageLines.{group};
ghost use Rattle.core_pages.specs.Blocks.{IsNoteOf, next_of};
ghost use Rattle.core_pages.specs.Looks.{HasCells, blocks_of, cells_in};

use crate::looks::Cells;
use core_image::volap_cell::Cell;
use dc_node::{Block, Body, Entry};
use std::alloc::{AllocError, Global};

/// What a walk keeps of each block.
pub trait Keep {
    ghost use Rattle.std.specs.Prelude.{List};
    ghost use Rattle.dc_node.specs.declared.block.Block.{Block};

    /// One thing that is kept.
    type Item: Drop;

    /// What is kept of a block.
    ghost kept: { Block → List Self.Item };

    /// Puts what is kept of a block behind what is kept of others.
    fn keep(block: &Block, into: &mut Vec<Self::Item>) -> Result<(), AllocError>
        ensures { OnOk result (into.new.items ≡ into.old.items ++ kept block.now) };
}

/// Keeps copies of the entries.
pub struct Entries;

impl Keep for Entries {
    type Item = Entry;

    ghost kept = { λ block. entries_in block.body };

    fn keep(block: &Block, into: &mut Vec<Entry>) -> Result<(), AllocError> {
        for entry in block.entries() {
            into.push(entry.copy())?;
        }
        Ok(())
    }
}

/// A group: how many blocks were looked at, how many items these have together, and what is kept of them.
#[derive(Drop)]
pub struct Group<T> {
    pub blocks: u64,
    pub items: u64,
    pub kept: Vec<T>,
}

/// How many items a block has, and the cell of the one that follows in its group.
#[derive(Drop)]
struct Note {
    items: u64,
    next: Option<u32>,
}

/// How many items a block has.
fn items_of(block: &Block) -> u64
    ensures value { result ≡ size block.now.body }
    ensures few { result < 2 ^ 8 }
{
    match &block.body {
        Body::Rows(rows) => rows.len() as u64,
        Body::Entries(entries) => entries.as_slice().len() as u64,
    }
}

/// The cell of the block that follows in a group; none behind the one with the stamp that ends the group.
fn next_of(block: &Block, stamp: u64) -> Option<u32>
    ensures { result ≡ next_of stamp block.now }
{
    if block.stamp == stamp {
        return None;
    }
    block.right
}

/// The note of a block, with what is kept of it behind what is kept of others.
fn noted<K: Keep>(block: &Block, stamp: u64, kept: &mut Vec<K::Item>) -> Result<Note, AllocError>
    ensures note { IfOk result (λ n. IsNoteOf stamp block.now n) }
    ensures kept { OnOk result (kept.new.items ≡ kept.old.items ++ K.kept block.now) }
{
    K::keep(block, kept)?;
    Ok(Note {
        items: items_of(block),
        next: next_of(block, stamp),
    })
}

/// The same of the block in a cell; of an empty leaf where there is none.
fn see<C: Cells, K: Keep>(
    cells: &mut C,
    many: u32,
    cell: u32,
    stamp: u64,
    kept: &mut Vec<K::Item>,
) -> Result<Note, AllocError>
    requires there { HasCells many (C.state cells.old) }
    ensures same { C.state cells.new ≡ C.state cells.old }
    ensures note { IfOk result (λ n. IsNoteOf stamp ((blocks_of many (cells_in (C.state cells.old))).block cell) n) }
    ensures kept { OnOk result (kept.new.items ≡ kept.old.items ++ K.kept ((blocks_of many (cells_in (C.state cells.old))).block cell)) }
{
    let blank = Block::leaf(0);
    if cell >= many {
        return noted::<K>(&blank, stamp, kept);
    }
    match cells.look(cell) {
        Cell::Block(block) => noted::<K>(block, stamp, kept),
        _ => noted::<K>(&blank, stamp, kept),
    }
}

/// The group of an entry. Looks at each of its blocks once. Takes memory for what is kept.
pub fn group_of<C: Cells, K: Keep>(
    alloc: Global,
    cells: &mut C,
    many: u32,
    entry: &Entry,
) -> Result<Group<K::Item>, AllocError>
    requires there { HasCells many (C.state cells.old) }
    ensures same { C.state cells.new ≡ C.state cells.old }
    ensures blocks { IfOk result (λ g. g.blocks ≡ length (group (blocks_of many (cells_in (C.state cells.old))) entry.now)) }
    ensures items { IfOk result (λ g. g.items ≡ total (λ b. size b.body) (group (blocks_of many (cells_in (C.state cells.old))) entry.now)) }
    ensures kept { IfOk result (λ g. g.kept.items ≡ flat_map K.kept (group (blocks_of many (cells_in (C.state cells.old))) entry.now)) }
{
    let mut blocks = 0;
    let mut items = 0;
    let mut kept = Vec::new(alloc);
    let mut next = Some(entry.child);
    for _ in 0..many {
        let Some(cell) = next else {
            return Ok(Group {
                blocks,
                items,
                kept,
            });
        };
        let note = see::<C, K>(cells, many, cell, entry.stamp, &mut kept)?;
        blocks += 1;
        items += note.items;
        next = note.next;
    }
    Ok(Group {
        blocks,
        items,
        kept,
    })
}
