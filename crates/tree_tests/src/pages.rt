//! What is tested of `core_pages`.
ghost use Rattle.std.specs.Prelude.{◌<◌, [], IsSome};
ghost use Rattle.core_pages.specs.Looks.{HasCells, cells_in, gate_in, state_of};
ghost use Rattle.core_pages.specs.volap_cell.specs.Cells.{gate_shard};

use crate::fixtures::{PLACES, hierarchy};
use core_pages::shard_store::Gate;
use core_pages::volap_cell::{Cell, State};
use core_pages::{Lent, page_of};
use dc_node::{Blanks, Block, Entry};
use describing_set::DescSet;
use dim_hierarchy::Hierarchy;
use measure_agg::Agg;
use row_ledger::{NodeLine, TreePage};
use std::alloc::{AllocError, Global};
use std::process::Abort;
use std::test::Fail;

/// The page of the gate in the first of so many cells.
fn page_at(alloc: Global, cells: Vec<Option<Cell>>, many: u32) -> Result<TreePage, AllocError>
    requires there { HasCells many (state_of cells.items []) }
    requires gate { IsSome (gate_shard (cells_in (state_of cells.items []) 0)) }
    requires tall { 0 < (gate_in (cells_in (state_of cells.items []) 0)).height }
{
    let state = State {
        cells,
        actors: Vec::new(alloc),
    };
    page_of(alloc, &mut Lent { state: &state }, many, 0)
}

/// The page of a gate whose root is an empty leaf.
fn page_of_leaf(alloc: Global, h: &Hierarchy) -> Result<TreePage, Fail> {
    let gate = Gate::new(alloc, h, 7, 1, 9, 1, Agg::EMPTY, DescSet::empty(h));
    let gate = Cell::Gate(Box::new(alloc, gate)?);
    let root = Cell::Block(Box::new(alloc, Block::leaf(9))?);
    let cells = vec![in alloc; Some(gate), Some(root)]?;
    Ok(page_at(alloc, cells, 2)?)
}

/// A directory with the entry of a group that begins in cell 2 and ends at stamp 5.
fn directory(blanks: &mut Blanks, h: &Hierarchy) -> Block
    requires { 0 < blanks.old }
{
    let mut block = Block::directory(blanks.directory(), 9);
    block.add_entry(Entry {
        child: 2,
        stamp: 5,
        agg: Agg::EMPTY,
        set: DescSet::empty(h),
    });
    block
}

/// The page of a gate whose root is a directory over a group of two empty leaves.
fn page_of_group(alloc: Global, h: &Hierarchy) -> Result<TreePage, Fail> {
    let mut blanks = Blanks::new(alloc);
    blanks.refill(1)?;
    let mut head = Block::leaf(4);
    head.right = Some(3);
    let gate = Gate::new(alloc, h, 7, 1, 9, 2, Agg::EMPTY, DescSet::empty(h));
    let gate = Cell::Gate(Box::new(alloc, gate)?);
    let root = Cell::Block(Box::new(alloc, directory(&mut blanks, h))?);
    let head = Cell::Block(Box::new(alloc, head)?);
    let last = Cell::Block(Box::new(alloc, Block::leaf(5))?);
    let cells = vec![in alloc; Some(gate), Some(root), Some(head), Some(last)]?;
    Ok(page_at(alloc, cells, 4)?)
}

/// Compares the line of an empty leaf.
fn expect_leaf<R: Abort>(rt: &R, line: &NodeLine, h: &Hierarchy) {
    assert!(rt; line.leaf);
    assert_eq!(rt; (line.depth, line.blocks, line.items), (0, 1, 0));
    assert_eq!(rt; line.agg, Agg::EMPTY);
    assert_eq!(rt; line.set, DescSet::empty(h));
}

/// Compares the page of an empty leaf.
fn expect_page<R: Abort>(rt: &R, page: &TreePage, h: &Hierarchy) {
    assert_eq!(rt; (page.shard, page.height), (7, 1));
    assert_eq!(rt; (page.rows, page.queued), (0, 0));
    let lines = page.nodes.as_slice();
    assert_eq!(rt; lines.len(), 1);
    for line in lines {
        expect_leaf(rt, line, h);
    }
}

#[test]
fn shows_an_empty_leaf(rt: HostRuntime) -> Result<(), Fail> {
    let alloc = rt.alloc();
    let h = hierarchy(alloc, &PLACES)?;
    expect_page(&rt, &page_of_leaf(alloc, &h)?, &h);
    Ok(())
}

#[test]
fn shows_a_group_of_two_leaves_as_one_line(rt: HostRuntime) -> Result<(), Fail> {
    let alloc = rt.alloc();
    let h = hierarchy(alloc, &PLACES)?;
    let page = page_of_group(alloc, &h)?;
    assert_eq!(rt; page.height, 2);
    let mut told = Vec::new(alloc);
    for line in page.nodes.as_slice() {
        told.push((line.depth, line.leaf, line.blocks, line.items))?;
    }
    let expected = [(0, false, 1, 1), (1, true, 2, 0)];
    assert_eq!(rt; told.as_slice(), expected.as_slice());
    Ok(())
}
