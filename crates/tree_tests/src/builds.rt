//! What is tested of `shard_build`.
ghost use Rattle.std.specs.Prelude.{◌≡◌, ◌+◌, ◌++◌, ◌∷◌, [], length, IfOk, OnOk, All};
ghost use Rattle.dim_hierarchy.specs.Rows.{IsRowOf};

use crate::fixtures::{Dim, coord, hierarchy};
use cell_stock::{Purse, Stock};
use core_pages::link_descent::Fresh;
use core_pages::shard_build::{Built, build, cells_for};
use dc_node::{Block, Body};
use dim_hierarchy::{Coord, Hierarchy, Row};
use std::alloc::{AllocError, Global};
use std::process::Abort;
use std::test::Fail;

/// Eight stores.
const STORES: [Dim; 1] = [(
    "store",
    1,
    &[
        ["-", "a"],
        ["-", "b"],
        ["-", "c"],
        ["-", "d"],
        ["-", "e"],
        ["-", "f"],
        ["-", "g"],
        ["-", "h"],
    ],
)];

/// The names of the stores.
const NAMES: [&str; 8] = ["a", "b", "c", "d", "e", "f", "g", "h"];

/// Adds a copy of an item at the end: the generated proof follows no coordinate that is handed to a
/// list by value.
fn add<T: Copy>(items: &mut Vec<T>, item: &T) -> Result<(), AllocError>
    ensures { OnOk result (items.new.items ≡ items.old.items ++ item.now ∷ []) }
{
    items.push(*item)?;
    Ok(())
}

/// Adds the row of a number, with the measure 7.
fn add_row(alloc: Global, h: &Hierarchy, no: u64, rows: &mut Vec<Row>) -> Result<(), Fail>
    requires dims { length h.now ≡ 1 }
    requires rows { All (IsRowOf h.now) rows.old.items }
    ensures rows { OnOk result (All (IsRowOf h.now) rows.new.items) }
    ensures count { OnOk result (length rows.new.items ≡ length rows.old.items + 1) }
{
    let at = &coord(alloc, h, &[NAMES[(no % 8) as usize]])?;
    let row = Row {
        no,
        at: Coord { at: at.at },
        measures: 7,
    };
    add(rows, &row)?;
    Ok(())
}

/// The rows of the first numbers.
fn rows(alloc: Global, h: &Hierarchy, count: u64) -> Result<Vec<Row>, Fail>
    requires { length h.now ≡ 1 }
    ensures rows { IfOk result (λ rows. All (IsRowOf h.now) rows.items) }
    ensures count { IfOk result (λ rows. length rows.items ≡ count) }
{
    let mut rows = Vec::new(alloc);
    for no in 0..count {
        add_row(alloc, h, no, &mut rows)?;
    }
    Ok(rows)
}

/// A purse of so many spares, of 64 cells.
fn purse_of<R: Abort>(rt: &R, alloc: Global, cells: u64) -> Result<Purse, Fail> {
    let mut stock = Stock::new(alloc, 64)?;
    let mut purse = Purse::new(alloc);
    purse.reserve(cells)?;
    stock.take(cells, &mut purse).expect(rt, "so many cells");
    Ok(purse)
}

/// The tree of so many rows.
fn built<R: Abort>(
    rt: &R,
    alloc: Global,
    h: &Hierarchy,
    count: u32,
    purse: &mut Purse,
) -> Result<Built, Fail>
    requires { length h.now ≡ 1 }
{
    let count = u64::from(count);
    assert!(rt; cells_for(count) <= purse.len() as u64);
    Ok(build(alloc, rows(alloc, h, count)?, purse, h)?)
}

/// The block in a cell.
fn block_in(blocks: &[Fresh], cell: u32) -> Option<&Block> {
    for fresh in blocks {
        if fresh.cell == cell {
            return Some(&fresh.block);
        }
    }
    None
}

/// How many rows a block has, and the sum of their measures.
fn rows_of(block: &Block) -> (u64, i128) {
    match &block.body {
        Body::Rows(rows) => {
            let total = rows.total();
            (total.count(), total.sum())
        }
        Body::Entries(_) => (0, 0),
    }
}

/// Notes the blocks to which a block's entries lead.
fn note(todo: &mut Vec<u32>, block: &Block) -> Result<(), AllocError> {
    for entry in block.entries() {
        todo.push(entry.child)?;
    }
    Ok(())
}

/// How many rows a walk from the noted block finds, and the sum of their measures. It visits as many
/// blocks as there are.
fn walked<R: Abort>(rt: &R, tree: &Built, todo: &mut Vec<u32>) -> Result<(u64, i128), AllocError> {
    let mut count = 0_u64;
    let mut sum = 0_i128;
    for _ in 0..tree.blocks.len() {
        let cell = todo.pop().expect(rt, "a block that no entry leads to");
        let block = block_in(&tree.blocks, cell).expect(rt, "an entry that leads to no block");
        let (rows, measures) = rows_of(block);
        count = count.wrapping_add(rows);
        sum = sum.wrapping_add(measures);
        note(todo, block)?;
    }
    Ok((count, sum))
}

/// Compares what a walk through a tree finds: each block once, and these rows.
fn expect_rows<R: Abort>(rt: &R, alloc: Global, tree: &Built, count: u32) -> Result<(), Fail> {
    let mut todo = Vec::new(alloc);
    todo.push(tree.root)?;
    let found = walked(rt, tree, &mut todo)?;
    assert!(rt; todo.is_empty(), "a block to which two entries lead");
    assert_eq!(rt; found, (u64::from(count), 7 * i128::from(count)));
    Ok(())
}

/// Compares the tree of so many rows, built with one spare more than it needs.
fn expect_built<R: Abort>(
    rt: &R,
    alloc: Global,
    h: &Hierarchy,
    case: &(u32, usize, u32),
) -> Result<(), Fail>
    requires { length h.now ≡ 1 }
{
    let (count, blocks, height) = *case;
    let mut purse = purse_of(rt, alloc, cells_for(u64::from(count)).min(63) + 1)?;
    let tree = built(rt, alloc, h, count, &mut purse)?;
    assert_eq!(rt;
        (tree.blocks.len(), tree.height, purse.len()),
        (blocks, height, 1)
    );
    assert_eq!(rt; tree.agg.count(), u64::from(count));
    expect_rows(rt, alloc, &tree, count)
}

/// Compares the trees of few rows and of many.
fn expect_all<R: Abort>(rt: &R, alloc: Global, h: &Hierarchy) -> Result<(), Fail>
    requires { length h.now ≡ 1 }
{
    const CASES: [(u32, usize, u32); 5] = [
        (0, 1, 1),
        (1, 1, 1),
        (24, 1, 1),
        (25, 3, 2),
        (289, 16, 3),
    ];
    for case in &CASES {
        expect_built(rt, alloc, h, case)?;
    }
    Ok(())
}

#[test]
fn built_trees_are_read_back(rt: HostRuntime) -> Result<(), Fail> {
    let alloc = rt.alloc();
    expect_all(&rt, alloc, &hierarchy(alloc, &STORES)?)
}
