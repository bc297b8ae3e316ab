//! The rows of a tree, read as far as no set tells them.
ghost use Rattle.std.specs.Prelude.{◌≡◌, ◌+◌, ◌++◌, ◌<◌, ◌^◌, [], ◌∷◌, length, slice_get, All, IfSome, OnOk};
ghost use Rattle.std.specs.List.{flat_map};
ghost use Rattle.dim_hierarchy.specs.Rows.{IsRowOf};
ghost use Rattle.list_words.specs.Counts.{Each};
ghost use Rattle.core_pages.specs.Looks.{HasCells, blocks_of, cells_in};
ghost use Rattle.group_answer.specs.Adding.{with_rows};
ghost use Rattle.group_answer.specs.Groups.{IsQuestion, all_of};
ghost use Rattle.group_answer.specs.Reading.{AreSummed, rows_at};
ghost use Rattle.group_answer.specs.Telling.{IsNarrow, IsOfAll};

use crate::asked::Asked;
use crate::found::Found;
use core_pages::{Cells, Entries, Keep, group_of};
use dc_node::{Block, Body, Entry, LeafRows};
use dim_hierarchy::{Coord, Row};
use std::alloc::{AllocError, Global};

/// Keeps copies of the rows.
struct Rows;

impl Keep for Rows {
    ghost use Rattle.dc_node.specs.Block.{rows_in};

    type Item = Row;

    ghost kept = { λ block. rows_in block.body };

    fn keep(block: &Block, into: &mut Vec<Row>) -> Result<(), AllocError> {
        match &block.body {
            Body::Rows(rows) => copy_rows(rows, into),
            Body::Entries(_) => Ok(()),
        }
    }
}

/// Puts copies of the rows of a leaf behind others.
fn copy_rows(leaf: &LeafRows, rows: &mut Vec<Row>) -> Result<(), AllocError>
    ensures { OnOk result (rows.new.items ≡ rows.old.items ++ leaf.now.items) }
{
    for place in 0..leaf.len() {
        copy_row(leaf, place, rows)?;
    }
    Ok(())
}

/// Puts a copy of the row at a place of a leaf behind others.
fn copy_row(leaf: &LeafRows, place: usize, rows: &mut Vec<Row>) -> Result<(), AllocError>
    ensures { OnOk result (IfSome (slice_get leaf.now.items place) (λ row. rows.new.items ≡ rows.old.items ++ row ∷ [])) }
{
    match leaf.row(place) {
        Some(row) => push_row(&row, rows),
        None => Ok(()),
    }
}

/// Adds a copy of a row at the end.
fn push_row(row: &Row, rows: &mut Vec<Row>) -> Result<(), AllocError>
    ensures { OnOk result (rows.new.items ≡ rows.old.items ++ row.now ∷ []) }
{
    rows.push(Row {
        no: row.no,
        at: Coord { at: row.at.at },
        measures: row.measures,
    })?;
    Ok(())
}

/// Adds the rows of an entry's group of leaves one by one. Looks at each of its blocks once.
fn add_leaves<C: Cells>(
    alloc: Global,
    cells: &mut C,
    many: u32,
    asked: &Asked,
    entry: &Entry,
    found: &mut Found,
) -> Result<(), AllocError>
    requires question { IsQuestion asked.now }
    requires there { HasCells many (C.state cells.old) }
    requires rows { All (IsRowOf asked.now.hierarchy) (rows_at (blocks_of many (cells_in (C.state cells.old))) 0 entry.now) }
    requires few { (all_of found.old.lines.items).count + length (rows_at (blocks_of many (cells_in (C.state cells.old))) 0 entry.now) < 2 ^ 63 }
    ensures same { C.state cells.new ≡ C.state cells.old }
    ensures lines { OnOk result (found.new.lines.items ≡ with_rows asked.now (rows_at (blocks_of many (cells_in (C.state cells.old))) 0 entry.now) found.old.lines.items) }
{
    let group = group_of::<C, Rows>(alloc, cells, many, entry)?;
    found.look(group.blocks);
    found.add_rows(asked, group.kept.as_slice())
}

/// Adds the rows beneath an entry, so many levels above the leaves. Where its set tells them, it looks at no
/// block.
#[cycle(walk)]
pub(crate) fn add_entry<C: Cells>(
    alloc: Global,
    cells: &mut C,
    many: u32,
    asked: &Asked,
    entry: &Entry,
    level: u32,
    found: &mut Found,
) -> Result<(), AllocError>
    requires question { IsQuestion asked.now }
    requires there { HasCells many (C.state cells.old) }
    requires summed { AreSummed asked.now.hierarchy (blocks_of many (cells_in (C.state cells.old))) level entry.now }
    requires few { (all_of found.old.lines.items).count + length (rows_at (blocks_of many (cells_in (C.state cells.old))) level entry.now) < 2 ^ 63 }
    ensures same { C.state cells.new ≡ C.state cells.old }
    ensures lines { OnOk result (found.new.lines.items ≡ with_rows asked.now (rows_at (blocks_of many (cells_in (C.state cells.old))) level entry.now) found.old.lines.items) }
    ensures looks { IsOfAll asked.now → IsNarrow asked.now entry.now.set → found.new.looks ≡ found.old.looks }
{
    if found.add_told(asked, &entry.set, &entry.agg)? {
        return Ok(());
    }
    if level == 0 {
        return add_leaves(alloc, cells, many, asked, entry, found);
    }
    let group = group_of::<C, Entries>(alloc, cells, many, entry)?;
    found.look(group.blocks);
    let entries = group.kept.as_slice();
    add_entries(alloc, cells, many, asked, entries, level - 1, found)
}

/// Adds the rows beneath these entries.
#[cycle(walk)]
fn add_entries<C: Cells>(
    alloc: Global,
    cells: &mut C,
    many: u32,
    asked: &Asked,
    entries: &[Entry],
    level: u32,
    found: &mut Found,
) -> Result<(), AllocError>
    requires question { IsQuestion asked.now }
    requires there { HasCells many (C.state cells.old) }
    requires summed { Each (λ e. AreSummed asked.now.hierarchy (blocks_of many (cells_in (C.state cells.old))) level e) entries.now }
    requires few { (all_of found.old.lines.items).count + length (flat_map (λ e. rows_at (blocks_of many (cells_in (C.state cells.old))) level e) entries.now) < 2 ^ 63 }
    ensures same { C.state cells.new ≡ C.state cells.old }
    ensures lines { OnOk result (found.new.lines.items ≡ with_rows asked.now (flat_map (λ e. rows_at (blocks_of many (cells_in (C.state cells.old))) level e) entries.now) found.old.lines.items) }
{
    for entry in entries {
        add_entry(alloc, cells, many, asked, entry, level, found)?;
    }
    Ok(())
}
