//! The page that shows a tree, by a walk that looks at one block at a time.
ghost use Rattle.std.specs.Prelude.{◌≡◌, ◌+◌, ◌<◌, ◌^◌, ◌++◌, IfOk, OnOk, IsSome};
ghost use Rattle.std.specs.List.{flat_map};
ghost use Rattle.core_pages.specs.Looks.{HasCells, blocks_of, cells_in, gate_in};
ghost use Rattle.core_pages.specs.Still.{ShowsTree, page_without_lines};
ghost use Rattle.core_image.specs.shard_store.specs.Gate.{root_entry};
ghost use Rattle.core_image.specs.tree_shape.specs.PageLines.{lines};
ghost use Rattle.core_image.specs.volap_cell.specs.Cells.{gate_shard};

use crate::group::{Entries, group_of};
use crate::looks::Cells;
use core_image::tree_shape::tree_laws;
use core_image::volap_cell::Cell;
use dc_node::Entry;
use row_ledger::{NodeLine, NodeList, TreePage};
use std::alloc::{AllocError, Global};

/// The page of the gate in a cell without its lines, and the entry of its root. Takes no memory.
fn top_of<C: Cells>(alloc: Global, cells: &mut C, gate_at: u32) -> (TreePage, Entry)
    requires gate { IsSome (gate_shard (cells_in (C.state cells.old) gate_at)) }
    ensures same { C.state cells.new ≡ C.state cells.old }
    ensures page { result.0 ≡ page_without_lines (gate_in (cells_in (C.state cells.old) gate_at)) }
    ensures root { result.1 ≡ root_entry (gate_in (cells_in (C.state cells.old) gate_at)) }
{
    match cells.look(gate_at) {
        Cell::Gate(gate) => (
            TreePage {
                shard: gate.shard,
                height: gate.height,
                rows: gate.agg.count(),
                queued: gate.queue.rows.len() as u64,
                nodes: NodeList::new(alloc),
            },
            Entry {
                child: gate.root,
                stamp: gate.stamp,
                agg: gate.agg,
                set: gate.set.copy(),
            },
        ),
        _ => unreachable!(),
    }
}

/// What the tree of the gate in a cell looks like, where there are so many cells. Looks at each block of
/// the tree once. Takes memory for the lines, and for copies of the entries on the way down.
pub fn page_of<C: Cells>(
    alloc: Global,
    cells: &mut C,
    many: u32,
    gate_at: u32,
) -> Result<TreePage, AllocError>
    requires there { HasCells many (C.state cells.old) }
    requires gate { IsSome (gate_shard (cells_in (C.state cells.old) gate_at)) }
    requires tall { 0 < (gate_in (cells_in (C.state cells.old) gate_at)).height }
    ensures same { C.state cells.new ≡ C.state cells.old }
    ensures page { IfOk result (λ p. ShowsTree (gate_in (cells_in (C.state cells.old) gate_at)) (blocks_of many (cells_in (C.state cells.old))) p) }
{
    tree_laws();
    let (mut page, root) = top_of(alloc, cells, gate_at);
    push_group(
        alloc,
        &mut page.nodes,
        cells,
        many,
        &root,
        0,
        page.height - 1,
    )?;
    Ok(page)
}

/// Adds the line of an entry's group, so many groups below the root and so many levels above the
/// leaves, and then the lines of all groups beneath it.
#[cycle(group)]
fn push_group<C: Cells>(
    alloc: Global,
    nodes: &mut NodeList,
    cells: &mut C,
    many: u32,
    entry: &Entry,
    depth: u32,
    level: u32,
) -> Result<(), AllocError>
    requires there { HasCells many (C.state cells.old) }
    requires deep { depth + level < 2 ^ 32 }
    ensures same { C.state cells.new ≡ C.state cells.old }
    ensures lines { OnOk result (nodes.new ≡ nodes.old ++ lines (blocks_of many (cells_in (C.state cells.old))) level depth entry.now) }
{
    let group = group_of::<C, Entries>(alloc, cells, many, entry)?;
    let line = NodeLine {
        depth,
        leaf: level == 0,
        blocks: group.blocks,
        items: group.items,
        agg: entry.agg,
        set: entry.set.copy(),
    };
    nodes.push(line)?;
    if level == 0 {
        return Ok(());
    }
    let entries = group.kept.as_slice();
    push_all(alloc, nodes, cells, many, entries, depth + 1, level - 1)?;
    Ok(())
}

/// Adds the lines of the groups of these entries.
#[cycle(group)]
fn push_all<C: Cells>(
    alloc: Global,
    nodes: &mut NodeList,
    cells: &mut C,
    many: u32,
    entries: &[Entry],
    depth: u32,
    level: u32,
) -> Result<(), AllocError>
    requires there { HasCells many (C.state cells.old) }
    requires deep { depth + level < 2 ^ 32 }
    ensures same { C.state cells.new ≡ C.state cells.old }
    ensures lines { OnOk result (nodes.new ≡ nodes.old ++ flat_map (λ e. lines (blocks_of many (cells_in (C.state cells.old))) level depth e) entries.now) }
{
    for entry in entries {
        push_group(alloc, nodes, cells, many, entry, depth, level)?;
    }
    Ok(())
}
