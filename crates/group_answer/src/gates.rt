//! The rows of a gate.
ghost use Rattle.std.specs.Prelude.{◌≡◌, ◌+◌, ◌<◌, ◌≤◌, ◌^◌, length, IfOk, IsSome, OnOk};
ghost use Rattle.core_pages.specs.Looks.{HasCells, blocks_of, cells_in, gate_in};
ghost use Rattle.core_pages.specs.shard_store.specs.Gate.{IsQueueOf, root_entry};
ghost use Rattle.core_pages.specs.volap_cell.specs.Cells.{gate_shard};
ghost use Rattle.group_answer.specs.Adding.{with_rows};
ghost use Rattle.group_answer.specs.Groups.{IsQuestion, all_of};
ghost use Rattle.group_answer.specs.Reading.{IsReadable, rows_of};
ghost use Rattle.group_answer.specs.Telling.{IsNarrow, IsOfAll};

use crate::asked::Asked;
use crate::found::Found;
use crate::walk::add_entry;
use core_pages::Cells;
use core_pages::shard_store::Queue;
use core_pages::volap_cell::Cell;
use dc_node::Entry;
use std::alloc::{AllocError, Global};

/// The way into the tree of a gate: the entry of its root, and its height.
#[derive(Drop)]
struct Top {
    root: Entry,
    height: u32,
}

/// Adds the rows of a queue. Where its set tells them, it looks at none.
fn add_queue(asked: &Asked, queue: &Queue, found: &mut Found) -> Result<(), AllocError>
    requires question { IsQuestion asked.now }
    requires queue { IsQueueOf asked.now.hierarchy queue.now }
    requires few { (all_of found.old.lines.items).count + length queue.now.rows < 2 ^ 63 }
    ensures lines { OnOk result (found.new.lines.items ≡ with_rows asked.now queue.now.rows found.old.lines.items) }
    ensures looks { IsOfAll asked.now → IsNarrow asked.now queue.now.set → found.new.looks ≡ found.old.looks }
{
    if found.add_told(asked, &queue.set, &queue.agg)? {
        return Ok(());
    }
    let rows = queue.rows.as_slice();
    found.look(rows.len() as u64);
    found.add_rows(asked, rows)
}

/// Looks at the gate in a cell: adds the rows of its queue, and tells the way into its tree.
fn open<C: Cells>(
    cells: &mut C,
    asked: &Asked,
    at: u32,
    found: &mut Found,
) -> Result<Top, AllocError>
    requires question { IsQuestion asked.now }
    requires gate { IsSome (gate_shard (cells_in (C.state cells.old) at)) }
    requires queue { IsQueueOf asked.now.hierarchy (gate_in (cells_in (C.state cells.old) at)).queue }
    requires few { (all_of found.old.lines.items).count + length (gate_in (cells_in (C.state cells.old) at)).queue.rows < 2 ^ 63 }
    ensures same { C.state cells.new ≡ C.state cells.old }
    ensures root { IfOk result (λ top. top.root ≡ root_entry (gate_in (cells_in (C.state cells.old) at))) }
    ensures height { IfOk result (λ top. top.height ≡ (gate_in (cells_in (C.state cells.old) at)).height) }
    ensures lines { OnOk result (found.new.lines.items ≡ with_rows asked.now (gate_in (cells_in (C.state cells.old) at)).queue.rows found.old.lines.items) }
    ensures looks { IsOfAll asked.now → IsNarrow asked.now (gate_in (cells_in (C.state cells.old) at)).queue.set → found.new.looks ≤ found.old.looks + 1 }
{
    match cells.look(at) {
        Cell::Gate(gate) => {
            found.look(1);
            add_queue(asked, &gate.queue, found)?;
            Ok(Top {
                root: Entry {
                    child: gate.root,
                    stamp: gate.stamp,
                    agg: gate.agg,
                    set: gate.set.copy(),
                },
                height: gate.height,
            })
        }
        _ => unreachable!(),
    }
}

/// Adds the rows of the gate in a cell, where there are so many cells.
pub(crate) fn add_gate<C: Cells>(
    alloc: Global,
    cells: &mut C,
    many: u32,
    asked: &Asked,
    at: u32,
    found: &mut Found,
) -> Result<(), AllocError>
    requires question { IsQuestion asked.now }
    requires there { HasCells many (C.state cells.old) }
    requires gate { IsReadable asked.now.hierarchy (blocks_of many (cells_in (C.state cells.old))) (cells_in (C.state cells.old) at) }
    requires few { (all_of found.old.lines.items).count + length (rows_of (blocks_of many (cells_in (C.state cells.old))) (gate_in (cells_in (C.state cells.old) at))) < 2 ^ 63 }
    ensures same { C.state cells.new ≡ C.state cells.old }
    ensures lines { OnOk result (found.new.lines.items ≡ with_rows asked.now (rows_of (blocks_of many (cells_in (C.state cells.old))) (gate_in (cells_in (C.state cells.old) at))) found.old.lines.items) }
    ensures looks { IsOfAll asked.now
        → IsNarrow asked.now (gate_in (cells_in (C.state cells.old) at)).set
        → IsNarrow asked.now (gate_in (cells_in (C.state cells.old) at)).queue.set
        → found.new.looks ≤ found.old.looks + 1 }
{
    let top = open(cells, asked, at, found)?;
    add_entry(alloc, cells, many, asked, &top.root, top.height - 1, found)
}
