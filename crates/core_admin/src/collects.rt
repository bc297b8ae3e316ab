//! The rows of a frozen shard are collected.
ghost use Rattle.std.specs.Prelude.{◌≡◌, ◌≢◌, ◌+◌, ◌<◌, ◌≤◌, [], ◌∷◌, ◌++◌, length, map, vec_len, vec_capacity, slice_get, IfSome, OnOk, OnErr};
ghost use Rattle.core_admin.specs.CollectDue.{CanCollectBlock, CanCollectRow, CollectsRow, HasMore, HasNoted, ReadsBlock, ReadsInto, TakesRow};
ghost use Rattle.dc_node.specs.Block.{rows_in};
ghost use Rattle.dc_node.specs.Limits.{most_of_leaf};
ghost use Rattle.core_tree.specs.link_descent.specs.Visit.{noted_right};
ghost use Rattle.core_tree.specs.tree_shape.specs.Collecting.{entry_items};
ghost use Rattle.core_tree.specs.volap_cell.specs.Cells.{cell_of};
ghost use Rattle.core_tree.specs.volap_cell.specs.Steps.{IsHere, Makes};
ghost use Rattle.core_tree.specs.volap_cell.specs.Values.{actor_of, collecting_of, job_of};
ghost use Rattle.core_tree.specs.volap_cell.specs.World.{change, held};
ghost use Rattle.core_tree.specs.volap_cell.specs.declared.kind.Kind.TheVariants.{Collect};

use core_tree::link_descent::MOST_NOTED;
use core_tree::shard_store::{CellList, Gate, RowList};
use core_tree::tree_shape::collect_laws;
use core_tree::volap_cell::{Actor, Cell, Collecting, Job, Stage, block_seen, gate_seen, lent};
use dc_node::{Block, Body, Entry, Item, LeafRows, Todo};
use dim_hierarchy::{COLUMN_PLACES, Coord, Hierarchy, Row};
use std::alloc::AllocError;
use std::mem;

/// Reads the block that the actor's job noted last: collects its rows, and notes all its entries and its
/// right link. The room for these is made first; where memory is wanting for it, nothing changes.
pub fn collect_block(
    h: &Hierarchy,
    at: u32,
    cell: &mut Cell,
    actor: &mut Actor,
) -> Result<(), AllocError>
    requires here { IsHere h.now (held at (cell_of cell.old) ∷ []) (actor_of actor.old) }
    requires due { CanCollectBlock at (actor_of actor.old) }
    ensures made { OnOk result (Makes h.now Collect (change at (cell_of cell.old) (cell_of cell.new) ∷ []) (actor_of actor.old) (actor_of actor.new)) }
    ensures refused { OnErr result ((cell.new ≡ cell.old) × (actor_of actor.new ≡ actor_of actor.old)) }
{
    let _ = h;
    let _ = at;
    collect_laws();
    let job = lent(&mut actor.job);
    let block = block_seen(cell);
    read_block(block, job)
}

/// Reads the block for the job. The stage is taken out for this, so that its lists can be had as vectors,
/// and is put back whatever becomes of it.
fn read_block(block: &Block, job: &mut Job) -> Result<(), AllocError>
    requires noted { HasNoted (job_of job.old) }
    ensures made { OnOk result (ReadsBlock block.now (job_of job.old) (job_of job.new)) }
    ensures refused { OnErr result (job_of job.new ≡ job_of job.old) }
{
    let Stage::Collecting(collecting) = mem::replace(&mut job.stage, Stage::Called) else {
        unreachable!()
    };
    let Collecting {
        frozen,
        todo,
        read,
        queued,
        rows,
    } = collecting;
    let mut todo = todo;
    let mut read = read.into_vec();
    let mut rows = rows.into_vec();
    let done = read_into(block, &mut todo, &mut read, &mut rows);
    job.stage = Stage::Collecting(Collecting {
        frozen,
        todo,
        read: CellList::from_vec(read),
        queued,
        rows: RowList::from_vec(rows),
    });
    done
}

/// Reads the block, which was noted last. What can fail comes first.
fn read_into(
    block: &Block,
    todo: &mut Todo,
    read: &mut Vec<u32>,
    rows: &mut Vec<Row>,
) -> Result<(), AllocError>
    requires some { todo.old.items ≢ [] }
    ensures made { OnOk result (ReadsInto block.now todo.old.items todo.new.items read.old.items read.new.items rows.old.items rows.new.items) }
    ensures refused { OnErr result ((todo.new.items ≡ todo.old.items) × (read.new.items ≡ read.old.items) × (rows.new.items ≡ rows.old.items)) }
{
    todo.reserve(MOST_NOTED)?;
    read.reserve(1)?;
    rows.reserve(COLUMN_PLACES)?;
    let item = todo.pop().unwrap();
    read.push_reserved(item.cell);
    note_entries(block.entries(), todo);
    note_right(block, item.stamp, todo);
    collect_rows(block, rows);
    Ok(())
}

/// Notes the children of these entries. Takes no memory.
fn note_entries(entries: &[Entry], todo: &mut Todo)
    requires room { length entries.now ≤ todo.old.room }
    ensures items { todo.new.items ≡ todo.old.items ++ map (λ e. record { cell = e.child; stamp = e.stamp }) entries.now }
    ensures room { todo.old.room ≤ todo.new.room + length entries.now }
{
    for entry in entries {
        todo.push(Item {
            cell: entry.child,
            stamp: entry.stamp,
        });
    }
}

/// Notes the block to the right, unless the walk ends here. Takes no memory.
fn note_right(block: &Block, stamp: u64, todo: &mut Todo)
    requires room { 0 < todo.old.room }
    ensures { todo.new.items ≡ todo.old.items ++ noted_right block.now stamp }
{
    if block.stamp == stamp {
        return;
    }
    if let Some(cell) = block.right {
        todo.push(Item { cell, stamp });
    }
}

/// Collects the rows of a leaf; a directory has none. Takes no memory.
fn collect_rows(block: &Block, rows: &mut Vec<Row>)
    requires room { vec_len rows.old + most_of_leaf ≤ vec_capacity rows.old }
    ensures { rows.new.items ≡ rows.old.items ++ rows_in block.now.body }
{
    if let Body::Rows(leaf) = &block.body {
        collect_leaf(leaf, rows);
    }
}

/// Collects the rows of a leaf. Takes no memory.
fn collect_leaf(leaf: &LeafRows, rows: &mut Vec<Row>)
    requires room { vec_len rows.old + most_of_leaf ≤ vec_capacity rows.old }
    ensures { rows.new.items ≡ rows.old.items ++ leaf.now.items }
{
    for place in 0..leaf.len() {
        collect_one(leaf, place, rows);
    }
}

/// Collects the row at a place of a leaf. Takes no memory.
fn collect_one(leaf: &LeafRows, place: usize, rows: &mut Vec<Row>)
    requires within { place < length leaf.now.items }
    requires room { vec_len rows.old + 1 ≤ vec_capacity rows.old }
    ensures row { IfSome (slice_get leaf.now.items place) (λ row. rows.new.items ≡ rows.old.items ++ row ∷ []) }
    ensures capacity { vec_capacity rows.new ≡ vec_capacity rows.old }
{
    if let Some(row) = leaf.row(place) {
        push_row(&row, rows);
    }
}

/// Adds a row at the end. Takes no memory.
fn push_row(row: &Row, rows: &mut Vec<Row>)
    requires room { vec_len rows.old + 1 ≤ vec_capacity rows.old }
    ensures row { rows.new.items ≡ rows.old.items ++ row.now ∷ [] }
    ensures capacity { vec_capacity rows.new ≡ vec_capacity rows.old }
{
    rows.push_reserved(Row {
        no: row.no,
        at: Coord { at: row.at.at },
        measures: row.measures,
    });
}

/// Collects the next row of the queue, as it was when the shard was frozen. Takes memory for one row;
/// where that is wanting, nothing changes.
pub fn collect_row(
    h: &Hierarchy,
    gate_at: u32,
    gate: &mut Cell,
    actor: &mut Actor,
) -> Result<(), AllocError>
    requires here { IsHere h.now (held gate_at (cell_of gate.old) ∷ []) (actor_of actor.old) }
    requires due { CanCollectRow gate_at (cell_of gate.old) (actor_of actor.old) }
    ensures made { OnOk result (Makes h.now Collect (change gate_at (cell_of gate.old) (cell_of gate.new) ∷ []) (actor_of actor.old) (actor_of actor.new)) }
    ensures refused { OnErr result ((gate.new ≡ gate.old) × (actor_of actor.new ≡ actor_of actor.old)) }
{
    let _ = h;
    let _ = gate_at;
    collect_laws();
    let job = lent(&mut actor.job);
    let gate = gate_seen(gate);
    take_row(gate, job)
}

/// Collects the next row of the gate's queue for the job.
fn take_row(gate: &Gate, job: &mut Job) -> Result<(), AllocError>
    requires more { HasMore gate.now (job_of job.old) }
    ensures made { OnOk result (CollectsRow gate.now (job_of job.old) (job_of job.new)) }
    ensures refused { OnErr result (job_of job.new ≡ job_of job.old) }
{
    let Stage::Collecting(collecting) = &mut job.stage else {
        unreachable!()
    };
    take_next(gate, collecting)
}

/// Collects the next row of the gate's queue. A function of its own, since a function is not told what
/// became of a value that it lent two enums deep.
fn take_next(gate: &Gate, collecting: &mut Collecting) -> Result<(), AllocError>
    requires more { collecting.old.queued < length gate.now.queue.rows }
    ensures made { OnOk result (TakesRow gate.now (collecting_of collecting.old) (collecting_of collecting.new)) }
    ensures refused { OnErr result (collecting_of collecting.new ≡ collecting_of collecting.old) }
{
    let row = gate.queue.rows.as_slice()[collecting.queued as usize];
    collecting.rows.push(row)?;
    collecting.queued += 1;
    Ok(())
}
