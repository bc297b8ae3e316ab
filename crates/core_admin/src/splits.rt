//! A split ends: the gates of its children take the place of the old one.
ghost use Rattle.std.specs.Prelude.{ℕ, ◌≡◌, ◌+◌, ◌<◌, ◌^◌, [], ◌∷◌, true, false, Bool, Some, None, IsSome, IfOk, OnOk, OnErr};
ghost use Rattle.std.specs.FinMap as map;
ghost use Rattle.core_admin.specs.SplitDue.{CanFinishSplit, DividesShard, EntersBoth, FinishesDivided, GivesMost, IsChildGate, LeadNowhere, MayDivideShard, MayEnterBoth, MayFinishSplit, MayGiveMost, MayMakeChild, with_children};
ghost use Rattle.describing_set.specs.Sets.{IsDescSetOf};
ghost use Rattle.mapping_table.specs.declared.place.Where.TheVariants as where_is;
ghost use Rattle.core_tree.specs.shard_store.specs.Gate.{IsQueueOf};
ghost use Rattle.core_tree.specs.volap_cell.specs.AdminKinds.{IsTrueBox};
ghost use Rattle.core_tree.specs.volap_cell.specs.Cells.{cell_of};
ghost use Rattle.core_tree.specs.volap_cell.specs.Steps.{IsHere, Makes};
ghost use Rattle.core_tree.specs.volap_cell.specs.Values.{actor_of, job_of};
ghost use Rattle.core_tree.specs.volap_cell.specs.World.{change, held};
ghost use Rattle.core_tree.specs.volap_cell.specs.declared.kind.Kind.TheVariants.{FinishSplit};

use crate::builds::plans;
use crate::finishes::{close_done, gate_for, late_rows, note_done, put_gate, retire_for};
use crate::trees::rows_on;
use cell_stock::{Purse, Stock};
use core_tree::shard_store::Gate;
use core_tree::tree_shape::{collect_laws, frame_law, tree_laws};
use core_tree::volap_cell::{
    Actor, BuiltTree, Cell, Job, Stage, gate_in, ledger_in, lent, map_in, registry_in, stock_in,
    there,
};
use describing_set::{DescSet, Plane};
use dim_hierarchy::Hierarchy;
use mapping_table::{MapTable, Where};
use row_ledger::{Event, Ledger};
use server_image::Registry;
use std::alloc::{AllocError, Global};

/// The highest id with which two ids may begin: the stock's next id behind them is a `u32` too.
const LAST_PAIR: u32 = u32::MAX - 2;

/// Ends the split of the actor's shard: either new tree has a gate of its own, with the rows of its side that came
/// to the queue after the shard was frozen, the worker's table and the registry lead to both, and the old gate is
/// gone. A balance goes on to its next action, and a split ends. The new gates are made first, their places in the
/// table and in the registry and room for the old one among the gates that are gone; where memory or ids are
/// wanting for these, nothing changes.
pub fn finish_split(
    alloc: Global,
    h: &Hierarchy,
    table_at: u32,
    table: &mut Cell,
    gate_at: u32,
    gate: &mut Cell,
    left_at: u32,
    left: &mut Cell,
    right_at: u32,
    right: &mut Cell,
    registry_at: u32,
    registry: &mut Cell,
    stock_at: u32,
    stock: &mut Cell,
    ledger_at: u32,
    ledger: &mut Cell,
    actor: &mut Actor,
) -> Result<(), AllocError>
    requires here { IsHere h.now
        (held table_at (cell_of table.old) ∷ held gate_at (cell_of gate.old) ∷ held left_at (cell_of left.old) ∷ held right_at (cell_of right.old)
        ∷ held registry_at (cell_of registry.old) ∷ held stock_at (cell_of stock.old) ∷ held ledger_at (cell_of ledger.old) ∷ [])
        (actor_of actor.old) }
    requires due { CanFinishSplit (cell_of table.old) gate_at left_at right_at (cell_of registry.old) (cell_of stock.old) (cell_of ledger.old) (actor_of actor.old) }
    ensures made { OnOk result (Makes h.now FinishSplit
        (change table_at (cell_of table.old) (cell_of table.new) ∷ change gate_at (cell_of gate.old) (cell_of gate.new) ∷ change left_at (cell_of left.old) (cell_of left.new)
        ∷ change right_at (cell_of right.old) (cell_of right.new) ∷ change registry_at (cell_of registry.old) (cell_of registry.new)
        ∷ change stock_at (cell_of stock.old) (cell_of stock.new) ∷ change ledger_at (cell_of ledger.old) (cell_of ledger.new) ∷ [])
        (actor_of actor.old) (actor_of actor.new)) }
    ensures refused { OnErr result ((table.new ≡ table.old) × (gate.new ≡ gate.old) × (left.new ≡ left.old)
        × (right.new ≡ right.old) × (registry.new ≡ registry.old) × (stock.new ≡ stock.old)
        × (ledger.new ≡ ledger.old) × (actor_of actor.new ≡ actor_of actor.old)) }
{
    frame_law();
    collect_laws();
    tree_laws();
    actor.gone_gates.reserve()?;
    let table = map_in(table);
    let gate = gate_in(gate);
    let registry = registry_in(registry);
    let stock = stock_in(stock);
    let ledger = ledger_in(ledger);
    let job = there(&actor.job);
    let first = next_ids(stock)?;
    let (one, two) = divide(
        alloc, h, left_at, right_at, table, gate, registry, first, job,
    )?;
    put_gate(left, one);
    put_gate(right, two);
    finish_divided(alloc, h, gate_at, gate, stock, ledger, actor);
    Ok(())
}

/// Makes the gates of the job's two trees, the left one's with the first id, and lets the table and the registry
/// lead to them. Where memory is wanting, these stay as they were.
fn divide(
    alloc: Global,
    h: &Hierarchy,
    left_at: u32,
    right_at: u32,
    table: &mut MapTable,
    gate: &Gate,
    registry: &mut Registry,
    first: u32,
    job: &Job,
) -> Result<(Box<Gate>, Box<Gate>), AllocError>
    requires due { MayDivideShard h.now table.old gate.now registry.old first (job_of job.now) }
    ensures made { IfOk result (λ made. DividesShard h.now left_at right_at table.old table.new gate.now registry.old registry.new first (job_of job.now) made.0.value made.1.value) }
    ensures refused { OnErr result ((table.new ≡ table.old) × (registry.new ≡ registry.old)) }
{
    let Stage::Building(building) = &job.stage else {
        unreachable!()
    };
    let plane = there(&building.frozen.plane);
    let tree = there(&building.right);
    let left = child_gate(alloc, h, plane, true, first, &building.left, gate)?;
    let right = child_gate(alloc, h, plane, false, first + 1, tree, gate)?;
    let left_box = box_of(h, &left);
    let right_box = box_of(h, &right);
    enter_both(
        table, registry, job.shard, plane, first, left_at, right_at, left_box, right_box,
    )?;
    Ok((left, right))
}

/// The gate of a child, with the rows of its side that came to the queue of the old one after it was frozen.
fn child_gate(
    alloc: Global,
    h: &Hierarchy,
    plane: &Plane,
    left: bool,
    shard: u32,
    tree: &BuiltTree,
    gate: &Gate,
) -> Result<Box<Gate>, AllocError>
    requires due { MayMakeChild h.now plane.now gate.now }
    ensures { IfOk result (λ made. IsChildGate h.now plane.now left shard tree.now gate.now made.value) }
{
    let rows = rows_on(alloc, h, plane, left, late_rows(gate))?;
    gate_for(alloc, h, shard, tree, rows.as_slice())
}

/// The box of a gate's tree and queue. Takes no memory.
fn box_of(h: &Hierarchy, gate: &Gate) -> DescSet
    requires tree { IsDescSetOf h.now gate.now.set }
    requires queue { IsQueueOf h.now gate.now.queue }
    ensures { IsTrueBox h.now gate.now.set gate.now.queue.rows result }
{
    gate.set.join(h, &gate.queue.set)
}

/// Enters both children of a shard into the table and the registry, with the shard's own entry in the table last:
/// that takes no memory. Where memory is wanting for the others, nothing changes.
fn enter_both(
    table: &mut MapTable,
    registry: &mut Registry,
    shard: u32,
    plane: &Plane,
    first: u32,
    left_at: u32,
    right_at: u32,
    left_box: DescSet,
    right_box: DescSet,
) -> Result<(), AllocError>
    requires due { MayEnterBoth table.old registry.old shard first }
    ensures ok { OnOk result (EntersBoth table.old table.new registry.old registry.new shard plane.now first left_at right_at left_box right_box) }
    ensures err { OnErr result ((table.new ≡ table.old) × (registry.new ≡ registry.old)) }
{
    lead_to_children(table, first, left_at, right_at)?;
    match registry.split(shard, first, left_box, first + 1, right_box) {
        Ok(()) => {
            lead_apart(table, shard, plane, first);
            Ok(())
        }
        Err(fault) => {
            table.forget(first + 1);
            table.forget(first);
            Err(fault)
        }
    }
}

/// Lets two new ids lead to the gates of children. Where memory is wanting for either, both lead nowhere.
fn lead_to_children(
    table: &mut MapTable,
    first: u32,
    left_at: u32,
    right_at: u32,
) -> Result<(), AllocError>
    requires new { LeadNowhere table.old first }
    ensures ok { OnOk result (table.new ≡ with_children table.old first left_at right_at) }
    ensures err { OnErr result (table.new ≡ table.old) }
{
    table.set(first, Where::Gate(left_at))?;
    match table.set(first + 1, Where::Gate(right_at)) {
        Ok(()) => Ok(()),
        Err(fault) => {
            table.forget(first);
            Err(fault)
        }
    }
}

/// Lets a shard that the table knows lead to its children by a plane. Takes no memory.
fn lead_apart(table: &mut MapTable, shard: u32, plane: &Plane, first: u32)
    requires known { IsSome (map.get table.old shard) }
    requires few { first + 1 < 2 ^ 32 }
    ensures { table.new ≡ map.insert table.old shard (where_is.Split plane.now first (first + 1)) }
{
    let plane = plane.copy();
    let apart = Where::Split {
        plane,
        left: first,
        right: first + 1,
    };
    match table.set(shard, apart) {
        Ok(()) => {}
        Err(_) => unreachable!(),
    }
}

/// Ends the actor's split, whose new gates stand: the old gate is gone, and on the actor's list, the spares that are
/// left are free again, and the command goes on or ends. Takes no memory.
fn finish_divided(
    alloc: Global,
    h: &Hierarchy,
    gate_at: u32,
    gate: &mut Gate,
    stock: &mut Stock,
    ledger: &mut Ledger,
    actor: &mut Actor,
)
    requires due { MayFinishSplit gate.old stock.old ledger.old (actor_of actor.old) }
    requires room { 0 < actor.old.gone_gates.room }
    ensures { FinishesDivided h.now gate_at gate.old gate.new stock.old stock.new ledger.old ledger.new (actor_of actor.old) (actor_of actor.new) }
{
    let command = there(&actor.command);
    let job = lent(&mut actor.job);
    let of = command.of;
    let shard = job.shard;
    let planned = plans(&command.work);
    retire_for(alloc, h, gate, job);
    actor.gone_gates.push(gate_at);
    let left = give_most(stock, &mut actor.purse);
    let right = left + 1;
    let event = Event::Split {
        of,
        shard,
        left,
        right,
    };
    note_done(ledger, planned, of, event);
    close_done(
        alloc,
        &mut actor.command,
        &mut actor.job,
        planned,
        shard,
        None,
    );
    actor.seen = ledger.len();
}

/// Takes the spares of the two new gates out of the purse, gives all others back to the stock, and gives out the
/// two ids of the children, of which it answers the first. Takes no memory.
fn give_most(stock: &mut Stock, purse: &mut Purse) -> u32
    requires due { MayGiveMost stock.old purse.old.spares }
    ensures given { GivesMost stock.old stock.new purse.old.spares purse.new.spares }
    ensures first { result ≡ stock.old.ids }
{
    let _left = purse.next();
    let _right = purse.next();
    stock.give(purse);
    stock.shard_ids(2)
}

/// The first of the next two ids, which no shard has yet. Where there are not two more, it answers want of memory. The
/// stock stays as it is. Takes no memory.
fn next_ids(stock: &mut Stock) -> Result<u32, AllocError>
    requires few { stock.old.ids < 2 ^ 32 }
    ensures ok { IfOk result (λ first. (first ≡ stock.old.ids) × (first + 2 < 2 ^ 32)) }
    ensures unchanged { stock.new ≡ stock.old }
{
    let first = stock.shard_ids(0);
    if first > LAST_PAIR {
        return Err(AllocError);
    }
    Ok(first)
}
