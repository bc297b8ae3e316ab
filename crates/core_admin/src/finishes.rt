//! A job ends with new gates: what ends of splits and of moves have in common, and the moves.
ghost use Rattle.std.specs.Prelude.{ℕ, ◌≡◌, ◌+◌, ◌≤◌, ◌<◌, ◌^◌, [], ◌∷◌, length, drop, is_some, Some, option_map, IsSome, IfOk, OnOk, OnErr};
ghost use Rattle.std.specs.FinMap as map;
ghost use Rattle.core_admin.specs.FinishDue.{CanFinishHere, CanFinishMove, CanQueue, ClosesDone, CountsDone, FinishesFor, GivesRest, IsLate, IsNextGate, MakesWay, MakesWayHere, MayCloseDone, MayCount, MayFinish, MayGiveRest, MayMakeWay, MovesTo, NotesDone, QueuesAll, RetiresFor, with_one_done, gone_by};
ghost use Rattle.mapping_table.specs.declared.place.Where.TheVariants as where_is;
ghost use Rattle.shard_plan.specs.Balancing.{after_move};
ghost use Rattle.core_tree.specs.shard_store.specs.Gate.{IsFrozen, IsQueueOf};
ghost use Rattle.core_tree.specs.volap_cell.specs.AdminKinds.{IsGateFor, IsUpTo, Retires};
ghost use Rattle.core_tree.specs.volap_cell.specs.Cells.{GateCell, cell_of};
ghost use Rattle.core_tree.specs.volap_cell.specs.Steps.{IsHere, Makes};
ghost use Rattle.core_tree.specs.volap_cell.specs.Values.{actor_of, job_of};
ghost use Rattle.core_tree.specs.volap_cell.specs.World.{change, held};
ghost use Rattle.core_tree.specs.volap_cell.specs.declared.kind.Kind.TheVariants.{FinishMove};

use crate::builds::plans;
use balancer::move_shard;
use cell_stock::{Purse, Stock};
use core_image::advance;
use core_tree::shard_store::{CellList, Gate, Phase};
use core_tree::tree_shape::{collect_laws, frame_law};
use core_tree::volap_cell::{
    Actor, Balance, BuiltTree, Cell, Command, Job, Stage, Work, gate_in, ledger_in, lent, map_in,
    registry_in, stock_in, there,
};
use dim_hierarchy::{Hierarchy, Items, Row};
use mapping_table::{MapTable, Where};
use row_ledger::{Event, How, Ledger};
use server_image::Registry;
use shard_plan::Load;
use std::alloc::{AllocError, Global};
use std::mem;

/// Ends the move of the actor's shard to another worker: the new tree has a gate of its own there, with the rows
/// that came to the queue after the shard was frozen, and the old gate is gone. A balance goes on to its next
/// action, and a move ends. The new gate is made first, its place in the table and room for the old one among the
/// gates that are gone; where memory is wanting for these, nothing changes.
pub fn finish_move(
    alloc: Global,
    h: &Hierarchy,
    from_at: u32,
    from: &mut Cell,
    to_at: u32,
    to: &mut Cell,
    gate_at: u32,
    gate: &mut Cell,
    new_at: u32,
    new: &mut Cell,
    registry_at: u32,
    registry: &mut Cell,
    stock_at: u32,
    stock: &mut Cell,
    ledger_at: u32,
    ledger: &mut Cell,
    actor: &mut Actor,
) -> Result<(), AllocError>
    requires here { IsHere h.now
        (held from_at (cell_of from.old) ∷ held to_at (cell_of to.old) ∷ held gate_at (cell_of gate.old) ∷ held new_at (cell_of new.old)
        ∷ held registry_at (cell_of registry.old) ∷ held stock_at (cell_of stock.old) ∷ held ledger_at (cell_of ledger.old) ∷ [])
        (actor_of actor.old) }
    requires due { CanFinishMove (cell_of from.old) (cell_of to.old) gate_at new_at (cell_of registry.old) (cell_of stock.old) (cell_of ledger.old) (actor_of actor.old) }
    ensures made { OnOk result (Makes h.now FinishMove
        (change from_at (cell_of from.old) (cell_of from.new) ∷ change to_at (cell_of to.old) (cell_of to.new) ∷ change gate_at (cell_of gate.old) (cell_of gate.new)
        ∷ change new_at (cell_of new.old) (cell_of new.new) ∷ change registry_at (cell_of registry.old) (cell_of registry.new)
        ∷ change stock_at (cell_of stock.old) (cell_of stock.new) ∷ change ledger_at (cell_of ledger.old) (cell_of ledger.new) ∷ [])
        (actor_of actor.old) (actor_of actor.new)) }
    ensures refused { OnErr result ((from.new ≡ from.old) × (to.new ≡ to.old) × (gate.new ≡ gate.old)
        × (new.new ≡ new.old) × (registry.new ≡ registry.old) × (stock.new ≡ stock.old)
        × (ledger.new ≡ ledger.old) × (actor_of actor.new ≡ actor_of actor.old)) }
{
    frame_law();
    collect_laws();
    actor.gone_gates.reserve()?;
    let from = map_in(from);
    let to = map_in(to);
    let gate = gate_in(gate);
    let registry = registry_in(registry);
    let stock = stock_in(stock);
    let ledger = ledger_in(ledger);
    let job = there(&actor.job);
    let made = make_way(alloc, h, new_at, from, to, gate, job)?;
    put_gate(new, made);
    finish_for(alloc, h, gate_at, gate, registry, stock, ledger, actor);
    Ok(())
}

/// Ends the move of the actor's shard to the worker that has it: as `finish_move` does, with the one table of that
/// worker.
pub fn finish_here(
    alloc: Global,
    h: &Hierarchy,
    table_at: u32,
    table: &mut Cell,
    gate_at: u32,
    gate: &mut Cell,
    new_at: u32,
    new: &mut Cell,
    registry_at: u32,
    registry: &mut Cell,
    stock_at: u32,
    stock: &mut Cell,
    ledger_at: u32,
    ledger: &mut Cell,
    actor: &mut Actor,
) -> Result<(), AllocError>
    requires here { IsHere h.now
        (held table_at (cell_of table.old) ∷ held gate_at (cell_of gate.old) ∷ held new_at (cell_of new.old) ∷ held registry_at (cell_of registry.old)
        ∷ held stock_at (cell_of stock.old) ∷ held ledger_at (cell_of ledger.old) ∷ [])
        (actor_of actor.old) }
    requires due { CanFinishHere (cell_of table.old) gate_at new_at (cell_of registry.old) (cell_of stock.old) (cell_of ledger.old) (actor_of actor.old) }
    ensures made { OnOk result (Makes h.now FinishMove
        (change table_at (cell_of table.old) (cell_of table.new) ∷ change gate_at (cell_of gate.old) (cell_of gate.new) ∷ change new_at (cell_of new.old) (cell_of new.new)
        ∷ change registry_at (cell_of registry.old) (cell_of registry.new) ∷ change stock_at (cell_of stock.old) (cell_of stock.new)
        ∷ change ledger_at (cell_of ledger.old) (cell_of ledger.new) ∷ [])
        (actor_of actor.old) (actor_of actor.new)) }
    ensures refused { OnErr result ((table.new ≡ table.old) × (gate.new ≡ gate.old) × (new.new ≡ new.old)
        × (registry.new ≡ registry.old) × (stock.new ≡ stock.old) × (ledger.new ≡ ledger.old)
        × (actor_of actor.new ≡ actor_of actor.old)) }
{
    frame_law();
    collect_laws();
    actor.gone_gates.reserve()?;
    let table = map_in(table);
    let gate = gate_in(gate);
    let registry = registry_in(registry);
    let stock = stock_in(stock);
    let ledger = ledger_in(ledger);
    let job = there(&actor.job);
    let made = make_way_here(alloc, h, new_at, table, gate, job)?;
    put_gate(new, made);
    finish_for(alloc, h, gate_at, gate, registry, stock, ledger, actor);
    Ok(())
}

/// Makes the gate of the job's new tree, lets the table of the worker to which the shard moves lead to its cell,
/// and that of the worker that has the shard lead on. Where memory is wanting, the tables stay as they were.
fn make_way(
    alloc: Global,
    h: &Hierarchy,
    new_at: u32,
    from: &mut MapTable,
    to: &mut MapTable,
    gate: &Gate,
    job: &Job,
) -> Result<Box<Gate>, AllocError>
    requires due { MayMakeWay h.now from.old gate.now (job_of job.now) }
    ensures made { IfOk result (λ made. MakesWay h.now new_at from.old from.new to.old to.new gate.now (job_of job.now) made.value) }
    ensures refused { OnErr result ((from.new ≡ from.old) × (to.new ≡ to.old)) }
{
    let worker = job.to.unwrap();
    let made = next_gate(alloc, h, gate, job)?;
    to.set(job.shard, Where::Gate(new_at))?;
    lead_on(from, job.shard, worker);
    Ok(made)
}

/// Makes the gate of the job's new tree, and lets the table lead to its cell. Where memory is wanting, the table
/// stays as it was.
fn make_way_here(
    alloc: Global,
    h: &Hierarchy,
    new_at: u32,
    table: &mut MapTable,
    gate: &Gate,
    job: &Job,
) -> Result<Box<Gate>, AllocError>
    requires moves { MovesTo (job_of job.now) }
    requires gate { IsLate h.now gate.now }
    ensures made { IfOk result (λ made. MakesWayHere h.now new_at table.old table.new gate.now (job_of job.now) made.value) }
    ensures refused { OnErr result (table.new ≡ table.old) }
{
    let made = next_gate(alloc, h, gate, job)?;
    table.set(job.shard, Where::Gate(new_at))?;
    Ok(made)
}

/// Lets a shard that the table knows lead to another worker. Takes no memory.
fn lead_on(table: &mut MapTable, shard: u32, worker: u8)
    requires known { IsSome (map.get table.old shard) }
    ensures { table.new ≡ map.insert table.old shard (where_is.Moved worker) }
{
    match table.set(shard, Where::Moved(worker)) {
        Ok(()) => {}
        Err(_) => unreachable!(),
    }
}

/// The gate of the job's one new tree, with the rows that came to the queue of the old one after it was frozen.
fn next_gate(alloc: Global, h: &Hierarchy, gate: &Gate, job: &Job) -> Result<Box<Gate>, AllocError>
    requires moves { MovesTo (job_of job.now) }
    requires gate { IsLate h.now gate.now }
    ensures { IfOk result (λ made. IsNextGate h.now gate.now (job_of job.now) made.value) }
{
    let Stage::Building(building) = &job.stage else {
        unreachable!()
    };
    gate_for(alloc, h, job.shard, &building.left, late_rows(gate))
}

/// The rows that came to a gate's queue after it was frozen.
pub(crate) fn late_rows(gate: &Gate) -> &[Row]
    requires within { (upto : ℕ) → IsUpTo gate.now upto → upto ≤ length gate.now.queue.rows }
    ensures { (upto : ℕ) → IsUpTo gate.now upto → result.now ≡ drop upto gate.now.queue.rows }
{
    match gate.phase {
        Phase::Frozen { upto } => &gate.queue.rows.as_slice()[upto as usize..],
        _ => &[],
    }
}

/// An open gate for a tree of a shard, with these rows in its queue.
pub(crate) fn gate_for(
    alloc: Global,
    h: &Hierarchy,
    shard: u32,
    tree: &BuiltTree,
    rows: &[Row],
) -> Result<Box<Gate>, AllocError>
    requires rows { CanQueue h.now rows.now }
    ensures { IfOk result (λ made. IsGateFor h.now shard tree.now rows.now made.value) }
{
    let new = Gate::new(
        alloc,
        h,
        shard,
        tree.root,
        tree.stamp,
        tree.height,
        tree.agg,
        tree.set.copy(),
    );
    let mut made = Box::new(alloc, new)?;
    queue_all(h, &mut made, rows)?;
    Ok(made)
}

/// Adds rows to the empty queue of a gate.
fn queue_all(h: &Hierarchy, gate: &mut Gate, rows: &[Row]) -> Result<(), AllocError>
    requires rows { CanQueue h.now rows.now }
    requires empty { gate.old.queue.rows ≡ [] }
    requires queue { IsQueueOf h.now gate.old.queue }
    ensures { OnOk result (QueuesAll h.now rows.now gate.old gate.new) }
{
    for row in rows {
        gate.enqueue(h, row)?;
    }
    Ok(())
}

/// Puts a gate into a cell. What the cell had goes.
pub(crate) fn put_gate(cell: &mut Cell, gate: Box<Gate>)
    ensures { cell_of cell.new ≡ GateCell gate.value }
{
    mem::replace(cell, Cell::Gate(gate));
}

/// Ends the actor's move, whose new gate stands: the old gate is gone, and on the actor's list, the shard is the new
/// worker's, the spares that are left are free again, and the command goes on or ends. Takes no memory.
fn finish_for(
    alloc: Global,
    h: &Hierarchy,
    gate_at: u32,
    gate: &mut Gate,
    registry: &mut Registry,
    stock: &mut Stock,
    ledger: &mut Ledger,
    actor: &mut Actor,
)
    requires due { MayFinish gate.old registry.old stock.old ledger.old (actor_of actor.old) }
    requires room { 0 < actor.old.gone_gates.room }
    ensures { FinishesFor h.now gate_at gate.old gate.new registry.old registry.new stock.old stock.new ledger.old ledger.new (actor_of actor.old) (actor_of actor.new) }
{
    let command = there(&actor.command);
    let job = lent(&mut actor.job);
    let worker = job.to.unwrap();
    let of = command.of;
    let shard = job.shard;
    let planned = plans(&command.work);
    retire_for(alloc, h, gate, job);
    actor.gone_gates.push(gate_at);
    registry.rehost(shard, worker);
    give_rest(stock, &mut actor.purse);
    note_done(ledger, planned, of, Event::Moved { of, shard, worker });
    close_done(
        alloc,
        &mut actor.command,
        &mut actor.job,
        planned,
        shard,
        Some(worker),
    );
    actor.seen = ledger.len();
}

/// The frozen gate is gone, with the list of the blocks that the job has read. Takes no memory.
pub(crate) fn retire_for(alloc: Global, h: &Hierarchy, gate: &mut Gate, job: &mut Job)
    requires frozen { IsFrozen gate.old.phase }
    requires drained { gate.old.active ≡ 0 }
    ensures { RetiresFor h.now gate.old gate.new job.old }
{
    if let Stage::Building(building) = &mut job.stage {
        retire(alloc, h, gate, &mut building.read);
    }
}

/// The frozen gate is gone, and has this list of blocks. Its queue goes. Takes no memory.
fn retire(alloc: Global, h: &Hierarchy, gate: &mut Gate, read: &mut CellList)
    requires frozen { IsFrozen gate.old.phase }
    requires drained { gate.old.active ≡ 0 }
    ensures { Retires h.now read.old gate.old gate.new }
{
    let _queue = gate.retire(alloc, h);
    gate.gone = mem::replace(read, CellList::new(alloc));
}

/// Takes the spare of the new gate out of the purse, and gives all others back to the stock. Takes no memory.
fn give_rest(stock: &mut Stock, purse: &mut Purse)
    requires due { MayGiveRest stock.old purse.old.spares }
    ensures { GivesRest stock.old stock.new purse.old.spares purse.new.spares }
{
    let _spare = purse.next();
    stock.give(purse);
}

/// Notes that an action is done, and with it the end of a command that does not plan. Takes no memory.
pub(crate) fn note_done(ledger: &mut Ledger, planned: bool, of: u64, event: Event)
    requires { gone_by planned ≤ ledger.old.promised }
    ensures { NotesDone planned of event ledger.old ledger.new }
{
    ledger.push(event);
    if !planned {
        let how = How::Fine;
        ledger.push(Event::Ended { of, how });
    }
}

/// The command goes on where it plans, with one action more that is done, and ends otherwise. Takes no memory;
/// the allocator is that of the list of loads.
pub(crate) fn close_done(
    alloc: Global,
    command: &mut Option<Command>,
    job: &mut Option<Box<Job>>,
    planned: bool,
    shard: u32,
    to: Option<u8>,
)
    requires { MayCloseDone planned command.old (is_some job.old) }
    ensures { ClosesDone planned shard to command.old command.new (option_map (λ j. job_of j.value) job.new) }
{
    if planned {
        count_done(alloc, command, shard, to);
        advance(command, job);
    } else {
        *command = None;
        *job = None;
    }
}

/// One action more of a balance is done.
fn count_done(alloc: Global, command: &mut Option<Command>, shard: u32, to: Option<u8>)
    requires { MayCount command.old }
    ensures { CountsDone shard to command.old command.new }
{
    if let Some(command) = command {
        count_for(alloc, command, shard, to);
    }
}

/// So it is of a command that is a balance.
fn count_for(alloc: Global, command: &mut Command, shard: u32, to: Option<u8>)
    requires { MayCount (Some command.old) }
    ensures { CountsDone shard to (Some command.old) (Some command.new) }
{
    if let Work::Balance(balance) = &mut command.work {
        count_in(alloc, balance, shard, to);
    }
}

/// Counts an action that is done; after a move the loads stand where they do now.
fn count_in(alloc: Global, balance: &mut Balance, shard: u32, to: Option<u8>)
    requires few { balance.old.done + 1 < 2 ^ 8 }
    ensures { balance.new ≡ with_one_done shard to balance.old }
{
    balance.done += 1;
    if let Some(worker) = to {
        move_load(alloc, &mut balance.standing, shard, worker);
    }
}

/// The load of the shard stands on the worker. The list is empty in between, which takes no memory.
fn move_load(alloc: Global, loads: &mut Items<Load>, shard: u32, worker: u8)
    ensures { loads.new ≡ after_move loads.old shard worker }
{
    let mut standing = mem::replace(loads, Items::new(alloc)).into_vec();
    move_shard(standing.as_mut_slice(), shard, worker);
    *loads = Items::from_vec(standing);
}
