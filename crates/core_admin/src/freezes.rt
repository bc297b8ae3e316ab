//! A shard is frozen for a job, and its tree runs empty of inserts.
ghost use Rattle.std.specs.Prelude.{◌≡◌, ◌^◌, ◌<◌, ◌≤◌, [], ◌∷◌, length, None, OnOk, OnErr, IfSome};
ghost use Rattle.core_admin.specs.FreezeDue.{BeginsCollecting, CanDrain, CanFreeze, FreezesFor, FreezesOr, IsFreezable, IsFrozenJob, TakesFor};
ghost use Rattle.core_tree.specs.volap_cell.specs.AdminKinds.{HasOnePlace, IsDivided, cells_needed};
ghost use Rattle.core_tree.specs.volap_cell.specs.Cells.{cell_of};
ghost use Rattle.core_tree.specs.volap_cell.specs.Steps.{IsHere, Makes};
ghost use Rattle.core_tree.specs.volap_cell.specs.Values.{IsDeclined, actor_of, job_of};
ghost use Rattle.core_tree.specs.volap_cell.specs.World.{change, held};
ghost use Rattle.core_tree.specs.volap_cell.specs.declared.kind.Kind.TheVariants.{Drained, Freeze};

use cell_stock::{Purse, Stock};
use core_tree::shard_store::{CellList, Gate, RowList};
use core_tree::tree_shape::{collect_laws, tree_laws};
use core_tree::volap_cell::{
    Actor, Cell, Collecting, Frozen, Job, NoteRoom, Stage, gate_in, gate_seen, lent, stock_in,
};
use dc_node::Item;
use describing_set::{DescSet, Plane, plane_of};
use dim_hierarchy::Hierarchy;
use row_ledger::Decline;
use shard_plan::{cells_for, split_need};
use std::alloc::{AllocError, Global};
use std::mem;

/// So many stamps there are.
const STAMPS: u64 = 1 << 63;

/// Freezes the shard of the actor's job, anew where it is frozen already: its inserts go to the queue from
/// then on, and the cells that the job needs are in the purse. Declines a split of rows that have one
/// place, and then a job for which there are fewer cells than it needs. The room for the note of the root
/// is taken first, and the room in the purse; where memory is wanting for these, or no stamps are left,
/// nothing changes.
pub fn freeze(
    alloc: Global,
    h: &Hierarchy,
    map_at: u32,
    map: &mut Cell,
    gate_at: u32,
    gate: &mut Cell,
    stock_at: u32,
    stock: &mut Cell,
    actor: &mut Actor,
) -> Result<(), AllocError>
    requires here { IsHere h.now (held map_at (cell_of map.old) ∷ held gate_at (cell_of gate.old) ∷ held stock_at (cell_of stock.old) ∷ []) (actor_of actor.old) }
    requires due { CanFreeze map_at (cell_of map.old) gate_at (cell_of stock.old) (actor_of actor.old) }
    ensures made { OnOk result (Makes h.now Freeze
        (change map_at (cell_of map.old) (cell_of map.new) ∷ change gate_at (cell_of gate.old) (cell_of gate.new) ∷ change stock_at (cell_of stock.old) (cell_of stock.new) ∷ [])
        (actor_of actor.old) (actor_of actor.new)) }
    ensures refused { OnErr result ((map.new ≡ map.old) × (gate.new ≡ gate.old) × (stock.new ≡ stock.old)
        × (actor_of actor.new ≡ actor_of actor.old)) }
{
    let _ = map_at;
    let _ = map;
    let _ = stock_at;
    tree_laws();
    let job = lent(&mut actor.job);
    let gate = gate_in(gate);
    let stock = stock_in(stock);
    freeze_for(alloc, h, gate_at, gate, stock, &mut actor.purse, job)
}

/// Looks whether the rows of tree and queue can be divided as the job needs it.
fn freeze_for(
    alloc: Global,
    h: &Hierarchy,
    gate_at: u32,
    gate: &mut Gate,
    stock: &mut Stock,
    purse: &mut Purse,
    job: &mut Job,
) -> Result<(), AllocError>
    requires gate { IsFreezable h.now gate.old }
    ensures made { OnOk result (FreezesFor h.now gate_at gate.old gate.new stock.old stock.new purse.old purse.new (job_of job.old) (job_of job.new)) }
    ensures refused { OnErr result ((gate.new ≡ gate.old) × (stock.new ≡ stock.old) × (purse.new.spares ≡ purse.old.spares) × (job_of job.new ≡ job_of job.old)) }
{
    let set = gate.set.join(h, &gate.queue.set);
    let Some(plane) = plane_for(job.to, &set) else {
        decline(job, Decline::OnePlace);
        return Ok(());
    };
    freeze_or(alloc, h, gate_at, plane, gate, stock, purse, job)
}

/// Looks whether there are enough cells, takes these, and freezes the gate. What can fail comes first.
fn freeze_or(
    alloc: Global,
    h: &Hierarchy,
    gate_at: u32,
    plane: Option<Plane>,
    gate: &mut Gate,
    stock: &mut Stock,
    purse: &mut Purse,
    job: &mut Job,
) -> Result<(), AllocError>
    requires gate { IsFreezable h.now gate.old }
    ensures made { OnOk result (FreezesOr gate_at plane gate.old gate.new stock.old stock.new purse.old purse.new (job_of job.old) (job_of job.new)) }
    ensures refused { OnErr result ((gate.new ≡ gate.old) × (stock.new ≡ stock.old) × (purse.new.spares ≡ purse.old.spares) × (job_of job.new ≡ job_of job.old)) }
{
    let _ = h;
    let rows = gate.agg.count() + gate.queue.rows.len() as u64;
    let need = need_for(job.to, rows);
    let free = stock.free();
    if free < need {
        decline(job, Decline::NoCell { need, free });
        return Ok(());
    }
    let room = NoteRoom::new(alloc)?;
    take(need, stock, purse)?;
    gate.freeze();
    let frozen = Frozen {
        gate: gate_at,
        plane,
        rows,
    };
    job.stage = Stage::Frozen(frozen, room);
    Ok(())
}

/// The job is declined.
fn decline(job: &mut Job, why: Decline)
    ensures { job_of job.new ≡ record (job_of job.old) { stage = IsDeclined why } }
{
    job.stage = Stage::Declined(why);
}

/// The plane by which a split divides rows of this set, and none for a move. None at all where a split has
/// none.
fn plane_for(to: Option<u8>, set: &DescSet) -> Option<Option<Plane>>
    ensures none { result ≡ None → HasOnePlace to set.now }
    ensures some { IfSome result (IsDivided to set.now) }
{
    match to {
        Some(_) => Some(None),
        None => cut_for(set),
    }
}

/// The plane of a split, where there is one.
fn cut_for(set: &DescSet) -> Option<Option<Plane>>
    ensures none { result ≡ None → HasOnePlace None set.now }
    ensures some { IfSome result (IsDivided None set.now) }
{
    match plane_of(set) {
        None => None,
        Some(plane) => Some(Some(plane)),
    }
}

/// How many cells a job needs for so many rows.
fn need_for(to: Option<u8>, rows: u64) -> u64
    requires few { rows < 2 ^ 32 }
    ensures value { result ≡ cells_needed to rows }
    ensures few { result < 2 ^ 42 }
{
    match to {
        None => split_need(rows),
        Some(_) => 1 + cells_for(rows),
    }
}

/// Takes `n` cells, which are free, from the stock. The room for them is made before that.
fn take(n: u64, stock: &mut Stock, purse: &mut Purse) -> Result<(), AllocError>
    requires few { n < 2 ^ 42 }
    requires free { n ≤ length stock.old.free }
    ensures ok { OnOk result (TakesFor n stock.old stock.new purse.old purse.new) }
    ensures err { OnErr result ((stock.new ≡ stock.old) × (purse.new.spares ≡ purse.old.spares)) }
{
    if STAMPS - n <= stock.stamps() {
        return Err(AllocError);
    }
    purse.reserve(n)?;
    let _taken = stock.take(n, purse);
    Ok(())
}

/// Goes on to collect the rows of the frozen shard, in whose tree no insert is any more. The root is noted,
/// in the room that was taken for that when the shard was frozen. Takes no memory; the allocator is that of
/// the lists of what is collected.
pub fn drained(alloc: Global, h: &Hierarchy, gate_at: u32, gate: &mut Cell, actor: &mut Actor)
    requires here { IsHere h.now (held gate_at (cell_of gate.old) ∷ []) (actor_of actor.old) }
    requires due { CanDrain gate_at (cell_of gate.old) (actor_of actor.old) }
    ensures made { Makes h.now Drained (change gate_at (cell_of gate.old) (cell_of gate.new) ∷ []) (actor_of actor.old) (actor_of actor.new) }
{
    let _ = h;
    let _ = gate_at;
    collect_laws();
    let job = lent(&mut actor.job);
    let gate = gate_seen(gate);
    begin_collecting(alloc, gate, job);
}

/// Nothing is collected yet, and the gate's root is noted. Takes no memory.
fn begin_collecting(alloc: Global, gate: &Gate, job: &mut Job)
    requires frozen { IsFrozenJob (job_of job.old) }
    ensures { BeginsCollecting gate.now (job_of job.old) (job_of job.new) }
{
    let Stage::Frozen(frozen, room) = mem::replace(&mut job.stage, Stage::Called) else {
        unreachable!()
    };
    let root = Item {
        cell: gate.root,
        stamp: gate.stamp,
    };
    job.stage = Stage::Collecting(Collecting {
        frozen,
        todo: room.note(root),
        read: CellList::new(alloc),
        queued: 0,
        rows: RowList::new(alloc),
    });
}

/// The same findings, without taking memory.
pub(crate) fn copy_of(frozen: &Frozen) -> Frozen
    ensures { result ≡ frozen.now }
{
    Frozen {
        gate: frozen.gate,
        plane: match &frozen.plane {
            None => None,
            Some(plane) => Some(plane.copy()),
        },
        rows: frozen.rows,
    }
}
