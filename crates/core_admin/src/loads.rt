//! The step that reads the next load of a balance, and plans behind the last one.
ghost use Rattle.std.specs.Prelude.{◌≡◌, ◌<◌, ◌≤◌, ◌^◌, [], ◌∷◌, None, Some, length, slice_get, slice_set, option_map, vec_capacity};
ghost use Rattle.balancer.specs.Turn.{rows_of_all};
ghost use Rattle.core_admin.specs.LoadDue.{CanNote, CanRead, CanReadLoad, NotesLoad, ReadsIn};
ghost use Rattle.shard_plan.specs.Balancing.{plan};
ghost use Rattle.shard_plan.specs.declared.action.Load.{Load};
ghost use Rattle.core_tree.specs.volap_cell.specs.AdminKinds.{rows_at};
ghost use Rattle.core_tree.specs.volap_cell.specs.Cells.{cell_of};
ghost use Rattle.core_tree.specs.volap_cell.specs.Planning.{HasLoadNext, next_job};
ghost use Rattle.core_tree.specs.volap_cell.specs.Steps.{IsHere, Makes};
ghost use Rattle.core_tree.specs.volap_cell.specs.Values.{actor_of, job_of};
ghost use Rattle.core_tree.specs.volap_cell.specs.World.{change, held};
ghost use Rattle.core_tree.specs.volap_cell.specs.declared.kind.Kind.TheVariants.{LookUp};

use balancer::plan_into;
use core_tree::shard_store::Gate;
use core_tree::tree_shape::tree_laws;
use core_tree::volap_cell::{
    ActionPlan, Actor, Balance, Cell, Command, Job, Work, gate_seen, lent,
};
use dim_hierarchy::{Hierarchy, Items};
use shard_plan::{Action, Load};
use std::alloc::Global;
use std::mem;

/// Reads the next load of the actor's balance: the rows of tree and queue of the gate, to which the table of
/// the load's worker leads. After the last load the actions are planned, for so many workers, and the job of
/// the first one begins, in the room and the box that were taken when the balance began. Takes no memory; the
/// allocator is that of the lists.
pub fn read_load(
    alloc: Global,
    h: &Hierarchy,
    map_at: u32,
    map: &mut Cell,
    gate_at: u32,
    gate: &mut Cell,
    actor: &mut Actor,
    workers: u8,
)
    requires here { IsHere h.now (held map_at (cell_of map.old) ∷ held gate_at (cell_of gate.old) ∷ []) (actor_of actor.old) }
    requires due { CanReadLoad workers (cell_of map.old) gate_at (actor_of actor.old) }
    ensures made { Makes h.now LookUp
        (change map_at (cell_of map.old) (cell_of map.new) ∷ change gate_at (cell_of gate.old) (cell_of gate.new) ∷ [])
        (actor_of actor.old) (actor_of actor.new) }
{
    let _ = h;
    let _ = map_at;
    let _ = map;
    let _ = gate_at;
    tree_laws();
    let rows = rows_in(gate_seen(gate));
    let command = lent(&mut actor.command);
    actor.job = read_in(alloc, command, rows, workers);
}

/// How many rows a gate has in its tree and its queue.
fn rows_in(gate: &Gate) -> u64
    requires few { rows_at gate.now < 2 ^ 32 }
    ensures value { result ≡ rows_at gate.now }
{
    gate.agg.count() + gate.queue.rows.len() as u64
}

/// Reads the next load of a command that is a balance, and gives the job of its first action, where that is
/// planned then.
fn read_in(alloc: Global, command: &mut Command, rows: u64, workers: u8) -> Option<Box<Job>>
    requires due { CanRead command.old rows }
    ensures { ReadsIn command.old rows workers command.new (option_map (λ j. job_of j.value) result) }
{
    let Work::Balance(balance) = &mut command.work else {
        unreachable!()
    };
    note_load(alloc, balance, rows, workers)
}

/// Notes the rows of a balance's next load, and plans its actions behind the last one.
fn note_load(alloc: Global, balance: &mut Balance, rows: u64, workers: u8) -> Option<Box<Job>>
    requires due { CanNote balance.old rows }
    ensures { NotesLoad balance.old rows workers balance.new (option_map (λ j. job_of j.value) result) }
{
    set_rows(alloc, &mut balance.loads, balance.read, rows);
    set_rows(alloc, &mut balance.standing, balance.read, rows);
    balance.read += 1;
    if balance.read as usize != balance.loads.len() {
        return None;
    }
    plan_actions(alloc, balance, workers)
}

/// Sets the rows of one of the loads. The list is empty in between, which takes no memory.
fn set_rows(alloc: Global, loads: &mut Items<Load>, at: u32, rows: u64)
    requires within { at < length loads.old }
    ensures { (load : Load) → slice_get loads.old at ≡ Some load → loads.new ≡ slice_set loads.old at (record load { rows = rows }) }
{
    let mut now = mem::replace(loads, Items::new(alloc)).into_vec();
    let load = now[at as usize];
    now[at as usize] = Load {
        shard: load.shard,
        worker: load.worker,
        rows,
    };
    *loads = Items::from_vec(now);
}

/// Plans the actions of a balance whose loads are read, in the room that it has for them, and gives the job of
/// the first one, in its box.
fn plan_actions(alloc: Global, balance: &mut Balance, workers: u8) -> Option<Box<Job>>
    requires none { balance.old.plan ≡ None }
    requires same { balance.old.standing ≡ balance.old.loads }
    requires few { rows_of_all balance.old.loads < 2 ^ 63 }
    ensures plan { balance.new ≡ record balance.old { plan = Some (plan balance.old.loads workers balance.old.most) } }
    ensures job { option_map (λ j. job_of j.value) result ≡ next_job balance.new }
{
    let unmade = mem::replace(&mut balance.plan, ActionPlan::from_vec(Vec::new(alloc)));
    let (mut actions, first) = unmade.into_room();
    let loads = balance.loads.as_slice();
    plan_among(
        alloc,
        loads,
        &mut balance.standing,
        &mut actions,
        workers,
        balance.most,
    );
    balance.plan = ActionPlan::from_vec(actions);
    first_job(first, balance)
}

/// Plans at most so many actions for these loads into an empty list with room for them. The second list of
/// the same loads is lent for that, and is as it was behind it.
fn plan_among(
    alloc: Global,
    loads: &[Load],
    standing: &mut Items<Load>,
    actions: &mut Vec<Action>,
    workers: u8,
    most: u8,
)
    requires same { standing.old ≡ loads.now }
    requires few { rows_of_all loads.now < 2 ^ 63 }
    requires none { actions.old.items ≡ [] }
    requires room { most ≤ vec_capacity actions.old }
    ensures plan { actions.new.items ≡ plan loads.now workers most }
    ensures same { standing.new ≡ loads.now }
{
    let mut moved = mem::replace(standing, Items::new(alloc)).into_vec();
    plan_into(moved.as_mut_slice(), actions, workers, most);
    moved.as_mut_slice().copy_from_slice(loads);
    *standing = Items::from_vec(moved);
}

/// The job of the action that a balance is at, if there is one, in this box.
fn first_job(mut first: Box<Job>, balance: &Balance) -> Option<Box<Job>>
    requires { HasLoadNext balance.now }
    ensures { option_map (λ j. job_of j.value) result ≡ next_job balance.now }
{
    let action = balance.plan.get(balance.over)?;
    *first = Job::of_action(balance.standing.as_slice(), action);
    Some(first)
}
