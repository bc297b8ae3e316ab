//! The step that is due for the split, the move or the balance that the administrator has open.
ghost use Rattle.std.specs.Prelude.{ℕ, ◌≡◌, [], ◌∷◌, IsSome, None, Some, option_map};
ghost use Rattle.seat_steps.specs.core_due.specs.Look.{setting_by};
ghost use Rattle.seat_steps.specs.core_due.specs.Works.{collect_by};
ghost use Rattle.job_steps.specs.Dues.{IsAtJob, IsToBuild, IsToCollect, IsToDrain, IsToFreeze, LeadsTo, last_unbuilt, stopped};
ghost use Rattle.job_steps.specs.Jobs.{CameTo, HasJobOpen};
ghost use Rattle.seat_steps.specs.Booked.{IsUnchanged};
ghost use Rattle.seat_steps.specs.Floors.{IsSeated, Stands};
ghost use Rattle.seat_steps.specs.declared.floor.Player.{Player};
ghost use Rattle.seat_steps.specs.declared.looks.Lead.TheVariants as lead;
ghost use Rattle.seat_steps.specs.volap_cell.specs.ImageKinds.{doing};
ghost use Rattle.seat_steps.specs.volap_cell.specs.Setting.{map_cell};
ghost use Rattle.seat_steps.specs.volap_cell.specs.Values.{actor_of, building_of};
ghost use Rattle.seat_steps.specs.volap_cell.specs.declared.command.Work.{Work};

use crate::balances::go_on_without_job;
use crate::ends::finish;
use crate::looks::{has_more_at, is_drained_at};
use crate::steps::{BLOCK, GATE, JobDid, STOCK, TABLE, make_job, make_or_give_up};
use row_ledger::How;
use seat_steps::of_core_due::{last_noted, map_at, tell_bytes, works_can_be_made};
use seat_steps::of_core_steps::{JobStep, stock_place};
use seat_steps::of_volap_cell::{Building, Stage, Work, there};
use seat_steps::{Floor, Lead, Player, give_all, lead_at, take, take_first};
use std::alloc::Global;
use std::sync::Wait;

/// The actor goes on with its split, its move or its balance by one step, for which it waits for the turns of the cells.
/// Where it finds no memory before the shard is frozen, the command is due to end so, or the balance to leave the action;
/// behind that the action is given up.
pub fn go_on_with_job<R: Wait>(rt: &R, alloc: Global, floor: &Floor, player: &mut Player) -> JobDid
    requires stands { Stands floor.now player.old }
    requires opened { HasJobOpen player.old }
    ensures came { CameTo floor.now result player.old player.new }
{
    tell_bytes(&floor.with, &there(&player.actor.command).work);
    go_on(rt, alloc, floor, player)
}

/// The same, with what the numbers of its work tell.
fn go_on<R: Wait>(rt: &R, alloc: Global, floor: &Floor, player: &mut Player) -> JobDid
    requires stands { Stands floor.now player.old }
    requires at { IsAtJob floor.now player.old }
    ensures came { CameTo floor.now result player.old player.new }
{
    let Some(job) = &player.actor.job else {
        return go_on_without_job(rt, alloc, floor, player);
    };
    let map = map_at(&floor.with, job.worker);
    match &job.stage {
        Stage::Called => {
            let shard = job.shard;
            freeze(rt, alloc, floor, player, map, shard)
        }
        Stage::Declined(why) => {
            let why = *why;
            stop(player, How::Declined(why))
        }
        Stage::Frozen(frozen, _) => {
            let gate = frozen.gate;
            drain(rt, alloc, floor, player, gate)
        }
        Stage::Collecting(collecting) => {
            let noted = last_noted(&collecting.todo);
            let (gate, queued) = (collecting.frozen.gate, collecting.queued);
            collect(rt, alloc, floor, player, noted, gate, queued)
        }
        Stage::Building(building) => match last_unbuilt(building) {
            Some(cell) => build(rt, alloc, floor, player, cell),
            None => {
                let gate = building.frozen.gate;
                let to = table_to(floor, job.to);
                finish(rt, alloc, floor, player, map, gate, to)
            }
        },
    }
}

/// The table of the worker to which a shard goes, if it does.
fn table_to(floor: &Floor, to: Option<u8>) -> Option<u32>
    ensures { result ≡ option_map (map_cell (setting_by [] floor.now.with)) to }
{
    match to {
        Some(worker) => Some(map_at(&floor.with, worker)),
        None => None,
    }
}

/// What is due in place of a job that isn't frozen yet, or is declined: the command ends so, and a balance leaves its
/// action.
fn stop(player: &Player, how: How) -> JobDid
    requires opened { IsSome (actor_of player.now.actor).command }
    ensures { (of : ℕ) → (work : Work) → (actor_of player.now.actor).command ≡ doing of work → result ≡ stopped work how }
{
    match &there(&player.actor.command).work {
        Work::Balance(_) => JobDid::Leaves,
        _ => JobDid::Ends(how),
    }
}

/// The shard is frozen at the gate to which the table of its worker leads, or the job is declined.
fn freeze<R: Wait>(
    rt: &R,
    alloc: Global,
    floor: &Floor,
    player: &mut Player,
    map: u32,
    shard: u32,
) -> JobDid
    requires stands { Stands floor.now player.old }
    requires at { IsAtJob floor.now player.old }
    requires called { IsToFreeze floor.now (actor_of player.old.actor) map shard }
    ensures came { CameTo floor.now result player.old player.new }
{
    works_can_be_made();
    take_first(rt, floor, player, map, TABLE);
    match lead_at(floor, player, map, shard) {
        Lead::Gate(gate) => freeze_at(rt, alloc, floor, player, map, gate, shard),
        _ => {
            give_all(floor, player);
            JobDid::Waits
        }
    }
}

/// The same at the gate to which the held table leads.
fn freeze_at<R: Wait>(
    rt: &R,
    alloc: Global,
    floor: &Floor,
    player: &mut Player,
    map: u32,
    gate: u32,
    shard: u32,
) -> JobDid
    requires seated { IsSeated floor.now player.old }
    requires at { IsAtJob floor.now player.old }
    requires called { IsToFreeze floor.now (actor_of player.old.actor) map shard }
    requires held { player.old.seat.ranks ≡ (map, Some 1) ∷ [] }
    requires led { LeadsTo player.old map shard (lead.Gate gate) }
    ensures came { (p : Player) → IsUnchanged p player.old → HasJobOpen p → CameTo floor.now result p player.new }
{
    works_can_be_made();
    take(rt, floor, player, gate, GATE);
    take(rt, floor, player, stock_place(), STOCK);
    match make_job(alloc, floor, player, JobStep::Freeze { map, gate }) {
        Ok(()) => JobDid::Step,
        Err(_) => stop(player, How::NoMemory),
    }
}

/// The job, whose shard is frozen, goes on to collect rows once no insert is in the tree.
fn drain<R: Wait>(rt: &R, alloc: Global, floor: &Floor, player: &mut Player, gate: u32) -> JobDid
    requires stands { Stands floor.now player.old }
    requires at { IsAtJob floor.now player.old }
    requires frozen { IsToDrain (actor_of player.old.actor) gate }
    ensures came { CameTo floor.now result player.old player.new }
{
    works_can_be_made();
    take_first(rt, floor, player, gate, GATE);
    if !is_drained_at(floor, player, gate) {
        give_all(floor, player);
        return JobDid::Waits;
    }
    let _ = make_job(alloc, floor, player, JobStep::Drained { gate });
    JobDid::Step
}

/// The job collects the rows of the block that it noted last, and behind the last block it goes on at the gate.
fn collect<R: Wait>(
    rt: &R,
    alloc: Global,
    floor: &Floor,
    player: &mut Player,
    noted: Option<u32>,
    gate: u32,
    queued: u64,
) -> JobDid
    requires stands { Stands floor.now player.old }
    requires at { IsAtJob floor.now player.old }
    requires collects { IsToCollect (actor_of player.old.actor) noted gate queued }
    ensures came { CameTo floor.now result player.old player.new }
{
    let Some(block) = noted else {
        return collect_at(rt, alloc, floor, player, gate, queued);
    };
    works_can_be_made();
    take_first(rt, floor, player, block, BLOCK);
    make_or_give_up(rt, alloc, floor, player, JobStep::CollectBlock { block })
}

/// The job, which has read every block, collects the next row of the gate's queue, or makes the new trees.
fn collect_at<R: Wait>(
    rt: &R,
    alloc: Global,
    floor: &Floor,
    player: &mut Player,
    gate: u32,
    queued: u64,
) -> JobDid
    requires stands { Stands floor.now player.old }
    requires at { IsAtJob floor.now player.old }
    requires collects { IsToCollect (actor_of player.old.actor) None gate queued }
    ensures came { CameTo floor.now result player.old player.new }
{
    works_can_be_made();
    take_first(rt, floor, player, gate, GATE);
    let step = next_at(gate, has_more_at(floor, player, gate, queued));
    make_or_give_up(rt, alloc, floor, player, step)
}

/// What is collected at the gate next: a row of its queue if there is one more, or else all, and the trees are made.
fn next_at(gate: u32, more: bool) -> JobStep
    ensures { result ≡ collect_by gate None more }
{
    if more {
        JobStep::CollectRow { gate }
    } else {
        JobStep::BuildTrees { gate }
    }
}

/// The cell of the last new block that isn't there yet.
fn last_unbuilt(building: &Building) -> Option<u32>
    ensures { result ≡ option_map (λ u. u.cell) (last_unbuilt (building_of building.now)) }
{
    match building.unbuilt.as_slice().last() {
        Some(unbuilt) => Some(unbuilt.cell),
        None => None,
    }
}

/// The last new block that isn't in its cell is put there.
fn build<R: Wait>(rt: &R, alloc: Global, floor: &Floor, player: &mut Player, cell: u32) -> JobDid
    requires stands { Stands floor.now player.old }
    requires at { IsAtJob floor.now player.old }
    requires builds { IsToBuild (actor_of player.old.actor) cell }
    ensures came { CameTo floor.now result player.old player.new }
{
    works_can_be_made();
    take_first(rt, floor, player, cell, BLOCK);
    let _ = make_job(alloc, floor, player, JobStep::BuildBlock { cell });
    JobDid::Step
}
