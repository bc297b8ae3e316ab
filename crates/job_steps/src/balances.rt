//! A balance with no action before it, and commands whose action doesn't stand.
ghost use Rattle.std.specs.Prelude.{◌≡◌, [], ◌∷◌, None, Some};
ghost use Rattle.job_steps.specs.Dues.{IsAtJob, IsToRead, LeadsTo};
ghost use Rattle.job_steps.specs.Jobs.{CameTo, HasJobOpen};
ghost use Rattle.row_ledger.specs.declared.settings.How.TheVariants.{Balanced};
ghost use Rattle.seat_steps.specs.Booked.{IsUnchanged};
ghost use Rattle.seat_steps.specs.Floors.{IsSeated, Stands};
ghost use Rattle.seat_steps.specs.declared.floor.Player.{Player};
ghost use Rattle.seat_steps.specs.declared.looks.Lead.TheVariants as lead;
ghost use Rattle.seat_steps.specs.volap_cell.specs.Values.{actor_of};

use crate::steps::{GATE, JobDid, TABLE, make_job};
use row_ledger::{Decline, How};
use seat_steps::of_core_due::{map_at, works_can_be_made};
use seat_steps::of_core_steps::JobStep;
use seat_steps::of_volap_cell::{Balance, Work, there};
use seat_steps::{Floor, Lead, Player, give_all, lead_at, take, take_first};
use std::alloc::Global;
use std::sync::Wait;

/// What is due without a job: a balance reads the next load, or ends once nothing is left of its plan; the shard of a split
/// or a move, or the worker that it was to go to, didn't stand.
pub(crate) fn go_on_without_job<R: Wait>(
    rt: &R,
    alloc: Global,
    floor: &Floor,
    player: &mut Player,
) -> JobDid
    requires stands { Stands floor.now player.old }
    requires at { IsAtJob floor.now player.old }
    requires no_job { (actor_of player.old.actor).job ≡ None }
    ensures came { CameTo floor.now result player.old player.new }
{
    works_can_be_made();
    let balance = match &there(&player.actor.command).work {
        Work::Balance(balance) => balance,
        Work::Action(_) => return JobDid::Ends(How::Declined(Decline::Unknown)),
        _ => return JobDid::Waits,
    };
    if !balance.plan.is_none() {
        return JobDid::Ends(end_of(balance));
    }
    match balance.loads.as_slice().get(balance.read as usize) {
        Some(load) => {
            let (map, shard) = (map_at(&floor.with, load.worker), load.shard);
            read_load(rt, alloc, floor, player, map, shard)
        }
        None => JobDid::Waits,
    }
}

/// How a balance ends.
fn end_of(balance: &Balance) -> How
    ensures { result ≡ Balanced balance.now.done balance.now.over }
{
    How::Balanced {
        done: balance.done,
        planned: balance.over,
    }
}

/// The balance reads how many rows the shard has, at the gate to which the table of its worker leads.
fn read_load<R: Wait>(
    rt: &R,
    alloc: Global,
    floor: &Floor,
    player: &mut Player,
    map: u32,
    shard: u32,
) -> JobDid
    requires stands { Stands floor.now player.old }
    requires at { IsAtJob floor.now player.old }
    requires reads { IsToRead floor.now (actor_of player.old.actor) map shard }
    ensures came { CameTo floor.now result player.old player.new }
{
    works_can_be_made();
    take_first(rt, floor, player, map, TABLE);
    match lead_at(floor, player, map, shard) {
        Lead::Gate(gate) => read_at(rt, alloc, floor, player, map, gate, shard),
        _ => {
            give_all(floor, player);
            JobDid::Waits
        }
    }
}

/// The same at the gate to which the held table leads.
fn read_at<R: Wait>(
    rt: &R,
    alloc: Global,
    floor: &Floor,
    player: &mut Player,
    map: u32,
    gate: u32,
    shard: u32,
) -> JobDid
    requires seated { IsSeated floor.now player.old }
    requires at { IsAtJob floor.now player.old }
    requires reads { IsToRead floor.now (actor_of player.old.actor) map shard }
    requires held { player.old.seat.ranks ≡ (map, Some 1) ∷ [] }
    requires led { LeadsTo player.old map shard (lead.Gate gate) }
    ensures came { (p : Player) → IsUnchanged p player.old → HasJobOpen p → CameTo floor.now result p player.new }
{
    works_can_be_made();
    take(rt, floor, player, gate, GATE);
    let step = JobStep::ReadLoad {
        map,
        gate,
        workers: floor.with.workers,
    };
    let _ = make_job(alloc, floor, player, step);
    JobDid::Step
}
