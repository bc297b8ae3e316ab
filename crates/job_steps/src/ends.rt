//! How splits and moves are done, once every new block is in its cell.
ghost use Rattle.std.specs.Prelude.{◌≡◌, None, Some};
ghost use Rattle.seat_steps.specs.core_due.specs.Spares.{last_spare, spare_before};
ghost use Rattle.seat_steps.specs.core_steps.specs.declared.jobs.JobStep.TheVariants as job;
ghost use Rattle.job_steps.specs.Dues.{IsAtJob, IsJobDueAnyhow, IsToFinish};
ghost use Rattle.job_steps.specs.Jobs.{CameTo, HasJobOpen};
ghost use Rattle.seat_steps.specs.Floors.{Stands};
ghost use Rattle.seat_steps.specs.volap_cell.specs.Values.{JobValue, actor_of};

use crate::steps::{GATE, JobDid, TABLE, make_end};
use crate::turns::{take_books, take_three, take_two};
use seat_steps::of_core_due::{last_two, works_can_be_made};
use seat_steps::of_core_steps::JobStep;
use seat_steps::{Floor, Player, take_first};
use std::alloc::Global;
use std::sync::Wait;

/// The shard is replaced: by two children, or by itself at a new gate of the worker to which it goes, whose table this is.
pub(crate) fn finish<R: Wait>(
    rt: &R,
    alloc: Global,
    floor: &Floor,
    player: &mut Player,
    map: u32,
    gate: u32,
    to: Option<u32>,
) -> JobDid
    requires stands { Stands floor.now player.old }
    requires at { IsAtJob floor.now player.old }
    requires finishes { IsToFinish floor.now (actor_of player.old.actor) map gate to }
    ensures came { CameTo floor.now result player.old player.new }
{
    match to {
        Some(to) => finish_move(rt, alloc, floor, player, map, gate, to),
        None => finish_split(rt, alloc, floor, player, map, gate),
    }
}

/// The shard is replaced by two children, whose gates get the cells of the purse's last two spares. Without them nothing is
/// due.
fn finish_split<R: Wait>(
    rt: &R,
    alloc: Global,
    floor: &Floor,
    player: &mut Player,
    map: u32,
    gate: u32,
) -> JobDid
    requires stands { Stands floor.now player.old }
    requires at { IsAtJob floor.now player.old }
    requires finishes { IsToFinish floor.now (actor_of player.old.actor) map gate None }
    ensures came { CameTo floor.now result player.old player.new }
{
    works_can_be_made();
    let (last, before) = spares_of(player);
    let Some(left) = last else {
        return JobDid::Waits;
    };
    let Some(right) = before else {
        return JobDid::Waits;
    };
    split(rt, alloc, floor, player, map, gate, left, right)
}

/// The cells of the last two spares of the actor's purse.
fn spares_of(player: &mut Player) -> (Option<u32>, Option<u32>)
    ensures last { result.0 ≡ last_spare (actor_of player.old.actor).purse }
    ensures before { result.1 ≡ spare_before (actor_of player.old.actor).purse }
    ensures same { player.new ≡ player.old }
{
    last_two(&mut player.actor.purse)
}

/// The same with the cells of the gates of the left child and of the right one.
fn split<R: Wait>(
    rt: &R,
    alloc: Global,
    floor: &Floor,
    player: &mut Player,
    map: u32,
    gate: u32,
    left: u32,
    right: u32,
) -> JobDid
    requires stands { Stands floor.now player.old }
    requires opened { HasJobOpen player.old }
    requires splits { (x : JobValue) → (actor_of player.old.actor).job ≡ Some x → x.to ≡ None }
    requires due { IsJobDueAnyhow floor.now player.old (job.FinishSplit map gate left right) }
    requires instead { IsJobDueAnyhow floor.now player.old job.Postpone }
    ensures came { CameTo floor.now result player.old player.new }
{
    take_first(rt, floor, player, map, TABLE);
    take_three(rt, floor, player, gate, left, right, GATE);
    take_books(rt, floor, player);
    let step = JobStep::FinishSplit {
        map,
        gate,
        left,
        right,
    };
    make_end(rt, alloc, floor, player, step)
}

/// The shard goes to a new gate of the worker whose table this is, which gets the cell of the purse's last spare. Without one
/// nothing is due.
fn finish_move<R: Wait>(
    rt: &R,
    alloc: Global,
    floor: &Floor,
    player: &mut Player,
    map: u32,
    gate: u32,
    to: u32,
) -> JobDid
    requires stands { Stands floor.now player.old }
    requires at { IsAtJob floor.now player.old }
    requires finishes { IsToFinish floor.now (actor_of player.old.actor) map gate (Some to) }
    ensures came { CameTo floor.now result player.old player.new }
{
    works_can_be_made();
    let Some(spare) = player.actor.purse.last() else {
        return JobDid::Waits;
    };
    let new = spare.cell;
    if to == map {
        stay(rt, alloc, floor, player, map, gate, new)
    } else {
        move_on(rt, alloc, floor, player, map, to, gate, new)
    }
}

/// The shard goes to the new gate of the same worker.
fn stay<R: Wait>(
    rt: &R,
    alloc: Global,
    floor: &Floor,
    player: &mut Player,
    map: u32,
    gate: u32,
    new: u32,
) -> JobDid
    requires stands { Stands floor.now player.old }
    requires opened { HasJobOpen player.old }
    requires due { IsJobDueAnyhow floor.now player.old (job.FinishHere map gate new) }
    requires instead { IsJobDueAnyhow floor.now player.old job.Postpone }
    ensures came { CameTo floor.now result player.old player.new }
{
    take_first(rt, floor, player, map, TABLE);
    take_two(rt, floor, player, gate, new, GATE);
    take_books(rt, floor, player);
    make_end(
        rt,
        alloc,
        floor,
        player,
        JobStep::FinishHere { map, gate, new },
    )
}

/// The shard goes to the new gate of another worker.
fn move_on<R: Wait>(
    rt: &R,
    alloc: Global,
    floor: &Floor,
    player: &mut Player,
    from: u32,
    to: u32,
    gate: u32,
    new: u32,
) -> JobDid
    requires stands { Stands floor.now player.old }
    requires opened { HasJobOpen player.old }
    requires due { IsJobDueAnyhow floor.now player.old (job.FinishMove from to gate new) }
    requires instead { IsJobDueAnyhow floor.now player.old job.Postpone }
    ensures came { CameTo floor.now result player.old player.new }
{
    take_two(rt, floor, player, from, to, TABLE);
    take_two(rt, floor, player, gate, new, GATE);
    take_books(rt, floor, player);
    let step = JobStep::FinishMove {
        from,
        to,
        gate,
        new,
    };
    make_end(rt, alloc, floor, player, step)
}
