//! A step of a job over the cells that the administrator holds, and what is done where it finds no memory.
ghost use Rattle.std.specs.Prelude.{◌≡◌, false, IsOk, OnErr, OnOk};
ghost use Rattle.seat_steps.specs.core_steps.specs.Jobs.{job_may_fail, job_places};
ghost use Rattle.seat_steps.specs.core_steps.specs.declared.jobs.JobStep.TheVariants.{Postpone};
ghost use Rattle.job_steps.specs.Dues.{IsEnd, IsJobDue, IsJobDueAnyhow, IsQuiet, over_by};
ghost use Rattle.job_steps.specs.Jobs.{CameTo, GoesOnWithJob, HasJobOpen};
ghost use Rattle.seat_steps.specs.Booked.{IsAsBefore, IsUnchanged};
ghost use Rattle.seat_steps.specs.Floors.{IsSeated, Stands};
ghost use Rattle.seat_steps.specs.declared.floor.Player.{Player};
ghost use Rattle.seat_steps.specs.volap_cell.specs.Values.{actor_of};
ghost use Rattle.seat_steps.specs.volap_turns.specs.Rows.{AreAt};

use row_ledger::How;
use seat_steps::of_core_steps::{JobStep, stock_place};
use seat_steps::of_volap_cell::Command;
use seat_steps::{Floor, Player, make, make_booked, take_first};
use std::alloc::{AllocError, Global};
use std::sync::Wait;

/// The ranks that are told for tables, gates, blocks, the registry and the stock.
pub(crate) const TABLE: u8 = 1;

pub(crate) const GATE: u8 = 2;

pub(crate) const BLOCK: u8 = 3;

pub(crate) const REGISTRY: u8 = 6;

pub(crate) const STOCK: u8 = 7;

/// What came of a split, a move or a balance.
#[derive(Clone, Copy)]
pub enum JobDid {
    /// It went on by a step.
    Step,
    /// The balance is past an action, which was done or given up.
    Passed,
    /// It waits for inserts that are in the tree of its shard, or for a table to lead there.
    Waits,
    /// It is due to end so.
    Ends(How),
    /// The balance is due to leave the action that it is at.
    Leaves,
    /// The split or the move has ended so.
    Ended(How),
}

/// The actor makes a step by which no action is over, over the cells that it holds. Where memory is wanting, nothing
/// changes.
pub(crate) fn make_job(
    alloc: Global,
    floor: &Floor,
    player: &mut Player,
    step: JobStep,
) -> Result<(), AllocError>
    requires seated { IsSeated floor.now player.old }
    requires opened { HasJobOpen player.old }
    requires quiet { IsQuiet step }
    requires at { AreAt (job_places step) player.old.seat.view.held }
    requires due { IsJobDue floor.now player.old step }
    ensures went { OnOk result (GoesOnWithJob floor.now player.old player.new) }
    ensures sure { job_may_fail step ≡ false → IsOk result }
    ensures same { OnErr result (IsAsBefore floor.now player.old player.new) }
{
    make(alloc, floor, player, step)
}

/// The same; where memory is wanting, the action is given up.
pub(crate) fn make_or_give_up<R: Wait>(
    rt: &R,
    alloc: Global,
    floor: &Floor,
    player: &mut Player,
    step: JobStep,
) -> JobDid
    requires seated { IsSeated floor.now player.old }
    requires opened { HasJobOpen player.old }
    requires quiet { IsQuiet step }
    requires at { AreAt (job_places step) player.old.seat.view.held }
    requires due { IsJobDue floor.now player.old step }
    requires instead { IsJobDueAnyhow floor.now player.old Postpone }
    ensures came { (p : Player) → IsUnchanged p player.old → HasJobOpen p → CameTo floor.now result p player.new }
{
    match make_job(alloc, floor, player, step) {
        Ok(()) => JobDid::Step,
        Err(_) => give_up(rt, alloc, floor, player),
    }
}

/// The actor gives up the action that it is at, whose shard is frozen and stays so: its cells go back to the stock. Takes no
/// memory.
pub(crate) fn give_up<R: Wait>(rt: &R, alloc: Global, floor: &Floor, player: &mut Player) -> JobDid
    requires stands { Stands floor.now player.old }
    requires opened { HasJobOpen player.old }
    requires due { IsJobDueAnyhow floor.now player.old Postpone }
    ensures came { (p : Player) → IsUnchanged p player.old → HasJobOpen p → CameTo floor.now result p player.new }
{
    take_first(rt, floor, player, stock_place(), STOCK);
    let _ = make_booked(rt, alloc, floor, player, JobStep::Postpone);
    over(&player.actor.command, How::Postponed)
}

/// How it is told that an action is over: the command that is left is a balance.
fn over(command: &Option<Command>, how: How) -> JobDid
    ensures { result ≡ over_by command.now how }
{
    match command {
        Some(_) => JobDid::Passed,
        None => JobDid::Ended(how),
    }
}

/// The actor makes the step by which its action is done, over the cells that it holds; where memory is wanting, the action
/// is given up.
pub(crate) fn make_end<R: Wait>(
    rt: &R,
    alloc: Global,
    floor: &Floor,
    player: &mut Player,
    step: JobStep,
) -> JobDid
    requires seated { IsSeated floor.now player.old }
    requires opened { HasJobOpen player.old }
    requires ends { IsEnd step (actor_of player.old.actor) }
    requires at { AreAt (job_places step) player.old.seat.view.held }
    requires due { IsJobDue floor.now player.old step }
    requires instead { IsJobDueAnyhow floor.now player.old Postpone }
    ensures came { (p : Player) → IsUnchanged p player.old → HasJobOpen p → CameTo floor.now result p player.new }
{
    match make(alloc, floor, player, step) {
        Ok(()) => over(&player.actor.command, How::Fine),
        Err(_) => give_up(rt, alloc, floor, player),
    }
}
