//! What the calls of an administrator and of a puller do at their seats.
ghost use Rattle.std.specs.Prelude.{◌<◌};
ghost use Rattle.actor_run.specs.Called.{NotCalled, TriesCall};
ghost use Rattle.hall_admin.specs.Callers.{IsCaller, StaysCaller};
ghost use Rattle.hall_admin.specs.Jobs.{IsOfJob};
ghost use Rattle.hall_admin.specs.Pulls.{TriesSync};
ghost use Rattle.row_ledger.specs.Classes.{class_of};
ghost use Rattle.job_steps.specs.volap_cell.specs.declared.role.Role.{Role};
ghost use Rattle.job_steps.specs.volap_cell.specs.declared.role.Role.TheVariants as is_role;

use crate::driving::drive;
use crate::puller::Synced;
use crate::reuses::reuse_released;
use actor_run::of_call_steps::begin_call;
use actor_run::of_session_steps::note_refused;
use job_steps::of_seat_steps::{Floor, Player};
use row_ledger::{Call, How};
use std::alloc::{AllocError, Global};
use std::sync::Wait;

/// The administrator makes the call, to its end. Before it begins, cells of gates that are gone are used again. It is an error
/// where memory is wanting and nothing of the call stands in the history.
pub(crate) fn make_call<R: Wait>(
    rt: &R,
    alloc: Global,
    floor: &Floor,
    player: &mut Player,
    call: &Call,
) -> Result<How, AllocError>
    requires admin { IsCaller floor.now is_role.Admin player.old }
    requires job { IsOfJob (class_of call.now) }
    ensures ends { StaysCaller floor.now is_role.Admin (TriesCall floor.now player.old.number call.now result) player.old player.new }
{
    reuse_released(rt, alloc, floor, player);
    match begin_call(rt, alloc, floor, player, call) {
        Ok(_) => Ok(drive(rt, alloc, floor, player)),
        Err(_) => {
            refuse(rt, alloc, floor, player)?;
            Ok(How::NoMemory)
        }
    }
}

/// The puller makes the call that the server pulls. It is an error where memory is wanting and nothing of the call stands in the
/// history.
pub(crate) fn pull_for<R: Wait>(
    rt: &R,
    alloc: Global,
    floor: &Floor,
    player: &mut Player,
    server: u8,
) -> Result<Synced, AllocError>
    requires puller { IsCaller floor.now is_role.Puller player.old }
    requires server { server < floor.now.with.servers }
    ensures ends { StaysCaller floor.now is_role.Puller (TriesSync floor.now player.old.number server result) player.old player.new }
{
    match actor_run::of_call_steps::sync(rt, alloc, floor, player, server) {
        actor_run::of_call_steps::Synced::Ok(_) => Ok(Synced::Ok),
        actor_run::of_call_steps::Synced::Failed(_) => Ok(Synced::NoMemory),
        actor_run::of_call_steps::Synced::NotBegun => {
            refuse(rt, alloc, floor, player)?;
            Ok(Synced::NoMemory)
        }
    }
}

/// The actor notes that its next command finds no memory. It is an error where there is none for that.
fn refuse<R: Wait>(
    rt: &R,
    alloc: Global,
    floor: &Floor,
    player: &mut Player,
) -> Result<(), AllocError>
    requires caller { (role : Role) × IsCaller floor.now role player.old }
    ensures refused { (role : Role) → IsCaller floor.now role player.old → StaysCaller floor.now role (NotCalled player.old.number result) player.old player.new }
{
    note_refused(rt, alloc, floor, player)
}
