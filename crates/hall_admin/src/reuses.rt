//! Cells of gates that are gone, which the administrator uses again before each of its calls.
ghost use Rattle.actor_run.specs.Called.{HasBegunNothing};
ghost use Rattle.hall_admin.specs.Callers.{IsCaller, StaysCaller};
ghost use Rattle.hall_admin.specs.Reuses.{AreLeftInUse};
ghost use Rattle.job_steps.specs.volap_cell.specs.declared.role.Role.TheVariants as is_role;

use job_steps::of_seat_steps::{Floor, Player};
use job_steps::reuse_cell;
use std::alloc::Global;
use std::sync::Wait;

/// The administrator, between two calls, uses cells of gates that are gone again, one after the other, until a query is pinned to
/// each such gate that is left. Takes no memory.
pub(crate) fn reuse_released<R: Wait>(rt: &R, alloc: Global, floor: &Floor, player: &mut Player)
    requires admin { IsCaller floor.now is_role.Admin player.old }
    ensures stays { StaysCaller floor.now is_role.Admin (HasBegunNothing player.old.number) player.old player.new }
    ensures in_use { AreLeftInUse floor.now player.new }
{
    for _ in rt.forever() {
        match reuse_cell(rt, alloc, floor, player) {
            Some(_) => {}
            None => return,
        }
    }
    unreachable!()
}
