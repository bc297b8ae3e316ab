//! How commands that are called end, and how a balance leaves an action.
ghost use Rattle.call_steps.specs.Calls.{CanEndCall, CanLeaveAction, HasEndedCall, HasLeftAction};
ghost use Rattle.session_steps.specs.seat_steps.specs.Floors.{Stands};

use row_ledger::How;
use session_steps::of_core_due::tell_bytes;
use session_steps::of_core_steps::NoteStep;
use session_steps::of_seat_steps::{Floor, Player, make_booked};
use session_steps::of_volap_cell::there;
use std::alloc::Global;
use std::sync::Wait;

/// The actor's command ends so. Takes no memory.
pub fn end_call<R: Wait>(rt: &R, alloc: Global, floor: &Floor, player: &mut Player, how: How)
    requires stands { Stands floor.now player.old }
    requires ends { CanEndCall floor.now how player.old }
    ensures ended { HasEndedCall floor.now how player.old player.new }
{
    let _ = make_booked(rt, alloc, floor, player, NoteStep::Ended { how });
}

/// The actor's balance leaves the action that it is at: one that was declined so, and one for which no memory was found
/// before its shard was frozen as postponed. Takes no memory.
pub fn leave_action<R: Wait>(rt: &R, alloc: Global, floor: &Floor, player: &mut Player)
    requires stands { Stands floor.now player.old }
    requires leaves { CanLeaveAction player.old }
    ensures left { HasLeftAction floor.now player.old player.new }
{
    tell_bytes(&floor.with, &there(&player.actor.command).work);
    let _ = make_booked(rt, alloc, floor, player, NoteStep::Left);
}
