//! How commands that are called begin.
ghost use Rattle.std.specs.Prelude.{◌≡◌, true, false, IfOk, OnErr};
ghost use Rattle.call_steps.specs.Calls.{CanCall, HasCalled};
ghost use Rattle.row_ledger.specs.Classes.{class_of};
ghost use Rattle.session_steps.specs.seat_steps.specs.Booked.{IsAsBefore};
ghost use Rattle.session_steps.specs.seat_steps.specs.Floors.{Stands};
ghost use Rattle.session_steps.specs.volap_cell.specs.ImageKinds.{asks_registry};

use row_ledger::{Call, Class, Subject};
use session_steps::of_core_steps::{NoteStep, registry_place};
use session_steps::of_seat_steps::{Floor, Player, make_booked, take_first};
use session_steps::of_volap_cell::there;
use std::alloc::{AllocError, Global};
use std::sync::Wait;

/// The rank that is told for the registry.
pub(crate) const REGISTRY: u8 = 6;

/// The actor begins the call. The answer is the position of the event. Where memory is wanting, nothing changes.
pub fn begin_call<R: Wait>(
    rt: &R,
    alloc: Global,
    floor: &Floor,
    player: &mut Player,
    call: &Call,
) -> Result<u64, AllocError>
    requires stands { Stands floor.now player.old }
    requires begins { CanCall floor.now call.now player.old }
    ensures begun { IfOk result (λ of. HasCalled floor.now of call.now player.old player.new) }
    ensures same { OnErr result (IsAsBefore floor.now player.old player.new) }
{
    if asks_registry(call.class()) {
        begin_asking(rt, alloc, floor, player, call)
    } else {
        begin_alone(rt, alloc, floor, player, call)
    }
}

/// Whether a call of this class asks the registry what stands.
pub fn asks_registry(class: Class) -> bool
    ensures { result ≡ asks_registry class }
{
    matches!(
        class,
        Class::Action(_) | Class::Balance(_) | Class::Page(Subject::Tree(_))
    )
}

/// The same for a call that asks nothing of the registry.
fn begin_alone<R: Wait>(
    rt: &R,
    alloc: Global,
    floor: &Floor,
    player: &mut Player,
    call: &Call,
) -> Result<u64, AllocError>
    requires stands { Stands floor.now player.old }
    requires begins { CanCall floor.now call.now player.old }
    requires alone { asks_registry (class_of call.now) ≡ false }
    ensures begun { IfOk result (λ of. HasCalled floor.now of call.now player.old player.new) }
    ensures same { OnErr result (IsAsBefore floor.now player.old player.new) }
{
    make_booked(rt, alloc, floor, player, NoteStep::Called { call })?;
    Ok(there(&player.actor.command).of)
}

/// The same for a call that asks the registry what stands.
fn begin_asking<R: Wait>(
    rt: &R,
    alloc: Global,
    floor: &Floor,
    player: &mut Player,
    call: &Call,
) -> Result<u64, AllocError>
    requires stands { Stands floor.now player.old }
    requires begins { CanCall floor.now call.now player.old }
    requires asks { asks_registry (class_of call.now) ≡ true }
    ensures begun { IfOk result (λ of. HasCalled floor.now of call.now player.old player.new) }
    ensures same { OnErr result (IsAsBefore floor.now player.old player.new) }
{
    take_first(rt, floor, player, registry_place(), REGISTRY);
    let workers = floor.with.workers;
    make_booked(rt, alloc, floor, player, NoteStep::Asking { call, workers })?;
    Ok(there(&player.actor.command).of)
}
