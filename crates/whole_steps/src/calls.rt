//! How commands that are called at the seat that has all actors begin, show their pages and end.
ghost use Rattle.std.specs.Prelude.{◌≡◌, ◌≤◌, true, false, length, OnErr, OnOk};
ghost use Rattle.call_steps.specs.Calls.{CanCall, CanEndCall};
ghost use Rattle.row_ledger.specs.Classes.{class_of};
ghost use Rattle.core_pages.specs.volap_cell.specs.ImageKinds.{IsFree, asks_registry};
ghost use Rattle.core_pages.specs.volap_cell.specs.Values.{actor_of};
ghost use Rattle.whole_steps.specs.Commands.{CanShow, HasCalledSole, HasEndedSole, HasShownSole};
ghost use Rattle.whole_steps.specs.Done.{HasNotBegun, HasNotedUnknown};
ghost use Rattle.whole_steps.specs.Sole.{HasWaited, StandsSole, player};

use crate::adds::add;
use crate::turns::take_turn;
use call_steps::asks_registry;
use call_steps::of_core_steps::{NoteStep, registry_place};
use call_steps::of_seat_steps::Floor;
use call_steps::of_volap_turns::Volap;
use core_pages::volap_cell::Actor;
use row_ledger::{Call, How, Page};
use std::alloc::{AllocError, Global};
use std::sync::Wait;
use turn_table::Seat;

/// The rank that is told for the registry.
pub(crate) const REGISTRY: u8 = 6;

/// The actor begins the call. Where memory is wanting, nothing changes.
pub fn begin_call<R: Wait>(
    rt: &R,
    alloc: Global,
    floor: &Floor,
    seat: &mut Seat<Volap>,
    number: u32,
    actor: &mut Actor,
    call: &Call,
) -> Result<(), AllocError>
    requires stands { StandsSole floor.now (player number actor.old seat.old) }
    requires begins { CanCall floor.now call.now (player number actor.old seat.old) }
    ensures begun { OnOk result (HasCalledSole floor.now call.now (player number actor.old seat.old) (player number actor.new seat.new)) }
    ensures same { OnErr result (HasWaited floor.now (player number actor.old seat.old) (player number actor.new seat.new)) }
{
    if asks_registry(call.class()) {
        begin_asking(rt, alloc, floor, seat, number, actor, call)
    } else {
        begin_alone(rt, alloc, floor, seat, number, actor, call)
    }
}

/// The same for a call that asks nothing of the registry.
fn begin_alone<R: Wait>(
    rt: &R,
    alloc: Global,
    floor: &Floor,
    seat: &mut Seat<Volap>,
    number: u32,
    actor: &mut Actor,
    call: &Call,
) -> Result<(), AllocError>
    requires stands { StandsSole floor.now (player number actor.old seat.old) }
    requires begins { CanCall floor.now call.now (player number actor.old seat.old) }
    requires alone { asks_registry (class_of call.now) ≡ false }
    ensures begun { OnOk result (HasCalledSole floor.now call.now (player number actor.old seat.old) (player number actor.new seat.new)) }
    ensures same { OnErr result (HasWaited floor.now (player number actor.old seat.old) (player number actor.new seat.new)) }
{
    let step = NoteStep::Called { call };
    add(rt, alloc, floor, seat, number, actor, step)
}

/// The same for a call that asks the registry what stands.
fn begin_asking<R: Wait>(
    rt: &R,
    alloc: Global,
    floor: &Floor,
    seat: &mut Seat<Volap>,
    number: u32,
    actor: &mut Actor,
    call: &Call,
) -> Result<(), AllocError>
    requires stands { StandsSole floor.now (player number actor.old seat.old) }
    requires begins { CanCall floor.now call.now (player number actor.old seat.old) }
    requires asks { asks_registry (class_of call.now) ≡ true }
    ensures begun { OnOk result (HasCalledSole floor.now call.now (player number actor.old seat.old) (player number actor.new seat.new)) }
    ensures same { OnErr result (HasWaited floor.now (player number actor.old seat.old) (player number actor.new seat.new)) }
{
    take_turn(rt, &floor.table, seat, registry_place(), REGISTRY);
    let workers = floor.with.workers;
    let step = NoteStep::Asking { call, workers };
    add(rt, alloc, floor, seat, number, actor, step)
}

/// The actor, which has nothing to do, notes that its next command names what is not known, first in this dimension. Where memory is
/// wanting, it has begun nothing.
pub fn note_unknown<R: Wait>(
    rt: &R,
    alloc: Global,
    floor: &Floor,
    seat: &mut Seat<Volap>,
    number: u32,
    actor: &mut Actor,
    dim: u8,
) -> Result<(), AllocError>
    requires stands { StandsSole floor.now (player number actor.old seat.old) }
    requires free { IsFree (actor_of actor.old) }
    requires seen { (actor_of actor.old).seen ≤ length seat.old.view.seen }
    ensures noted { OnOk result (HasNotedUnknown floor.now dim (player number actor.old seat.old) (player number actor.new seat.new)) }
    ensures same { OnErr result (HasNotBegun floor.now (player number actor.old seat.old) (player number actor.new seat.new)) }
{
    add(
        rt,
        alloc,
        floor,
        seat,
        number,
        actor,
        NoteStep::Unknown { dim },
    )
}

/// The page that is due of the actor's command is shown, which is one of the state that the seat knows. Takes no memory.
pub fn show<R: Wait>(
    rt: &R,
    alloc: Global,
    floor: &Floor,
    seat: &mut Seat<Volap>,
    number: u32,
    actor: &mut Actor,
    page: Page,
)
    requires stands { StandsSole floor.now (player number actor.old seat.old) }
    requires shows { CanShow floor.now page (player number actor.old seat.old) }
    ensures shown { HasShownSole floor.now page (player number actor.old seat.old) (player number actor.new seat.new) }
{
    let step = NoteStep::Shown { page };
    let _ = add(rt, alloc, floor, seat, number, actor, step);
}

/// The actor's command ends so. Takes no memory.
pub fn end_call<R: Wait>(
    rt: &R,
    alloc: Global,
    floor: &Floor,
    seat: &mut Seat<Volap>,
    number: u32,
    actor: &mut Actor,
    how: How,
)
    requires stands { StandsSole floor.now (player number actor.old seat.old) }
    requires ends { CanEndCall floor.now how (player number actor.old seat.old) }
    ensures ended { HasEndedSole floor.now how (player number actor.old seat.old) (player number actor.new seat.new) }
{
    let step = NoteStep::Ended { how };
    let _ = add(rt, alloc, floor, seat, number, actor, step);
}
