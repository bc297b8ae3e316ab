//! The beginnings of a session's inserts and queries, and the notes of those that don't begin.
ghost use Rattle.std.specs.Prelude.{◌≡◌, ◌<◌, ◌≤◌, IfOk, OnErr, OnOk, length};
ghost use Rattle.dim_hierarchy.specs.Filter.{IsFilterOf};
ghost use Rattle.dim_hierarchy.specs.Row.{IsCoordOf};
ghost use Rattle.session_steps.specs.Begins.{CanBegin, HasBegunInsert, HasBegunQuery, HasNoted};
ghost use Rattle.part_steps.specs.core_image.specs.Told.{refused_by, unknown_by};
ghost use Rattle.part_steps.specs.seat_steps.specs.Booked.{IsAsBefore};
ghost use Rattle.part_steps.specs.seat_steps.specs.Floors.{Stands};
ghost use Rattle.part_steps.specs.volap_cell.specs.ImageKinds.{IsFree};
ghost use Rattle.part_steps.specs.volap_cell.specs.Values.{actor_of};

use crate::books::{DESK, books_of, take_image, take_image_alone};
use crate::desks::is_empty_at;
use dim_hierarchy::{Coord, Filter, Measures};
use part_steps::of_core_steps::{BeginStep, NoteStep};
use part_steps::of_seat_steps::{Floor, Player, give_all, make_booked, take_first};
use part_steps::of_volap_cell::there;
use std::alloc::{AllocError, Global};
use std::sync::Wait;

/// The session begins an insert of a row at this coordinate, at its server. The answer is the position of the event.
pub fn begin_insert<R: Wait>(
    rt: &R,
    alloc: Global,
    floor: &Floor,
    player: &mut Player,
    at: Coord,
    measures: Measures,
) -> Result<u64, AllocError>
    requires stands { Stands floor.now player.old }
    requires begins { CanBegin player.old }
    requires coord { IsCoordOf floor.now.hierarchy at }
    ensures begun { IfOk result (λ of. HasBegunInsert floor.now of at measures player.old player.new) }
    ensures same { OnErr result (IsAsBefore floor.now player.old player.new) }
{
    let (desk, image) = books_of(floor, player);
    take_image_alone(rt, floor, player, desk, image);
    let step = BeginStep::Insert {
        image,
        at,
        measures,
    };
    make_booked(rt, alloc, floor, player, step)?;
    Ok(there(&player.actor.command).of)
}

/// What came of a query's beginning.
#[derive(Drop)]
pub enum Begun {
    /// It has begun, with the event at this position.
    At(u64),
    /// The desk of its server has the command of another session. The filter is there for another try.
    Waits(Filter),
    NoMemory,
}

/// The session begins a query with this filter, at its server, whose desk must be empty for that.
pub fn begin_query<R: Wait>(
    rt: &R,
    alloc: Global,
    floor: &Floor,
    player: &mut Player,
    filter: Filter,
) -> Begun
    requires stands { Stands floor.now player.old }
    requires begins { CanBegin player.old }
    requires filter { IsFilterOf floor.now.hierarchy filter }
    requires dims { 0 < length floor.now.hierarchy }
    ensures begun { HasBegunQuery floor.now result filter player.old player.new }
{
    let (desk, image) = books_of(floor, player);
    take_first(rt, floor, player, desk, DESK);
    if !is_empty_at(floor, player, desk) {
        give_all(floor, player);
        return Begun::Waits(filter);
    }
    take_image(rt, floor, player, desk, image);
    let step = BeginStep::Query {
        desk,
        image,
        filter,
    };
    match make_booked(rt, alloc, floor, player, step) {
        Ok(()) => Begun::At(there(&player.actor.command).of),
        Err(_) => Begun::NoMemory,
    }
}

/// The actor notes that its next command names what is not known, first in this dimension.
pub fn note_unknown<R: Wait>(
    rt: &R,
    alloc: Global,
    floor: &Floor,
    player: &mut Player,
    dim: u8,
) -> Result<(), AllocError>
    requires stands { Stands floor.now player.old }
    requires free { IsFree (actor_of player.old.actor) }
    requires noted { (actor_of player.old.actor).seen ≤ length player.old.seat.view.seen }
    ensures noted { OnOk result (HasNoted floor.now (unknown_by dim) player.old player.new) }
    ensures same { OnErr result (IsAsBefore floor.now player.old player.new) }
{
    make_booked(rt, alloc, floor, player, NoteStep::Unknown { dim })
}

/// The actor notes that its next command found no memory before it began.
pub fn note_refused<R: Wait>(
    rt: &R,
    alloc: Global,
    floor: &Floor,
    player: &mut Player,
) -> Result<(), AllocError>
    requires stands { Stands floor.now player.old }
    requires free { IsFree (actor_of player.old.actor) }
    requires noted { (actor_of player.old.actor).seen ≤ length player.old.seat.view.seen }
    ensures noted { OnOk result (HasNoted floor.now refused_by player.old player.new) }
    ensures same { OnErr result (IsAsBefore floor.now player.old player.new) }
{
    make_booked(rt, alloc, floor, player, NoteStep::Refused)
}
