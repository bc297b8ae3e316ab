//! Pulls of servers, for the command that an actor has called.
ghost use Rattle.std.specs.Prelude.{◌≡◌, ◌<◌, [], ◌∷◌, None, OnErr, OnOk, Some};
ghost use Rattle.call_steps.specs.Calls.{CanPullFor, HasPulledFor};
ghost use Rattle.session_steps.specs.seat_steps.specs.Booked.{IsAsBefore, IsUnchanged};
ghost use Rattle.session_steps.specs.seat_steps.specs.Floors.{IsSeated, Stands};
ghost use Rattle.turn_table.specs.Seat.{cell_count};
ghost use Rattle.session_steps.specs.volap_cell.specs.Setting.{image_cell, registry_cell};
ghost use Rattle.session_steps.specs.volap_cell.specs.Values.{actor_of};

use crate::calls::REGISTRY;
use session_steps::of_core_due::tell_bytes;
use session_steps::of_core_steps::{BookStep, image_place, registry_place};
use session_steps::of_seat_steps::{Floor, Player, make_booked, take, take_first};
use session_steps::of_volap_cell::there;
use std::alloc::{AllocError, Global};
use std::sync::Wait;

/// The rank that is told for an image.
const IMAGE: u8 = 5;

/// The server pushes what its image has grown by and pulls what stands, for the actor's command. Where memory is wanting,
/// nothing changes.
pub fn pull<R: Wait>(
    rt: &R,
    alloc: Global,
    floor: &Floor,
    player: &mut Player,
    server: u8,
) -> Result<(), AllocError>
    requires stands { Stands floor.now player.old }
    requires pulls { CanPullFor floor.now server player.old }
    ensures pulled { OnOk result (HasPulledFor floor.now server player.old player.new) }
    ensures same { OnErr result (IsAsBefore floor.now player.old player.new) }
{
    tell_bytes(&floor.with, &there(&player.actor.command).work);
    take_listings(rt, floor, player, server);
    let image = image_place(server);
    make_booked(rt, alloc, floor, player, BookStep::Sync { image })
}

/// The actor waits for the turns of the server's image, which is there, and of the registry.
fn take_listings<R: Wait>(rt: &R, floor: &Floor, player: &mut Player, server: u8)
    requires stands { Stands floor.now player.old }
    requires no_part { (actor_of player.old.actor).errand ≡ None }
    requires within { image_cell server < cell_count floor.now.table }
    ensures seated { IsSeated floor.now player.new }
    ensures same { IsUnchanged player.old player.new }
    ensures ranks { player.new.seat.ranks ≡ (image_cell server, Some 5) ∷ (registry_cell, Some 6) ∷ [] }
{
    take_first(rt, floor, player, image_place(server), IMAGE);
    take(rt, floor, player, registry_place(), REGISTRY);
}
