//! What a hand does at the desk of a server.
ghost use Rattle.std.specs.Prelude.{◌≡◌, ◌<◌, IsSome, None};
ghost use Rattle.hand_steps.specs.Hands.{HasDonePart, HasServed, IsIdleHand};
ghost use Rattle.session_steps.specs.seat_steps.specs.Floors.{Stands};
ghost use Rattle.session_steps.specs.volap_cell.specs.Values.{actor_of};

use crate::hands::{Found, look_for_part};
use session_steps::empty_purse;
use session_steps::of_part_steps::{Did, Steps, go_on_at_part};
use session_steps::of_seat_steps::{Floor, Player};
use std::alloc::Global;
use std::sync::Wait;
use volap_io::Meet;

/// A hand looks at the desk of this server, and does the first part there that waits for its worker, if one does.
pub fn serve_desk<R: Wait + Sync, M: Meet>(
    rt: &R,
    alloc: Global,
    floor: &Floor,
    player: &mut Player,
    server: u8,
    meet: &M,
) -> Found
    requires stands { Stands floor.now player.old }
    requires idle { IsIdleHand player.old }
    requires there { server < floor.now.with.servers }
    ensures served { HasServed floor.now server result player.old player.new }
{
    meet.pass(rt, 1);
    match look_for_part(rt, alloc, floor, player, server) {
        Found::Part => {
            do_part(rt, alloc, floor, player, meet);
            meet.pass(rt, 2);
            meet.pass(rt, 4);
            Found::Part
        }
        Found::Nothing => Found::Nothing,
        Found::NoSession => Found::NoSession,
    }
}

/// The actor goes on with its part to the end, and gives back what is left in its purse then.
fn do_part<R: Wait + Sync, M: Meet>(
    rt: &R,
    alloc: Global,
    floor: &Floor,
    player: &mut Player,
    meet: &M,
)
    requires stands { Stands floor.now player.old }
    requires no_command { (actor_of player.old.actor).command ≡ None }
    requires no_job { (actor_of player.old.actor).job ≡ None }
    ensures done { HasDonePart floor.now player.old player.new }
{
    for _ in rt.forever() {
        if !player.actor.errand.is_some() {
            empty_purse(rt, alloc, floor, player);
            return;
        }
        // The steps of a hand are not counted.
        let mut steps = Steps::new();
        if let Did::Visit = go_on_at_part(rt, alloc, floor, player, &mut steps) {
            meet.pass(rt, 3);
        }
    }
    unreachable!()
}
