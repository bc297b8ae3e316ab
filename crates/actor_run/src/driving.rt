//! A session's open command, to its end.
ghost use Rattle.std.specs.Prelude.{ℕ, ◌≡◌, ◌≤◌};
ghost use Rattle.actor_run.specs.Driving.{EndsSince, GoesSince, IsOpenSince};
ghost use Rattle.actor_run.specs.Everything.{HasSpent, IsFew, SpendsSince};
ghost use Rattle.whole_steps.specs.seat_steps.specs.declared.floor.Player.{Player};

use crate::bell::Bell;
use std::alloc::Global;
use std::sync::Wait;
use volap_io::Meet;
use whole_steps::of_part_steps::{Did, Steps, go_on_at_part};
use whole_steps::of_seat_steps::{Floor, Player};
use whole_steps::of_session_steps::{End, Next, go_on_with_command};
use whole_steps::of_volap_cell::{Actor, Command, Work};

/// The session goes on with its command until it ends: it makes the steps of its parts itself, and sleeps where its server's desk
/// has the command of another session, or another actor is at the last part. What it does for parts of a query is counted.
pub(crate) fn drive<R: Wait + Sync, M: Meet>(
    rt: &R,
    alloc: Global,
    floor: &Floor,
    bell: &Bell,
    player: &mut Player,
    meet: &M,
    steps: &mut Steps,
) -> End
    requires open { IsOpenSince floor.now player.old player.old }
    ensures ends { EndsSince floor.now result player.old player.new }
    ensures kept { steps.old ≤ steps.new }
    ensures steps { HasSpent floor.now player.old steps.old steps.old → IsFew floor.now player.new.seat.view.seen steps.old steps.new }
{
    for _ in rt.forever() {
        match go_on(rt, alloc, floor, bell, player, meet, steps) {
            None => {}
            Some(end) => return end,
        }
    }
    unreachable!()
}

/// The session goes on with its command by one step. The answer is how it ended, if it did.
fn go_on<R: Wait + Sync, M: Meet>(
    rt: &R,
    alloc: Global,
    floor: &Floor,
    bell: &Bell,
    player: &mut Player,
    meet: &M,
    steps: &mut Steps,
) -> Option<End>
    requires command { (start : Player) × IsOpenSince floor.now start player.old }
    ensures goes { (start : Player) → IsOpenSince floor.now start player.old → GoesSince floor.now result start player.new }
    ensures kept { steps.old ≤ steps.new }
    ensures steps { (was : ℕ) → HasSpent floor.now player.old was steps.old → SpendsSince floor.now result player.new was steps.new }
{
    if player.actor.errand.is_some() {
        match go_on_at_part(rt, alloc, floor, player, steps) {
            Did::Step => {}
            Did::Visit => meet.pass(rt, 3),
            Did::End => meet.pass(rt, 2),
        }
        return None;
    }
    if has_parts(&player.actor) {
        meet.pass(rt, 0);
        meet.pass(rt, 1);
    }
    let rings = bell.rings();
    match go_on_with_command(rt, alloc, floor, player) {
        Next::GoesOn => None,
        Next::Waits => {
            bell.wait_past(rt, rings);
            None
        }
        Next::Ended(end) => {
            bell.ring(rt);
            // For contracts alone: the count is that of a counter of 64 bits.
            let _ = steps.count();
            Some(end)
        }
    }
}

/// Whether parts of the actor's command stand on a desk.
fn has_parts(actor: &Actor) -> bool {
    match &actor.command {
        Some(
            Command {
                work: Work::Insert { routed, .. },
                ..
            },
        ) => *routed,
        _ => true,
    }
}
