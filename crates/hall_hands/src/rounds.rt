//! A hand goes round the desks.
ghost use Rattle.std.specs.Prelude.{◌≡◌, ◌<◌};
ghost use Rattle.hall_hands.specs.Rounds.{HasFoundNobody, HasGoneRound};
ghost use Rattle.hand_steps.specs.Hands.{IsIdleHand};
ghost use Rattle.hand_steps.specs.seat_steps.specs.Floors.{Stands};

use actor_run::Hall;
use hand_steps::of_seat_steps::Player;
use hand_steps::{Found, serve_desk};
use std::alloc::Global;
use std::sync::Wait;
use volap_io::Meet;

/// What came of a round.
#[derive(Clone, Copy)]
pub enum Round {
    /// The hand has done a part.
    Worked,
    /// It has found none. Sessions are left.
    Waits,
    /// It has found none, and at no desk a session that is counted there.
    Over,
}

/// A hand of the worker goes round until no session is left. Where it finds no part it sleeps until its bell is rung.
pub(crate) fn serve<R: Wait + Sync, M: Meet>(
    rt: &R,
    alloc: Global,
    hall: &Hall,
    player: &mut Player,
    worker: u8,
    meet: &M,
)
    requires stands { Stands hall.now player.old }
    requires idle { IsIdleHand player.old }
    requires worker { worker < hall.now.with.workers }
    ensures served { HasFoundNobody hall.now player.old player.new }
{
    let bell = hall.hand_bell(worker);
    for _ in rt.forever() {
        let rings = bell.rings();
        match go_round(rt, alloc, hall, player, meet) {
            Round::Worked => {}
            Round::Waits => bell.wait_past(rt, rings),
            Round::Over => return,
        }
    }
    unreachable!()
}

/// A hand looks at each server's desk once, and does the part that it takes there. Who waits for that part is woken.
fn go_round<R: Wait + Sync, M: Meet>(
    rt: &R,
    alloc: Global,
    hall: &Hall,
    player: &mut Player,
    meet: &M,
) -> Round
    requires stands { Stands hall.now player.old }
    requires idle { IsIdleHand player.old }
    ensures gone { HasGoneRound hall.now result player.old player.new }
{
    let floor = hall.floor();
    let mut nobody = true;
    let mut worked = false;
    for server in 0..floor.with.servers {
        match serve_desk(rt, alloc, floor, player, server, meet) {
            Found::Part => {
                hall.bell(server).ring(rt);
                nobody = false;
                worked = true;
            }
            Found::Nothing => nobody = false,
            Found::NoSession => {}
        }
    }
    if nobody {
        Round::Over
    } else if worked {
        Round::Worked
    } else {
        Round::Waits
    }
}
