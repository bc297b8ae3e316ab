//! A session comes to the desk of its server, and leaves it; and an actor gives back what is left in its purse.
ghost use Rattle.std.specs.Prelude.{◌≡◌, ◌^◌, ◌<◌, [], true, false};
ghost use Rattle.session_steps.specs.Coming.{HasCome, HasEmptied, HasLeft, IsAtNothing};
ghost use Rattle.part_steps.specs.seat_steps.specs.Floors.{Stands};
ghost use Rattle.part_steps.specs.volap_cell.specs.ImageKinds.{IsFree};
ghost use Rattle.part_steps.specs.volap_cell.specs.Setting.{actor_count};
ghost use Rattle.part_steps.specs.volap_cell.specs.Values.{actor_of};

use crate::books::{DESK, books_of};
use part_steps::of_core_due::{is_spent, parts_prepared};
use part_steps::of_core_steps::{CountStep, TreeStep, stock_place};
use part_steps::of_seat_steps::{Floor, Player, make, take_first};
use std::alloc::Global;
use std::sync::Wait;

/// The rank that is told for the stock.
const STOCK: u8 = 7;

/// The desk of the session's server counts it from now on. Takes no memory.
pub fn come<R: Wait>(rt: &R, alloc: Global, floor: &Floor, player: &mut Player)
    requires stands { Stands floor.now player.old }
    requires nothing { IsAtNothing player.old }
    requires away { (actor_of player.old.actor).counted ≡ false }
    requires few { actor_count (actor_of player.old.actor).setting < 2 ^ 16 }
    ensures come { HasCome floor.now player.old player.new }
{
    let (desk, _) = books_of(floor, player);
    take_first(rt, floor, player, desk, DESK);
    let _ = make(alloc, floor, player, CountStep::Comes { desk });
}

/// The desk of the session's server counts it no more. Takes no memory.
pub fn leave<R: Wait>(rt: &R, alloc: Global, floor: &Floor, player: &mut Player)
    requires stands { Stands floor.now player.old }
    requires nothing { IsAtNothing player.old }
    requires there { (actor_of player.old.actor).counted ≡ true }
    ensures left { HasLeft floor.now player.old player.new }
{
    let (desk, _) = books_of(floor, player);
    take_first(rt, floor, player, desk, DESK);
    let _ = make(alloc, floor, player, CountStep::Goes { desk });
}

/// The spares that are left in the purse of an actor with nothing to do go back to the stock. Takes no memory.
pub fn empty_purse<R: Wait>(rt: &R, alloc: Global, floor: &Floor, player: &mut Player)
    requires stands { Stands floor.now player.old }
    requires free { IsFree (actor_of player.old.actor) }
    ensures emptied { HasEmptied floor.now player.old player.new }
{
    if is_spent(&player.actor) {
        return;
    }
    parts_prepared();
    take_first(rt, floor, player, stock_place(), STOCK);
    let _ = make(alloc, floor, player, TreeStep::GiveBack);
}
