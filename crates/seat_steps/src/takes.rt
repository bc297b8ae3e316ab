//! Turns that an actor takes and gives back.
ghost use Rattle.std.specs.Prelude.{ℕ, ◌≡◌, ◌≢◌, ◌<◌, length, Option, Some, None, IfSome, IfNone, IfErr, OnErr, OnOk};
ghost use mathlib.Core.Option.{none, some};
ghost use Rattle.list_words.specs.Counts.{Each};
ghost use Rattle.seat_steps.specs.Floors.{IsSeated, Stands, at_block, kept_by};
ghost use Rattle.seat_steps.specs.Takes.{GaveAll, Gives, IsSameActor, Takes, TakesTurn, WasRefused};
ghost use Rattle.turn_table.specs.Numbered.{value_of};
ghost use Rattle.turn_table.specs.Seat.{IsInOrder, cell_count};
ghost use Rattle.core_due.specs.volap_cell.specs.Values.{actor_of};
ghost use Rattle.core_due.specs.volap_cell.specs.World.{MustKeep};
ghost use Rattle.volap_turns.specs.Rows.{IsThere};

use crate::floor::{Floor, Player};
use core_due::volap_cell::{Actor, Errand, RowErrand, Task, Way};
use std::sync::Wait;
use turn_table::Busy;

/// The actor waits for the turn of one more cell.
pub fn take<R: Wait>(rt: &R, floor: &Floor, player: &mut Player, cell: u32, rank: u8)
    requires seated { IsSeated floor.now player.old }
    requires cell { cell < cell_count floor.now.table }
    requires other { value_of player.old.seat.view.held cell ≡ none }
    requires rank { IsInOrder player.old.seat.ranks cell rank }
    requires room { length player.old.seat.view.held < 7 }
    ensures seated { IsSeated floor.now player.new }
    ensures took { Takes cell rank player.old player.new }
{
    floor.table.take(rt, &mut player.seat, cell, rank);
}

/// The actor takes the turn of one more cell if it is free, and tells no rank for it. It waits for nobody.
pub fn try_take(floor: &Floor, player: &mut Player, cell: u32) -> Result<(), Busy>
    requires seated { IsSeated floor.now player.old }
    requires cell { cell < cell_count floor.now.table }
    requires other { value_of player.old.seat.view.held cell ≡ none }
    requires room { length player.old.seat.view.held < 7 }
    ensures seated { IsSeated floor.now player.new }
    ensures took { OnOk result (TakesTurn cell None player.old player.new) }
    ensures busy { IfErr result (λ b. (b.cell ≡ cell) × (b.word ≢ 0)) }
    ensures read { IfErr result (λ b. WasRefused cell b.word player.old player.new) }
    ensures same { OnErr result (IsSameActor player.old player.new) }
    ensures ranks { OnErr result (player.new.seat.ranks ≡ player.old.seat.ranks) }
    ensures seen { OnErr result (player.new.seat.view.seen ≡ player.old.seat.view.seen) }
{
    floor.table.try_take(&mut player.seat, cell)
}

/// The block at which the actor's row is carried, if it is.
pub(crate) fn kept_by(actor: &Actor) -> Option<u32>
    ensures { at_block result ≡ kept_by (actor_of actor.now) }
{
    match &actor.errand {
        Some(
            Errand {
                task: Task::Row(
                    RowErrand {
                        way: Way::Carried { block, .. },
                        ..
                    },
                ),
                ..
            },
        ) => Some(*block),
        _ => None,
    }
}

/// The cell that was taken last, but for the one that is kept.
fn last_but(held: &[(u32, Option<u8>)], kept: Option<u32>) -> Option<u32>
    ensures some { IfSome result (λ cell. (r : Option ℕ) × (value_of held.now cell ≡ some r)) }
    ensures other { IfSome result (λ cell. kept ≢ Some cell) }
    ensures none { IfNone result (Each (λ told. kept ≡ Some told.0) held.now) }
{
    let mut left = held;
    while let Some((told, others)) = left.split_last() {
        if kept != Some(told.0) {
            return Some(told.0);
        }
        left = others;
    }
    None
}

/// The actor gives back a cell as it is, which it need not keep.
pub(crate) fn give(floor: &Floor, player: &mut Player, cell: u32)
    requires seated { IsSeated floor.now player.old }
    requires held { IsThere player.old.seat.view.held cell }
    requires free { MustKeep (actor_of player.old.actor) cell → ⊥ }
    ensures seated { IsSeated floor.now player.new }
    ensures gave { Gives cell player.old player.new }
{
    floor.table.release(&mut player.seat, cell);
}

/// The actor gives back every cell but the one that it must keep.
pub fn give_all(floor: &Floor, player: &mut Player)
    requires seated { IsSeated floor.now player.old }
    ensures stands { Stands floor.now player.new }
    ensures gave { GaveAll player.old player.new }
{
    let kept = kept_by(&player.actor);
    while let Some(cell) = last_but(player.seat.held(), kept) {
        give(floor, player, cell);
    }
}
