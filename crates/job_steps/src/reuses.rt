//! Cells of gates that are gone, which the administrator uses again between two commands.
ghost use Rattle.std.specs.Prelude.{◌≡◌, [], ◌∷◌, None, Some, IfNone, IfSome};
ghost use Rattle.seat_steps.specs.core_steps.specs.Reuses.{reuse_places};
ghost use Rattle.job_steps.specs.Reuses.{HasReused, IsBetween, IsReleasedAt, IsReuseDue, WasInUse, cell_of_reuse};
ghost use Rattle.list_words.specs.Counts.{Among, Each};
ghost use Rattle.seat_steps.specs.Booked.{IsAsBefore, IsUnchanged};
ghost use Rattle.seat_steps.specs.Floors.{IsSeated, Stands};
ghost use Rattle.seat_steps.specs.declared.floor.Player.{Player};
ghost use Rattle.seat_steps.specs.volap_cell.specs.Values.{actor_of};
ghost use Rattle.seat_steps.specs.volap_turns.specs.Rows.{AreAt};

use crate::looks::{is_released_at, last_gone_at};
use crate::steps::{BLOCK, GATE, STOCK};
use seat_steps::of_core_steps::{ReuseStep, stock_place};
use seat_steps::{Floor, Player, give_all, make, take, take_first};
use std::alloc::Global;
use std::sync::Wait;

/// The administrator, between two commands, uses one cell again of a gate that is gone, for which it waits for the turns of
/// the gate, of the block that stands last in its list, and of the stock. Where a query is pinned to each such gate, nothing
/// changes. Takes no memory.
pub fn reuse_cell<R: Wait>(rt: &R, alloc: Global, floor: &Floor, player: &mut Player) -> Option<u32>
    requires stands { Stands floor.now player.old }
    requires between { IsBetween player.old }
    ensures some { IfSome result (λ cell. HasReused floor.now cell player.old player.new) }
    ensures none { IfNone result (IsAsBefore floor.now player.old player.new) }
    ensures in_use { IfNone result (Each (WasInUse floor.now player.old) (actor_of player.old.actor).gone_gates) }
{
    for place in 0..player.actor.gone_gates.as_slice().len() {
        let gate = player.actor.gone_gates.as_slice()[place];
        if let Some(cell) = reuse_at(rt, alloc, floor, player, gate) {
            return Some(cell);
        }
    }
    None
}

/// The same with a gate of the list.
fn reuse_at<R: Wait>(
    rt: &R,
    alloc: Global,
    floor: &Floor,
    player: &mut Player,
    gate: u32,
) -> Option<u32>
    requires stands { Stands floor.now player.old }
    requires between { IsBetween player.old }
    requires listed { Among gate (actor_of player.old.actor).gone_gates }
    ensures some { IfSome result (λ cell. (p : Player) → IsUnchanged p player.old → HasReused floor.now cell p player.new) }
    ensures none { IfNone result (IsAsBefore floor.now player.old player.new) }
    ensures in_use { IfNone result ((p : Player) → IsUnchanged p player.old → WasInUse floor.now p gate) }
{
    take_first(rt, floor, player, gate, GATE);
    if !is_released_at(floor, player, gate) {
        give_all(floor, player);
        return None;
    }
    match last_gone_at(floor, player, gate) {
        Some(block) => Some(reuse_block(rt, alloc, floor, player, gate, block)),
        None => Some(reuse_gate(rt, alloc, floor, player, gate)),
    }
}

/// The cell of the block is used again that stands last in the list of the held gate.
fn reuse_block<R: Wait>(
    rt: &R,
    alloc: Global,
    floor: &Floor,
    player: &mut Player,
    gate: u32,
    block: u32,
) -> u32
    requires seated { IsSeated floor.now player.old }
    requires between { IsBetween player.old }
    requires held { player.old.seat.ranks ≡ (gate, Some 2) ∷ [] }
    requires released { IsReleasedAt player.old gate (Some block) }
    ensures reused { (p : Player) → IsUnchanged p player.old → HasReused floor.now result p player.new }
{
    take(rt, floor, player, block, BLOCK);
    take(rt, floor, player, stock_place(), STOCK);
    make_reuse(alloc, floor, player, ReuseStep::Block { gate, block });
    block
}

/// The own cell of the held gate is used again, in whose list no block is left.
fn reuse_gate<R: Wait>(rt: &R, alloc: Global, floor: &Floor, player: &mut Player, gate: u32) -> u32
    requires seated { IsSeated floor.now player.old }
    requires between { IsBetween player.old }
    requires held { player.old.seat.ranks ≡ (gate, Some 2) ∷ [] }
    requires released { IsReleasedAt player.old gate None }
    ensures reused { (p : Player) → IsUnchanged p player.old → HasReused floor.now result p player.new }
{
    take(rt, floor, player, stock_place(), STOCK);
    make_reuse(alloc, floor, player, ReuseStep::Gate { gate });
    gate
}

/// The actor makes the step over the cells that it holds.
fn make_reuse(alloc: Global, floor: &Floor, player: &mut Player, step: ReuseStep)
    requires seated { IsSeated floor.now player.old }
    requires between { IsBetween player.old }
    requires at { AreAt (reuse_places step) player.old.seat.view.held }
    requires due { IsReuseDue floor.now player.old step }
    ensures reused { (p : Player) → IsUnchanged p player.old → HasReused floor.now (cell_of_reuse step) p player.new }
{
    let _ = make(alloc, floor, player, step);
}
