//! Cells of one rank, whose turns are taken in the order of their numbers.
ghost use Rattle.std.specs.Prelude.{◌<◌, [], ◌∷◌};
ghost use Rattle.job_steps.specs.Turns.{AreInOrder, IsBehind, MayTake, TakesSome};
ghost use Rattle.seat_steps.specs.Floors.{IsSeated};
ghost use Rattle.seat_steps.specs.volap_cell.specs.Setting.{ledger_cell, registry_cell, stock_cell};

use crate::steps::{REGISTRY, STOCK};
use seat_steps::of_core_steps::{ledger_place, registry_place, stock_place};
use seat_steps::{Floor, LEDGER, Player, take};
use std::sync::Wait;

/// The actor waits for the turns of two cells, the lower number first.
fn take_up<R: Wait>(rt: &R, floor: &Floor, player: &mut Player, low: u32, high: u32, rank: u8)
    requires seated { IsSeated floor.now player.old }
    requires may { MayTake floor.now player.old (low ∷ high ∷ []) }
    requires order { AreInOrder player.old (low ∷ high ∷ []) rank }
    requires up { low < high }
    ensures seated { IsSeated floor.now player.new }
    ensures took { TakesSome (low ∷ high ∷ []) rank player.old player.new }
{
    take(rt, floor, player, low, rank);
    take(rt, floor, player, high, rank);
}

/// The actor waits for the turns of two cells.
pub(crate) fn take_two<R: Wait>(
    rt: &R,
    floor: &Floor,
    player: &mut Player,
    x: u32,
    y: u32,
    rank: u8,
)
    requires seated { IsSeated floor.now player.old }
    requires may { MayTake floor.now player.old (x ∷ y ∷ []) }
    requires order { AreInOrder player.old (x ∷ y ∷ []) rank }
    ensures seated { IsSeated floor.now player.new }
    ensures took { TakesSome (x ∷ y ∷ []) rank player.old player.new }
{
    if x < y {
        take_up(rt, floor, player, x, y, rank);
    } else {
        take_up(rt, floor, player, y, x, rank);
    }
}

/// The actor waits for the turns of three cells, of which the first has the lowest number.
fn take_low<R: Wait>(rt: &R, floor: &Floor, player: &mut Player, low: u32, x: u32, y: u32, rank: u8)
    requires seated { IsSeated floor.now player.old }
    requires may { MayTake floor.now player.old (low ∷ x ∷ y ∷ []) }
    requires order { AreInOrder player.old (low ∷ x ∷ y ∷ []) rank }
    requires first { low < x }
    requires first_too { low < y }
    ensures seated { IsSeated floor.now player.new }
    ensures took { TakesSome (low ∷ x ∷ y ∷ []) rank player.old player.new }
{
    take(rt, floor, player, low, rank);
    take_two(rt, floor, player, x, y, rank);
}

/// The actor waits for the turns of three cells, of which the first has a lower number than the second.
fn take_with<R: Wait>(
    rt: &R,
    floor: &Floor,
    player: &mut Player,
    low: u32,
    high: u32,
    z: u32,
    rank: u8,
)
    requires seated { IsSeated floor.now player.old }
    requires may { MayTake floor.now player.old (low ∷ high ∷ z ∷ []) }
    requires order { AreInOrder player.old (low ∷ high ∷ z ∷ []) rank }
    requires up { low < high }
    ensures seated { IsSeated floor.now player.new }
    ensures took { TakesSome (low ∷ high ∷ z ∷ []) rank player.old player.new }
{
    if low < z {
        take_low(rt, floor, player, low, high, z, rank);
    } else {
        take_low(rt, floor, player, z, low, high, rank);
    }
}

/// The actor waits for the turns of three cells.
pub(crate) fn take_three<R: Wait>(
    rt: &R,
    floor: &Floor,
    player: &mut Player,
    x: u32,
    y: u32,
    z: u32,
    rank: u8,
)
    requires seated { IsSeated floor.now player.old }
    requires may { MayTake floor.now player.old (x ∷ y ∷ z ∷ []) }
    requires order { AreInOrder player.old (x ∷ y ∷ z ∷ []) rank }
    ensures seated { IsSeated floor.now player.new }
    ensures took { TakesSome (x ∷ y ∷ z ∷ []) rank player.old player.new }
{
    if x < y {
        take_with(rt, floor, player, x, y, z, rank);
    } else {
        take_with(rt, floor, player, y, x, z, rank);
    }
}

/// The actor waits for the turns of the registry, the stock and the ledger, behind those of tables and gates.
pub(crate) fn take_books<R: Wait>(rt: &R, floor: &Floor, player: &mut Player)
    requires seated { IsSeated floor.now player.old }
    requires may { MayTake floor.now player.old (registry_cell ∷ stock_cell ∷ ledger_cell ∷ []) }
    requires behind { IsBehind player.old 2 }
    ensures seated { IsSeated floor.now player.new }
    ensures took { TakesSome (registry_cell ∷ stock_cell ∷ ledger_cell ∷ []) 8 player.old player.new }
{
    take(rt, floor, player, registry_place(), REGISTRY);
    take(rt, floor, player, stock_place(), STOCK);
    take(rt, floor, player, ledger_place(), LEDGER);
}
