//! What a hand that does nothing looks for.
ghost use Rattle.std.specs.Prelude.{ℕ, ◌≡◌, ◌<◌, [], ◌∷◌, Some};
ghost use mathlib.Core.Option.{some};
ghost use Rattle.session_steps.specs.core_steps.specs.Parts.{part_asks, part_places};
ghost use Rattle.session_steps.specs.core_steps.specs.declared.parts.PartStep.TheVariants.{TakePart};
ghost use Rattle.hand_steps.specs.Hands.{HasFound, HasTakenPart, IsIdleHand, found_on};
ghost use Rattle.session_steps.specs.seat_steps.specs.Booked.{IsDue, IsUnchanged};
ghost use Rattle.session_steps.specs.seat_steps.specs.Floors.{IsSeated, Stands};
ghost use Rattle.session_steps.specs.seat_steps.specs.Looks.{Sees};
ghost use Rattle.session_steps.specs.seat_steps.specs.declared.floor.Player.{Player};
ghost use Rattle.turn_table.specs.Numbered.{value_of};
ghost use Rattle.session_steps.specs.volap_cell.specs.Cells.{cell_of, desk_in};
ghost use Rattle.session_steps.specs.volap_cell.specs.Values.{actor_of};
ghost use Rattle.session_steps.specs.volap_cell.specs.declared.cell.Cell.{Cell};
ghost use Rattle.session_steps.specs.volap_cell.specs.declared.role.Role.TheVariants.{Hand};

use query_router::Desk;
use session_steps::of_core_steps::{PartStep, desk_place};
use session_steps::of_seat_steps::{Floor, Player, give_all, make, take_first};
use session_steps::of_volap_cell::{Actor, Cell, Role};
use std::alloc::Global;
use std::sync::Wait;

/// The rank that is told for a desk.
const DESK: u8 = 4;

/// What a hand found on a desk.
#[derive(Clone, Copy)]
pub enum Found {
    /// A part that waited for its worker. It is at this part now.
    Part,
    /// Nothing for it. Sessions are counted there.
    Nothing,
    /// Nothing for it, and no session is counted there.
    NoSession,
}

/// A hand waits for the turn of this server's desk, and takes the first part there that waits for its worker. Takes no
/// memory.
pub(crate) fn look_for_part<R: Wait>(
    rt: &R,
    alloc: Global,
    floor: &Floor,
    player: &mut Player,
    server: u8,
) -> Found
    requires stands { Stands floor.now player.old }
    requires idle { IsIdleHand player.old }
    requires there { server < floor.now.with.servers }
    ensures found { HasFound floor.now server result player.old player.new }
{
    let worker = worker_of(&player.actor);
    let desk = desk_place(&floor.with, server);
    take_first(rt, floor, player, desk, DESK);
    match found_at(floor, player, desk, worker) {
        Found::Part => {
            take_part(alloc, floor, player, desk);
            Found::Part
        }
        Found::Nothing => {
            give_all(floor, player);
            Found::Nothing
        }
        Found::NoSession => {
            give_all(floor, player);
            Found::NoSession
        }
    }
}

/// The worker of a hand.
fn worker_of(actor: &Actor) -> u8
    requires hand { (worker : ℕ) × ((actor_of actor.now).role ≡ Hand worker) }
    ensures { (actor_of actor.now).role ≡ Hand result }
{
    let Role::Hand { worker } = actor.role else {
        unreachable!()
    };
    worker
}

/// What a hand of the worker finds on a desk.
fn found_on(desk: &Desk, worker: u8) -> Found
    ensures { result ≡ found_on worker desk.now }
{
    if desk.awaits(worker) {
        Found::Part
    } else if desk.sessions() == 0 {
        Found::NoSession
    } else {
        Found::Nothing
    }
}

/// What it finds on the desk in a cell. In any other cell there is nothing.
fn found_in(cell: &Cell, worker: u8) -> Found
    ensures { result ≡ found_on worker (desk_in (cell_of cell.now)) }
{
    match cell {
        Cell::Desk { desk, .. } => found_on(desk, worker),
        _ => Found::NoSession,
    }
}

/// What it finds on the desk in a held cell.
fn found_at(floor: &Floor, player: &mut Player, at: u32, worker: u8) -> Found
    requires seated { IsSeated floor.now player.old }
    requires held { (c : Cell) × (value_of player.old.seat.view.held at ≡ some c) }
    ensures seen { Sees player.old at (λ cell. result ≡ found_on worker (desk_in cell)) }
    ensures same { player.new ≡ player.old }
{
    found_in(player.seat.see(&floor.table, at), worker)
}

/// The hand takes a part from the desk that it holds.
fn take_part(alloc: Global, floor: &Floor, player: &mut Player, desk: u32)
    requires seated { IsSeated floor.now player.old }
    requires behind { 0 < desk }
    requires ranks { player.old.seat.ranks ≡ (desk, Some 4) ∷ [] }
    requires due { IsDue floor.now player.old (part_places (TakePart desk)) (part_asks (TakePart desk)) }
    ensures taken { (p : Player) → IsUnchanged p player.old → HasTakenPart floor.now p player.new }
{
    let _ = make(alloc, floor, player, PartStep::TakePart { desk });
}
