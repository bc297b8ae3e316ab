//! A settle at the seat that has all actors: each server pulls, in the order of their numbers, and then each once more.
ghost use Rattle.std.specs.Prelude.{ℕ, ◌≡◌, ◌+◌, ◌<◌, [], ◌∷◌, OnErr, OnOk, Some};
ghost use Rattle.call_steps.specs.Calls.{CanCall, CanPullFor};
ghost use Rattle.row_ledger.specs.declared.settings.Call.TheVariants.{Settle};
ghost use Rattle.turn_table.specs.Seat.{cell_count};
ghost use Rattle.core_pages.specs.volap_cell.specs.Commands.{settles_next};
ghost use Rattle.core_pages.specs.volap_cell.specs.Setting.{image_cell, registry_cell};
ghost use Rattle.whole_steps.specs.Seats.{HasEveryone, HasTurned};
ghost use Rattle.whole_steps.specs.Settles.{HasPulledAll, HasPulledSole, HasSettledCall, IsAtSettle};
ghost use Rattle.whole_steps.specs.Sole.{HasWaited, StandsSole, player};

use crate::adds::add;
use crate::calls::{REGISTRY, begin_call, end_call};
use crate::turns::take_turn;
use call_steps::of_core_due::tell_bytes;
use call_steps::of_core_steps::{BookStep, image_place, registry_place};
use call_steps::of_seat_steps::Floor;
use call_steps::of_volap_turns::Volap;
use core_pages::volap_cell::{Actor, there};
use row_ledger::{Call, How};
use std::alloc::{AllocError, Global};
use std::sync::Wait;
use turn_table::{Seat, TurnTable};

/// The rank that is told for an image.
const IMAGE: u8 = 5;

/// What came of a settle.
#[derive(Clone, Copy)]
pub enum Settled {
    Ok,
    /// No memory was found for one of its pulls.
    Failed,
    /// None was found for the command.
    NotBegun,
}

/// The server pushes what its image has grown by and pulls what stands, for the actor's command. Where memory is wanting, nothing
/// changes.
fn pull<R: Wait>(
    rt: &R,
    alloc: Global,
    floor: &Floor,
    seat: &mut Seat<Volap>,
    number: u32,
    actor: &mut Actor,
    server: u8,
) -> Result<(), AllocError>
    requires stands { StandsSole floor.now (player number actor.old seat.old) }
    requires pulls { CanPullFor floor.now server (player number actor.old seat.old) }
    ensures pulled { OnOk result (HasPulledSole floor.now server (player number actor.old seat.old) (player number actor.new seat.new)) }
    ensures same { OnErr result (HasWaited floor.now (player number actor.old seat.old) (player number actor.new seat.new)) }
{
    tell_bytes(&floor.with, &there(&actor.command).work);
    take_listings(rt, &floor.table, seat, server);
    let image = image_place(server);
    let step = BookStep::Sync { image };
    add(rt, alloc, floor, seat, number, actor, step)
}

/// The seat waits for the turns of the server's image, which is there, and of the registry.
fn take_listings<R: Wait>(rt: &R, table: &TurnTable<Volap>, seat: &mut Seat<Volap>, server: u8)
    requires everyone { HasEveryone table.now seat.old }
    requires bare { seat.old.ranks ≡ [] }
    requires image { image_cell server < cell_count table.now }
    requires registry { registry_cell < cell_count table.now }
    ensures everyone { HasEveryone table.now seat.new }
    ensures turned { HasTurned seat.old seat.new }
    ensures ranks { seat.new.ranks ≡ (image_cell server, Some 5) ∷ (registry_cell, Some 6) ∷ [] }
{
    take_turn(rt, table, seat, image_place(server), IMAGE);
    take_turn(rt, table, seat, registry_place(), REGISTRY);
}

/// The server whose pull is this one, counted from the first, where there are so many servers.
fn server_at(servers: u8, at: u16) -> u8
    requires within { at < servers + servers }
    ensures { settles_next servers at ≡ Some result }
{
    let servers = u16::from(servers);
    if at < servers {
        at as u8
    } else {
        (at - servers) as u8
    }
}

/// All pulls of the actor's settle, until no memory is found for one.
fn pull_all<R: Wait>(
    rt: &R,
    alloc: Global,
    floor: &Floor,
    seat: &mut Seat<Volap>,
    number: u32,
    actor: &mut Actor,
) -> Result<(), AllocError>
    requires stands { StandsSole floor.now (player number actor.old seat.old) }
    requires at { IsAtSettle (player number actor.old seat.old) }
    ensures all { OnOk result (HasPulledAll floor.now (floor.now.with.servers + floor.now.with.servers) (player number actor.old seat.old) (player number actor.new seat.new)) }
    ensures some { OnErr result ((n : ℕ) × (n < floor.now.with.servers + floor.now.with.servers) × HasPulledAll floor.now n (player number actor.old seat.old) (player number actor.new seat.new)) }
{
    let servers = floor.with.servers;
    let many = u16::from(servers) + u16::from(servers);
    for at in 0..many {
        let server = server_at(servers, at);
        pull(rt, alloc, floor, seat, number, actor, server)?;
    }
    Ok(())
}

/// The actor calls a settle: each server pulls, and then each once more.
pub fn call_settle<R: Wait>(
    rt: &R,
    alloc: Global,
    floor: &Floor,
    seat: &mut Seat<Volap>,
    number: u32,
    actor: &mut Actor,
) -> Settled
    requires stands { StandsSole floor.now (player number actor.old seat.old) }
    requires begins { CanCall floor.now Settle (player number actor.old seat.old) }
    ensures settled { HasSettledCall floor.now result (player number actor.old seat.old) (player number actor.new seat.new) }
{
    if begin_call(rt, alloc, floor, seat, number, actor, &Call::Settle).is_err() {
        return Settled::NotBegun;
    }
    if pull_all(rt, alloc, floor, seat, number, actor).is_err() {
        end_call(rt, alloc, floor, seat, number, actor, How::NoMemory);
        return Settled::Failed;
    }
    end_call(rt, alloc, floor, seat, number, actor, How::Fine);
    Settled::Ok
}
