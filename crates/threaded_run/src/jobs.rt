//! What each actor does in a phase, on its thread.
ghost use Rattle.std.specs.Prelude.{ℕ, ◌≡◌, ◌+◌, ◌<◌, List, false};
ghost use Rattle.script_form.specs.declared.script.Command.{Command as IsCommand};
ghost use Rattle.hall_hands.specs.actor_run.specs.Sessions.{IsSessionWith};
ghost use Rattle.row_ledger.specs.declared.event.Event.{Event};
ghost use Rattle.threaded_run.specs.Jobs.{IsBack, IsPassIn, IsReady};
ghost use Rattle.threaded_run.specs.Streams.{AllFit, NoneClosesAt};
ghost use Rattle.script_roles.specs.volap_cell.specs.Values.{actor_of};
ghost use Rattle.script_roles.specs.volap_cell.specs.declared.role.Role.TheVariants as is_role;

use crate::callers::{manage_all, pull_all};
use crate::sessions::do_commands;
use hall_admin::{Admin, Puller};
use hall_hands::Hand;
use hall_hands::of_actor_run::{Hall, Pass, Session};
use hall_hands::of_seat_steps::Player;
use script_form::Command;
use script_roles::volap_cell::Role;
use std::alloc::Global;
use std::sync::Wait;
use volap_io::Meet;

/// The actor does what is its own of these commands, or serves for them. The answer has whether it was stopped, for want of
/// memory.
pub(crate) fn work<R: Wait + Sync, M: Meet>(
    rt: &R,
    alloc: Global,
    hall: &Hall,
    player: Player,
    seen: u64,
    commands: &[Command],
    meet: &M,
) -> (Player, bool)
    requires ready { (n : ℕ) × (past : List Event) × IsReady hall.now n past player seen }
    requires fits { AllFit hall.now commands.now }
    requires none_closes { NoneClosesAt commands.now }
    ensures back { (n : ℕ) (past : List Event)
        → IsReady hall.now n past player seen
        → IsBack hall.now n commands.now past result.0 result.1 }
{
    match player.actor.role {
        Role::Session { server } => {
            do_all(rt, alloc, hall, server, player, seen, commands, meet)
        }
        Role::Puller => pull(rt, alloc, hall, player, commands),
        Role::Admin => manage(rt, alloc, hall, player, commands),
        Role::Hand { .. } => (serve(rt, alloc, hall, player, meet), false),
    }
}

/// A session does its commands, and ends.
fn do_all<R: Wait + Sync, M: Meet>(
    rt: &R,
    alloc: Global,
    hall: &Hall,
    server: u8,
    player: Player,
    seen: u64,
    commands: &[Command],
    meet: &M,
) -> (Player, bool)
    requires session { IsSessionWith hall.now server player seen }
    requires number { player.number ≡ server }
    requires there { server < hall.now.with.servers }
    requires fits { AllFit hall.now commands.now }
    ensures back { IsBack hall.now server commands.now player.seat.view.seen result.0 result.1 }
{
    let mut session = Session::of(hall, server, player, seen);
    let done = do_commands(rt, alloc, &mut session, server, commands, meet);
    (session.end(rt).into_player(), done.is_err())
}

/// A puller makes its calls.
fn pull<R: Wait>(
    rt: &R,
    alloc: Global,
    hall: &Hall,
    player: Player,
    commands: &[Command],
) -> (Player, bool)
    requires pass { IsPassIn hall.now player }
    requires role { (actor_of player.actor).role ≡ is_role.Puller }
    requires number { player.number ≡ hall.now.with.servers }
    requires fits { AllFit hall.now commands.now }
    ensures back { IsBack hall.now player.number commands.now player.seat.view.seen result.0 result.1 }
{
    let mut puller = Puller::new(hall, Pass::of(player));
    let done = pull_all(rt, alloc, &mut puller, commands);
    (puller.end().into_player(), done.is_err())
}

/// An administrator makes its calls.
fn manage<R: Wait>(
    rt: &R,
    alloc: Global,
    hall: &Hall,
    player: Player,
    commands: &[Command],
) -> (Player, bool)
    requires pass { IsPassIn hall.now player }
    requires role { (actor_of player.actor).role ≡ is_role.Admin }
    requires number { player.number ≡ hall.now.with.servers + 1 }
    requires fits { AllFit hall.now commands.now }
    requires none_closes { NoneClosesAt commands.now }
    ensures back { IsBack hall.now player.number commands.now player.seat.view.seen result.0 result.1 }
{
    let mut admin = Admin::new(hall, Pass::of(player));
    let done = manage_all(rt, alloc, &mut admin, commands);
    (admin.end().into_player(), done.is_err())
}

/// A hand serves until no session is left. No command is its own.
fn serve<R: Wait + Sync, M: Meet>(
    rt: &R,
    alloc: Global,
    hall: &Hall,
    player: Player,
    meet: &M,
) -> Player
    requires pass { IsPassIn hall.now player }
    requires role { (worker : ℕ) × ((actor_of player.actor).role ≡ is_role.Hand worker) }
    requires behind { hall.now.with.servers + 1 < player.number }
    ensures back { (commands : List IsCommand) → AllFit hall.now commands → IsBack hall.now player.number commands player.seat.view.seen result false }
{
    let mut hand = Hand::new(hall, Pass::of(player));
    hand.serve(rt, alloc, meet);
    hand.end().into_player()
}
