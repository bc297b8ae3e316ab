//! A session's query, from its beginning until it has read a gate.
ghost use Rattle.std.specs.Prelude.{ℕ, ◌≡◌, ◌<◌, List, All, length, IfErr, IfOk, OnErr};
ghost use Rattle.actor_run.specs.Cursors.{BeginsCursor, IsNoAnswer};
ghost use Rattle.actor_run.specs.Doing.{Does};
ghost use Rattle.actor_run.specs.Driving.{IsOpenSince};
ghost use Rattle.actor_run.specs.Sessions.{EndsQuery, IsSession};
ghost use Rattle.dim_hierarchy.specs.Filter.{IsFilterNamed, IsFilterOf};
ghost use Rattle.dim_hierarchy.specs.Names.{IsNamePick};
ghost use Rattle.dim_hierarchy.specs.declared.filter.NamePick.{NamePick};
ghost use Rattle.whole_steps.specs.part_steps.specs.Reads.{IsBeforeBlocks};
ghost use Rattle.whole_steps.specs.seat_steps.specs.declared.floor.Player.{Player};
ghost use Rattle.whole_steps.specs.volap_cell.specs.ImageKinds.{doing};
ghost use Rattle.whole_steps.specs.volap_cell.specs.Values.{actor_of};
ghost use Rattle.whole_steps.specs.volap_cell.specs.declared.command.Work.TheVariants.{Query};

use crate::bell::{Bell, HandBells};
use crate::calls::{ask, filter_for, refuse};
use crate::session::Asked;
use dim_hierarchy::{Filter, NameFilter};
use std::alloc::Global;
use std::snapshot::Snapshot;
use std::sync::Wait;
use whole_steps::of_part_steps::{Steps, go_on_at_part};
use whole_steps::of_seat_steps::{Floor, Player};
use whole_steps::of_session_steps::take_waiting;
use whole_steps::of_volap_cell::Task;

/// The session begins a query with these picks by name, and goes on with it until it has read a gate, or no part of it waits. The
/// answer is where it began, and its filter for contracts. Where the query can't begin, `seen` is then how many events the session
/// has seen.
pub(crate) fn begin<R: Wait>(
    rt: &R,
    alloc: Global,
    floor: &Floor,
    bell: &Bell,
    hands: &HandBells,
    player: &mut Player,
    seen: &mut u64,
    names: &NameFilter,
) -> Result<(u64, Snapshot<Filter>), Asked>
    requires session { (server : ℕ) × IsSession floor.now server player.old }
    requires count { length names.now ≡ length floor.now.hierarchy }
    requires some { All IsNamePick names.now }
    requires dims { 0 < length floor.now.hierarchy }
    ensures begun { IfOk result (λ r. BeginsCursor floor.now names.now r.0 r.1.value player.old player.new) }
    ensures refused { IfErr result (λ answer. Does floor.now (EndsQuery answer names.now) player.old player.new) }
    ensures no_answer { IfErr result IsNoAnswer }
    ensures seen { OnErr result (seen.new ≡ length player.new.seat.view.seen) }
{
    match filter_for(rt, alloc, floor, player, seen, names) {
        Ok(Ok(filter)) => begin_with(rt, alloc, floor, bell, hands, player, seen, filter),
        Ok(Err(answer)) => Err(answer),
        Err(_) => Err(Asked::NoMemory),
    }
}

/// The same with this filter.
fn begin_with<R: Wait>(
    rt: &R,
    alloc: Global,
    floor: &Floor,
    bell: &Bell,
    hands: &HandBells,
    player: &mut Player,
    seen: &mut u64,
    filter: Filter,
) -> Result<(u64, Snapshot<Filter>), Asked>
    requires session { (server : ℕ) × IsSession floor.now server player.old }
    requires filter { IsFilterOf floor.now.hierarchy filter }
    requires dims { 0 < length floor.now.hierarchy }
    ensures begun { IfOk result (λ r. (names : List NamePick) → IsFilterNamed floor.now.hierarchy names filter → BeginsCursor floor.now names r.0 r.1.value player.old player.new) }
    ensures refused { IfErr result (λ answer. (names : List NamePick) → Does floor.now (EndsQuery answer names) player.old player.new) }
    ensures no_answer { IfErr result IsNoAnswer }
    ensures seen { OnErr result (seen.new ≡ length player.new.seat.view.seen) }
{
    let copy = Snapshot::of(&filter);
    let Some(of) = ask(rt, alloc, floor, bell, player, filter) else {
        let _ = refuse(rt, alloc, floor, player, seen);
        return Err(Asked::NoMemory);
    };
    // Not counted as under way, as between its caller's calls it does no part.
    hands.ring_all(rt);
    go_to_gate(rt, alloc, floor, player);
    Ok((of, copy))
}

/// The session's query goes on until it has read a gate, or no part of it waits.
fn go_to_gate<R: Wait>(rt: &R, alloc: Global, floor: &Floor, player: &mut Player)
    requires since { IsOpenSince floor.now player.old player.old }
    requires query { (of : ℕ) × ((actor_of player.old.actor).command ≡ doing of Query) }
    requires unvisited { IsBeforeBlocks floor.now.hierarchy (actor_of player.old.actor) }
    ensures since { IsOpenSince floor.now player.old player.new }
    ensures unvisited { IsBeforeBlocks floor.now.hierarchy (actor_of player.new.actor) }
{
    for _ in rt.forever() {
        if !go_nearer(rt, alloc, floor, player) {
            return;
        }
    }
    unreachable!()
}

/// The session's query goes on by one step, where it has read no gate. It says whether there may be another such step.
fn go_nearer<R: Wait>(rt: &R, alloc: Global, floor: &Floor, player: &mut Player) -> bool
    requires command { (start : Player) × IsOpenSince floor.now start player.old }
    requires query { (of : ℕ) × ((actor_of player.old.actor).command ≡ doing of Query) }
    requires unvisited { IsBeforeBlocks floor.now.hierarchy (actor_of player.old.actor) }
    ensures since { (start : Player) → IsOpenSince floor.now start player.old → IsOpenSince floor.now start player.new }
    ensures unvisited { IsBeforeBlocks floor.now.hierarchy (actor_of player.new.actor) }
{
    match &player.actor.errand {
        None => take_waiting(rt, alloc, floor, player),
        Some(errand) => match &errand.task {
            Task::Unread(_) => {
                // The steps of a cursor are not counted.
                let mut steps = Steps::new();
                go_on_at_part(rt, alloc, floor, player, &mut steps);
                true
            }
            _ => false,
        },
    }
}
