//! What a session's calls do at its seat.
ghost use Rattle.std.specs.Prelude.{ℕ, ◌≡◌, ◌<◌, ◌≤◌, List, All, length, IfSome, IfNone, IfOk, IfErr, OnOk, OnErr};
ghost use Rattle.actor_run.specs.Cursors.{IsNoAnswer};
ghost use Rattle.actor_run.specs.Doing.{Does, HasDone, HasTold, HasRefused};
ghost use Rattle.actor_run.specs.Everything.{CostsFew, IsFew};
ghost use Rattle.actor_run.specs.Sessions.{BeganNothing, EndedQuery, EndsSync, IsSession, TriesInsert, TriesQuery};
ghost use Rattle.dim_hierarchy.specs.Filter.{IsFilterNamed, IsFilterOf};
ghost use Rattle.dim_hierarchy.specs.Names.{IsNamePick};
ghost use Rattle.dim_hierarchy.specs.Row.{IsCoordNamed, IsCoordOf};
ghost use Rattle.dim_hierarchy.specs.declared.filter.NamePick.{NamePick};
ghost use Rattle.whole_steps.specs.core_tree.specs.ReadDue.{IsOfAll};
ghost use Rattle.whole_steps.specs.seat_steps.specs.Booked.{IsAsBefore};
ghost use Rattle.whole_steps.specs.session_steps.specs.Begins.{CanBegin, HasAsked};
ghost use Rattle.whole_steps.specs.seat_steps.specs.Floors.{Stands};

use crate::bell::{Bell, HandBells};
use crate::driving::drive;
use crate::session::{Asked, Inserted, Synced};
use dim_hierarchy::{Coord, Filter, FilterFault, Measures, NameFilter, RowNames};
use std::alloc::{AllocError, Global};
use std::sync::Wait;
use volap_io::Meet;
use whole_steps::of_call_steps::Synced as Pulled;
use whole_steps::of_part_steps::Steps;
use whole_steps::of_seat_steps::{Floor, Player};
use whole_steps::of_session_steps::{
    Begun, End, begin_insert, begin_query, hear, note_refused, note_unknown,
};

/// The session inserts a row of these names and measures. It is an error where memory is wanting and nothing of the insert
/// stands in the history. `seen` is then how many events the session has seen.
pub(crate) fn insert<R: Wait + Sync, M: Meet>(
    rt: &R,
    alloc: Global,
    floor: &Floor,
    bell: &Bell,
    player: &mut Player,
    seen: &mut u64,
    names: &RowNames,
    measures: Measures,
    meet: &M,
) -> Result<Inserted, AllocError>
    requires session { (server : ℕ) × IsSession floor.now server player.old }
    requires names { length names.now ≡ length floor.now.hierarchy }
    ensures does { Does floor.now (TriesInsert result names.now measures) player.old player.new }
    ensures seen { seen.new ≡ length player.new.seat.view.seen }
{
    match floor.hierarchy.coord(names) {
        Ok(at) => insert_at(rt, alloc, floor, bell, player, seen, at, measures, meet),
        Err(dim) => {
            if note(rt, alloc, floor, player, seen, dim)? {
                Ok(Inserted::Unknown { dim })
            } else {
                Ok(Inserted::NoMemory)
            }
        }
    }
}

/// The same at this coordinate.
fn insert_at<R: Wait + Sync, M: Meet>(
    rt: &R,
    alloc: Global,
    floor: &Floor,
    bell: &Bell,
    player: &mut Player,
    seen: &mut u64,
    at: Coord,
    measures: Measures,
    meet: &M,
) -> Result<Inserted, AllocError>
    requires session { (server : ℕ) × IsSession floor.now server player.old }
    requires coord { IsCoordOf floor.now.hierarchy at }
    ensures does { (names : List (List ℕ)) → IsCoordNamed floor.now.hierarchy names at → Does floor.now (TriesInsert result names measures) player.old player.new }
    ensures seen { seen.new ≡ length player.new.seat.view.seen }
{
    let Ok(of) = begin_insert(rt, alloc, floor, player, at, measures) else {
        refuse(rt, alloc, floor, player, seen)?;
        return Ok(Inserted::NoMemory);
    };
    // The steps of an insert are not counted.
    let mut steps = Steps::new();
    let end = drive(rt, alloc, floor, bell, player, meet, &mut steps);
    *seen = player.actor.seen;
    match end {
        End::Acked => Ok(Inserted::Ok { of }),
        End::Answered(_) => unreachable!(),
        End::Failed => Ok(Inserted::NoMemory),
    }
}

/// The session asks for the aggregate of the rows that match these picks by name. It is an error where memory is wanting and
/// nothing of the query stands in the history. `seen` is then how many events the session has seen. The steps are counted.
pub(crate) fn query<R: Wait + Sync, M: Meet>(
    rt: &R,
    alloc: Global,
    floor: &Floor,
    bell: &Bell,
    hands: &HandBells,
    player: &mut Player,
    seen: &mut u64,
    filter: &NameFilter,
    meet: &M,
    steps: &mut Steps,
) -> Result<Asked, AllocError>
    requires session { (server : ℕ) × IsSession floor.now server player.old }
    requires count { length filter.now ≡ length floor.now.hierarchy }
    requires some { All IsNamePick filter.now }
    requires dims { 0 < length floor.now.hierarchy }
    ensures does { Does floor.now (TriesQuery result filter.now) player.old player.new }
    ensures seen { seen.new ≡ length player.new.seat.view.seen }
    ensures kept { steps.old ≤ steps.new }
    ensures steps { CostsFew floor.now filter.now player.new.seat.view.seen steps.old steps.new }
{
    match filter_for(rt, alloc, floor, player, seen, filter)? {
        Ok(picks) => query_with(
            rt, alloc, floor, bell, hands, player, seen, picks, meet, steps,
        ),
        Err(answer) => Ok(answer),
    }
}

/// The same with this filter.
fn query_with<R: Wait + Sync, M: Meet>(
    rt: &R,
    alloc: Global,
    floor: &Floor,
    bell: &Bell,
    hands: &HandBells,
    player: &mut Player,
    seen: &mut u64,
    filter: Filter,
    meet: &M,
    steps: &mut Steps,
) -> Result<Asked, AllocError>
    requires session { (server : ℕ) × IsSession floor.now server player.old }
    requires filter { IsFilterOf floor.now.hierarchy filter }
    requires dims { 0 < length floor.now.hierarchy }
    ensures does { (names : List NamePick) → IsFilterNamed floor.now.hierarchy names filter → Does floor.now (TriesQuery result names) player.old player.new }
    ensures seen { seen.new ≡ length player.new.seat.view.seen }
    ensures kept { steps.old ≤ steps.new }
    ensures steps { IsOfAll floor.now.hierarchy filter → IsFew floor.now player.new.seat.view.seen steps.old steps.new }
{
    let Some(of) = ask(rt, alloc, floor, bell, player, filter) else {
        refuse(rt, alloc, floor, player, seen)?;
        return Ok(Asked::NoMemory);
    };
    hands.ask(rt);
    let end = drive(rt, alloc, floor, bell, player, meet, steps);
    hands.answered();
    *seen = player.actor.seen;
    match end {
        End::Acked => unreachable!(),
        End::Answered(agg) => Ok(Asked::Answer { of, agg }),
        End::Failed => Ok(Asked::NoMemory),
    }
}

/// The session's server pulls. `seen` is then how many events the session has seen.
pub(crate) fn sync<R: Wait>(
    rt: &R,
    alloc: Global,
    floor: &Floor,
    player: &mut Player,
    seen: &mut u64,
    server: u8,
) -> Synced
    requires session { IsSession floor.now server player.old }
    ensures does { HasDone floor.now (EndsSync result) server player.old player.new }
    ensures seen { seen.new ≡ length player.new.seat.view.seen }
{
    let answer = match whole_steps::of_call_steps::sync(rt, alloc, floor, player, server) {
        Pulled::Ok(_) => Synced::Ok,
        Pulled::Failed(_) => Synced::NoMemory,
        Pulled::NotBegun => {
            let _ = refuse(rt, alloc, floor, player, seen);
            return Synced::NoMemory;
        }
    };
    *seen = player.actor.seen;
    answer
}

/// The filter of these picks by name. Where there is none, the answer says why, and the session has noted that; it is an error
/// where no memory is found for the note. `seen` is then how many events the session has seen.
pub(crate) fn filter_for<R: Wait>(
    rt: &R,
    alloc: Global,
    floor: &Floor,
    player: &mut Player,
    seen: &mut u64,
    names: &NameFilter,
) -> Result<Result<Filter, Asked>, AllocError>
    requires session { (server : ℕ) × IsSession floor.now server player.old }
    requires count { length names.now ≡ length floor.now.hierarchy }
    requires some { All IsNamePick names.now }
    ensures named { IfOk result (λ r. IfOk r (IsFilterNamed floor.now.hierarchy names.now)) }
    ensures same { IfOk result (λ r. OnOk r (player.new ≡ player.old)) }
    ensures refused { IfOk result (λ r. IfErr r (λ answer. Does floor.now (EndedQuery answer names.now) player.old player.new)) }
    ensures no_answer { IfOk result (λ r. IfErr r IsNoAnswer) }
    ensures seen { IfOk result (λ r. OnErr r (seen.new ≡ length player.new.seat.view.seen)) }
    ensures nothing { OnErr result (Does floor.now BeganNothing player.old player.new) }
    ensures heard { OnErr result (seen.new ≡ length player.new.seat.view.seen) }
{
    match floor.hierarchy.filter(alloc, names) {
        Ok(filter) => Ok(Ok(filter)),
        Err(FilterFault::Unknown { dim }) => {
            if note(rt, alloc, floor, player, seen, dim)? {
                Ok(Err(Asked::Unknown { dim }))
            } else {
                Ok(Err(Asked::NoMemory))
            }
        }
        Err(FilterFault::NoMemory) => {
            refuse(rt, alloc, floor, player, seen)?;
            Ok(Err(Asked::NoMemory))
        }
    }
}

/// The session begins a query as soon as the desk of its server is empty. The answer is the position of the event, and `None`
/// where there is no memory.
pub(crate) fn ask<R: Wait>(
    rt: &R,
    alloc: Global,
    floor: &Floor,
    bell: &Bell,
    player: &mut Player,
    filter: Filter,
) -> Option<u64>
    requires stands { Stands floor.now player.old }
    requires begins { CanBegin player.old }
    requires filter { IsFilterOf floor.now.hierarchy filter }
    requires dims { 0 < length floor.now.hierarchy }
    ensures begun { IfSome result (λ of. HasAsked floor.now of filter player.old player.new) }
    ensures same { IfNone result (IsAsBefore floor.now player.old player.new) }
{
    let mut asked = filter;
    for _ in rt.forever() {
        let rings = bell.rings();
        match begin_query(rt, alloc, floor, player, asked) {
            Begun::At(of) => return Some(of),
            Begun::Waits(back) => asked = back,
            Begun::NoMemory => return None,
        }
        bell.wait_past(rt, rings);
    }
    unreachable!()
}

/// The session notes that its next command finds no memory. It is an error where there is none for that. `seen` is then how many
/// events the session has seen.
pub(crate) fn refuse<R: Wait>(
    rt: &R,
    alloc: Global,
    floor: &Floor,
    player: &mut Player,
    seen: &mut u64,
) -> Result<(), AllocError>
    requires session { (server : ℕ) × IsSession floor.now server player.old }
    ensures does { Does floor.now (HasRefused result) player.old player.new }
    ensures seen { seen.new ≡ length player.new.seat.view.seen }
{
    match note_refused(rt, alloc, floor, player) {
        Ok(()) => {
            *seen = player.actor.seen;
            Ok(())
        }
        Err(fault) => {
            *seen = hear(rt, floor, player);
            Err(fault)
        }
    }
}

/// The session notes that its next command names what is not known, first in this dimension. Where there is no memory for
/// that, the command is refused, and the answer is false; it is an error where there is none for this either. `seen` is then
/// how many events the session has seen.
fn note<R: Wait>(
    rt: &R,
    alloc: Global,
    floor: &Floor,
    player: &mut Player,
    seen: &mut u64,
    dim: u8,
) -> Result<bool, AllocError>
    requires session { (server : ℕ) × IsSession floor.now server player.old }
    ensures does { Does floor.now (HasTold result dim) player.old player.new }
    ensures seen { seen.new ≡ length player.new.seat.view.seen }
{
    match note_unknown(rt, alloc, floor, player, dim) {
        Ok(()) => {
            *seen = player.actor.seen;
            Ok(true)
        }
        Err(_) => {
            refuse(rt, alloc, floor, player, seen)?;
            Ok(false)
        }
    }
}
