//! A part whose shard was split goes on to the children.
ghost use Rattle.std.specs.Prelude.{◌≡◌, ◌++◌, [], ◌∷◌, None, Some, IfOk, OnErr, OnOk};
ghost use Rattle.core_shard.specs.Due.{CanDivide, CanExpand, CanGoDown, Divides, HasFilter, IsRowOn, AreBothOn};
ghost use Rattle.query_router.specs.Desk.{IsAt, is_taken};
ghost use Rattle.query_router.specs.declared.part.Want.TheVariants.{Filter as OfFilter};
ghost use Rattle.volap_cell.specs.Cells.{cell_of};
ghost use Rattle.volap_cell.specs.ShardKinds.{child_for, waiting as waiting_for};
ghost use Rattle.volap_cell.specs.Steps.{IsHere, Makes};
ghost use Rattle.volap_cell.specs.Values.{actor_of, errand_of};
ghost use Rattle.volap_cell.specs.World.{change, held};
ghost use Rattle.volap_cell.specs.declared.errand.Errand.{Errand as ErrandIs};
ghost use Rattle.volap_cell.specs.declared.errand.RowErrand.{RowErrand};
ghost use Rattle.volap_cell.specs.declared.errand.Task.TheVariants.{Row as OfARow};
ghost use Rattle.volap_cell.specs.declared.kind.Kind.TheVariants.{Expand};

use crate::errands::{leave, waiting};
use describing_set::{Path, Plane, goes_left};
use dim_hierarchy::{Filter, Hierarchy, copy_filter};
use mapping_table::{MapTable, Where};
use query_router::{Desk, Part, PartState, Want};
use std::alloc::{AllocError, Global};
use volap_cell::{Actor, Cell, Errand, Task, desk_in, map_in, there};

/// Puts the actor's part back on its desk, where it waits for the children of its shard, which the table
/// says was split: a row's for the child on its side, a query's for both. It takes memory for the row's
/// path, and for a filter of each child's own.
pub fn expand(
    alloc: Global,
    h: &Hierarchy,
    map_at: u32,
    map: &mut Cell,
    desk_at: u32,
    desk: &mut Cell,
    actor: &mut Actor,
) -> Result<(), AllocError>
    requires here { IsHere h.now (held map_at (cell_of map.old) ∷ held desk_at (cell_of desk.old) ∷ []) (actor_of actor.old) }
    requires due { CanExpand (cell_of map.old) (cell_of desk.old) (actor_of actor.old) }
    ensures made { OnOk result (Makes h.now Expand
        (change map_at (cell_of map.old) (cell_of map.new) ∷ change desk_at (cell_of desk.old) (cell_of desk.new) ∷ [])
        (actor_of actor.old) (actor_of actor.new)) }
    ensures refused { OnErr result ((map.new ≡ map.old) × (desk.new ≡ desk.old) × (actor_of actor.new ≡ actor_of actor.old)) }
{
    let map = map_in(map);
    let desk = desk_in(desk);
    divide(alloc, h, map, desk, &mut actor.errand)
}

/// The errand's part gives way on the desk to one for a child of its shard, or to one for each.
fn divide(
    alloc: Global,
    h: &Hierarchy,
    map: &MapTable,
    desk: &mut Desk,
    errand: &mut Option<Errand>,
) -> Result<(), AllocError>
    requires due { CanDivide h.now map.now desk.old errand.old }
    ensures done { OnOk result ((e : ErrandIs) → errand.old ≡ Some e → Divides h.now map.now desk.old desk.new (errand_of e)) }
    ensures left { OnOk result (errand.new ≡ None) }
    ensures refused { OnErr result ((desk.new ≡ desk.old) × (errand.new ≡ errand.old)) }
{
    let had = there(errand);
    let Some(Where::Split { plane, left, right }) = map.look(had.shard) else {
        unreachable!()
    };
    let place = desk.taken(had.shard, had.worker).unwrap();
    if let Task::Row(_) = &had.task {
        return row_on(h, plane, *left, *right, place, desk, errand);
    }
    both_on(alloc, *left, *right, place, desk, errand)
}

/// A row's part goes on to the child on its side.
fn row_on(
    h: &Hierarchy,
    plane: &Plane,
    left: u32,
    right: u32,
    place: usize,
    desk: &mut Desk,
    errand: &mut Option<Errand>,
) -> Result<(), AllocError>
    requires due { CanGoDown h.now plane.now errand.old }
    requires taken { IsAt is_taken desk.old.parts place }
    ensures done { OnOk result ((e : ErrandIs) → (r : RowErrand) → errand.old ≡ Some e → e.task ≡ OfARow r
        → IsRowOn h.now plane.now left right place desk.old desk.new e r) }
    ensures left { OnOk result (errand.new ≡ None) }
    ensures refused { OnErr result ((desk.new ≡ desk.old) × (errand.new ≡ errand.old)) }
{
    go_down(h, plane, left, right, errand)?;
    let had = leave(errand);
    let worker = had.worker;
    let part = waiting(had, worker, desk.no_path());
    desk.set(place, part);
    Ok(())
}

/// The errand of a row becomes one for the child on its side, which its path gets.
fn go_down(
    h: &Hierarchy,
    plane: &Plane,
    left: u32,
    right: u32,
    errand: &mut Option<Errand>,
) -> Result<(), AllocError>
    requires due { CanGoDown h.now plane.now errand.old }
    ensures done { OnOk result ((e : ErrandIs) → (r : RowErrand) → errand.old ≡ Some e → e.task ≡ OfARow r
        → errand.new ≡ Some (record e { shard = child_for h.now plane.now left right r; task = OfARow (record r { path = r.path ++ child_for h.now plane.now left right r ∷ [] }) })) }
    ensures refused { OnErr result (errand.new ≡ errand.old) }
{
    let Some(had) = errand else { unreachable!() };
    let Task::Row(going) = &mut had.task else {
        unreachable!()
    };
    let child = if goes_left(h, plane, &going.row.at) {
        left
    } else {
        right
    };
    going.path.push(child)?;
    had.shard = child;
    Ok(())
}

/// A query's part goes on to both children.
fn both_on(
    alloc: Global,
    left: u32,
    right: u32,
    place: usize,
    desk: &mut Desk,
    errand: &mut Option<Errand>,
) -> Result<(), AllocError>
    requires due { HasFilter errand.old }
    requires taken { IsAt is_taken desk.old.parts place }
    ensures done { OnOk result ((e : ErrandIs) → errand.old ≡ Some e → AreBothOn left right place desk.old desk.new e) }
    ensures left { OnOk result (errand.new ≡ None) }
    ensures refused { OnErr result ((desk.new ≡ desk.old) × (errand.new ≡ errand.old)) }
{
    let had = there(errand);
    let Task::Unread(filter) = &had.task else {
        unreachable!()
    };
    let one = child_part(alloc, left, had.worker, desk.no_path(), filter)?;
    let other = child_part(alloc, right, had.worker, desk.no_path(), filter)?;
    desk.expand(place, one, other)?;
    leave(errand);
    Ok(())
}

/// A query's part that waits for a child, with a filter of its own.
fn child_part(
    alloc: Global,
    shard: u32,
    worker: u8,
    no_path: Path,
    filter: &Filter,
) -> Result<Part, AllocError>
    requires empty { no_path ≡ [] }
    ensures { IfOk result (λ p. p ≡ waiting_for shard worker [] (OfFilter filter.now)) }
{
    Ok(Part {
        shard,
        worker,
        path: no_path,
        state: PartState::Waiting(Want::Filter(copy_filter(alloc, filter)?)),
    })
}
