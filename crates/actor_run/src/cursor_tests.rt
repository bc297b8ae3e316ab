//! A cursor visits the blocks of its query one by one, and waits for nobody.
ghost use Rattle.std.specs.Prelude.{ℕ, ◌≡◌, [], ◌∷◌, ◌≤◌, All, false, length, IfOk};
ghost use mathlib.Core.Option.{some};
ghost use Rattle.actor_run.specs.Cursors.{HasRoom};
ghost use Rattle.actor_run.specs.Passes.{IsPassOf, IsPassesOf};
ghost use Rattle.actor_run.specs.Sessions.{IsSessionRole};
ghost use Rattle.dim_hierarchy.specs.Dimension.{IsHierarchy};
ghost use Rattle.dim_hierarchy.specs.Names.{IsNamePick};
ghost use Rattle.turn_table.specs.Numbered.{value_of};
ghost use Rattle.whole_steps.specs.volap_cell.specs.declared.actor.Actor.{Actor};
ghost use Rattle.whole_steps.specs.volap_cell.specs.declared.role.Role.TheVariants.{Admin, Session as OfSession};
ghost use Rattle.whole_steps.specs.volap_turns.specs.Rule.{Needs};

use crate::{Asked, Busy, Cursor, Hall, Inserted, Pass, Passes, Session, Visit};
use dim_hierarchy::{Hierarchy, Name, NameFilter, NamePick, Names, RowNames};
use row_ledger::Use;
use std::alloc::{AllocError, Global};
use std::sync::Wait;
use std::test::Fail;
use turn_table::Seat;
use volap_io::Quiet;
use whole_steps::of_seat_steps::Player;
use whole_steps::of_session_steps::noted_by;
use whole_steps::of_volap_cell::{Role, RoleList};
use whole_steps::of_volap_turns::Volap;

/// One dimension with two cities.
fn two_cities(alloc: Global) -> Result<Hierarchy, Fail>
    ensures one { IfOk result (λ h. length h ≡ 1) }
    ensures valid { IfOk result IsHierarchy }
{
    let mut h = Hierarchy::new(alloc);
    let city = h.add_dim(&Name::from_bytes(alloc, b"city")?, 1)?;
    h.add_concept(city, &Name::from_bytes(alloc, b"berlin")?, None)?;
    h.add_concept(city, &Name::from_bytes(alloc, b"munich")?, None)?;
    let _count = h.dims();
    Ok(h)
}

/// Two sessions of the first server.
fn two_sessions(alloc: Global) -> Result<RoleList, AllocError>
    ensures { IfOk result (λ roles. roles ≡ OfSession 0 ∷ OfSession 0 ∷ []) }
{
    let mut roles = RoleList::new(alloc);
    roles.push(Role::Session { server: 0 })?;
    roles.push(Role::Session { server: 0 })?;
    Ok(roles)
}

/// A hall of a server and a worker.
fn opened(alloc: Global) -> Result<(Hall, Passes), Fail>
    ensures own { IfOk result (λ r. IsPassesOf r.0 r.1) }
    ensures one { IfOk result (λ r. length r.0.hierarchy ≡ 1) }
    ensures roles { IfOk result (λ r. r.1.setting.roles ≡ OfSession 0 ∷ OfSession 0 ∷ Admin ∷ []) }
{
    let with = Use {
        servers: 1,
        workers: 1,
        threads: 1,
        cells: 64,
    };
    let h = two_cities(alloc)?;
    let roles = two_sessions(alloc)?;
    Ok(Hall::open(alloc, with, h, roles)?)
}

/// The name of a row in the one dimension.
fn row(alloc: Global, city: &[u8]) -> Result<RowNames, AllocError>
    requires { length city.now ≤ 255 }
    ensures { IfOk result (λ names. length names ≡ 1) }
{
    let mut names = RowNames::new(alloc);
    names.push(city)?;
    Ok(names)
}

/// The rows of one city.
fn rows_of(alloc: Global, city: &[u8]) -> Result<NameFilter, AllocError>
    ensures one { IfOk result (λ names. length names ≡ 1) }
    ensures some { IfOk result (All IsNamePick) }
{
    let mut names = Names::new(alloc);
    names.push(Name::from_bytes(alloc, city)?)?;
    let mut filter = NameFilter::new(alloc);
    filter.push(NamePick::Any(names))?;
    Ok(filter)
}

/// Inserts a row of measure 1.
fn insert<'a, R: Wait + Sync>(
    rt: &R,
    alloc: Global,
    session: &mut Session<'a>,
    names: &RowNames,
) -> Result<(), Fail>
    requires names { length names.now ≡ length session.old.floor.hierarchy }
    ensures floor { session.new.floor ≡ session.old.floor }
{
    match session.insert(rt, alloc, names, 1, &Quiet) {
        Inserted::Ok { .. } => Ok(()),
        _ => Err("a row is not inserted".into()),
    }
}

/// Inserts 33 rows at the two cities in turn, so that a leaf is divided.
fn insert_all<'a, R: Wait + Sync>(
    rt: &R,
    alloc: Global,
    session: &mut Session<'a>,
) -> Result<(), Fail>
    requires one { length session.old.floor.hierarchy ≡ 1 }
    ensures floor { session.new.floor ≡ session.old.floor }
{
    let berlin = row(alloc, b"berlin")?;
    let munich = row(alloc, b"munich")?;
    insert(rt, alloc, session, &berlin)?;
    for _ in 0..16 {
        insert(rt, alloc, session, &munich)?;
        insert(rt, alloc, session, &berlin)?;
    }
    Ok(())
}

/// The seat of a pass, at which nothing is held or kept. The actor is handed to `drop`, here and below: where it goes out of scope,
/// the function is as long as all that an actor has.
fn seat_of(pass: Pass) -> Seat<Volap>
    ensures own { result.table_id ≡ pass.table }
    ensures empty { result.view.held ≡ [] }
    ensures home { result.lifted ≡ false }
    ensures idle { (j : ℕ) (x : Actor) (y : ℕ) → value_of result.view.actors j ≡ some x → Needs x y → ⊥ }
{
    let Pass { player } = pass;
    let Player { actor, seat, .. } = player;
    drop(actor);
    seat
}

/// What the cursor's visit answers while this seat holds a cell. `None` where the seat can't have it.
fn visit_beside<'a>(
    hall: &Hall,
    seat: &mut Seat<Volap>,
    cell: u32,
    cursor: &mut Cursor<'a>,
) -> Option<Result<Visit, Busy>>
    requires own { seat.old.table_id ≡ hall.now.table }
    requires empty { seat.old.view.held ≡ [] }
    requires home { seat.old.lifted ≡ false }
    requires idle { (j : ℕ) (x : Actor) (y : ℕ) → value_of seat.old.view.actors j ≡ some x → Needs x y → ⊥ }
    requires room { HasRoom cursor.old }
    ensures own { seat.new.table_id ≡ hall.now.table }
    ensures empty { seat.new.view.held ≡ [] }
    ensures home { seat.new.lifted ≡ false }
    ensures idle { (j : ℕ) (x : Actor) (y : ℕ) → value_of seat.new.view.actors j ≡ some x → Needs x y → ⊥ }
{
    let table = &hall.floor.table;
    if cell as usize >= table.len() {
        return None;
    }
    match table.try_take(seat, cell) {
        Err(_) => None,
        Ok(()) => {
            let answer = cursor.try_visit();
            table.release(seat, cell);
            Some(answer)
        }
    }
}

/// The block that the cursor's query noted last.
fn noted<'a>(cursor: &Cursor<'a>) -> Option<u32> {
    noted_by(&cursor.player.actor)
}

/// Whether a visit was refused at this block, by a word that says so.
fn is_refused_at(answer: Option<Result<Visit, Busy>>, block: u32) -> bool {
    match answer {
        Some(Err(busy)) => busy.cell == block && busy.word != 0,
        _ => false,
    }
}

/// Whether a block was visited.
fn is_visit(answer: Option<Result<Visit, Busy>>) -> bool {
    match answer {
        Some(Ok(Visit::Went)) => true,
        _ => false,
    }
}

/// Whether the cursor is refused at the root while the seat holds it.
fn waits_for_root<'a>(
    hall: &Hall,
    seat: &mut Seat<Volap>,
    root: u32,
    cursor: &mut Cursor<'a>,
) -> bool
    requires own { seat.old.table_id ≡ hall.now.table }
    requires empty { seat.old.view.held ≡ [] }
    requires home { seat.old.lifted ≡ false }
    requires idle { (j : ℕ) (x : Actor) (y : ℕ) → value_of seat.old.view.actors j ≡ some x → Needs x y → ⊥ }
    ensures own { seat.new.table_id ≡ hall.now.table }
    ensures empty { seat.new.view.held ≡ [] }
    ensures home { seat.new.lifted ≡ false }
    ensures idle { (j : ℕ) (x : Actor) (y : ℕ) → value_of seat.new.view.actors j ≡ some x → Needs x y → ⊥ }
{
    match cursor.reserve() {
        Ok(()) => is_refused_at(visit_beside(hall, seat, root, cursor), root),
        Err(_) => false,
    }
}

/// Whether the cursor visits the root while the seat holds the block before it.
fn visits_root<'a>(hall: &Hall, seat: &mut Seat<Volap>, root: u32, cursor: &mut Cursor<'a>) -> bool
    requires own { seat.old.table_id ≡ hall.now.table }
    requires empty { seat.old.view.held ≡ [] }
    requires home { seat.old.lifted ≡ false }
    requires idle { (j : ℕ) (x : Actor) (y : ℕ) → value_of seat.old.view.actors j ≡ some x → Needs x y → ⊥ }
{
    match cursor.reserve() {
        Ok(()) => is_visit(visit_beside(hall, seat, root.saturating_sub(1), cursor)),
        Err(_) => false,
    }
}

/// Whether no block is left for the cursor.
fn is_through<'a>(cursor: &mut Cursor<'a>) -> bool {
    match cursor.reserve() {
        Ok(()) => match cursor.try_visit() {
            Ok(Visit::NonePending) => true,
            _ => false,
        },
        Err(_) => false,
    }
}

/// Whether the cursor is refused at the root, then visits it, and no other block.
fn visits_all<'a>(hall: &Hall, seat: &mut Seat<Volap>, cursor: &mut Cursor<'a>) -> bool
    requires own { seat.old.table_id ≡ hall.now.table }
    requires empty { seat.old.view.held ≡ [] }
    requires home { seat.old.lifted ≡ false }
    requires idle { (j : ℕ) (x : Actor) (y : ℕ) → value_of seat.old.view.actors j ≡ some x → Needs x y → ⊥ }
{
    match noted(cursor) {
        Some(root) => {
            waits_for_root(hall, seat, root, cursor)
                && visits_root(hall, seat, root, cursor)
                && is_through(cursor)
        }
        None => false,
    }
}

/// Whether the answer is that of the 16 rows of one city.
fn is_of_16_rows(answer: Asked) -> bool {
    match answer {
        Asked::Answer { agg, .. } => {
            agg.count() == 16
                && agg.sum() == 16
                && agg.least() == Some(1)
                && agg.greatest() == Some(1)
        }
        _ => false,
    }
}

/// A query of the session, block by block beside this seat. The session comes back, and whether all went as it should.
fn query<'a, R: Wait + Sync>(
    rt: &R,
    alloc: Global,
    hall: &Hall,
    seat: &mut Seat<Volap>,
    session: Session<'a>,
    filter: &NameFilter,
) -> (Session<'a>, bool)
    requires count { length filter.now ≡ length session.floor.hierarchy }
    requires some { All IsNamePick filter.now }
    requires own { seat.old.table_id ≡ hall.now.table }
    requires empty { seat.old.view.held ≡ [] }
    requires home { seat.old.lifted ≡ false }
    requires idle { (j : ℕ) (x : Actor) (y : ℕ) → value_of seat.old.view.actors j ≡ some x → Needs x y → ⊥ }
{
    match session.cursor(rt, alloc, filter) {
        Ok(mut cursor) => {
            let visits = visits_all(hall, seat, &mut cursor);
            let (session, answer) = cursor.finish(rt, alloc);
            (session, visits && is_of_16_rows(answer))
        }
        Err((session, _)) => (session, false),
    }
}

/// The end of a session whose pass nobody wants.
fn put_away<'a>(session: Session<'a>) {
    let Session { player, .. } = session;
    let Player { actor, .. } = player;
    drop(actor)
}

/// Inserts all rows in a session of this pass, then asks for some of them beside this seat. Answers whether all went as it should.
fn run<R: Wait + Sync>(
    rt: &R,
    alloc: Global,
    hall: &Hall,
    pass: Pass,
    seat: &mut Seat<Volap>,
    filter: &NameFilter,
) -> Result<bool, Fail>
    requires of { IsPassOf hall.now pass }
    requires role { IsSessionRole pass.role }
    requires one { length hall.now.hierarchy ≡ 1 }
    requires count { length filter.now ≡ 1 }
    requires some { All IsNamePick filter.now }
    requires own { seat.old.table_id ≡ hall.now.table }
    requires empty { seat.old.view.held ≡ [] }
    requires home { seat.old.lifted ≡ false }
    requires idle { (j : ℕ) (x : Actor) (y : ℕ) → value_of seat.old.view.actors j ≡ some x → Needs x y → ⊥ }
{
    let mut session = Session::new(rt, hall, pass);
    let inserted = insert_all(rt, alloc, &mut session);
    let (session, is_right) = query(rt, alloc, hall, seat, session, filter);
    put_away(session);
    inserted?;
    Ok(is_right)
}

/// The same for the first pass, beside the seat of the second.
fn run_beside<R: Wait + Sync>(
    rt: &R,
    alloc: Global,
    hall: &Hall,
    passes: &mut Passes,
    filter: &NameFilter,
) -> Result<bool, Fail>
    requires one { length hall.now.hierarchy ≡ 1 }
    requires own { IsPassesOf hall.now passes.old }
    requires roles { passes.old.setting.roles ≡ OfSession 0 ∷ OfSession 0 ∷ Admin ∷ [] }
    requires count { length filter.now ≡ 1 }
    requires some { All IsNamePick filter.now }
{
    let Some(pass) = passes.take(hall, 0) else {
        return Ok(false);
    };
    match passes.take(hall, 1) {
        Some(spare) => {
            let mut seat = seat_of(spare);
            run(rt, alloc, hall, pass, &mut seat, filter)
        }
        None => {
            passes.give(hall, pass);
            Ok(false)
        }
    }
}

/// The end of a hall whose passes are not all in.
fn end(hall: Hall, passes: Passes) {
    let Passes { own, .. } = passes;
    drop(own);
    drop(hall)
}

#[test]
fn a_cursor_waits_for_nobody(rt: HostRuntime) -> Result<(), Fail> {
    let alloc = rt.alloc();
    let filter = rows_of(alloc, b"munich")?;
    let (hall, mut passes) = opened(alloc)?;
    let result = run_beside(&rt, alloc, &hall, &mut passes, &filter);
    end(hall, passes);
    let is_right = result?;
    assert!(rt; is_right);
    Ok(())
}
