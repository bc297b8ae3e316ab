//! What is tested of `volap_cell`.
ghost use Rattle.std.specs.Prelude.{◌≡◌, ◌<◌, [], ◌∷◌, length, IfOk};
ghost use Rattle.library_runs.specs.volap_cell.specs.State.{CanLift};
ghost use Rattle.library_runs.specs.volap_cell.specs.declared.role.Role.TheVariants.{Session, Admin};

use dim_hierarchy::Hierarchy;
use library_runs::of_volap_cell::{Boxes, Cell, Role, RoleList, State, lift_one, open, put_one};
use query_router::Desk;
use row_ledger::Use;
use std::alloc::{AllocError, Global};
use std::test::Fail;

/// The desk of a server.
fn desk(alloc: Global, server: u8) -> Result<Cell, AllocError> {
    Ok(Cell::Desk {
        server,
        desk: Box::new(alloc, Desk::new(alloc))?,
    })
}

/// The desks of three servers.
fn desks(alloc: Global) -> Result<Vec<Option<Cell>>, AllocError>
    ensures many { IfOk result (λ cells. length cells.items ≡ 3) }
    ensures there { IfOk result (λ cells. CanLift cells.items (2 ∷ 0 ∷ [])) }
{
    let mut cells = Vec::new(alloc);
    cells.push(Some(desk(alloc, 0)?))?;
    cells.push(Some(desk(alloc, 1)?))?;
    cells.push(Some(desk(alloc, 2)?))?;
    Ok(cells)
}

/// Whose desk it is.
fn server_of(cell: &Cell) -> Option<u8> {
    match cell {
        Cell::Desk { server, .. } => Some(*server),
        _ => None,
    }
}

/// Whose desk stands at a place.
fn server_at(cells: &[Option<Cell>], at: usize) -> Option<u8>
    requires within { at < length cells.now }
{
    match &cells[at] {
        Some(cell) => server_of(cell),
        None => None,
    }
}

#[test]
fn two_cells_are_moved_out_and_put_back(rt: HostRuntime) -> Result<(), Fail> {
    let mut cells = desks(rt.alloc())?;
    let first = lift_one(&mut cells, 2);
    let second = lift_one(&mut cells, 0);
    assert_eq!(rt; (server_of(&first), server_of(&second)), (Some(2), Some(0)));
    assert!(rt; cells[0].is_none() && cells[1].is_some() && cells[2].is_none());
    put_one(&mut cells, 0, first);
    put_one(&mut cells, 2, second);
    assert_eq!(rt; server_at(&cells, 0), Some(2));
    assert_eq!(rt; server_at(&cells, 1), Some(1));
    assert_eq!(rt; server_at(&cells, 2), Some(0));
    Ok(())
}

#[test]
fn a_place_takes_few_bytes(rt: HostRuntime) {
    assert!(rt; size_of::<Cell>() <= 16);
    assert!(rt; size_of::<Option<Cell>>() <= 24);
}

/// A session of server 0, and the administrator.
fn two_roles(alloc: Global) -> Result<RoleList, AllocError>
    ensures { IfOk result (λ roles. roles ≡ Session 0 ∷ Admin ∷ []) }
{
    let mut roles = RoleList::new(alloc);
    roles.push(Role::Session { server: 0 })?;
    roles.push(Role::Admin)?;
    Ok(roles)
}

/// A core of two servers and two workers, with 16384 cells in the stock.
fn opened(alloc: Global, h: &Hierarchy) -> Result<State, AllocError>
    requires { h.now ≡ [] }
{
    let with = Use {
        servers: 2,
        workers: 2,
        threads: 1,
        cells: 16384,
    };
    open(alloc, h, &with, two_roles(alloc)?)
}

/// How many cells are there, and not free.
fn filled(cells: &[Option<Cell>]) -> usize {
    cells
        .iter()
        .filter(|cell| match cell {
            Some(Cell::Free) => false,
            Some(_) => true,
            None => false,
        })
        .count()
}

#[test]
fn a_core_is_opened(rt: HostRuntime) -> Result<(), Fail> {
    let h = Hierarchy::new(rt.alloc());
    let state = opened(rt.alloc(), &h)?;
    assert_eq!(rt; (state.cells.len(), state.actors.len()), (16393, 2));
    assert_eq!(rt; filled(&state.cells), 13);
    Ok(())
}

#[test]
fn boxes_are_made_until_there_are_as_many_as_asked_for(rt: HostRuntime) -> Result<(), Fail> {
    let mut boxes = Boxes::new(rt.alloc());
    boxes.refill(3)?;
    assert_eq!(rt; boxes.count(), 3);
    boxes.refill(2)?;
    assert_eq!(rt; boxes.count(), 3);
    boxes.refill(5)?;
    assert_eq!(rt; boxes.count(), 5);
    Ok(())
}
