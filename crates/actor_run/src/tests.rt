//! A hall opens, gives out its passes, has them back, and closes.
ghost use Rattle.std.specs.Prelude.{◌≡◌, ◌<◌, [], ◌∷◌, length, IfOk};
ghost use Rattle.actor_run.specs.Passes.{AreAllIn, IsPassesOf};
ghost use Rattle.dim_hierarchy.specs.Dimension.{IsHierarchy};
ghost use Rattle.whole_steps.specs.volap_cell.specs.declared.role.Role.TheVariants.{Session};

use crate::{Hall, Passes};
use dim_hierarchy::{Hierarchy, Name};
use row_ledger::Use;
use std::alloc::{AllocError, Global};
use std::test::Fail;
use whole_steps::of_volap_cell::{Cell, Role, RoleList, State};

/// One dimension, with no concept but the one of all.
fn one_dimension(alloc: Global) -> Result<Hierarchy, AllocError>
    ensures some { IfOk result (λ h. 0 < length h) }
    ensures valid { IfOk result IsHierarchy }
{
    let mut h = Hierarchy::new(alloc);
    let name = Name::from_bytes(alloc, b"Place")?;
    let added = h.add_dim(&name, 1);
    let _count = h.dims();
    match added {
        Ok(_) => Ok(h),
        Err(_) => Err(AllocError),
    }
}

/// A session of each of two servers.
fn two_sessions(alloc: Global) -> Result<RoleList, AllocError>
    ensures { IfOk result (λ roles. roles ≡ Session 0 ∷ Session 1 ∷ []) }
{
    let mut roles = RoleList::new(alloc);
    roles.push(Role::Session { server: 0 })?;
    roles.push(Role::Session { server: 1 })?;
    Ok(roles)
}

/// A hall of two servers and a worker.
fn opened(alloc: Global) -> Result<(Hall, Passes), AllocError>
    ensures own { IfOk result (λ r. IsPassesOf r.0 r.1) }
    ensures all { IfOk result (λ r. AreAllIn r.1) }
{
    let with = Use {
        servers: 2,
        workers: 1,
        threads: 1,
        cells: 64,
    };
    let h = one_dimension(alloc)?;
    let roles = two_sessions(alloc)?;
    Hall::open(alloc, with, h, roles)
}

/// How many events the history of a state has.
fn event_count(state: &State) -> u64 {
    match state.cells.first() {
        Some(Some(Cell::Ledger(ledger))) => ledger.len(),
        _ => 0,
    }
}

#[test]
fn a_hall_closes_when_all_passes_are_in(rt: HostRuntime) -> Result<(), Fail> {
    let (hall, mut passes) = opened(rt.alloc())?;
    let Some(first) = passes.take(&hall, 0) else {
        panic!(rt; "the first pass is out");
    };
    let Some(second) = passes.take(&hall, 1) else {
        panic!(rt; "the second pass is out");
    };
    let None = passes.take(&hall, 1) else {
        panic!(rt; "a pass is given out twice");
    };
    let None = passes.take(&hall, 2) else {
        panic!(rt; "the hall's own pass is given out");
    };
    passes.give(&hall, second);
    passes.give(&hall, first);
    let state = hall.close(passes);
    assert_eq!(rt; event_count(&state), 2);
    Ok(())
}
