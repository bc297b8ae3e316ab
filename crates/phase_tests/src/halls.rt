//! Small halls: two roles over one dimension with one place.
ghost use Rattle.std.specs.Prelude.{◌≡◌, ◌<◌, ◌∷◌, [], All, IfOk, Some, length, slice_get};
ghost use Rattle.dim_hierarchy.specs.Names.{IsNamePick};
ghost use Rattle.hall_hands.specs.actor_run.specs.Passes.{HasTaken, IsPassOf, IsPassesOf};
ghost use Rattle.phase_tests.specs.Pairs.{IsPaired, IsThere, pair};

use dim_hierarchy::{Hierarchy, Name, NameFilter, NamePick, RowNames};
use hall_hands::of_actor_run::{Hall, Pass, Passes};
use hall_hands::of_volap_cell::{Role, RoleList};
use row_ledger::Use;
use std::alloc::{AllocError, Global};
use std::process::Abort;
use std::test::Fail;

/// Two servers and a worker.
const WITH: Use = Use {
    servers: 2,
    workers: 1,
    threads: 1,
    cells: 256,
};

/// One dimension with one place.
fn one_place(alloc: Global) -> Result<Hierarchy, Fail>
    ensures { IfOk result (λ h. length h ≡ 1) }
{
    let mut h = Hierarchy::new(alloc);
    let Ok(dim) = h.add_dim(&Name::from_bytes(alloc, b"place")?, 1) else {
        return Err("there is room for a dimension".into());
    };
    let Ok(_) = h.add_concept(dim, &Name::from_bytes(alloc, b"berlin")?, None) else {
        return Err("there is room for a place".into());
    };
    if h.dims() != 1 {
        return Err("there is one dimension".into());
    }
    Ok(h)
}

/// The names of a row at the place.
pub(crate) fn row(alloc: Global) -> Result<RowNames, AllocError>
    ensures { IfOk result (λ names. length names ≡ 1) }
{
    let mut names = RowNames::new(alloc);
    names.push(b"berlin")?;
    Ok(names)
}

/// The question for all rows.
pub(crate) fn all_rows(alloc: Global) -> Result<NameFilter, AllocError>
    ensures { IfOk result (λ picks. (length picks ≡ 1) × All IsNamePick picks) }
{
    let mut all = NameFilter::new(alloc);
    all.push(NamePick::All)?;
    Ok(all)
}

/// A session of the first server, and another role.
fn roles(alloc: Global, other: Role) -> Result<RoleList, AllocError>
    ensures { IfOk result (λ roles. roles ≡ pair other) }
{
    let mut roles = RoleList::new(alloc);
    roles.push(Role::Session { server: 0 })?;
    roles.push(other)?;
    Ok(roles)
}

/// Opens a hall for a session of the first server, and another role.
pub(crate) fn opened(alloc: Global, other: Role) -> Result<(Hall, Passes), Fail>
    requires { IsThere other }
    ensures paired { IfOk result (λ r. IsPaired r.0 r.1) }
    ensures second { IfOk result (λ r. slice_get r.1.setting.roles 1 ≡ Some other) }
{
    let h = one_place(alloc)?;
    let _dims = h.dims();
    let roles = roles(alloc, other)?;
    let both = Hall::open(alloc, WITH, h, roles)?;
    Ok(both)
}

/// The pass of this number, which is in.
pub(crate) fn pass<R: Abort>(rt: &R, hall: &Hall, passes: &mut Passes, number: u16) -> Pass
    requires own { IsPassesOf hall.now passes.old }
    ensures own { IsPassesOf hall.now passes.new }
    ensures taken { HasTaken number passes.old passes.new result }
    ensures of { IsPassOf hall.now result }
{
    let Some(pass) = passes.take(hall, number) else {
        panic!(rt; "the pass is in");
    };
    pass
}
