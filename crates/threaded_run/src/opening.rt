//! The hall of a script's run.
ghost use Rattle.std.specs.Prelude.{◌<◌, [], length, IfOk};
ghost use Rattle.hall_hands.specs.actor_run.specs.Halls.{HasOpened};
ghost use Rattle.dim_hierarchy.specs.Dimension.{IsHierarchy};
ghost use Rattle.script_form.specs.Fits.{AreSettings};
ghost use Rattle.script_roles.specs.Roles.{roles_of};
ghost use Rattle.script_run.specs.Between.{IsThrough};
ghost use Rattle.threaded_run.specs.Phases.{ArePhased};

use dim_hierarchy::Hierarchy;
use hall_hands::of_actor_run::{Hall, Passes};
use row_ledger::Use;
use script_roles::script_roles;
use script_run::laws::phases_begin_and_end;
use std::alloc::{AllocError, Global};

/// Opens a hall with a pass for each actor of a script's run: a session for each server, then a puller, the administrator and
/// the hands of each worker. No command has begun in it. It fails for want of memory alone.
pub fn open(alloc: Global, with: Use, hierarchy: Hierarchy) -> Result<(Hall, Passes), AllocError>
    requires settings { AreSettings with }
    requires hierarchy { IsHierarchy hierarchy }
    requires dims { 0 < length hierarchy }
    ensures opened { IfOk result (λ r. HasOpened hierarchy with (roles_of with) r.0 r.1) }
    ensures phased { IfOk result (λ r. ArePhased r.0 r.1) }
    ensures through { IfOk result (λ r. IsThrough with hierarchy [] r.1.seen) }
{
    phases_begin_and_end();
    let roles = script_roles(alloc, &with)?;
    Hall::open(alloc, with, hierarchy, roles)
}
