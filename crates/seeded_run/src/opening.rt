//! The core of a script as it opens.
ghost use Rattle.std.specs.Prelude.{◌≡◌, Bool, [], IfOk};
ghost use Rattle.script_roles.specs.Roles.{CanOpen, roles_of};
ghost use Rattle.seeded_run.specs.Kept.{IsBetween};
ghost use Rattle.seeded_run.specs.Phase.{IsCoreHeld, about, held};
ghost use Rattle.core_pages.specs.volap_cell.specs.Opening.{IsOpening};

use core_pages::volap_cell::{State, open};
use dim_hierarchy::Hierarchy;
use row_ledger::Use;
use script_roles::script_roles;
use script_run::laws::phases_begin_and_end;
use std::alloc::{AllocError, Global};

/// The core of a script as it opens: its cells, and an actor for each session by server, for the puller and for the
/// administrator, and a hand for each thread of each worker. It meets the invariant, and no command has begun in it. It
/// takes memory for all of it, and fails for want of memory alone.
pub fn open_core(alloc: Global, h: &Hierarchy, with: &Use) -> Result<State, AllocError>
    requires { CanOpen h.now with.now }
    ensures core { IfOk result (IsCoreHeld h.now with.now) }
    ensures roles { IfOk result (λ x. (about h.now with.now x).roles ≡ roles_of with.now) }
    ensures between { IfOk result (λ x. (b : Bool) → IsBetween b (about h.now with.now x) with.now [] (held h.now with.now x)) }
    ensures opening { IfOk result (λ x. IsOpening (about h.now with.now x) (held h.now with.now x)) }
{
    phases_begin_and_end();
    let roles = script_roles(alloc, with)?;
    let state = open(alloc, h, with, roles)?;
    Ok(state)
}
