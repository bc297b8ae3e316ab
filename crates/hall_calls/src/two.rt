//! A hall with two sessions, of a server each, on a thread each.
ghost use Rattle.std.specs.Prelude.{◌≡◌, ◌≤◌, ◌<◌, ◌^◌, IfOk, length};
ghost use Rattle.std.specs.Thread.{IsSync};
ghost use Rattle.actor_run.specs.Passes.{IsPassOf};
ghost use Rattle.actor_run.specs.Sessions.{IsSessionRole};
ghost use Rattle.hall_calls.specs.Both.{HasBoth, two_servers, two_sessions};
ghost use Rattle.hall_calls.specs.Tells.{AreNamesFor, HasWorked};

use crate::work::{Places, Told, work};
use actor_run::of_volap_cell::{Role, RoleList, State};
use actor_run::{Hall, Pass};
use dim_hierarchy::Hierarchy;
use row_ledger::Use;
use std::alloc::{AllocError, Global};
use std::sync::Wait;
use std::thread::{Threads, join};

/// A session of each of two servers.
pub(crate) fn two_sessions(alloc: Global) -> Result<RoleList, AllocError>
    ensures { IfOk result (λ roles. roles ≡ two_sessions) }
{
    let mut roles = RoleList::new(alloc);
    roles.push(Role::Session { server: 0 })?;
    roles.push(Role::Session { server: 1 })?;
    Ok(roles)
}

/// Two servers and a worker.
pub(crate) fn two_servers(cells: u32) -> Use
    ensures { result ≡ two_servers cells }
{
    Use {
        servers: 2,
        workers: 1,
        threads: 1,
        cells,
    }
}

/// The sessions of two passes at work at the same time.
fn work_both<R: Threads + Wait + Sync>(
    rt: &R,
    alloc: Global,
    hall: &Hall,
    first: Pass,
    second: Pass,
    places: &Places,
    count: u32,
) -> ((Pass, Told), (Pass, Told))
    requires of { IsPassOf hall.now first × IsPassOf hall.now second }
    requires roles { IsSessionRole first.role × IsSessionRole second.role }
    requires names { AreNamesFor hall.now.hierarchy places.now.one.now places.now.other.now places.now.asked.now }
    ensures first { HasWorked hall.now places.now.asked.now first result.0.0 result.0.1 }
    ensures second { HasWorked hall.now places.now.asked.now second result.1.0 result.1.1 }
{
    let Places { one, other, asked } = *places;
    join(
        rt,
        || -> (Pass, Told)
            requires { IsSync R.row × IsPassOf hall.now first × IsSessionRole first.role × AreNamesFor hall.now.hierarchy one.now other.now asked.now }
            ensures { HasWorked hall.entry.now asked.entry.now first result.0 result.1 }
        { work(rt, alloc, hall, first, &Places { one, other, asked }, count) },
        || -> (Pass, Told)
            requires { IsSync R.row × IsPassOf hall.now second × IsSessionRole second.role × AreNamesFor hall.now.hierarchy one.now other.now asked.now }
            ensures { HasWorked hall.entry.now asked.entry.now second result.0 result.1 }
        {
            work(
                rt,
                alloc,
                hall,
                second,
                &Places { one, other, asked },
                count,
            )
        },
    )
}

/// Opens a hall with so many cells. Two sessions insert rows and ask in it, at the same time. Behind them the passes come in, and
/// the hall is closed: its state comes back, with what both tell.
pub fn count_on_two_threads<R: Threads + Wait + Sync>(
    rt: &R,
    alloc: Global,
    hierarchy: Hierarchy,
    cells: u32,
    places: &Places,
    count: u32,
) -> Result<(State, Told, Told), AllocError>
    requires dims { 0 < length hierarchy }
    requires enough { 2 ≤ cells }
    requires few { cells < 2 ^ 31 }
    requires names { AreNamesFor hierarchy places.now.one.now places.now.other.now places.now.asked.now }
    ensures both { IfOk result (λ r. HasBoth hierarchy places.now.asked.now r.0 r.1 r.2) }
{
    // What a hall asks of the dimensions is known of each hierarchy that is asked how many it has.
    let _dims = hierarchy.dims();
    let roles = two_sessions(alloc)?;
    let (hall, mut passes) = Hall::open(alloc, two_servers(cells), hierarchy, roles)?;
    let Some(first) = passes.take(&hall, 0) else {
        unreachable!()
    };
    let Some(second) = passes.take(&hall, 1) else {
        unreachable!()
    };
    let ((first, one), (second, other)) = work_both(rt, alloc, &hall, first, second, places, count);
    passes.give(&hall, first);
    passes.give(&hall, second);
    Ok((hall.close(passes), one, other))
}
