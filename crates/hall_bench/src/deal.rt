//! Inserts that are dealt out to sessions.
ghost use Rattle.std.specs.Prelude.{◌≡◌, ◌<◌, ◌+◌, ◌∷◌, [], IfOk, length};
ghost use Rattle.std.specs.Thread.{IsSync};
ghost use Rattle.hall_calls.specs.actor_run.specs.Passes.{HasTaken, IsPassOf, IsPassesOf};
ghost use Rattle.hall_bench.specs.Rest.{AreInFrom};
ghost use Rattle.hall_calls.specs.Passing.{CanWork, IsBack};
ghost use Rattle.hall_calls.specs.volap_cell.specs.declared.role.Role.TheVariants.{Session as OfSession};

use dim_hierarchy::Hierarchy;
use hall_calls::of_actor_run::{Hall, Inserted, Pass, Passes, Session};
use hall_calls::of_volap_cell::{Role, RoleList};
use row_ledger::Use;
use script_form::{Command, Script};
use std::alloc::{AllocError, Global};
use std::mem::forget;
use std::sync::Wait;
use std::thread::{Threads, join};
use volap_io::Quiet;

/// Four servers and a worker.
const WITH: Use = Use {
    servers: 4,
    workers: 1,
    threads: 1,
    cells: 65536,
};

/// A session of each server.
fn four_sessions(alloc: Global) -> Result<RoleList, AllocError>
    ensures { IfOk result (λ roles. roles ≡ OfSession 0 ∷ OfSession 1 ∷ OfSession 2 ∷ OfSession 3 ∷ []) }
{
    let mut roles = RoleList::new(alloc);
    roles.push(Role::Session { server: 0 })?;
    roles.push(Role::Session { server: 1 })?;
    roles.push(Role::Session { server: 2 })?;
    roles.push(Role::Session { server: 3 })?;
    Ok(roles)
}

/// The pass of this number, of a hall with four sessions. It is in, as are those behind it.
fn pass(hall: &Hall, passes: &mut Passes, number: u16) -> Pass
    requires own { IsPassesOf hall.now passes.old }
    requires few { number < 4 }
    requires rest { AreInFrom number passes.old }
    ensures own { IsPassesOf hall.now passes.new }
    ensures rest { AreInFrom (number + 1) passes.new }
    ensures taken { HasTaken number passes.old passes.new result }
    ensures of { IsPassOf hall.now result }
{
    let Some(pass) = passes.take(hall, number) else {
        unreachable!()
    };
    pass
}

/// Makes a command that is an insert with a name for each of so many dimensions, and tells whether it was acknowledged.
fn insert_one<'a, R: Wait + Sync>(
    rt: &R,
    alloc: Global,
    session: &mut Session<'a>,
    command: &Command,
    dims: usize,
) -> bool
    requires dims { length session.old.floor.hierarchy ≡ dims }
    ensures same { session.new ≡ record session.old { seen = session.new.seen } }
{
    let Command::Insert(new) = command else {
        return false;
    };
    if new.names.len() != dims {
        return false;
    }
    let end = session.insert(rt, alloc, &new.names, new.measures, &Quiet);
    matches!(end, Inserted::Ok { .. })
}

/// Of the commands those of the first place and of each `step`-th one behind it, as far as they are inserts; tells how many are
/// acknowledged.
fn insert_each<R: Wait + Sync>(
    rt: &R,
    alloc: Global,
    hall: &Hall,
    pass: Pass,
    commands: &[Command],
    dims: usize,
    first: usize,
    step: usize,
) -> (Pass, u64)
    requires pass { CanWork hall.now pass }
    requires dims { length hall.now.hierarchy ≡ dims }
    requires step { 0 < step }
    ensures { IsBack hall.now pass result.0 }
{
    let mut session = Session::new(rt, hall, pass);
    let mut acked = 0u64;
    for (place, command) in commands.iter().enumerate() {
        if place % step != first {
            continue;
        }
        let is_acked = insert_one(rt, alloc, &mut session, command, dims);
        acked = acked.saturating_add(u64::from(is_acked));
    }
    (session.end(rt), acked)
}

/// Two sessions at the same time, of these numbers.
fn insert_both<R: Threads + Wait + Sync>(
    rt: &R,
    alloc: Global,
    hall: &Hall,
    passes: (Pass, Pass),
    commands: &[Command],
    dims: usize,
    first: usize,
    second: usize,
    step: usize,
) -> ((Pass, u64), (Pass, u64))
    requires passes { CanWork hall.now passes.0 × CanWork hall.now passes.1 }
    requires dims { length hall.now.hierarchy ≡ dims }
    requires step { 0 < step }
    ensures { IsBack hall.now passes.0 result.0.0 × IsBack hall.now passes.1 result.1.0 }
{
    let (one, other) = passes;
    join(
        rt,
        || -> (Pass, u64)
            requires { IsSync R.row × CanWork hall.now one × (length hall.now.hierarchy ≡ dims) × (0 < step) }
            ensures { IsBack hall.entry.now one result.0 }
        { insert_each(rt, alloc, hall, one, commands, dims, first, step) },
        || -> (Pass, u64)
            requires { IsSync R.row × CanWork hall.now other × (length hall.now.hierarchy ≡ dims) × (0 < step) }
            ensures { IsBack hall.entry.now other result.0 }
        { insert_each(rt, alloc, hall, other, commands, dims, second, step) },
    )
}

/// Four sessions at the same time.
fn insert_all<R: Threads + Wait + Sync>(
    rt: &R,
    alloc: Global,
    hall: &Hall,
    early: (Pass, Pass),
    late: (Pass, Pass),
    commands: &[Command],
    dims: usize,
    step: usize,
) -> (((Pass, u64), (Pass, u64)), ((Pass, u64), (Pass, u64)))
    requires early { CanWork hall.now early.0 × CanWork hall.now early.1 }
    requires late { CanWork hall.now late.0 × CanWork hall.now late.1 }
    requires dims { length hall.now.hierarchy ≡ dims }
    requires step { 0 < step }
    ensures early { IsBack hall.now early.0 result.0.0.0 × IsBack hall.now early.1 result.0.1.0 }
    ensures late { IsBack hall.now late.0 result.1.0.0 × IsBack hall.now late.1 result.1.1.0 }
{
    join(
        rt,
        || -> ((Pass, u64), (Pass, u64))
            requires { IsSync R.row × CanWork hall.now early.0 × CanWork hall.now early.1 × (length hall.now.hierarchy ≡ dims) × (0 < step) }
            ensures { IsBack hall.entry.now early.0 result.0.0 × IsBack hall.entry.now early.1 result.1.0 }
        { insert_both(rt, alloc, hall, early, commands, dims, 0, 1, step) },
        || -> ((Pass, u64), (Pass, u64))
            requires { IsSync R.row × CanWork hall.now late.0 × CanWork hall.now late.1 × (length hall.now.hierarchy ≡ dims) × (0 < step) }
            ensures { IsBack hall.entry.now late.0 result.0.0 × IsBack hall.entry.now late.1 result.1.0 }
        { insert_both(rt, alloc, hall, late, commands, dims, 2, 3, step) },
    )
}

/// Makes the inserts of these commands by as many sessions of a hall, and tells how many are acknowledged; `None` where memory is
/// wanting, or there is no dimension.
fn insert_in_hall<R: Threads + Wait + Sync>(
    rt: &R,
    alloc: Global,
    hierarchy: Hierarchy,
    commands: &[Command],
    count: usize,
) -> Option<u64>
    requires { 0 < count }
{
    let dims = hierarchy.dims();
    if dims == 0 {
        return None;
    }
    let Ok(roles) = four_sessions(alloc) else {
        return None;
    };
    let Ok((hall, mut passes)) = Hall::open(alloc, WITH, hierarchy, roles) else {
        return None;
    };
    let a = pass(&hall, &mut passes, 0);
    let b = pass(&hall, &mut passes, 1);
    let c = pass(&hall, &mut passes, 2);
    let d = pass(&hall, &mut passes, 3);
    let (((a, first), (b, second)), ((c, third), (d, fourth))) = insert_all(
        rt,
        alloc,
        &hall,
        (a, b),
        (c, d),
        commands,
        usize::from(dims),
        count,
    );
    passes.give(&hall, a);
    passes.give(&hall, b);
    passes.give(&hall, c);
    passes.give(&hall, d);
    // The program ends, so what is left is not given back block by block.
    forget(hall.close(passes));
    Some(
        first
            .saturating_add(second)
            .saturating_add(third)
            .saturating_add(fourth),
    )
}

/// Makes the inserts of a script by as many sessions, and tells how many are acknowledged; `None` where memory is wanting, or there is
/// no dimension.
pub(crate) fn acknowledged<R: Threads + Wait + Sync>(
    rt: &R,
    alloc: Global,
    script: Script,
    count: usize,
) -> Option<u64>
    requires { 0 < count }
{
    let Script {
        with: _,
        hierarchy,
        commands,
    } = script;
    let acked = insert_in_hall(rt, alloc, hierarchy, commands.as_slice(), count);
    forget(commands);
    acked
}
