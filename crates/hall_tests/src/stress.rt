//! Four sessions, two of each server, on a thread each.
ghost use Rattle.std.specs.Prelude.{◌≡◌, IfOk, [], ◌∷◌, length};
ghost use Rattle.hall_calls.specs.actor_run.specs.Passes.{HasTaken, IsPassOf, IsPassesOf};
ghost use Rattle.hall_calls.specs.volap_cell.specs.declared.role.Role.TheVariants.{Session};
ghost use Rattle.std.specs.Thread.{IsSync};
ghost use Rattle.hall_calls.specs.Passing.{CanWork, IsBack};

use crate::board::Board;
use crate::judge::{Counts, judged};
use crate::plan::{COMMANDS, Plan, ROUNDS, ROWS, hierarchy, plan_in};
use crate::work::{Job, Report, work};
use hall_calls::of_actor_run::{Hall, Pass, Passes};
use hall_calls::of_volap_cell::{Cell, Role, RoleList, State};
use row_ledger::{Event, Use};
use std::alloc::{AllocError, Global};
use std::process::Abort;
use std::sync::Wait;
use std::test::Fail;
use std::thread::{Threads, join};

/// How often the test runs.
const RUNS: u64 = 20;

/// Two servers and a worker.
const WITH: Use = Use {
    servers: 2,
    workers: 1,
    threads: 1,
    cells: 20000,
};

/// Two sessions of each server, in turn.
fn four_sessions(alloc: Global) -> Result<RoleList, AllocError>
    ensures { IfOk result (λ roles. roles ≡ Session 0 ∷ Session 1 ∷ Session 0 ∷ Session 1 ∷ []) }
{
    let mut roles = RoleList::new(alloc);
    roles.push(Role::Session { server: 0 })?;
    roles.push(Role::Session { server: 1 })?;
    roles.push(Role::Session { server: 0 })?;
    roles.push(Role::Session { server: 1 })?;
    Ok(roles)
}

/// A session's pass, of this number, which is in.
fn pass<R: Abort>(rt: &R, hall: &Hall, passes: &mut Passes, number: u16) -> Pass
    requires own { IsPassesOf hall.now passes.old }
    ensures own { IsPassesOf hall.now passes.new }
    ensures taken { HasTaken number passes.old passes.new result }
    ensures of { IsPassOf hall.now result }
{
    let Some(pass) = passes.take(hall, number) else {
        panic!(rt; "the pass is in");
    };
    pass
}

/// Two sessions at the same time, of the two servers.
fn work_both<R: Threads + Wait + Sync>(
    rt: &R,
    alloc: Global,
    hall: &Hall,
    plan: &Plan,
    board: &Board,
    one: Pass,
    other: Pass,
) -> ((Pass, Report), (Pass, Report))
    requires one { CanWork hall.now one }
    requires other { CanWork hall.now other }
    requires dims { length hall.now.hierarchy ≡ 1 }
    ensures one { IsBack hall.now one result.0.0 }
    ensures other { IsBack hall.now other result.1.0 }
{
    join(
        rt,
        || -> (Pass, Report)
            requires { IsSync R.row × CanWork hall.now one × (length hall.now.hierarchy ≡ 1) }
            ensures { IsBack hall.entry.now one result.0 }
        {
            work(
                rt,
                hall,
                one,
                &Job {
                    alloc,
                    server: 0,
                    plan,
                    board,
                },
            )
        },
        || -> (Pass, Report)
            requires { IsSync R.row × CanWork hall.now other × (length hall.now.hierarchy ≡ 1) }
            ensures { IsBack hall.entry.now other result.0 }
        {
            work(
                rt,
                hall,
                other,
                &Job {
                    alloc,
                    server: 1,
                    plan,
                    board,
                },
            )
        },
    )
}

/// Four sessions at the same time.
fn work_all<R: Threads + Wait + Sync>(
    rt: &R,
    alloc: Global,
    hall: &Hall,
    plan: &Plan,
    board: &Board,
    a: Pass,
    b: Pass,
    c: Pass,
    d: Pass,
) -> (
    ((Pass, Report), (Pass, Report)),
    ((Pass, Report), (Pass, Report)),
)
    requires one { CanWork hall.now a × CanWork hall.now b }
    requires other { CanWork hall.now c × CanWork hall.now d }
    requires dims { length hall.now.hierarchy ≡ 1 }
    ensures one { IsBack hall.now a result.0.0.0 × IsBack hall.now b result.0.1.0 }
    ensures other { IsBack hall.now c result.1.0.0 × IsBack hall.now d result.1.1.0 }
{
    join(
        rt,
        || -> ((Pass, Report), (Pass, Report))
            requires { IsSync R.row × CanWork hall.now a × CanWork hall.now b × (length hall.now.hierarchy ≡ 1) }
            ensures { IsBack hall.entry.now a result.0.0 × IsBack hall.entry.now b result.1.0 }
        { work_both(rt, alloc, hall, plan, board, a, b) },
        || -> ((Pass, Report), (Pass, Report))
            requires { IsSync R.row × CanWork hall.now c × CanWork hall.now d × (length hall.now.hierarchy ≡ 1) }
            ensures { IsBack hall.entry.now c result.0.0 × IsBack hall.entry.now d result.1.0 }
        { work_both(rt, alloc, hall, plan, board, c, d) },
    )
}

/// All commands by four sessions at the same time; the state at the end, and what they did.
fn run<R: Abort + Threads + Wait + Sync>(
    rt: &R,
    alloc: Global,
    plan: &Plan,
    board: &Board,
) -> Result<(State, [Report; 4]), Fail> {
    let h = hierarchy(alloc)?;
    let _dims = h.dims();
    let roles = four_sessions(alloc)?;
    let (hall, mut passes) = Hall::open(alloc, WITH, h, roles)?;
    let a = pass(rt, &hall, &mut passes, 0);
    let b = pass(rt, &hall, &mut passes, 1);
    let c = pass(rt, &hall, &mut passes, 2);
    let d = pass(rt, &hall, &mut passes, 3);
    let (((a, first), (b, second)), ((c, third), (d, fourth))) = work_all(
        rt, alloc, &hall, plan, board, a, b, c, d,
    );
    passes.give(&hall, a);
    passes.give(&hall, b);
    passes.give(&hall, c);
    passes.give(&hall, d);
    Ok((hall.close(passes), [first, second, third, fourth]))
}

/// The events of a state, the oldest first.
fn events_of(state: &State) -> &[Event] {
    match state.cells.first() {
        Some(Some(Cell::Ledger(ledger))) => ledger.events(),
        _ => &[],
    }
}

/// One run, and what is counted of it. The state is handed to `drop`: where it goes out of scope, the function is as long as all that
/// a state has.
fn counted<R: Abort + Threads + Wait + Sync>(
    rt: &R,
    alloc: Global,
    plan: &Plan,
) -> Result<Counts, Fail> {
    let board = Board::new(alloc)?;
    let (state, reports) = run(rt, alloc, plan, &board)?;
    let counts = judged(alloc, events_of(&state), &reports);
    drop(state);
    Ok(counts?)
}

/// Stops unless a run went as it should. No memory is refused but where the test is tried so, and then once.
fn check<R: Abort>(rt: &R, counts: &Counts) {
    assert_eq!(rt; counts.faults, 0);
    assert!(rt; counts.refused <= 1);
    assert!(rt; counts.inserts.saturating_add(counts.refused) >= ROUNDS * ROWS);
    assert_eq!(rt; counts.commands(), COMMANDS);
}

#[test]
fn each_answer_is_one_that_its_history_allows(rt: HostRuntime) -> Result<(), Fail> {
    let alloc = rt.alloc();
    let plan = plan_in(alloc)?;
    for _ in 0..RUNS {
        let counts = counted(&rt, alloc, &plan)?;
        check(&rt, &counts);
    }
    Ok(())
}
