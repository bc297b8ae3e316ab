//! The calls for which all passes of a hall are in, each by itself.
ghost use Rattle.std.specs.Prelude.{◌≡◌, length};
ghost use Rattle.hall_hands.specs.actor_run.specs.Passes.{AreAllIn, IsPassesOf};
ghost use Rattle.phase_tests.specs.Pairs.{IsPaired, IsThere};

use crate::halls::{opened, pass, row};
use crate::runs::events_of;
use crate::told::told;
use dim_hierarchy::RowNames;
use hall_hands::of_actor_run::{Hall, Inserted, Passes, Session, TreeFault};
use hall_hands::of_volap_cell::{Role, State};
use row_ledger::{History, Page};
use std::alloc::{AllocError, Global};
use std::process::Abort;
use std::sync::Wait;
use std::test::Fail;
use volap_io::Quiet;

/// The session inserts rows of the measures 1, 2 and 3; how many are acknowledged.
fn insert_three<'a, R: Wait + Sync>(
    rt: &R,
    alloc: Global,
    session: &mut Session<'a>,
    names: &RowNames,
) -> u64
    requires names { length names.now ≡ length session.old.floor.hierarchy }
    ensures same { session.new ≡ record session.old { seen = session.new.seen } }
{
    let first = session.insert(rt, alloc, names, 1, &Quiet);
    let second = session.insert(rt, alloc, names, 2, &Quiet);
    let third = session.insert(rt, alloc, names, 3, &Quiet);
    let mut acked = 0u64;
    for end in [first, second, third] {
        if let Inserted::Ok { .. } = end {
            acked = acked.saturating_add(1);
        }
    }
    acked
}

/// The session of the first pass comes, inserts three rows and ends; how many are acknowledged.
fn insert_rows<R: Abort + Wait + Sync>(
    rt: &R,
    alloc: Global,
    hall: &Hall,
    passes: &mut Passes,
    names: &RowNames,
) -> u64
    requires paired { IsPaired hall.now passes.old }
    requires names { length names.now ≡ 1 }
    ensures own { IsPassesOf hall.now passes.new }
    ensures all { AreAllIn passes.new }
{
    let first = pass(rt, hall, passes, 0);
    let mut session = Session::new(rt, hall, first);
    let acked = insert_three(rt, alloc, &mut session, names);
    passes.give(hall, session.end(rt));
    acked
}

/// What the calls answer.
#[derive(Drop)]
struct Answers {
    barrier: Result<(), AllocError>,
    audit: Result<Page, AllocError>,
    shards: Result<Page, AllocError>,
    tree: Result<Page, TreeFault>,
    no_tree: Result<Page, TreeFault>,
    settle: Result<(), AllocError>,
    copy: Result<(), AllocError>,
}

impl Answers {
    /// Whether each has done what it is to do, and each page is one of its call.
    fn are_right(&self) -> bool {
        self.barrier.is_ok()
            && matches!(self.audit, Ok(Page::Audit(_)))
            && matches!(self.shards, Ok(Page::Shards(_)))
            && matches!(self.tree, Ok(Page::Tree(_)))
            && matches!(self.no_tree, Err(TreeFault::Unknown))
            && self.settle.is_ok()
            && self.copy.is_ok()
    }
}

/// Makes each call once, and that for a tree also of a shard that there is not; and then copies the history.
fn make_calls<R: Wait>(
    rt: &R,
    alloc: Global,
    hall: &Hall,
    passes: &mut Passes,
    copy: &mut History,
) -> Answers
    requires own { IsPassesOf hall.now passes.old }
    requires all { AreAllIn passes.old }
    ensures own { IsPassesOf hall.now passes.new }
    ensures all { AreAllIn passes.new }
{
    let barrier = hall.barrier(rt, alloc, passes);
    let audit = hall.audit(rt, alloc, passes);
    let shards = hall.shards(rt, alloc, passes);
    let tree = hall.tree(rt, alloc, passes, 0);
    let no_tree = hall.tree(rt, alloc, passes, 99);
    let settle = hall.settle(rt, alloc, passes);
    let copy = hall.catch_up(rt, alloc, passes, copy);
    Answers {
        barrier,
        audit,
        shards,
        tree,
        no_tree,
        settle,
        copy,
    }
}

/// A hall with a session and another role, from its opening to its end; the state, and the copy of the history.
fn run<R: Abort + Wait + Sync>(rt: &R, alloc: Global, other: Role) -> Result<(State, History), Fail>
    requires { IsThere other }
{
    let names = row(alloc)?;
    let mut copy = History::new(alloc);
    let (hall, mut passes) = opened(alloc, other)?;
    let acked = insert_rows(rt, alloc, &hall, &mut passes, &names);
    let answers = make_calls(rt, alloc, &hall, &mut passes, &mut copy);
    let are_right = answers.are_right();
    drop(answers);
    let state = hall.close(passes);
    assert_eq!(rt; acked, 3);
    assert!(rt; are_right);
    Ok((state, copy))
}

/// Stops unless the history that is kept is this one, and the copy as well.
fn check<R: Abort + Wait + Sync>(rt: &R, alloc: Global, other: Role, want: &str) -> Result<(), Fail>
    requires { IsThere other }
{
    let (state, copy) = run(rt, alloc, other)?;
    let kept = told(alloc, events_of(&state));
    drop(state);
    let copied = told(alloc, copy.events());
    drop(copy);
    assert_eq!(rt; kept?.as_str(), want);
    assert_eq!(rt; copied?.as_str(), want);
    Ok(())
}

/// What the history is to tell where the hall's own actor, behind two roles, is the administrator.
const BY_THE_HALL: &str =
    "0 pulls; 1 pulls; 0 inserts; done; 0 inserts; done; 0 inserts; done; 2 calls barrier; fine; 2 calls audit; 3 of 6 in 1; fine; 2 calls shards; 0 has 3 + 0; fine; 2 calls tree 0; 3 + 0 in 1; fine; 2 calls tree 99; declined; 2 calls settle; 0 pulls; 1 pulls; 0 pulls; 1 pulls; fine; ";

/// And where the second role is.
const BY_A_ROLE: &str =
    "0 pulls; 1 pulls; 0 inserts; done; 0 inserts; done; 0 inserts; done; 1 calls barrier; fine; 1 calls audit; 3 of 6 in 1; fine; 1 calls shards; 0 has 3 + 0; fine; 1 calls tree 0; 3 + 0 in 1; fine; 1 calls tree 99; declined; 1 calls settle; 0 pulls; 1 pulls; 0 pulls; 1 pulls; fine; ";

#[test]
fn calls_of_the_whole_hall_stand_in_its_history(rt: HostRuntime) -> Result<(), Fail> {
    let alloc = rt.alloc();
    check(&rt, alloc, Role::Session { server: 1 }, BY_THE_HALL)?;
    check(&rt, alloc, Role::Admin, BY_A_ROLE)
}
