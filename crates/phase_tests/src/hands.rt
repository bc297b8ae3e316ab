//! A session and a hand, each on a thread of its own.
ghost use Rattle.std.specs.Prelude.{◌≡◌, All, length};
ghost use Rattle.std.specs.Thread.{IsSync};
ghost use Rattle.dim_hierarchy.specs.Names.{IsNamePick};
ghost use Rattle.hall_calls.specs.Passing.{IsBack};
ghost use Rattle.hall_hands.specs.actor_run.specs.Passes.{IsPassOf};
ghost use Rattle.hall_hands.specs.actor_run.specs.Sessions.{IsSessionWith};
ghost use Rattle.hall_hands.specs.Hands.{IsHandRole};
ghost use Rattle.hall_hands.specs.volap_cell.specs.declared.role.Role.TheVariants.{Session as IsSessionOf};

use crate::halls::{all_rows, opened, pass, row};
use crate::meets::ByHand;
use dim_hierarchy::{NameFilter, RowNames};
use hall_hands::Hand;
use hall_hands::of_actor_run::{Asked, Hall, Pass, Session, Steps};
use hall_hands::of_seat_steps::Player;
use hall_hands::of_volap_cell::{Role, State};
use std::alloc::Global;
use std::process::Abort;
use std::sync::Wait;
use std::test::Fail;
use std::thread::{Threads, join};
use volap_io::Quiet;

/// A session that is counted in at the desk of the first server, and has inserted a row; and how many events it has seen.
fn begin<R: Wait + Sync>(
    rt: &R,
    alloc: Global,
    hall: &Hall,
    pass: Pass,
    names: &RowNames,
) -> (Player, u64)
    requires of { IsPassOf hall.now pass }
    requires role { pass.role ≡ IsSessionOf 0 }
    requires names { length names.now ≡ length hall.now.hierarchy }
    ensures session { IsSessionWith hall.now 0 result.0 result.1 }
    ensures number { result.0.number ≡ pass.number }
{
    let mut session = Session::new(rt, hall, pass);
    session.insert(rt, alloc, names, 5, &Quiet);
    session.into_player()
}

/// The session asks, and ends.
fn ask<R: Wait + Sync>(
    rt: &R,
    alloc: Global,
    hall: &Hall,
    player: Player,
    seen: u64,
    question: &NameFilter,
    meet: &ByHand,
) -> (Pass, Asked)
    requires session { IsSessionWith hall.now 0 player seen }
    requires question { (length question.now ≡ length hall.now.hierarchy) × All IsNamePick question.now }
    ensures of { IsPassOf hall.now result.0 }
    ensures number { result.0.number ≡ player.number }
{
    let mut session = Session::of(hall, 0, player, seen);
    let mut steps = Steps::new();
    let answer = session.query(rt, alloc, question, meet, &mut steps);
    (session.end(rt), answer)
}

/// The hand serves until no session is left.
fn serve<R: Wait + Sync>(rt: &R, alloc: Global, hall: &Hall, pass: Pass, meet: &ByHand) -> Pass
    requires of { IsPassOf hall.now pass }
    requires role { IsHandRole pass.role }
    ensures { IsBack hall.now pass result }
{
    let mut hand = Hand::new(hall, pass);
    hand.serve(rt, alloc, meet);
    hand.end()
}

/// The hand serves on another thread, while the session asks. Where no thread can be made, `join` does its first call last: so the
/// session goes first, waits in vain and ends, and then the hand finds nobody.
fn ask_beside<R: Threads + Wait + Sync>(
    rt: &R,
    alloc: Global,
    hall: &Hall,
    player: Player,
    seen: u64,
    hand: Pass,
    question: &NameFilter,
    meet: &ByHand,
) -> ((Pass, Asked), Pass)
    requires session { IsSessionWith hall.now 0 player seen }
    requires question { (length question.now ≡ length hall.now.hierarchy) × All IsNamePick question.now }
    requires of { IsPassOf hall.now hand }
    requires role { IsHandRole hand.role }
    ensures session { IsPassOf hall.now result.0.0 × (result.0.0.number ≡ player.number) }
    ensures hand { IsBack hall.now hand result.1 }
{
    let (hand, asked) = join(
        rt,
        || -> Pass
            requires { IsSync R.row × IsPassOf hall.now hand × IsHandRole hand.role }
            ensures { IsBack hall.entry.now hand result }
        { serve(rt, alloc, hall, hand, meet) },
        || -> (Pass, Asked)
            requires { IsSync R.row × IsSessionWith hall.now 0 player seen × (length question.now ≡ length hall.now.hierarchy) × All IsNamePick question.now }
            ensures { IsPassOf hall.entry.now result.0 × (result.0.number ≡ player.number) }
        { ask(rt, alloc, hall, player, seen, question, meet) },
    );
    (asked, hand)
}

/// A hall with a session and a hand, from its opening to its end; the state, and the answer to the session's query.
fn run<R: Abort + Threads + Wait + Sync>(
    rt: &R,
    alloc: Global,
    meet: &ByHand,
) -> Result<(State, Asked), Fail> {
    let names = row(alloc)?;
    let question = all_rows(alloc)?;
    let (hall, mut passes) = opened(alloc, Role::Hand { worker: 0 })?;
    let first = pass(rt, &hall, &mut passes, 0);
    let hand = pass(rt, &hall, &mut passes, 1);
    let (player, seen) = begin(rt, alloc, &hall, first, &names);
    let ((first, answer), hand) = ask_beside(rt, alloc, &hall, player, seen, hand, &question, meet);
    passes.give(&hall, first);
    passes.give(&hall, hand);
    Ok((hall.close(passes), answer))
}

// The session does not look for a part of its query before the hand has done one: so the answer is of what the hand has counted.
#[test]
fn a_hand_does_the_part_of_a_query(rt: HostRuntime) -> Result<(), Fail> {
    let meet = ByHand::new();
    let (state, answer) = run(&rt, rt.alloc(), &meet)?;
    drop(state);
    assert!(rt; meet.is_met());
    let Asked::Answer { agg, .. } = answer else {
        panic!(rt; "there is an answer");
    };
    assert_eq!(rt; agg.count(), 1);
    assert_eq!(rt; agg.sum(), 5);
    Ok(())
}
