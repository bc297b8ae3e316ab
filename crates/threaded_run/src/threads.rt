//! A thread for each actor of a phase.
ghost use Rattle.std.specs.Prelude.{ℕ, ◌≡◌, ◌+◌, List};
ghost use denote.Param.Send.{IsSend, IsSync};
ghost use Rattle.std.specs.Fork.{AcceptsAt, ChangesAt};
ghost use Rattle.hall_hands.specs.actor_run.specs.Passes.{IsPassOf};
ghost use Rattle.row_ledger.specs.declared.event.Event.{Event};
ghost use Rattle.script_roles.specs.Roles.{IsNumbered};
ghost use Rattle.threaded_run.specs.Jobs.{AreJobsBack, AreJobsBackFrom, AreJobsReady, AreJobsReadyFrom, IsJobBack, IsJobReady};
ghost use Rattle.threaded_run.specs.Streams.{AllFit, NoneClosesAt};

use crate::jobs::work;
use hall_hands::of_actor_run::{Hall, Pass, Session};
use hall_hands::of_seat_steps::Player;
use script_form::Command;
use script_roles::volap_cell::Role;
use std::alloc::Global;
use std::mem::{forget, replace};
use std::sync::Wait;
use std::thread::{Threads, for_each_mut, join_mut};
use volap_io::Meet;

/// What goes to a thread, and comes back: an actor at its seat, how many events it has seen if it is a session's, and then
/// whether it was stopped, for want of memory.
#[derive(Drop)]
pub(crate) struct Job {
    pub(crate) player: Option<Player>,
    pub(crate) seen: u64,
    pub(crate) stopped: bool,
}

/// The job of a pass. A session is counted in at its server's desk.
pub(crate) fn job_of<R: Wait>(rt: &R, hall: &Hall, pass: Pass) -> Job
    requires of { IsPassOf hall.now pass }
    requires numbered { IsNumbered pass.role hall.now.with pass.number }
    ensures ready { IsJobReady hall.now pass.number pass.seen result }
{
    let player = pass.into_player();
    match player.actor.role {
        Role::Session { .. } => {
            let (player, seen) = Session::new(rt, hall, Pass::of(player)).into_player();
            Job {
                player: Some(player),
                seen,
                stopped: false,
            }
        }
        _ => Job {
            player: Some(player),
            seen: 0,
            stopped: false,
        },
    }
}

/// A thread does its job.
fn do_job<R: Wait + Sync, M: Meet>(
    rt: &R,
    alloc: Global,
    hall: &Hall,
    commands: &[Command],
    meet: &M,
    job: &mut Job,
)
    requires ready { (n : ℕ) × (past : List Event) × IsJobReady hall.now n past job.old }
    requires fits { AllFit hall.now commands.now }
    requires none_closes { NoneClosesAt commands.now }
    ensures back { (n : ℕ) (past : List Event)
        → IsJobReady hall.now n past job.old
        → IsJobBack hall.now n commands.now past job.new }
{
    let Some(player) = job.player.take() else {
        unreachable!()
    };
    let (player, stopped) = work(rt, alloc, hall, player, job.seen, commands, meet);
    forget(replace(&mut job.player, Some(player)));
    job.stopped = stopped;
}

/// Each does its job, on a thread of its own where one can be made. They have the numbers from the first on.
fn do_each<R: Threads + Wait + Sync, M: Meet + Sync>(
    rt: &R,
    alloc: Global,
    hall: &Hall,
    commands: &[Command],
    meet: &M,
    first: usize,
    jobs: &mut [Job],
)
    requires ready { (past : List Event) × AreJobsReadyFrom first hall.now past jobs.old }
    requires fits { AllFit hall.now commands.now }
    requires none_closes { NoneClosesAt commands.now }
    ensures back { (past : List Event) → AreJobsReadyFrom first hall.now past jobs.old → AreJobsBackFrom first hall.now commands.now past jobs.new }
{
    let many = jobs.len();
    if many == 0 {
        return;
    }
    let one = |i: usize, job: &mut Job|
        requires { ((past : List Event) × IsJobReady hall.now (first + i) past job.now) × AllFit hall.now commands.now × NoneClosesAt commands.now }
        ensures { (past : List Event) → IsJobReady hall.entry.now (first + i) past job.entry.now → IsJobBack hall.entry.now (first + i) commands.entry.now past job.exit.now }
    {
        let _ = &first;
        let _ = i;
        do_job(rt, alloc, hall, commands, meet, job);
    };
    for_each_mut(rt, jobs, many, &one);
}

/// The work at one part, that begins at this place.
fn at_part<T, F: Fn(usize, &mut [T])>(work: &F, start: usize, part: &mut [T])
    requires { AcceptsAt F.Fn work.now start part.old }
    ensures { ChangesAt F.Fn work.now start part.old part.new }
{
    work(start, part);
}

/// The work at the first places, and beside it at all from a place on. Where no thread can be made, `join_mut` does its first
/// call last.
fn last_beside<R: Threads + Sync, T: Send, F: Fn(usize, &mut [T]) + Sync>(
    rt: &R,
    work: &F,
    before: usize,
    others: &mut [T],
    hands: &mut [T],
)
    requires others { AcceptsAt F.Fn work.now 0 others.old }
    requires hands { AcceptsAt F.Fn work.now before hands.old }
    ensures others { ChangesAt F.Fn work.now 0 others.old others.new }
    ensures hands { ChangesAt F.Fn work.now before hands.old hands.new }
{
    let mut last = ||
        requires { IsSync F.row × IsSend T.row × AcceptsAt F.Fn work.now before hands.now }
        ensures { ChangesAt F.Fn work.entry.now before hands.entry.now hands.exit.now }
    { at_part(work, before, hands) };
    let mut first = ||
        requires { IsSync F.row × IsSend T.row × AcceptsAt F.Fn work.now 0 others.now }
        ensures { ChangesAt F.Fn work.entry.now 0 others.entry.now others.exit.now }
    { at_part(work, 0, others) };
    join_mut(rt, &mut last, &mut first);
}

/// Each does its job, on a thread of its own where one can be made. A hand waits for the sessions to end, so the hands stand in
/// the first closure of `join_mut`: where there is no thread for them, they come behind all others. The others wait for none
/// that has not begun, so these may come in any order.
pub(crate) fn do_all_jobs<R: Threads + Wait + Sync, M: Meet + Sync>(
    rt: &R,
    alloc: Global,
    hall: &Hall,
    commands: &[Command],
    meet: &M,
    jobs: &mut [Job],
)
    requires ready { (past : List Event) × AreJobsReady hall.now past jobs.old }
    requires fits { AllFit hall.now commands.now }
    requires none_closes { NoneClosesAt commands.now }
    ensures back { (past : List Event) → AreJobsReady hall.now past jobs.old → AreJobsBack hall.now commands.now past jobs.new }
{
    // The sessions, the puller and the administrator stand before the hands.
    let others_count = usize::from(hall.floor().with.servers) + 2;
    let before = others_count.min(jobs.len());
    let (others, hands) = jobs.split_at_mut(before);
    let part = |start: usize, part: &mut [Job]|
        requires { ((past : List Event) × AreJobsReadyFrom start hall.now past part.now) × AllFit hall.now commands.now × NoneClosesAt commands.now }
        ensures { (past : List Event) → AreJobsReadyFrom start hall.entry.now past part.entry.now → AreJobsBackFrom start hall.entry.now commands.entry.now past part.exit.now }
    {
        do_each(rt, alloc, hall, commands, meet, start, part);
    };
    last_beside(rt, &part, before, others, hands);
}
