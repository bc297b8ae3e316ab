//! The commands of a phase, all at once.
ghost use Rattle.std.specs.Prelude.{ℕ, ◌≡◌, ◌≤◌, false, List, [], length, vec_capacity, IfOk, OnErr, OnOk};
ghost use Rattle.script_form.specs.declared.script.Command.{Command as IsCommand};
ghost use Rattle.hall_hands.specs.actor_run.specs.Passes.{IsPassesOf, PassesValue};
ghost use Rattle.row_ledger.specs.declared.event.Event.{Event};
ghost use Rattle.session_runs.specs.Sessions.{EachDoes, EachDoesFirst};
ghost use Rattle.threaded_run.specs.Jobs.{AreJobsBack, IsJobBack};
ghost use Rattle.threaded_run.specs.Phases.{AreBack, ArePhased, HasGivenJob, HasGivenSome, HasTakenAll};
ghost use Rattle.threaded_run.specs.Streams.{AllFit, NoneClosesAt};

use crate::threads::{Job, do_all_jobs, job_of};
use hall_hands::of_actor_run::{Hall, Pass, Passes};
use script_form::Command;
use std::alloc::{AllocError, Global};
use std::sync::Wait;
use std::thread::Threads;
use volap_io::Meet;

/// Does these commands, which close no phase, all at once: each session, the puller and the administrator its own of them, one
/// after the other, each on a thread of its own where one can be made. It is an error where memory is wanting: then some stopped
/// before one of their commands, of which nothing stands in the history.
pub fn run_together<R: Threads + Wait + Sync, M: Meet + Sync>(
    rt: &R,
    alloc: Global,
    hall: &Hall,
    passes: &mut Passes,
    commands: &[Command],
    meet: &M,
) -> Result<(), AllocError>
    requires phased { ArePhased hall.now passes.old }
    requires fits { AllFit hall.now commands.now }
    requires none_closes { NoneClosesAt commands.now }
    ensures back { AreBack hall.now passes.old passes.new }
    ensures done { OnOk result (EachDoes hall.now.with hall.now.hierarchy commands.now passes.old.seen passes.new.seen) }
    ensures stopped { OnErr result (EachDoesFirst hall.now.with hall.now.hierarchy commands.now passes.old.seen passes.new.seen) }
{
    let Ok(mut jobs) = take_all(rt, alloc, hall, passes) else {
        return Err(AllocError);
    };
    let all = jobs.as_mut_slice();
    do_all_jobs(rt, alloc, hall, commands, meet, all);
    let stopped = give_all(hall, passes, all);
    drop(jobs);
    if stopped { Err(AllocError) } else { Ok(()) }
}

/// Takes all passes out, in the order of their numbers, and makes a job of each. Where memory is wanting, nothing changes.
fn take_all<R: Wait>(
    rt: &R,
    alloc: Global,
    hall: &Hall,
    passes: &mut Passes,
) -> Result<Vec<Job>, AllocError>
    requires phased { ArePhased hall.now passes.old }
    ensures taken { IfOk result (λ jobs. HasTakenAll hall.now jobs.items passes.old passes.new) }
    ensures same { OnErr result (passes.new ≡ passes.old) }
{
    let roles = passes.roles();
    let mut jobs = room_for(alloc, roles)?;
    for number in 0..roles {
        let Some(pass) = passes.take(hall, number as u16) else {
            unreachable!()
        };
        jobs.push_reserved(job_of(rt, hall, pass));
    }
    Ok(jobs)
}

/// No jobs, with room for so many.
fn room_for(alloc: Global, many: usize) -> Result<Vec<Job>, AllocError>
    ensures empty { IfOk result (λ jobs. jobs.items ≡ []) }
    ensures room { IfOk result (λ jobs. many ≤ vec_capacity jobs) }
{
    let mut jobs = Vec::new(alloc);
    jobs.reserve(many)?;
    Ok(jobs)
}

/// Puts all passes back that are out. The answer is whether one of the actors was stopped.
fn give_all(hall: &Hall, passes: &mut Passes, jobs: &mut [Job]) -> bool
    requires taken { (commands : List IsCommand) × (was : PassesValue)
        × HasGivenSome hall.now commands (length jobs.old) 0 false was passes.old
        × AreJobsBack hall.now commands was.seen jobs.old }
    ensures given { (commands : List IsCommand) (was : PassesValue)
        → HasGivenSome hall.now commands (length jobs.old) 0 false was passes.old
        → AreJobsBack hall.now commands was.seen jobs.old
        → HasGivenSome hall.now commands (length jobs.old) (length jobs.old) result was passes.new }
{
    let mut stopped = false;
    for place in 0..jobs.len() {
        if give(hall, passes, &mut jobs[place]) {
            stopped = true;
        }
    }
    stopped
}

/// Puts the pass of a job back. The answer is whether its actor was stopped.
fn give(hall: &Hall, passes: &mut Passes, job: &mut Job) -> bool
    requires own { IsPassesOf hall.now passes.old }
    requires back { (n : ℕ) × (commands : List IsCommand) × (past : List Event) × IsJobBack hall.now n commands past job.old }
    ensures own { IsPassesOf hall.now passes.new }
    ensures given { (n : ℕ) (commands : List IsCommand) (past : List Event)
        → IsJobBack hall.now n commands past job.old
        → HasGivenJob hall.now n commands past result passes.old passes.new }
{
    let Some(player) = job.player.take() else {
        unreachable!()
    };
    passes.give(hall, Pass::of(player));
    job.stopped
}
