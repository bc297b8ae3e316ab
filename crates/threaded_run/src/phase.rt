//! A phase of a script over a hall.
ghost use Rattle.std.specs.Prelude.{◌≡◌, [], OnErr, OnOk};
ghost use Rattle.session_runs.specs.Sessions.{DoesPhase};
ghost use Rattle.threaded_run.specs.Phases.{AreBack, ArePhased, StopsInPhase};
ghost use Rattle.threaded_run.specs.Streams.{AllFit, ClosesLast};

use crate::closing::close_phase;
use crate::phases::run_together;
use hall_hands::of_actor_run::{Hall, Passes};
use script_form::Command;
use script_run::closes;
use std::alloc::{AllocError, Global};
use std::sync::Wait;
use std::thread::Threads;
use volap_io::Meet;

/// Runs a phase: its commands go all at once, but for a last one that closes it, which begins when all others have ended. Behind
/// it the cells of gates that are gone are used again. It is an error where memory is wanting: then some command has not begun,
/// of which nothing stands in the history, and none that would close the phase.
pub fn run_phase<R: Threads + Wait + Sync, M: Meet + Sync>(
    rt: &R,
    alloc: Global,
    hall: &Hall,
    passes: &mut Passes,
    phase: &[Command],
    meet: &M,
) -> Result<(), AllocError>
    requires phased { ArePhased hall.now passes.old }
    requires fits { AllFit hall.now phase.now }
    requires closes_last { ClosesLast phase.now }
    ensures back { AreBack hall.now passes.old passes.new }
    ensures done { OnOk result (DoesPhase hall.now.with hall.now.hierarchy phase.now passes.old.seen passes.new.seen) }
    ensures stopped { OnErr result (StopsInPhase hall.now.with hall.now.hierarchy phase.now passes.old.seen passes.new.seen) }
    ensures none_gone { OnOk result ((passes.new).gone ≡ []) }
{
    do_phase(rt, alloc, hall, passes, phase, meet)?;
    hall.reuse(rt, passes);
    Ok(())
}

/// The same, and no cell is used again.
fn do_phase<R: Threads + Wait + Sync, M: Meet + Sync>(
    rt: &R,
    alloc: Global,
    hall: &Hall,
    passes: &mut Passes,
    phase: &[Command],
    meet: &M,
) -> Result<(), AllocError>
    requires phased { ArePhased hall.now passes.old }
    requires fits { AllFit hall.now phase.now }
    requires closes_last { ClosesLast phase.now }
    ensures back { AreBack hall.now passes.old passes.new }
    ensures done { OnOk result (DoesPhase hall.now.with hall.now.hierarchy phase.now passes.old.seen passes.new.seen) }
    ensures stopped { OnErr result (StopsInPhase hall.now.with hall.now.hierarchy phase.now passes.old.seen passes.new.seen) }
{
    let many = phase.len();
    if many == 0 || !closes(&phase[many - 1]) {
        return run_together(rt, alloc, hall, passes, phase, meet);
    }
    let (front, _) = phase.split_at(many - 1);
    let Ok(()) = run_together(rt, alloc, hall, passes, front, meet) else {
        return Err(AllocError);
    };
    close_phase(rt, alloc, hall, passes, &phase[many - 1])
}
