//! A script's phases over a hall, one after the other.
ghost use Rattle.std.specs.Prelude.{◌≡◌, ◌<◌, ◌≤◌, All, IfOk, length};
ghost use Rattle.script_form.specs.Fits.{AreSettings, Fits};
ghost use Rattle.threaded_run.specs.Phases.{ArePhased};
ghost use Rattle.threaded_run.specs.Streams.{AllFit};

use hall_hands::of_actor_run::{Hall, Passes};
use hall_hands::of_volap_cell::{Cell, State};
use row_ledger::Event;
use script_form::{Command, Script};
use script_run::phase_len;
use std::alloc::{AllocError, Global};
use std::sync::Wait;
use std::test::Fail;
use std::thread::Threads;
use threaded_run::{open, run_phase};
use volap_io::{Meet, Quiet};

/// Runs the first phase of these commands, and tells how many are done.
fn run_first<R: Threads + Wait + Sync, M: Meet + Sync>(
    rt: &R,
    alloc: Global,
    hall: &Hall,
    passes: &mut Passes,
    commands: &[Command],
    meet: &M,
) -> Result<usize, AllocError>
    requires some { 0 < length commands.now }
    requires phased { ArePhased hall.now passes.old }
    requires fits { AllFit hall.now commands.now }
    ensures phased { ArePhased hall.now passes.new }
    ensures some { IfOk result (λ many. 0 < many) }
    ensures within { IfOk result (λ many. many ≤ length commands.now) }
{
    let many = phase_len(commands);
    let (phase, _) = commands.split_at(many);
    run_phase(rt, alloc, hall, passes, phase, meet)?;
    Ok(many)
}

/// Runs these commands, phase by phase.
fn run_all<R: Threads + Wait + Sync, M: Meet + Sync>(
    rt: &R,
    alloc: Global,
    hall: &Hall,
    passes: &mut Passes,
    commands: &[Command],
    meet: &M,
) -> Result<(), AllocError>
    requires phased { ArePhased hall.now passes.old }
    requires fits { AllFit hall.now commands.now }
    ensures phased { ArePhased hall.now passes.new }
{
    let mut done = 0;
    while done < commands.len() {
        let (_, rest) = commands.split_at(done);
        let many = run_first(rt, alloc, hall, passes, rest, meet)?;
        done += many;
    }
    Ok(())
}

/// Runs the first commands while nobody is held up, and then the others.
fn run_both<R: Threads + Wait + Sync, M: Meet + Sync>(
    rt: &R,
    alloc: Global,
    hall: &Hall,
    passes: &mut Passes,
    commands: &[Command],
    before: usize,
    meet: &M,
) -> Result<(), AllocError>
    requires before { before ≤ length commands.now }
    requires phased { ArePhased hall.now passes.old }
    requires fits { AllFit hall.now commands.now }
    ensures phased { ArePhased hall.now passes.new }
{
    let (first, others) = commands.split_at(before);
    run_all(rt, alloc, hall, passes, first, &Quiet)?;
    run_all(rt, alloc, hall, passes, others, meet)
}

/// Runs a script in a hall of its own, the first commands while nobody is held up, and closes it; the state at the end.
pub(crate) fn run_script<R: Threads + Wait + Sync, M: Meet + Sync>(
    rt: &R,
    alloc: Global,
    script: Script,
    before: usize,
    meet: &M,
) -> Result<State, Fail>
    requires settings { AreSettings script.with }
    requires fits { All (Fits script) script.commands }
{
    let Script {
        with,
        hierarchy,
        commands,
    } = script;
    if hierarchy.dims() == 0 || commands.len() < before {
        return Err("the script has a dimension, and commands".into());
    }
    let (hall, mut passes) = open(alloc, with, hierarchy)?;
    let all = commands.as_slice();
    run_both(rt, alloc, &hall, &mut passes, all, before, meet)?;
    drop(commands);
    Ok(hall.close(passes))
}

/// The events of a state, the oldest first.
pub(crate) fn events_of(state: &State) -> &[Event] {
    match state.cells.first() {
        Some(Some(Cell::Ledger(ledger))) => ledger.events(),
        _ => &[],
    }
}
