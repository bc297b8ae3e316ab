//! A phase of a script, run to its end.
ghost use Rattle.std.specs.Prelude.{◌≡◌, ◌++◌, ◌<◌, [], length, OnOk, OnErr, IfOk};
ghost use Rattle.seeded_turns.specs.Drawn.{Reaches, Stops, able};
ghost use Rattle.seeded_run.specs.declared.machine.Running.{Running};
ghost use Rattle.seeded_run.specs.Kept.{AreIdle, HasBegunAll, IsBetween, IsStopped};
ghost use Rattle.seeded_run.specs.Machine.{AreFirstCursors, HasComeToRest, HasEndedBehindAny, HasRunTo, HasStoppedAt, HasStoppedBehindAny, HoldsNow, IsFirstMoment, IsPhaseHeld, IsSamePhase, LeavesAtMost, RestsAsIs, TakesTurn, about_in, can_in, most_steps, phase_of, streams_open, world_of};
ghost use Rattle.seeded_run.specs.Phase.{ClosesLast, EndsBehindAny, IsCoreHeld, MayAllRun, NobodyCanStep, RunsTo, StopsAt, StopsBehindAny, about, held, most_actors, phase_from};
ghost use Rattle.seeded_run.specs.Order.{is_order};

use crate::hands::first_hands;
use crate::machine::Running;
use core_pages::volap_cell::State;
use dim_hierarchy::Hierarchy;
use row_ledger::Use;
use script_form::Command;
use script_run::next_of;
use seeded_turns::Schedule;
use std::alloc::{AllocError, Global};
use std::marker::Brand;
use std::mem::replace;
use std::snapshot::Snapshot;
use std::sync::ledger::Blank;

/// Whether the commands go one after the other.
fn is_order(schedule: &Schedule) -> bool
    ensures { result ≡ is_order schedule.now }
{
    match schedule {
        Schedule::Order => true,
        Schedule::Seed(_) => false,
    }
}

/// By actor: where its first command stands in the phase, or how many commands that has. A session is an
/// actor's number; who is none has no commands.
pub(crate) fn first_cursors(
    alloc: Global,
    with: &Use,
    phase: &[Command],
    actors: usize,
) -> Result<Vec<usize>, AllocError>
    requires few { actors < most_actors }
    ensures { IfOk result (λ next. AreFirstCursors with.now phase.now actors next.items) }
{
    let mut next = Vec::new(alloc);
    for session in 0..actors {
        next.push(next_of(with, phase, session as u16, 0))?;
    }
    Ok(next)
}

/// How many streams aren't at their ends.
pub(crate) fn streams_open(next: &[usize], many: usize) -> usize
    ensures { result ≡ streams_open many next.now }
{
    next.iter().filter(|place| **place < many).count()
}

/// Turn after turn, until nobody can step.
fn run_turns(
    running: &mut Running,
    alloc: Global,
    schedule: &mut Schedule,
) -> Result<(), AllocError>
    requires held { HoldsNow running.old }
    requires left { LeavesAtMost running.old (most_steps running.old) }
    ensures held { HoldsNow running.new }
    ensures turns { OnOk result (Reaches Running (λ m. able (can_in m) (length m.next.items)) TakesTurn
        record { state = running.old; schedule = schedule.old } running.new schedule.new) }
    ensures ended { OnOk result (able (can_in running.new) (length running.new.next.items) ≡ []) }
    ensures stopped { OnErr result (Stops Running (λ m. able (can_in m) (length m.next.items)) TakesTurn RestsAsIs
        record { state = running.old; schedule = schedule.old } running.new schedule.new) }
{
    seeded_turns::run::<Running, Brand>(running, alloc, schedule, Blank::new(1))
}

/// Runs a phase that begins, to its end.
fn run_whole(
    running: &mut Running,
    alloc: Global,
    schedule: &mut Schedule,
) -> Result<(), AllocError>
    requires first { IsFirstMoment running.old }
    requires order { running.old.in_order ≡ is_order schedule.old }
    ensures held { IsPhaseHeld running.new }
    ensures same { IsSamePhase running.old running.new }
    ensures about { about_in running.new ≡ about_in running.old }
    ensures order { is_order schedule.new ≡ is_order schedule.old }
    ensures turns { OnOk result (HasRunTo running.old schedule.old running.new schedule.new) }
    ensures rested { OnOk result (HasComeToRest running.old schedule.old running.new) }
    ensures stopped { OnErr result (HasStoppedAt running.old schedule.old running.new) }
    ensures idle { OnOk result (AreIdle (world_of running.new)) }
    ensures begun { OnOk result (HasBegunAll (phase_of running.old) (held running.old.h.now running.old.with running.new.state)) }
    ensures behind { OnOk result (HasEndedBehindAny running.old running.new) }
    ensures into { OnErr result (HasStoppedBehindAny running.old running.new) }
{
    running.look_first(0);
    run_turns(running, alloc, schedule)
}

/// Runs a phase that begins with these cursors, to its end.
fn run_from(
    alloc: Global,
    h: &Hierarchy,
    with: &Use,
    phase: &[Command],
    state: &mut State,
    schedule: &mut Schedule,
    next: Vec<usize>,
) -> Result<(), AllocError>
    requires first { AreFirstCursors with.now phase.now (length state.old.actors.items) next.items }
    requires core { IsCoreHeld h.now with.now state.old }
    requires may_run { MayAllRun h.now with.now phase.now }
    requires closes { ClosesLast phase.now }
    requires idle { AreIdle (held h.now with.now state.old) }
    ensures core { IsCoreHeld h.now with.now state.new }
    ensures about { about h.now with.now state.new ≡ about h.now with.now state.old }
    ensures order { is_order schedule.new ≡ is_order schedule.old }
    ensures turns { OnOk result (RunsTo h.now with.now phase.now state.old schedule.old state.new schedule.new) }
    ensures rested { OnOk result (NobodyCanStep (is_order schedule.old) h.now with.now phase.now state.old state.new) }
    ensures stopped { OnErr result (StopsAt h.now with.now phase.now state.old schedule.old state.new) }
    ensures idle { OnOk result (AreIdle (held h.now with.now state.new)) }
    ensures begun { OnOk result (HasBegunAll (phase_from h.now with.now phase.now state.old) (held h.now with.now state.new)) }
    ensures behind { OnOk result (EndsBehindAny (is_order schedule.old) h.now with.now phase.now state.old state.new) }
    ensures into { OnErr result (StopsBehindAny (is_order schedule.old) h.now with.now phase.now state.old state.new) }
{
    let left = streams_open(&next, phase.len());
    let in_order = is_order(schedule);
    let hands = first_hands(in_order, &state.actors);
    let before = Snapshot::of(state);
    let bare = State {
        cells: Vec::new(alloc),
        actors: Vec::new(alloc),
    };
    let mut running = Running {
        h,
        with: *with,
        phase,
        in_order,
        before,
        state: replace(state, bare),
        next,
        left,
        begun: 0,
        first: None,
        hands,
    };
    let ran = run_whole(&mut running, alloc, schedule);
    let Running { state: reached, .. } = running;
    *state = reached;
    ran
}

/// Runs commands as one phase over a core whose actors, those of a script's run, are all idle: turn by turn, each
/// step made by the actor whose turn it is of those that can make the step that is due for them, until nobody can.
/// Under `Schedule::Order` the commands go one after the other, then the administrator uses cells again, and hands
/// make no step; by a seed each turn is drawn. Then every command of the phase has begun and ended, and all actors are
/// idle. What the core did before doesn't matter; where its history was a run of some commands, it goes on as one of
/// these and those of the phase.
///
/// Where a command finds no memory it ends with that, and the phase goes on. Only where none is found for noting
/// that either, for noting that a barrier begins, or for the cursors of the phase, this answers `AllocError`, with the
/// state that was reached.
pub fn run_commands(
    alloc: Global,
    h: &Hierarchy,
    with: &Use,
    phase: &[Command],
    state: &mut State,
    schedule: &mut Schedule,
) -> Result<(), AllocError>
    requires core { IsCoreHeld h.now with.now state.old }
    requires may_run { MayAllRun h.now with.now phase.now }
    requires closes { ClosesLast phase.now }
    requires idle { AreIdle (held h.now with.now state.old) }
    ensures core { IsCoreHeld h.now with.now state.new }
    ensures about { about h.now with.now state.new ≡ about h.now with.now state.old }
    ensures order { is_order schedule.new ≡ is_order schedule.old }
    ensures turns { OnOk result (RunsTo h.now with.now phase.now state.old schedule.old state.new schedule.new) }
    ensures rested { OnOk result (NobodyCanStep (is_order schedule.old) h.now with.now phase.now state.old state.new) }
    ensures stopped { OnErr result (StopsAt h.now with.now phase.now state.old schedule.old state.new) }
    ensures idle { OnOk result (AreIdle (held h.now with.now state.new)) }
    ensures begun { OnOk result (HasBegunAll (phase_from h.now with.now phase.now state.old) (held h.now with.now state.new)) }
    ensures behind { OnOk result (EndsBehindAny (is_order schedule.old) h.now with.now phase.now state.old state.new) }
    ensures into { OnErr result (StopsBehindAny (is_order schedule.old) h.now with.now phase.now state.old state.new) }
{
    match first_cursors(alloc, with, phase, state.actors.len()) {
        Ok(next) => run_from(alloc, h, with, phase, state, schedule, next),
        Err(refused) => Err(refused),
    }
}

/// Runs the next phase of a script's commands, behind those that are done, as `run_commands` does. Then the history
/// is a run of all of them, and no gate is gone whose cells could be used again; or where it stopped, the history is a
/// part of one.
pub fn run_phase(
    alloc: Global,
    h: &Hierarchy,
    with: &Use,
    done: &[Command],
    phase: &[Command],
    state: &mut State,
    schedule: &mut Schedule,
) -> Result<(), AllocError>
    requires core { IsCoreHeld h.now with.now state.old }
    requires may_run { MayAllRun h.now with.now (done.now ++ phase.now) }
    requires closes { ClosesLast phase.now }
    requires between { IsBetween (is_order schedule.old) (about h.now with.now state.old) with.now done.now (held h.now with.now state.old) }
    ensures core { IsCoreHeld h.now with.now state.new }
    ensures about { about h.now with.now state.new ≡ about h.now with.now state.old }
    ensures order { is_order schedule.new ≡ is_order schedule.old }
    ensures turns { OnOk result (RunsTo h.now with.now phase.now state.old schedule.old state.new schedule.new) }
    ensures rested { OnOk result (NobodyCanStep (is_order schedule.old) h.now with.now phase.now state.old state.new) }
    ensures stopped { OnErr result (StopsAt h.now with.now phase.now state.old schedule.old state.new) }
    ensures between { OnOk result (IsBetween (is_order schedule.old) (about h.now with.now state.old) with.now (done.now ++ phase.now) (held h.now with.now state.new)) }
    ensures into { OnErr result (IsStopped (is_order schedule.old) (about h.now with.now state.old) (phase_from h.now with.now phase.now state.old) done.now (held h.now with.now state.new)) }
{
    let _ = done;
    run_commands(alloc, h, with, phase, state, schedule)
}
