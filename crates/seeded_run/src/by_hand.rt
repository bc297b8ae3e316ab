//! A phase of which the steps are made by hand: who makes the next one is up to the caller.
ghost use Rattle.std.specs.Prelude.{◌≡◌, ◌++◌, ◌<◌, true, false, length, IfOk, IfSome, OnErr, None, Some};
ghost use Rattle.core_due.specs.Works.{work_due_kind};
ghost use Rattle.seeded_run.specs.ByHand.{CannotMoveAt, HasMoved, HasMovedTo, IsLater, IsOfJob, MovesTo, StopsAmong, StopsAmongAt, may_find_none};
ghost use Rattle.seeded_run.specs.Kept.{AreIdle, IsBetween, IsStopped};
ghost use Rattle.seeded_run.specs.Machine.{AreFirstCursors, BeginsNow, HasStoppedBehindAny, HasTurned, HoldsNow, IsDueNow, IsDueStep, IsFirstMoment, IsPhaseHeld, IsSamePhase, about_in, can_in, phase_of, world_of};
ghost use Rattle.seeded_run.specs.Phase.{ClosesLast, IsCoreHeld, MayAllRun, StopsBehindAny, about, held, phase_from};
ghost use Rattle.seeded_run.specs.declared.turn.DueStep.TheVariants.{AtWork};
ghost use Rattle.core_pages.specs.volap_cell.specs.Setting.{actor_count};
ghost use Rattle.core_pages.specs.volap_cell.specs.declared.kind.Kind.TheVariants as kind_is;

use crate::hands::FreeHands;
use crate::kinds::{kind_of_beginning, kind_of_part, kind_of_work};
use crate::machine::Running;
use crate::phase::{first_cursors, streams_open};
use crate::turn::DueStep;
use core_due::WorkDue;
use core_due::core_steps::{JobStep, make};
use core_pages::volap_cell::{Kind, State};
use dim_hierarchy::Hierarchy;
use row_ledger::Use;
use script_form::Command;
use seeded_turns::Machine;
use std::alloc::{AllocError, Global};
use std::mem::replace;
use std::snapshot::Snapshot;

/// An actor's number, and the kind of step that it makes; or none, where it can make no step at that time. `Postpone` is
/// made in place of the step of a job that is due, as where that finds no memory.
pub type Move = (u32, Option<Kind>);

/// Whether a step of this kind may find no memory for a job that has frozen its shard.
fn may_find_none(kind: Kind) -> bool
    ensures test { result ≡ may_find_none kind }
    ensures meaning { result ≡ true → IsOfJob kind }
{
    match kind {
        Kind::Collect | Kind::FinishSplit | Kind::FinishMove => true,
        _ => false,
    }
}

impl<'a> Running<'a> {
    /// The kind of step by which an actor's next command begins, where that is due.
    fn kind_begun(&self, number: usize) -> Kind
        requires held { IsPhaseHeld self.now }
        requires within { number < length self.now.state.actors.items }
        requires begins { BeginsNow self.now number }
        ensures due { IsDueNow self.now number result }
    {
        let Some(command) = self.next_command(number) else {
            unreachable!()
        };
        kind_of_beginning(self.h, command)
    }

    /// The kind of the step that an actor is to make.
    #[tactic(auto, unfolding(crate::specs::Machine::HoldsNow))]
    fn kind_of(&self, actor: u32, step: &DueStep) -> Kind
        requires holds { HoldsNow self.now }
        requires within { actor < length self.now.next.items }
        requires due { IsDueStep self.now actor step.now }
        ensures due { IsDueNow self.now actor result }
    {
        match step {
            DueStep::Begins => self.kind_begun(actor as usize),
            DueStep::Takes { .. } => Kind::TakePart,
            DueStep::Reuses(_) => Kind::Reuse,
            DueStep::AtPart(due) => kind_of_part(due),
            DueStep::AtWork(due) => kind_of_work(due),
        }
    }

    /// What an actor does on its turn, if there is such an actor, and it can make a step.
    #[tactic(auto, unfolding(crate::specs::Machine::HoldsNow))]
    fn step_due(&self, actor: u32) -> Option<DueStep>
        requires holds { HoldsNow self.now }
        ensures none { result ≡ None → actor < actor_count (about_in self.now) → can_in self.now actor ≡ false }
        ensures some { IfSome result (λ step. (actor < length self.now.next.items) × (can_in self.now actor ≡ true) × IsDueStep self.now actor step) }
    {
        if actor >= self.actors() {
            return None;
        }
        self.due(actor)
    }

    /// An actor's job is given up, in place of the step that is due for it, as where that finds no memory.
    fn postpone(&mut self, alloc: Global, number: usize, due: &WorkDue)
        requires held { IsPhaseHeld self.old }
        requires within { number < length self.old.state.actors.items }
        requires due { IsDueStep self.old number (AtWork due.now) }
        requires frozen { may_find_none (work_due_kind due.now) ≡ true }
        requires of_job { IsOfJob (work_due_kind due.now) }
        ensures turned { HasTurned self.old number self.new }
    {
        let _ = due;
        let _ = make(alloc, self.h, &mut self.state, number, JobStep::Postpone);
    }

    /// An actor gives its job up, where its step is due and might find no memory. Tells whether it has.
    #[tactic(auto, unfolding(crate::specs::Machine::HoldsNow))]
    fn make_postpone(&mut self, alloc: Global, actor: u32, step: &DueStep) -> bool
        requires holds { HoldsNow self.old }
        requires within { actor < length self.old.next.items }
        requires due { IsDueStep self.old actor step.now }
        ensures holds { HoldsNow self.new }
        ensures later { IsLater self.old self.new }
        ensures moved { result ≡ true → MovesTo self.old actor (Some kind_is.Postpone) self.new }
        ensures none { result ≡ false → self.new ≡ self.old }
    {
        let number = actor as usize;
        let DueStep::AtWork(due) = step else {
            return false;
        };
        if !may_find_none(kind_of_work(due)) {
            return false;
        }
        self.postpone(alloc, number, due);
        self.look_first(number);
        true
    }

    /// An actor makes this move. Tells whether it could: whether that kind of step was due for it and it could make it,
    /// or, where it is to make none, whether it could make none.
    fn make_move(
        &mut self,
        alloc: Global,
        actor: u32,
        kind: Option<Kind>,
    ) -> Result<bool, AllocError>
        requires holds { HoldsNow self.old }
        ensures holds { HoldsNow self.new }
        ensures later { IsLater self.old self.new }
        ensures moved { IfOk result (λ could. could ≡ true → MovesTo self.old actor kind self.new) }
        ensures cannot { IfOk result (λ could. could ≡ false → CannotMoveAt self.new actor kind × (world_of self.new ≡ world_of self.old)) }
        ensures rests { OnErr result (world_of self.new ≡ world_of self.old) }
    {
        let Some(step) = self.step_due(actor) else {
            return Ok(kind.is_none());
        };
        if kind == Some(Kind::Postpone) {
            return Ok(self.make_postpone(alloc, actor, &step));
        }
        if Some(self.kind_of(actor, &step)) != kind {
            return Ok(false);
        }
        self.step(alloc, actor, step)?;
        Ok(true)
    }

    /// Makes these moves. Tells how many were made, up to the first that could not be.
    fn make_all(&mut self, alloc: Global, moves: &[Move]) -> Result<usize, AllocError>
        requires holds { HoldsNow self.old }
        ensures holds { HoldsNow self.new }
        ensures later { IsLater self.old self.new }
        ensures moved { IfOk result (λ count. HasMovedTo self.old moves.now count self.new) }
        ensures stopped { OnErr result (StopsAmongAt self.old moves.now self.new) }
    {
        for (place, (actor, kind)) in moves.iter().enumerate() {
            if !self.make_move(alloc, *actor, *kind)? {
                return Ok(place);
            }
        }
        Ok(moves.len())
    }
}

/// Makes these moves in a phase that begins.
fn make_whole(running: &mut Running, alloc: Global, moves: &[Move]) -> Result<usize, AllocError>
    requires first { IsFirstMoment running.old }
    ensures held { IsPhaseHeld running.new }
    ensures same { IsSamePhase running.old running.new }
    ensures about { about_in running.new ≡ about_in running.old }
    ensures moved { IfOk result (λ count. HasMovedTo running.old moves.now count running.new) }
    ensures stopped { OnErr result (StopsAmongAt running.old moves.now running.new) }
    ensures into { HasStoppedBehindAny running.old running.new }
{
    running.look_first(0);
    running.make_all(alloc, moves)
}

/// Makes these moves in a phase that begins with these cursors.
fn make_from(
    alloc: Global,
    h: &Hierarchy,
    with: &Use,
    phase: &[Command],
    state: &mut State,
    moves: &[Move],
    next: Vec<usize>,
) -> Result<usize, AllocError>
    requires first { AreFirstCursors with.now phase.now (length state.old.actors.items) next.items }
    requires core { IsCoreHeld h.now with.now state.old }
    requires may_run { MayAllRun h.now with.now phase.now }
    requires closes { ClosesLast phase.now }
    requires idle { AreIdle (held h.now with.now state.old) }
    ensures core { IsCoreHeld h.now with.now state.new }
    ensures about { about h.now with.now state.new ≡ about h.now with.now state.old }
    ensures moved { IfOk result (λ count. HasMoved false (about h.now with.now state.old) (phase_from h.now with.now phase.now state.old) (held h.now with.now state.old) moves.now count (held h.now with.now state.new)) }
    ensures stopped { OnErr result (StopsAmong false (about h.now with.now state.old) (phase_from h.now with.now phase.now state.old) (held h.now with.now state.old) moves.now (held h.now with.now state.new)) }
    ensures into { StopsBehindAny false h.now with.now phase.now state.old state.new }
{
    let left = streams_open(&next, phase.len());
    let hands = FreeHands::among(&state.actors);
    let before = Snapshot::of(state);
    let bare = State {
        cells: Vec::new(alloc),
        actors: Vec::new(alloc),
    };
    let mut running = Running {
        h,
        with: *with,
        phase,
        in_order: false,
        before,
        state: replace(state, bare),
        next,
        left,
        begun: 0,
        first: None,
        hands,
    };
    let made = make_whole(&mut running, alloc, moves);
    let Running { state: reached, .. } = running;
    *state = reached;
    made
}

/// Makes these moves, one after the other, in a phase of a script's commands that begins, behind those that are done.
/// Each is a step that the phase could make too where its turns are drawn by a seed, and no memory is found for a step
/// in whose place a job is given up. Tells how many were made: it stops before the first that could not be. That may be
/// in the midst of the phase.
///
/// Where no memory is found for the cursors of the phase, or for noting that a command finds none, this answers
/// `AllocError`, with the state that was reached.
pub fn run_by_hand(
    alloc: Global,
    h: &Hierarchy,
    with: &Use,
    done: &[Command],
    phase: &[Command],
    state: &mut State,
    moves: &[Move],
) -> Result<usize, AllocError>
    requires core { IsCoreHeld h.now with.now state.old }
    requires may_run { MayAllRun h.now with.now (done.now ++ phase.now) }
    requires closes { ClosesLast phase.now }
    requires between { IsBetween false (about h.now with.now state.old) with.now done.now (held h.now with.now state.old) }
    ensures core { IsCoreHeld h.now with.now state.new }
    ensures about { about h.now with.now state.new ≡ about h.now with.now state.old }
    ensures moved { IfOk result (λ count. HasMoved false (about h.now with.now state.old) (phase_from h.now with.now phase.now state.old) (held h.now with.now state.old) moves.now count (held h.now with.now state.new)) }
    ensures stopped { OnErr result (StopsAmong false (about h.now with.now state.old) (phase_from h.now with.now phase.now state.old) (held h.now with.now state.old) moves.now (held h.now with.now state.new)) }
    ensures into { IsStopped false (about h.now with.now state.old) (phase_from h.now with.now phase.now state.old) done.now (held h.now with.now state.new) }
{
    let _ = done;
    match first_cursors(alloc, with, phase, state.actors.len()) {
        Ok(next) => make_from(alloc, h, with, phase, state, moves, next),
        Err(refused) => Err(refused),
    }
}
