//! The turns of a phase: what an actor does whose turn it is.
ghost use Rattle.std.specs.Prelude.{◌≡◌, ◌<◌, ◌+◌, length, slice_get, option_copied, OnOk, OnErr, Some, None};
ghost use Rattle.std.specs.Prelude.{false, true, IfSome, get_or, if◌then◌else◌, option_map};
ghost use Rattle.seeded_run.specs.declared.turn.DueStep.TheVariants.{AtPart, AtWork, Reuses, Takes};
ghost use Rattle.script_run.specs.Places.{session_of};
ghost use Rattle.seeded_run.specs.Machine.{AloneInOrder, BeginsNow, HasBegunTo, HasMovedOn, HasTurned, HoldsNow, IsDueStep, IsPhaseHeld, IsPhaseKept, KnowsOtherHands, LeavesAtMost, RestsAsIs, TakesTurn, TellsSurvey, WaitsAt, about_in, can_in, next_at, phase_of, step_in, streams_open, world_of};
ghost use Rattle.seeded_run.specs.DueSteps.{KnowsBytes, step_if_free};

use crate::alone::rests;
use crate::beginnings::begin;
use crate::hands::FreeHands;
use crate::parts::{go_on_at_part, take_part};
use crate::survey::Survey;
use crate::turn::{DueStep, due, is_its_turn};
use crate::works::go_on_with_work;
use core_due::core_steps::{ReuseStep, make};
use core_due::{PartDue, WorkDue, reuse_due};
use core_pages::volap_cell::State;
use dim_hierarchy::Hierarchy;
use row_ledger::Use;
use script_form::Command;
use script_run::{next_of, session_of};
use seeded_turns::Machine;
use std::alloc::{AllocError, Global};
use std::snapshot::Snapshot;

/// A phase that runs.
#[derive(Drop)]
pub struct Running<'a> {
    pub h: &'a Hierarchy,
    pub with: Use,
    pub phase: &'a [Command],
    /// Whether the commands go one after the other.
    pub in_order: bool,
    /// The state as the phase began. It takes no bytes: only clauses read it.
    pub before: Snapshot<State>,
    pub state: State,
    /// By actor: where its next command stands in the phase, or how many commands that has.
    pub next: Vec<usize>,
    /// How many streams aren't at their ends.
    pub left: usize,
    /// Each command before this place has begun.
    pub begun: usize,
    /// Where the commands go in order: whose command is the first that isn't over.
    pub first: Option<usize>,
    /// Which hands have nothing to do. Where the commands go in order nobody asks for that.
    pub hands: FreeHands,
}

/// What a hand of the worker does that has nothing to do: it takes a part that waits for the worker, if one does.
fn part_taken(survey: &Survey, worker: u8) -> Option<DueStep>
    ensures { result ≡ (if get_or survey.now.awaited worker false then Some (Takes worker) else None) }
{
    if survey.is_awaited(worker) {
        Some(DueStep::Takes { worker })
    } else {
        None
    }
}

impl<'a> Running<'a> {
    /// The next command of an actor's stream, if it has one.
    pub(crate) fn next_command(&self, number: usize) -> Option<&'a Command>
        requires within { number < length self.now.next.items }
        ensures { option_copied result ≡ slice_get self.now.phase.now (next_at self.now number) }
    {
        self.phase.get(self.next[number])
    }

    /// A hand of the worker takes a part, where that is due.
    fn take_part(&mut self, alloc: Global, number: usize, worker: u8)
        requires held { IsPhaseHeld self.old }
        requires within { number < length self.old.state.actors.items }
        requires due { IsDueStep self.old number (Takes worker) }
        ensures turned { HasTurned self.old number self.new }
    {
        take_part(alloc, self.h, &self.with, &mut self.state, number, worker);
    }

    /// An actor uses a cell again, where that is due.
    fn reuse(&mut self, alloc: Global, number: usize, step: ReuseStep)
        requires held { IsPhaseHeld self.old }
        requires within { number < length self.old.state.actors.items }
        requires due { IsDueStep self.old number (Reuses step) }
        ensures turned { HasTurned self.old number self.new }
    {
        let _ = make(alloc, self.h, &mut self.state, number, step);
    }

    /// An actor goes on with its part or its purse, where that is due.
    fn go_on_at_part(&mut self, alloc: Global, number: usize, due: PartDue)
        requires held { IsPhaseHeld self.old }
        requires within { number < length self.old.state.actors.items }
        requires due { IsDueStep self.old number (AtPart due) }
        ensures turned { HasTurned self.old number self.new }
    {
        go_on_at_part(alloc, self.h, &self.with, &mut self.state, number, due);
    }

    /// An actor goes on with its command, where that is due.
    fn go_on_with_work(&mut self, alloc: Global, number: usize, due: WorkDue)
        requires held { IsPhaseHeld self.old }
        requires within { number < length self.old.state.actors.items }
        requires due { IsDueStep self.old number (AtWork due) }
        ensures turned { HasTurned self.old number self.new }
    {
        go_on_with_work(alloc, self.h, &self.with, &mut self.state, number, due);
    }

    /// An actor's next command begins, where that is due: then its session's next one is the one behind it.
    fn begin(&mut self, alloc: Global, number: usize, command: &Command) -> Result<(), AllocError>
        requires held { IsPhaseHeld self.old }
        requires within { number < length self.old.state.actors.items }
        requires begins { BeginsNow self.old number }
        requires next { slice_get self.old.phase.now (next_at self.old number) ≡ Some command.now }
        ensures turned { OnOk result (HasTurned self.old number self.new) }
        ensures rests { OnErr result (IsPhaseHeld self.new × RestsAsIs self.old self.new) }
    {
        if let Err(refused) = begin(alloc, self.h, &self.with, &mut self.state, number, command) {
            return Err(refused);
        }
        let session = session_of(&self.with, command);
        self.move_on(number, session);
        Ok(())
    }

    /// An actor makes the step that is due for it.
    fn take_turn(&mut self, alloc: Global, number: usize, due: DueStep) -> Result<(), AllocError>
        requires held { IsPhaseHeld self.old }
        requires within { number < length self.old.state.actors.items }
        requires due { IsDueStep self.old number due }
        ensures turned { OnOk result (HasTurned self.old number self.new) }
        ensures rests { OnErr result (IsPhaseHeld self.new × RestsAsIs self.old self.new) }
    {
        match due {
            DueStep::Begins => {
                let Some(command) = self.next_command(number) else {
                    unreachable!()
                };
                self.begin(alloc, number, command)
            }
            DueStep::Takes { worker } => {
                self.take_part(alloc, number, worker);
                Ok(())
            }
            DueStep::Reuses(step) => {
                self.reuse(alloc, number, step);
                Ok(())
            }
            DueStep::AtPart(due) => {
                self.go_on_at_part(alloc, number, due);
                Ok(())
            }
            DueStep::AtWork(due) => {
                self.go_on_with_work(alloc, number, due);
                Ok(())
            }
        }
    }

    /// The session's next command is the one behind its next one, which has begun.
    fn move_on(&mut self, number: usize, session: u16)
        requires within { number < length self.old.next.items }
        requires session { session ≡ number }
        requires next { next_at self.old number < length self.old.phase.now }
        requires left { self.old.left ≡ streams_open (length self.old.phase.now) self.old.next.items }
        ensures moved { HasMovedOn self.old number self.new }
    {
        let next = next_of(&self.with, self.phase, session, self.next[number] + 1);
        self.next[number] = next;
        if next == self.phase.len() {
            self.left -= 1;
        }
    }

    /// The place of the first command that hasn't begun, or how many there are.
    fn first_waiting(&self) -> usize
        requires kept { IsPhaseKept self.now }
        ensures begun { HasBegunTo self.now result }
        ensures waits { WaitsAt self.now result }
    {
        for place in self.begun..self.phase.len() {
            let session = session_of(&self.with, &self.phase[place]);
            if self.next[usize::from(session)] <= place {
                return place;
            }
        }
        self.phase.len()
    }

    /// Where the commands go in order, looks up whose the first one is that isn't over, behind a step of an
    /// actor. While that actor has something to do it is its. Notes too whether that actor is a hand that has
    /// nothing to do.
    pub(crate) fn look_first(&mut self, number: usize)
        requires kept { IsPhaseKept self.old }
        requires within { number < length self.old.state.actors.items }
        requires alone { AloneInOrder self.old number }
        requires hands { KnowsOtherHands self.old number }
        ensures held { IsPhaseHeld self.new }
        ensures same { self.new ≡ record self.old { begun = self.new.begun; first = self.new.first; hands = self.new.hands } }
    {
        self.hands.note(number, &self.state.actors[number]);
        if !self.in_order {
            return;
        }
        if rests(&self.state.actors[number]) {
            let begun = self.first_waiting();
            self.begun = begun;
            self.first = self.session_at(begun);
        } else {
            self.first = Some(number);
        }
    }

    /// What an actor does whose turn it is, if that waits for nothing: by a survey, where there is one.
    fn step_on_turn(&self, survey: Option<&Survey>, number: usize) -> Option<DueStep>
        requires held { IsPhaseHeld self.now }
        requires within { number < length self.now.next.items }
        requires told { IfSome (option_copied survey) (TellsSurvey self.now) }
        requires turn { self.now.in_order ≡ true → self.now.first ≡ Some number }
        ensures step { step_if_free (about_in self.now) (phase_of self.now) (world_of self.now) number ≡ result }
        ensures bytes { IfSome result (KnowsBytes self.now.with.servers ((world_of self.now).actors number)) }
    {
        let next = self.next_command(number);
        due(
            self.h,
            &self.with,
            &self.state,
            survey,
            number,
            next,
            self.left,
            self.in_order,
        )
    }

    /// What an actor does where the commands go in order and all are over: it uses a cell again, if it is the
    /// administrator and can.
    fn step_when_over(&self, number: usize) -> Option<DueStep>
        requires held { IsPhaseHeld self.now }
        requires within { number < length self.now.next.items }
        requires in_order { self.now.in_order ≡ true }
        requires over { self.now.first ≡ None }
        ensures step { step_in self.now number ≡ result }
        ensures bytes { IfSome result (KnowsBytes self.now.with.servers ((world_of self.now).actors number)) }
    {
        let Some(actor) = &self.state.actors[number] else {
            return None;
        };
        match reuse_due(&self.state.cells, actor) {
            Some(step) => Some(DueStep::Reuses(step)),
            None => None,
        }
    }

    /// What an actor does that can make a step: that waits for nothing, and where the commands go in order it is
    /// the actor of the first command that isn't over; everyone else is idle then, and carries nothing. Where all
    /// are over, cells are used again, and nothing else is done.
    fn step_in_turn(&self, number: usize) -> Option<DueStep>
        requires held { IsPhaseHeld self.now }
        requires within { number < length self.now.next.items }
        ensures step { step_in self.now number ≡ result }
        ensures bytes { IfSome result (KnowsBytes self.now.with.servers ((world_of self.now).actors number)) }
    {
        if is_its_turn(self.in_order, self.first, number) {
            return self.step_on_turn(None, number);
        }
        match self.first {
            Some(_) => None,
            None => self.step_when_over(number),
        }
    }

    /// The same by a survey, where the commands go in any order. A hand that has nothing to do takes a part that waits
    /// for its worker, if one does, and nothing else is asked. The survey tells of the workers that there are, and no hand
    /// is another's.
    fn step_by(&self, survey: &Survey, number: usize) -> Option<DueStep>
        requires held { IsPhaseHeld self.now }
        requires any { self.now.in_order ≡ false }
        requires within { number < length self.now.next.items }
        requires told { TellsSurvey self.now survey.now }
        ensures step { step_in self.now number ≡ result }
        ensures bytes { IfSome result (KnowsBytes self.now.with.servers ((world_of self.now).actors number)) }
    {
        match self.hands.worker_of(number) {
            Some(worker) if worker < self.with.workers => part_taken(survey, worker),
            _ => self.step_on_turn(Some(survey), number),
        }
    }

    /// The session of the command at a place of the phase, if one stands there.
    fn session_at(&self, place: usize) -> Option<usize>
        ensures { result ≡ option_map (session_of self.now.with) (slice_get self.now.phase.now place) }
    {
        match self.phase.get(place) {
            Some(command) => Some(usize::from(session_of(&self.with, command))),
            None => None,
        }
    }
}

impl<'a> Machine for Running<'a> {
    type Kind = DueStep;

    type Survey = Survey;

    ghost actors = { λ m. length m.next.items };

    ghost can = { can_in };

    ghost IsDue = { IsDueStep };

    ghost Tells = { TellsSurvey };

    ghost Holds = { HoldsNow };

    ghost makes = { TakesTurn };

    ghost stays = { RestsAsIs };

    ghost Left = { LeavesAtMost };

    #[tactic(auto, unfolding(crate::specs::Machine::HoldsNow))]
    fn actors(&self) -> u32 {
        self.next.len() as u32
    }

    #[tactic(auto, unfolding(crate::specs::Machine::HoldsNow))]
    fn due(&self, actor: u32) -> Option<DueStep> {
        self.step_in_turn(actor as usize)
    }

    #[tactic(auto, unfolding(crate::specs::Machine::HoldsNow))]
    fn survey(&self) -> Survey {
        Survey::of(&self.with, &self.state, &self.hands)
    }

    #[tactic(auto, unfolding(crate::specs::Machine::HoldsNow))]
    fn due_by(&self, survey: &Survey, actor: u32) -> Option<DueStep> {
        if self.in_order {
            return self.due(actor);
        }
        self.step_by(survey, actor as usize)
    }

    #[tactic(auto, unfolding(crate::specs::Machine::HoldsNow, crate::specs::Machine::LeavesAtMost))]
    fn step(&mut self, alloc: Global, actor: u32, kind: DueStep) -> Result<(), AllocError> {
        let number = actor as usize;
        if let Err(refused) = self.take_turn(alloc, number, kind) {
            return Err(refused);
        }
        self.look_first(number);
        Ok(())
    }
}
