//! One thread that makes all steps of a script's run.
ghost use Rattle.std.specs.Prelude.{◌≡◌, ◌++◌, ◌∷◌, ◌≤◌, ◌⊎◌, List, [], drop, false, length, reverse, IfOk, OnErr, OnOk};
ghost use Rattle.dim_hierarchy.specs.Dimension.{Dimension};
ghost use Rattle.olap_top.specs.Alone.{IsBehindPhases, IsWithinPhase, history_at};
ghost use Rattle.olap_top.specs.Engines.{HasBeenRead, HasGoneInto, HasOpenedFor, IsLeftBehind, IsLeftWithin, MayRunNext};
ghost use Rattle.olap_top.specs.Outcomes.{on_threads, schedule_of};
ghost use Rattle.row_ledger.specs.declared.settings.Use as settings;
ghost use Rattle.olap_top.specs.RunSoFar.{HasGrown};
ghost use Rattle.row_ledger.specs.Right.{IsRight};
ghost use Rattle.row_ledger.specs.Site.{site_of};
ghost use Rattle.row_ledger.specs.declared.event.Event.{Event};
ghost use Rattle.script_form.specs.declared.script.Command.{Command as IsCommand};
ghost use Rattle.script_run.specs.Between.{IsThrough};
ghost use Rattle.script_run.specs.Runs.{IsRunSoFar};
ghost use Rattle.threaded_run.specs.Streams.{ClosesLast};
ghost use Rattle.script_form.specs.declared.script.Script.{Script};
ghost use Rattle.olap_top.specs.declared.wanted.Wanted.{Wanted};
ghost use Rattle.seeded_run.specs.script_roles.specs.Roles.{CanOpen};
ghost use Rattle.seeded_run.specs.Phase.{IsCoreHeld};

use crate::wanted::Wanted;
use core_laws::volap_cell::{Cell, State};
use dim_hierarchy::Hierarchy;
use row_ledger::{Event, Use};
use script_form::Command;
use seeded_run::{open_core, run_phase};
use seeded_turns::Schedule;
use std::alloc::{AllocError, Global};
use threaded_run::of_actor_run::ReadsHistory;

/// The core of a script's run, which one thread holds, and whose turn is next in it.
#[derive(Drop)]
pub struct OnOneThread {
    pub hierarchy: Hierarchy,
    pub with: Use,
    pub state: State,
    pub schedule: Schedule,
}

/// Whose turn it is in a run on one thread that is wanted. Takes no memory.
fn schedule_of(wanted: Wanted) -> Schedule
    ensures { result ≡ schedule_of wanted }
{
    match wanted {
        Wanted::Seeded(seed) => Schedule::seeded(seed),
        Wanted::Step | Wanted::Run | Wanted::Load { .. } => Schedule::Order,
    }
}

/// The events so far, the oldest first.
fn events(state: &State) -> &[Event]
    requires core { (h : List Dimension) × (with : settings.Use) × IsCoreHeld h with state.now }
    ensures { reverse result.now ≡ history_at state.now }
{
    match state.cells.get(0) {
        Some(Some(Cell::Ledger(ledger))) => ledger.events(),
        _ => unreachable!(),
    }
}

impl OnOneThread {
    /// The core of a script as it opens for a run that is wanted, with nothing done. It fails for want of memory alone.
    pub fn new(
        alloc: Global,
        hierarchy: Hierarchy,
        with: Use,
        wanted: Wanted,
    ) -> Result<OnOneThread, AllocError>
        requires { CanOpen hierarchy with }
        ensures opened { IfOk result (λ e. (s : Script) → s.with ≡ with → s.hierarchy ≡ hierarchy → on_threads wanted s ≡ false
            → HasOpenedFor s (history_at e.state) (IsBehindPhases wanted s [] e)) }
    {
        let state = open_core(alloc, &hierarchy, &with)?;
        Ok(OnOneThread {
            hierarchy,
            with,
            state,
            schedule: schedule_of(wanted),
        })
    }

    /// Runs the last of these commands, from a place on, as a phase behind those in front of them, which are done. It is an
    /// error where memory is wanting, in the midst of the phase.
    pub fn run_phase(
        &mut self,
        alloc: Global,
        commands: &[Command],
        done: usize,
    ) -> Result<(), AllocError>
        requires low { done ≤ length commands.now }
        requires closes { ClosesLast (drop done commands.now) }
        requires may { (wanted : Wanted) × (s : Script) × (ps : List (List IsCommand)) × IsBehindPhases wanted s ps self.old × MayRunNext s ps done commands.now }
        ensures into { (wanted : Wanted) (s : Script) (ps : List (List IsCommand)) → IsBehindPhases wanted s ps self.old → MayRunNext s ps done commands.now
            → HasGoneInto s (history_at self.old.state) (history_at self.new.state) (IsWithinPhase wanted s ps (drop done commands.now) self.new) }
        ensures through { (wanted : Wanted) (s : Script) (ps : List (List IsCommand)) → IsBehindPhases wanted s ps self.old → MayRunNext s ps done commands.now
            → OnOk result (IsThrough s.with s.hierarchy commands.now (history_at self.new.state) × IsBehindPhases wanted s (ps ++ drop done commands.now ∷ []) self.new) }
        ensures stopped { (wanted : Wanted) (s : Script) (ps : List (List IsCommand)) → IsBehindPhases wanted s ps self.old → MayRunNext s ps done commands.now
            → OnErr result ((more : List IsCommand) → IsRunSoFar s.with s.hierarchy (commands.now ++ more) (history_at self.new.state)) }
    {
        let (before, phase) = commands.split_at(done);
        run_phase(
            alloc,
            &self.hierarchy,
            &self.with,
            before,
            phase,
            &mut self.state,
            &mut self.schedule,
        )
    }

    /// Lends the history between two phases to a reader.
    pub fn read<T: ReadsHistory>(&mut self, reader: &mut T)
        requires may { (wanted : Wanted) × (s : Script) × (ps : List (List IsCommand)) × IsBehindPhases wanted s ps self.old }
        requires asked { (events : List Event) → HasGrown (history_at self.old.state) (reverse events)
            → ((wanted : Wanted) (s : Script) (ps : List (List IsCommand)) → IsBehindPhases wanted s ps self.old → IsRight (site_of s.with s.hierarchy) (reverse events))
            → T.asks reader.old events }
        ensures told { T.tells reader.old (reverse (history_at self.new.state)) reader.new }
        ensures kept { (wanted : Wanted) (s : Script) (ps : List (List IsCommand)) → IsBehindPhases wanted s ps self.old
            → HasBeenRead s (history_at self.old.state) (history_at self.new.state) (IsBehindPhases wanted s ps self.new) }
        ensures within { (wanted : Wanted) (s : Script) (ps : List (List IsCommand)) (phase : List IsCommand) → IsWithinPhase wanted s ps phase self.old
            → IsWithinPhase wanted s ps phase self.new }
    {
        reader.read(events(&self.state));
    }

    /// The state that is left.
    pub fn into_state(self) -> State
        requires may { (wanted : Wanted) × (s : Script) × (ps : List (List IsCommand)) × (phase : List IsCommand)
            × (IsBehindPhases wanted s ps self ⊎ IsWithinPhase wanted s ps phase self) }
        ensures behind { (wanted : Wanted) (s : Script) (ps : List (List IsCommand)) → IsBehindPhases wanted s ps self → IsLeftBehind wanted s ps (history_at self.state) result }
        ensures within { (wanted : Wanted) (s : Script) (ps : List (List IsCommand)) (phase : List IsCommand) → IsWithinPhase wanted s ps phase self
            → IsLeftWithin wanted s ps phase (history_at self.state) result }
    {
        let OnOneThread {
            hierarchy: _,
            with: _,
            state,
            schedule: _,
        } = self;
        state
    }
}
