//! A thread for each actor of a script's run, where one can be made.
ghost use Rattle.std.specs.Prelude.{◌≡◌, ◌<◌, ◌++◌, ◌∷◌, ◌≤◌, ◌⊎◌, List, [], drop, length, reverse, true, IfOk, OnErr, OnOk};
ghost use Rattle.dim_hierarchy.specs.Dimension.{IsHierarchy};
ghost use Rattle.olap_top.specs.Engines.{HasBeenRead, HasGoneInto, HasOpenedFor, IsLeftBehind, IsLeftWithin, MayRunNext};
ghost use Rattle.olap_top.specs.Outcomes.{on_threads};
ghost use Rattle.olap_top.specs.Threads.{IsHallBehind, IsHallOf};
ghost use Rattle.olap_top.specs.declared.wanted.Wanted.{Wanted};
ghost use Rattle.script_form.specs.Fits.{AreSettings};
ghost use Rattle.olap_top.specs.RunSoFar.{HasGrown};
ghost use Rattle.row_ledger.specs.Right.{IsRight};
ghost use Rattle.row_ledger.specs.Site.{site_of};
ghost use Rattle.row_ledger.specs.declared.event.Event.{Event};
ghost use Rattle.script_form.specs.declared.script.Command.{Command as IsCommand};
ghost use Rattle.script_run.specs.Between.{IsThrough};
ghost use Rattle.script_run.specs.Runs.{IsRunSoFar};
ghost use Rattle.threaded_run.specs.Streams.{ClosesLast};
ghost use Rattle.script_form.specs.declared.script.Script.{Script};

use core_laws::volap_cell::State;
use dim_hierarchy::Hierarchy;
use row_ledger::Use;
use script_form::Command;
use std::alloc::{AllocError, Global};
use std::sync::Wait;
use std::thread::Threads;
use threaded_run::of_actor_run::{Hall, Passes, ReadsHistory};
use threaded_run::{open, run_phase};
use volap_io::Meet;

/// The hall of a script's run, and its passes, which are all in between two phases.
#[derive(Drop)]
pub struct OnThreads {
    pub hall: Hall,
    pub passes: Passes,
}

impl OnThreads {
    /// The hall of a script as it opens, with nothing done. It fails for want of memory alone.
    pub fn new(alloc: Global, hierarchy: Hierarchy, with: Use) -> Result<OnThreads, AllocError>
        requires settings { AreSettings with }
        requires hierarchy { IsHierarchy hierarchy }
        requires dims { 0 < length hierarchy }
        ensures opened { IfOk result (λ e. (wanted : Wanted) (s : Script) → s.with ≡ with → s.hierarchy ≡ hierarchy → on_threads wanted s ≡ true
            → HasOpenedFor s e.passes.seen (IsHallBehind wanted s [] e.hall e.passes)) }
    {
        let (hall, passes) = open(alloc, with, hierarchy)?;
        passes.right();
        Ok(OnThreads { hall, passes })
    }

    /// Runs the last of these commands, from a place on, as a phase behind those in front of them, which are done. It is an
    /// error where memory is wanting, in the midst of the phase.
    pub fn run_phase<R: Threads + Wait + Sync, M: Meet + Sync>(
        &mut self,
        rt: &R,
        alloc: Global,
        commands: &[Command],
        done: usize,
        meet: &M,
    ) -> Result<(), AllocError>
        requires low { done ≤ length commands.now }
        requires closes { ClosesLast (drop done commands.now) }
        requires may { (wanted : Wanted) × (s : Script) × (ps : List (List IsCommand)) × IsHallBehind wanted s ps self.old.hall self.old.passes × MayRunNext s ps done commands.now }
        ensures into { (wanted : Wanted) (s : Script) (ps : List (List IsCommand)) → IsHallBehind wanted s ps self.old.hall self.old.passes → MayRunNext s ps done commands.now
            → HasGoneInto s (self.old.passes.seen) (self.new.passes.seen) (IsHallOf wanted s self.new.hall self.new.passes) }
        ensures through { (wanted : Wanted) (s : Script) (ps : List (List IsCommand)) → IsHallBehind wanted s ps self.old.hall self.old.passes → MayRunNext s ps done commands.now
            → OnOk result (IsThrough s.with s.hierarchy commands.now (self.new.passes.seen) × IsHallBehind wanted s (ps ++ drop done commands.now ∷ []) self.new.hall self.new.passes) }
        ensures stopped { (wanted : Wanted) (s : Script) (ps : List (List IsCommand)) → IsHallBehind wanted s ps self.old.hall self.old.passes → MayRunNext s ps done commands.now
            → OnErr result ((more : List IsCommand) → IsRunSoFar s.with s.hierarchy (commands.now ++ more) (self.new.passes.seen)) }
    {
        let (_, phase) = commands.split_at(done);
        let ran = run_phase(rt, alloc, &self.hall, &mut self.passes, phase, meet);
        self.passes.right();
        ran
    }

    /// Lends the history between two phases to a reader.
    pub fn read<R: Wait, T: ReadsHistory>(&mut self, rt: &R, reader: &mut T)
        requires may { (wanted : Wanted) × (s : Script) × (ps : List (List IsCommand)) × IsHallBehind wanted s ps self.old.hall self.old.passes }
        requires asked { (events : List Event) → HasGrown (self.old.passes.seen) (reverse events)
            → ((wanted : Wanted) (s : Script) (ps : List (List IsCommand)) → IsHallBehind wanted s ps self.old.hall self.old.passes → IsRight (site_of s.with s.hierarchy) (reverse events))
            → T.asks reader.old events }
        ensures told { T.tells reader.old (reverse (self.new.passes.seen)) reader.new }
        ensures kept { (wanted : Wanted) (s : Script) (ps : List (List IsCommand)) → IsHallBehind wanted s ps self.old.hall self.old.passes
            → HasBeenRead s (self.old.passes.seen) (self.new.passes.seen) (IsHallBehind wanted s ps self.new.hall self.new.passes) }
        ensures within { (wanted : Wanted) (s : Script) (ps : List (List IsCommand)) (phase : List IsCommand) → IsHallOf wanted s self.old.hall self.old.passes
            → IsHallOf wanted s self.new.hall self.new.passes }
    {
        self.hall.read_history(rt, &mut self.passes, reader);
    }

    /// The state that is left.
    pub fn into_state(self) -> State
        requires may { (wanted : Wanted) × (s : Script) × (ps : List (List IsCommand)) × (phase : List IsCommand)
            × (IsHallBehind wanted s ps self.hall self.passes ⊎ IsHallOf wanted s self.hall self.passes) }
        ensures behind { (wanted : Wanted) (s : Script) (ps : List (List IsCommand)) → IsHallBehind wanted s ps self.hall self.passes → IsLeftBehind wanted s ps (self.passes.seen) result }
        ensures within { (wanted : Wanted) (s : Script) (ps : List (List IsCommand)) (phase : List IsCommand) → IsHallOf wanted s self.hall self.passes
            → IsLeftWithin wanted s ps phase (self.passes.seen) result }
    {
        let OnThreads { hall, passes } = self;
        hall.close(passes)
    }
}
