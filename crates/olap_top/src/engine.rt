//! What runs the phases of a script, one after the other: one thread that makes all steps, or a thread for each actor.
ghost use Rattle.std.specs.Prelude.{◌≡◌, ◌++◌, ◌∷◌, ◌≤◌, ◌⊎◌, List, [], drop, length, reverse, OnErr, OnOk};
ghost use Rattle.olap_top.specs.Engines.{HasBeenRead, HasGoneInto, IsLeftBehind, IsLeftWithin, MayRunNext};
ghost use Rattle.olap_top.specs.RunSoFar.{HasGrown};
ghost use Rattle.olap_top.specs.Standing.{StandsBehind, StandsWithin, history_of};
ghost use Rattle.olap_top.specs.declared.wanted.Wanted.{Wanted};
ghost use Rattle.row_ledger.specs.Right.{IsRight};
ghost use Rattle.row_ledger.specs.Site.{site_of};
ghost use Rattle.row_ledger.specs.declared.event.Event.{Event};
ghost use Rattle.script_form.specs.declared.script.Command.{Command as IsCommand};
ghost use Rattle.script_form.specs.declared.script.Script.{Script};
ghost use Rattle.script_run.specs.Between.{IsThrough};
ghost use Rattle.script_run.specs.Runs.{IsRunSoFar};
ghost use Rattle.threaded_run.specs.Streams.{ClosesLast};

use crate::alone::OnOneThread;
use crate::threads::OnThreads;
use core_laws::volap_cell::State;
use script_form::Command;
use std::alloc::{AllocError, Global};
use std::sync::Wait;
use std::thread::Threads;
use threaded_run::of_actor_run::ReadsHistory;
use volap_io::Meet;

/// What runs the phases of a script, and keeps its history. It has opened for the script.
#[derive(Drop)]
pub enum Engine {
    OneThread(OnOneThread),
    Threads(OnThreads),
}

impl Engine {
    /// Runs the last of these commands, from a place on, as a phase behind those in front of them, which are done. It is an
    /// error where memory is wanting, in the midst of the phase.
    pub fn run_phase<R: Threads + Wait + Sync, M: Meet + Sync>(
        &mut self,
        rt: &R,
        alloc: Global,
        commands: &[Command],
        done: usize,
        meet: &M,
    ) -> Result<(), AllocError>
        requires low { done ≤ length commands.now }
        requires closes { ClosesLast (drop done commands.now) }
        requires may { (wanted : Wanted) × (s : Script) × (ps : List (List IsCommand)) × StandsBehind wanted s ps self.old × MayRunNext s ps done commands.now }
        ensures into { (wanted : Wanted) (s : Script) (ps : List (List IsCommand)) → StandsBehind wanted s ps self.old → MayRunNext s ps done commands.now
            → HasGoneInto s (history_of self.old) (history_of self.new) (StandsWithin wanted s ps (drop done commands.now) self.new) }
        ensures through { (wanted : Wanted) (s : Script) (ps : List (List IsCommand)) → StandsBehind wanted s ps self.old → MayRunNext s ps done commands.now
            → OnOk result (IsThrough s.with s.hierarchy commands.now (history_of self.new) × StandsBehind wanted s (ps ++ drop done commands.now ∷ []) self.new) }
        ensures stopped { (wanted : Wanted) (s : Script) (ps : List (List IsCommand)) → StandsBehind wanted s ps self.old → MayRunNext s ps done commands.now
            → OnErr result ((more : List IsCommand) → IsRunSoFar s.with s.hierarchy (commands.now ++ more) (history_of self.new)) }
    {
        match self {
            Engine::OneThread(one) => one.run_phase(alloc, commands, done),
            Engine::Threads(threads) => threads.run_phase(rt, alloc, commands, done, meet),
        }
    }

    /// Lends the history between two phases to a reader.
    pub fn read<R: Wait, T: ReadsHistory>(&mut self, rt: &R, reader: &mut T)
        requires may { (wanted : Wanted) × (s : Script) × (ps : List (List IsCommand)) × StandsBehind wanted s ps self.old }
        requires asked { (events : List Event) → HasGrown (history_of self.old) (reverse events)
            → ((wanted : Wanted) (s : Script) (ps : List (List IsCommand)) → StandsBehind wanted s ps self.old → IsRight (site_of s.with s.hierarchy) (reverse events))
            → T.asks reader.old events }
        ensures told { T.tells reader.old (reverse (history_of self.new)) reader.new }
        ensures kept { (wanted : Wanted) (s : Script) (ps : List (List IsCommand)) → StandsBehind wanted s ps self.old
            → HasBeenRead s (history_of self.old) (history_of self.new) (StandsBehind wanted s ps self.new) }
        ensures within { (wanted : Wanted) (s : Script) (ps : List (List IsCommand)) (phase : List IsCommand) → StandsWithin wanted s ps phase self.old
            → StandsWithin wanted s ps phase self.new }
    {
        match self {
            Engine::OneThread(one) => one.read(reader),
            Engine::Threads(threads) => threads.read(rt, reader),
        }
    }

    /// The state that is left.
    pub fn into_state(self) -> State
        requires may { (wanted : Wanted) × (s : Script) × (ps : List (List IsCommand)) × (phase : List IsCommand)
            × (StandsBehind wanted s ps self ⊎ StandsWithin wanted s ps phase self) }
        ensures behind { (wanted : Wanted) (s : Script) (ps : List (List IsCommand)) → StandsBehind wanted s ps self → IsLeftBehind wanted s ps (history_of self) result }
        ensures within { (wanted : Wanted) (s : Script) (ps : List (List IsCommand)) (phase : List IsCommand) → StandsWithin wanted s ps phase self
            → IsLeftWithin wanted s ps phase (history_of self) result }
    {
        match self {
            Engine::OneThread(one) => one.into_state(),
            Engine::Threads(threads) => threads.into_state(),
        }
    }
}
