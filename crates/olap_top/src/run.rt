//! A script's run, phase by phase, and what is told of it.
ghost use Rattle.std.specs.Prelude.{◌≡◌, ◌++◌, ◌∷◌, ◌≤◌, List, [], length, take, drop, IfOk, OnErr, OnOk};
ghost use Rattle.answer_text.specs.Summary.{summary};
ghost use Rattle.olap_top.specs.Engines.{HasBeenRead, MayRunNext};
ghost use Rattle.olap_top.specs.RunSoFar.{HasGone, HasStopped, IsBehind};
ghost use Rattle.olap_top.specs.Standing.{StandsBehind, StandsWithin, history_of};
ghost use Rattle.olap_top.specs.declared.wanted.Wanted.{Wanted};
ghost use Rattle.script_form.specs.declared.script.Command.{Command as IsCommand};
ghost use Rattle.threaded_run.specs.Streams.{ClosesLast};

use crate::engine::Engine;
use crate::plan::Plan;
use crate::tells::{PhaseText, SummaryText};
use answer_text::Teller;
use script_form::Command;
use std::alloc::{AllocError, Global};
use std::sync::Wait;
use std::thread::Threads;
use volap_io::Meet;

/// A run so far: what runs its phases, and what is told of them, where they are told.
#[derive(Drop)]
pub struct Run {
    pub engine: Engine,
    pub teller: Option<Teller>,
}

/// Runs the last of these commands, from a place on, as a phase behind those in front of them, which are done, and answers its
/// text, or no bytes where phases are not told. It is an error where memory is wanting, in the phase or for its text.
pub(crate) fn run_phase<R: Threads + Wait + Sync, M: Meet + Sync>(
    run: &mut Run,
    rt: &R,
    alloc: Global,
    script: &Plan,
    commands: &[Command],
    done: usize,
    meet: &M,
) -> Result<Vec<u8>, AllocError>
    requires low { done ≤ length commands.now }
    requires closes { ClosesLast (drop done commands.now) }
    requires may { (wanted : Wanted) × (ps : List (List IsCommand)) × StandsBehind wanted script.now ps run.old.engine × MayRunNext script.now ps done commands.now }
    requires behind { IsBehind script.now (take done commands.now) (history_of run.old.engine) run.old.teller }
    ensures gone { IfOk result (λ text. HasGone script.now (take done commands.now) (drop done commands.now)
        (history_of run.old.engine) (history_of run.new.engine) run.old.teller run.new.teller text.items) }
    ensures stands { (wanted : Wanted) (ps : List (List IsCommand)) → StandsBehind wanted script.now ps run.old.engine → MayRunNext script.now ps done commands.now
        → OnOk result (StandsBehind wanted script.now (ps ++ drop done commands.now ∷ []) run.new.engine) }
    ensures within { (wanted : Wanted) (ps : List (List IsCommand)) → StandsBehind wanted script.now ps run.old.engine → MayRunNext script.now ps done commands.now
        → StandsWithin wanted script.now ps (drop done commands.now) run.new.engine }
    ensures stopped { OnErr result (HasStopped script.now (take done commands.now) (drop done commands.now) (history_of run.old.engine) (history_of run.new.engine)) }
{
    run.engine.run_phase(rt, alloc, commands, done, meet)?;
    let mut reader = PhaseText {
        alloc,
        with: script.with(),
        commands,
        teller: run.teller.take(),
        text: Err(AllocError),
    };
    run.engine.read(rt, &mut reader);
    let PhaseText {
        alloc: _,
        with: _,
        commands: _,
        teller,
        text,
    } = reader;
    run.teller = teller;
    text
}

/// The summary of a run of the generated script of so many rows by a seed.
pub(crate) fn summary_of<R: Wait>(
    run: &mut Run,
    rt: &R,
    alloc: Global,
    script: &Plan,
    rows: u64,
    seed: u64,
) -> Result<Vec<u8>, AllocError>
    requires stands { (wanted : Wanted) × (ps : List (List IsCommand)) × StandsBehind wanted script.now ps run.old.engine }
    ensures text { IfOk result (λ text. text.items ≡ summary rows seed script.now.with script.now.commands (history_of run.new.engine)) }
    ensures kept { (wanted : Wanted) (ps : List (List IsCommand)) → StandsBehind wanted script.now ps run.old.engine
        → HasBeenRead script.now (history_of run.old.engine) (history_of run.new.engine) (StandsBehind wanted script.now ps run.new.engine) }
{
    let mut reader = SummaryText {
        alloc,
        rows,
        seed,
        with: script.with(),
        commands: script.commands(),
        text: Err(AllocError),
    };
    run.engine.read(rt, &mut reader);
    let SummaryText {
        alloc: _,
        rows: _,
        seed: _,
        with: _,
        commands: _,
        text,
    } = reader;
    text
}
