//! The top call.
ghost use Rattle.std.specs.Prelude.{◌≡◌, ◌≢◌, ◌+◌, ◌≤◌, ◌^◌, ◌⊎◌, ◌↔◌, ◌<◌, List, ℕ, [], Ok, Err, IfOk, IsErrOf, true, false, Bool, All, if◌then◌else◌, is_some, length};
ghost use Rattle.std.specs.Io.KnownBytes.{Appends};
ghost use Rattle.volap_io.specs.Causes.{Rose, Gave};
ghost use Rattle.dim_hierarchy.specs.Dimension.{Dimension, IsHierarchy};
ghost use Rattle.row_ledger.specs.Right.{IsRight};
ghost use Rattle.row_ledger.specs.Site.{site_of};
ghost use Rattle.row_ledger.specs.declared.settings.Use as settings;
ghost use Rattle.script_form.specs.Fits.{AreSettings, Fits};
ghost use Rattle.script_form.specs.Scripts.{records_of, script};
ghost use Rattle.script_form.specs.declared.script.Cause.{Cause};
ghost use Rattle.script_form.specs.declared.script.Command.{Command as IsCommand};
ghost use Rattle.script_form.specs.declared.script.Script.{Script};
ghost use Rattle.script_form.specs.declared.script.ScriptFault.TheVariants as fault;
ghost use Rattle.script_run.specs.Between.{IsThrough};
ghost use Rattle.script_run.specs.Runs.{IsRunSoFar};
ghost use Rattle.seeded_run.specs.Core.{HasState};
ghost use Rattle.answer_text.specs.Printed.{told, bad_line};
ghost use Rattle.answer_text.specs.Summary.{summary};
ghost use Rattle.olap_top.specs.Engines.{HasBeenRead, HasOpenedFor};
ghost use Rattle.olap_top.specs.Left.{IsHandedOut, LeavesAsked, LeavesRun};
ghost use Rattle.olap_top.specs.Outcomes.{LeavesNothing, goes_in_order, AreAsked, TookPart, HasRun, IsSerialRun, IsSettlingRun, RanTo, RanToPhase, RanInto, IsDone, IsCutOff, IsStarved, IsNoScript, HasGoodScript, asked_text, on_threads};
ghost use Rattle.olap_top.specs.RunSoFar.{tells_phases, HasLeft, IsBehind};
ghost use Rattle.olap_top.specs.Standing.{StandsBehind, StandsWithin, history_of};
ghost use Rattle.olap_top.specs.Wanted.{AreFewRows};
ghost use Rattle.olap_top.specs.Words.{AskFor, ForSomeWanted};
ghost use Rattle.olap_top.specs.declared.wanted.Wanted as words_ask;

use crate::alone::OnOneThread;
use crate::engine::Engine;
use crate::outcome::{Outcome, Status};
use crate::plan::Plan;
use crate::run::{Run, run_phase, summary_of};
use crate::tells::teller_of;
use crate::threads::OnThreads;
use crate::wanted::Wanted;
use answer_text::BadLine;
use core_laws::volap_cell::{Cell, State, lift_one, put_one};
use dim_hierarchy::Hierarchy;
use row_ledger::Ledger;
use script_form::{Cause, Script, ScriptFault, read_script};
use script_run::phase_len;
use std::alloc::{AllocError, Global};
use std::sync::Wait;
use std::thread::Threads;
use volap_gen::{generate, generated_is_a_script};
use volap_io::{Meet, ReadEnd, Sink, Source, read_all, write_all};

/// How many bytes a script may have.
const LIMIT: u64 = 1 << 26;

/// Where nothing ran, there is no state, and the history is empty. Takes no memory.
fn without_run(alloc: Global, status: Status) -> Outcome
    ensures status { result.status ≡ status }
    ensures nothing { LeavesNothing result }
{
    Outcome {
        status,
        ledger: Ledger::new(alloc),
        rest: None,
    }
}

/// Moves the ledger out of its cell, which becomes free, and hands out both. Takes no memory.
fn with_rest(status: Status, mut state: State) -> Outcome
    requires state { (h : List Dimension) × (with : settings.Use) × HasState h with state.cells.items state.actors.items }
    ensures status { result.status ≡ status }
    ensures rest { (h : List Dimension) (with : settings.Use) → HasState h with state.cells.items state.actors.items → IsHandedOut h with state result }
{
    let cell = lift_one(&mut state.cells, 0);
    put_one(&mut state.cells, 0, Cell::Free);
    let Cell::Ledger(ledger) = cell else {
        unreachable!()
    };
    Outcome {
        status,
        ledger: Box::into_inner(ledger),
        rest: Some(state),
    }
}

/// Runs a script phase by phase, and writes the text of each as one piece when it has ended, where
/// phases are told.
fn run_phases<R: Threads + Wait + Sync, K: Sink, M: Meet + Sync>(
    run: &mut Run,
    rt: &R,
    alloc: Global,
    script: &Plan,
    sink: &mut K,
    meet: &M,
) -> Status
    requires settings { AreSettings script.now.with }
    requires fits { All (Fits script.now) script.now.commands }
    requires dims { 0 < length script.now.commands → 0 < length script.now.hierarchy }
    requires start { IsBehind script.now [] (history_of run.old.engine) run.old.teller }
    requires stands { (wanted : words_ask.Wanted) × StandsBehind wanted script.now [] run.old.engine }
    ensures kinds { (result ≡ Status.Done) ⊎ (result ≡ Status.WriteFault) ⊎ (result ≡ Status.NoMemory) }
    ensures no_memory { result ≡ Status.NoMemory
        → (wanted : words_ask.Wanted) → is_some run.old.teller ≡ tells_phases wanted
        → RanInto wanted script.now (K.taken sink.old) (K.taken sink.new) (history_of run.new.engine) }
    ensures write_fault { result ≡ Status.WriteFault
        → Rose (K.faults sink.old) (K.faults sink.new)
        × (is_some run.old.teller ≡ true)
        × RanToPhase script.now (K.taken sink.old) (K.taken sink.new) (history_of run.new.engine) }
    ensures done { result ≡ Status.Done
        → HasRun script.now.with script.now.hierarchy script.now.commands (history_of run.new.engine)
        × Appends (K.taken sink.old) (K.taken sink.new)
        (if is_some run.old.teller then told script.now.with script.now.commands (history_of run.new.engine) else []) }
    ensures through { result ≡ Status.Done → IsThrough script.now.with script.now.hierarchy script.now.commands (history_of run.new.engine) }
    ensures later { K.faults sink.old ≤ K.faults sink.new }
    ensures right { IsRight (site_of script.now.with script.now.hierarchy) (history_of run.new.engine) }
    ensures part { IsRunSoFar script.now.with script.now.hierarchy script.now.commands (history_of run.new.engine) }
    ensures left { (wanted : words_ask.Wanted) → StandsBehind wanted script.now [] run.old.engine
        → HasLeft script.now result (λ ps. StandsBehind wanted script.now ps run.new.engine) (λ ps phase. StandsWithin wanted script.now ps phase run.new.engine) }
{
    let all = script.commands();
    let mut done = 0;
    while done < all.len() {
        let (_, rest) = all.split_at(done);
        let end = done + phase_len(rest);
        let Ok(text) = run_phase(run, rt, alloc, script, &all[..end], done, meet) else {
            return Status::NoMemory;
        };
        let Ok(()) = write_all(sink, &text) else {
            return Status::WriteFault;
        };
        done = end;
    }
    Status::Done
}

/// Writes the summary of a run of the generated script as one piece.
fn write_summary<R: Wait, K: Sink>(
    run: &mut Run,
    rt: &R,
    alloc: Global,
    script: &Plan,
    rows: u64,
    seed: u64,
    sink: &mut K,
) -> Status
    requires stands { (wanted : words_ask.Wanted) × (ps : List (List IsCommand)) × StandsBehind wanted script.now ps run.old.engine }
    ensures kinds { (result ≡ Status.Done) ⊎ (result ≡ Status.WriteFault) ⊎ (result ≡ Status.NoMemory) }
    ensures no_memory { result ≡ Status.NoMemory → sink.new ≡ sink.old }
    ensures write_fault { result ≡ Status.WriteFault
        → Rose (K.faults sink.old) (K.faults sink.new)
        × TookPart (K.taken sink.old) (K.taken sink.new) (summary rows seed script.now.with script.now.commands (history_of run.new.engine)) }
    ensures done { result ≡ Status.Done
        → Appends (K.taken sink.old) (K.taken sink.new) (summary rows seed script.now.with script.now.commands (history_of run.new.engine)) }
    ensures kept { (wanted : words_ask.Wanted) (ps : List (List IsCommand)) → StandsBehind wanted script.now ps run.old.engine
        → HasBeenRead script.now (history_of run.old.engine) (history_of run.new.engine) (StandsBehind wanted script.now ps run.new.engine) }
{
    let Ok(text) = summary_of(run, rt, alloc, script, rows, seed) else {
        return Status::NoMemory;
    };
    let Ok(()) = write_all(sink, &text) else {
        return Status::WriteFault;
    };
    Status::Done
}

/// Runs a script to its end, and writes what is wanted of it: its phases one by one, or a summary at
/// the end.
fn run_wanted<R: Threads + Wait + Sync, K: Sink, M: Meet + Sync>(
    run: &mut Run,
    rt: &R,
    alloc: Global,
    script: &Plan,
    wanted: Wanted,
    sink: &mut K,
    meet: &M,
) -> Status
    requires settings { AreSettings script.now.with }
    requires fits { All (Fits script.now) script.now.commands }
    requires dims { 0 < length script.now.commands → 0 < length script.now.hierarchy }
    requires start { IsBehind script.now [] (history_of run.old.engine) run.old.teller }
    requires stands { StandsBehind wanted script.now [] run.old.engine }
    requires tells { is_some run.old.teller ≡ tells_phases wanted }
    ensures kinds { (result ≡ Status.Done) ⊎ (result ≡ Status.WriteFault) ⊎ (result ≡ Status.NoMemory) }
    ensures no_memory { result ≡ Status.NoMemory
        → RanInto wanted script.now (K.taken sink.old) (K.taken sink.new) (history_of run.new.engine) }
    ensures write_fault { result ≡ Status.WriteFault
        → Rose (K.faults sink.old) (K.faults sink.new)
        × RanTo wanted script.now (K.taken sink.old) (K.taken sink.new) (history_of run.new.engine) }
    ensures done { result ≡ Status.Done
        → HasRun script.now.with script.now.hierarchy script.now.commands (history_of run.new.engine)
        × Appends (K.taken sink.old) (K.taken sink.new) (asked_text wanted script.now (history_of run.new.engine)) }
    ensures right { IsRight (site_of script.now.with script.now.hierarchy) (history_of run.new.engine) }
    ensures part { IsRunSoFar script.now.with script.now.hierarchy script.now.commands (history_of run.new.engine) }
    ensures left { HasLeft script.now result (λ ps. StandsBehind wanted script.now ps run.new.engine) (λ ps phase. StandsWithin wanted script.now ps phase run.new.engine) }
{
    let status = run_phases(run, rt, alloc, script, sink, meet);
    if status != Status::Done {
        return status;
    }
    match wanted {
        Wanted::Step | Wanted::Seeded(_) | Wanted::Run => Status::Done,
        Wanted::Load { rows, seed, .. } => write_summary(run, rt, alloc, script, rows, seed, sink),
    }
}

/// Runs a script to its end by this engine, which has opened for it.
fn run_by<R: Threads + Wait + Sync, K: Sink, M: Meet + Sync>(
    rt: &R,
    alloc: Global,
    engine: Engine,
    script: &Plan,
    wanted: Wanted,
    sink: &mut K,
    meet: &M,
) -> Outcome
    requires settings { AreSettings script.now.with }
    requires fits { All (Fits script.now) script.now.commands }
    requires dims { 0 < length script.now.commands → 0 < length script.now.hierarchy }
    requires opened { HasOpenedFor script.now (history_of engine) (StandsBehind wanted script.now [] engine) }
    ensures kinds { (result.status ≡ Status.Done)
        ⊎ (result.status ≡ Status.WriteFault)
        ⊎ (result.status ≡ Status.NoMemory) }
    ensures no_memory { result.status ≡ Status.NoMemory
        → ((sink.new ≡ sink.old) × LeavesNothing result)
        ⊎ RanInto wanted script.now (K.taken sink.old) (K.taken sink.new) result.ledger.history }
    ensures write_fault { result.status ≡ Status.WriteFault
        → Rose (K.faults sink.old) (K.faults sink.new)
        × RanTo wanted script.now (K.taken sink.old) (K.taken sink.new) result.ledger.history }
    ensures done { result.status ≡ Status.Done
        → HasRun script.now.with script.now.hierarchy script.now.commands result.ledger.history
        × Appends (K.taken sink.old) (K.taken sink.new) (asked_text wanted script.now result.ledger.history) }
    ensures run { ((result.status ≡ Status.NoMemory) × LeavesNothing result) ⊎ LeavesRun wanted script.now result }
{
    let Ok(teller) = teller_of(alloc, wanted) else {
        return without_run(alloc, Status::NoMemory);
    };
    let mut run = Run { engine, teller };
    let status = run_wanted(&mut run, rt, alloc, script, wanted, sink, meet);
    let Run { engine, teller: _ } = run;
    with_rest(status, engine.into_state())
}

/// Whether each actor of a run of this script is to have a thread. A script without commands needs none.
fn needs_threads(wanted: Wanted, script: &Plan) -> bool
    ensures { result ≡ on_threads wanted script.now }
{
    let threads = match wanted {
        Wanted::Run => true,
        Wanted::Load { threads, .. } => threads,
        Wanted::Step | Wanted::Seeded(_) => false,
    };
    threads && !script.commands().is_empty()
}

/// What is to run a script, as it opens. It fails for want of memory alone.
fn engine_of(
    alloc: Global,
    hierarchy: Hierarchy,
    wanted: Wanted,
    script: &Plan,
) -> Result<Engine, AllocError>
    requires dims_are { hierarchy ≡ script.now.hierarchy }
    requires settings { AreSettings script.now.with }
    requires known { IsHierarchy hierarchy }
    requires dims { 0 < length script.now.commands → 0 < length hierarchy }
    ensures opened { IfOk result (λ e. HasOpenedFor script.now (history_of e) (StandsBehind wanted script.now [] e)) }
{
    let with = *script.with();
    if needs_threads(wanted, script) {
        Ok(Engine::Threads(OnThreads::new(alloc, hierarchy, with)?))
    } else {
        Ok(Engine::OneThread(OnOneThread::new(alloc, hierarchy, with, wanted)?))
    }
}

/// Runs a script to its end. One without commands has the history and the state of its opening.
fn run_script<R: Threads + Wait + Sync, K: Sink, M: Meet + Sync>(
    rt: &R,
    alloc: Global,
    script: Script,
    wanted: Wanted,
    sink: &mut K,
    meet: &M,
) -> Outcome
    requires settings { AreSettings script.with }
    requires fits { All (Fits script) script.commands }
    requires dims { 0 < length script.commands → 0 < length script.hierarchy }
    ensures kinds { (result.status ≡ Status.Done)
        ⊎ (result.status ≡ Status.WriteFault)
        ⊎ (result.status ≡ Status.NoMemory) }
    ensures no_memory { result.status ≡ Status.NoMemory
        → ((sink.new ≡ sink.old) × LeavesNothing result)
        ⊎ RanInto wanted script (K.taken sink.old) (K.taken sink.new) result.ledger.history }
    ensures write_fault { result.status ≡ Status.WriteFault
        → Rose (K.faults sink.old) (K.faults sink.new)
        × RanTo wanted script (K.taken sink.old) (K.taken sink.new) result.ledger.history }
    ensures done { result.status ≡ Status.Done
        → HasRun script.with script.hierarchy script.commands result.ledger.history
        × Appends (K.taken sink.old) (K.taken sink.new) (asked_text wanted script result.ledger.history) }
    ensures run { ((result.status ≡ Status.NoMemory) × LeavesNothing result) ⊎ LeavesRun wanted script result }
{
    let (plan, hierarchy) = Plan::of(script);
    // What an opening asks of the dimensions is known of each hierarchy that is asked how many it has.
    let _dims = hierarchy.dims();
    match engine_of(alloc, hierarchy, wanted, &plan) {
        Ok(engine) => run_by(rt, alloc, engine, &plan, wanted, sink, meet),
        Err(_) => without_run(alloc, Status::NoMemory),
    }
}

/// Answers a bad script by its line.
fn tell_bad<K: Sink>(alloc: Global, at: u64, cause: Cause, sink: &mut K) -> Outcome
    ensures kinds { (result.status ≡ Status.BadScript) ⊎ (result.status ≡ Status.NoMemory) }
    ensures nothing { LeavesNothing result }
    ensures no_memory { result.status ≡ Status.NoMemory → sink.new ≡ sink.old }
    ensures bad_script { result.status ≡ Status.BadScript
        → Appends (K.taken sink.old) (K.taken sink.new) (bad_line at cause)
        ⊎ (Rose (K.faults sink.old) (K.faults sink.new)
        × TookPart (K.taken sink.old) (K.taken sink.new) (bad_line at cause)) }
{
    let line = BadLine { at, cause };
    let Ok(text) = format!(in alloc; "{line}") else {
        return without_run(alloc, Status::NoMemory);
    };
    let _ = write_all(sink, text.as_str().as_bytes());
    without_run(alloc, Status::BadScript)
}

/// Reads a script and runs it, or says why it is none. The bytes go before the run.
fn run_bytes<R: Threads + Wait + Sync, K: Sink, M: Meet + Sync>(
    rt: &R,
    alloc: Global,
    bytes: Vec<u8>,
    wanted: Wanted,
    sink: &mut K,
    meet: &M,
) -> Outcome
    ensures kinds { (result.status ≡ Status.Done)
        ⊎ (result.status ≡ Status.BadScript)
        ⊎ (result.status ≡ Status.WriteFault)
        ⊎ (result.status ≡ Status.NoMemory) }
    ensures bad_script { result.status ≡ Status.BadScript
        → (at : ℕ) × (cause : Cause)
        × (script (records_of bytes.items) ≡ Err (fault.Bad at cause))
        × LeavesNothing result
        × (Appends (K.taken sink.old) (K.taken sink.new) (bad_line at cause)
        ⊎ (Rose (K.faults sink.old) (K.faults sink.new)
        × TookPart (K.taken sink.old) (K.taken sink.new) (bad_line at cause))) }
    ensures no_memory { result.status ≡ Status.NoMemory
        → ((sink.new ≡ sink.old) × LeavesNothing result)
        ⊎ ((s : Script)
        × (script (records_of bytes.items) ≡ Ok s)
        × RanInto wanted s (K.taken sink.old) (K.taken sink.new) result.ledger.history) }
    ensures write_fault { result.status ≡ Status.WriteFault
        → Rose (K.faults sink.old) (K.faults sink.new)
        × ((s : Script)
        × (script (records_of bytes.items) ≡ Ok s)
        × RanTo wanted s (K.taken sink.old) (K.taken sink.new) result.ledger.history) }
    ensures done { result.status ≡ Status.Done
        → (s : Script)
        × (script (records_of bytes.items) ≡ Ok s)
        × HasRun s.with s.hierarchy s.commands result.ledger.history
        × Appends (K.taken sink.old) (K.taken sink.new) (asked_text wanted s result.ledger.history) }
    ensures run { (((result.status ≡ Status.BadScript) ⊎ (result.status ≡ Status.NoMemory)) × LeavesNothing result)
        ⊎ ((s : Script) × (script (records_of bytes.items) ≡ Ok s) × LeavesRun wanted s result) }
{
    let read = read_script(alloc, &bytes);
    drop(bytes);
    match read {
        Ok(script) => run_script(rt, alloc, script, wanted, sink, meet),
        Err(ScriptFault::NoMemory) => without_run(alloc, Status::NoMemory),
        Err(ScriptFault::Bad { at, cause }) => tell_bad(alloc, at, cause, sink),
    }
}

/// The bytes that are wanted as a script: all those of the source, or the generated text.
fn wanted_bytes<S: Source>(
    alloc: Global,
    wanted: Wanted,
    source: &mut S,
) -> Result<Vec<u8>, ReadEnd>
    requires { AreFewRows wanted }
    ensures asked { IfOk result (λ bytes. AreAsked wanted (S.left source.old) (S.left source.new) bytes.items) }
    ensures large { IsErrOf result ReadEnd.TooLarge
        → Gave (S.left source.old) (S.left source.new) (λ count. count ≡ 2 ^ 26 + 1) }
    ensures fault { IsErrOf result ReadEnd.ReadFault
        → Rose (S.faults source.old) (S.faults source.new)
        × Gave (S.left source.old) (S.left source.new) (λ count. count ≤ 2 ^ 26) }
    ensures load { (rows seed : ℕ) (threads : Bool) → wanted ≡ Wanted.Load rows seed threads
        → (source.new ≡ source.old) × ¬ IsErrOf result ReadEnd.TooLarge × ¬ IsErrOf result ReadEnd.ReadFault }
{
    match wanted {
        Wanted::Step | Wanted::Seeded(_) | Wanted::Run => read_all(alloc, source, LIMIT),
        Wanted::Load { rows, seed, .. } => Ok(generate(alloc, rows, seed)?),
    }
}

/// Runs the script that is wanted, and writes what is wanted of it to a sink.
fn run_source<R: Threads + Wait + Sync, S: Source, K: Sink, M: Meet + Sync>(
    rt: &R,
    alloc: Global,
    wanted: Wanted,
    source: &mut S,
    sink: &mut K,
    meet: &M,
) -> Outcome
    requires { AreFewRows wanted }
    ensures words { result.status ≢ Status.BadWords }
    ensures read_fault { result.status ≡ Status.ReadFault
        → Rose (S.faults source.old) (S.faults source.new)
        × Gave (S.left source.old) (S.left source.new) (λ count. count ≤ 2 ^ 26)
        × (sink.new ≡ sink.old) × LeavesNothing result }
    ensures too_large { result.status ≡ Status.TooLarge
        → Gave (S.left source.old) (S.left source.new) (λ count. count ≡ 2 ^ 26 + 1)
        × (sink.new ≡ sink.old) × LeavesNothing result }
    ensures bad_script { result.status ≡ Status.BadScript
        → IsNoScript
        (S.left source.old) (S.left source.new)
        (K.taken sink.old) (K.taken sink.new)
        (K.faults sink.old) (K.faults sink.new)
        × LeavesNothing result }
    ensures write_fault { result.status ≡ Status.WriteFault
        → Rose (K.faults sink.old) (K.faults sink.new)
        × IsCutOff wanted
        (S.left source.old) (S.left source.new)
        (K.taken sink.old) (K.taken sink.new)
        result.ledger.history }
    ensures no_memory { result.status ≡ Status.NoMemory
        → ((sink.new ≡ sink.old) × LeavesNothing result)
        ⊎ IsStarved wanted
        (S.left source.old) (S.left source.new)
        (K.taken sink.old) (K.taken sink.new)
        result.ledger.history }
    ensures done { result.status ≡ Status.Done
        → IsDone wanted
        (S.left source.old) (S.left source.new)
        (K.taken sink.old) (K.taken sink.new)
        result.ledger.history }
    ensures run { ((result.status ≢ Status.Done) × (result.status ≢ Status.WriteFault) × LeavesNothing result)
        ⊎ LeavesAsked wanted (S.left source.old) (S.left source.new) result }
    ensures load { (rows seed : ℕ) (threads : Bool) → wanted ≡ Wanted.Load rows seed threads → (source.new ≡ source.old)
        × ((result.status ≡ Status.Done) ⊎ (result.status ≡ Status.WriteFault) ⊎ (result.status ≡ Status.NoMemory)) }
{
    generated_is_a_script();
    match wanted_bytes(alloc, wanted, source) {
        Ok(bytes) => run_bytes(rt, alloc, bytes, wanted, sink, meet),
        Err(ReadEnd::ReadFault) => without_run(alloc, Status::ReadFault),
        Err(ReadEnd::TooLarge) => without_run(alloc, Status::TooLarge),
        Err(ReadEnd::NoMemory) => without_run(alloc, Status::NoMemory),
    }
}

/// Does what the words of a command line ask, over a source and a sink. The words leave out the
/// program's own name; `step`, `step --seed N`, `run`, and `load --rows N --seed K` with `--threads` or
/// without are known. An option's name and its number may be one word with an equals sign between them,
/// and those of `load` come in any order.
///
/// By `run` and `--threads` each actor has a thread, where one can be made; all are joined at the end of
/// each phase. `meet` is passed by there, and nowhere else.
///
/// Decided in this order: the words, the reading, the script, the run and the writing.
pub fn olap<R: Threads + Wait + Sync, S: Source, K: Sink, M: Meet + Sync>(
    rt: &R,
    alloc: Global,
    words: &[String],
    source: &mut S,
    sink: &mut K,
    meet: &M,
) -> Outcome
    ensures words { (result.status ≡ Status.BadWords) ↔ ((wanted : words_ask.Wanted) → ¬ AskFor words.now wanted) }
    ensures bad_words { result.status ≡ Status.BadWords
        → (source.new ≡ source.old) × (sink.new ≡ sink.old) × LeavesNothing result }
    ensures read_fault { result.status ≡ Status.ReadFault
        → Rose (S.faults source.old) (S.faults source.new)
        × Gave (S.left source.old) (S.left source.new) (λ count. count ≤ 2 ^ 26)
        × (sink.new ≡ sink.old) × LeavesNothing result }
    ensures too_large { result.status ≡ Status.TooLarge
        → Gave (S.left source.old) (S.left source.new) (λ count. count ≡ 2 ^ 26 + 1)
        × (sink.new ≡ sink.old) × LeavesNothing result }
    ensures bad_script { result.status ≡ Status.BadScript
        → IsNoScript
        (S.left source.old) (S.left source.new)
        (K.taken sink.old) (K.taken sink.new)
        (K.faults sink.old) (K.faults sink.new)
        × LeavesNothing result }
    ensures write_fault { result.status ≡ Status.WriteFault
        → Rose (K.faults sink.old) (K.faults sink.new)
        × ForSomeWanted words.now (λ wanted. IsCutOff wanted
        (S.left source.old) (S.left source.new)
        (K.taken sink.old) (K.taken sink.new)
        result.ledger.history) }
    ensures no_memory { result.status ≡ Status.NoMemory
        → ((sink.new ≡ sink.old) × LeavesNothing result)
        ⊎ ForSomeWanted words.now (λ wanted. IsStarved wanted
        (S.left source.old) (S.left source.new)
        (K.taken sink.old) (K.taken sink.new)
        result.ledger.history) }

    // The headline.
    ensures done { result.status ≡ Status.Done
        → ForSomeWanted words.now (λ wanted. IsDone wanted
        (S.left source.old) (S.left source.new)
        (K.taken sink.old) (K.taken sink.new)
        result.ledger.history) }

    // Whatever the answer: behind a fine settle, while no insert has begun since, each answer is of all that was acknowledged.
    ensures settle { (result.ledger.history ≡ [])
        ⊎ ForSomeWanted words.now (λ wanted. IsSettlingRun wanted (S.left source.old) (S.left source.new) result.ledger.history) }

    // Whatever the answer: nothing ran, or what is left is the state of one run of the core.
    ensures run { ((result.status ≢ Status.Done) × (result.status ≢ Status.WriteFault) × LeavesNothing result)
        ⊎ ForSomeWanted words.now (λ wanted. LeavesAsked wanted (S.left source.old) (S.left source.new) result) }

    // Where the commands go in order, for `step` alone and for `load` without threads, each ends before the next begins, whatever the answer.
    ensures serial { (wanted : words_ask.Wanted) → AskFor words.now wanted → goes_in_order wanted ≡ true
        → (result.ledger.history ≡ [])
        ⊎ IsSerialRun wanted (S.left source.old) (S.left source.new) result.ledger.history }

    // A good script on which no fault rises is run to its end, unless memory runs out.
    ensures complete { (wanted : words_ask.Wanted) → AskFor words.now wanted
        → HasGoodScript wanted (S.left source.old)
        → ¬ Rose (S.faults source.old) (S.faults source.new)
        → ¬ Rose (K.faults sink.old) (K.faults sink.new)
        → (result.status ≡ Status.Done) ⊎ (result.status ≡ Status.NoMemory) }

    // A load does not touch the source, and its script is never bad.
    ensures load { (rows seed : ℕ) (threads : Bool) → AskFor words.now (Wanted.Load rows seed threads)
        → (source.new ≡ source.old)
        × ((result.status ≡ Status.Done) ⊎ (result.status ≡ Status.WriteFault) ⊎ (result.status ≡ Status.NoMemory)) }
{
    match Wanted::of_words(words) {
        Some(wanted) => run_source(rt, alloc, wanted, source, sink, meet),
        None => without_run(alloc, Status::BadWords),
    }
}
