//! Commands of a script run, phase by phase, and what is answered.
ghost use Rattle.std.specs.Prelude.{◌≡◌, ◌≤◌, length, take, drop, IfOk, OnOk};
ghost use Rattle.script_form.specs.Fits.{AreSettings};
ghost use Rattle.library_runs.specs.seeded_run.specs.Kept.{IsBetween};
ghost use Rattle.library_runs.specs.seeded_run.specs.Phase.{ClosesLast, IsCoreHeld, MayAllRun, about, held};
ghost use Rattle.library_runs.specs.seeded_run.specs.Order.{is_order};

use describing_set::{DescSet, Part};
use library_runs::of_seeded_run::{Schedule, open_core, run_phase};
use library_runs::of_volap_cell::{Actor, Cell, State};
use row_ledger::{Event, How, Page, ShardLine};
use script_form::{Command, Script};
use script_run::phase_len;
use std::alloc::{AllocError, Global};
use std::fmt::Write;

/// Runs the phase of commands that stands behind so many of them.
fn run_next(
    alloc: Global,
    script: &Script,
    commands: &[Command],
    done: usize,
    state: &mut State,
    schedule: &mut Schedule,
) -> Result<(), AllocError>
    requires within { done ≤ length commands.now }
    requires may_run { MayAllRun script.now.hierarchy script.now.with commands.now }
    requires closes { ClosesLast (drop done commands.now) }
    requires core { IsCoreHeld script.now.hierarchy script.now.with state.old }
    requires between { IsBetween (is_order schedule.old) (about script.now.hierarchy script.now.with state.old) script.now.with (take done commands.now) (held script.now.hierarchy script.now.with state.old) }
    ensures core { IsCoreHeld script.now.hierarchy script.now.with state.new }
    ensures order { is_order schedule.new ≡ is_order schedule.old }
    ensures between { OnOk result (IsBetween (is_order schedule.old) (about script.now.hierarchy script.now.with state.new) script.now.with commands.now (held script.now.hierarchy script.now.with state.new)) }
{
    let (before, phase) = commands.split_at(done);
    run_phase(
        alloc,
        &script.hierarchy,
        &script.with,
        before,
        phase,
        state,
        schedule,
    )?;
    Ok(())
}

/// Runs commands of a script from its opening on, phase by phase.
pub(crate) fn run_all(
    alloc: Global,
    script: &Script,
    commands: &[Command],
    schedule: &mut Schedule,
) -> Result<State, AllocError>
    requires settings { AreSettings script.now.with }
    requires may_run { MayAllRun script.now.hierarchy script.now.with commands.now }
    ensures core { IfOk result (IsCoreHeld script.now.hierarchy script.now.with) }
    ensures between { IfOk result (λ x. IsBetween (is_order schedule.old) (about script.now.hierarchy script.now.with x) script.now.with commands.now (held script.now.hierarchy script.now.with x)) }
{
    // What `open_core` asks of the dimensions is known of each hierarchy that is asked how many it has.
    let _dims = script.hierarchy.dims();
    let mut state = open_core(alloc, &script.hierarchy, &script.with)?;
    let mut done = 0;
    while done < commands.len() {
        let (_, rest) = commands.split_at(done);
        let end = done + phase_len(rest);
        run_next(alloc, script, &commands[..end], done, &mut state, schedule)?;
        done = end;
    }
    Ok(state)
}

/// Runs a script's own commands so.
pub(crate) fn run_script(
    alloc: Global,
    script: &Script,
    schedule: &mut Schedule,
) -> Result<State, AllocError>
    requires settings { AreSettings script.now.with }
    requires may_run { MayAllRun script.now.hierarchy script.now.with script.now.commands }
{
    run_all(alloc, script, script.commands.as_slice(), schedule)
}

/// The events so far, the oldest first.
pub(crate) fn events(state: &State) -> &[Event] {
    match state.cells.get(0) {
        Some(Some(Cell::Ledger(ledger))) => ledger.events(),
        _ => &[],
    }
}

/// Whether an actor has nothing to do, or none is there.
fn rests(place: &Option<Actor>) -> bool {
    match place {
        Some(actor) => actor.command.is_none() && actor.errand.is_none() && actor.job.is_none(),
        None => true,
    }
}

/// Whether nobody has anything to do.
pub(crate) fn all_rest(state: &State) -> bool {
    state.actors.iter().all(|place| rests(place))
}

/// Adds a measure, or a dash for none.
fn push_measure(text: &mut String, measure: Option<i64>) -> Result<(), AllocError> {
    match measure {
        Some(measure) => write!(text, " {measure}"),
        None => write!(text, " -"),
    }
}

/// Adds the path of a row that has gone by more than one shard.
fn push_path(text: &mut String, path: &[u32]) -> Result<(), AllocError> {
    if path.len() < 2 {
        return Ok(());
    }
    write!(text, "by")?;
    for shard in path {
        write!(text, " {shard}")?;
    }
    write!(text, "; ")
}

/// Adds the level of a part, and the numbers of its concepts.
fn push_part(text: &mut String, part: &Part) -> Result<(), AllocError> {
    let level = part.level;
    let mut before = ":";
    write!(text, "{level}")?;
    for id in part.ids.as_slice() {
        let number = id.number();
        write!(text, "{before}{number}")?;
        before = "+";
    }
    Ok(())
}

/// Adds a box.
fn push_box(text: &mut String, set: &DescSet) -> Result<(), AllocError> {
    for part in set.parts.as_slice() {
        push_part(text, part)?;
    }
    write!(text, "; ")
}

/// Adds the shards of a page: where each is, how many rows are in its tree and in its queue, and its box.
fn push_shards(text: &mut String, lines: &[ShardLine]) -> Result<(), AllocError> {
    for line in lines {
        let ShardLine {
            shard,
            worker,
            rows,
            queued,
            set,
        } = line;
        write!(text, "{shard} at {worker}: {rows} + {queued} in ")?;
        push_box(text, set)?;
    }
    Ok(())
}

/// Adds how a split, a move or a balance ended, where it is not told by what it did.
fn push_end(text: &mut String, how: &How) -> Result<(), AllocError> {
    match how {
        How::Declined(_) => write!(text, "declined; "),
        How::Postponed => write!(text, "postponed; "),
        How::Balanced { done, planned } => write!(text, "balanced {done} of {planned}; "),
        How::Fine | How::NoMemory => Ok(()),
    }
}

/// Adds what an event says of a split, of a move, of a balance, or of shards that are shown.
fn push_change(text: &mut String, event: &Event) -> Result<(), AllocError> {
    match event {
        Event::Split {
            shard,
            left,
            right,
            ..
        } => write!(text, "{shard} split: {left} and {right}; "),
        Event::Moved { shard, worker, .. } => write!(text, "{shard} to {worker}; "),
        Event::Left { shard, how, .. } => {
            write!(text, "{shard} left: ")?;
            push_end(text, how)
        }
        Event::Ended { how, .. } => push_end(text, how),
        Event::Shown {
            page: Page::Shards(lines),
            ..
        } => push_shards(text, lines.as_slice()),
        _ => Ok(()),
    }
}

/// Adds what an event says of a query, of a row that has gone by more than one shard, or of shards.
fn push_answer(text: &mut String, event: &Event) -> Result<(), AllocError> {
    match event {
        Event::Answered { agg, .. } => {
            write!(text, "{} {}", agg.count(), agg.sum())?;
            push_measure(text, agg.least())?;
            push_measure(text, agg.greatest())?;
            write!(text, "; ")
        }
        Event::Unknown { dim, .. } => write!(text, "unknown {dim}; "),
        Event::Acked { path, .. } => push_path(text, path.as_slice()),
        _ => push_change(text, event),
    }
}

/// What a history says of queries, of rows that have gone by more than one shard, and of shards that change or are shown.
pub(crate) fn answers(alloc: Global, all: &[Event]) -> Result<String, AllocError> {
    let mut text = String::new(alloc);
    for event in all {
        push_answer(&mut text, event)?;
    }
    Ok(text)
}
