//! How cases are run and compared.
ghost use Rattle.std.specs.Prelude.{◌<◌};

use crate::cases::{Calls, Case, Run, TreeLine, Wants};
use crate::said::{line_of, word_of};
use olap_top::{Status, Wanted, olap};
use row_ledger::{Event, Page};
use std::alloc::{AllocError, Global};
use std::io;
use std::sync::Wait;
use std::thread::Threads;
use volap_io::{MemSink, MemSource, Quiet};

/// How many runs and lists of words there were, and how many of both differ.
#[derive(Clone, Copy, Debug, Default, PartialEq, Eq)]
pub(crate) struct Tally {
    pub(crate) runs: u64,
    pub(crate) lists: u64,
    pub(crate) others: u64,
}

/// What came of a run.
#[derive(Drop)]
struct Came {
    status: Status,
    text: Vec<u8>,
    events: u64,
    tree: Option<TreeLine>,
}

/// How many bytes a call takes that is to take many.
const MANY: usize = 4096;

/// How long a script or a text is at most that goes byte by byte too.
const SHORT: usize = 20_000;

/// What the last page of a tree tells.
fn last_tree(events: &[Event]) -> Option<TreeLine> {
    let mut last = None;
    for event in events {
        if let Event::Shown {
            page: Page::Tree(tree),
            ..
        } = event
        {
            last = Some(TreeLine {
                height: u64::from(tree.height),
                rows: tree.rows.saturating_add(tree.queued),
                is_queued: tree.queued > 0,
            });
        }
    }
    last
}

/// How long the longest of the texts is that may come.
fn longest(run: &Run) -> usize {
    let mut most = 0;
    for text in &run.texts {
        most = most.max(text.len());
    }
    most
}

/// The calls that fail: none where nothing is told of calls.
fn failing(alloc: Global, calls: &Option<Calls>) -> Result<Vec<u64>, AllocError> {
    match calls {
        Some(calls) => calls.fail.as_slice().to_vec(alloc),
        None => Ok(Vec::new(alloc)),
    }
}

/// How many bytes a call takes at most: this many where nothing is told of calls, and one at least.
fn most_of(calls: &Option<Calls>, most: usize) -> usize
    ensures { 0 < result }
{
    let most = calls.as_ref().map_or(most, |calls| calls.most);
    if most == 0 { 1 } else { most }
}

/// Makes a run, in which a call takes so many bytes where the run does not say it.
fn make<R: AllocGlobal + Threads + Wait + Sync>(
    rt: &R,
    script: &[u8],
    run: &Run,
    most: usize,
) -> Result<Came, AllocError> {
    let alloc = rt.alloc();
    let mut source = MemSource::new(
        script.to_vec(alloc)?,
        failing(alloc, &run.reads)?,
        most_of(&run.reads, most),
    );
    let room = run.room.unwrap_or(longest(run).saturating_add(MANY));
    let mut sink = MemSink::new(
        alloc,
        room,
        failing(alloc, &run.writes)?,
        most_of(&run.writes, most),
    )?;
    let outcome = olap(
        rt,
        alloc,
        run.words.as_slice(),
        &mut source,
        &mut sink,
        &Quiet,
    );
    Ok(Came {
        status: outcome.status,
        text: sink.taken().to_vec(alloc)?,
        events: outcome.ledger.len(),
        tree: last_tree(outcome.ledger.events()),
    })
}

/// Whether one of the texts that may come is this, or its end where only that is told.
fn is_text(run: &Run, came: &[u8]) -> bool {
    for text in &run.texts {
        let text = text.as_slice();
        if came == text || (run.is_end && came.ends_with(text)) {
            return true;
        }
    }
    false
}

/// Whether what came is as wanted. What is not told is as it came.
fn is_as_wanted(run: &Run, came: &Came) -> bool {
    came.status == run.status
        && is_text(run, came.text.as_slice())
        && came.events == run.events.unwrap_or(came.events)
        && came.tree == run.tree.or(came.tree)
}

/// Prints a text, where bytes that are none of a text are printed as well as can be.
fn print_text<R: Print + AllocGlobal>(rt: &R, title: &str, text: &[u8]) -> io::Result<()> {
    let len = text.len();
    let text = String::from_utf8_lossy(rt.alloc(), text)?;
    println!(rt; "{title} {len} bytes:")?;
    println!(rt; "{text}")
}

/// Prints what came and what was wanted, where a run differs.
fn tell_other<R: Print + AllocGlobal>(
    rt: &R,
    case: &Case,
    run: &Run,
    came: &Came,
) -> io::Result<()> {
    let name = case.name.as_str();
    let said = run.said.as_str();
    let status = word_of(came.status);
    let events = came.events;
    println!(rt; "{name}: {said}: DIFFERS")?;
    print_text(rt, "came", came.text.as_slice())?;
    println!(rt; "came {status}, {events} events")?;
    for text in &run.texts {
        print_text(rt, "wanted", text.as_slice())?;
    }
    let status = word_of(run.status);
    println!(rt; "wanted {status}")
}

/// Makes a run, and tells of it where it differs. Whether it is as wanted.
fn is_right<R: Print + AllocGlobal + Threads + Wait + Sync>(
    rt: &R,
    case: &Case,
    run: &Run,
    most: usize,
) -> io::Result<bool> {
    let came = make(rt, case.script.as_slice(), run, most)?;
    if is_as_wanted(run, &came) {
        return Ok(true);
    }
    tell_other(rt, case, run, &came)?;
    Ok(false)
}

/// Whether a run is made byte by byte too.
fn is_short(case: &Case, run: &Run) -> bool {
    run.reads.is_none()
        && run.writes.is_none()
        && case.script.len() <= SHORT
        && longest(run) <= SHORT
}

/// What is told of the text of a run that is as wanted.
fn text_told(alloc: Global, run: &Run) -> Result<String, AllocError> {
    let count = run.texts.len();
    let len = longest(run);
    if run.is_end {
        format!(in alloc; "{len} bytes at the end")
    } else if count > 1 {
        format!(in alloc; "one of {count} texts")
    } else {
        format!(in alloc; "{len} bytes")
    }
}

/// Makes a run of a case, by pieces and, where it is short, byte by byte, and prints how it went.
fn run_run<R: Print + AllocGlobal + Threads + Wait + Sync>(
    rt: &R,
    case: &Case,
    run: &Run,
) -> io::Result<bool> {
    let is_short = is_short(case, run);
    if !is_right(rt, case, run, MANY)? || (is_short && !is_right(rt, case, run, 1)?) {
        return Ok(false);
    }
    let name = case.name.as_str();
    let said = run.said.as_str();
    let status = word_of(run.status);
    let text = text_told(rt.alloc(), run)?;
    let too = if is_short { ", byte by byte too" } else { "" };
    println!(rt; "{name}: {said}: {status}, {text} as wanted{too}")?;
    Ok(true)
}

/// Makes the runs of a case.
pub(crate) fn run_case<R: Print + AllocGlobal + Threads + Wait + Sync>(
    rt: &R,
    case: &Case,
    tally: &mut Tally,
) -> io::Result<()> {
    for run in &case.runs {
        let is_right = run_run(rt, case, run)?;
        tally.runs = tally.runs.saturating_add(1);
        tally.others = tally.others.saturating_add(u64::from(!is_right));
    }
    Ok(())
}

/// Compares what words want with what they must want.
pub(crate) fn run_wants<R: Print + AllocGlobal>(
    rt: &R,
    wants: &Wants,
    tally: &mut Tally,
) -> io::Result<()> {
    let found = Wanted::of_words(wants.words.as_slice());
    let is_right = found == wants.wanted;
    let said = wants.said.as_str();
    let found = line_of(rt.alloc(), found)?;
    let wanted = line_of(rt.alloc(), wants.wanted)?;
    if is_right {
        println!(rt; "wants {said}: {wanted} as wanted")?;
    } else {
        println!(rt; "wants {said}: DIFFERS")?;
        println!(rt; "came {found}, wanted {wanted}")?;
    }
    tally.lists = tally.lists.saturating_add(1);
    tally.others = tally.others.saturating_add(u64::from(!is_right));
    Ok(())
}
