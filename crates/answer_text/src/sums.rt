//! The summary of a run of the generated script.
ghost use Rattle.std.specs.Prelude.{[], ◌≡◌, ◌++◌, ◌<◌, All, IfOk, OnOk, length, reverse, slice_index_or, string_bytes, zip};
ghost use Rattle.std.specs.Option.{option_copied};
ghost use Rattle.script_run.specs.Places.{places};
ghost use Rattle.answer_text.specs.Marks.{IsPosition};
ghost use Rattle.answer_text.specs.Summary.{answered, asks_total, audited, fails, head_line, is_lost, lost, refuses, summary, total_line, total_lines, total_of, total_words, totals};

use crate::answer::Total;
use crate::index::Index;
use crate::notes::Notes;
use crate::text::places;
use measure_agg::Agg;
use row_ledger::{Call, Event, Page, Use};
use script_form::Command;
use script_run::SESSIONS;
use std::alloc::{AllocError, Global};
use std::fmt::{self, Write};

/// Whether this event begins a command and refuses it.
fn refuses(begin: Option<&Event>) -> bool
    ensures { result ≡ refuses (option_copied begin.entry) }
{
    matches!(begin, Some(Event::Refused { .. }))
}

/// Whether this event ends a command that failed.
fn fails(end: Option<&Event>) -> bool
    ensures { result ≡ fails (option_copied end.entry) }
{
    matches!(end, Some(Event::Failed { .. }))
}

/// Whether a command is an insert that was refused before it began, or failed after.
fn is_lost(index: &Index, command: &Command, place: Option<u32>) -> bool
    requires { IsPosition (reverse index.now.events.now) place }
    ensures { result ≡ is_lost (reverse index.now.events.now) command.now place }
{
    match command {
        Command::Insert(_) => refuses(index.event_at(place)) || fails(index.end_at(place)),
        _ => false,
    }
}

/// How many of these commands are inserts that found no memory.
fn count_lost(commands: &[Command], places: &[Option<u32>], index: &Index) -> u64
    requires same { length places.now ≡ length commands.now }
    requires places { All (IsPosition (reverse index.now.events.now)) places.now }
    ensures { result ≡ lost (reverse index.now.events.now) (zip commands.now places.now) }
{
    let mut count = 0;
    for (i, command) in commands.iter().enumerate() {
        if is_lost(index, command, places[i]) {
            count += 1;
        }
    }
    count
}

/// The aggregate of the answer that ends a query.
fn answered(end: Option<&Event>) -> Option<Agg>
    ensures { result ≡ answered (option_copied end.entry) }
{
    match end {
        Some(Event::Answered { agg, .. }) => Some(*agg),
        _ => None,
    }
}

/// The aggregate of the page of an audit.
fn audited(page: Option<&Page>) -> Option<Agg>
    ensures { result ≡ audited (option_copied page.entry) }
{
    match page {
        Some(Page::Audit(audit)) => Some(audit.agg),
        _ => None,
    }
}

/// Whether a command asks for an aggregate.
fn asks_total(command: &Command) -> bool
    ensures { result ≡ asks_total command.now }
{
    matches!(command, Command::Query(_) | Command::Control(Call::Audit))
}

/// The aggregate that a command was given, if one was.
fn total_of(index: &Index, command: &Command, place: Option<u32>) -> Option<Agg>
    requires { IsPosition (reverse index.now.events.now) place }
    ensures { result ≡ total_of (reverse index.now.events.now) command.now place }
{
    match command {
        Command::Query(_) => answered(index.end_at(place)),
        Command::Control(Call::Audit) => audited(index.page_at(place)),
        _ => None,
    }
}

/// The aggregates of the commands that ask for one.
fn totals(
    alloc: Global,
    commands: &[Command],
    places: &[Option<u32>],
    index: &Index,
) -> Result<Vec<Option<Agg>>, AllocError>
    requires same { length places.now ≡ length commands.now }
    requires places { All (IsPosition (reverse index.now.events.now)) places.now }
    ensures { IfOk result (λ v. v.items ≡ totals (reverse index.now.events.now) (zip commands.now places.now)) }
{
    let mut given = Vec::new(alloc);
    for (i, command) in commands.iter().enumerate() {
        if asks_total(command) {
            given.push(total_of(index, command, places[i]))?;
        }
    }
    Ok(given)
}

/// An aggregate, or that none was given.
#[derive(Drop)]
struct OrNoMemory(Option<Agg>);

impl fmt::Display for OrNoMemory {
    ghost use Rattle.std.specs.Prelude.{Some};
    ghost use Rattle.answer_text.specs.Summary.{or_nomem};

    ghost output = { λ t. Some (or_nomem t.0) };

    fn fmt<W: fmt::Write>(&self, f: &mut fmt::Formatter<W>) -> fmt::Result {
        match self.0 {
            Some(total) => {
                let total = Total(total);
                write!(f, "{total}")
            }
            None => write!(f, "nomem"),
        }
    }
}

/// How many aggregates a summary has.
const TOTALS: usize = 5;

/// The word of an aggregate by its place.
fn total_word(i: usize) -> &'static str
    requires { i < length total_words }
    ensures { result.now ≡ slice_index_or total_words i [] }
{
    match i {
        0 => "all",
        1 => "year",
        2 => "countries",
        3 => "group",
        _ => "audit",
    }
}

/// Adds the line of an aggregate.
fn push_total(text: &mut String, word: &str, total: Option<Agg>) -> Result<(), AllocError>
    ensures { OnOk result (string_bytes text.new ≡ string_bytes text.old ++ total_line word.now total) }
{
    let total = OrNoMemory(total);
    writeln!(text, "{word} {total}")
}

/// Adds the lines of the aggregates.
fn push_totals(text: &mut String, given: &[Option<Agg>]) -> Result<(), AllocError>
    ensures { OnOk result (string_bytes text.new ≡ string_bytes text.old ++ total_lines given.now) }
{
    for i in 0..given.len().min(TOTALS) {
        push_total(text, total_word(i), given[i])?;
    }
    Ok(())
}

/// Adds the first line: the numbers that made the script, and how many inserts found no memory.
fn push_head(text: &mut String, rows: u64, seed: u64, refused: u64) -> Result<(), AllocError>
    ensures { OnOk result (string_bytes text.new ≡ string_bytes text.old ++ head_line rows seed refused) }
{
    writeln!(text, "load {rows} {seed} refused {refused}")
}

/// Where all these commands begin.
fn all_places(
    alloc: Global,
    with: &Use,
    commands: &[Command],
    index: &Index,
) -> Result<Vec<Option<u32>>, AllocError>
    ensures { IfOk result (λ v. v.items ≡ places with.now commands.now (reverse index.now.events.now)) }
{
    let mut counts = vec![in alloc; 0usize; SESSIONS]?;
    places(alloc, &mut counts, with, commands, 0, index)
}

/// The summary of a run of the generated script of so many rows by a seed: how many inserts found no
/// memory, and the aggregates that the queries and the audit were given. The events are all that
/// happened, the oldest first. It takes the memory of what is noted of them.
pub fn summary(
    alloc: Global,
    rows: u64,
    seed: u64,
    with: &Use,
    commands: &[Command],
    events: &[Event],
) -> Result<Vec<u8>, AllocError>
    ensures { IfOk result (λ v. v.items ≡ summary rows seed with.now commands.now (reverse events.now)) }
{
    let mut notes = Notes::new(alloc)?;
    notes.read(events)?;
    let index = Index::of(events, &notes);
    let places = all_places(alloc, with, commands, &index)?;
    let refused = count_lost(commands, &places, &index);
    let given = totals(alloc, commands, &places, &index)?;
    let mut text = String::new(alloc);
    push_head(&mut text, rows, seed, refused)?;
    push_totals(&mut text, &given)?;
    Ok(text.into_bytes())
}
