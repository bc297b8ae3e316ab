//! The text that a history tells of a script.
ghost use Rattle.std.specs.Prelude.{◌≡◌, ◌∷◌, ◌+◌, ◌-◌, ◌<◌, ◌≤◌, ◌^◌, ◌++◌, length, reverse, take, drop, IfOk, OnOk, All};
ghost use Rattle.std.specs.String.{string_bytes};
ghost use Rattle.script_run.specs.Phases.{phases};
ghost use Rattle.script_run.specs.Places.{are_over, places_behind};
ghost use Rattle.answer_text.specs.Printed.{lines, phase_behind, phase_lines, text_at, told};
ghost use Rattle.answer_text.specs.Told.{phase_text};
ghost use Rattle.answer_text.specs.Marks.{Counts, IsPosition, RefersBack};

use crate::index::Index;
use crate::line::{Line, push_line};
use crate::notes::Notes;
use crate::pages::push_page;
use row_ledger::{Event, History, Use};
use script_form::{Command, Commands};
use script_run::{SESSIONS, phase_len, session_of};
use std::alloc::{AllocError, Global};

/// Where the commands from a place on begin; they are counted by session with those before.
pub(crate) fn places(
    alloc: Global,
    counts: &mut Vec<usize>,
    with: &Use,
    commands: &[Command],
    start: usize,
    index: &Index,
) -> Result<Vec<Option<u32>>, AllocError>
    requires within { start ≤ length commands.now }
    requires counted { Counts counts.old.items with.now (take start commands.now) }
    ensures counted { OnOk result (Counts counts.new.items with.now commands.now) }
    ensures places { IfOk result (λ v. v.items ≡ places_behind with.now (take start commands.now) (drop start commands.now) (reverse index.now.events.now)) }
{
    let mut places = Vec::with_capacity(alloc, commands.len() - start)?;
    for i in start..commands.len() {
        let session = session_of(with, &commands[i]) as usize;
        let count = counts[session];
        places.push(index.place(session, count))?;
        counts[session] = count + 1;
    }
    Ok(places)
}

/// Whether all commands that begin at these places have begun and have their ends.
fn are_over(index: &Index, places: &[Option<u32>]) -> bool
    requires { All (IsPosition (reverse index.now.events.now)) places.now }
    ensures { result ≡ are_over (reverse index.now.events.now) places.now }
{
    for place in places {
        if !index.is_over_at(*place) {
            return false;
        }
    }
    true
}

/// Adds what is told of a command that began at a place: its page, or one line.
fn push_text(
    text: &mut String,
    number: u64,
    command: &Command,
    place: Option<u32>,
    index: &Index,
) -> Result<(), AllocError>
    requires { IsPosition (reverse index.now.events.now) place }
    ensures { OnOk result (string_bytes text.new ≡ string_bytes text.old ++ text_at number command.now (reverse index.now.events.now) place) }
{
    match index.page_at(place) {
        Some(page) => push_page(text, number, page),
        None => {
            let word = command.word();
            let answer = index.answer_at(command, place);
            push_line(
                text,
                &Line {
                    number,
                    word,
                    answer,
                },
            )
        }
    }
}

/// Adds the lines of commands that begin at these places, numbered from `first`.
fn push_lines(
    text: &mut String,
    first: u64,
    commands: &[Command],
    places: &[Option<u32>],
    index: &Index,
) -> Result<(), AllocError>
    requires few { first + length commands.now ≤ 2 ^ 64 }
    requires same { length places.now ≡ length commands.now }
    requires places { All (IsPosition (reverse index.now.events.now)) places.now }
    ensures { OnOk result (string_bytes text.new ≡ string_bytes text.old ++ lines first commands.now places.now (reverse index.now.events.now)) }
{
    for (i, command) in commands.iter().enumerate() {
        let number = first + i as u64;
        push_text(text, number, command, places[i], index)?;
    }
    Ok(())
}

/// Adds the lines of a phase, or nothing where one of its commands has no end.
fn push_phase(
    text: &mut String,
    first: u64,
    phase: &[Command],
    places: &[Option<u32>],
    index: &Index,
) -> Result<(), AllocError>
    requires few { first + length phase.now ≤ 2 ^ 64 }
    requires same { length places.now ≡ length phase.now }
    requires places { All (IsPosition (reverse index.now.events.now)) places.now }
    ensures { OnOk result (string_bytes text.new ≡ string_bytes text.old ++ phase_lines first phase.now places.now (reverse index.now.events.now)) }
{
    if are_over(index, places) {
        push_lines(text, first, phase, places, index)?;
    }
    Ok(())
}

/// Where the phase ends that begins at a place.
fn phase_end(commands: &[Command], start: usize) -> usize
    requires { start < length commands.now }
    ensures some { start < result }
    ensures within { result ≤ length commands.now }
    ensures phase { phases (drop start commands.now) ≡ take (result - start) (drop start commands.now) ∷ phases (drop (result - start) (drop start commands.now)) }
{
    start + phase_len(&commands[start..])
}

/// Tells a run phase by phase: how many of its commands are told, how many of each session, and what
/// is known of the history that was read for them.
#[derive(Drop)]
pub struct Teller {
    told: usize,
    counts: Vec<usize>,
    notes: Notes,
}

impl Teller {
    ghost use Rattle.std.specs.Prelude.{[]};
    ghost use Rattle.answer_text.specs.Told.{HasTold, IsTeller, IsToldOf, seen_of};

    /// Nothing is told, and no event read.
    pub fn new(alloc: Global) -> Result<Teller, AllocError>
        ensures { IfOk result (λ teller. IsTeller teller) }
    {
        let counts = vec![in alloc; 0usize; SESSIONS]?;
        let notes = Notes::new(alloc)?;
        Ok(Teller {
            told: 0,
            counts,
            notes,
        })
    }

    /// Adds the text of the next phase, whose last command is the last of these; the history was read
    /// to its end.
    fn push_next(
        &mut self,
        alloc: Global,
        text: &mut String,
        with: &Use,
        commands: &[Command],
        events: &[Event],
    ) -> Result<(), AllocError>
        requires within { self.old.told ≤ length commands.now }
        requires told { HasTold with.now (take self.old.told commands.now) (reverse events.now) self.old }
        ensures text { OnOk result (string_bytes text.new ≡ string_bytes text.old ++ phase_behind with.now (take self.old.told commands.now) (drop self.old.told commands.now) (reverse events.now)) }
        ensures told { OnOk result (HasTold with.now commands.now (reverse events.now) self.new) }
    {
        let start = self.told;
        let index = Index::of(events, &self.notes);
        let places = places(alloc, &mut self.counts, with, commands, start, &index)?;
        push_phase(text, start as u64 + 1, &commands[start..], &places, &index)?;
        self.told = commands.len();
        Ok(())
    }

    /// The text of the phase behind those that are told, whose last command is the last of these;
    /// nothing where one of its commands has no end. The events, the oldest first, are all that
    /// happened; those that came since are read.
    pub fn phase(
        &mut self,
        alloc: Global,
        with: &Use,
        commands: &[Command],
        events: &[Event],
    ) -> Result<Vec<u8>, AllocError>
        requires told { IsToldOf with.now commands.now events.now self.old }
        requires refers { RefersBack (reverse (take (seen_of self.old) events.now)) }
        ensures text { IfOk result (λ v. v.items ≡ phase_behind with.now (take self.old.told commands.now) (drop self.old.told commands.now) (reverse events.now)) }
        ensures told { OnOk result (HasTold with.now commands.now (reverse events.now) self.new) }
    {
        let mut text = String::new(alloc);
        self.notes.read(events)?;
        self.push_next(alloc, &mut text, with, commands, events)?;
        Ok(text.into_bytes())
    }

    /// Reads a whole history, and tells nothing so far.
    fn of(alloc: Global, with: &Use, events: &[Event]) -> Result<Teller, AllocError>
        ensures told { IfOk result (λ teller. teller.told ≡ 0) }
        ensures read { IfOk result (λ teller. HasTold with.now [] (reverse events.now) teller) }
    {
        let mut teller = Teller::new(alloc)?;
        teller.notes.read(events)?;
        Ok(teller)
    }
}

/// The text that a history tells of a script's commands: a line or a page for each, phase by phase,
/// without the phases of which a command has no end.
pub fn told(
    alloc: Global,
    with: &Use,
    commands: &Commands,
    history: &History,
) -> Result<Vec<u8>, AllocError>
    ensures { IfOk result (λ v. v.items ≡ told with.now commands.now history.now) }
{
    let all = commands.as_slice();
    let events = history.events();
    let mut teller = Teller::of(alloc, with, events)?;
    let mut text = String::new(alloc);
    while teller.told < all.len() {
        let end = phase_end(all, teller.told);
        teller.push_next(alloc, &mut text, with, &all[..end], events)?;
    }
    Ok(text.into_bytes())
}

/// The text of the phase with a number from 0; nothing where there is no such phase, or one of its
/// commands has no end.
pub fn phase(
    alloc: Global,
    with: &Use,
    commands: &Commands,
    history: &History,
    n: u64,
) -> Result<Vec<u8>, AllocError>
    ensures { IfOk result (λ v. v.items ≡ phase_text with.now commands.now history.now n) }
{
    let all = commands.as_slice();
    let events = history.events();
    let mut teller = Teller::of(alloc, with, events)?;
    let mut left = n;
    while teller.told < all.len() {
        let end = phase_end(all, teller.told);
        let mut text = String::new(alloc);
        teller.push_next(alloc, &mut text, with, &all[..end], events)?;
        if left == 0 {
            return Ok(text.into_bytes());
        }
        left -= 1;
    }
    Ok(Vec::new(alloc))
}
