//! A history with what is known of it: what is told of a command that began at a place.
ghost use Rattle.std.specs.Prelude.{◌≡◌, ◌<◌, length, reverse};
ghost use Rattle.std.specs.Option.{option_copied};
ghost use Rattle.row_ledger.specs.Past.{ends_itself};
ghost use Rattle.answer_text.specs.Marks.{shown};
ghost use Rattle.answer_text.specs.Notes.{Knows};

use crate::answer::Answer;
use crate::notes::{Notes, noted_at};
use row_ledger::{Event, Page};
use script_form::Command;

/// The page that an event shows.
fn shown(event: &Event) -> Option<&Page>
    ensures { option_copied result ≡ shown event.now }
{
    match event {
        Event::Shown { page, .. } => Some(page),
        _ => None,
    }
}

/// Whether the event that begins a command is its end too.
fn ends_itself(event: &Event) -> bool
    ensures { result ≡ ends_itself event.now }
{
    matches!(event, Event::Unknown { .. } | Event::Refused { .. })
}

/// A history, the oldest event first, with what is known of it.
#[derive(Drop)]
pub(crate) struct Index<'a> {
    events: &'a [Event],
    notes: &'a Notes,
    ghost known: { Knows notes.now (reverse events.now) },
}

impl<'a> Index<'a> {
    ghost use Rattle.std.specs.Prelude.{Some, slice_get, option_and_then};
    ghost use Rattle.row_ledger.specs.Past.{event_at, is_over, page_of};
    ghost use Rattle.script_run.specs.Places.{begins_of, end_of, is_over_at};
    ghost use Rattle.script_run.specs.Streams.{sessions};
    ghost use Rattle.answer_text.specs.Answer.{said};
    ghost use Rattle.answer_text.specs.Printed.{answer_at, split_of};
    ghost use Rattle.answer_text.specs.Marks.{IsPosition};

    /// The index of these events.
    pub(crate) fn of(events: &'a [Event], notes: &'a Notes) -> Index<'a>
        requires { Knows notes.now (reverse events.now) }
        ensures { result.events.now ≡ events.now }
    {
        Index { events, notes }
    }

    /// The event at a position.
    fn get(&self, position: u32) -> &Event
        requires { position < length self.now.events.now }
        ensures { event_at (reverse self.now.events.now) position ≡ Some result.now }
    {
        &self.events[position as usize]
    }

    /// The event at a place.
    pub(crate) fn event_at(&self, place: Option<u32>) -> Option<&Event>
        requires { IsPosition (reverse self.now.events.now) place }
        ensures { option_copied result ≡ option_and_then (event_at (reverse self.now.events.now)) place }
    {
        match place {
            Some(position) => Some(self.get(position)),
            None => None,
        }
    }

    /// Where a session's command begins, by its number from 0.
    pub(crate) fn place(&self, session: usize, number: usize) -> Option<u32>
        requires { session < sessions }
        ensures { result ≡ slice_get (begins_of (reverse self.now.events.now) session) number }
    {
        self.notes.begins[session].as_slice().get(number).copied()
    }

    /// Whether the command that began at a position has its end.
    fn is_over(&self, position: u32) -> bool
        requires { position < length self.now.events.now }
        ensures { result ≡ is_over (reverse self.now.events.now) position }
    {
        noted_at(&self.notes.ends, position).is_some() || ends_itself(self.get(position))
    }

    /// Whether a command has begun and has its end.
    pub(crate) fn is_over_at(&self, place: Option<u32>) -> bool
        requires { IsPosition (reverse self.now.events.now) place }
        ensures { result ≡ is_over_at (reverse self.now.events.now) place }
    {
        match place {
            Some(position) => self.is_over(position),
            None => false,
        }
    }

    /// The event that ends the command begun at a position.
    fn end_of(&self, position: u32) -> Option<&Event>
        requires { position < length self.now.events.now }
        ensures { option_copied result ≡ end_of (reverse self.now.events.now) position }
    {
        self.event_at(noted_at(&self.notes.ends, position))
    }

    /// The newest event that splits a shard for the command begun at a position.
    fn split_of(&self, position: u32) -> Option<&Event>
        requires { position < length self.now.events.now }
        ensures { option_copied result ≡ split_of (reverse self.now.events.now) position }
    {
        self.event_at(noted_at(&self.notes.splits, position))
    }

    /// What is said of a command that began at a place.
    pub(crate) fn answer_at(&self, command: &Command, place: Option<u32>) -> Answer
        requires { IsPosition (reverse self.now.events.now) place }
        ensures { said result ≡ answer_at command.now (reverse self.now.events.now) place }
    {
        match place {
            Some(position) => {
                let begin = self.get(position);
                let end = self.end_of(position);
                let split = self.split_of(position);
                Answer::of(command, Some(begin), end, split)
            }
            None => Answer::of(command, None, None, None),
        }
    }

    /// The event that ends the command of a place.
    pub(crate) fn end_at(&self, place: Option<u32>) -> Option<&Event>
        requires { IsPosition (reverse self.now.events.now) place }
        ensures { option_copied result ≡ option_and_then (end_of (reverse self.now.events.now)) place }
    {
        match place {
            Some(position) => self.end_of(position),
            None => None,
        }
    }

    /// The page that was shown for the command begun at a position.
    fn page_of(&self, position: u32) -> Option<&Page>
        requires { position < length self.now.events.now }
        ensures { option_copied result ≡ page_of (reverse self.now.events.now) position }
    {
        match self.event_at(noted_at(&self.notes.pages, position)) {
            Some(event) => shown(event),
            None => None,
        }
    }

    /// The page that was shown for a command that began at a place.
    pub(crate) fn page_at(&self, place: Option<u32>) -> Option<&Page>
        requires { IsPosition (reverse self.now.events.now) place }
        ensures { option_copied result ≡ option_and_then (page_of (reverse self.now.events.now)) place }
    {
        match place {
            Some(position) => self.page_of(position),
            None => None,
        }
    }
}
