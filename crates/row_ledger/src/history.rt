//! Histories.
ghost use Rattle.std.specs.Prelude.{◌≡◌, ◌==◌, ◌∷◌, ◌<◌, [], Some, OnOk, OnErr, length, reverse};

use crate::event::Event;
use std::alloc::{AllocError, Global};
use std::marker::Model;

/// A list of events that only grows. Contracts see it with the newest event first: what stands
/// behind an event is its past.
#[derive(Drop)]
pub struct History {
    events: Vec<Event>,
}

impl Model for History {
    ghost use Rattle.std.specs.Prelude.{List, reverse};
    ghost use Rattle.row_ledger.specs.declared.event.Event.{Event};

    ghost Value = { List Event };

    ghost view = { λ h. reverse h.events.items };
}

impl History {
    ghost use Rattle.row_ledger.specs.Past.{event_at};

    /// The empty history. Takes no memory.
    pub fn new(alloc: Global) -> Self
        ensures { result ≡ [] }
    {
        History {
            events: Vec::new(alloc),
        }
    }

    /// The history of these events, the oldest first. Takes no memory.
    pub fn from_vec(events: Vec<Event>) -> Self
        ensures { result ≡ reverse events.items }
    {
        History { events }
    }

    /// Adds an event.
    pub fn push(&mut self, event: Event) -> Result<(), AllocError>
        ensures ok { OnOk result (self.new ≡ event ∷ self.old) }
        ensures err { OnErr result (self.new ≡ self.old) }
    {
        self.events.push(event)?;
        Ok(())
    }

    /// How many events there are, which is the position of the next.
    pub fn len(&self) -> usize
        ensures { result ≡ length self.now }
    {
        self.events.len()
    }

    /// Whether nothing has happened.
    pub fn is_empty(&self) -> bool
        ensures { result ≡ (length self.now == 0) }
    {
        self.events.is_empty()
    }

    /// The event at a position.
    pub fn get(&self, position: usize) -> &Event
        requires { position < length self.now }
        ensures { event_at self.now position ≡ Some result.now }
    {
        &self.events[position]
    }

    /// The events, the oldest first.
    pub fn events(&self) -> &[Event]
        ensures { reverse result.now ≡ self.now }
    {
        &self.events
    }
}
