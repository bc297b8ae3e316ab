//! The history that a run keeps, with pushes that were promised.
ghost use Rattle.std.specs.Prelude.{◌≡◌, ◌+◌, ◌<◌, ◌≤◌, ◌^◌, [], ◌∷◌, OnOk, OnErr, length, option_copied, reverse};

use crate::event::Event;
use crate::history::History;
use std::alloc::{AllocError, Global};
use std::marker::Model;

/// Events and promises together stay below this.
const MOST: usize = 1 << 31;

/// The history that a run keeps, with promised pushes, which cannot be refused. It has room for fewer
/// than 2^31 events, the promised ones among them.
#[derive(Drop)]
pub struct Ledger {
    events: Vec<Event>,
    promised: usize,
}

impl Model for Ledger {
    ghost use Rattle.std.specs.Prelude.{◌+◌, ◌≤◌, ◌<◌, ◌^◌, reverse, vec_len, vec_capacity};
    ghost use Rattle.row_ledger.specs.LedgerValue.{LedgerValue};

    ghost Value = { LedgerValue };

    ghost view = { λ a. record { history = reverse a.events.items; promised = a.promised } };

    ghost invariant = { λ a. (vec_len a.events + a.promised ≤ vec_capacity a.events) × (vec_len a.events + a.promised < 2 ^ 31) };
}

impl Ledger {
    ghost use Rattle.row_ledger.specs.Past.{newest};

    /// The empty history with no promise. Takes no memory.
    pub fn new(alloc: Global) -> Ledger
        ensures history { result.history ≡ [] }
        ensures promised { result.promised ≡ 0 }
    {
        Ledger {
            events: Vec::new(alloc),
            promised: 0,
        }
    }

    /// How many events there are, which is the position of the next.
    pub fn len(&self) -> u64
        ensures value { result ≡ length self.now.history }
        ensures few { result + self.now.promised < 2 ^ 31 }
    {
        self.events.len() as u64
    }

    /// Where its memory comes from.
    pub fn allocator(&self) -> Global {
        *self.events.allocator()
    }

    /// The events, the oldest first.
    pub fn events(&self) -> &[Event]
        ensures { reverse result.now ≡ self.now.history }
    {
        &self.events
    }

    /// The newest event.
    pub fn newest(&self) -> Option<&Event>
        ensures { option_copied result ≡ newest self.now.history }
    {
        self.events.last()
    }

    /// The history, with which the ledger ends. Takes no memory.
    pub fn history(self) -> History
        ensures { result ≡ self.history }
    {
        History::from_vec(self.events)
    }

    /// Promises `n` further pushes; those promised before stay promised.
    pub fn reserve(&mut self, n: u64) -> Result<(), AllocError>
        ensures history { self.new.history ≡ self.old.history }
        ensures ok { OnOk result (self.new.promised ≡ self.old.promised + n) }
        ensures err { OnErr result (self.new.promised ≡ self.old.promised) }
        ensures few { length self.new.history + self.new.promised < 2 ^ 31 }
    {
        let room = MOST - 1 - self.events.len() - self.promised;
        if n > room as u64 {
            return Err(AllocError);
        }
        let more = n as usize;
        self.events.reserve(self.promised + more)?;
        self.promised += more;
        Ok(())
    }

    /// Adds an event, and uses up a promise. Takes no memory.
    pub fn push(&mut self, event: Event)
        requires { 0 < self.old.promised }
        ensures history { self.new.history ≡ event ∷ self.old.history }
        ensures promised { self.new.promised + 1 ≡ self.old.promised }
    {
        self.promised -= 1;
        match self.events.push(event) {
            Ok(()) => {}
            Err(_) => unreachable!(),
        }
    }

    /// Gives `n` promises back.
    pub fn cancel(&mut self, n: u64)
        requires { n ≤ self.old.promised }
        ensures history { self.new.history ≡ self.old.history }
        ensures promised { self.new.promised + n ≡ self.old.promised }
    {
        self.promised -= n as usize;
    }
}
