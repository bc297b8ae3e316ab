//! What is known of a history while it grows: where the commands of each session begin, and which
//! events end them, show pages and split shards for them. Each event is read once.
//!
//! Most scripts show no page and split no shard, and no list of marks is longer than up to its last
//! one: where there are none, it takes no memory.
ghost use Rattle.std.specs.Prelude.{◌≡◌, ◌+◌, [], ℕ, ◌<◌, ◌≤◌, None, Some, length, reverse, take, slice_index_or, IfOk, OnOk};
ghost use Rattle.row_ledger.specs.Past.{end_in, session_in};
ghost use Rattle.script_run.specs.Streams.{sessions};
ghost use Rattle.answer_text.specs.Printed.{split_for};
ghost use Rattle.answer_text.specs.Marks.{HasBegin, HasMark, RefersBack, shown_for};

use dim_hierarchy::Items;
use row_ledger::Event;
use script_run::SESSIONS;
use std::alloc::{AllocError, Global};

/// Positions of a history, the oldest first.
pub(crate) type Positions = Items<u32>;

/// For each position that of the newest event that marks the command begun there; behind the end of
/// the list stands no mark.
pub(crate) type Marks = Vec<Option<u32>>;

/// No beginning, for each session.
fn no_begins(alloc: Global) -> Result<Vec<Positions>, AllocError>
    ensures len { IfOk result (λ v. length v.items ≡ sessions) }
    ensures none { IfOk result (λ v. (s : ℕ) → s < sessions → slice_index_or v.items s [] ≡ []) }
{
    let mut begins = Vec::new(alloc);
    for _session in 0..SESSIONS {
        begins.push(Positions::new(alloc))?;
    }
    Ok(begins)
}

/// Adds a beginning of a session; those of sessions that no command has are left out.
fn add_begin(begins: &mut Vec<Positions>, session: u16, position: u32) -> Result<(), AllocError>
    ensures { OnOk result (HasBegin (Some session) position begins.old.items begins.new.items) }
{
    if (session as usize) < begins.len() {
        begins[session as usize].push(position)?;
    }
    Ok(())
}

/// No mark, for each position up to an end.
fn extend(noted: &mut Marks, len: usize) -> Result<(), AllocError>
    requires { length noted.old.items ≤ len }
    ensures len { OnOk result (length noted.new.items ≡ len) }
    ensures none { OnOk result ((p : ℕ) → slice_index_or noted.new.items p None ≡ slice_index_or noted.old.items p None) }
{
    for _position in noted.len()..len {
        noted.push(None)?;
    }
    Ok(())
}

/// Notes for a command that the event at a position marks it; where a history of this length has no
/// such command, it is left out.
fn add_mark(noted: &mut Marks, of: u64, position: u32, len: usize) -> Result<(), AllocError>
    requires { length noted.old.items ≤ len }
    ensures { OnOk result (HasMark len (Some of) position noted.old.items noted.new.items) }
{
    if of >= len as u64 {
        return Ok(());
    }
    let of = of as usize;
    if of < noted.len() {
        noted[of] = Some(position);
        return Ok(());
    }
    extend(noted, of)?;
    noted.push(Some(position))?;
    Ok(())
}

/// The position of the event that marks the command begun at another.
pub(crate) fn noted_at(noted: &[Option<u32>], position: u32) -> Option<u32>
    ensures { result ≡ slice_index_or noted.now position None }
{
    if (position as usize) < noted.len() {
        noted[position as usize]
    } else {
        None
    }
}

/// What is known of the events that were read.
#[derive(Drop)]
pub(crate) struct Notes {
    /// How many events were read.
    pub(crate) seen: usize,
    /// For each session the positions of its beginnings.
    pub(crate) begins: Vec<Positions>,
    /// Which events end commands.
    pub(crate) ends: Marks,
    /// Which events show pages for commands.
    pub(crate) pages: Marks,
    /// Which events split shards for commands.
    pub(crate) splits: Marks,
}

impl Notes {
    ghost use Rattle.answer_text.specs.Notes.{Knows, KnowsMarks};

    /// Nothing, of no event.
    pub(crate) fn new(alloc: Global) -> Result<Notes, AllocError>
        ensures { IfOk result (λ notes. Knows notes []) }
    {
        let begins = no_begins(alloc)?;
        Ok(Notes {
            seen: 0,
            begins,
            ends: Vec::new(alloc),
            pages: Vec::new(alloc),
            splits: Vec::new(alloc),
        })
    }

    /// Notes an event at a position of a history of this length.
    fn note(&mut self, event: &Event, position: u32, len: usize) -> Result<(), AllocError>
        requires ends { length self.old.ends.items ≤ len }
        requires pages { length self.old.pages.items ≤ len }
        requires splits { length self.old.splits.items ≤ len }
        ensures begins { OnOk result (HasBegin (session_in event.now) position self.old.begins.items self.new.begins.items) }
        ensures ends { OnOk result (HasMark len (end_in event.now) position self.old.ends.items self.new.ends.items) }
        ensures pages { OnOk result (HasMark len (shown_for event.now) position self.old.pages.items self.new.pages.items) }
        ensures splits { OnOk result (HasMark len (split_for event.now) position self.old.splits.items self.new.splits.items) }
    {
        match event {
            Event::Begun { session, .. }
            | Event::Asked { session, .. }
            | Event::Unknown { session, .. }
            | Event::Refused { session }
            | Event::Called { session, .. } => add_begin(&mut self.begins, *session, position),
            Event::Acked { of, .. }
            | Event::Answered { of, .. }
            | Event::Failed { of }
            | Event::Ended { of, .. } => add_mark(&mut self.ends, *of, position, len),
            Event::Shown { of, .. } => add_mark(&mut self.pages, *of, position, len),
            Event::Split { of, .. } => add_mark(&mut self.splits, *of, position, len),
            Event::Synced { .. } | Event::Moved { .. } | Event::Left { .. } => Ok(()),
        }
    }

    /// Reads the event at a position, behind those before it. A position of more than 32 bits finds no
    /// memory.
    fn read_at(&mut self, events: &[Event], i: usize) -> Result<(), AllocError>
        requires within { i < length events.now }
        requires known { KnowsMarks (length events.now) self.old (reverse (take i events.now)) }
        ensures { OnOk result (KnowsMarks (length events.now) self.new (reverse (take (i + 1) events.now))) }
    {
        let Ok(position) = u32::try_from(i) else {
            return Err(AllocError);
        };
        self.note(&events[i], position, events.len())?;
        Ok(())
    }

    /// Reads the events that came since. Those before belong to no command that began since.
    pub(crate) fn read(&mut self, events: &[Event]) -> Result<(), AllocError>
        requires within { self.old.seen ≤ length events.now }
        requires known { Knows self.old (reverse (take self.old.seen events.now)) }
        requires refers { RefersBack (reverse (take self.old.seen events.now)) }
        ensures { OnOk result (Knows self.new (reverse events.now)) }
    {
        for i in self.seen..events.len() {
            self.read_at(events, i)?;
        }
        self.seen = events.len();
        Ok(())
    }
}
