//! Whether the answers and pages of a history are such as it allows: a plain reading, event by event.
use crate::groups::Asked;
use crate::known::{Known, matching, must};
use crate::shards::{Places, rows_of};
use measure_agg::Agg;
use row_ledger::{AuditLine, Event, GroupPage, Page};
use std::alloc::{AllocError, Global};

/// What was found of a history.
#[derive(Clone, Copy, Debug, PartialEq, Eq)]
pub(crate) struct Found {
    pub(crate) answers: u64,
    pub(crate) pages: u64,
    /// How many pages are of groups.
    pub(crate) groups: u64,
    /// How many commands have ended.
    pub(crate) ends: u64,
    /// How many found no memory.
    pub(crate) starved: u64,
    pub(crate) splits: u64,
    pub(crate) moves: u64,
    /// How much is otherwise than it should be.
    pub(crate) wrong: u64,
}

impl Found {
    /// Of no event.
    pub(crate) const NOTHING: Found = Found {
        answers: 0,
        pages: 0,
        groups: 0,
        ends: 0,
        starved: 0,
        splits: 0,
        moves: 0,
        wrong: 0,
    };

    /// Of both together.
    pub(crate) fn join(&self, other: &Found) -> Found {
        Found {
            answers: self.answers.saturating_add(other.answers),
            pages: self.pages.saturating_add(other.pages),
            groups: self.groups.saturating_add(other.groups),
            ends: self.ends.saturating_add(other.ends),
            starved: self.starved.saturating_add(other.starved),
            splits: self.splits.saturating_add(other.splits),
            moves: self.moves.saturating_add(other.moves),
            wrong: self.wrong.saturating_add(other.wrong),
        }
    }

    /// Counts what isn't right.
    fn check(&mut self, is_right: bool) {
        if !is_right {
            self.wrong = self.wrong.saturating_add(1);
        }
    }
}

/// What one event is, whether it is right or not.
fn found_of(event: &Event) -> Found {
    let mut found = Found::NOTHING;
    match event {
        Event::Answered { .. } => {
            found.answers = 1;
            found.ends = 1;
        }
        Event::Acked { .. } | Event::Unknown { .. } | Event::Ended { .. } => found.ends = 1,
        Event::Failed { .. } | Event::Refused { .. } => {
            found.ends = 1;
            found.starved = 1;
        }
        Event::Shown { page, .. } => {
            found.pages = 1;
            found.groups = u64::from(matches!(page, Page::Group(_)));
        }
        Event::Split { .. } => found.splits = 1,
        Event::Moved { .. } => found.moves = 1,
        _ => {}
    }
    found
}

/// The measure of the row whose place among all bits this is.
fn bit_at(place: u32) -> Option<i64> {
    1i64.checked_shl(place)
}

/// Whether an aggregate is that of some of the rows that it may count, each once, and counts all that it must.
pub(crate) fn is_allowed(must: u64, agg: &Agg, may: u64) -> bool {
    let Ok(rows) = u64::try_from(agg.sum()) else {
        return false;
    };
    // A row that is counted twice makes a sum with fewer bits than there are rows.
    u64::from(rows.count_ones()) == agg.count()
        && must & !rows == 0
        && rows & !may == 0
        && agg.least() == bit_at(rows.trailing_zeros())
        && agg.greatest() == bit_at(63u32.wrapping_sub(rows.leading_zeros()))
}

/// What was read so far.
#[derive(Drop)]
struct Judge {
    known: Known,
    places: Places,
    /// By place: what the query that began there must count.
    must: Vec<u64>,
    found: Found,
}

impl Judge {
    /// Notes what the query must count that begins with an event, if one does.
    fn ask(&mut self, before: &[Event], event: &Event) -> Result<(), AllocError> {
        let rows = match event {
            Event::Asked { server, filter, .. } => must(&self.known, before, *server, filter),
            _ => 0,
        };
        Ok(self.must.push(rows)?)
    }

    /// Compares an answer with what it must and may count.
    fn is_answer(&self, events: &[Event], before: &[Event], of: u64, agg: &Agg) -> bool {
        let Some(Event::Asked { filter, .. }) = events.get(of as usize) else {
            return false;
        };
        match self.must.get(of as usize) {
            Some(must) => is_allowed(*must, agg, matching(before, filter)),
            None => false,
        }
    }

    /// Whether an audit tells of all rows that have begun and of all shards that stand.
    fn is_audit(&self, audit: &AuditLine) -> bool {
        let rows = self.known.begun;
        is_allowed(rows, &audit.agg, rows) && audit.shards == self.places.count()
    }

    /// Whether the page of the group that was called at a place tells of the acknowledged rows before it.
    fn is_group(&self, events: &[Event], of: u64, page: &GroupPage) -> bool {
        let before = &events[..(of as usize).min(events.len())];
        match Asked::of(events, of) {
            Some(asked) => asked.is_page(before, page),
            None => false,
        }
    }

    /// Whether the page of the command that was called at a place tells of all rows that have begun, or of those that match,
    /// and of the shards that stand. That of one tree tells of no more.
    fn is_page(&self, events: &[Event], of: u64, page: &Page) -> bool {
        let count = u64::from(self.known.begun.count_ones());
        match page {
            Page::Shards(lines) => {
                self.places.are(lines.as_slice()) && rows_of(lines.as_slice()) == count
            }
            Page::Audit(audit) => self.is_audit(audit),
            Page::Group(group) => self.is_group(events, of, group),
            Page::Tree(tree) => tree.rows.saturating_add(tree.queued) <= count,
        }
    }

    /// Whether an event tells what it must and may.
    fn is_right(&self, events: &[Event], before: &[Event], event: &Event) -> bool {
        match event {
            Event::Answered { of, agg } => self.is_answer(events, before, *of, agg),
            Event::Shown { of, page } => self.is_page(events, *of, page),
            _ => true,
        }
    }

    /// Reads the event at a place.
    fn read(&mut self, events: &[Event], place: usize, event: &Event) -> Result<(), AllocError> {
        let before = &events[..place.min(events.len())];
        self.ask(before, event)?;
        let is_right = self.is_right(events, before, event);
        let could_be = self.places.see(event)?;
        self.known.see(events, place as u64, event);
        self.found = self.found.join(&found_of(event));
        self.found.check(is_right && could_be);
        Ok(())
    }
}

/// What is found of all events of a history, the oldest first, where there are so many workers.
pub(crate) fn judged(alloc: Global, events: &[Event], workers: u32) -> Result<Found, AllocError> {
    let mut judge = Judge {
        known: Known::NOTHING,
        places: Places::new(alloc, workers)?,
        must: Vec::new(alloc),
        found: Found::NOTHING,
    };
    for (place, event) in events.iter().enumerate() {
        judge.read(events, place, event)?;
    }
    Ok(judge.found)
}
