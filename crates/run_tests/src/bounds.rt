//! What an answer must and may count, read off the events one by one. A row's measure is a power of two of its own,
//! so that rows are the sum of their measures, and an answer's sum tells which it counted.

use crate::groups::is_group;
use describing_set::{DescSet, SharedListing};
use dim_hierarchy::{ConceptId, Filter, Pick, Row};
use measure_agg::Agg;
use row_ledger::{Event, GroupPage, Page};

/// How many concepts the first of the two levels has. One of the second level is under that whose number is its
/// own number's remainder by this.
pub(crate) const COUNTRIES: u32 = 2;

/// What was found of a history's answers and groups, and how much happened besides.
#[derive(Clone, Copy, Debug, PartialEq, Eq)]
pub(crate) struct Tally {
    pub answers: u64,
    /// How many groups were shown.
    pub groups: u64,
    /// Of how many of them more rows might be counted than must be.
    pub loose: u64,
    /// How many of both are otherwise than they must be.
    pub wrong: u64,
    /// How many commands found no memory.
    pub starved: u64,
    pub splits: u64,
    pub moves: u64,
}

impl Tally {
    /// Of no answers.
    pub(crate) const NONE: Tally = Tally {
        answers: 0,
        groups: 0,
        loose: 0,
        wrong: 0,
        starved: 0,
        splits: 0,
        moves: 0,
    };

    /// Of the answers of both.
    pub(crate) fn join(&self, other: &Tally) -> Tally {
        Tally {
            answers: self.answers.wrapping_add(other.answers),
            groups: self.groups.wrapping_add(other.groups),
            loose: self.loose.wrapping_add(other.loose),
            wrong: self.wrong.wrapping_add(other.wrong),
            starved: self.starved.wrapping_add(other.starved),
            splits: self.splits.wrapping_add(other.splits),
            moves: self.moves.wrapping_add(other.moves),
        }
    }
}

/// The first events.
fn first(all: &[Event], many: usize) -> &[Event] {
    &all[..many.min(all.len())]
}

/// A row alone.
fn rows_of(row: &Row) -> u64 {
    u64::try_from(row.measures).unwrap_or(0)
}

/// The row that began at a place, if it is one of this server's.
fn begun(all: &[Event], of: u64, server: u8) -> u64 {
    match all.get(of as usize) {
        Some(
            Event::Begun {
                server: through,
                row,
                ..
            },
        ) if *through == server => rows_of(row),
        _ => 0,
    }
}

/// The rows that were acknowledged through a server before a place.
fn own(all: &[Event], place: usize, server: u8) -> u64 {
    let mut rows = 0;
    for event in first(all, place) {
        if let Event::Acked { of, .. } = event {
            rows |= begun(all, *of, server);
        }
    }
    rows
}

/// The rows that were acknowledged through some server before a pull of that server, which stands before a place.
fn published(all: &[Event], place: usize) -> u64 {
    let mut rows = 0;
    for (i, event) in first(all, place).iter().enumerate() {
        if let Event::Synced { server, .. } = event {
            rows |= own(all, i, *server);
        }
    }
    rows
}

/// The rows that were published before a pull of this server, which stands before a place.
fn passed(all: &[Event], place: usize, server: u8) -> u64 {
    let mut rows = 0;
    for (i, event) in first(all, place).iter().enumerate() {
        if let Event::Synced { server: pulled, .. } = event {
            if *pulled == server {
                rows |= published(all, i);
            }
        }
    }
    rows
}

/// What a concept lies under at a level.
fn up(id: ConceptId, level: u8) -> ConceptId {
    match (id.level(), level) {
        (_, 0) => ConceptId::ALL,
        (2, 1) => ConceptId(0x1000_0000 + id.number() % COUNTRIES),
        _ => id,
    }
}

/// Whether a set has the coordinate's concept.
fn covers(set: &DescSet, row: &Row) -> bool {
    match set.parts.as_slice().first() {
        Some(part) => {
            let over = up(row.at.concept(0), part.level);
            part.ids.as_slice().contains(&over)
        }
        None => false,
    }
}

/// The row that began at a place, if a box that is listed for a shard of its path covers it.
fn boxed(all: &[Event], listing: &SharedListing, of: u64, path: &[u32]) -> u64 {
    let Some(Event::Begun { row, .. }) = all.get(of as usize) else {
        return 0;
    };
    for spot in listing.as_slice() {
        if path.contains(&spot.shard) && covers(&spot.set, row) {
            return rows_of(row);
        }
    }
    0
}

/// What a server pulled last before a place.
fn newest(all: &[Event], place: usize, server: u8) -> Option<&SharedListing> {
    let mut last = None;
    for event in first(all, place) {
        if let Event::Synced {
            server: pulled,
            listing,
        } = event
        {
            if *pulled == server {
                last = Some(listing);
            }
        }
    }
    last
}

/// The rows acknowledged before a place that a box covers which the server pulled last.
fn listed(all: &[Event], place: usize, server: u8) -> u64 {
    let Some(listing) = newest(all, place, server) else {
        return 0;
    };
    let mut rows = 0;
    for event in first(all, place) {
        if let Event::Acked { of, path } = event {
            rows |= boxed(all, listing, *of, path.as_slice());
        }
    }
    rows
}

/// Whether a pick asks for a row's concept.
fn is_picked(pick: &Pick, row: &Row) -> bool {
    match pick {
        Pick::All => true,
        Pick::Ids(ids) => {
            let at = row.at.concept(0);
            ids.as_slice().iter().any(|id| up(at, id.level()) == *id)
        }
    }
}

/// The rows that began before a place and match a filter.
fn matching(all: &[Event], place: usize, filter: &Filter) -> u64 {
    let mut rows = 0;
    for event in first(all, place) {
        if let Event::Begun { row, .. } = event {
            if filter.as_slice().iter().all(|pick| is_picked(pick, row)) {
                rows |= rows_of(row);
            }
        }
    }
    rows
}

/// Whether an aggregate is that of rows, each counted once.
pub(crate) fn is_of(agg: &Agg, rows: u64) -> bool {
    let measures = (0..63).map(|bit| 1u64 << bit);
    let mut least = None;
    let mut greatest = None;
    for measure in measures {
        if rows & measure != 0 {
            greatest = i64::try_from(measure).ok();
            least = least.or(greatest);
        }
    }
    agg.count() == u64::from(rows.count_ones())
        && agg.sum() == i128::from(rows)
        && agg.least() == least
        && agg.greatest() == greatest
}

/// What is found of one answer at a place, to a query that began at another.
fn judge(all: &[Event], place: usize, of: usize, agg: &Agg) -> Tally {
    let Some(Event::Asked { server, filter, .. }) = all.get(of) else {
        return Tally {
            wrong: 1,
            ..Tally::NONE
        };
    };
    let may = matching(all, place, filter);
    let known = own(all, of, *server) | passed(all, of, *server) | listed(all, of, *server);
    let must = known & may;
    let counted = u64::try_from(agg.sum()).unwrap_or(u64::MAX);
    let right = is_of(agg, counted) && must & !counted == 0 && counted & !may == 0;
    Tally {
        answers: 1,
        loose: u64::from(must != may),
        wrong: u64::from(!right),
        ..Tally::NONE
    }
}

/// What is found of the page of the group that was called at a place.
fn judge_group(all: &[Event], of: u64, page: &GroupPage) -> Tally {
    Tally {
        groups: 1,
        wrong: u64::from(!is_group(all, of, page, &[COUNTRIES])),
        ..Tally::NONE
    }
}

/// What is found of all answers and groups of a history, the oldest event first.
pub(crate) fn judge_all(all: &[Event]) -> Tally {
    let mut found = Tally::NONE;
    for (place, event) in all.iter().enumerate() {
        let one = match event {
            Event::Answered { of, agg } => judge(all, place, *of as usize, agg),
            Event::Shown {
                of,
                page: Page::Group(group),
            } => judge_group(all, *of, group),
            Event::Failed { .. } | Event::Refused { .. } => Tally {
                starved: 1,
                ..Tally::NONE
            },
            Event::Split { .. } => Tally {
                splits: 1,
                ..Tally::NONE
            },
            Event::Moved { .. } => Tally {
                moves: 1,
                ..Tally::NONE
            },
            _ => Tally::NONE,
        };
        found = found.join(&one);
    }
    found
}
