//! Which rows a query must count, and which it may, read off the events before it. A row's measure is a power of two of its own, so
//! that rows are the sum of their measures.
use crate::scripts::COUNTRIES;
use describing_set::{DescSet, SharedListing};
use dim_hierarchy::{ConceptId, Filter, Pick, Row};
use row_ledger::{Call, Event, How};

/// How many servers there may be.
const SERVERS: usize = 3;

/// A row alone.
pub(crate) fn bit_of(row: &Row) -> u64 {
    u64::try_from(row.measures).unwrap_or(0)
}

/// What is known behind the first events of a history.
#[derive(Clone, Copy)]
pub(crate) struct Known {
    pub(crate) begun: u64,
    acked: u64,
    /// By server: those that it acknowledged, and those that were passed to it by pulls.
    own: [u64; SERVERS],
    passed: [u64; SERVERS],
    /// Those that some server had acknowledged before it pulled.
    published: u64,
    /// Where the last settle began.
    settle: Option<u64>,
    /// Whether a settle has ended well since the last row began.
    pub(crate) is_settled: bool,
}

impl Known {
    /// What is known where nothing has happened.
    pub(crate) const NOTHING: Known = Known {
        begun: 0,
        acked: 0,
        own: [0; SERVERS],
        passed: [0; SERVERS],
        published: 0,
        settle: None,
        is_settled: false,
    };

    /// A row began.
    fn begin(&mut self, row: &Row) {
        self.begun |= bit_of(row);
        self.is_settled = false;
    }

    /// A server acknowledged the row that began at a place.
    fn acknowledge(&mut self, events: &[Event], of: u64) {
        if let Some(Event::Begun { server, row, .. }) = events.get(of as usize) {
            self.own[usize::from(*server) % SERVERS] |= bit_of(row);
            self.acked |= bit_of(row);
        }
    }

    /// A server pulled.
    fn pull(&mut self, server: u8) {
        let at = usize::from(server) % SERVERS;
        self.passed[at] |= self.published;
        self.published |= self.own[at];
    }

    /// A command that is no insert and no query ended well.
    fn end(&mut self, of: u64) {
        if self.settle == Some(of) {
            self.is_settled = true;
        }
    }

    /// The event at a place happened.
    pub(crate) fn see(&mut self, events: &[Event], place: u64, event: &Event) {
        match event {
            Event::Begun { row, .. } => self.begin(row),
            Event::Acked { of, .. } => self.acknowledge(events, *of),
            Event::Synced { server, .. } => self.pull(*server),
            Event::Called {
                call: Call::Settle,
                ..
            } => self.settle = Some(place),
            Event::Ended { of, how: How::Fine } => self.end(*of),
            _ => {}
        }
    }

    /// The rows that a query through a server must count if they match, and that are known by these events, where those that were
    /// listed are told.
    fn of_server(&self, server: u8, listed: u64) -> u64 {
        if self.is_settled {
            return self.acked;
        }
        let at = usize::from(server) % SERVERS;
        self.own[at] | self.passed[at] | listed
    }
}

/// What a row's concept of a dimension lies under at a level.
pub(crate) fn up(row: &Row, dim: usize, level: u8) -> ConceptId {
    let id = if dim == 0 {
        row.at.concept(0)
    } else {
        row.at.concept(1)
    };
    match (id.level(), level) {
        (_, 0) => ConceptId::ALL,
        (2, 1) => ConceptId(0x1000_0000 + id.number() % COUNTRIES),
        _ => id,
    }
}

/// Whether a set has what the row's concepts lie under.
fn covers(set: &DescSet, row: &Row) -> bool {
    for (dim, part) in set.parts.as_slice().iter().enumerate() {
        let over = up(row, dim, part.level);
        if !part.ids.as_slice().contains(&over) {
            return false;
        }
    }
    true
}

/// The row that began at a place, if a box that is listed for a shard of its path covers it.
fn boxed(events: &[Event], listing: &SharedListing, of: u64, path: &[u32]) -> u64 {
    let Some(Event::Begun { row, .. }) = events.get(of as usize) else {
        return 0;
    };
    for spot in listing.as_slice() {
        if path.contains(&spot.shard) && covers(&spot.set, row) {
            return bit_of(row);
        }
    }
    0
}

/// What a server pulled last among these events.
fn newest(events: &[Event], server: u8) -> Option<&SharedListing> {
    let mut last = None;
    for event in events {
        if let Event::Synced {
            server: pulled,
            listing,
        } = event
        {
            if *pulled == server {
                last = Some(listing);
            }
        }
    }
    last
}

/// The rows acknowledged by these events that a box covers which the server pulled last.
fn listed(events: &[Event], server: u8) -> u64 {
    let Some(listing) = newest(events, server) else {
        return 0;
    };
    let mut rows = 0;
    for event in events {
        if let Event::Acked { of, path } = event {
            rows |= boxed(events, listing, *of, path.as_slice());
        }
    }
    rows
}

/// Whether a pick asks for the row's concept of a dimension.
fn is_picked(pick: &Pick, row: &Row, dim: usize) -> bool {
    match pick {
        Pick::All => true,
        Pick::Ids(ids) => {
            for id in ids.as_slice() {
                if up(row, dim, id.level()) == *id {
                    return true;
                }
            }
            false
        }
    }
}

/// Whether a row matches a filter.
pub(crate) fn matches(filter: &Filter, row: &Row) -> bool {
    for (dim, pick) in filter.as_slice().iter().enumerate() {
        if !is_picked(pick, row, dim) {
            return false;
        }
    }
    true
}

/// The rows that began by these events and match a filter.
pub(crate) fn matching(events: &[Event], filter: &Filter) -> u64 {
    let mut rows = 0;
    for event in events {
        if let Event::Begun { row, .. } = event {
            if matches(filter, row) {
                rows |= bit_of(row);
            }
        }
    }
    rows
}

/// The rows that a query must count which begins behind these events.
pub(crate) fn must(known: &Known, events: &[Event], server: u8, filter: &Filter) -> u64 {
    known.of_server(server, listed(events, server)) & matching(events, filter)
}
