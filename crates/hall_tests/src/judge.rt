//! Whether the answers of a history are such as it allows: a plain reading, event by event.
use crate::plan::ROUNDS;
use crate::work::Report;
use dim_hierarchy::{Filter, Pick, Row};
use measure_agg::Agg;
use row_ledger::Event;
use std::alloc::{AllocError, Global};

/// Whether an answer is that of some of the rows that it may count, each once, and counts all that it must.
pub(crate) fn is_allowed(must: u64, may: u64, agg: &Agg) -> bool {
    let Ok(rows) = u64::try_from(agg.sum()) else {
        return false;
    };
    // A row that is counted twice makes a sum with fewer bits than there are rows.
    u64::from(rows.count_ones()) == agg.count()
        && must & !rows == 0
        && rows & !may == 0
        && agg.least() == bit_at(rows.trailing_zeros())
        && agg.greatest() == bit_at(63u32.wrapping_sub(rows.leading_zeros()))
}

/// The bit of a place, if there is one.
fn bit_at(place: u32) -> Option<i64> {
    1i64.checked_shl(place)
}

/// The round that a filter asks for.
fn round_of(filter: &Filter) -> Option<usize> {
    match filter.as_slice().first()? {
        Pick::All => None,
        Pick::Ids(ids) => {
            let id = ids.as_slice().first()?;
            Some(id.number() as usize)
        }
    }
}

/// The round of a row.
fn round_at(row: &Row) -> usize {
    row.at.concept(0).number() as usize
}

/// The bit of a row.
fn bit_of(row: &Row) -> u64 {
    u64::try_from(row.measures).unwrap_or(0)
}

/// What the commands of a run came to.
#[derive(Clone, Copy)]
pub(crate) struct Counts {
    pub(crate) inserts: u64,
    pub(crate) answers: u64,
    pub(crate) unknown: u64,
    /// Those for which no memory was found.
    pub(crate) refused: u64,
    /// How much is otherwise than it should be.
    pub(crate) faults: u64,
}

impl Counts {
    pub(crate) const NONE: Counts = Counts {
        inserts: 0,
        answers: 0,
        unknown: 0,
        refused: 0,
        faults: 0,
    };

    /// Counts a fault where something isn't right.
    pub(crate) fn check(&mut self, is_right: bool) {
        if !is_right {
            self.faults = self.faults.saturating_add(1);
        }
    }

    pub(crate) fn add_insert(&mut self) {
        self.inserts = self.inserts.saturating_add(1);
    }

    pub(crate) fn add_answer(&mut self) {
        self.answers = self.answers.saturating_add(1);
    }

    pub(crate) fn add_unknown(&mut self) {
        self.unknown = self.unknown.saturating_add(1);
    }

    pub(crate) fn add_refused(&mut self) {
        self.refused = self.refused.saturating_add(1);
    }

    /// These and others together.
    fn add(&mut self, more: &Counts) {
        self.inserts = self.inserts.saturating_add(more.inserts);
        self.answers = self.answers.saturating_add(more.answers);
        self.unknown = self.unknown.saturating_add(more.unknown);
        self.refused = self.refused.saturating_add(more.refused);
        self.faults = self.faults.saturating_add(more.faults);
    }

    /// How many commands they are.
    pub(crate) fn commands(&self) -> u64 {
        self.inserts
            .saturating_add(self.answers)
            .saturating_add(self.unknown)
            .saturating_add(self.refused)
    }
}

/// What was read so far. Rows are bits of their round's number.
#[derive(Drop)]
struct Judge {
    begun: Vec<u64>,
    /// Those that fail anywhere in the history.
    failed: Vec<u64>,
    /// By server.
    acked: [Vec<u64>; 2],
    /// By position: what the answer to the query that began there must count.
    must: Vec<u64>,
    /// By position: the answer to the query that began there.
    answers: Vec<Option<Agg>>,
    counts: Counts,
}

/// As many zeros.
fn zeros(alloc: Global, count: u64) -> Result<Vec<u64>, AllocError> {
    let mut zeros = Vec::new(alloc);
    for _ in 0..count {
        zeros.push(0)?;
    }
    Ok(zeros)
}

/// As many places without an answer.
fn no_answers(alloc: Global, count: u64) -> Result<Vec<Option<Agg>>, AllocError> {
    let mut places = Vec::new(alloc);
    for _ in 0..count {
        places.push(None)?;
    }
    Ok(places)
}

/// Marks a row that is not marked yet, and says whether it wasn't.
fn mark(bits: &mut [u64], round: usize, bit: u64) -> bool {
    match bits.get_mut(round) {
        Some(word) => {
            let is_new = *word & bit == 0;
            *word |= bit;
            is_new
        }
        None => false,
    }
}

/// A bit of a round, if it is marked.
fn is_marked(bits: &[u64], round: usize, bit: u64) -> bool {
    match bits.get(round) {
        Some(word) => *word & bit != 0,
        None => false,
    }
}

impl Judge {
    fn new(alloc: Global, events: u64) -> Result<Judge, AllocError> {
        Ok(Judge {
            begun: zeros(alloc, ROUNDS)?,
            failed: zeros(alloc, ROUNDS)?,
            acked: [zeros(alloc, ROUNDS)?, zeros(alloc, ROUNDS)?],
            must: zeros(alloc, events)?,
            answers: no_answers(alloc, events)?,
            counts: Counts::NONE,
        })
    }

    /// A row begins once.
    fn begin(&mut self, row: &Row) {
        let is_new = mark(self.begun.as_mut_slice(), round_at(row), bit_of(row));
        self.counts.check(is_new);
    }

    /// A row is acknowledged once, through its server, and doesn't fail.
    fn acknowledge(&mut self, begun: Option<&Event>) {
        let Some(Event::Begun { server, row, .. }) = begun else {
            return self.counts.check(false);
        };
        let round = round_at(row);
        let bit = bit_of(row);
        let is_new = match self.acked.get_mut(usize::from(*server)) {
            Some(bits) => mark(bits.as_mut_slice(), round, bit),
            None => false,
        };
        self.counts.add_insert();
        self.counts
            .check(is_new && !is_marked(self.failed.as_slice(), round, bit));
    }

    /// Notes what the answer to a query must count that begins here.
    fn ask(&mut self, position: usize, server: u8, filter: &Filter) {
        let Some(round) = round_of(filter) else {
            return self.counts.check(false);
        };
        let rows = match self.acked.get(usize::from(server)) {
            Some(bits) => bits.get(round).copied(),
            None => None,
        };
        match (self.must.get_mut(position), rows) {
            (Some(must), Some(rows)) => *must = rows,
            _ => self.counts.check(false),
        }
    }

    /// The rows of a round that have begun and fail nowhere.
    fn may(&self, round: usize) -> Option<u64> {
        match (self.begun.get(round), self.failed.get(round)) {
            (Some(begun), Some(failed)) => Some(*begun & !*failed),
            _ => None,
        }
    }

    /// Compares the answer to a query with what it must and may count.
    fn answer(&mut self, of: usize, asked: Option<&Event>, agg: &Agg) {
        let Some(Event::Asked { filter, .. }) = asked else {
            return self.counts.check(false);
        };
        let may = match round_of(filter) {
            Some(round) => self.may(round),
            None => None,
        };
        let must = self.must.get(of).copied();
        let is_right = match (must, may) {
            (Some(must), Some(may)) => is_allowed(must, may, agg),
            _ => false,
        };
        self.counts.check(is_right);
        self.counts.add_answer();
        match self.answers.get_mut(of) {
            Some(place) => *place = Some(*agg),
            None => self.counts.check(false),
        }
    }

    /// An insert or a query fails.
    fn fail(&mut self, begun: Option<&Event>) {
        match begun {
            Some(Event::Begun { .. } | Event::Asked { .. }) => self.counts.add_refused(),
            _ => self.counts.check(false),
        }
    }

    /// Reads the event at a position.
    fn read(&mut self, events: &[Event], position: usize, event: &Event) {
        match event {
            Event::Synced { .. } => {}
            Event::Begun { row, .. } => self.begin(row),
            Event::Acked { of, .. } => self.acknowledge(events.get(*of as usize)),
            Event::Asked { server, filter, .. } => self.ask(position, *server, filter),
            Event::Answered { of, agg } => self.answer(*of as usize, events.get(*of as usize), agg),
            Event::Unknown { .. } => self.counts.add_unknown(),
            Event::Failed { of } => self.fail(events.get(*of as usize)),
            Event::Refused { .. } => self.counts.add_refused(),
            _ => self.counts.check(false),
        }
    }

    /// Notes the rows that fail, which no answer may count.
    fn note_failed(&mut self, events: &[Event]) {
        for event in events {
            let Event::Failed { of } = event else {
                continue;
            };
            if let Some(Event::Begun { row, .. }) = events.get(*of as usize) {
                mark(self.failed.as_mut_slice(), round_at(row), bit_of(row));
            }
        }
    }

    /// Reads a history, the oldest event first.
    fn read_all(&mut self, events: &[Event]) {
        self.note_failed(events);
        for (position, event) in events.iter().enumerate() {
            self.read(events, position, event);
        }
    }

    /// Looks whether a session heard what the history has.
    fn compare(&mut self, report: &Report) {
        for one in &report.heard {
            let told = match self.answers.get(one.of as usize) {
                Some(Some(agg)) => *agg == one.agg,
                _ => false,
            };
            self.counts.check(told);
        }
    }

    /// How many rows are acknowledged, each once, through both servers together.
    fn rows(&self) -> u64 {
        let mut count = 0u64;
        for bits in &self.acked {
            for word in bits {
                count = count.saturating_add(u64::from(word.count_ones()));
            }
        }
        count
    }
}

/// Whether what the sessions count is what the history has, with as many rows.
fn agrees(all: &Counts, history: &Counts, rows: u64) -> bool {
    rows == all.inserts
        && history.inserts == all.inserts
        && history.answers == all.answers
        && history.unknown == all.unknown
        // Of a command that is refused at once nothing stands in the history.
        && history.refused <= all.refused
}

/// Whether so many answers are noted as were heard, but for one that found no memory.
fn are_noted(all: &Counts, noted: u64) -> bool {
    noted <= all.answers && all.answers <= noted.saturating_add(1)
}

/// Reads a history, and compares it with what the sessions say. Answers what the sessions count, with all faults.
pub(crate) fn judged(
    alloc: Global,
    events: &[Event],
    reports: &[Report],
) -> Result<Counts, AllocError> {
    let mut judge = Judge::new(alloc, events.len() as u64)?;
    judge.read_all(events);
    let mut all = Counts::NONE;
    let mut noted = 0u64;
    for report in reports {
        judge.compare(report);
        all.add(&report.counts);
        noted = noted.saturating_add(report.heard.len() as u64);
    }
    let is_told = agrees(&all, &judge.counts, judge.rows()) && are_noted(&all, noted);
    all.check(is_told);
    all.faults = all.faults.saturating_add(judge.counts.faults);
    Ok(all)
}
