//! Whether the answers and pages of a history are such as it allows: a plain reading, event by event.
use crate::scripts::ROUNDS;
use dim_hierarchy::{Filter, Pick, Row};
use measure_agg::Agg;
use row_ledger::{Call, Decline, Event, GroupLine, GroupPage, How, Page};
use std::alloc::{AllocError, Global};

/// What a history tells of, and how much is otherwise than it should be.
#[derive(Clone, Copy)]
pub(crate) struct Counts {
    pub(crate) inserts: u64,
    pub(crate) answers: u64,
    /// Answers for all rows when none was open, and each was known to the server.
    pub(crate) exact: u64,
    pub(crate) calls: u64,
    pub(crate) ends: u64,
    pub(crate) settles: u64,
    pub(crate) audits: u64,
    pub(crate) lists: u64,
    pub(crate) groups: u64,
    pub(crate) splits: u64,
    pub(crate) moves: u64,
    pub(crate) faults: u64,
}

impl Counts {
    const NONE: Counts = Counts {
        inserts: 0,
        answers: 0,
        exact: 0,
        calls: 0,
        ends: 0,
        settles: 0,
        audits: 0,
        lists: 0,
        groups: 0,
        splits: 0,
        moves: 0,
        faults: 0,
    };

    /// Counts a fault where something is not right.
    fn check(&mut self, is_right: bool) {
        if !is_right {
            add(&mut self.faults);
        }
    }
}

/// One more.
fn add(count: &mut u64) {
    *count = count.saturating_add(1);
}

/// What was read so far. Rows are bits of their round's number.
#[derive(Drop)]
struct Judge {
    begun: Vec<u64>,
    /// By server.
    acked: [Vec<u64>; 2],
    /// Those that were acknowledged before a settle that is over, which each server knows.
    settled: Vec<u64>,
    /// By position: what the answer to the query that began there must count, as bits of a round; of all rows how many.
    must: Vec<u64>,
    counts: Counts,
}

/// What a query asks for.
#[derive(Clone, Copy)]
enum Scope {
    All,
    Round(usize),
}

/// What a filter asks for.
fn scope_of(filter: &Filter) -> Option<Scope> {
    match filter.as_slice().first()? {
        Pick::All => Some(Scope::All),
        Pick::Ids(ids) => {
            let id = ids.as_slice().first()?;
            Some(Scope::Round(id.number() as usize))
        }
    }
}

/// The round of a row: each has two places, in order.
fn round_at(row: &Row) -> usize {
    (row.at.concept(0).number() / 2) as usize
}

/// The bit of a row.
fn bit_of(row: &Row) -> u64 {
    u64::try_from(row.measures).unwrap_or(0)
}

/// As many zeros.
fn zeros(alloc: Global, count: u64) -> Result<Vec<u64>, AllocError> {
    let mut zeros = Vec::new(alloc);
    for _ in 0..count {
        zeros.push(0)?;
    }
    Ok(zeros)
}

/// Marks a row that is not marked yet, and says whether it was not.
fn mark(bits: &mut [u64], round: usize, bit: u64) -> bool {
    match bits.get_mut(round) {
        Some(word) => {
            let is_new = *word & bit == 0;
            *word |= bit;
            is_new && bit != 0
        }
        None => false,
    }
}

/// The bits of a round.
fn bits_at(bits: &[u64], round: usize) -> u64 {
    bits.get(round).copied().unwrap_or(0)
}

/// How many rows are marked.
fn rows_in(bits: &[u64]) -> u64 {
    let mut rows = 0u64;
    for word in bits {
        rows = rows.saturating_add(u64::from(word.count_ones()));
    }
    rows
}

/// The sum of the measures of the rows that are marked.
fn sum_in(bits: &[u64]) -> i128 {
    let mut sum = 0i128;
    for word in bits {
        sum = sum.saturating_add(i128::from(*word));
    }
    sum
}

/// Whether an answer is that of some of a round's rows that it may count, each once, and counts all that it must.
fn is_allowed(must: u64, may: u64, agg: &Agg) -> bool {
    let Ok(rows) = u64::try_from(agg.sum()) else {
        return false;
    };
    // A row that is counted twice makes a sum with fewer bits than there are rows.
    u64::from(rows.count_ones()) == agg.count() && must & !rows == 0 && rows & !may == 0
}

/// Whether a line of a group is that of a round with these rows.
fn is_line(line: &GroupLine, round: usize, rows: u64) -> bool {
    // A row's measure is its bit.
    let least = 1i64 << rows.trailing_zeros().min(62);
    let greatest = 1i64 << 63u32.saturating_sub(rows.leading_zeros()).min(62);
    line.id.level() == 1
        && line.id.number() as usize == round
        && line.agg.count() == u64::from(rows.count_ones())
        && line.agg.sum() == i128::from(rows)
        && line.agg.least() == Some(least)
        && line.agg.greatest() == Some(greatest)
}

/// Whether a call may end so where there is memory.
fn may_end(call: &Call, how: &How) -> bool {
    match call {
        Call::Sync(_)
        | Call::Barrier
        | Call::Settle
        | Call::Shards
        | Call::Audit
        | Call::Group { .. } => matches!(how, How::Fine),
        Call::Tree(_) => matches!(how, How::Fine | How::Declined(Decline::Unknown)),
        Call::Split(_) | Call::Move(_, _) => matches!(how, How::Fine | How::Declined(_)),
        Call::Balance(_) => matches!(how, How::Balanced { .. }),
    }
}

impl Judge {
    /// Nothing is read yet of so many events.
    fn new(alloc: Global, events: u64) -> Result<Judge, AllocError> {
        Ok(Judge {
            begun: zeros(alloc, ROUNDS)?,
            acked: [zeros(alloc, ROUNDS)?, zeros(alloc, ROUNDS)?],
            settled: zeros(alloc, ROUNDS)?,
            must: zeros(alloc, events)?,
            counts: Counts::NONE,
        })
    }

    /// A row begins once.
    fn begin(&mut self, row: &Row) {
        let is_new = mark(self.begun.as_mut_slice(), round_at(row), bit_of(row));
        self.counts.check(is_new);
    }

    /// A row is acknowledged once, through its server.
    fn acknowledge(&mut self, begun: Option<&Event>) {
        let Some(Event::Begun { server, row, .. }) = begun else {
            return self.counts.check(false);
        };
        let is_new = match self.acked.get_mut(usize::from(*server)) {
            Some(bits) => mark(bits.as_mut_slice(), round_at(row), bit_of(row)),
            None => false,
        };
        self.counts.check(is_new);
        add(&mut self.counts.inserts);
    }

    /// The rows of a round that an answer of the server must count which begins now.
    fn known(&self, server: usize, round: usize) -> u64 {
        let own = match self.acked.get(server) {
            Some(bits) => bits_at(bits.as_slice(), round),
            None => 0,
        };
        own | bits_at(self.settled.as_slice(), round)
    }

    /// How many rows of all rounds.
    fn known_rows(&self, server: usize) -> u64 {
        let mut rows = 0u64;
        for round in 0..self.begun.len() {
            rows = rows.saturating_add(u64::from(self.known(server, round).count_ones()));
        }
        rows
    }

    /// Notes what the answer to a query must count that begins here.
    fn ask(&mut self, position: usize, server: u8, filter: &Filter) {
        let server = usize::from(server);
        let rows = match scope_of(filter) {
            Some(Scope::All) => self.known_rows(server),
            Some(Scope::Round(round)) => self.known(server, round),
            None => return self.counts.check(false),
        };
        match self.must.get_mut(position) {
            Some(must) => *must = rows,
            None => self.counts.check(false),
        }
    }

    /// Compares the answer to a query with what it must and may count.
    fn answer(&mut self, of: usize, asked: Option<&Event>, agg: &Agg) {
        let Some(Event::Asked { filter, .. }) = asked else {
            return self.counts.check(false);
        };
        let must = self.must.get(of).copied().unwrap_or(0);
        match scope_of(filter) {
            Some(Scope::All) => self.answer_all(must, agg),
            Some(Scope::Round(round)) => {
                let may = bits_at(self.begun.as_slice(), round);
                self.counts.check(is_allowed(must, may, agg));
            }
            None => self.counts.check(false),
        }
        add(&mut self.counts.answers);
    }

    /// The answer for all rows counts no fewer than it must and no more than it may. Where these are as many, it is exact.
    fn answer_all(&mut self, must: u64, agg: &Agg) {
        let may = rows_in(self.begun.as_slice());
        self.counts.check(must <= agg.count() && agg.count() <= may);
        if must == may {
            let sum = sum_in(self.begun.as_slice());
            self.counts.check(agg.sum() == sum);
            add(&mut self.counts.exact);
        }
    }

    /// How many rows are acknowledged, which is each that has begun when a page is shown.
    fn whole(&mut self) -> u64 {
        let mut rows = 0u64;
        for bits in &self.acked {
            rows = rows.saturating_add(rows_in(bits.as_slice()));
        }
        self.counts.check(rows == rows_in(self.begun.as_slice()));
        rows
    }

    /// Compares a page with the rows: nobody is at work while it is shown.
    fn show(&mut self, page: &Page) {
        let rows = self.whole();
        match page {
            Page::Audit(line) => {
                let sum = sum_in(self.begun.as_slice());
                let is_right = line.agg.count() == rows && line.agg.sum() == sum;
                self.counts.check(is_right && line.shards != 0);
                add(&mut self.counts.audits);
            }
            Page::Shards(lines) => {
                let mut there = 0u64;
                for line in lines.as_slice() {
                    let both = line.rows.saturating_add(line.queued);
                    there = there.saturating_add(both);
                }
                self.counts.check(there == rows);
                add(&mut self.counts.lists);
            }
            Page::Tree(tree) => {
                let some = match tree.nodes.as_slice().first() {
                    Some(root) => root.agg.count() == tree.rows,
                    None => tree.rows == 0,
                };
                let there = tree.rows.saturating_add(tree.queued);
                self.counts.check(some && there <= rows);
            }
            Page::Group(group) => {
                self.show_group(group);
                self.counts.check(group.all.count() == rows);
                self.counts
                    .check(group.all.sum() == sum_in(self.begun.as_slice()));
                add(&mut self.counts.groups);
            }
        }
    }

    /// Compares the lines of a group by rounds with the rows: each round with a row has one, in their order.
    fn show_group(&mut self, group: &GroupPage) {
        let mut lines = group.lines.as_slice().iter();
        for round in 0..self.begun.len() {
            let rows = bits_at(self.begun.as_slice(), round);
            if rows != 0 {
                let is_right = match lines.next() {
                    Some(line) => is_line(line, round, rows),
                    None => false,
                };
                self.counts.check(is_right);
            }
        }
        self.counts.check(lines.next().is_none());
    }

    /// Each server knows what is acknowledged by now.
    fn settle(&mut self) {
        add(&mut self.counts.settles);
        for round in 0..self.begun.len() {
            let known = self.known(0, round) | self.known(1, round);
            if let Some(word) = self.settled.get_mut(round) {
                *word = known;
            }
        }
    }

    /// A call ends as it may.
    fn end(&mut self, called: Option<&Event>, how: &How) {
        let Some(Event::Called { call, .. }) = called else {
            return self.counts.check(false);
        };
        add(&mut self.counts.ends);
        self.counts.check(may_end(call, how));
        if let Call::Settle = call {
            self.settle();
        }
    }

    /// Reads the event at a position.
    fn read(&mut self, events: &[Event], position: usize, event: &Event) {
        match event {
            Event::Synced { .. } | Event::Left { .. } => {}
            Event::Begun { row, .. } => self.begin(row),
            Event::Acked { of, .. } => self.acknowledge(events.get(*of as usize)),
            Event::Asked { server, filter, .. } => self.ask(position, *server, filter),
            Event::Answered { of, agg } => self.answer(*of as usize, events.get(*of as usize), agg),
            Event::Called { .. } => add(&mut self.counts.calls),
            Event::Split { .. } => add(&mut self.counts.splits),
            Event::Moved { .. } => add(&mut self.counts.moves),
            Event::Shown { page, .. } => self.show(page),
            Event::Ended { of, how } => self.end(events.get(*of as usize), how),
            Event::Unknown { .. } | Event::Failed { .. } | Event::Refused { .. } => {
                self.counts.check(false)
            }
        }
    }
}

/// Reads a history, the oldest event first, and tells what it has.
pub(crate) fn judged(alloc: Global, events: &[Event]) -> Result<Counts, AllocError> {
    let mut judge = Judge::new(alloc, events.len() as u64)?;
    for (position, event) in events.iter().enumerate() {
        judge.read(events, position, event);
    }
    Ok(judge.counts)
}
