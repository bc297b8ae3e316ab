//! Scripts made by chance, run by chance: each answer holds the rows that its server must know, only rows
//! that had begun, and each once; each page of all shards or of all rows tells of just the rows that had
//! begun, and each page of groups of those that match, whatever was split and moved meanwhile.
use crate::against_flat::{ABOVE, head, push_group, push_insert};
use crate::chance::Dice;
use crate::groups::is_group;
use crate::top::run_top;
use library_runs::of_olap_top::Status;
use measure_agg::Agg;
use row_ledger::{AuditLine, Event, Page, ShardLine};
use std::alloc::{AllocError, Global};
use std::fmt::Write;
use std::process::Abort;
use std::sync::Wait;
use std::test::Fail;
use std::thread::Threads;
use volap_io::MemSink;

/// Rows as bits, which their measures are: those that have begun; by server those that it acknowledged,
/// and those that were passed to it by pulls; and those that pulls told the others of.
#[derive(Drop)]
struct Known {
    begun: u64,
    own: [u64; 2],
    passed: [u64; 2],
    published: u64,
}

impl Known {
    /// A server acknowledged the row of the insert that began at a place.
    fn acknowledge(&mut self, events: &[Event], of: u64) {
        if let Some(Event::Begun { server, row, .. }) = events.get(of as usize) {
            self.own[usize::from(*server % 2)] |= row.measures.unsigned_abs();
        }
    }

    /// A server pulled.
    fn pull(&mut self, server: u8) {
        let at = usize::from(server % 2);
        self.passed[at] |= self.published;
        self.published |= self.own[at];
    }

    /// An event happened.
    fn see(&mut self, events: &[Event], event: &Event) {
        match event {
            Event::Begun { row, .. } => self.begun |= row.measures.unsigned_abs(),
            Event::Acked { of, .. } => self.acknowledge(events, *of),
            Event::Synced { server, .. } => self.pull(*server),
            _ => {}
        }
    }

    /// What a query that begins with this event must hold.
    fn must(&self, event: &Event) -> u64 {
        match event {
            Event::Asked { server, .. } => {
                let at = usize::from(*server % 2);
                self.own[at] | self.passed[at]
            }
            _ => 0,
        }
    }
}

/// Whether an answer holds these rows, only these others, and each once.
fn lies_between(must: u64, answer: &Agg, may: u64) -> bool {
    let sum = answer.sum().unsigned_abs();
    let count = u64::from(sum.count_ones());
    let least = u128::from(must);
    let most = u128::from(may);
    least & sum == least && sum & most == sum && answer.count() == count
}

/// How many of these stand in a history: answers, pages, of them those of groups, and splits and moves of shards.
#[derive(Clone, Copy)]
struct Seen {
    answers: u64,
    pages: u64,
    groups: u64,
    splits: u64,
    moves: u64,
}

impl Seen {
    /// None of any.
    const NONE: Seen = Seen {
        answers: 0,
        pages: 0,
        groups: 0,
        splits: 0,
        moves: 0,
    };

    /// One more page.
    fn see_page(&mut self, page: &Page) {
        self.pages = self.pages.saturating_add(1);
        if let Page::Group(_) = page {
            self.groups = self.groups.saturating_add(1);
        }
    }

    /// One more of what this event is.
    fn see(&mut self, event: &Event) {
        match event {
            Event::Answered { .. } => self.answers = self.answers.saturating_add(1),
            Event::Shown { page, .. } => self.see_page(page),
            Event::Split { .. } => self.splits = self.splits.saturating_add(1),
            Event::Moved { .. } => self.moves = self.moves.saturating_add(1),
            _ => {}
        }
    }

    /// Both together.
    fn add(&mut self, more: &Seen) {
        self.answers = self.answers.saturating_add(more.answers);
        self.pages = self.pages.saturating_add(more.pages);
        self.groups = self.groups.saturating_add(more.groups);
        self.splits = self.splits.saturating_add(more.splits);
        self.moves = self.moves.saturating_add(more.moves);
    }
}

/// How many rows these shards have.
fn rows_of(shards: &[ShardLine]) -> u64 {
    let mut count = 0u64;
    for shard in shards {
        count = count
            .saturating_add(shard.rows)
            .saturating_add(shard.queued);
    }
    count
}

/// Whether an audit tells of just these rows, each once.
fn is_audit_of(audit: &AuditLine, rows: u64) -> bool {
    lies_between(rows, &audit.agg, rows) && 0 < audit.shards
}

/// Whether the page of the command that was called at a place tells of just these rows, each once.
fn is_page_of(events: &[Event], of: u64, page: &Page, rows: u64) -> bool {
    match page {
        Page::Shards(shards) => rows_of(shards.as_slice()) == u64::from(rows.count_ones()),
        Page::Audit(audit) => is_audit_of(audit, rows),
        Page::Group(group) => is_group(events, of, group, &ABOVE),
        Page::Tree(_) => true,
    }
}

/// Whether an event that answers or shows tells what it must and may, where the queries before it must
/// hold these rows.
fn is_in_bounds(known: &Known, events: &[Event], must: &[u64], event: &Event) -> bool {
    match event {
        Event::Answered { of, agg } => {
            let least = must.get(*of as usize).copied().unwrap_or(0);
            lies_between(least, agg, known.begun)
        }
        Event::Shown { of, page } => is_page_of(events, *of, page, known.begun),
        _ => true,
    }
}

/// What stands in a history, if each answer and each page lies between its bounds.
fn seen_in(alloc: Global, events: &[Event]) -> Result<Seen, Fail> {
    let mut known = Known {
        begun: 0,
        own: [0; 2],
        passed: [0; 2],
        published: 0,
    };
    let mut must = Vec::new(alloc);
    let mut seen = Seen::NONE;
    for event in events {
        must.push(known.must(event))?;
        known.see(events, event);
        seen.see(event);
        if !is_in_bounds(&known, events, must.as_slice(), event) {
            return Err("out of bounds".into());
        }
    }
    Ok(seen)
}

/// Adds a split, a move or a balance. The shard may stand or not, and the worker too.
fn push_work(text: &mut String, dice: &mut Dice) -> Result<(), AllocError> {
    let shard = dice.number(7);
    let worker = dice.number(3);
    let most = 1 + dice.number(4);
    match dice.number(4) {
        0 => writeln!(text, "balance,{most}"),
        1 => writeln!(text, "move,{shard},{worker}"),
        _ => writeln!(text, "split,{shard}"),
    }
}

/// Adds a command that closes its phase.
fn push_closing(text: &mut String, dice: &mut Dice) -> Result<(), AllocError> {
    match dice.number(7) {
        0 => writeln!(text, "shards"),
        1 => writeln!(text, "audit"),
        2 => writeln!(text, "settle"),
        3 | 4 => push_group(text, dice),
        _ => writeln!(text, "barrier"),
    }
}

/// Adds a command with a number: most are inserts.
fn push_command(text: &mut String, dice: &mut Dice, number: u64) -> Result<(), AllocError> {
    let server = dice.number(2);
    match dice.number(18) {
        0 | 1 | 2 => writeln!(text, "query,{server},*,*"),
        3 | 4 => writeln!(text, "sync,{server}"),
        5 => push_closing(text, dice),
        6 | 7 => push_work(text, dice),
        _ => push_insert(text, dice, number),
    }
}

/// A script of so many commands, with a query and pages behind a settle.
fn script(alloc: Global, dice: &mut Dice, count: u64) -> Result<String, AllocError> {
    let workers = 1 + dice.number(2);
    let cells = 64 + 64 * dice.number(3);
    let mut text = head(alloc, workers, cells)?;
    for number in 0..count {
        push_command(&mut text, dice, number)?;
    }
    write!(text, "settle\nquery,1,*,*\nshards\naudit\n")?;
    push_group(&mut text, dice)?;
    Ok(text)
}

/// Runs a script by a seed.
fn run<R: Abort + Threads + Wait + Sync>(
    rt: &R,
    alloc: Global,
    text: &[u8],
    seed: u64,
) -> Result<Seen, Fail> {
    let seed = format!(in alloc; "{seed}")?;
    let words = ["step", "--seed", seed.as_str()];
    let mut sink = MemSink::new(alloc, 100_000, Vec::new(alloc), 4096)?;
    let outcome = run_top(rt, alloc, &words, text, &mut sink)?;
    assert_eq!(rt; outcome.status, Status::Done);
    let seen = seen_in(alloc, outcome.ledger.events())?;
    assert!(rt; seen.answers > 0 && seen.pages > 1);
    Ok(seen)
}

/// Runs a thousand scripts, each by a seed. In all of them together shards are split and moved, some
/// hundred times each, and a thousand groups are shown.
fn run_many<R: Abort + Threads + Wait + Sync>(
    rt: &R,
    alloc: Global,
    stream: u64,
) -> Result<(), Fail> {
    let dice = &mut Dice::new(2, stream);
    let mut all = Seen::NONE;
    for _ in 0..1000 {
        let count = 6 + dice.number(56);
        let text = script(alloc, dice, count)?;
        let seed = dice.number(1 << 32);
        all.add(&run(rt, alloc, text.as_str().as_bytes(), seed)?);
    }
    assert!(rt; all.splits > 100 && all.moves > 100);
    assert!(rt; all.groups >= 1000);
    Ok(())
}

#[test]
fn answers_by_seeds_lie_between_their_bounds(rt: HostRuntime) -> Result<(), Fail> {
    run_many(&rt, rt.alloc(), 2)
}

#[test]
fn answers_by_other_seeds_lie_between_their_bounds(rt: HostRuntime) -> Result<(), Fail> {
    run_many(&rt, rt.alloc(), 3)
}

#[test]
fn answers_by_seeds_of_a_third_kind_lie_between_their_bounds(rt: HostRuntime) -> Result<(), Fail> {
    run_many(&rt, rt.alloc(), 4)
}
