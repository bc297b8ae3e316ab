//! Runs in which a thread is held until another one has got somewhere. Had a phase's commands one thread, or were its parts done by
//! the sessions alone, these would not come to their end as they do.
use crate::top::run_top;
use olap_top::Status;
use std::alloc::{AllocError, Global};
use std::fmt::Write;
use std::process::Abort;
use std::sync::Wait;
use std::sync::atomic::{AtomicU64, Ordering};
use std::test::Fail;
use std::thread::{Threads, yield_now};
use volap_io::{Meet, MemSink};

/// Behind a part's end, behind a block that a query visits, before a session takes its own part, and behind the end of a part that a
/// hand did.
const PART_ENDED: u32 = 2;

const BLOCK_VISITED: u32 = 3;

const SESSION_TAKES: u32 = 0;

const HAND_ENDED: u32 = 4;

/// How often a held thread lets others go on before it gives up.
const PATIENCE: u64 = 1_000_000;

/// Waits until a number is at least this, or for so long that it will not be. Whether it is.
fn wait_for(number: &AtomicU64, least: u64) -> bool {
    for _ in 0..PATIENCE {
        if least <= number.load(Ordering::SeqCst) {
            return true;
        }
        yield_now();
    }
    false
}

/// Holds whoever first comes behind a block until a part has ended that hadn't then.
#[derive(Drop)]
struct TwoQueries {
    /// How many came behind a block.
    blocks: AtomicU64,
    /// How many parts have ended.
    parts: AtomicU64,
    /// How many were held in vain.
    missed: AtomicU64,
}

impl TwoQueries {
    /// Nobody has come yet.
    fn new() -> TwoQueries {
        TwoQueries {
            blocks: AtomicU64::new(0),
            parts: AtomicU64::new(0),
            missed: AtomicU64::new(0),
        }
    }

    /// Holds the first who comes behind a block.
    fn hold_first(&self) {
        let parts = self.parts.load(Ordering::SeqCst);
        let is_first = self.blocks.fetch_add(1, Ordering::SeqCst) == 0;
        if is_first && !wait_for(&self.parts, parts.saturating_add(1)) {
            self.missed.fetch_add(1, Ordering::SeqCst);
        }
    }
}

impl Meet for TwoQueries {
    fn pass<R: Wait + Sync>(&self, _rt: &R, point: u32) {
        if point == PART_ENDED {
            self.parts.fetch_add(1, Ordering::SeqCst);
        }
        if point == BLOCK_VISITED {
            self.hold_first();
        }
    }
}

/// Holds each session before it takes a part of its own until a hand has ended one. An insert wakes no hand that sleeps, so the
/// insert is let by, which comes twice: before its part, and before it ends.
#[derive(Drop)]
struct HandFirst {
    /// How often a session came before a part of its own, or before its command's end.
    calls: AtomicU64,
    /// How many parts a hand has ended.
    ends: AtomicU64,
    /// How many sessions were held in vain.
    missed: AtomicU64,
}

impl HandFirst {
    /// Nobody has come yet.
    fn new() -> HandFirst {
        HandFirst {
            calls: AtomicU64::new(0),
            ends: AtomicU64::new(0),
            missed: AtomicU64::new(0),
        }
    }

    /// Holds all but the first two who come.
    fn hold_later(&self) {
        let is_later = 2 <= self.calls.fetch_add(1, Ordering::SeqCst);
        if is_later && !wait_for(&self.ends, 1) {
            self.missed.fetch_add(1, Ordering::SeqCst);
        }
    }
}

impl Meet for HandFirst {
    fn pass<R: Wait + Sync>(&self, _rt: &R, point: u32) {
        if point == HAND_ENDED {
            self.ends.fetch_add(1, Ordering::SeqCst);
        }
        if point == SESSION_TAKES {
            self.hold_later();
        }
    }
}

/// The records before the first command, of so many servers and one worker with one thread.
fn head(alloc: Global, servers: u32) -> Result<String, AllocError> {
    let mut text = String::new(alloc);
    writeln!(text, "volap,1\nuse,{servers},1,1,256\ndim,geo,2")?;
    write!(
        text,
        "concept,geo,de,*\nconcept,geo,berlin,de\nconcept,geo,munich,de\n"
    )?;
    Ok(text)
}

/// A hundred rows of two towns in turn, and behind a settle a query of two servers each.
fn two_queries(alloc: Global) -> Result<String, AllocError> {
    let mut text = head(alloc, 2)?;
    for _ in 0..50 {
        write!(text, "insert,0,1,berlin\ninsert,0,1,munich\n")?;
    }
    write!(text, "settle\nquery,0,munich\nquery,1,munich\n")?;
    Ok(text)
}

/// Runs a text, and stops unless it is Done and its output ends so.
fn run<R: Abort + Threads + Wait + Sync, M: Meet>(
    rt: &R,
    alloc: Global,
    text: &str,
    meet: &M,
    end: &str,
) -> Result<(), Fail> {
    let mut sink = MemSink::new(alloc, 100_000, Vec::new(alloc), 4096)?;
    let outcome = run_top(rt, alloc, text.as_bytes(), &mut sink, meet)?;
    assert_eq!(rt; outcome.status, Status::Done);
    assert!(rt; sink.taken().ends_with(end.as_bytes()));
    Ok(())
}

#[test]
fn two_queries_are_under_way_at_once(rt: HostRuntime) -> Result<(), Fail> {
    let alloc = rt.alloc();
    let text = two_queries(alloc)?;
    let meet = TwoQueries::new();
    let end = "\n101 settle ok\n102 query 50 50 1 1\n103 query 50 50 1 1\n";
    run(&rt, alloc, text.as_str(), &meet, end)?;
    assert!(rt; 0 < meet.blocks.load(Ordering::SeqCst));
    assert_eq!(rt; meet.missed.load(Ordering::SeqCst), 0);
    Ok(())
}

#[test]
fn a_hand_does_a_part_of_a_session(rt: HostRuntime) -> Result<(), Fail> {
    let alloc = rt.alloc();
    let mut text = head(alloc, 1)?;
    write!(text, "insert,0,5,berlin\nquery,0,*\n")?;
    let meet = HandFirst::new();
    run(
        &rt,
        alloc,
        text.as_str(),
        &meet,
        "1 insert ok\n2 query 1 5 5 5\n",
    )?;
    assert!(rt; 0 < meet.ends.load(Ordering::SeqCst));
    assert_eq!(rt; meet.missed.load(Ordering::SeqCst), 0);
    Ok(())
}
