//! Scripts made by chance, each run often: every answer holds the rows that its server must know, only rows that had begun, and each
//! once; behind a settle it holds all; each page of all shards or of all rows tells of just the rows that had begun, and each page of
//! groups of those that match.
use crate::chance::Dice;
use crate::judge::{Found, judged};
use crate::scripts::{Made, script};
use crate::top::run_top;
use olap_top::Status;
use std::alloc::Global;
use std::process::Abort;
use std::sync::Wait;
use std::test::Fail;
use std::thread::Threads;
use volap_io::{MemSink, Quiet};

/// How many scripts a test runs, and how often each.
const SCRIPTS: u64 = 50;

const RUNS: u64 = 20;

/// Runs a script once.
fn run<R: Abort + Threads + Wait + Sync>(
    rt: &R,
    alloc: Global,
    made: &Made,
) -> Result<Found, Fail> {
    let mut sink = MemSink::new(alloc, 100_000, Vec::new(alloc), 4096)?;
    let text = made.text.as_str().as_bytes();
    let outcome = run_top(rt, alloc, text, &mut sink, &Quiet)?;
    assert_eq!(rt; outcome.status, Status::Done);
    let found = judged(alloc, outcome.ledger.events(), made.workers)?;
    assert_eq!(rt; found.wrong, 0);
    assert_eq!(rt; found.starved, 0);
    assert_eq!(rt; found.ends, made.commands);
    Ok(found)
}

/// Runs a script often.
fn run_often<R: Abort + Threads + Wait + Sync>(
    rt: &R,
    alloc: Global,
    made: &Made,
) -> Result<Found, Fail> {
    let mut all = Found::NOTHING;
    for _ in 0..RUNS {
        all = all.join(&run(rt, alloc, made)?);
    }
    Ok(all)
}

/// Runs scripts by a stream of numbers. In all of them together shards are split and moved.
fn run_many<R: Abort + Threads + Wait + Sync>(
    rt: &R,
    alloc: Global,
    stream: u64,
) -> Result<(), Fail> {
    let dice = &mut Dice::new(7, stream);
    let mut all = Found::NOTHING;
    for _ in 0..SCRIPTS {
        let made = script(alloc, dice)?;
        all = all.join(&run_often(rt, alloc, &made)?);
    }
    assert!(rt; all.answers > 0 && all.pages > 0 && all.groups > 0);
    assert!(rt; all.splits > 0 && all.moves > 0);
    Ok(())
}

#[test]
fn answers_with_threads_lie_between_their_bounds(rt: HostRuntime) -> Result<(), Fail> {
    run_many(&rt, rt.alloc(), 1)
}

#[test]
fn answers_of_other_scripts_with_threads_lie_between_their_bounds(
    rt: HostRuntime,
) -> Result<(), Fail> {
    run_many(&rt, rt.alloc(), 2)
}

#[test]
fn answers_of_scripts_of_a_third_kind_with_threads_lie_between_their_bounds(
    rt: HostRuntime,
) -> Result<(), Fail> {
    run_many(&rt, rt.alloc(), 3)
}

#[test]
fn answers_of_scripts_of_a_fourth_kind_with_threads_lie_between_their_bounds(
    rt: HostRuntime,
) -> Result<(), Fail> {
    run_many(&rt, rt.alloc(), 4)
}
