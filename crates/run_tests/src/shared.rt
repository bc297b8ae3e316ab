//! Pulls between which the registry doesn't change have one listing among them.
use crate::runs::{events, run_script};
use crate::scripts::{Line, script};
use library_runs::of_seeded_run::Schedule;
use row_ledger::Event;
use std::alloc::{AllocError, Global};
use std::test::Fail;

/// Two servers and two workers, and two concepts.
const WORLD: &str =
    "volap,1\nuse,2,2,1,64\ndim,place,1\nconcept,place,berlin,*\nconcept,place,munich,*\n";

/// How many have the listing that was pulled last, and how many shards it has.
fn newest(events: &[Event]) -> (usize, usize) {
    let mut found = (0, 0);
    for event in events {
        if let Event::Synced { listing, .. } = event {
            found = (listing.holders(), listing.as_slice().len());
        }
    }
    found
}

/// What is found of the newest listing behind these lines.
fn behind(alloc: Global, lines: &[Line]) -> Result<(usize, usize), AllocError> {
    let script = script(alloc, WORLD, lines)?;
    let state = run_script(alloc, &script, &mut Schedule::Order)?;
    Ok(newest(events(&state)))
}

const SETTLE: Line = Line::Settle;

/// A row in one city, through the first server.
const ROW: Line = Line::Insert(0, 1, "berlin");

#[test]
fn pulls_share_a_listing_while_nothing_changes(rt: HostRuntime) -> Result<(), Fail> {
    let alloc = rt.alloc();
    // The two pulls of the opening have one, and nobody else.
    assert_eq!(rt; behind(alloc, &[])?, (2, 2));
    // The first pull of a settle lists anew, and the registry keeps that for the other three.
    assert_eq!(rt; behind(alloc, &[SETTLE])?, (5, 2));
    assert_eq!(rt; behind(alloc, &[SETTLE, SETTLE, SETTLE])?, (13, 2));
    // A row grows a box, and a second one of its kind grows none.
    assert_eq!(rt; behind(alloc, &[SETTLE, ROW, SETTLE])?, (5, 2));
    assert_eq!(rt; behind(alloc, &[ROW, SETTLE, ROW, SETTLE])?, (9, 2));
    let other = Line::Insert(0, 1, "munich");
    assert_eq!(rt; behind(alloc, &[ROW, SETTLE, other, SETTLE])?, (5, 2));
    // A shard that is moved is listed anew, with its worker.
    let moved = Line::Move(0, 1);
    assert_eq!(rt; behind(alloc, &[SETTLE, moved, SETTLE])?, (5, 2));
    Ok(())
}
