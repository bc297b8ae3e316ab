//! Phases of scripts over halls.
use crate::judge::{Counts, judged};
use crate::meets::{ByHand, Together};
use crate::runs::{events_of, run_script};
use crate::scripts::{BEFORE, CLOSINGS, QUERIES, ROUNDS, ROWS, all_rounds, groups, two_queries};
use crate::told::shown;
use script_form::Script;
use std::alloc::Global;
use std::process::Abort;
use std::test::Fail;

/// Stops unless the history of all rounds has all that was to be done, and each answer and page is one that it allows.
fn check<R: Abort>(rt: &R, counts: &Counts) {
    let settles = ROUNDS / CLOSINGS;
    assert_eq!(rt; counts.faults, 0);
    assert_eq!(rt; counts.inserts, ROUNDS * ROWS);
    assert_eq!(rt; counts.answers, ROUNDS * QUERIES + 2 * settles);
    assert!(rt; counts.exact >= 2 * settles);
    assert_eq!(rt; counts.ends, counts.calls);
    assert_eq!(rt; counts.settles, settles);
    assert_eq!(rt; counts.audits, settles);
    assert_eq!(rt; counts.lists, settles);
    assert_eq!(rt; counts.groups, settles);
    assert!(rt; counts.splits >= 1);
    assert!(rt; counts.moves >= 2);
}

#[test]
fn phases_answer_what_their_history_allows(rt: HostRuntime) -> Result<(), Fail> {
    let alloc = rt.alloc();
    let script = all_rounds(alloc)?;
    let state = run_script(&rt, alloc, script, 0, &volap_io::Quiet)?;
    let counts = judged(alloc, events_of(&state));
    drop(state);
    check(&rt, &counts?);
    Ok(())
}

// Each of two queries of a phase is held until the other one is held as well. Where the commands of a phase went one after the
// other, the first would wait in vain: so the calls of two sessions are open at the same time.
#[test]
fn two_queries_of_a_phase_are_open_at_once(rt: HostRuntime) -> Result<(), Fail> {
    let alloc = rt.alloc();
    let meet = Together::new();
    let state = run_script(&rt, alloc, two_queries(alloc)?, BEFORE, &meet)?;
    let counts = judged(alloc, events_of(&state));
    drop(state);
    let counts = counts?;
    assert!(rt; meet.is_met());
    assert_eq!(rt; counts.faults, 0);
    assert_eq!(rt; counts.exact, 2);
    Ok(())
}

// No query looks for a part of its own before a hand has done one: so the hands of a phase serve.
#[test]
fn hands_do_parts_of_queries_in_a_phase(rt: HostRuntime) -> Result<(), Fail> {
    let alloc = rt.alloc();
    let meet = ByHand::new();
    let state = run_script(&rt, alloc, two_queries(alloc)?, BEFORE, &meet)?;
    let counts = judged(alloc, events_of(&state));
    drop(state);
    let counts = counts?;
    assert!(rt; meet.is_met());
    assert_eq!(rt; counts.faults, 0);
    assert_eq!(rt; counts.exact, 2);
    Ok(())
}

/// What the groups are to show.
const GROUPS: &str =
    "1:0 has 3 of -13; 1:1 has 1 of 8; 1:3 has 1 of 4; all 5 of -1; 2:0 has 2 of -15; 2:1 has 1 of 2; all 3 of -13; all 0 of 0; unknown 0; ";

// The rows of the first phase go in by two servers in any order, and its group is of all of them.
#[test]
fn groups_that_close_phases_show_their_lines(rt: HostRuntime) -> Result<(), Fail> {
    let alloc = rt.alloc();
    let state = run_script(&rt, alloc, groups(alloc)?, 0, &volap_io::Quiet)?;
    let text = shown(alloc, events_of(&state));
    drop(state);
    assert_eq!(rt; text?.as_str(), GROUPS);
    Ok(())
}
