//! Phases by seeds, beside a plain reading of what their answers must and may count and their groups must tell.
use crate::bounds::{Tally, judge_all};
use crate::chance::{Dice, lines};
use crate::runs::{events, run_script};
use crate::scripts::{Line, script};
use library_runs::of_seeded_run::Schedule;
use std::alloc::{AllocError, Global};
use std::test::Fail;

/// Two servers, and two workers of two hands each. Of the second level's names each has the country beneath which it lies.
const WORLD: &str =
    "volap,1\nuse,2,2,2,64\ndim,place,2\nconcept,place,c0,*\nconcept,place,c1,*\nconcept,place,t0,c0\nconcept,place,t1,c1\nconcept,place,t2,c0\nconcept,place,t3,c1\nconcept,place,t4,c0\nconcept,place,t5,c1\nconcept,place,t6,c0\nconcept,place,t7,c1\nconcept,place,t8,c0\nconcept,place,t9,c1\n";

/// Three phases, and pages of groups and of a tree.
const PHASES: [Line; 30] = [
    Line::Insert(0, 1, "t0"),
    Line::Query(1, &[]),
    Line::Insert(1, 2, "t1"),
    Line::Query(0, &[]),
    Line::Query(1, &[]),
    Line::Insert(0, 4, "t2"),
    Line::Query(0, &["c0"]),
    Line::Query(1, &["c1"]),
    Line::Insert(1, 5, "nowhere"),
    Line::Query(0, &["nowhere"]),
    Line::Sync(0),
    Line::Insert(1, 8, "t3"),
    Line::Query(1, &["t1", "t3"]),
    Line::Settle,
    Line::Query(0, &[]),
    Line::Query(1, &[]),
    Line::Insert(0, 16, "t0"),
    Line::Insert(1, 32, "t1"),
    Line::Sync(1),
    Line::Insert(1, 64, "t0"),
    Line::Query(0, &["t0"]),
    Line::Query(1, &["c1"]),
    Line::Sync(0),
    Line::Barrier,
    Line::Query(0, &[]),
    Line::Query(1, &[]),
    Line::Group(2, &[]),
    Line::Group(1, &["t0", "t3"]),
    Line::Group(2, &["c1", "nowhere"]),
    Line::Tree(0),
];

/// What is found of the answers and groups to lines.
fn tally(alloc: Global, lines: &[Line], schedule: &mut Schedule) -> Result<Tally, AllocError> {
    let script = script(alloc, WORLD, lines)?;
    let state = run_script(alloc, &script, schedule)?;
    Ok(judge_all(events(&state)))
}

/// What is found of the answers and groups to lines by each of these seeds.
fn by_seeds(alloc: Global, lines: &[Line], seeds: u64) -> Result<Tally, AllocError> {
    let mut found = Tally::NONE;
    for seed in 0..seeds {
        let one = tally(alloc, lines, &mut Schedule::seeded(seed))?;
        found = found.join(&one);
    }
    Ok(found)
}

/// What is found of the answers and groups to so many scripts by chance, of five phases each.
fn by_chance(alloc: Global, scripts: u64) -> Result<Tally, AllocError> {
    let dice = &mut Dice::new(1, 1);
    let mut found = Tally::NONE;
    for seed in 0..scripts {
        let lines = lines(alloc, dice, 5, 14)?;
        let one = tally(alloc, &lines, &mut Schedule::seeded(seed))?;
        found = found.join(&one);
    }
    Ok(found)
}

#[test]
fn phases_by_a_hundred_seeds(rt: HostRuntime) -> Result<(), Fail> {
    let alloc = rt.alloc();
    let found = by_seeds(alloc, &PHASES, 100)?;
    assert_eq!(rt; (found.answers, found.groups), (1200, 200));
    assert_eq!(rt; (found.wrong, found.starved), (0, 0));
    assert!(rt; found.loose > 0);
    Ok(())
}

#[test]
fn a_thousand_phases_by_chance(rt: HostRuntime) -> Result<(), Fail> {
    let alloc = rt.alloc();
    let found = by_chance(alloc, 200)?;
    assert_eq!(rt; (found.wrong, found.starved), (0, 0));
    assert!(rt; found.loose > 1000);
    assert!(rt; found.groups > 100);
    assert!(rt; found.splits > 100);
    assert!(rt; found.moves > 100);
    Ok(())
}
