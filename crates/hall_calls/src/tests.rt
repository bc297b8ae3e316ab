//! Two sessions at work at the same time.
ghost use Rattle.std.specs.Prelude.{◌≡◌, ◌≤◌, All, IfOk, length};
ghost use Rattle.dim_hierarchy.specs.Names.{IsNamePick};

use crate::{Places, Told, count_on_two_threads};
use actor_run::Asked;
use actor_run::of_volap_cell::{Cell, State};
use dim_hierarchy::{Hierarchy, Name, NameFilter, NamePick, Names, RowNames};
use row_ledger::Event;
use std::alloc::{AllocError, Global};
use std::test::Fail;

/// A dimension with two towns.
fn towns(alloc: Global) -> Result<Hierarchy, Fail>
    ensures { IfOk result (λ h. length h ≡ 1) }
{
    let mut h = Hierarchy::new(alloc);
    let Ok(dim) = h.add_dim(&Name::from_bytes(alloc, b"town")?, 1) else {
        return Err("there is room for a dimension".into());
    };
    let Ok(_) = h.add_concept(dim, &Name::from_bytes(alloc, b"berlin")?, None) else {
        return Err("there is room for a town".into());
    };
    let Ok(_) = h.add_concept(dim, &Name::from_bytes(alloc, b"munich")?, None) else {
        return Err("there is room for a town".into());
    };
    if h.dims() != 1 {
        return Err("there is one dimension".into());
    }
    Ok(h)
}

/// The row of a town.
fn row(alloc: Global, town: &[u8]) -> Result<RowNames, Fail>
    requires { length town.now ≤ 255 }
    ensures { IfOk result (λ names. length names ≡ 1) }
{
    let mut names = RowNames::new(alloc);
    names.push(town)?;
    Ok(names)
}

/// The question for all rows.
fn all_rows(alloc: Global) -> Result<NameFilter, AllocError>
    ensures { IfOk result (λ picks. (length picks ≡ 1) × All IsNamePick picks) }
{
    let mut all = NameFilter::new(alloc);
    all.push(NamePick::All)?;
    Ok(all)
}

/// The question for the rows of a town.
fn rows_of(alloc: Global, town: &[u8]) -> Result<NameFilter, AllocError>
    ensures one { IfOk result (λ picks. length picks ≡ 1) }
    ensures some { IfOk result (All IsNamePick) }
{
    let mut names = Names::new(alloc);
    names.push(Name::from_bytes(alloc, town)?)?;
    let mut picks = NameFilter::new(alloc);
    picks.push(NamePick::Any(names))?;
    Ok(picks)
}

/// How many inserts were acknowledged, by the history of a state.
fn acked_in(state: &State) -> u64 {
    let Some(Some(Cell::Ledger(ledger))) = state.cells.first() else {
        return 0;
    };
    let mut count = 0u64;
    for event in ledger.events() {
        if let Event::Acked { .. } = event {
            count = count.saturating_add(1);
        }
    }
    count
}

/// How many rows were counted.
fn counted(told: &Told) -> Option<u64> {
    match told.answer {
        Asked::Answer { agg, .. } => Some(agg.count()),
        _ => None,
    }
}

#[test]
fn each_session_counts_its_own_rows_at_least(rt: HostRuntime) -> Result<(), Fail> {
    let alloc = rt.alloc();
    let berlin = row(alloc, b"berlin")?;
    let munich = row(alloc, b"munich")?;
    let all = all_rows(alloc)?;
    let places = Places {
        one: &berlin,
        other: &munich,
        asked: &all,
    };
    let (state, one, other) = count_on_two_threads(&rt, alloc, towns(alloc)?, 2000, &places, 100)?;
    for told in [one, other] {
        assert_eq!(rt; told.acked, 100);
        let Some(count) = counted(&told) else {
            panic!(rt; "there is an answer");
        };
        assert!(rt; 100 <= count && count <= 200);
    }
    assert_eq!(rt; acked_in(&state), 200);
    Ok(())
}

#[test]
fn steps_are_few_for_all_rows_and_some_for_a_town(rt: HostRuntime) -> Result<(), Fail> {
    let alloc = rt.alloc();
    let one = &row(alloc, b"berlin")?;
    let other = &row(alloc, b"munich")?;
    let all = &all_rows(alloc)?;
    let town = &rows_of(alloc, b"munich")?;
    let places = Places {
        one,
        other,
        asked: all,
    };
    let (_, first, second) = count_on_two_threads(&rt, alloc, towns(alloc)?, 2000, &places, 33)?;
    // A worker that never had more than one shard: its table and the gate.
    assert!(rt; first.steps <= 4 && second.steps <= 4);
    let places = Places {
        one,
        other,
        asked: town,
    };
    let (_, first, second) = count_on_two_threads(&rt, alloc, towns(alloc)?, 2000, &places, 33)?;
    assert!(rt; 2 <= first.steps && 2 <= second.steps);
    Ok(())
}
