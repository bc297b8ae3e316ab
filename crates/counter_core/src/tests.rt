//! Cells under turns, with three counters as their core.
ghost use Rattle.std.specs.Prelude.{◌≡◌, ◌<◌, ℕ, [], false};
ghost use mathlib.Core.Option.{some};
ghost use Rattle.turn_table.specs.Numbered.{value_of};
ghost use Rattle.turn_table.specs.Seat.{cell_count};

use crate::{Counters, transfer};
use std::sync::Wait;
use std::test::Fail;
use std::thread::{join, sleep};
use std::time::{Clock, Duration};
use turn_table::{Held, Seat, TurnTable};

/// Thousands of transfers up and down between two counters.
fn work<R: Wait>(
    rt: &R,
    table: &TurnTable<Counters>,
    mut seat: Seat<Counters>,
    number: u32,
    low: u32,
    high: u32,
) -> Seat<Counters>
    requires own { seat.table_id ≡ table.now }
    requires cells { (low < high) × (high < cell_count table.now) }
    requires bare { (seat.view.held ≡ []) × (seat.ranks ≡ []) × (seat.lifted ≡ false) }
    requires actor { value_of seat.view.actors number ≡ some 0 }
    ensures own { result.table_id ≡ seat.table_id }
    ensures bare { (result.view.held ≡ []) × (result.lifted ≡ false) }
    ensures actors { (result.view.actors ≡ seat.view.actors) × (result.view.actor_count ≡ seat.view.actor_count) }
{
    for _ in 0..2000 {
        transfer(rt, table, &mut seat, number, low, high, true);
        transfer(rt, table, &mut seat, number, low, high, false);
    }
    seat
}

#[test]
fn two_threads_keep_the_sum(rt: HostRuntime) -> Result<(), Fail> {
    let cells = vec![in rt.alloc(); 10u64, 10, 10]?;
    let actors = vec![in rt.alloc(); 0u64, 0]?;
    let (table, mut seat) = TurnTable::<Counters>::new(rt.alloc(), cells, &actors)?;
    assert_eq!(rt; table.len(), 3);

    let other = table.split_seat(&mut seat, 0);
    let (mut seat, other) = join(
        &rt,
        || work(&rt, &table, seat, 1, 0, 1),
        || work(&rt, &table, other, 0, 1, 2),
    );
    table.join_seat(&mut seat, other);
    let mut sum = 0u64;
    for cell in table.close(seat) {
        sum = sum.saturating_add(cell.unwrap_or(0));
    }
    assert_eq!(rt; sum, 30);
    Ok(())
}

/// A second seat gets each free cell, and at a held one it reads the word of its holder.
#[test]
fn a_held_cell_is_busy_and_others_are_free(rt: HostRuntime) -> Result<(), Fail> {
    let cells = vec![in rt.alloc(); 10u64, 10, 10]?;
    let actors = vec![in rt.alloc(); 0u64, 0]?;
    let (table, mut seat) = TurnTable::<Counters>::new(rt.alloc(), cells, &actors)?;
    let mut other = table.split_seat(&mut seat, 0);
    assert!(rt; table.try_take(&mut seat, 1).is_ok());
    match table.try_take(&mut other, 1) {
        Ok(()) => return Err("a held cell is busy".into()),
        Err(busy) => assert_eq!(rt; (busy.cell, busy.word), (1, 2)),
    }
    assert!(rt; table.try_take(&mut other, 0).is_ok());
    assert!(rt; table.try_take(&mut other, 2).is_ok());
    Ok(())
}

/// Whichever held cell is looked at, its value is the one that it has, and the cells stay in the order of the takes.
#[test]
fn held_cells_are_seen_where_they_stand(rt: HostRuntime) -> Result<(), Fail> {
    let cells = vec![in rt.alloc(); 10u64, 15, 5]?;
    let actors = vec![in rt.alloc(); 0u64]?;
    let (table, mut seat) = TurnTable::<Counters>::new(rt.alloc(), cells, &actors)?;
    table.take(&rt, &mut seat, 0, 0);
    table.take(&rt, &mut seat, 1, 0);
    table.take(&rt, &mut seat, 2, 0);
    assert_eq!(rt; *seat.see(&table, 2), 5);
    assert_eq!(rt; *seat.see(&table, 0), 10);
    assert_eq!(rt; *seat.see(&table, 1), 15);
    table.release(&mut seat, 1);
    assert_eq!(rt; *seat.see(&table, 2), 5);
    let Some((first, others)) = table.lift(&mut seat).split_first() else {
        return Err("a held cell is missing".into());
    };
    assert_eq!(rt; first, (0, 10));
    let Some((second, others)) = others.split_first() else {
        return Err("a held cell is missing".into());
    };
    assert_eq!(rt; second, (2, 5));
    Ok(())
}

/// Cells stand in the order that is asked for.
#[test]
fn cells_are_arranged_by_number(rt: HostRuntime) -> Result<(), Fail> {
    let cells = Held::of_two((4, 10u64), (2, 5)).arranged(&[2, 4]);
    assert_eq!(rt; cells.two(), ((2, 5), (4, 10)));
    Ok(())
}

/// Holds the first cell until another thread is likely to sleep over it, and gives it back.
fn hold_for_long<R: Wait + Clock>(rt: &R, table: &TurnTable<Counters>, mut seat: Seat<Counters>)
    requires own { seat.table_id ≡ table.now }
    requires held { (c : ℕ) × (value_of seat.view.held 0 ≡ some c) }
    requires home { seat.lifted ≡ false }
{
    sleep(rt, Duration::from_millis(50));
    table.release(&mut seat, 0);
}

/// Gets the first cell at last.
fn wait_for_the_first<R: Wait>(rt: &R, table: &TurnTable<Counters>, mut seat: Seat<Counters>)
    requires own { (seat.table_id ≡ table.now) × (0 < cell_count table.now) }
    requires bare { (seat.view.held ≡ []) × (seat.ranks ≡ []) × (seat.lifted ≡ false) }
{
    table.take(rt, &mut seat, 0, 0);
}

/// A thread that sleeps over a held cell is woken when the cell is given back.
#[test]
fn who_sleeps_over_a_held_cell_is_woken(rt: HostRuntime) -> Result<(), Fail> {
    let cells = vec![in rt.alloc(); 10u64, 10, 10]?;
    let actors = vec![in rt.alloc(); 0u64, 0]?;
    let (table, mut seat) = TurnTable::<Counters>::new(rt.alloc(), cells, &actors)?;
    let other = table.split_seat(&mut seat, 0);
    table.take(&rt, &mut seat, 0, 0);
    join(
        &rt,
        || hold_for_long(&rt, &table, seat),
        || wait_for_the_first(&rt, &table, other),
    );
    Ok(())
}
