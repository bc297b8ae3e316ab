//! What is tested of `shard_store`.
ghost use Rattle.std.specs.Prelude.{◌≡◌, ◌<◌, length, OnOk};
ghost use Rattle.dim_hierarchy.specs.Rows.{IsRowOf};
ghost use Rattle.core_pages.specs.shard_store.specs.Gate.{IsQueueOf};
ghost use Rattle.core_pages.specs.shard_store.specs.declared.gate.Phase as Phase;

use crate::fixtures::{PLACES, hierarchy, row};
use core_pages::shard_store::{Gate, NotYet, Phase};
use describing_set::DescSet;
use dim_hierarchy::{Hierarchy, Row};
use measure_agg::Agg;
use std::alloc::{AllocError, Global};
use std::process::Abort;
use std::test::Fail;

/// Adds a row to a queue of few rows.
fn enqueue<R: Abort>(rt: &R, h: &Hierarchy, gate: &mut Gate, row: &Row) -> Result<(), AllocError>
    requires row { IsRowOf h.now row.now }
    requires queue { IsQueueOf h.now gate.old.queue }
    ensures queue { OnOk result (IsQueueOf h.now gate.new.queue) }
{
    let count = gate.queue.agg.count();
    assert!(rt; count < 9);
    gate.enqueue(h, row)
}

/// Compares an empty queue after one row and after two more.
fn expect_queues<R: Abort>(
    rt: &R,
    alloc: Global,
    h: &Hierarchy,
    gate: &mut Gate,
) -> Result<(), Fail>
    requires dims { length h.now ≡ 1 }
    requires queue { IsQueueOf h.now gate.old.queue }
{
    assert!(rt; gate.queue.rows.is_empty());
    let first = row(alloc, h, 0, "a", 5)?;
    enqueue(rt, h, gate, &first)?;
    assert_eq!(rt; gate.queue.agg.count(), 1);
    assert_eq!(rt; gate.queue.set, DescSet::of_coord(h, &first.at));

    let second = row(alloc, h, 0, "b", -7)?;
    enqueue(rt, h, gate, &second)?;
    enqueue(rt, h, gate, &first)?;
    let rows = gate.queue.rows.as_slice();
    assert_eq!(rt; rows, [first, second, first].as_slice());
    assert_eq!(rt; gate.queue.agg, Agg::of_rows(rows));
    assert_eq!(rt; gate.queue.set.size(h), 2);
    Ok(())
}

#[test]
fn keeps_rows_in_the_queue(rt: HostRuntime) -> Result<(), Fail> {
    let alloc = rt.alloc();
    let h = hierarchy(alloc, &PLACES)?;
    let mut gate = Gate::new(alloc, &h, 7, 3, 9, 1, Agg::EMPTY, DescSet::empty(&h));
    assert_eq!(rt; gate.phase, Phase::Open);
    expect_queues(&rt, alloc, &h, &mut gate)?;
    assert_eq!(rt; gate.agg, Agg::EMPTY);
    Ok(())
}

#[test]
fn an_inserter_leaves(rt: HostRuntime) {
    let alloc = rt.alloc();
    let h = Hierarchy::new(alloc);
    let mut gate = Gate::new(alloc, &h, 0, 0, 0, 1, Agg::EMPTY, DescSet::empty(&h));
    gate.active = 2;
    gate.leave();
    assert_eq!(rt; gate.active, 1);
}

/// A new gate is frozen while an inserter is inside, and again when a row has come and the inserter
/// has left.
fn freezes<R: Abort>(rt: &R, h: &Hierarchy, gate: &mut Gate, row: &Row) -> Result<(), AllocError>
    requires row { IsRowOf h.now row.now }
    requires few { gate.old.queue.agg.count < 9 }
    requires open { gate.old.phase ≡ Phase.Open }
    requires idle { gate.old.active ≡ 0 }
    requires queue { IsQueueOf h.now gate.old.queue }
    ensures phase { OnOk result (gate.new.phase ≡ Phase.Frozen (length gate.new.queue.rows)) }
    ensures idle { OnOk result (gate.new.active ≡ 0) }
    ensures pins { OnOk result (gate.new.pins ≡ gate.old.pins) }
{
    gate.active += 1;
    gate.freeze();
    assert_eq!(rt; gate.phase, Phase::Frozen { upto: 0 });
    assert_eq!(rt; gate.drained(), Err(NotYet { active: 1 }));
    gate.enqueue(h, row)?;
    gate.leave();
    gate.freeze();
    assert_eq!(rt; gate.phase, Phase::Frozen { upto: 1 });
    assert_eq!(rt; gate.drained(), Ok(()));
    Ok(())
}

#[test]
fn a_frozen_gate_is_frozen_anew_and_retired(rt: HostRuntime) -> Result<(), Fail> {
    let alloc = rt.alloc();
    let h = hierarchy(alloc, &PLACES)?;
    let row = row(alloc, &h, 0, "a", 5)?;
    let mut gate = Gate::new(alloc, &h, 7, 3, 9, 2, Agg::one(1), DescSet::empty(&h));
    freezes(&rt, &h, &mut gate, &row)?;
    gate.pins = 1;
    let queue = gate.retire(alloc, &h);
    assert_eq!(rt; queue.rows.as_slice(), [row].as_slice());
    assert_eq!(rt; gate.phase, Phase::Gone);
    assert!(rt; gate.queue.rows.is_empty());
    assert_eq!(rt;
        (gate.root, gate.stamp, gate.height, gate.pins),
        (3, 9, 2, 1)
    );
    assert_eq!(rt; gate.agg, Agg::one(1));
    Ok(())
}
