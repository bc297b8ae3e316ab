//! What is tested of `balancer`.
ghost use Rattle.std.specs.Prelude.{◌^◌, ◌<◌, IsTrue};
ghost use Rattle.balancer.specs.Turn.{rows_of_all};

use balancer::{Action, Load, plan};
use std::test::Fail;

/// A shard on a worker, and its rows.
fn load(shard: u32, worker: u8, rows: u64) -> Load {
    Load {
        shard,
        worker,
        rows,
    }
}

/// A shard is moved to a worker.
fn moved(shard: u32, worker: u8) -> Action {
    Action::Move { shard, worker }
}

/// A shard is split.
fn split(shard: u32) -> Action {
    Action::Split { shard }
}

/// Whether the rows add up, as a plan asks.
fn rows_add_up(loads: &[Load]) -> bool
    ensures { IsTrue result → rows_of_all loads.now < 2 ^ 63 }
{
    let mut rows: u64 = 0;
    for load in loads {
        let Some(more) = rows.checked_add(load.rows) else {
            return false;
        };
        rows = more;
    }
    rows < 1 << 63
}

#[test]
fn plans_and_their_loads(rt: HostRuntime) -> Result<(), Fail> {
    let cases: [(&[Load], u8, u8, &[Action]); 11] = [
        (&[], 2, 4, &[]),
        (&[], 0, 4, &[]),
        (
            &[load(0, 0, 100), load(2, 0, 40), load(1, 1, 20)],
            2,
            4,
            &[moved(2, 1), split(0)],
        ),
        (
            &[load(0, 0, 100), load(2, 0, 40), load(1, 1, 20)],
            2,
            1,
            &[moved(2, 1)],
        ),
        // A gap of 32 is left, one of 33 is not.
        (&[load(0, 0, 16), load(2, 0, 16), load(1, 1, 0)], 2, 4, &[]),
        (
            &[load(0, 0, 16), load(2, 0, 17), load(1, 1, 0)],
            2,
            4,
            &[moved(0, 1)],
        ),
        // 64 rows are enough for a split, 63 are not.
        (&[load(0, 0, 64), load(1, 1, 0)], 2, 4, &[split(0)]),
        (&[load(0, 0, 63), load(1, 1, 0)], 2, 4, &[]),
        // Ties go to the lower number, of workers and of shards, whatever the order of the loads.
        (
            &[
                load(9, 1, 50),
                load(8, 1, 50),
                load(7, 2, 50),
                load(6, 2, 50),
            ],
            4,
            1,
            &[moved(8, 0)],
        ),
        (
            &[load(5, 0, 90), load(3, 0, 90), load(4, 1, 170)],
            3,
            2,
            &[moved(3, 2), split(4)],
        ),
        // A shard without rows is not moved, and a split ends the plan.
        (&[load(0, 0, 0), load(1, 0, 70)], 2, 16, &[split(1)]),
    ];
    for (loads, workers, n, actions) in &cases {
        assert!(rt; rows_add_up(loads));
        let planned = plan(rt.alloc(), loads, *workers, *n)?;
        assert_eq!(rt; planned.as_slice(), *actions);
    }
    Ok(())
}
