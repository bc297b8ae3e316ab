//! What is tested of `shard_plan`.
use shard_plan::{cells_for, leaves_for, level_laws, levels_for, parts_fit, split_need};

/// How many blocks and levels a built tree of so many rows has, and how many cells a split of them needs.
fn told(n: u64) -> Option<(u64, u32, u64)> {
    if n < 1 << 40 {
        Some((cells_for(n), levels_for(n), split_need(n)))
    } else {
        None
    }
}

#[test]
fn built_trees_have_so_many_blocks_and_levels(rt: HostRuntime) {
    parts_fit();
    level_laws();
    assert_eq!(rt; leaves_for(289), 13);
    const CASES: [(u64, u64, u32, u64); 9] = [
        (0, 1, 1, 5),
        (1, 1, 1, 5),
        (2, 1, 1, 5),
        (24, 1, 1, 5),
        (25, 3, 2, 9),
        (288, 13, 2, 19),
        (289, 16, 3, 24),
        (2000, 92, 3, 100),
        (3457, 161, 4, 171),
    ];
    for (n, cells, levels, need) in &CASES {
        assert_eq!(rt; told(*n), Some((*cells, *levels, *need)));
    }
}
