//! Phases in which jobs are given up, step by step, as where they find no memory.
use crate::scripts::Line;
use crate::shard_stories::{
    ASK_BOTH, BOTH, COUNT, ONE_WORKER, QUEUE, REUSE, SHOW, TOWNS, TWO_WORKERS,
};
use crate::stories::{ASK, BEFORE, BEHIND, Story, tell};
use library_runs::of_volap_cell::Kind;
use std::test::Fail;

/// What the administrator does until it begins to collect.
const BEGIN: &[Kind] = &[Kind::Note, Kind::Freeze, Kind::Drained];

/// What it does until it has made a new tree of one block of an old one that has one block.
const BUILD: &[Kind] = &[Kind::Collect, Kind::Collect, Kind::BuildBlock];

/// What a balance does that plans a job.
const PLAN: &[Kind] = &[Kind::Note, Kind::LookUp, Kind::LookUp];

/// Jobs that are given up, and what goes on beside them.
const STORIES: [Story; 3] = [
    // A split is given up before it reads a block. A row comes to the queue, a query counts it there, and a second split
    // collects it.
    Story {
        base: ONE_WORKER,
        before: &[Line::Insert(0, 5, "berlin"), Line::Insert(0, 7, "munich")],
        times: 1,
        phase: &[
            Line::Split(0),
            Line::Insert(0, 9, "berlin"),
            Line::Query(1, &[]),
            Line::Split(0),
            Line::Query(1, &[]),
            Line::Shards,
        ],
        moves: &[
            (3, BEGIN),
            (3, &[Kind::Postpone]),
            (0, QUEUE),
            (1, ASK),
            (3, BEGIN),
            (3, &[Kind::Collect]),
            (3, BUILD),
            (3, &[Kind::BuildBlock, Kind::FinishSplit]),
            (1, BOTH),
            (1, COUNT),
            (1, &[Kind::Answer]),
            (3, REUSE),
            (3, SHOW),
        ],
        told: "postponed; 3 21 5 9; 0 split: 1 and 2; 3 21 5 9; 1 at 0: 2 + 0 in 2:0; 2 at 0: 1 + 0 in 2:1; ",
    },
    // Two splits and a move are given up, each later than the one before it, while rows come to the queue. The last move
    // collects them.
    Story {
        base: TWO_WORKERS,
        before: TOWNS,
        times: 8,
        phase: &[
            Line::Split(0),
            Line::Split(0),
            Line::Insert(0, 2, "munich"),
            Line::Move(0, 1),
            Line::Query(1, &["berlin", "munich"]),
            Line::Insert(0, 4, "munich"),
            Line::Move(0, 1),
            Line::Query(1, &["berlin", "munich"]),
            Line::Shards,
        ],
        moves: &[
            (3, BEGIN),
            (3, &[Kind::Collect, Kind::Postpone]),
            (3, BEGIN),
            (3, BUILD),
            (3, &[Kind::BuildBlock, Kind::Postpone]),
            (0, QUEUE),
            (3, BEGIN),
            (3, &[Kind::Collect]),
            (3, BUILD),
            (3, &[Kind::Postpone]),
            (1, ASK),
            (0, QUEUE),
            (3, BEGIN),
            (3, &[Kind::Collect, Kind::Collect]),
            (3, BUILD),
            (3, &[Kind::FinishMove]),
            (1, &[Kind::BeginQuery, Kind::TakePart, Kind::Forward]),
            (5, &[Kind::TakePart]),
            (5, COUNT),
            (1, &[Kind::Answer]),
            (3, REUSE),
            (3, SHOW),
        ],
        told: "postponed; postponed; postponed; 17 18 1 2; 0 to 1; 18 22 1 4; 0 at 1: 18 + 0 in 2:0+1; 1 at 1: 8 + 0 in 2:2; ",
    },
    // A balance plans the split of a shard that has one town, and leaves it. With a row of another town the next one plans
    // it too, and leaves it where it is given up. The third one splits it.
    Story {
        base: TWO_WORKERS,
        before: &[Line::Insert(0, 1, "berlin")],
        times: 64,
        phase: &[
            Line::Insert(0, 2, "paris"),
            Line::Balance(4),
            Line::Insert(0, 4, "munich"),
            Line::Balance(4),
            Line::Query(0, &[]),
            Line::Balance(4),
            Line::Shards,
        ],
        moves: &[
            (0, BEFORE),
            (0, BEHIND),
            (0, &[Kind::Ack]),
            (3, PLAN),
            (3, &[Kind::Freeze, Kind::Note, Kind::Note]),
            (0, BEFORE),
            (0, BEHIND),
            (0, &[Kind::Ack]),
            (3, PLAN),
            (3, &[Kind::Freeze, Kind::Drained]),
            (3, &[Kind::Postpone, Kind::Note]),
            (0, ASK_BOTH),
            (3, PLAN),
            (3, &[Kind::Freeze, Kind::Drained]),
            (3, &[Kind::Collect, Kind::Collect, Kind::Collect]),
            (3, &[Kind::Collect, Kind::Collect]),
            (3, &[Kind::BuildBlock, Kind::BuildBlock, Kind::BuildBlock]),
            (3, &[Kind::BuildBlock, Kind::BuildBlock]),
            (3, &[Kind::FinishSplit, Kind::Note]),
            (3, &[Kind::Reuse, Kind::Reuse, Kind::Reuse]),
            (3, REUSE),
            (3, SHOW),
        ],
        told: "0 left: declined; balanced 0 of 1; 0 left: postponed; balanced 0 of 1; 66 70 1 4; 0 split: 2 and 3; balanced 1 of 1; 1 at 1: 1 + 0 in 2:2; 2 at 0: 64 + 0 in 2:0; 3 at 0: 1 + 0 in 2:1; ",
    },
];

#[test]
fn jobs_are_given_up_step_by_step(rt: HostRuntime) -> Result<(), Fail> {
    for story in &STORIES {
        tell(&rt, rt.alloc(), story)?;
    }
    Ok(())
}
