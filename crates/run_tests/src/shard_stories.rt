//! Phases in which shards split and move, step by step.
use crate::scripts::Line;
use crate::stories::{ASK, BEFORE, BEHIND, LOOK, PULL, Story, tell};
use library_runs::of_volap_cell::Kind;
use std::test::Fail;

/// Two servers and one worker. The sessions are the actors 0 and 1, the administrator is 3, and the hand 4.
pub(crate) const ONE_WORKER: &str =
    "volap,1\nuse,2,1,1,256\ndim,place,2\nconcept,place,de,*\nconcept,place,berlin,de\nconcept,place,munich,de\nconcept,place,hamburg,de\n";

/// Two servers and two workers. The puller is the actor 2, and the hands are 4 and 5. The first rows of Berlin, Paris and
/// Munich, in this order, go to the shards 0, 1 and 0.
pub(crate) const TWO_WORKERS: &str =
    "volap,1\nuse,2,2,1,256\ndim,place,2\nconcept,place,de,*\nconcept,place,berlin,de\nconcept,place,munich,de\nconcept,place,fr,*\nconcept,place,paris,fr\n";

/// A row of each of these.
pub(crate) const TOWNS: &[Line] = &[
    Line::Insert(0, 1, "berlin"),
    Line::Insert(0, 1, "paris"),
    Line::Insert(0, 1, "munich"),
];

/// What an insert does while its shard is frozen.
pub(crate) const QUEUE: &[Kind] = &[
    Kind::BeginInsert,
    Kind::Route,
    Kind::TakePart,
    Kind::LookUp,
    Kind::Refill,
    Kind::EnterQueue,
    Kind::Refill,
    Kind::FinishPart,
    Kind::Ack,
];

/// What an insert does, by a server that does not know yet of a split, until its part is at the child.
const TO_CHILD: &[Kind] = &[
    Kind::BeginInsert,
    Kind::Route,
    Kind::TakePart,
    Kind::Expand,
    Kind::TakePart,
];

/// What it does there until its row has come in at the root.
const ENTER: &[Kind] = &[Kind::LookUp, Kind::Refill, Kind::EnterTree];

/// What a query does, by a server that does not know yet of a split, until its second part is at the right child. It need
/// not look into the tree of the left one.
pub(crate) const BOTH: &[Kind] = &[
    Kind::BeginQuery,
    Kind::TakePart,
    Kind::Expand,
    Kind::TakePart,
    Kind::GateRead,
    Kind::FinishPart,
    Kind::TakePart,
];

/// What a query does at a part where it need not look into the tree.
pub(crate) const COUNT: &[Kind] = &[Kind::GateRead, Kind::FinishPart];

/// What it does at a part where it reads two blocks.
const READ: &[Kind] = &[
    Kind::GateRead,
    Kind::BlockVisit,
    Kind::BlockVisit,
    Kind::FinishPart,
];

/// What a query for all does, by a server that knows of two shards.
pub(crate) const ASK_BOTH: &[Kind] = &[
    Kind::BeginQuery,
    Kind::TakePart,
    Kind::GateRead,
    Kind::FinishPart,
    Kind::TakePart,
    Kind::GateRead,
    Kind::FinishPart,
    Kind::Answer,
];

/// What uses the cells of a gate that is gone again, whose tree has one block.
pub(crate) const REUSE: &[Kind] = &[Kind::Reuse, Kind::Reuse];

/// What uses those of one again whose tree has three blocks.
const REUSE_THREE: &[Kind] = &[Kind::Reuse, Kind::Reuse, Kind::Reuse, Kind::Reuse];

/// What a page of all shards does.
pub(crate) const SHOW: &[Kind] = &[Kind::Note, Kind::Note, Kind::Note];

/// What goes on beside splits and moves.
const STORIES: [Story; 5] = [
    // A shard of 33 rows moves to the other worker. The move waits for the last insert in the tree; a later one comes to the
    // queue, and goes with it. A query that has noted the old root reads the old tree, whose cells are used again only behind
    // that. One that begins behind the move is handed on to the new worker.
    Story {
        base: TWO_WORKERS,
        before: TOWNS,
        times: 16,
        phase: &[
            Line::Insert(0, 2, "berlin"),
            Line::Query(1, &["munich"]),
            Line::Move(0, 1),
            Line::Insert(0, 4, "munich"),
            Line::Query(1, &["munich"]),
            Line::Shards,
        ],
        moves: &[
            (1, LOOK),
            (0, BEFORE),
            (3, &[Kind::Note, Kind::Freeze]),
            (3, &[]),
            (1, &[Kind::BlockVisit]),
            (0, &[Kind::Down]),
            (0, BEHIND),
            (0, &[Kind::Ack]),
            (3, &[Kind::Drained, Kind::Collect, Kind::Collect]),
            (0, QUEUE),
            (3, &[Kind::Collect, Kind::Collect]),
            (3, &[Kind::BuildBlock, Kind::BuildBlock, Kind::BuildBlock]),
            (3, &[Kind::FinishMove]),
            (3, &[]),
            (1, &[Kind::BlockVisit, Kind::FinishPart, Kind::Answer]),
            (3, REUSE_THREE),
            (1, &[Kind::BeginQuery, Kind::TakePart, Kind::Forward]),
            (5, &[Kind::TakePart]),
            (5, READ),
            (1, &[Kind::Answer]),
            (3, SHOW),
        ],
        told: "0 to 1; 16 16 1 1; 17 20 1 4; 0 at 1: 33 + 1 in 2:0+1; 1 at 1: 16 + 0 in 2:2; ",
    },
    // A shard of 64 rows splits while a query has read its root: it counts each row of the old tree once. A row of Hamburg
    // that comes to the queue meanwhile is in the queue of the child with that town, and the later queries, each with a part
    // for either child, count it once.
    Story {
        base: ONE_WORKER,
        before: &[
            Line::Insert(0, 1, "berlin"),
            Line::Insert(0, 1, "munich"),
            Line::Insert(0, 1, "hamburg"),
            Line::Insert(0, 1, "munich"),
        ],
        times: 16,
        phase: &[
            Line::Query(1, &["hamburg"]),
            Line::Split(0),
            Line::Insert(0, 4, "hamburg"),
            Line::Query(1, &["hamburg"]),
            Line::Query(1, &["munich"]),
            Line::Shards,
        ],
        moves: &[
            (1, LOOK),
            (1, &[Kind::BlockVisit]),
            (3, &[Kind::Note, Kind::Freeze, Kind::Drained]),
            (3, &[Kind::Collect, Kind::Collect, Kind::Collect]),
            (0, QUEUE),
            (3, &[Kind::Collect, Kind::BuildBlock, Kind::BuildBlock]),
            (3, &[Kind::BuildBlock, Kind::BuildBlock]),
            (3, &[Kind::FinishSplit]),
            (1, &[Kind::BlockVisit, Kind::BlockVisit]),
            (1, &[Kind::FinishPart, Kind::Answer]),
            (3, REUSE_THREE),
            (1, BOTH),
            (1, READ),
            (1, &[Kind::Answer]),
            (1, BOTH),
            (1, READ),
            (1, &[Kind::Answer]),
            (3, SHOW),
        ],
        told: "0 split: 1 and 2; 16 16 1 1; 17 20 1 4; 32 32 1 1; 1 at 0: 16 + 0 in 2:0; 2 at 0: 48 + 1 in 2:1+2; ",
    },
    // Servers that know nothing of it yet send to a shard that was split, whose right child has moved then. A row comes by
    // both, and one part of a query becomes two, of which one is handed on. Behind a pull it is one part from the beginning.
    Story {
        base: TWO_WORKERS,
        before: TOWNS,
        times: 8,
        phase: &[
            Line::Split(0),
            Line::Insert(0, 2, "munich"),
            Line::Query(1, &["berlin", "munich"]),
            Line::Move(3, 1),
            Line::Insert(0, 4, "munich"),
            Line::Query(1, &["berlin", "munich"]),
            Line::Sync(1),
            Line::Query(1, &["munich"]),
            Line::Shards,
        ],
        moves: &[
            (3, &[Kind::Note, Kind::Freeze, Kind::Drained]),
            (3, &[Kind::Collect, Kind::Collect]),
            (3, &[Kind::BuildBlock, Kind::BuildBlock]),
            (3, &[Kind::FinishSplit]),
            (0, TO_CHILD),
            (0, ENTER),
            (0, BEHIND),
            (0, &[Kind::Ack]),
            (1, BOTH),
            (1, COUNT),
            (1, &[Kind::Answer]),
            (3, REUSE),
            (3, &[Kind::Note, Kind::Freeze, Kind::Drained]),
            (3, &[Kind::Collect, Kind::Collect, Kind::BuildBlock]),
            (3, &[Kind::FinishMove]),
            (0, TO_CHILD),
            (0, &[Kind::Forward]),
            (5, &[Kind::TakePart]),
            (5, ENTER),
            (5, BEHIND),
            (0, &[Kind::Ack]),
            (1, BOTH),
            (1, &[Kind::Forward]),
            (5, &[Kind::TakePart]),
            (5, COUNT),
            (1, &[Kind::Answer]),
            (2, PULL),
            (1, &[Kind::BeginQuery]),
            (5, &[Kind::TakePart]),
            (5, COUNT),
            (1, &[Kind::Answer]),
            (3, REUSE),
            (3, SHOW),
        ],
        told: "0 split: 2 and 3; by 0 3; 17 18 1 2; 3 to 1; by 0 3; 18 22 1 4; 10 14 1 4; 1 at 1: 8 + 0 in 2:2; 2 at 0: 8 + 0 in 2:0; 3 at 1: 10 + 0 in 2:1; ",
    },
    // The rows of Munich and of Hamburg come by a server that tells nobody of its shard's box before that is split. Then the
    // shard that it tells of stands no more, and whoever pulls has the boxes of the children, with all their rows.
    Story {
        base: ONE_WORKER,
        before: &[Line::Insert(0, 1, "berlin")],
        times: 8,
        phase: &[
            Line::Insert(0, 2, "munich"),
            Line::Split(0),
            Line::Insert(0, 4, "hamburg"),
            Line::Query(0, &["munich"]),
            Line::Sync(0),
            Line::Sync(1),
            Line::Query(1, &["munich", "hamburg"]),
            Line::Query(0, &["munich", "hamburg"]),
            Line::Query(1, &[]),
            Line::Query(0, &[]),
            Line::Shards,
        ],
        moves: &[
            (0, BEFORE),
            (0, BEHIND),
            (0, &[Kind::Ack]),
            (3, &[Kind::Note, Kind::Freeze, Kind::Drained]),
            (0, QUEUE),
            (3, &[Kind::Collect, Kind::Collect]),
            (3, &[Kind::BuildBlock, Kind::BuildBlock]),
            (3, &[Kind::FinishSplit]),
            (0, BOTH),
            (0, COUNT),
            (0, &[Kind::Answer]),
            (2, PULL),
            (2, PULL),
            (1, ASK),
            (0, ASK),
            (1, ASK_BOTH),
            (0, ASK_BOTH),
            (3, REUSE),
            (3, SHOW),
        ],
        told: "0 split: 1 and 2; 1 2 2 2; 2 6 2 4; 2 6 2 4; 10 14 1 4; 10 14 1 4; 1 at 0: 8 + 0 in 2:0; 2 at 0: 1 + 1 in 2:1+2; ",
    },
    // A shard moves to the worker that has it: a query whose part was taken before that reads the new gate. It has one town,
    // so it is not split.
    Story {
        base: ONE_WORKER,
        before: &[Line::Insert(0, 1, "berlin")],
        times: 8,
        phase: &[
            Line::Query(1, &[]),
            Line::Move(0, 0),
            Line::Insert(0, 2, "berlin"),
            Line::Split(0),
            Line::Query(1, &[]),
            Line::Shards,
        ],
        moves: &[
            (1, &[Kind::BeginQuery, Kind::TakePart]),
            (3, &[Kind::Note, Kind::Freeze, Kind::Drained]),
            (3, &[Kind::Collect, Kind::Collect, Kind::BuildBlock]),
            (3, &[Kind::FinishMove]),
            (1, COUNT),
            (1, &[Kind::Answer]),
            (0, BEFORE),
            (0, BEHIND),
            (0, &[Kind::Ack]),
            (3, REUSE),
            (3, &[Kind::Note, Kind::Freeze, Kind::Note]),
            (1, &[Kind::BeginQuery, Kind::TakePart]),
            (1, COUNT),
            (1, &[Kind::Answer]),
            (3, SHOW),
        ],
        told: "0 to 0; 8 8 1 1; declined; 9 10 1 2; 0 at 0: 9 + 0 in 2:0; ",
    },
];

#[test]
fn shards_split_and_move_step_by_step(rt: HostRuntime) -> Result<(), Fail> {
    for story in &STORIES {
        tell(&rt, rt.alloc(), story)?;
    }
    Ok(())
}
