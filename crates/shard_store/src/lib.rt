//! Shards as a worker keeps them: the gate, which leads to a tree and has a queue beside it.
//!
//! `Gate::new` is open, with nobody inside and an empty queue. `enqueue` adds a row, after which the
//! aggregate and the set of the queue are those of its rows (`ok`, `IsQueueOf`), and is refused only for want
//! of memory: then nothing changes (`err`). `leave` counts one inserter less. `freeze` sends inserts to the
//! queue from now on; a frozen gate is frozen anew at the length that its queue has now. `drained` is fine
//! exactly where no inserter is inside (`ok`), and else tells how many are (`err`). `retire` asks for a gate
//! that is frozen and drained, and hands its queue out (`queue`); root, stamp, height, aggregate and set stay
//! as they were, for the queries that noted the root (`gone`).
//!
//! The tree itself stands in cells beside the gate, and nothing is said of it here.
#![tactic(auto)]

mod gate;
mod queue;

pub use gate::{Gate, NotYet, Phase};
pub use queue::{CellList, Queue, RowList};
