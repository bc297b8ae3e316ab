//! The steps of queries and inserts on blocks: a visit, and the way of a row down a tree, with the division
//! of full blocks.
//!
//! `visit` counts exactly the matching rows of a leaf, or the aggregates of exactly the entries inside the
//! filter (`agg`), and notes exactly the other entries that overlap it, then the right link where the walk
//! goes on (`todo`). `read_gate` adds what a query takes of queue and tree, and notes the root where it has
//! to be visited. `pick` is the entry that comes first for a coordinate, of which there is one (`first`,
//! `only`). `enter_root` and `step_down` take a row in and down, and divide a full head: by the good cut, by
//! the good head cut where its group has two or three blocks, else by halves (`step`: `Enters`, `StepsDown`).
//! `pass_root` and `pass_down` are these where the block below has room; `put_leaf` appends the row. No step
//! takes memory: each asks for spares, blanks or room for notes, and uses two boxes for each new block at
//! most. That these steps keep a tree and a query right is said in `tree_shape`.
#![tactic(auto)]

mod choice;
mod cuts;
mod descend;
mod divide;
mod entered;
mod gate_reads;
mod groups;
mod item_sets;
mod tail;
mod visits;

pub use choice::pick;
pub use descend::{enter_root, entry_of, pass_down, pass_root, put_leaf, step_down};
pub use entered::{Entered, Fresh};
pub use gate_reads::read_gate;
pub use item_sets::ItemSets;
pub use tail::Tail;
pub use visits::{MOST_NOTED, visit};

// What stands below is passed on.
pub use shard_store;
