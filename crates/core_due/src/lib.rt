//! What is due for an actor of the core, as a step with its cells: a function of the actor and of cells
//! alone, for all who make steps.
//!
//! `part_due` gives the step for an actor at a part, `work_due` that for its open command, `reuse_due` that
//! by which an administrator between two commands uses a cell of a gone gate again: each is its definition,
//! and takes no memory. `enter` and `descend` pick the way of a row. `awaiting` finds a server with a part
//! for a hand.
//!
//! In a state that meets the invariant what a part's step asks is so, its cells are there, and nobody else
//! must keep them where what it wants is free (`parts_prepared`); who holds the state alone can make it
//! (`parts_ready`), and where it finds no memory the part may end (`parts_end`). The same is said of commands
//! in `works_can_be_made` and of gone gates in `cells_can_be_reused`. Nothing here makes a step.
#![tactic(auto)]

mod hands;
mod laws;
mod parts;
mod reuse_laws;
mod reuses;
mod rows;
mod sights;
mod spares;
mod splits;
mod work_laws;
mod works;

pub use hands::awaiting;
pub use laws::{part_kinds, parts_end, parts_prepared, parts_ready};
pub use parts::{PartDue, ending, is_spent, last_noted, lets_in, part_due, placed_due, read_due};
pub use reuse_laws::cells_can_be_reused;
pub use reuses::reuse_due;
pub use rows::{descend, enter, next_of};
pub use sights::{cell_at, desk_at, events, is_leaf_at, map_at, where_at};
pub use spares::{last_spare, last_two};
pub use splits::split_of;
pub use work_laws::works_can_be_made;
pub use works::{WorkDue, is_empty_at, parts_due, tell_bytes, waits_for_others, work_due};

// What stands below is passed on.
pub use core_steps;
pub use core_steps::{link_descent, shard_store, volap_cell};
