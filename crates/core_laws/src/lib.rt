//! Laws of the core's states: what follows of the invariant of one state, and of two states with a step
//! between them. No kind of step rests on them.
//!
//! All of it is functions without code. A step that finishes a split or a move leaves the rows of the shards
//! that stand as they were, each once (`finished_splits_and_moves_leave_the_rows`). Each acknowledged row is
//! in one shard that stands, once, which is the last of its path or comes from it
//! (`acknowledged_rows_stay_in_line`). What the parts of an open query have read is the aggregate of the rows
//! counted for them, none of them twice (`queries_meet_each_row_once`). Where nobody has spares or a job and
//! no gate is gone, each cell of the stock is free, once, or has one use in a shard that stands
//! (`each_cell_has_one_use`).
//!
//! They say nothing of states that do not meet the invariant of `volap_cell`.
#![tactic(auto)]

pub mod laws;

// What stands below is passed on.
pub use core_tree::volap_cell;
