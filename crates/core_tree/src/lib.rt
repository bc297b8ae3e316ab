//! The steps of rows and queries at gates and blocks.
//!
//! Of each step `made` says (`Makes` in `volap_cell`): from every state that meets the invariant and has
//! these cells and this actor, where nobody else must keep one of the cells, the step is the one defined; the
//! state afterwards meets the invariant, the history is kept or longer, and less is left to do. Where memory
//! is wanting the cells are the very ones and the actor is as it was but for its rooms (`refused`).
//!
//! `enter_tree`, `down`, `put_in_leaf` and `leave_tree` take a row to its leaf, without memory; `enter_queue`
//! puts it in the queue. `gate_read` and `block_visit` are the steps of a query, and a visit never finds want
//! of memory where there is room to note (`enough`); one for all rows is answered at the gate
//! (`all_is_read_at_the_gate`). `refill` fills the purse of an actor, and leaves it empty where too few cells
//! are free; `give_back` empties it, without memory.
#![tactic(auto)]

mod downs;
mod enters;
mod leaves;
mod puts;
mod queues;
mod reads;
mod refills;
mod visits;

pub use downs::down;
pub use enters::enter_tree;
pub use leaves::leave_tree;
pub use puts::put_in_leaf;
pub use queues::enter_queue;
pub use reads::{all_is_read_at_the_gate, gate_read};
pub use refills::{give_back, refill};
pub use visits::block_visit;

// What stands below is passed on.
pub use volap_cell;
pub use volap_cell::{link_descent, shard_build, shard_store, tree_shape};
