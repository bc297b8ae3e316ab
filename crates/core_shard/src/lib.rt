//! The steps of parts between desks, tables of shards and gates.
//!
//! Of each step `made` says what it says in `core_tree`: the step is the one defined, and from every state
//! that meets the invariant it leads to one that does, with the history kept or longer and less left to do.
//!
//! `take_part` takes the first part on a desk that the actor may take; `look_up` notes the height of the tree
//! of the gate to which the table leads a row; `forward` puts the part back for the worker to which its shard
//! has moved, and `expand` for the children of a shard that was split: that of a row for the child on its
//! side, that of a query for both; `finish_part` puts it back at its end, and takes the pin off the gate that
//! it was pinned at.
//!
//! Only `expand` takes memory; where that is wanting nothing changes but rooms (`refused`).
#![tactic(auto)]

mod errands;
mod expands;
mod finishes;
mod forwards;
mod looks;
mod takes;

pub use expands::expand;
pub use finishes::finish_part;
pub use forwards::forward;
pub use looks::look_up;
pub use takes::take_part;

// What stands below is passed on.
pub use volap_cell;
pub use volap_cell::{link_descent, shard_store, tree_shape};
