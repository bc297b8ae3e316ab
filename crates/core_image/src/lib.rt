//! The steps of commands at images, desks and the ledger.
//!
//! Of each step `made` says what it says in `core_tree`: the step is the one defined, and from every state
//! that meets the invariant it leads to one that does, with the history kept or longer. Where memory is
//! wanting, nothing changes but rooms (`refused`). Where a clause `told` stands, it says which event the step
//! adds.
//!
//! `begin_insert`, `route` and `ack` are an insert, `begin_query` and `answer` a query, `sync` pulls for a
//! server, and `count_session` counts a session at its desk. `note_called` and `note_asking` begin other
//! commands, `note_shown` shows a page, `note_left` and `note_ended` end actions and commands; the other
//! calls note what did not go. What begins a command or pulls takes all its memory before anything changes,
//! and what ends an open one takes none.
#![tactic(auto)]

mod acks;
mod answers;
mod asks;
mod begins;
mod calls;
mod counts;
mod ended;
mod fails;
mod left;
mod notes;
mod owing;
mod queries;
mod routes;
mod shown;
mod syncs;

pub use acks::ack;
pub use answers::answer;
pub use asks::note_asking;
pub use begins::begin_insert;
pub use calls::note_called;
pub use counts::count_session;
pub use ended::note_ended;
pub use fails::{fail_query, fail_routed, fail_unrouted};
pub use left::{advance, note_left};
pub use notes::{note_refused, note_unknown};
pub use queries::begin_query;
pub use routes::route;
pub use shown::note_shown;
pub use syncs::sync;

// What stands below is passed on.
pub use volap_cell;
pub use volap_cell::{link_descent, shard_build, shard_store, tree_shape};
