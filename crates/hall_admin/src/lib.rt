//! The administrator and the puller of a hall: splits, moves, balances and pulls of servers, each one call on
//! a thread of its caller.
//!
//! Of `Admin::split`, `move_to` and `balance`, and of `Puller::sync`, the clause `made` says: what the caller
//! had seen is a part of what it has seen then, which is right; the call began with an event of this caller
//! with its arguments, behind that part, and ended so with the newest event (`MakesCall`). Where no other
//! command that pulls was open meanwhile, a pull that ended fine has pulled once, for its server. `new` and
//! `end` make a caller of a pass and give it back.
//!
//! Where memory is wanting it may be that nothing of a call stands in the history, or a note that it was
//! refused; `try_call` and `try_sync` tell these apart (`tried`). That a call returns is not proved: a split
//! or a move waits for others.
#![tactic(auto)]

mod admin;
mod calls;
mod driving;
mod puller;
mod reuses;

pub use admin::Admin;
pub use puller::{Puller, Synced};

// What is passed on of the libraries below.
pub mod of_actor_run {
    pub use actor_run::{Hall, Passes, ReadsHistory};
}
