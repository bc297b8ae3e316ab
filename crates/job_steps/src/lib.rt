//! The steps of splits, moves and balances, at the seat of the administrator that has called them.
//!
//! `go_on_with_job` makes the next step of the open command, over the turns of just its cells, which it takes
//! in the order of ranks: tables, gates, blocks, registry, stock, ledger, and of one rank the lower number
//! first. `came` says how far it comes: further, waiting for inserts in a frozen tree, at the event of its
//! action, or at the end of the command. Where no memory is found before the shard is frozen, the command is
//! due to end so, or the balance to leave its action: the caller makes that, by `call_steps`. Behind that the
//! action is given up.
//!
//! `reuse_cell` makes a cell of a gate that is gone the stock's again, between two commands (`some`), and
//! takes no memory; where a query is pinned to each such gate nothing changes (`none`, `in_use`). That a job
//! ends is not proved: a frozen shard waits for the inserts in its tree.
#![tactic(auto)]

mod balances;
mod ends;
mod jobs;
mod looks;
mod reuses;
mod steps;
mod turns;

pub use jobs::go_on_with_job;
pub use reuses::reuse_cell;
pub use steps::JobDid;

// What is passed on of the libraries below.
pub mod of_volap_turns {
    pub use seat_steps::of_volap_turns::{Volap, close, open, opening_is_whole};
}

pub mod of_seat_steps {
    pub use seat_steps::{Floor, Player};
}
