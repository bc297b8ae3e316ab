//! Sessions on the caller's threads: a hall, the passes of its actors, and what a session's calls promise of
//! the history that it has seen.
//!
//! `Hall::open` gives a hall and its passes (`opened`), `Passes::take` and `give` split one off and join it
//! again, and `Hall::close` gives a state that meets the invariant, with the right history of all (`closed`).
//! Of `Session::insert`, `query` and `sync` the clause `does` says: what was seen before is a part of what is
//! seen now, which is right; the command began with an event of its own behind it, and ended with the newest
//! one. A query over everything counts at most four steps for each shard that was ever made and for each move
//! (`steps`). A `Cursor` takes a query block by block.
//!
//! While all passes are in, `shards`, `tree`, `audit`, `group`, `barrier` and `settle` are calls of the whole hall
//! (`on`). Where memory is wanting a call tells so. That a call returns is not proved: it waits for other
//! threads.
#![tactic(auto)]

mod bell;
mod calls;
mod cursor;
#[cfg(test)]
mod cursor_tests;
mod driving;
mod gates;
mod hall;
mod passes;
mod reuse;
mod session;
#[cfg(test)]
mod tests;
mod whole;

pub use bell::Bell;
pub use cursor::{Cursor, Visit};
pub use hall::Hall;
pub use of_part_steps::Steps;
pub use passes::{Pass, Passes};
pub use session::{Asked, Inserted, Session, Synced};
pub use turn_table::Busy;
pub use whole::{GroupFault, TreeFault};
pub use whole_steps::ReadsHistory;

// What is passed on of the libraries below.
pub mod of_volap_cell {
    pub use whole_steps::of_volap_cell::{Cell, Role, RoleList, State};
}

pub mod of_part_steps {
    pub use whole_steps::of_part_steps::Steps;
}

pub mod of_session_steps {
    pub use whole_steps::of_session_steps::note_refused;
}

pub mod of_call_steps {
    pub use whole_steps::of_call_steps::{Synced, begin_call, end_call, leave_action, sync};
}

pub mod of_whole_steps {
    pub use whole_steps::{Paged, ReadsHistory, Settled};
}
