//! The top call: what the words of a command line ask, over a source and a sink.
//!
//! `olap` decides in this order: the words, the reading, the script, the run, the writing. With `Done` the
//! sink took the text of one right history that is a run of exactly the script's commands, or for `load` its
//! summary (`done`, by `HasRun` of `specs/Outcomes.antt`). Each other status has a clause, which says why it
//! came and what was written. `run` says which core is left, `settle` that answers behind a settle are of all
//! rows, `serial` that commands go one by one for `step` without a seed and `load` without threads,
//! `complete` that a good script ends with `Done` or `NoMemory` where no fault comes.
//!
//! `Done` is not promised, as memory may be wanting. By `run` and `--threads` the clauses hold if the call
//! returns; without threads it is proved to return. An input of more than 2^26 bytes is refused.
#![tactic(auto)]

mod alone;
mod engine;
mod outcome;
mod plan;
mod run;
mod tells;
mod threads;
mod top;
mod wanted;

pub use outcome::{Outcome, Status};
pub use top::olap;
pub use wanted::Wanted;

// What is passed on of the libraries below.
pub mod of_volap_cell {
    pub use core_laws::volap_cell::{
        Actor, Boxes, Cell, Kind, Role, RoleList, State, lift_one, open, put_one,
    };
}

pub mod of_seeded_run {
    pub use seeded_run::{Move, Schedule, open_core, run_by_hand, run_phase};
}
