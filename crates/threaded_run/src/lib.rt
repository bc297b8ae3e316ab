//! A phase of a script over a hall, each actor on a thread of its own where one can be made.
//!
//! `open` opens a hall with the actors of a script's run (`opened`), whose passes are those that a phase asks
//! for (`phased`). `run_phase` does the commands of a phase all at once, each session, the puller and the
//! administrator their own, one after the other; one that closes the phase begins when all others have ended,
//! and no other begins then (`done`). All passes are in again, and what they had seen is a part of what they
//! have seen then (`back`); of gates that are gone none is left (`none_gone`). `run_together` does so for
//! commands of which none closes the phase.
//!
//! An error is want of memory: each actor has done the first of its commands, and none that closes the phase
//! (`stopped`). That two commands run at once, and that a call returns, is not proved.
#![tactic(auto)]

mod callers;
mod closing;
mod jobs;
mod opening;
mod phase;
mod phases;
mod sessions;
mod threads;

pub use opening::open;
pub use phase::run_phase;
pub use phases::run_together;

// What is passed on of the libraries below.
pub mod of_actor_run {
    pub use hall_admin::of_actor_run::{Hall, Passes, ReadsHistory};
}
