//! A script's phases over the core, all actors on one thread: a core opens, and each phase runs to its end.
//!
//! `open_core` opens the core of a script (`core`, `opening`). `run_phase` makes turns, in order or as a seed
//! draws: each is a step of the actor whose turn it is, of the kind that was due or of one that stands for
//! it, and keeps the invariant (`turns`). Where nobody can step any more (`rested`) it ends, with the history
//! a run of the phases so far (`between`). `run_commands` does so over any such core with idle actors
//! (`behind`); `run_by_hand` makes the moves that it is told (`moved`).
//!
//! `steps_run_out` and `somebody_goes_on` say why a phase ends. An error is want of memory: the phase has
//! stopped midway, and the history is a part of a run (`into`). Even without an error a command may have
//! ended for want of memory.
#![tactic(auto)]

mod alone;
mod beginnings;
mod by_hand;
mod hands;
mod kinds;
mod laws;
mod machine;
mod names_due;
mod opening;
mod parts;
mod phase;
mod shows;
mod survey;
mod turn;
mod wanted;
mod works;

pub use by_hand::{Move, run_by_hand};
pub use laws::{
    cursors_tell_rests, due_steps_are_made, idle_actors_wait, less_is_left, limits_hold,
    one_steps_in_order, parts_go_on, phases_begin_and_end, phases_go_on_behind, scripts_run_so,
    somebody_goes_on, steps_keep_a_phase, steps_run_out, streams_run_out,
};
pub use opening::open_core;
pub use phase::{run_commands, run_phase};
pub use seeded_turns::Schedule;
