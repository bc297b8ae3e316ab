//! Turns of actors: of those that can step, the one whose turn it is makes a step, until nobody can. Whose
//! turn it is the numbers of the actors tell, or the generator of a seed.
//!
//! A `Machine` says what its actors are, who can step and what is due, what holds between steps, and what a
//! step does; each step must keep what holds and leave less (`holds`, `left`). `run` makes turn after turn
//! and ends: each step was made by the actor whose turn it was (`turns`), and nobody can step any more
//! (`ended`). A `Schedule` is in order, so that the lowest number goes first, or draws by a generator
//! (`Schedule::seeded`), of which one word is used a turn.
//!
//! A turn takes no memory of its own. Where a step finds none, `run` stops before it: what the machine says
//! that such a step leaves is as it was (`stopped`), and the word that drew its actor is gone.
#![tactic(auto)]

mod choice;
mod machine;
mod running;
mod schedule;
#[cfg(test)]
mod tests;

pub use machine::Machine;
pub use running::run;
pub use schedule::Schedule;
