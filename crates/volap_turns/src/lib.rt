//! The core under turns: its cells and actors as a core of the turn table, and one step of it at a seat.
//!
//! `step_is_lawful` is what the table asks of its core: a step of any kind keeps the invariant over all cells
//! and actors, and keeps or extends the history. `opening_is_whole` says that what a core begins with can be
//! opened. `open` makes of a state that meets the invariant, and in which nobody is at work, a table, a seat
//! with all actors that holds no cell, and the actors; `close`, which takes no memory, makes a state of them
//! again (`whole`), with the history that the seat has seen (`history`).
//!
//! `step` makes one step of any kind over the cells that a seat holds, at most 7, as one event: the step is
//! the one defined, and the actor counts the part that it ends or sends on (`went`). Where no memory is found,
//! the seat is the same, and the actor but for its rooms (`same`). Other threads may be at work meanwhile.
#![tactic(auto)]

mod counts;
mod laws;
mod over;
mod seat_step;
mod spread;
mod volap;
mod wholes;

pub use laws::{opening_is_whole, step_is_lawful};
pub use seat_step::step;
pub use volap::Volap;
pub use wholes::{close, open};
