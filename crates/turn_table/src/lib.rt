//! Cells under turns: a table of cells and actors that several threads change, one event at a time, for any
//! core whose law is proved.
//!
//! A `Core` says what its cells and actors are, what holds between events (`invariant`) and what one event
//! may change, with a proof that it is `lawful`. `TurnTable::new` gives a table and a `Seat` with all actors.
//! `take` waits for the turn of a cell, in the order of ranks that it asks for; `try_take` waits for nobody,
//! and tells which word it read. `lift` moves the values out and `put_back` brings them back; `commit` makes
//! one event and gives the first cell back; `release` gives a cell back as it is. `split_seat` and
//! `join_seat` divide the actors, and at the end `close` gives cells that are a state of the core with the
//! actors of the seat. What a seat knows is always possible (`possible`).
//!
//! Memory is taken only in `new`. How long `take` waits is not promised.
#![tactic(auto)]

mod arranged;
mod cores;
mod counts;
mod ends;
mod few;
mod held;
mod lends;
mod lots;
mod moves;
mod rule;
mod seat;
mod steps;
mod table;
mod turns;
mod view;
mod waits;

pub use cores::Core;
pub use held::Held;
pub use lots::{Lot, One, Three, Two};
pub use rule::{Key, Place, Turns};
pub use seat::Seat;
pub use table::TurnTable;
pub use turns::Busy;
pub use view::View;
