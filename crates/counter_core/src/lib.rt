//! An example of a core: three counters whose sum stays, moved by several threads.
//!
//! `Counters` is a `Core` of `turn_table` whose cells are numbers. Its invariant is that together they count
//! 30, an actor counts nothing and must keep no cell, and one event is any change of the held cells that
//! leaves their sum.
//!
//! `transfer` moves one unit up or down between two cells as one event, if there is one to move. It waits for
//! the turns of both, the lower first, and so asks that the first number is less (`cells`). Afterwards the
//! seat holds no cell again and has the actors that it had (`bare`, `actors`). Whether a unit went is not
//! told; that the sum stays is the invariant of the table. How many counters there are is left to who opens a
//! table: three in the tests.
#![tactic(auto)]

mod counters;
#[cfg(test)]
mod tests;

pub use counters::{Counters, transfer};
