//! What a seat knows. No value of it is made.
use std::collections::LinkedList;

/// What contracts know of a seat.
pub struct View<Cell, Actor, Entry> {
    /// The number of the seat, which is that of one of its actors.
    pub number: u64,
    /// How many cells and actors the table has.
    pub cell_count: u64,
    pub actor_count: u64,
    /// The actors of this seat, by number.
    pub actors: LinkedList<(u64, Actor)>,
    /// The cells that it holds, the first taken first, with the values that they have until the next commit.
    pub held: LinkedList<(u64, Cell)>,
    /// The list that it has seen, the newest entry first.
    pub seen: LinkedList<Entry>,
    /// The shorter of the two lists of the last join.
    pub told: LinkedList<Entry>,
    /// Of a seat that has all actors the values that it has seen, by number, the last first.
    pub known: LinkedList<(u64, Cell)>,
    /// How many tries were refused, and the cell and the word of the last of them.
    pub refused: u64,
    pub note: (u64, u64),
}
