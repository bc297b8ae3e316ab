//! Blocks, which are the nodes of a tree of rows, and the list of blocks that a query has still to visit.
//!
//! The `matching` of a leaf is the aggregate of exactly the rows that a filter matches, `total` and `set` are
//! those of all rows, and `row`, `copy_row` and `set_at` read exactly one. `Block::summary` gives the
//! aggregate and the describing set of all items of a block (`summary`). `add_row`, `add_entry`, `set_entry`
//! and `split_entry` leave exactly the items that they say, in their order; they ask for room, of which
//! `is_full` is the test: a leaf has at most 32 rows, a directory 16 entries. `laws` says what a summary
//! tells of all rows beneath a block, that it does not depend on their order, and how it is kept when rows
//! are added.
//!
//! No call of `Block` takes memory: the boxes of new blocks come from `Blanks`, which `refill` fills before,
//! and may find no memory. `Todo::push` asks for room that `reserve` made.
#![tactic(auto)]

mod blanks;
mod block;
mod boxed;
mod columns;
mod entry;
mod leaf;
mod summary;
mod todo;

pub use blanks::Blanks;
pub use block::{Block, Body};
pub use boxed::{EntryBox, RowBox};
pub use entry::Entry;
pub use leaf::LeafRows;
pub use summary::{agg_laws, laws};
pub use todo::{Item, Todo};
