//! Cuts: by which dimension and where a full list of items with describing sets is divided in two.
//!
//! `choose` gives the good cut of 2 to 32 items (`cut`), with their places in cut order (`order`), and none
//! exactly where the cut of no dimension is good (`none`). `HeadCuts` is for a group of blocks, of which the
//! first one is the head: `of` is told the sets of the head, `strike` each item of the other blocks, and then
//! `best` is the good head cut for all of them (`cut`), or none exactly where no head cut is good (`none`). A
//! group has one good head cut at most (`HeadCut::laws`). `HeadCut::parts` gives the places that a head cut
//! keeps, and the others, each ascending.
//!
//! What is good is said by `specs/Cut.antt` and `specs/Head.antt`. The items are lent, and no call fails or
//! takes memory.
#![tactic(auto)]

mod crossing;
mod cut;
mod head;
mod head_cut;
mod leasts;
mod limits;
mod order;
mod overlap;

pub use cut::{Cut, choose};
pub use head::HeadCuts;
pub use head_cut::{HeadCut, Places};
pub use limits::MOST_ITEMS;
