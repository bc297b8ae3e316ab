//! Describing sets: for each dimension a level and at most six concepts, which describe a list of rows in one
//! way only.
//!
//! `DescSet::empty`, `of_coord` and `set_to_coord` give the one set of the coordinates put in (`set_of`);
//! `grow` adds a coordinate and `join` a set (`grown`, `joined`). `DescSet::laws` has that the set is unique
//! and depends only on which coordinates occur. `covers` is the definition; `bearing` tells whether a set is
//! inside a filter, overlaps it or is apart: all that it covers matches (`all_match`), or nothing does
//! (`none_match`). A set that `keeps` a coordinate stays as it is where that is added. `growth`, `size`,
//! `plane_of` and `goes_left` are the definitions, and `growth_within` tells the growth exactly where it is
//! at most the bound. No call on sets takes memory.
//!
//! `Path::push` and `SharedListing::share` may be refused; the path is as it was then (`err`).
#![tactic(auto)]

mod bearing;
mod few;
mod listing;
mod part;
mod part_list;
mod path;
mod plane;
mod set;

pub use bearing::Bearing;
pub use few::{FewConcepts, MOST_OF_SET};
pub use listing::{Listing, SharedListing, Spot};
pub use part::Part;
pub use part_list::PartList;
pub use path::Path;
pub use plane::{Plane, goes_left, plane_of};
pub use set::DescSet;
