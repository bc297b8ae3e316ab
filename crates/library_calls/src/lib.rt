//! Small callers of the libraries, each with one contract, as examples of how they are used.
//!
//! `of_one_dimension` makes a hierarchy of one dimension (`made`), or answers the one fault that stands
//! against it (`fault`, `no_fault`). `is_counted` tells whether a row of these names is one that a question
//! in names asks for (`counted`); where a name is not known it answers the first such dimension, of the row
//! before the question (`row`, `question`). `total_of_both` is the aggregate of the rows of two lists, from
//! those of each, without memory.
//!
//! They rest only on contracts of `dim_hierarchy` and `measure_agg`. The first two may answer want of memory.
#![tactic(auto)]

mod asked;
mod joined;
mod made;

pub use asked::is_counted;
pub use joined::total_of_both;
pub use made::of_one_dimension;
