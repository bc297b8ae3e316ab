//! The generated script: a hierarchy of three dimensions, rows, and what is done beside them, from two
//! numbers.
//!
//! `generate` writes it as text, byte for byte the text of the records that `specs/Generated.antt` defines
//! for a number of rows and a seed. It takes at most 200000 rows, and may answer want of memory, but nothing
//! else.
//!
//! `generated_is_a_script` says of every number of rows and every seed that the text is read as just the
//! records that it was made of, and that these are a script: no record of it is bad. How the rows are spread
//! is what the definition says; nothing is promised beyond it.
#![tactic(auto)]

mod concepts;
mod laws;
mod names;
mod rows;
mod script;

pub use laws::generated_is_a_script;
pub use script::generate;
