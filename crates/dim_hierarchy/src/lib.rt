//! Concept hierarchies, and the rows and filters over them.
//!
//! `Hierarchy::add_dim` and `add_concept` answer the first fault in the order that their comments tell,
//! exactly (`fault`, `no_fault`), and change nothing then (`err`). `find`, `find_dim`, `up`, `is_under`,
//! `coord`, `filter` and `matches` are the definitions of `specs/`; where a test computes a word and a fact
//! says what it means, the clauses `test` and `meaning` tie the two. `ancestor_laws` and `filter_laws` are
//! laws without code.
//!
//! `compile` makes of a filter a `CompiledFilter`, whose `matches`, `has_all`, `meets_any` and `keep` say
//! what the filter says of the hierarchy as it was then: it knows no concept that is added later. `lineages`
//! reads the ancestors of a coordinate once, without memory. What adds or compiles may answer want of memory,
//! `add_concept` also where there are 2^28 concepts.
#![tactic(auto)]

mod column;
mod compiled;
mod concept;
mod coord_lineages;
mod dim_marks;
mod dimension;
mod few_marks;
mod filter;
mod hierarchy;
mod items;
mod lineage;
mod marks;
mod name_nodes;
mod name_table;
mod row;
mod row_names;

pub use column::{COLUMN_PLACES, Column, RowPlaces};
pub use compiled::CompiledFilter;
pub use concept::ConceptId;
pub use coord_lineages::CoordLineages;
pub use filter::{Filter, IdList, NameFilter, NamePick, Pick, copy_filter};
pub use hierarchy::{ConceptFault, DimFault, FilterFault, Hierarchy};
pub use items::{Items, Name, Names};
pub use row::{Coord, Measures, Row};
pub use row_names::RowNames;
