//! A step of the core as a value, over the cells that it holds; and the one driver that makes it in a state
//! that one thread holds.
//!
//! A `CellStep` tells in which cells it is made (`places`), what it asks of them and of its actor, whether it
//! may find no memory, and what it tells of them; `run` makes it over cells that are lent, whoever holds them
//! (`went`, `told`). The steps of `core_tree`, `core_image`, `core_shard` and `core_admin` are such values:
//! `BeginStep`, `BookStep`, `NoteStep`, `PartStep`, `TreeStep` and the others.
//!
//! `make` makes any of them in a `State` that meets the invariant, where what the step asks is so and nobody
//! else must keep its cells: the state is one step further (`further`), other cells are as they were
//! (`spared`), and a step that may not fail does not (`sure`). Where memory is wanting the state is the same
//! but for its rooms (`same`).
#![tactic(auto)]

mod begins;
mod books;
mod counts;
mod driver;
mod jobs;
mod lending;
mod moving;
mod notes;
mod parts;
mod places;
mod reuses;
mod rows;
mod step;
mod trees;

pub use begins::BeginStep;
pub use books::BookStep;
pub use counts::CountStep;
pub use driver::make;
pub use jobs::JobStep;
pub use notes::NoteStep;
pub use parts::PartStep;
pub use places::{desk_place, image_place, ledger_place, map_place, registry_place, stock_place};
pub use reuses::ReuseStep;
pub use rows::RowStep;
pub use step::{CellStep, Others, Places};
pub use trees::TreeStep;

// What stands below is passed on.
pub use core_shard::{link_descent, shard_store, tree_shape, volap_cell};
