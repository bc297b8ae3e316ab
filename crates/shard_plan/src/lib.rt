//! How large a built tree is, and what a balance plans: the rules that shards are split and moved by.
//!
//! `cells_for`, `levels_for`, `leaves_for` and `split_need` are the definitions of `specs/Building.antt` for
//! fewer than 2^40 rows: how many blocks, levels and leaves a built tree has, and how many cells a split
//! needs. `parts_fit` has that the two trees of a split and their two gates never need more cells than the
//! split of the whole asks for. `level_laws` says how the levels of a tree follow one from another (`root`,
//! `parents`).
//!
//! `specs/Balancing.antt` has the plan of a balance, `plan`, over a list of `Load`, as a list of `Action`. It
//! is a definition here; the crate `balancer` computes it. No call fails or takes memory.
#![tactic(auto)]

mod action;
mod building;

pub use action::{Action, Load};
pub use building::{
    LEAF_ROWS, PARENT_NODES, cells_for, leaves_for, level_laws, levels_for, parts_fit, split_need,
};
