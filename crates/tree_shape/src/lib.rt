//! What it means that cells hold a tree of blocks, where each row is, and what an unfinished query has still
//! before it; and that the steps of inserts and queries keep it.
//!
//! All of it is definitions and laws without code. `insert_laws` and `query_laws` say that each step of an
//! insert and of a query leaves a tree, with the rows where the step says, and every unfinished query right:
//! with nothing noted any more it has counted what it had to, each row once. `tree_laws` finds the blocks
//! behind a head along right links; `frame_law` and `table_laws` say what disturbs no tree and no query.
//! `opening_law` and `build_laws` say how a tree begins and is built level by level, and `collect_laws` that
//! it is read block by block, each row once. `carrying_laws` finds an actor whose next block nobody holds,
//! and `visiting_laws` that each visit leaves fewer. `worked_example`, `worked_cities` and `worked_head_cut`
//! meet what the laws ask for. The steps themselves are those of `link_descent`; that a run makes only such
//! steps is not said here.
#![tactic(auto)]

mod going_on;

ghost use Rattle.std.specs.Prelude.{ℕ};
ghost use Rattle.tree_shape.specs.Trees.{leaf_without_rows};
ghost use Rattle.tree_shape.specs.Example.{ExampleLaw};
ghost use Rattle.tree_shape.specs.Forest.{LeavesLaw, DirectoriesLaw, TreeLaw};
ghost use Rattle.tree_shape.specs.Laws.{OpeningLaw, OrderLaw, GateLaw, BlockLaw, ChildLaw, RootLaw, BehindLaw, RootBehindLaw, BehindFitsLaw, RootBehindFitsLaw, LinkLaw, OtherLaw, InLaw, DownLaw, PutLaw, BeginLaw, VisitLaw, ElsewhereLaw, EndLaw};
ghost use Rattle.tree_shape.specs.Laws.{TreeTableLaw, QueryTableLaw, CollectBeginLaw, ReadableLaw, ReadLaw, CollectOtherLaw, CollectEndLaw};
ghost use Rattle.tree_shape.specs.Cities.{CitiesLaw};
ghost use Rattle.tree_shape.specs.HeadCuts.{HeadCutWork};

pub use going_on::{carrying_laws, visiting_laws};

/// A leaf without rows, which is its own group, is the root of a new tree.
pub fn opening_law()
    ensures { (stamp : ℕ) → OpeningLaw (leaf_without_rows stamp) }
{}

/// A tree can be built level by level: leaves in cells of their own are a forest, directories with an
/// entry for each root of a forest are one that is a level higher, and a gate over a forest of one root
/// is a tree of its rows.
pub fn build_laws()
    ensures leaves { LeavesLaw }
    ensures directories { DirectoriesLaw }
    ensures tree { TreeLaw }
{}

/// Aggregates and sets go by which rows there are, so a gate tells of its tree's rows; each block of a
/// tree is such as the steps ask for; and right links lead to the other blocks of a group, which have
/// with the head no more rows than the group's entry counts.
pub fn tree_laws()
    ensures order { OrderLaw }
    ensures gate { GateLaw }
    ensures block { BlockLaw }
    ensures child { ChildLaw }
    ensures root { RootLaw }
    ensures behind { BehindLaw }
    ensures root_behind { RootBehindLaw }
    ensures behind_fits { BehindFitsLaw }
    ensures root_behind_fits { RootBehindFitsLaw }
    ensures link { LinkLaw }
{}

/// What a step does to other trees' blocks, to the queue or to the rest of a gate leaves a tree as it
/// is.
pub fn frame_law()
    ensures { OtherLaw }
{}

/// The steps of inserts leave a tree, with the rows where the steps say, and every unfinished query
/// right.
pub fn insert_laws()
    ensures comes_in { InLaw }
    ensures goes_down { DownLaw }
    ensures put { PutLaw }
{}

/// One tree taken through the laws: 33 rows come to an empty leaf, which is halved, and a query that
/// began before the last of them is answered after it.
pub fn worked_example()
    ensures { ExampleLaw }
{}

/// Trees with all values given. One meets what the worked example asks for. The root of the other has a
/// good cut: the last row begins, comes in at a new root and goes down to its leaf, a query is answered,
/// and the blocks are collected.
pub fn worked_cities()
    ensures { CitiesLaw }
{}

/// The worked example goes on: the halved root's head is full again, and what it has of one city is cut
/// off the group. A query that noted the root before reads all three blocks.
pub fn worked_head_cut()
    ensures { HeadCutWork }
{}

/// The steps of a query leave it right, and with nothing noted any more it has counted what it had to,
/// each row once.
pub fn query_laws()
    ensures begins { BeginLaw }
    ensures visits { VisitLaw }
    ensures elsewhere { ElsewhereLaw }
    ensures ends { EndLaw }
{}

/// A tree stands over each table that has the same rows in it, so a row that begins disturbs none; and an
/// unfinished query is right over each table that has also the rows that it has counted.
pub fn table_laws()
    ensures tree { TreeTableLaw }
    ensures query { QueryTableLaw }
{}

/// An administrator reads a tree block by block, and in the end it has read each block and collected each
/// row of the tree, once.
pub fn collect_laws()
    ensures begins { CollectBeginLaw }
    ensures block { ReadableLaw }
    ensures reads { ReadLaw }
    ensures other { CollectOtherLaw }
    ensures ends { CollectEndLaw }
{}

// What stands below is passed on.
pub use link_descent;
pub use link_descent::shard_store;
