//! Tests of phases that run over the core, by what the crates beneath them let out.
//! By chance: 3000 scripts under seeds, whose answers lie between what their servers must and may count; 500
//! scripts whose printed text is that of a flat list of rows; a script under 100 seeds, and 1000 phases. Their
//! groups tell just the acknowledged rows that match, each under its concept.
//! Measures are powers of two, so that a sum tells its rows. By hand: stories in which the test says who
//! makes the next step. Besides these the heights and blocks of trees, listings that pulls share, cells, and
//! the callers of `library_runs`. All runs are on one thread, and the same each time.
#![tactic(auto)]

#[cfg(test)]
mod against_flat;
#[cfg(test)]
mod bounds;
#[cfg(test)]
mod by_seed;
#[cfg(test)]
mod cells;
#[cfg(test)]
mod chance;
#[cfg(test)]
mod flat;
#[cfg(test)]
mod groups;
#[cfg(test)]
mod indexes;
#[cfg(test)]
mod phases;
#[cfg(test)]
mod postponed;
#[cfg(test)]
mod runs;
#[cfg(test)]
mod scripts;
#[cfg(test)]
mod shard_stories;
#[cfg(test)]
mod shared;
#[cfg(test)]
mod stories;
#[cfg(test)]
mod top;
#[cfg(test)]
mod trees;
