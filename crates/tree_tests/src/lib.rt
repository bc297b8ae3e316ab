//! Tests of the crates beneath a shard, by what these let out.
//!
//! Each file is of the crate that its first line names: hierarchies, rows and filters, describing sets,
//! aggregates, cuts, blocks, gates and stocks, built trees and their sizes, pages, desks, tables of shards,
//! plans of balances and transfer texts.
//!
//! They compare tables of cases with answers that are written out beside them, or read back what was made.
//! All are small, on one thread, without chance, and end by themselves.
#![tactic(auto)]

#[cfg(test)]
mod aggregates;
#[cfg(test)]
mod blocks;
#[cfg(test)]
mod builds;
#[cfg(test)]
mod codec;
#[cfg(test)]
mod cuts;
#[cfg(test)]
mod desks;
#[cfg(test)]
mod fixtures;
#[cfg(test)]
mod gates;
#[cfg(test)]
mod hierarchies;
#[cfg(test)]
mod pages;
#[cfg(test)]
mod plans;
#[cfg(test)]
mod sets;
#[cfg(test)]
mod sizes;
#[cfg(test)]
mod stocks;
#[cfg(test)]
mod tables;
