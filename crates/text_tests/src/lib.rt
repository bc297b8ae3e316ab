//! Tests of scripts, of what is told of them, and of how their bytes come and go, by what the crates let out.
//!
//! Each file is of the crate that its first line names: texts that are scripts and what they hold, the lines
//! and pages of answers, whole and by a teller phase by phase, ledgers and histories, sources and sinks with
//! the faults that they are told to have, and the generated script.
//!
//! They compare with texts and values that are written out beside them. The generated text is read back as a
//! script. All are on one thread, without chance, and end by themselves.
#![tactic(auto)]

#[cfg(test)]
mod answers;
#[cfg(test)]
mod fixtures;
#[cfg(test)]
mod generated;
#[cfg(test)]
mod ledgers;
#[cfg(test)]
mod scripts;
#[cfg(test)]
mod streams;
#[cfg(test)]
mod words;
