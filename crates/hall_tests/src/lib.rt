//! What is tested of `actor_run`: thousands of commands of four sessions at the same time, each answer beside
//! what its history allows.
//!
//! One test makes 20 runs of 20000 commands: inserts, queries and commands of unknown names, by two sessions
//! of each of two servers, on a thread each. Measures are powers of two, so that a sum tells its rows. The
//! judge reads the events one by one, and what the sessions noted: an answer has all rows that were
//! acknowledged through its server before, only such as had begun and do not fail, and each once.
#![tactic(auto)]

#[cfg(test)]
mod board;
#[cfg(test)]
mod judge;
#[cfg(test)]
mod plan;
#[cfg(test)]
mod stress;
#[cfg(test)]
mod work;
