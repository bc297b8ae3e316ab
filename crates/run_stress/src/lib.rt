//! Tests of the word `run`: scripts made by chance, each run often with a thread for each actor, whose
//! answers and pages are compared with what their histories allow; and runs in which one thread waits for
//! another.
//! Four tests make 50 scripts each, and run each 20 times. The judge reads the events one by one: an answer
//! has the rows that its server must know, only such as had begun, and each once; behind a settle it has all;
//! a page of all shards or of all rows tells of just the rows that had begun, and one of groups of those that
//! match, each under its concept. Two tests hold a query or a session for a bounded time, until another thread
//! has got somewhere. Scripts are the same each time, schedules are not.
#![tactic(auto)]

#[cfg(test)]
mod chance;
#[cfg(test)]
mod groups;
#[cfg(test)]
mod judge;
#[cfg(test)]
mod known;
#[cfg(test)]
mod meetings;
#[cfg(test)]
mod scripts;
#[cfg(test)]
mod shards;
#[cfg(test)]
mod stress;
#[cfg(test)]
mod top;
