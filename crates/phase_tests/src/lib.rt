//! What is tested of halls on threads: whole phases of scripts, the calls for which all passes are in, and
//! hands.
//! Twenty phases of 60 inserts by two servers, with queries, pulls, splits, moves and balances, are closed in
//! turn by each command that closes one. The judge reads the history event by event: an answer lies between
//! what its server must and may count, and behind a settle it and the pages are exact. Other tests see two
//! queries of a phase open at once, hands that do parts, and what calls of the whole hall leave. Threads meet
//! at points where one waits for another for a bounded time, so a test ends where nobody comes.
#![tactic(auto)]

#[cfg(test)]
mod halls;
#[cfg(test)]
mod hands;
#[cfg(test)]
mod judge;
#[cfg(test)]
mod meets;
#[cfg(test)]
mod phases;
#[cfg(test)]
mod runs;
#[cfg(test)]
mod scripts;
#[cfg(test)]
mod told;
#[cfg(test)]
mod whole;
