//! The outside of the program: sources of bytes, sinks for bytes, and points at which threads may meet.
//!
//! `read_all` gives all bytes of any `Source` up to a limit (`all`, `within`), or says why not: a read
//! failed, a byte more came than there may be, or no memory was found (`fault`, `large`). `write_all` hands
//! all bytes to any `Sink` (`all`), or where a write fails some of the first of them, and not all (`part`).
//! What came and what was taken is said of those sources and sinks that tell it. A fault comes only where a
//! count of faults rose (`cause`).
//!
//! `MemSource` fails at exactly the calls that are named, and `MemSink` at these and where it has no room
//! (`fails`). `StdSource` and `StdSink` make a source and a sink of readers and writers of std. A `Meet` may
//! hold up its caller, and promises nothing; `Quiet` holds up nobody.
#![tactic(auto)]

mod meet;
mod memory;
mod sink;
mod source;
mod standard;

pub use meet::{Meet, Quiet};
pub use memory::{MemSink, MemSource};
pub use sink::{Sink, write_all};
pub use source::{ReadEnd, Source, read_all};
pub use standard::{StdSink, StdSource};

/// A read or a write failed.
#[derive(Clone, Copy, Debug, PartialEq, Eq)]
pub struct Failed;
