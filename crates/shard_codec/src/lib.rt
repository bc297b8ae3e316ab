//! The text in which the rows of a shard pass from one worker to another.
//!
//! `encode` gives the transfer text of rows over at most eight dimensions (`wire`). `decode` gives rows where
//! the bytes are their transfer text and each is a row of the hierarchy (`text`, `rows`); so it gives what
//! was written again (`again`), and else tells the first fault from the left (`exact`). Either may answer
//! want of memory; `decode` takes it row by row, and none for rows that are only told of.
//!
//! `text_laws` has that what is written is read again, that bytes which are read are the text of the rows
//! that they give, and that of all rows of the format, whatever hierarchy they are of, different lists have
//! different texts and no text is a proper first part of another (`distinct`, `no_prefix`).
#![tactic(auto)]

mod fault;
mod field;
mod laws;
mod reading;
mod writing;

pub use fault::CodecFault;
pub use laws::text_laws;
pub use reading::decode;
pub use writing::encode;
