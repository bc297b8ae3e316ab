//! Texts of scripts that the top call runs.
use library_runs::of_olap_top::{Outcome, olap};
use std::alloc::{AllocError, Global};
use std::sync::Wait;
use std::thread::Threads;
use volap_io::{MemSink, MemSource, Quiet};

/// The words of a command line.
fn words(alloc: Global, all: &[&str]) -> Result<Vec<String>, AllocError> {
    let mut words = Vec::new(alloc);
    for word in all {
        words.push(String::from_str(alloc, word)?)?;
    }
    Ok(words)
}

/// Runs a text as these words ask, into a sink.
pub(crate) fn run_top<R: Threads + Wait + Sync>(
    rt: &R,
    alloc: Global,
    list: &[&str],
    text: &[u8],
    sink: &mut MemSink,
) -> Result<Outcome, AllocError> {
    let words = words(alloc, list)?;
    let mut source = MemSource::new(text.to_vec(alloc)?, Vec::new(alloc), 4096);
    Ok(olap(rt, alloc, words.as_slice(), &mut source, sink, &Quiet))
}
