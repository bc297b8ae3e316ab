//! Texts of scripts that the top call runs with threads.
use olap_top::{Outcome, olap};
use std::alloc::{AllocError, Global};
use std::sync::Wait;
use std::thread::Threads;
use volap_io::{Meet, MemSink, MemSource};

/// The word that asks for threads.
fn words(alloc: Global) -> Result<Vec<String>, AllocError> {
    let mut words = Vec::new(alloc);
    words.push(String::from_str(alloc, "run")?)?;
    Ok(words)
}

/// Runs a text with a thread for each actor, into a sink.
pub(crate) fn run_top<R: Threads + Wait + Sync, M: Meet>(
    rt: &R,
    alloc: Global,
    text: &[u8],
    sink: &mut MemSink,
    meet: &M,
) -> Result<Outcome, AllocError> {
    let words = words(alloc)?;
    let mut source = MemSource::new(text.to_vec(alloc)?, Vec::new(alloc), 4096);
    Ok(olap(rt, alloc, words.as_slice(), &mut source, sink, meet))
}
