//! What the sessions of the test share: the number of the next command, and which rows have begun and are acknowledged by now.
use crate::plan::ROUNDS;
use std::alloc::{AllocError, Global};
use std::sync::atomic::{AtomicU64, Ordering};

/// Rows are bits of their round's number.
#[derive(Drop)]
pub(crate) struct Board {
    next: AtomicU64,
    begun: Vec<AtomicU64>,
    /// By server.
    acked: [Vec<AtomicU64>; 2],
}

/// No rows, of each round.
fn none(alloc: Global) -> Result<Vec<AtomicU64>, AllocError> {
    let mut bits = Vec::new(alloc);
    for _ in 0..ROUNDS {
        bits.push(AtomicU64::new(0))?;
    }
    Ok(bits)
}

fn mark(bits: &[AtomicU64], round: usize, bit: u64) {
    if let Some(word) = bits.get(round) {
        word.fetch_or(bit, Ordering::SeqCst);
    }
}

fn read(bits: &[AtomicU64], round: usize) -> u64 {
    match bits.get(round) {
        Some(word) => word.load(Ordering::SeqCst),
        None => 0,
    }
}

impl Board {
    pub(crate) fn new(alloc: Global) -> Result<Board, AllocError> {
        Ok(Board {
            next: AtomicU64::new(0),
            begun: none(alloc)?,
            acked: [none(alloc)?, none(alloc)?],
        })
    }

    /// The number of the next command.
    pub(crate) fn draw(&self) -> u64 {
        self.next.fetch_add(1, Ordering::SeqCst)
    }

    /// Notes, before an insert, that it begins.
    pub(crate) fn begin(&self, round: usize, bit: u64) {
        mark(self.begun.as_slice(), round, bit);
    }

    /// Notes, after an insert, that it is acknowledged.
    pub(crate) fn acknowledge(&self, server: usize, round: usize, bit: u64) {
        if let Some(bits) = self.acked.get(server) {
            mark(bits.as_slice(), round, bit);
        }
    }

    /// The rows of a round that an answer may count which ends now.
    pub(crate) fn may(&self, round: usize) -> u64 {
        read(self.begun.as_slice(), round)
    }

    /// The rows of a round that an answer of the server must count which begins now.
    pub(crate) fn must(&self, server: usize, round: usize) -> u64 {
        match self.acked.get(server) {
            Some(bits) => read(bits.as_slice(), round),
            None => 0,
        }
    }
}
