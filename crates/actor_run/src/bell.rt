//! Waiting for a server's desk, or for parts, asleep.
ghost use Rattle.std.specs.Prelude.{◌≡◌, ◌<◌, IfOk, vec_len};

use std::alloc::{AllocError, Global};
use std::sync::atomic::{AtomicU64, Ordering};
use std::sync::{Condvar, Mutex, Wait};

/// Who waits sleeps until the bell is rung. No clause tells of it.
// No ring is missed. Who waits read the count of rings before it looked at a desk, and counts itself among those who wait before
// it compares the count again, under the lock. Who rings adds to the count first and then looks whether anybody waits. All
// atomic steps have one order: so either the ringer sees the waiter, and tells it under the lock, or the waiter sees the ring.
#[derive(Drop)]
pub struct Bell {
    rings: AtomicU64,
    waiting: AtomicU64,
    lock: Mutex<()>,
    rung: Condvar,
}

/// As many bells.
pub(crate) fn bells(alloc: Global, count: u8) -> Result<Vec<Bell>, AllocError>
    ensures { IfOk result (λ v. vec_len v ≡ count) }
{
    let mut bells = Vec::new(alloc);
    for _ in 0..count {
        bells.push(Bell::new())?;
    }
    Ok(bells)
}

impl Bell {
    fn new() -> Bell {
        Bell {
            rings: AtomicU64::new(0),
            waiting: AtomicU64::new(0),
            lock: Mutex::new(()),
            rung: Condvar::new(),
        }
    }

    /// How often it was rung, to be read before a look at the desk.
    pub fn rings(&self) -> u64 {
        self.rings.load(Ordering::SeqCst)
    }

    /// Wakes all who wait.
    pub fn ring<R: Wait>(&self, rt: &R) {
        self.rings.fetch_add(1, Ordering::SeqCst);
        if self.waiting.load(Ordering::SeqCst) != 0 {
            let _held = self.lock.lock(rt);
            self.rung.notify_all();
        }
    }

    /// Sleeps until it was rung more often than this.
    pub fn wait_past<R: Wait>(&self, rt: &R, rings: u64) {
        self.waiting.fetch_add(1, Ordering::SeqCst);
        let woken = self
            .rung
            .wait_while(rt, self.lock.lock(rt), |_| self.rings() == rings);
        drop(woken);
        self.waiting.fetch_sub(1, Ordering::SeqCst);
    }
}

/// The bells of the hands of all workers, and how many queries are under way.
// A ring for a query may be left out. Whoever asks does all parts that are left itself, so a part that no hand comes for is done
// later, and never left. Where the last session has gone all are rung, as a hand that sleeps would not see it.
#[derive(Drop)]
pub(crate) struct HandBells {
    /// One for each worker.
    pub(crate) bells: Vec<Bell>,
    queries: AtomicU64,
}

impl HandBells {
    /// A bell for each of so many workers. No query is under way.
    pub(crate) fn new(alloc: Global, workers: u8) -> Result<HandBells, AllocError>
        ensures { IfOk result (λ h. vec_len h.bells ≡ workers) }
    {
        Ok(HandBells {
            bells: bells(alloc, workers)?,
            queries: AtomicU64::new(0),
        })
    }

    /// The bell of this worker's hands.
    pub(crate) fn of(&self, worker: u8) -> &Bell
        requires { worker < vec_len self.now.bells }
    {
        &self.bells[usize::from(worker)]
    }

    /// Rings all.
    pub(crate) fn ring_all<R: Wait>(&self, rt: &R) {
        for bell in &self.bells {
            bell.ring(rt);
        }
    }

    /// One more query is under way, whose parts stand on a desk. All are rung, but where others are under way and with this one there
    /// are as many as workers, or more: then each session does its own parts, which takes less time than to wake hands.
    pub(crate) fn ask<R: Wait>(&self, rt: &R) {
        let others = self.queries.fetch_add(1, Ordering::SeqCst);
        let workers = self.bells.len() as u64;
        if others == 0 || others.saturating_add(1) < workers {
            self.ring_all(rt);
        }
    }

    /// One query less is under way.
    pub(crate) fn answered(&self) {
        self.queries.fetch_sub(1, Ordering::SeqCst);
    }
}
