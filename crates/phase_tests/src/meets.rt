//! Points at which the threads of a test wait for one another. Each wait is bounded, so that a test ends where nobody comes.
use std::sync::Wait;
use std::sync::atomic::{AtomicU64, Ordering};
use std::thread::yield_now;
use volap_io::Meet;

/// How often a wait looks again before it gives up.
const MOST: u32 = 1_000_000;

/// The point that only the call of a session passes, before it looks for a part of its command.
const AT_SESSION: u32 = 0;

/// The point that only a hand passes, when it has done a part.
const AFTER_HAND: u32 = 4;

/// Waits until a flag is up; says whether it is.
fn comes(flag: &AtomicU64) -> bool {
    for _ in 0..MOST {
        if flag.load(Ordering::SeqCst) != 0 {
            return true;
        }
        yield_now();
    }
    false
}

/// Holds the call of a session until the call of another one is held too.
#[derive(Drop)]
pub(crate) struct Together {
    inside: AtomicU64,
    met: AtomicU64,
    missed: AtomicU64,
}

impl Together {
    /// Nobody has come yet.
    pub(crate) fn new() -> Together {
        Together {
            inside: AtomicU64::new(0),
            met: AtomicU64::new(0),
            missed: AtomicU64::new(0),
        }
    }

    /// Whether two calls were held at the same time, and no one waited in vain.
    pub(crate) fn is_met(&self) -> bool {
        self.met.load(Ordering::SeqCst) != 0 && self.missed.load(Ordering::SeqCst) == 0
    }
}

impl Meet for Together {
    /// A session's call comes in, waits for another, and goes out.
    fn pass<R: Wait + Sync>(&self, _rt: &R, point: u32) {
        if point != AT_SESSION {
            return;
        }
        if self.inside.fetch_add(1, Ordering::SeqCst) != 0 {
            self.met.store(1, Ordering::SeqCst);
        }
        if !comes(&self.met) {
            self.missed.store(1, Ordering::SeqCst);
        }
        self.inside.fetch_sub(1, Ordering::SeqCst);
    }
}

/// Holds the call of a session, before it looks for a part of its command, until a hand has done one.
#[derive(Drop)]
pub(crate) struct ByHand {
    asked: AtomicU64,
    done: AtomicU64,
    missed: AtomicU64,
}

impl ByHand {
    /// No hand has done anything yet.
    pub(crate) fn new() -> ByHand {
        ByHand {
            asked: AtomicU64::new(0),
            done: AtomicU64::new(0),
            missed: AtomicU64::new(0),
        }
    }

    /// Whether a session was held, a hand has done a part, and nobody waited in vain.
    pub(crate) fn is_met(&self) -> bool {
        self.asked.load(Ordering::SeqCst) != 0
            && self.done.load(Ordering::SeqCst) != 0
            && self.missed.load(Ordering::SeqCst) == 0
    }
}

impl Meet for ByHand {
    /// A hand tells that it has done a part; a session's call waits for that.
    fn pass<R: Wait + Sync>(&self, _rt: &R, point: u32) {
        if point == AFTER_HAND {
            self.done.store(1, Ordering::SeqCst);
        }
        if point == AT_SESSION {
            self.asked.store(1, Ordering::SeqCst);
            if !comes(&self.done) {
                self.missed.store(1, Ordering::SeqCst);
            }
        }
    }
}
