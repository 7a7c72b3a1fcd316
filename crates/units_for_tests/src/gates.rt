use crate::counting::CallCounts;
use issue_desk::Gate;
use std::alloc::Global;
use std::sync::Arc;
use std::sync::atomic::{AtomicU64, Ordering};
use std::thread::yield_now;

/// How often an issuer looks for a drain.
const LOOKS: u64 = 100_000;

/// A gate at which the first call of each issuer waits for the first drain that a unit counts.
#[derive(Drop)]
pub struct AfterDrain {
    counts: Arc<CallCounts, Global>,
    /// How many calls saw a drain, and how many gave up.
    saw: AtomicU64,
    gave_up: AtomicU64,
    drains: AtomicU64,
}

impl Gate for AfterDrain {
    fn before(&self, p: usize, done: usize) {
        if done == 0 {
            self.wait_for_drain();
        }
        if p == 0 && done == 1 {
            let drains = self.counts.drains.load(Ordering::SeqCst);
            self.drains.store(drains, Ordering::SeqCst);
        }
    }
}

impl AfterDrain {
    /// A gate that waits for a drain in these counts, which it shares.
    pub fn new(counts: Arc<CallCounts, Global>) -> AfterDrain {
        AfterDrain {
            counts,
            saw: AtomicU64::new(0),
            gave_up: AtomicU64::new(0),
            drains: AtomicU64::new(0),
        }
    }

    fn wait_for_drain(&self) {
        for _ in 0..LOOKS {
            if self.counts.drains.load(Ordering::SeqCst) > 0 {
                self.saw.fetch_add(1, Ordering::SeqCst);
                return;
            }
            yield_now();
        }
        self.gave_up.fetch_add(1, Ordering::SeqCst);
    }

    /// Whether an issuer waited until a drain came, and none gave up.
    pub fn has_waited(&self) -> bool {
        self.saw.load(Ordering::SeqCst) > 0 && self.gave_up.load(Ordering::SeqCst) == 0
    }

    /// How many drains had come when processor 0 had done one operation.
    pub fn drains(&self) -> u64 {
        self.drains.load(Ordering::SeqCst)
    }
}
