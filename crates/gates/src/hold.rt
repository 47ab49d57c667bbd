//! Where a gate holds one worker.
use std::sync::OnceLock;
use std::sync::atomic::AtomicU64;
use std::sync::atomic::Ordering::SeqCst;
use std::thread::yield_now;

// The number of no worker.
const NOBODY: u64 = 256;

// How a hold ended.
#[derive(Clone, Copy)]
enum End {
    Released,
    Expired,
}

/// Holds the first worker that comes, once, until another one releases it or for so many looks.
#[derive(Drop)]
pub(crate) struct Hold {
    held: AtomicU64,
    end: OnceLock<End>,
    limit: u64,
}

impl Hold {
    /// A hold to which nobody has come, for `limit` looks.
    pub(crate) fn new(limit: u64) -> Hold {
        Hold {
            held: AtomicU64::new(NOBODY),
            end: OnceLock::new(),
            limit,
        }
    }

    /// Holds the worker if it is the first, and says whether it was.
    pub(crate) fn enter(&self, worker: u8) -> bool {
        let me = u64::from(worker);
        let is_first = self
            .held
            .compare_exchange(NOBODY, me, SeqCst, SeqCst)
            .is_ok();
        if is_first {
            self.wait();
        }
        is_first
    }

    // Looks for the end until the limit, and then ends the hold itself.
    fn wait(&self) {
        for _ in 0..self.limit {
            if self.end.get().is_some() {
                return;
            }
            yield_now();
        }
        let _ = self.end.try_set(End::Expired);
    }

    /// Whether another worker than this one was the first.
    pub(crate) fn is_of_another(&self, worker: u8) -> bool {
        let held = self.held.load(SeqCst);
        held != NOBODY && held != u64::from(worker)
    }

    /// Lets the held worker go, if it is another one and still held.
    pub(crate) fn release(&self, worker: u8) {
        if self.is_of_another(worker) {
            let _ = self.end.try_set(End::Released);
        }
    }

    /// Whether another worker let the held one go.
    pub(crate) fn is_released(&self) -> bool {
        matches!(self.end.get(), Some(End::Released))
    }

    /// Whether this worker was held and another one let it go.
    pub(crate) fn has_released(&self, worker: u8) -> bool {
        self.held.load(SeqCst) == u64::from(worker) && self.is_released()
    }
}
