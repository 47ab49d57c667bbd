//! A set of workers that threads share.
use std::sync::atomic::AtomicU64;
use std::sync::atomic::Ordering::SeqCst;

// How many workers one word tells of.
const WIDTH: u8 = 64;

/// A set of workers, to which threads add.
#[derive(Drop)]
pub(crate) struct WorkerSet {
    words: [AtomicU64; 4],
}

impl WorkerSet {
    /// No worker.
    pub(crate) fn new() -> WorkerSet {
        WorkerSet {
            words: [
                AtomicU64::new(0),
                AtomicU64::new(0),
                AtomicU64::new(0),
                AtomicU64::new(0),
            ],
        }
    }

    /// Adds this worker.
    pub(crate) fn insert(&self, worker: u8) {
        self.word(worker).fetch_or(1 << (worker % WIDTH), SeqCst);
    }

    /// Whether this worker was added.
    pub(crate) fn contains(&self, worker: u8) -> bool {
        self.word(worker).load(SeqCst) & 1 << (worker % WIDTH) != 0
    }

    // The word that tells of this worker.
    fn word(&self, worker: u8) -> &AtomicU64 {
        &self.words[(worker / WIDTH) as usize]
    }
}
