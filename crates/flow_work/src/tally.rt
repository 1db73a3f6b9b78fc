//! How many tasks are with the workers, counted for whoever shows it.
use std::alloc::{AllocError, Global};
use std::sync::Arc;
use std::sync::atomic::{AtomicU64, Ordering};

/// The count of the tasks that were given out and whose reports aren't answered. Threads share it, and nothing but what is shown rests
/// on it: no clause speaks of what a shared word holds.
#[derive(Drop)]
pub struct Tally {
    running: Arc<AtomicU64>,
}

impl Tally {
    /// A count of none.
    pub fn new(alloc: Global) -> Result<Tally, AllocError> {
        Ok(Tally {
            running: Arc::new(alloc, AtomicU64::new(0))?,
        })
    }

    /// The same count, for another thread.
    pub fn share(&self) -> Result<Tally, AllocError> {
        Ok(Tally {
            running: Arc::try_clone(&self.running)?,
        })
    }

    /// One more is given out.
    pub(crate) fn begin(&self) {
        self.running.fetch_add(1, Ordering::SeqCst);
    }

    /// One more is reported.
    pub(crate) fn end(&self) {
        self.running.fetch_sub(1, Ordering::SeqCst);
    }

    /// How many there are.
    pub(crate) fn count(&self) -> u64 {
        self.running.load(Ordering::SeqCst)
    }
}
