//! Who is told how far a move is.

/// Is told how far the move of a store is.
pub trait Watch {
    /// The events of so many runs are copied, of so many runs in all: none at first, and then one more each time.
    fn copied(&mut self, runs: u64, all: u64);
}

/// Nobody is told.
#[derive(Clone, Copy, Debug, Drop)]
pub struct Unwatched;

impl Watch for Unwatched {
    fn copied(&mut self, _runs: u64, _all: u64) {}
}
