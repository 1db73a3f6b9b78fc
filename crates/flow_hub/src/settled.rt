//! What became of the tickets of a hub.

/// What became of all tickets that a hub has given.
#[derive(Clone, Copy, Debug, PartialEq, Eq)]
pub struct Settled {
    pub given: u64,
    pub by_receipt: u64,
    pub by_code: u64,
    /// Taken, and not answered yet.
    pub taken: u64,
    /// Submitted, and not taken yet.
    pub waiting: u64,
}
