//! What came of waiting for the end of all work for a while.
use crate::known::BoardSummary;

/// What came of waiting until nothing is left to be done, for a while.
#[derive(Clone, Copy, Debug, PartialEq, Eq)]
pub enum Rested {
    /// All that was submitted is answered, and no run is open.
    Idle,
    /// The hub is closed.
    Closed,
    /// Neither; and what the last board says, if nothing was answered since.
    NotYet(Option<BoardSummary>),
}
