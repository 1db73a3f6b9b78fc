//! What is to be done outside of the engine.
use crate::number::{EventId, RunId};
use crate::sequence::Sequence;
use crate::text::Key;
use crate::value::Value;

/// One attempt of an activity that is to be made outside.
#[derive(Debug, Drop)]
pub struct Task {
    /// The flow's name.
    pub flow: Key,
    pub run: RunId,
    /// The event that scheduled the activity.
    pub event: EventId,
    /// Which attempt it is, from 1.
    pub attempt: u64,
    /// The activity's name.
    pub activity: Key,
    pub args: Sequence<Value>,
}

/// A task that was posted: the numbers of its run, of its event and of its attempt.
pub type Posted = (u64, u64, u64);
