//! The world round an engine: what a stop may leave, whatever is submitted, gathered, written and stopped.
#![tactic(auto)]

mod safety;

pub use safety::world_is_safe;
