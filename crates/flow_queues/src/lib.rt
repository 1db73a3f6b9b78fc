//! The lists of a hub, and the keys of what it posted.
#![tactic(auto)]

pub mod over;
pub mod posting;
pub mod queues;
pub mod refused;
