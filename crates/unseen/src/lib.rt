//! Data for contracts alone: lists that no code reads and that take no memory.
#![tactic(auto)]

mod list;

pub use list::{Listed, Makes};
