//! Which changes of a text are safe for the runs that have begun under it, and which let patches go.
#![tactic(auto)]

pub mod change;
mod compare;
pub mod fault;
mod ids;
pub mod laws;
mod same;
pub mod settle;
mod settled_ids;
mod unsettled;
mod walk;
