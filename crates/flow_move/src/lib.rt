//! Moves a store of the first format: its events to the table that has their moments in a column, in one transaction.
#![tactic(auto)]

pub mod migrate;
pub mod old;
pub mod watch;
