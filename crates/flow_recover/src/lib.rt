//! Opens a store: its book gets a keeper, and each open run the position where it stands.
#![tactic(auto)]

pub mod damage;
mod filling;
pub mod found;
pub mod positions;
pub mod recover;
pub mod reopen;
pub mod replayer;
