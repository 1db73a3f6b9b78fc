//! The positions of runs that were used last, kept in place of replays.
#![tactic(auto)]

mod laws;
pub mod positions;
