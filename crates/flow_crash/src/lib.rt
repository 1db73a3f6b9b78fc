//! A disk that counts its calls, or refuses some by their number, for tests of what a store does then. One count is shared by the two
//! files of a store, so a number names one of all its calls.
#![tactic(auto)]

pub mod calls;
pub mod counting;
pub mod fail_at;
pub mod numbered;
pub mod rule;
pub mod stop_at;
