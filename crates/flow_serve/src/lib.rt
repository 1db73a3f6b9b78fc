//! An engine that serves a hub, whose submitters are on other threads: what they submit is taken, committed and answered, and behind
//! each batch what is to be done outside is posted.
#![tactic(auto)]

pub mod life;
mod server;

pub use server::serve;
