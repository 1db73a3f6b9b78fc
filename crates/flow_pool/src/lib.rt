//! Activities: what runs outside of the engine, and the threads that run it.
#![tactic(auto)]

pub mod activity;
mod attempts;
pub mod builtin;
pub mod channel;
pub mod dispatcher;
pub mod ends;
pub mod hand;
pub mod report;
pub mod unknown;
pub mod worker;
