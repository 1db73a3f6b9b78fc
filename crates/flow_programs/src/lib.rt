//! The programs that texts are, kept once they were read.
#![tactic(auto)]

pub mod kept;
mod known;
pub mod programs;
