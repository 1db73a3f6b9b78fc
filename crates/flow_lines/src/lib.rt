//! Lines: commands that are read, replies, tasks and faults that are written, and the loop over both.
#![tactic(auto)]

pub mod ask;
pub mod batch;
pub mod command;
pub mod drive;
pub mod ending;
pub mod fault;
pub mod input;
pub mod output;
pub mod reply;
pub mod streams;
pub mod task;
