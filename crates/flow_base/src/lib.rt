//! The plain types of `flow`: values, programs, events, books and commands.
#![tactic(auto)]

pub mod book;
pub mod code;
pub mod command;
pub mod effect;
pub mod encoding;
pub mod event;
pub mod fault;
pub mod fields;
pub mod memory;
mod names;
pub mod number;
pub mod row;
pub mod sequence;
pub mod submission;
pub mod syntax;
pub mod task;
pub mod text;
pub mod token;
pub mod value;
