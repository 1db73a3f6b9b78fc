//! The table of a program: its lists of statements by number, and which of them stand within each statement.
#![tactic(auto)]

pub mod linked;
mod linking;
pub mod table;
