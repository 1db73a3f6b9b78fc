//! The book in six SQL tables.
#![tactic(auto)]

pub mod ask;
pub mod blocks;
pub mod book_changes;
pub mod create;
pub mod fault;
mod first_due;
mod keys;
pub mod known;
mod learning;
pub mod listener;
mod one_event;
mod one_history;
mod one_run;
pub mod open;
mod open_runs;
mod pass;
pub mod questions;
pub mod row_changes;
pub mod rows;
pub mod run_changes;
pub mod tables;
mod told_runs;
pub mod turn_changes;
pub mod unread;
pub mod utf8;
