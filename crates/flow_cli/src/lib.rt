//! The programs: what words, lines and files mean to `flow`, and what it answers.
#![tactic(auto)]

pub mod cache;
pub mod call;
pub mod change;
pub mod check;
pub mod ending;
pub mod history;
pub mod lines;
pub mod listing;
pub mod place;
pub mod reason;
pub mod replaying;
pub mod safety;
pub mod settlement;
pub mod spelling;
pub mod telling;
pub mod totals;
pub mod usage;
pub mod work;
