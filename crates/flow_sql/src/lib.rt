//! What the texts of SQL mean over the six tables, as definitions and lemmas, and the statements of a transaction.
#![tactic(auto)]

pub mod transaction;
pub mod unended;
