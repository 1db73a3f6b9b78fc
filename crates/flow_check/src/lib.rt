//! Whether a program keeps the checking rules: names, types, counts and limits.
#![tactic(auto)]

pub mod check;
pub mod checked;
mod expression;
pub mod fault;
mod first;
pub mod language;
pub mod laws;
mod names;
mod scope;
mod statement;
pub mod texts;
mod wanted;
