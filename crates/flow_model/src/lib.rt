//! What is right: the definitions of texts, runs and books, and their laws.
#![tactic(auto)]

pub mod answer;
pub mod checked;
pub mod kinds;
pub mod laws;
mod tabled;
pub mod texts;
