//! The book in rows: which rows stand for which book, and the first damage of those that stand for none.
#![tactic(auto)]

pub mod book;
pub mod change_rows;
pub mod damage;
pub mod dues;
mod events;
pub mod head;
pub mod inspection;
mod outbox;
pub mod pass;
pub mod recall;
pub mod rows;
mod run_rows;
mod runs;
mod stray_rows;
mod taken_names;
mod texts;
mod timers;
mod told_run;
pub mod type_facts;
