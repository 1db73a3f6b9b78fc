//! What shows a book: reads, which leave it, and changes.
#![tactic(auto)]

pub mod due;
pub mod fault;
pub mod head;
pub mod history;
pub mod left;
pub mod lists;
pub mod outline;
pub mod run;
pub mod view;
