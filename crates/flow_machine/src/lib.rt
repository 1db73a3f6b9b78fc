//! Decides commands over a view of a book.
#![tactic(auto)]

mod complete;
pub mod decide;
mod describe;
mod fail;
mod going;
mod history;
pub mod laws;
mod listing;
pub mod programs;
mod puts;
pub mod reached;
mod register;
mod report;
pub mod seats;
mod signal;
mod start;
mod terminate;
mod tick;
mod turns;
mod upgrade;
pub mod verify;

pub use flow_base::book::Change;
pub use flow_base::command::{Command, Reply};
pub use flow_base::submission::{Receipt, Taken};
pub use flow_base::task::Task;
