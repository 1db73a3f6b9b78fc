//! The keeper of the book in a store: it commits batches of commands.
#![tactic(auto)]

pub mod account;
pub mod batch;
pub mod board;
mod deciding;
pub mod keeper;
pub mod laws;
pub mod outcome;
mod receipts;
mod shutting;
pub mod stamp;
mod survey;
mod transaction;
mod verify;
mod waiting;
