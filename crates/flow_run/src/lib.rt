//! One turn of a run: the interpreter of programs, and the position of a run.
#![tactic(auto)]

mod begins;
mod cell;
pub mod decided;
mod deliver;
pub mod fault;
mod joins;
mod places;
pub mod setting;
pub mod stance;
mod standing;
mod store;
mod tasks;
mod turn;
pub mod waits;
mod walk;

pub use flow_base::event::{Cmd, Input};
