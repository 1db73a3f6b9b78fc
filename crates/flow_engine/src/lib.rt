//! The engine over a store: opened, it has the positions of the open runs; it answers one command, a list of them one by one,
//! or several together, all through `drive`.
#![tactic(auto)]

pub mod answering;
pub mod done;
pub mod drive;
pub mod engine;
pub mod headline;
pub mod life;
pub mod together;
