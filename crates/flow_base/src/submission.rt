//! Commands as they come in, and what is answered to each that is kept.
use crate::command::{Command, Reply};

/// A command that was submitted, with the ticket that its submitter got for it.
#[derive(Debug, Drop)]
pub struct Taken {
    pub ticket: u64,
    pub command: Command,
}

/// What was answered to a command that was kept.
#[derive(Debug, Drop)]
pub struct Receipt {
    /// The ticket of its submission.
    pub ticket: u64,
    /// Its place among the commands kept since the store was opened, from 1 on.
    pub place: u64,
    pub command: Command,
    pub reply: Reply,
}
