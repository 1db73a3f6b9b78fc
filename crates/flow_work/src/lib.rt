//! The running engine as a program: threads that serve, run activities, fire timers, read lines and print replies.
#![tactic(auto)]

pub mod clerk;
pub mod clock;
pub mod counter;
pub mod crew;
pub mod desk;
pub mod ended;
pub mod giving;
pub mod handing;
pub mod input;
pub mod lines;
pub mod moments;
pub mod owing;
pub mod page;
pub mod progress;
pub mod question;
pub mod queue;
pub mod reports;
pub mod running;
pub mod serving;
pub mod settings;
pub mod shown;
pub mod skills;
pub mod starting;
pub mod status;
mod stopping;
pub mod tally;
pub mod tasks;
pub mod teller;
pub mod timer;
pub mod unknown;
pub mod workers;
