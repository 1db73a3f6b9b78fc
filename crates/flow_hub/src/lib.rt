//! Submitters on many threads, and one publisher of receipts.
#![tactic(auto)]

pub mod denied;
pub mod fed;
pub mod feed;
pub mod hub;
pub mod known;
pub mod publisher;
pub mod rested;
pub mod seats;
pub mod settled;
mod state;
pub mod submitter;
pub mod ticket;
mod unfetched;
mod waits;
