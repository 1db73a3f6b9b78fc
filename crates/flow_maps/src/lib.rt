//! What is known of a book in memory, kept beside it while it is changed: which run a request started, which one of a flow is open,
//! of each open run its head, what it waits for and its last activities, where signals are recorded, how many texts there are, and some
//! of them.
#![tactic(auto)]

mod apart;
pub mod book_texts;
pub mod calls;
pub mod facts;
pub mod gathering;
pub mod heads;
pub mod index;
mod left;
pub mod maps;
pub mod name;
pub mod open_seats;
pub mod outlook;
pub mod seat;
pub mod signals;
pub mod texts;
pub mod time_slots;
mod turned;
pub mod undo;
