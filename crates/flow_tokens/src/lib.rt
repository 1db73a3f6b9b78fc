//! The tokens of a program text.
#![tactic(auto)]

mod gap;
mod keyword;
mod mark;
mod run;
mod scan;
mod token_list;
mod words;

pub use keyword::spelled;
pub use scan::tokens;
pub use token_list::{Tokens, TokensFault};
