//! From tokens to programs, and back to text.
#![tactic(auto)]

mod cursor;
mod expression;
pub mod fault;
pub mod laws;
mod levels;
pub mod limits;
mod listed;
pub mod parse;
pub mod print;
mod print_expression;
mod print_statement;
mod printer;
mod program;
mod readable;
mod statement;

pub use flow_base::syntax::Program;
