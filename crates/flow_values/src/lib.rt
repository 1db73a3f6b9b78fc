//! The value of an expression, or its fault.
#![tactic(auto)]

pub mod evaluate;
pub mod fault;
pub mod named;
pub mod slots;
