//! One turn of a run over a tree of what is left of the program: the definitions of a turn, step by step. It is slow, and serves
//! tests, which compare it with `flow_run`.
#![tactic(auto)]

mod blocks;
mod deliver;
pub mod plain;
mod rest;
mod step;
mod turn;
