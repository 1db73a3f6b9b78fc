//! Whether `turn` and `plain_turn` do the same, turn by turn: over texts with histories, and over texts whose inputs it makes by a
//! fixed rule. It reads blocks, with an empty line behind each: a line with a text, and then the lines of a history, or one with the
//! number of turns that are to be made.
#![tactic(auto)]

mod blocks;
mod compare;
mod inputs;

use crate::blocks::{Outcome, compare_block};
use std::alloc::AllocError;
use std::io;
use std::process::ExitCode;

fn main(rt: HostRuntime) -> ExitCode {
    match compared(&rt) {
        Ok(true) => ExitCode::SUCCESS,
        _ => ExitCode::FAILURE,
    }
}

// Compares block after block, and prints each in which the two differ, and how many turns were made in all.
fn compared(rt: &HostRuntime) -> io::Result<bool> {
    let input = io::read_to_string(rt.alloc(), rt.stdin())?;
    let mut turns: u64 = 0;
    let mut blocks: u64 = 0;
    let mut refused: u64 = 0;
    let mut differ: u64 = 0;
    let mut unread: u64 = 0;
    for block in input.as_str().split("\n\n") {
        match compare_block(rt.alloc(), block) {
            Ok(Outcome::Same(same)) => {
                blocks = blocks.saturating_add(1);
                turns = turns.saturating_add(same.made);
                refused = refused.saturating_add(same.refused);
            }
            Ok(Outcome::Differs(n)) => {
                differ = differ.saturating_add(1);
                println!(rt; "differ at turn {n} of\n{block}\n")?;
            }
            Ok(Outcome::Unread) => unread = unread.saturating_add(1),
            Err(AllocError { .. }) => return Ok(false),
        }
    }
    println!(rt;
        "{blocks} blocks: {turns} turns the same, {refused} of them refused; {differ} blocks differ, {unread} not read"
    )?;
    Ok(differ == 0)
}
