//! Many threads that submit to one engine, and one that serves: what they get, and how long it takes.
//!
//! Without a word it tells what became of three races over a file: two threads, eight threads, and eight over a file that fails.
//! `serve THREADS EACH UNFETCHED BATCH PAUSE` runs one race, `drive ..` the same commands in the same batches on one thread, and both
//! print how many commands are kept and the microseconds.
#![tactic(auto)]

mod commands;
mod course;
mod driving;
mod judging;
mod note;
mod plan;
mod racing;
mod stores;
mod submitting;
mod telling;

use crate::course::{Course, turn_at};
use crate::plan::asked_by;
use crate::racing::play;
use crate::stores::{clear, close, open};
use crate::telling::tell;
use std::time::Instant;
use std::{env, io};

/// Threads are started over the store here, where both the store and who starts threads are known: what crosses to a thread is found
/// then to be such as may.
fn main(rt: HostRuntime) -> io::Result<()> {
    let words = env::args(&rt)?.collect::<Vec<String>>(rt.alloc())?;
    let asked = asked_by(words.as_slice());
    drop(words);
    let start = Instant::now(&rt)?;
    let mut course = Course::new();
    for at in 0..9 {
        if let Some(turn) = turn_at(asked, at) {
            if turn.is_anew() {
                clear(&rt);
            }
            let made = match open(&rt, turn.calls()) {
                Some(conn) => {
                    let (made, conn) = play(&rt, rt.alloc(), conn, turn, &course);
                    close(conn);
                    made
                }
                None => None,
            };
            tell(&rt, asked, at, turn, start, &mut course, made)?;
        }
    }
    clear(&rt);
    Ok(())
}
