//! What the program prints.
use crate::course::{Course, Turn};
use crate::judging::count;
use crate::note::Raced;
use crate::plan::{Asked, Plan, name_at};
use std::io;
use std::time::Instant;

/// Prints what is said of a race.
fn tell_race(host: &HostRuntime, name: &str, plan: Plan, course: &Course) -> io::Result<()> {
    match course.judged(host.alloc(), plan) {
        Some((ended, told)) => println!(host; "{name}: ended by {ended}, {told}"),
        None => println!(host; "{name}: given up"),
    }
}

/// How many commands are kept.
fn count_kept(made: &Option<Raced>) -> u64 {
    match made {
        Some(made) => count(made.notes.as_slice(), 0),
        None => 0,
    }
}

/// Prints how many commands are kept, and how many microseconds it took.
fn tell_time(host: &HostRuntime, start: Instant, count: u64) -> io::Result<()> {
    let micros = start.elapsed(host)?.as_micros();
    println!(host; "{count} {micros}")
}

/// Prints what is asked for behind a turn of this number: what is said of a race, once it was followed by one thread over the same store
/// and over a new one; or how long the turn took.
pub fn tell(
    host: &HostRuntime,
    asked: Asked,
    at: u64,
    turn: Turn,
    start: Instant,
    course: &mut Course,
    made: Option<Raced>,
) -> io::Result<()> {
    let count = count_kept(&made);
    course.put(turn, made);
    match (asked, turn) {
        (Asked::Races, Turn::Anew(plan)) => tell_race(host, name_at(at / 3), plan, course),
        (Asked::Races, _) => Ok(()),
        _ => tell_time(host, start, count),
    }
}
