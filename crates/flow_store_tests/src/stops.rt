//! Batches over a store that stops at each of its calls, one stop after the other: before the call, within it and after it, where the
//! process ends and where the machine does. What is opened then has each batch that was kept, and no part of another. The same of
//! openings, of an empty store and of filled ones: the book stays what it was.
use crate::books::{Books, books_of};
use crate::course::{Course, Ended, FILLING, NOTHING, Plan};
use crate::files::{Disturbed, calls_over, copies, crashed, empty, found_in, left_by, stopped};
use crate::stride::{is_met, stride};
use flow_crash::calls::{Part, Stop};
use sqlite::Files;
use sqlite_disk::Memory;
use std::alloc::Global;
use std::test::Fail;

/// The ways to stop at a call, and whether the machine ends too. Then what was synced is left, else all that was written.
const WAYS: [(Part, bool); 6] = [
    (Part::Before, true),
    (Part::Half, false),
    (Part::After, true),
    (Part::Before, false),
    (Part::Half, true),
    (Part::After, false),
];

/// How many stops left what.
#[derive(Clone, Copy)]
struct Stops {
    /// The book of the batches that were kept.
    kept: u64,
    /// That of one batch more, of which nobody knew.
    more: u64,
    /// What may not be.
    wrong: u64,
}

/// After the first batch that wasn't kept no other is. One that needs no read may come to its commit, of which nobody knows then.
fn is_stopped(course: Course) -> bool {
    let is_broken = course.broken != Ended::Halted && course.broken != Ended::Other;
    is_broken && course.kept_later == 0 && course.unknown <= 1 && course.other == 0
}

fn has_more(course: Course, book: Option<u64>, books: &Books) -> bool {
    course.broken == Ended::Unknown && books.is_after(course.kept.saturating_add(1), book)
}

/// What a stop has left.
#[derive(Clone, Copy)]
enum Left {
    Kept,
    More,
    Wrong,
}

fn left_by_stop(course: Course, book: Option<u64>, books: &Books) -> Left {
    if !is_stopped(course) || !books.are_told(&course) {
        return Left::Wrong;
    }
    if books.is_after(course.kept, book) {
        return Left::Kept;
    }
    if has_more(course, book, books) {
        return Left::More;
    }
    Left::Wrong
}

impl Stops {
    fn count(&mut self, left: Left) {
        let count = match left {
            Left::Kept => &mut self.kept,
            Left::More => &mut self.more,
            Left::Wrong => &mut self.wrong,
        };
        *count = count.saturating_add(1);
    }

    fn look(&mut self, alloc: Global, disturbed: Disturbed, is_machine: bool, books: &Books) {
        let Disturbed {
            asked,
            files,
            is_reached,
        } = disturbed;
        let files = if is_machine { crashed(files) } else { files };
        let book = found_in(alloc, files);
        // A stop that isn't reached came to nothing.
        self.count(if is_reached {
            left_by_stop(asked.course, book, books)
        } else {
            Left::Wrong
        });
    }
}

fn stopped_at(alloc: Global, base: &Files<Memory>, plan: Plan, stop: Stop) -> Option<Disturbed> {
    stopped(alloc, copies(alloc, base)?, stop, plan)
}

/// A way to stop, by its number, and at which of the calls.
#[derive(Clone, Copy)]
struct Along {
    way: usize,
    calls: u64,
    step: u64,
}

/// Stops at each call in one way, or at a part of them.
fn stop_along(
    alloc: Global,
    base: &Files<Memory>,
    plan: Plan,
    books: &Books,
    along: Along,
    stops: &mut Stops,
) {
    if along.way >= 6 {
        return;
    }
    let (part, is_machine) = WAYS[along.way];
    for call in 0..along.calls {
        let at = call.saturating_add(1);
        if is_met(at, along.way as u64, along.step) {
            match stopped_at(alloc, base, plan, Stop { at, part }) {
                Some(disturbed) => stops.look(alloc, disturbed, is_machine, books),
                None => stops.count(Left::Wrong),
            }
        }
    }
}

/// The calls that are needed without a stop, the stops that left the book of what was kept, those that left one batch more, and the
/// wrong ones.
pub fn swept(
    alloc: Global,
    base: &Files<Memory>,
    plan: Plan,
    books: &Books,
    step: u64,
) -> [u64; 4] {
    let calls = calls_over(alloc, base, plan).unwrap_or(0);
    let mut stops = Stops {
        kept: 0,
        more: 0,
        wrong: 0,
    };
    for way in 0..6 {
        stop_along(
            alloc,
            base,
            plan,
            books,
            Along { way, calls, step },
            &mut stops,
        );
    }
    [calls, stops.kept, stops.more, stops.wrong]
}

/// Of batches over an empty store.
fn batches(alloc: Global, plan: Plan, step: u64) -> [u64; 4] {
    match &books_of(alloc, plan) {
        Some(books) => swept(alloc, &empty(alloc), plan, books, step),
        None => [0, 0, 0, 1],
    }
}

/// Of the opening of a store that these batches fill and that stops at its last call but so many, or at none.
fn openings(alloc: Global, plan: Plan, before: Option<u64>, step: u64) -> Option<[u64; 4]> {
    let base = left_by(alloc, plan, before)?;
    let books = Books::of(alloc, found_in(alloc, copies(alloc, &base)?))?;
    Some(swept(alloc, &base, NOTHING, &books, step))
}

/// Both books are left by some stops, and no other.
fn are_right(figures: [u64; 4]) -> bool {
    figures[1] > 0 && figures[2] > 0 && figures[3] == 0
}

/// The book is left by all.
pub fn is_right(figures: Option<[u64; 4]>) -> bool {
    match figures {
        Some(figures) => figures[1] > 0 && figures[2] == 0 && figures[3] == 0,
        None => false,
    }
}

#[test]
fn a_stop_leaves_whole_batches_of_1(rt: HostRuntime) -> Result<(), Fail> {
    let figures = batches(rt.alloc(), Plan::first(1, 12), stride(&rt, 6));
    println!(rt; "stops, batches of 1: {figures:?}")?;
    assert!(rt; are_right(figures));
    Ok(())
}

#[test]
fn a_stop_leaves_whole_batches_of_2(rt: HostRuntime) -> Result<(), Fail> {
    let figures = batches(rt.alloc(), Plan::first(2, 8), stride(&rt, 6));
    println!(rt; "stops, batches of 2: {figures:?}")?;
    assert!(rt; are_right(figures));
    Ok(())
}

#[test]
fn a_stop_leaves_whole_batches_of_64(rt: HostRuntime) -> Result<(), Fail> {
    let figures = batches(rt.alloc(), Plan::first(64, 2), stride(&rt, 6));
    println!(rt; "stops, batches of 64: {figures:?}")?;
    assert!(rt; are_right(figures));
    Ok(())
}

#[test]
fn a_stop_in_an_opening_leaves_an_empty_store(rt: HostRuntime) -> Result<(), Fail> {
    let figures = openings(rt.alloc(), NOTHING, Some(u64::MAX), stride(&rt, 6));
    println!(rt; "openings of an empty store: {figures:?}")?;
    assert!(rt; is_right(figures));
    Ok(())
}

#[test]
fn a_stop_in_an_opening_leaves_a_closed_store(rt: HostRuntime) -> Result<(), Fail> {
    let figures = openings(rt.alloc(), FILLING, None, stride(&rt, 6));
    println!(rt; "openings of a closed store: {figures:?}")?;
    assert!(rt; is_right(figures));
    Ok(())
}

#[test]
fn a_stop_in_an_opening_leaves_a_killed_store(rt: HostRuntime) -> Result<(), Fail> {
    let figures = openings(rt.alloc(), FILLING, Some(0), stride(&rt, 6));
    println!(rt; "openings of a killed store: {figures:?}")?;
    assert!(rt; is_right(figures));
    Ok(())
}
