//! Batches over a store of which one call fails, each one in turn. One batch at most isn't applied, or nobody knows of it; and what is
//! opened then is a book that the answers allow.
use crate::books::{Books, books_of};
use crate::course::{Course, Ended, Plan};
use crate::files::{Asked, Disturbed, calls_over, copies, empty, failed, found_in};
use crate::stride::{is_met, stride};
use sqlite::Files;
use sqlite_disk::Memory;
use std::alloc::Global;
use std::test::Fail;

/// How many failing calls came to what.
#[derive(Clone, Copy)]
struct Failures {
    /// The store wasn't opened.
    unopened: u64,
    /// All was kept all the same.
    kept: u64,
    /// One batch wasn't applied, and all others were kept.
    given_up: u64,
    /// Nobody knew of one batch, and those after it were refused.
    unknown: u64,
    /// After that an engine was opened over the same connection.
    again: u64,
    wrong: u64,
}

/// What is left behind the batch that wasn't kept: so many kept ones, so many refused ones, and nothing else.
fn is_left(course: Course, kept: u64, halted: u64) -> bool {
    let is_nothing_else = course.given_up == 0 && course.unknown == 0 && course.other == 0;
    is_nothing_else && course.kept_later == kept && course.halted == halted
}

/// Whether it is a book without the batch that nobody knows of, or with it.
fn is_either(course: Course, book: Option<u64>, books: &Books) -> bool {
    books.is_after(course.kept, book) || books.is_after(course.kept.saturating_add(1), book)
}

/// What one failing call has come to.
#[derive(Clone, Copy)]
enum Outcome {
    Unopened,
    Kept,
    GivenUp,
    Unknown,
    Wrong,
}

/// What a failing call has come to, where the book that is found is the right one.
fn outcome_of(plan: Plan, course: Course, book: Option<u64>, books: &Books) -> Outcome {
    let rest = plan.to.saturating_sub(course.kept).saturating_sub(1);
    match course.broken {
        Ended::Kept if !course.is_open && books.is_after(0, book) => Outcome::Unopened,
        Ended::Kept if course.is_whole(plan.to) && books.is_after(plan.to, book) => Outcome::Kept,
        Ended::GivenUp if is_left(course, rest, 0) && books.is_without(course.kept, book) => {
            Outcome::GivenUp
        }
        Ended::Unknown if is_left(course, 0, rest) && is_either(course, book, books) => {
            Outcome::Unknown
        }
        _ => Outcome::Wrong,
    }
}

impl Failures {
    fn count(&mut self, outcome: Outcome) {
        let count = match outcome {
            Outcome::Unopened => &mut self.unopened,
            Outcome::Kept => &mut self.kept,
            Outcome::GivenUp => &mut self.given_up,
            Outcome::Unknown => &mut self.unknown,
            Outcome::Wrong => &mut self.wrong,
        };
        *count = count.saturating_add(1);
    }

    fn note(&mut self, plan: Plan, asked: Asked, book: Option<u64>, books: &Books) {
        let outcome = outcome_of(plan, asked.course, book, books);
        self.count(if books.are_told(&asked.course) {
            outcome
        } else {
            Outcome::Wrong
        });
        // Both openings find the same book. A disk whose sync failed can't be opened over again.
        if asked.again.is_some() {
            if asked.again == book {
                self.again = self.again.saturating_add(1);
            } else {
                self.count(Outcome::Wrong);
            }
        }
    }

    fn look(&mut self, alloc: Global, plan: Plan, disturbed: Disturbed, books: &Books) {
        let Disturbed {
            asked,
            files,
            is_reached,
        } = disturbed;
        let book = found_in(alloc, files);
        if is_reached {
            self.note(plan, asked, book, books);
        } else {
            self.count(Outcome::Wrong);
        }
    }

    fn fail(&mut self, alloc: Global, base: &Files<Memory>, plan: Plan, at: u64, books: &Books) {
        match failed_at(alloc, base, plan, at) {
            Some(disturbed) => self.look(alloc, plan, disturbed, books),
            None => self.count(Outcome::Wrong),
        }
    }
}

fn failed_at(alloc: Global, base: &Files<Memory>, plan: Plan, at: u64) -> Option<Disturbed> {
    failed(alloc, copies(alloc, base)?, at, plan)
}

/// The calls that are needed without a failure, and how many failures weren't opened, kept, given up, unknown, unknown and opened
/// again, and wrong.
pub fn swept(
    alloc: Global,
    base: &Files<Memory>,
    plan: Plan,
    books: &Books,
    step: u64,
) -> [u64; 7] {
    let calls = calls_over(alloc, base, plan).unwrap_or(0);
    let mut it = Failures {
        unopened: 0,
        kept: 0,
        given_up: 0,
        unknown: 0,
        again: 0,
        wrong: 0,
    };
    for call in 0..calls {
        let at = call.saturating_add(1);
        if is_met(at, 1, step) {
            it.fail(alloc, base, plan, at, books);
        }
    }
    [
        calls,
        it.unopened,
        it.kept,
        it.given_up,
        it.unknown,
        it.again,
        it.wrong,
    ]
}

fn batches(alloc: Global, plan: Plan, step: u64) -> [u64; 7] {
    match &books_of(alloc, plan) {
        Some(books) => swept(alloc, &empty(alloc), plan, books, step),
        None => [0, 0, 0, 0, 0, 0, 1],
    }
}

/// Some batches were given up and some are unknown, and nothing was wrong.
fn are_right(figures: [u64; 7]) -> bool {
    figures[3] > 0 && figures[4] > 0 && figures[6] == 0
}

#[test]
fn a_failure_breaks_one_batch_of_1(rt: HostRuntime) -> Result<(), Fail> {
    let figures = batches(rt.alloc(), Plan::first(1, 12), stride(&rt, 2));
    println!(rt; "failures, batches of 1: {figures:?}")?;
    assert!(rt; are_right(figures));
    Ok(())
}

#[test]
fn a_failure_breaks_one_batch_of_2(rt: HostRuntime) -> Result<(), Fail> {
    let figures = batches(rt.alloc(), Plan::first(2, 8), stride(&rt, 2));
    println!(rt; "failures, batches of 2: {figures:?}")?;
    assert!(rt; are_right(figures));
    Ok(())
}

#[test]
fn a_failure_breaks_one_batch_of_64(rt: HostRuntime) -> Result<(), Fail> {
    let figures = batches(rt.alloc(), Plan::first(64, 2), stride(&rt, 2));
    println!(rt; "failures, batches of 64: {figures:?}")?;
    assert!(rt; are_right(figures));
    Ok(())
}
