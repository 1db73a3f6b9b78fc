//! A thousand commands over a store that counts its calls: each batch is kept, and the book is the same however they are cut.
use crate::books::book;
use crate::course::{Course, NOTHING, Plan};
use crate::files::{Counted, empty, found_in, undisturbed};
use std::alloc::Global;
use std::test::Fail;

fn kept(course: Course) -> u64 {
    if course.is_whole(course.kept) {
        course.kept
    } else {
        0
    }
}

/// How many batches were kept, and how many calls of the disk they needed, where the book is the right one. Behind the plan's batches
/// there is another plan's.
fn all_kept(alloc: Global, plan: Plan, rest: Plan, wanted: Option<u64>) -> Option<[u64; 2]> {
    let Counted {
        course,
        calls,
        files,
    } = undisturbed(alloc, empty(alloc), plan)?;
    let last = undisturbed(alloc, files, rest)?;
    let figures = [
        kept(course).saturating_add(kept(last.course)),
        calls.saturating_add(last.calls),
    ];
    let Counted { files, .. } = last;
    if wanted.is_some() && found_in(alloc, files) == wanted {
        Some(figures)
    } else {
        None
    }
}

/// The same of the first thousand commands, whose book is found over memory in batches of 50.
fn thousand(alloc: Global, plan: Plan, rest: Plan) -> [u64; 2] {
    let (wanted, _told) = book(alloc, Plan::first(50, 20));
    all_kept(alloc, plan, rest, wanted).unwrap_or([0, 0])
}

#[test]
fn a_thousand_commands_are_kept_singly(rt: HostRuntime) -> Result<(), Fail> {
    let figures = thousand(rt.alloc(), Plan::first(1, 1000), NOTHING);
    println!(rt; "a thousand commands, batches of 1: {figures:?}")?;
    assert!(rt; figures[0] == 1000);
    Ok(())
}

#[test]
fn a_thousand_commands_are_kept_in_pairs(rt: HostRuntime) -> Result<(), Fail> {
    let figures = thousand(rt.alloc(), Plan::first(2, 500), NOTHING);
    println!(rt; "a thousand commands, batches of 2: {figures:?}")?;
    assert!(rt; figures[0] == 500);
    Ok(())
}

// The last forty are a batch of their own.
#[test]
fn a_thousand_commands_are_kept_in_16_batches(rt: HostRuntime) -> Result<(), Fail> {
    let figures = thousand(
        rt.alloc(),
        Plan::first(64, 15),
        Plan::first(40, 25).only(24),
    );
    println!(rt; "a thousand commands, batches of 64: {figures:?}")?;
    assert!(rt; figures[0] == 16);
    Ok(())
}
