//! Whether the answers of a race are as they should be.
use crate::note::{Note, Raced};
use crate::plan::Plan;
use std::alloc::Global;

/// The receipts of all threads in the order of places.
pub fn in_order(alloc: Global, notes: &[Vec<Note>]) -> Option<Vec<Note>> {
    let mut receipts = Vec::new(alloc);
    for some in notes {
        for note in some {
            if note.code == 0 {
                receipts.push(*note).ok()?;
            }
        }
    }
    receipts.sort_by_key(|note: &Note| note.place).ok()?;
    Some(receipts)
}

/// The numbers of the commands of these receipts.
pub fn numbers_in(alloc: Global, receipts: &[Note]) -> Option<Vec<u64>> {
    let mut numbers = Vec::new(alloc);
    for receipt in receipts {
        numbers.push(receipt.number).ok()?;
    }
    Some(numbers)
}

/// How many commands a plan has, with the text.
fn count_of(plan: Plan) -> u64 {
    plan.threads.saturating_mul(plan.each).saturating_add(1)
}

/// The numbers of all its commands.
pub fn numbers_of(alloc: Global, plan: Plan) -> Option<Vec<u64>> {
    let mut numbers = Vec::new(alloc);
    for number in 0..count_of(plan) {
        numbers.push(number).ok()?;
    }
    Some(numbers)
}

/// Whether each submitter's tickets, places and commands rise as it has fetched them.
fn is_fair(notes: &[Vec<Note>]) -> bool {
    for some in notes {
        if !is_rising(some.as_slice()) {
            return false;
        }
    }
    true
}

fn is_rising(notes: &[Note]) -> bool {
    let mut last: Option<Note> = None;
    for note in notes {
        if note.code == 0 {
            if let Some(last) = last {
                if note.ticket <= last.ticket
                    || note.place <= last.place
                    || note.number <= last.number
                {
                    return false;
                }
            }
            last = Some(*note);
        }
    }
    true
}

/// How many answers have this number.
pub fn count(notes: &[Vec<Note>], code: u8) -> u64 {
    let mut count: u64 = 0;
    for some in notes {
        for note in some {
            if note.code == code {
                count = count.saturating_add(1);
            }
        }
    }
    count
}

/// Whether every command is told what became of it: it is kept, or where the store has failed, E84 for those of one batch, and E85
/// for what waited or E91 for what came later.
fn is_told(raced: &Raced, plan: Plan) -> bool {
    let notes = raced.notes.as_slice();
    let all = count_of(plan);
    let kept = count(notes, 0);
    let unknown = count(notes, 84);
    let later = count(notes, 85).saturating_add(count(notes, 91));
    if raced.ended == 0 {
        return kept == all;
    }
    raced.ended == 84
        && kept > 1
        && unknown > 0
        && unknown <= plan.most as u64
        && later > 0
        && kept.saturating_add(unknown).saturating_add(later) == all
}

/// Whether the places are the numbers from 1 on, and the runs are numbered in their order.
fn is_one_order(receipts: &[Note]) -> bool {
    let mut place: u64 = 0;
    for receipt in receipts {
        place = place.saturating_add(1);
        if receipt.place != place || receipt.named != place.saturating_sub(1).max(1) {
            return false;
        }
    }
    true
}

/// Whether the same commands got the same replies, but that runs were there before where that is said.
fn is_same(receipts: &[Note], others: &[Note], is_again: bool) -> bool {
    if receipts.len() != others.len() {
        return false;
    }
    for at in 0..receipts.len() {
        let (one, other) = (receipts[at], others[at]);
        if one.number != other.number
            || one.named != other.named
            || other.is_again != (is_again && other.number > 0)
        {
            return false;
        }
    }
    true
}

/// What isn't as it should be, in words. Of the receipts' commands `again` is what one thread got over the same store, and `anew` over a
/// new one.
pub fn verdict(
    raced: &Raced,
    plan: Plan,
    receipts: &[Note],
    again: &[Note],
    anew: &[Note],
) -> &'static str {
    if !is_told(raced, plan) {
        return "not every command is told what became of it";
    }
    if !is_one_order(receipts) {
        return "the places are not those of one order";
    }
    if !is_fair(raced.notes.as_slice()) {
        return "a submitter's places do not rise";
    }
    if raced.published != receipts.len() as u64 {
        return "not all receipts are published";
    }
    if !is_same(receipts, again, true) {
        return "not all that has a receipt is in the store";
    }
    if !is_same(receipts, anew, false) {
        return "the replies are not those to one thread";
    }
    "as it should be"
}
