//! A disk of which one call fails: that one alone is refused, and nothing of it is carried out.
use crate::disk_calls::{Answer, Ask, answer_to, is_left, read_checked_thrice, six_bytes};
use flow_crash::calls::Calls;
use flow_crash::fail_at::FailAt;
use flow_crash::numbered::Numbered;
use sqlite_disk::{Disk, Memory, digest_of};
use std::alloc::Global;
use std::test::Fail;

/// What is asked of a file of six bytes.
const ASKED: [Ask; 6] = [
    Ask::Write(1, "UVWX"),
    Ask::Sync,
    Ask::SetLen(5),
    Ask::Read(2),
    Ask::Len,
    Ask::Write(0, "q"),
];

/// The number of the call that fails, what all are answered, what the file holds then, and what a crash leaves of it.
type Row = (u64, [Answer; 6], &'static str, &'static str);

const D: Answer = Answer::Done;

const R: Answer = Answer::Refused;

const U: Answer = Answer::Unasked;

const VWX: Answer = Answer::Bytes([86, 87, 88]);

const CDE: Answer = Answer::Bytes([99, 100, 101]);

const L5: Answer = Answer::Len(5);

const L6: Answer = Answer::Len(6);

const ROWS: [Row; 8] = [
    (0, [D, D, D, VWX, L5, D], "qUVWX", "aUVWXf"),
    (1, [R, D, D, CDE, L5, D], "qbcde", "abcdef"),
    (2, [D, R, U, U, U, U], "aUVWXf", "abcd"),
    (3, [D, D, R, VWX, L6, D], "qUVWXf", "aUVWXf"),
    (4, [D, D, D, R, L5, D], "qUVWX", "aUVWXf"),
    (5, [D, D, D, VWX, R, D], "qUVWX", "aUVWXf"),
    (6, [D, D, D, VWX, L5, R], "aUVWX", "aUVWXf"),
    (7, [D, D, D, VWX, L5, D], "qUVWX", "aUVWXf"),
];

fn failing(alloc: Global, at: u64) -> Option<Numbered<Memory, FailAt>> {
    let calls = Calls::new(alloc).ok()?;
    Some(Numbered::new(six_bytes(alloc)?, FailAt::new(calls, at)))
}

/// The number of the first call that isn't answered so.
fn first_other_answer(file: &mut Numbered<Memory, FailAt>, wanted: &[Answer; 6]) -> usize {
    for i in 0..6 {
        if answer_to(file, ASKED[i]) != wanted[i] {
            return i;
        }
    }
    6
}

fn count(answers: &[Answer; 6], of: Answer) -> u64 {
    let mut count = 0u64;
    for answer in answers {
        if *answer == of {
            count = count.saturating_add(1);
        }
    }
    count
}

fn fails_at(file: Numbered<Memory, FailAt>, row: &Row) -> bool {
    let mut file = file;
    let is_answered = first_other_answer(&mut file, &row.1) == 6;
    let is_numbered = file.last() == 6u64.saturating_sub(count(&row.1, Answer::Unasked));
    let is_counted = file.refusals() == count(&row.1, Answer::Refused);
    is_answered && is_numbered && is_counted && is_left(file.into_inner(), row.2, row.3)
}

/// The number of the first row that isn't so.
fn first_other(alloc: Global, rows: &[Row]) -> usize {
    for i in 0..rows.len() {
        let is = match failing(alloc, rows[i].0) {
            Some(file) => fails_at(file, &rows[i]),
            None => false,
        };
        if !is {
            return i;
        }
    }
    rows.len()
}

/// What three tested reads are answered of which the second one fails, and how many do.
fn tested(alloc: Global) -> Option<([Answer; 3], u64)> {
    let inner = six_bytes(alloc)?;
    let want = digest_of(0, inner.bytes().get(..3)?);
    let calls = Calls::new(alloc).ok()?;
    let mut file = Numbered::new(inner, FailAt::new(calls, 2));
    if !file.may_be_used() {
        return None;
    }
    let answers = read_checked_thrice(&mut file, want);
    let refusals = file.refusals();
    if is_left(file.into_inner(), "abcdef", "abcd") {
        return Some((answers, refusals));
    }
    None
}

/// What a read past the end is answered, as a call that passes and as the one that fails.
fn read_past_the_end(alloc: Global) -> Option<([Answer; 2], u64)> {
    let mut file = failing(alloc, 2)?;
    let answers = [
        answer_to(&mut file, Ask::Read(5)),
        answer_to(&mut file, Ask::Read(5)),
    ];
    Some((answers, file.refusals()))
}

#[test]
fn one_call_fails(rt: HostRuntime) -> Result<(), Fail> {
    assert!(rt; first_other(rt.alloc(), &ROWS) == ROWS.len());
    Ok(())
}

#[test]
fn a_tested_read_fails(rt: HostRuntime) -> Result<(), Fail> {
    let bytes = Answer::Bytes([97, 98, 99]);
    let wanted = Some(([bytes, Answer::Refused, bytes], 1));
    assert!(rt; tested(rt.alloc()) == wanted);
    Ok(())
}

#[test]
fn what_the_disk_refuses_is_not_counted(rt: HostRuntime) -> Result<(), Fail> {
    let answers = [Answer::Failed, Answer::Refused];
    assert!(rt; read_past_the_end(rt.alloc()) == Some((answers, 1)));
    Ok(())
}
