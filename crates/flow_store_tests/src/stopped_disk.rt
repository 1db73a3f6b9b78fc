//! A disk that stops at one call: what of that call is carried out, and that nothing of a later one is.
use crate::disk_calls::{Answer, Ask, answer_to, is_left, read_checked_thrice, six_bytes};
use flow_crash::calls::{Calls, Part, Stop};
use flow_crash::numbered::Numbered;
use flow_crash::stop_at::StopAt;
use sqlite_disk::{Disk, Memory, digest_of};
use std::alloc::Global;
use std::test::Fail;

const PARTS: [Part; 3] = [Part::Before, Part::Half, Part::After];

/// What a file of six bytes holds where it stops at a call: before it, at half of it, and behind it.
type Row = (Ask, [&'static str; 3]);

const ROWS: [Row; 7] = [
    (Ask::Write(1, "UVWX"), ["abcdef", "aUVdef", "aUVWXf"]),
    // Of three bytes the half is one, and of one it is none.
    (Ask::Write(5, "XYZ"), ["abcdef", "abcdeX", "abcdeXYZ"]),
    (Ask::Write(0, "Z"), ["abcdef", "abcdef", "Zbcdef"]),
    (Ask::SetLen(2), ["abcdef", "abcdef", "ab"]),
    (Ask::SetLen(8), ["abcdef", "abcdef", "abcdef\0\0"]),
    (Ask::Read(0), ["abcdef", "abcdef", "abcdef"]),
    (Ask::Len, ["abcdef", "abcdef", "abcdef"]),
];

/// What is asked behind the stop. A sync that is refused is the last call that may be made.
const LATER: [Ask; 5] = [
    Ask::Len,
    Ask::Read(0),
    Ask::Write(0, "zz"),
    Ask::SetLen(1),
    Ask::Sync,
];

fn stopping(alloc: Global, at: u64, part: Part) -> Option<Numbered<Memory, StopAt>> {
    let calls = Calls::new(alloc).ok()?;
    Some(Numbered::new(six_bytes(alloc)?, StopAt::new(calls, Stop { at, part })))
}

/// How many of these calls are refused.
fn refused(file: &mut Numbered<Memory, StopAt>, calls: &[Ask]) -> u64 {
    let mut count = 0u64;
    for call in calls {
        if answer_to(file, *call) == Answer::Refused {
            count = count.saturating_add(1);
        }
    }
    count
}

fn has(file: &Numbered<Memory, StopAt>, last: u64, refusals: u64) -> bool {
    file.last() == last && file.refusals() == refusals
}

/// Whether this call is refused as the second one, so many later ones are too, and the file is left so.
fn stops_at(file: Numbered<Memory, StopAt>, call: Ask, later: u64, seen: &str, left: &str) -> bool {
    let mut file = file;
    let is_passed = answer_to(&mut file, Ask::Len) == Answer::Len(6) && has(&file, 1, 0);
    let is_refused = answer_to(&mut file, call) == Answer::Refused && has(&file, 2, 1);
    let is_over = refused(&mut file, &LATER) == later && has(&file, 2, later.saturating_add(1));
    is_passed && is_refused && is_over && is_left(file.into_inner(), seen, left)
}

fn is_stopped(alloc: Global, call: Ask, part: Part, later: u64, seen: &str, left: &str) -> bool {
    match stopping(alloc, 2, part) {
        Some(file) => stops_at(file, call, later, seen, left),
        None => false,
    }
}

fn is_row(alloc: Global, row: &Row) -> bool {
    let mut is = true;
    for i in 0..3 {
        is = is && is_stopped(alloc, row.0, PARTS[i], 5, row.1[i], "abcd");
    }
    is
}

/// The number of the first row that isn't so.
fn first_other(alloc: Global, rows: &[Row]) -> usize {
    for i in 0..rows.len() {
        if !is_row(alloc, &rows[i]) {
            return i;
        }
    }
    rows.len()
}

/// What three tested reads are answered of which the second one is refused, and how many were.
fn tested(alloc: Global, part: Part) -> Option<([Answer; 3], u64)> {
    let inner = six_bytes(alloc)?;
    let want = digest_of(0, inner.bytes().get(..3)?);
    let calls = Calls::new(alloc).ok()?;
    let mut file = Numbered::new(inner, StopAt::new(calls, Stop { at: 2, part }));
    if !file.may_be_used() {
        return None;
    }
    let answers = read_checked_thrice(&mut file, want);
    let refusals = file.refusals();
    if is_left(file.into_inner(), "abcdef", "abcd") {
        return Some((answers, refusals));
    }
    None
}

fn is_tested(alloc: Global, part: Part) -> bool {
    let wanted = [
        Answer::Bytes([97, 98, 99]),
        Answer::Refused,
        Answer::Refused,
    ];
    tested(alloc, part) == Some((wanted, 2))
}

/// Whether nothing of a file is carried out that stops before its first call.
fn is_stopped_at_once(alloc: Global, at: u64) -> bool {
    match stopping(alloc, at, Part::Before) {
        Some(file) => {
            let mut file = file;
            let is_refused = refused(&mut file, &LATER) == 5 && has(&file, at, 5);
            is_refused && is_left(file.into_inner(), "abcdef", "abcd")
        }
        None => false,
    }
}

/// A file of six bytes that shares a count.
fn sharing(alloc: Global, calls: &Calls) -> Option<Numbered<Memory, StopAt>> {
    let calls = calls.share().ok()?;
    let stop = Stop {
        at: 2,
        part: Part::After,
    };
    Some(Numbered::new(six_bytes(alloc)?, StopAt::new(calls, stop)))
}

/// What two files are answered, and what they have counted.
fn asked(
    log: &mut Numbered<Memory, StopAt>,
    db: &mut Numbered<Memory, StopAt>,
) -> ([Answer; 5], [u64; 4]) {
    let answers = [
        answer_to(log, Ask::Write(0, "x")),
        answer_to(db, Ask::Write(0, "y")),
        answer_to(log, Ask::Write(0, "z")),
        answer_to(log, Ask::Len),
        answer_to(db, Ask::Len),
    ];
    (
        answers,
        [log.last(), db.last(), log.refusals(), db.refusals()],
    )
}

/// Two files of one store, of which the second one meets the stop: what they are answered, what they and their common count have
/// counted, and whether they are left as they are to be.
fn two_files(alloc: Global) -> Option<([Answer; 5], [u64; 4], u64, bool)> {
    let calls = Calls::new(alloc).ok()?;
    let mut log = sharing(alloc, &calls)?;
    let mut db = sharing(alloc, &calls)?;
    let (answers, counts) = asked(&mut log, &mut db);
    let count = calls.count();
    let is_log = is_left(log.into_inner(), "xbcdef", "abcd");
    let is_db = is_left(db.into_inner(), "ybcdef", "abcd");
    Some((answers, counts, count, is_log && is_db))
}

#[test]
fn so_much_of_a_call_is_carried_out(rt: HostRuntime) -> Result<(), Fail> {
    assert!(rt; first_other(rt.alloc(), &ROWS) == ROWS.len());
    Ok(())
}

#[test]
fn a_sync_is_carried_out_where_the_stop_is_behind_it(rt: HostRuntime) -> Result<(), Fail> {
    let alloc = rt.alloc();
    assert!(rt; is_stopped(alloc, Ask::Sync, Part::Before, 0, "abcdef", "abcd"));
    assert!(rt; is_stopped(alloc, Ask::Sync, Part::Half, 0, "abcdef", "abcd"));
    assert!(rt; is_stopped(alloc, Ask::Sync, Part::After, 0, "abcdef", "abcdef"));
    Ok(())
}

#[test]
fn a_tested_read_is_refused(rt: HostRuntime) -> Result<(), Fail> {
    let alloc = rt.alloc();
    assert!(rt; is_tested(alloc, Part::Before) && is_tested(alloc, Part::Half));
    assert!(rt; is_tested(alloc, Part::After));
    Ok(())
}

#[test]
fn the_first_call_may_be_the_stop(rt: HostRuntime) -> Result<(), Fail> {
    let alloc = rt.alloc();
    assert!(rt; is_stopped_at_once(alloc, 0) && is_stopped_at_once(alloc, 1));
    Ok(())
}

#[test]
fn a_stop_is_of_both_files(rt: HostRuntime) -> Result<(), Fail> {
    // The log's first call, the other file's, at which it stops, and the log's next one, behind the stop, have numbers.
    let refused = Answer::Refused;
    let answers = [Answer::Done, refused, refused, refused, refused];
    assert!(rt; two_files(rt.alloc()) == Some((answers, [3, 2, 2, 2], 3, true)));
    Ok(())
}
