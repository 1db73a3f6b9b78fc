//! Which positions are found among 1, 3 and 4,096.
ghost use Rattle.std.specs.Prelude.{◌≤◌};

use crate::histories::program;
use flow_base::number::{Moment, RunId, TextNo};
use flow_base::value::Value;
use flow_cache::positions::Positions;
use flow_check::checked::Checked;
use flow_run::stance::{Answers, Stance};
use std::alloc::Global;
use std::test::Fail;

// A run of the program with this number, which has two events.
fn begun(alloc: Global, program: &Checked, number: i64) -> Option<Stance> {
    let at = Moment::new(10)?;
    match Stance::first(alloc, program, &[Value::Int(number)], at, Answers::Fresh) {
        Ok((stance, _commands)) => Some(stance),
        Err(_fault) => None,
    }
}

// The number that a position's run was begun with.
fn number_of(stance: &Stance, program: &Checked) -> Option<i64> {
    match stance.variable(program, "n") {
        Some(Value::Int(n)) => Some(*n),
        _ => None,
    }
}

/// Positions, and the program of them all.
#[derive(Drop)]
struct Kept {
    alloc: Global,
    program: Checked,
    positions: Positions,
}

fn with_room(alloc: Global, capacity: usize) -> Option<Kept>
    requires first { 1 ≤ capacity }
    requires last { capacity ≤ 4096 }
{
    let program = program(alloc, "workflow a(n: int) { return n; }")?;
    let positions = Positions::new(alloc, capacity).ok()?;
    Some(Kept {
        alloc,
        program,
        positions,
    })
}

// Keeps the position of a run that was begun with a number.
fn keep(kept: &mut Kept, run: u64, text: u64, number: i64) -> Option<()> {
    let run = RunId::new(run)?;
    let text = TextNo::new(text)?;
    let stance = begun(kept.alloc, &kept.program, number)?;
    kept.positions.keep(run, text, stance);
    Some(())
}

// The number with which the run was begun whose position is found.
fn find(kept: &mut Kept, run: u64, text: u64, events: u64) -> Option<i64> {
    let run = RunId::new(run)?;
    let text = TextNo::new(text)?;
    let stance = kept.positions.find(run, text, events)?;
    number_of(stance, &kept.program)
}

// What is found of the runs 1 to 4, each of text 1 with two events.
fn found(kept: &mut Kept) -> [Option<i64>; 4] {
    [
        find(kept, 1, 1, 2),
        find(kept, 2, 1, 2),
        find(kept, 3, 1, 2),
        find(kept, 4, 1, 2),
    ]
}

// Three runs are kept, the first is used, and then a fourth is kept.
fn keep_four(kept: &mut Kept) -> Option<i64> {
    keep(kept, 1, 1, 10)?;
    keep(kept, 2, 1, 20)?;
    keep(kept, 3, 1, 30)?;
    let used = find(kept, 1, 1, 2);
    keep(kept, 4, 1, 40)?;
    used
}

fn four_among(alloc: Global, capacity: usize) -> (Option<i64>, [Option<i64>; 4], usize)
    requires first { 1 ≤ capacity }
    requires last { capacity ≤ 4096 }
{
    let Some(mut kept) = with_room(alloc, capacity) else {
        return (None, [None; 4], 0);
    };
    let used = keep_four(&mut kept);
    let found = found(&mut kept);
    (used, found, kept.positions.len())
}

#[test]
fn the_run_not_used_longest_makes_room(rt: HostRuntime) -> Result<(), Fail> {
    let (used, found, count) = four_among(rt.alloc(), 3);
    assert_eq!(rt; used, Some(10));
    assert!(rt; found == [Some(10), None, Some(30), Some(40)]);
    assert_eq!(rt; count, 3);
    Ok(())
}

// What is found once the position of the second of four runs is let go, which has made room, and then that of the third.
fn let_two_go(kept: &mut Kept) -> Option<([Option<i64>; 4], [Option<i64>; 4])> {
    keep_four(kept)?;
    kept.positions.let_go(RunId::new(2)?);
    let without_second = found(kept);
    kept.positions.let_go(RunId::new(3)?);
    Some((without_second, found(kept)))
}

fn two_let_go(alloc: Global) -> (Option<([Option<i64>; 4], [Option<i64>; 4])>, usize) {
    let Some(mut kept) = with_room(alloc, 3) else {
        return (None, 0);
    };
    let found = let_two_go(&mut kept);
    (found, kept.positions.len())
}

#[test]
fn a_run_lets_its_own_position_go(rt: HostRuntime) -> Result<(), Fail> {
    let (found, count) = two_let_go(rt.alloc());
    assert!(rt;
        found
            == Some((
                [Some(10), None, Some(30), Some(40)],
                [Some(10), None, None, Some(40)]
            ))
    );
    assert_eq!(rt; count, 2);
    Ok(())
}

#[test]
fn one_position_is_the_last_one(rt: HostRuntime) -> Result<(), Fail> {
    let (used, found, count) = four_among(rt.alloc(), 1);
    assert_eq!(rt; used, None);
    assert!(rt; found == [None, None, None, Some(40)]);
    assert_eq!(rt; count, 1);
    Ok(())
}

#[test]
fn all_are_found_where_there_is_room(rt: HostRuntime) -> Result<(), Fail> {
    let (used, found, count) = four_among(rt.alloc(), 4096);
    assert_eq!(rt; used, Some(10));
    assert!(rt; found == [Some(10), Some(20), Some(30), Some(40)]);
    assert_eq!(rt; count, 4);
    Ok(())
}

// What is found under other texts, with other counts, and then of another position of the same run.
fn asked_otherwise(kept: &mut Kept) -> Option<[Option<i64>; 5]> {
    keep(kept, 7, 1, 70)?;
    let other_text = find(kept, 7, 2, 2);
    let fewer = find(kept, 7, 1, 1);
    let more = find(kept, 7, 1, 3);
    let same = find(kept, 7, 1, 2);
    keep(kept, 7, 2, 71)?;
    let replaced = find(kept, 7, 2, 2);
    Some([other_text, fewer, more, same, replaced])
}

fn otherwise(alloc: Global) -> (Option<[Option<i64>; 5]>, usize) {
    let Some(mut kept) = with_room(alloc, 3) else {
        return (None, 0);
    };
    let found = asked_otherwise(&mut kept);
    (found, kept.positions.len())
}

#[test]
fn another_text_or_count_is_not_found(rt: HostRuntime) -> Result<(), Fail> {
    let (found, count) = otherwise(rt.alloc());
    assert!(rt; found == Some([None, None, None, Some(70), Some(71)]));
    assert_eq!(rt; count, 1);
    Ok(())
}

// Keeps the runs 1 to 5,000, each begun with its number. How many were.
fn keep_many(kept: &mut Kept) -> u64 {
    let mut count = 0;
    for run in 1..=5000 {
        if keep(kept, run, 1, run as i64).is_some() {
            count = run;
        }
    }
    count
}

// How many are kept, and what is found of the last one that had to make room, the first one behind it, and the last one.
fn many(alloc: Global) -> (u64, usize, [Option<i64>; 3]) {
    let Some(mut kept) = with_room(alloc, 4096) else {
        return (0, 0, [None; 3]);
    };
    let count = keep_many(&mut kept);
    let found = [
        find(&mut kept, 904, 1, 2),
        find(&mut kept, 905, 1, 2),
        find(&mut kept, 5000, 1, 2),
    ];
    (count, kept.positions.len(), found)
}

#[test]
fn many_are_kept(rt: HostRuntime) -> Result<(), Fail> {
    let (count, left, found) = many(rt.alloc());
    assert_eq!(rt; count, 5000);
    assert_eq!(rt; left, 4096);
    assert!(rt; found == [None, Some(905), Some(5000)]);
    Ok(())
}
