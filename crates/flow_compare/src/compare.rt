//! A turn of both interpreters, and what shows of them behind it.
use flow_base::event::{Cmd, Input, State};
use flow_base::number::Moment;
use flow_base::text::Key;
use flow_base::value::Value;
use flow_model::checked::Checked;
use flow_plain::plain::{PlainRun, plain_turn};
use flow_run::stance::{Answers, OpenWait, Stance, turn};
use std::alloc::{AllocError, Global};

/// What a turn of both came to.
#[derive(Clone, Copy, Debug, PartialEq, Eq)]
pub enum Both {
    Made,
    Refused,
    Differ,
}

/// One turn of both.
pub fn turn_both(
    alloc: Global,
    program: &Checked,
    stance: &mut Stance,
    run: &mut PlainRun,
    names: &[&str],
    at: Moment,
    input: &Input,
    answers: Answers,
) -> Result<Both, AllocError> {
    if stance.events() >= 1 << 60 || run.events() >= 1 << 60 {
        return Ok(Both::Differ);
    }
    let flat = turn(alloc, stance, program, at, input, answers);
    let plain = plain_turn(alloc, run, program.program(), at, input, answers);
    let is_same = match (&flat, &plain) {
        (Ok(left), Ok(right)) => are_same(left, right),
        (Err(left), Err(right)) => left.code() == right.code(),
        _ => false,
    };
    if !is_same || !are_alike(alloc, program, stance, run, names)? {
        return Ok(Both::Differ);
    }
    if flat.is_ok() {
        Ok(Both::Made)
    } else {
        Ok(Both::Refused)
    }
}

fn are_same(left: &[Cmd], right: &[Cmd]) -> bool {
    if left.len() != right.len() {
        return false;
    }
    for (i, c) in left.iter().enumerate() {
        match right.get(i) {
            Some(d) => {
                if !c.is(d) {
                    return false;
                }
            }
            None => return false,
        }
    }
    true
}

// Whether variables, buffer, waits and state are the same.
fn are_alike(
    alloc: Global,
    program: &Checked,
    stance: &Stance,
    run: &PlainRun,
    names: &[&str],
) -> Result<bool, AllocError> {
    if stance.state() != run.state() || stance.events() != run.events() {
        return Ok(false);
    }
    if stance.moment() != run.moment() {
        return Ok(false);
    }
    for name in names {
        if !is_same_value(stance.variable(program, name), run.variable(name)) {
            return Ok(false);
        }
    }
    if !are_same_signals(stance.buffered(program), run.buffered()) {
        return Ok(false);
    }
    let left = stance.waits(alloc, program)?;
    let right = run.waits(alloc)?;
    Ok(are_same_waits(&left, &right))
}

fn is_same_value(left: Option<&Value>, right: Option<&Value>) -> bool {
    match (left, right) {
        (Some(v), Some(w)) => v.is(w),
        (None, None) => true,
        _ => false,
    }
}

fn are_same_signals(left: &[(Key, Value)], right: &[(Key, Value)]) -> bool {
    if left.len() != right.len() {
        return false;
    }
    for (i, s) in left.iter().enumerate() {
        match right.get(i) {
            Some(r) => {
                if !s.0.is(&r.0) || !s.1.is(&r.1) {
                    return false;
                }
            }
            None => return false,
        }
    }
    true
}

fn are_same_waits(left: &[OpenWait], right: &[OpenWait]) -> bool {
    if left.len() != right.len() {
        return false;
    }
    for (i, w) in left.iter().enumerate() {
        match right.get(i) {
            Some(r) => {
                if !is_same_wait(w, r) {
                    return false;
                }
            }
            None => return false,
        }
    }
    true
}

fn is_same_wait(left: &OpenWait, right: &OpenWait) -> bool {
    match (left, right) {
        (OpenWait::Activity(n, x, k), OpenWait::Activity(m, y, j)) => *n == *m
            && x.is(y)
            && *k == *j,
        (OpenWait::Timer(n), OpenWait::Timer(m)) => *n == *m,
        (OpenWait::Signal(x, s), OpenWait::Signal(y, t)) => x.is(y) && s.is(t),
        (OpenWait::SignalFor(x, s, n), OpenWait::SignalFor(y, t, m)) => {
            x.is(y) && s.is(t) && *n == *m
        }
        _ => false,
    }
}

/// Whether a run may go on.
pub fn may_go_on(state: State) -> bool {
    match state {
        State::Unbegun | State::Open => true,
        _ => false,
    }
}
