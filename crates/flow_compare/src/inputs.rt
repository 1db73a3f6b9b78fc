//! Inputs by a fixed rule.
use flow_base::event::Input;
use flow_base::number::EventId;
use flow_base::sequence::Sequence;
use flow_base::syntax::{Declaration, Program};
use flow_base::text::{Key, Text};
use flow_base::value::{Kind, Value};
use flow_run::stance::OpenWait;
use std::alloc::{AllocError, Global};

/// The arguments that a run begins with: 3 for a number, "a" for a text.
pub fn arguments(alloc: Global, program: &Program) -> Result<Sequence<Value>, AllocError> {
    let mut values = Vec::new(alloc);
    for p in &program.parameters {
        values.push(value(alloc, p.kind, 3)?)?;
    }
    Ok(Sequence::from_vec(values))
}

fn value(alloc: Global, kind: Kind, n: u64) -> Result<Value, AllocError> {
    match kind {
        Kind::Int => Ok(Value::Int((n % 5) as i64)),
        Kind::Text => Ok(Value::Text(Text::fitting(alloc, "a")?)),
    }
}

/// The input of a turn of this number: what ends one of the waits, or a signal, an input that nothing awaits, or seldom an end.
pub fn next_input(
    alloc: Global,
    program: &Program,
    waits: &[OpenWait],
    n: u64,
) -> Result<Input, AllocError> {
    if n % 97 == 96 {
        return Ok(Input::Terminated(Text::fitting(alloc, "over")?));
    }
    if n % 13 == 12 {
        return of_event(alloc, n / 2 + 1, n);
    }
    if n % 5 == 4 || waits.is_empty() {
        return signal(alloc, program, n);
    }
    let i = ((n / 2) % (waits.len() as u64)) as usize;
    match waits.get(i) {
        Some(wait) => ends(alloc, program, wait, n),
        None => signal(alloc, program, n),
    }
}

/// What ends the first wait.
pub fn first_ended(
    alloc: Global,
    program: &Program,
    waits: &[OpenWait],
    n: u64,
) -> Result<Input, AllocError> {
    match waits.first() {
        Some(wait) => ends(alloc, program, wait, n.saturating_mul(14)),
        None => signal(alloc, program, n),
    }
}

fn id(n: u64) -> EventId {
    match EventId::new(n) {
        Some(id) => id,
        None => EventId::new(1).unwrap(),
    }
}

fn of_event(alloc: Global, event: u64, n: u64) -> Result<Input, AllocError> {
    match n % 3 {
        0 => Ok(Input::TimerFired(id(event))),
        1 => Ok(Input::ActivityFailed(id(event), Text::fitting(alloc, "no")?)),
        _ => Ok(Input::ActivityCompleted(id(event), value(alloc, Kind::Int, n)?)),
    }
}

// What ends a wait.
fn ends(alloc: Global, program: &Program, wait: &OpenWait, n: u64) -> Result<Input, AllocError> {
    match wait {
        OpenWait::Activity(event, _, kind) => {
            if n % 7 == 6 {
                Ok(Input::ActivityFailed(id(*event), Text::fitting(alloc, "no")?))
            } else {
                Ok(Input::ActivityCompleted(id(*event), value(alloc, *kind, n)?))
            }
        }
        OpenWait::Timer(event) => Ok(Input::TimerFired(id(*event))),
        OpenWait::Signal(_, name) => named(alloc, program, name, n),
        OpenWait::SignalFor(_, name, event) => {
            if n % 2 == 0 {
                named(alloc, program, name, n)
            } else {
                Ok(Input::TimerFired(id(*event)))
            }
        }
    }
}

fn named(alloc: Global, program: &Program, name: &Key, n: u64) -> Result<Input, AllocError> {
    for d in &program.declarations {
        if let Declaration::Signal(_, _, s, kind) = d {
            if s.is(name) {
                let request = Key::fitting(alloc, "q")?;
                return Ok(Input::Signaled(s.copy(alloc)?, request, value(alloc, *kind, n)?));
            }
        }
    }
    signal(alloc, program, n)
}

// One of the declared signals, or one that isn't.
fn signal(alloc: Global, program: &Program, n: u64) -> Result<Input, AllocError> {
    let mut k = n % 4;
    for d in &program.declarations {
        if let Declaration::Signal(_, _, s, kind) = d {
            if k == 0 {
                let request = Key::fitting(alloc, "q")?;
                return Ok(Input::Signaled(s.copy(alloc)?, request, value(alloc, *kind, n)?));
            }
            k -= 1;
        }
    }
    let name = Key::fitting(alloc, "unknown")?;
    let request = Key::fitting(alloc, "q")?;
    Ok(Input::Signaled(name, request, Value::Int(0)))
}
