ghost use Rattle.std.specs.Prelude.{◌≡◌, [], ◌∷◌, ◌++◌, IfOk, Some, None, is_some, map, if◌then◌else◌};
ghost use Rattle.flow_base.specs.Syntax.{signals_of};
ghost use Rattle.flow_base.specs.Shown.{shown_program, shown_otherwise};
ghost use Rattle.flow_model.specs.Rest as tree;
ghost use Rattle.flow_model.specs.Deliver as model;
ghost use Rattle.flow_values.specs.Named.{look_up};
ghost use Rattle.flow_plain.specs.Shown.{shown_rest, shown_started, shown_rest_of, plain_configuration, IsResumed, shown_progress, started_with};

use crate::plain::PlainRun;
use crate::rest::{Rest, begun, entered};
use crate::step::Store;
use flow_base::event::{Cause, Cmd, Input, State};
use flow_base::number::EventId;
use flow_base::syntax::{Block, Parameter, Program};
use flow_base::text::{Key, Text};
use flow_base::value::{Kind, Value};
use flow_model::kinds::{all_fit, has_kind};
use flow_run::decided::Decided;
use flow_run::setting::signal_fits;
use flow_values::named::NamedValues;
use std::alloc::{AllocError, Global};

/// A run within a turn.
#[derive(Drop)]
pub struct Turning {
    pub rest: Rest,
    pub store: Store,
    /// The commands of this turn so far.
    pub asked: Vec<Cmd>,
    pub state: State,
}

/// A wait on an activity that is over: what is then left, the variable that waited, and the type that it wants.
#[derive(Drop)]
pub struct Resumed {
    pub rest: Rest,
    pub into: Key,
    pub kind: Kind,
}

/// An input takes effect on a copy of the run; none where it can't be delivered.
pub fn deliver(
    alloc: Global,
    program: &Program,
    run: &PlainRun,
    input: &Input,
) -> Result<Option<Turning>, AllocError>
    ensures { IfOk result (λ o. shown_started o ≡ model.deliver (shown_program program.now) (plain_configuration run.now) input.now) }
{
    match input {
        Input::Started(values) => match run.state {
            State::Unbegun => begin(alloc, program, values.as_slice()),
            _ => Ok(None),
        },
        Input::ActivityCompleted(n, v) => match run.state {
            State::Open => complete(alloc, run, *n, v),
            _ => Ok(None),
        },
        Input::ActivityFailed(n, text) => match run.state {
            State::Open => fail(alloc, run, *n, text),
            _ => Ok(None),
        },
        Input::Terminated(_) => match run.state {
            State::Open => terminate(alloc, run),
            _ => Ok(None),
        },
        Input::Signaled(name, _, v) => match run.state {
            State::Open => signal(alloc, program, run, name, v),
            _ => Ok(None),
        },
        Input::TimerFired(n) => match run.state {
            State::Open => fire(alloc, run, *n),
            _ => Ok(None),
        },
    }
}

fn begin(alloc: Global, program: &Program, values: &[Value]) -> Result<Option<Turning>, AllocError>
    ensures { IfOk result (λ o. shown_started o ≡ model.begun (shown_program program.now) values.now) }
{
    if !all_fit(&program.parameters, values) {
        return Ok(None);
    }
    let rest = begun(alloc, &program.body)?;
    let variables = bind(alloc, &program.parameters, values)?;
    let buffer = NamedValues::new();
    Ok(Some(start_from(
        alloc,
        rest,
        variables,
        buffer,
        Decided::new(alloc),
        State::Open,
    )))
}

fn complete(
    alloc: Global,
    run: &PlainRun,
    n: EventId,
    v: &Value,
) -> Result<Option<Turning>, AllocError>
    requires { run.now.state ≡ State.Open }
    ensures { IfOk result (λ o. shown_started o ≡ model.completed (plain_configuration run.now) n v.now
        (model.target_of n (shown_rest run.now.rest))) }
{
    match resume(alloc, &run.rest, n)? {
        Some(Resumed { rest, into, kind }) => {
            if !has_kind(kind, v) {
                return Ok(None);
            }
            let mut variables = run.variables.share()?;
            variables.set(alloc, &into, v.copy(alloc)?)?;
            let buffer = run.buffer.share()?;
            let decided = run.decided.copy(alloc)?;
            Ok(Some(start_from(alloc, rest, variables, buffer, decided, State::Open)))
        }
        None => Ok(None),
    }
}

fn fail(
    alloc: Global,
    run: &PlainRun,
    n: EventId,
    text: &Text,
) -> Result<Option<Turning>, AllocError>
    requires { run.now.state ≡ State.Open }
    ensures { IfOk result (λ o. shown_started o ≡ model.with_rest (plain_configuration run.now)
        (model.replaced (model.when_failed n text.now) (shown_rest run.now.rest))) }
{
    match failed(alloc, &run.rest, n, text)? {
        Some(rest) => {
            let variables = run.variables.share()?;
            let buffer = run.buffer.share()?;
            let decided = run.decided.copy(alloc)?;
            Ok(Some(start_from(alloc, rest, variables, buffer, decided, State::Open)))
        }
        None => Ok(None),
    }
}

// A signal is put behind those that nobody took yet.
fn signal(
    alloc: Global,
    program: &Program,
    run: &PlainRun,
    name: &Key,
    v: &Value,
) -> Result<Option<Turning>, AllocError>
    requires { run.now.state ≡ State.Open }
    ensures { IfOk result (λ o. shown_started o ≡
        (if model.signal_fits (signals_of (shown_program program.now).declarations) name.now v.now then Some
        (started_with (shown_rest run.now.rest) (look_up run.now.variables) (run.now.buffer ++ (name.now, v.now) ∷ [])
        (look_up run.now.decided) State.Open) else None)) }
{
    if !signal_fits(&program.declarations, name, v) {
        return Ok(None);
    }
    let rest = run.rest.copy(alloc)?;
    let variables = run.variables.share()?;
    let mut buffer = run.buffer.share()?;
    buffer.push(alloc, name, v.copy(alloc)?)?;
    let decided = run.decided.copy(alloc)?;
    Ok(Some(start_from(alloc, rest, variables, buffer, decided, State::Open)))
}

fn fire(alloc: Global, run: &PlainRun, n: EventId) -> Result<Option<Turning>, AllocError>
    requires { run.now.state ≡ State.Open }
    ensures { IfOk result (λ o. shown_started o ≡ model.with_rest (plain_configuration run.now)
        (model.replaced (model.when_fired n) (shown_rest run.now.rest))) }
{
    match fired(alloc, &run.rest, n)? {
        Some(rest) => {
            let variables = run.variables.share()?;
            let buffer = run.buffer.share()?;
            let decided = run.decided.copy(alloc)?;
            Ok(Some(start_from(alloc, rest, variables, buffer, decided, State::Open)))
        }
        None => Ok(None),
    }
}

fn terminate(alloc: Global, run: &PlainRun) -> Result<Option<Turning>, AllocError>
    ensures { IfOk result (λ o. shown_started o ≡ Some
        (started_with tree.Done (look_up run.now.variables) run.now.buffer (look_up run.now.decided) State.Terminated)) }
{
    let variables = run.variables.share()?;
    let buffer = run.buffer.share()?;
    let decided = run.decided.copy(alloc)?;
    Ok(Some(start_from(
        alloc,
        Rest::Done,
        variables,
        buffer,
        decided,
        State::Terminated,
    )))
}

fn start_from(
    alloc: Global,
    rest: Rest,
    variables: NamedValues,
    buffer: NamedValues,
    decided: Decided,
    state: State,
) -> Turning
    ensures { shown_progress result ≡ started_with (shown_rest rest) (look_up variables) buffer (look_up decided) state }
{
    Turning {
        rest,
        store: Store {
            variables,
            buffer,
            decided,
            tests: 0,
        },
        asked: Vec::new(alloc),
        state,
    }
}

// The parameters with their values; the last is set first.
fn bind(
    alloc: Global,
    parameters: &[Parameter],
    values: &[Value],
) -> Result<NamedValues, AllocError>
    ensures { IfOk result (λ vars. look_up vars ≡ model.bound parameters.now values.now) }
{
    match parameters {
        [] => Ok(NamedValues::new()),
        [p, ps @ ..] => match values {
            [] => Ok(NamedValues::new()),
            [v, vs @ ..] => {
                let mut variables = bind(alloc, ps, vs)?;
                variables.set(alloc, &p.name, v.copy(alloc)?)?;
                Ok(variables)
            }
        },
    }
}

// What is left where an activity has completed, and the variable that gets its value.
fn resume(alloc: Global, rest: &Rest, n: EventId) -> Result<Option<Resumed>, AllocError>
    ensures { IfOk result (λ o. IsResumed n (shown_rest rest.now) o) }
{
    match rest {
        Rest::OnActivity(m, x, k, _) => {
            if *m == n.get() {
                Ok(Some(Resumed {
                    rest: Rest::Done,
                    into: x.copy(alloc)?,
                    kind: *k,
                }))
            } else {
                Ok(None)
            }
        }
        Rest::Then(r, b, i, to) => match resume(alloc, r, n)? {
            Some(Resumed { rest, into, kind }) => {
                let rest = Rest::Then(Box::new(alloc, rest)?, b.clone()?, *i, *to);
                Ok(Some(Resumed { rest, into, kind }))
            }
            None => Ok(None),
        },
        Rest::Beside(a, b) => match resume(alloc, a, n)? {
            Some(Resumed { rest, into, kind }) => {
                let b = Box::new(alloc, b.copy(alloc)?)?;
                let rest = Rest::Beside(Box::new(alloc, rest)?, b);
                Ok(Some(Resumed { rest, into, kind }))
            }
            None => match resume(alloc, b, n)? {
                Some(Resumed { rest, into, kind }) => {
                    let a = Box::new(alloc, a.copy(alloc)?)?;
                    let rest = Rest::Beside(a, Box::new(alloc, rest)?);
                    Ok(Some(Resumed { rest, into, kind }))
                }
                None => Ok(None),
            },
        },
        _ => Ok(None),
    }
}

// What is left where an activity has failed.
fn failed(alloc: Global, rest: &Rest, n: EventId, text: &Text) -> Result<Option<Rest>, AllocError>
    ensures { IfOk result (λ o. shown_rest_of o ≡ model.replaced (model.when_failed n text.now) (shown_rest rest.now)) }
{
    match rest {
        Rest::OnActivity(m, _, _, o) => {
            if *m == n.get() {
                Ok(Some(otherwise(alloc, o, text)?))
            } else {
                Ok(None)
            }
        }
        Rest::Then(r, b, i, to) => match failed(alloc, r, n, text)? {
            Some(r) => Ok(Some(Rest::Then(Box::new(alloc, r)?, b.clone()?, *i, *to))),
            None => Ok(None),
        },
        Rest::Beside(a, b) => match failed(alloc, a, n, text)? {
            Some(r) => {
                let b = Box::new(alloc, b.copy(alloc)?)?;
                Ok(Some(Rest::Beside(Box::new(alloc, r)?, b)))
            }
            None => match failed(alloc, b, n, text)? {
                Some(r) => {
                    let a = Box::new(alloc, a.copy(alloc)?)?;
                    Ok(Some(Rest::Beside(a, Box::new(alloc, r)?)))
                }
                None => Ok(None),
            },
        },
        _ => Ok(None),
    }
}

// What a call does whose activity has failed: its `else` begins, or the run is to fail.
fn otherwise(alloc: Global, otherwise: &Option<Block>, text: &Text) -> Result<Rest, AllocError>
    ensures { IfOk result (λ r. shown_rest r ≡ tree.rest_else (shown_otherwise otherwise.now) (tree.Raised Cause.ActivityFailed text.now)) }
{
    match otherwise {
        None => Ok(Rest::Raised(Cause::ActivityFailed, text.copy(alloc)?)),
        Some(b) => entered(alloc, b),
    }
}

// What is left where a timer has fired.
fn fired(alloc: Global, rest: &Rest, n: EventId) -> Result<Option<Rest>, AllocError>
    ensures { IfOk result (λ o. shown_rest_of o ≡ model.replaced (model.when_fired n) (shown_rest rest.now)) }
{
    match rest {
        Rest::OnTimer(m) => {
            if *m == n.get() {
                Ok(Some(Rest::Done))
            } else {
                Ok(None)
            }
        }
        Rest::OnSignalFor(_, _, m, late) => {
            if m.get() == n.get() {
                Ok(Some(entered(alloc, late)?))
            } else {
                Ok(None)
            }
        }
        Rest::Then(r, b, i, to) => match fired(alloc, r, n)? {
            Some(r) => Ok(Some(Rest::Then(Box::new(alloc, r)?, b.clone()?, *i, *to))),
            None => Ok(None),
        },
        Rest::Beside(a, b) => match fired(alloc, a, n)? {
            Some(r) => {
                let b = Box::new(alloc, b.copy(alloc)?)?;
                Ok(Some(Rest::Beside(Box::new(alloc, r)?, b)))
            }
            None => match fired(alloc, b, n)? {
                Some(r) => {
                    let a = Box::new(alloc, a.copy(alloc)?)?;
                    Ok(Some(Rest::Beside(a, Box::new(alloc, r)?)))
                }
                None => Ok(None),
            },
        },
        _ => Ok(None),
    }
}

/// Whether an input can be delivered to a run.
pub fn takes(program: &Program, run: &PlainRun, input: &Input) -> bool
    ensures { result ≡ is_some (model.deliver (shown_program program.now) (plain_configuration run.now) input.now) }
{
    match input {
        Input::Started(values) => match run.state {
            State::Unbegun => all_fit(&program.parameters, values.as_slice()),
            _ => false,
        },
        Input::ActivityCompleted(n, v) => match run.state {
            State::Open => match run.rest.awaited(*n) {
                Some(kind) => has_kind(kind, v),
                None => false,
            },
            _ => false,
        },
        Input::ActivityFailed(n, _) => match run.state {
            State::Open => run.rest.awaited(*n).is_some(),
            _ => false,
        },
        Input::Terminated(_) => match run.state {
            State::Open => true,
            _ => false,
        },
        Input::Signaled(name, _, v) => match run.state {
            State::Open => signal_fits(&program.declarations, name, v),
            _ => false,
        },
        Input::TimerFired(n) => match run.state {
            State::Open => run.rest.awaits_timer(*n),
            _ => false,
        },
    }
}
