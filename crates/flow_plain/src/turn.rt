ghost use Rattle.std.specs.Prelude.{◌≡◌, ◌<◌, ◌+◌, ◌^◌, length, ℕ, IfOk, [], ◌∷◌, ◌++◌, None, Some, MatchOption, IfSome};
ghost use Rattle.flow_base.specs.Shown.{shown_program};
ghost use Rattle.flow_model.specs.Rest.{Done};
ghost use Rattle.flow_model.specs.Configuration as configuration;
ghost use Rattle.flow_model.specs.Deliver.{deliver as delivered};
ghost use Rattle.flow_model.specs.Turn as model;
ghost use Rattle.flow_plain.specs.Shown.{shown_store, shown_progress, shown_frame, shown_next, KeepsProgress, plain_configuration};
ghost use Rattle.flow_run.specs.Shown.{shown_answers};

use crate::deliver::{Turning, deliver};
use crate::plain::PlainRun;
use crate::rest::Rest;
use crate::step::{Moved, Store, is_done, open_waits, step};
use flow_base::effect::effect_of_command;
use flow_base::event::{Cmd, Input, State};
use flow_base::number::{EventId, Moment};
use flow_base::syntax::{Declaration, Program};
use flow_base::text::Text;
use flow_base::value::Value;
use flow_run::setting::{Answers, Setting};
use flow_values::fault::EvalFault;
use std::alloc::Global;

/// What is fixed in a turn.
#[derive(Drop)]
pub struct Frame<'a> {
    pub declarations: &'a [Declaration],
    pub at: Moment,
    pub is_first: bool,
    /// The events up to the input's, itself among them.
    pub events: u64,
    pub answers: Answers<'a>,
}

/// A run that rests, or that made a step.
#[derive(Drop)]
pub enum Stepped {
    Rests(Turning),
    Steps(Turning),
}

/// A turn of a run, made on a copy: where it leaves the run, and its commands; none where the input can't be delivered.
pub fn made(
    alloc: Global,
    run: &PlainRun,
    program: &Program,
    at: Moment,
    input: &Input,
    answers: Answers,
) -> Result<Option<(PlainRun, Vec<Cmd>)>, EvalFault>
    requires events { run.now.events < 2 ^ 61 }
    ensures counted { IfOk result (λ o. IfSome o (λ r. r.0.events ≡ run.now.events + 1 + length r.1.items)) }
    ensures turn { IfOk result (λ o. MatchOption o (delivered (shown_program program.now) (plain_configuration run.now) input.now ≡ None)
        (λ r. model.Turn (shown_program program.now) (shown_answers answers.entry) (plain_configuration run.now) at input.now r.1.items
        (plain_configuration r.0))) }
{
    match deliver(alloc, program, run, input)? {
        None => Ok(None),
        Some(p) => {
            let f = Frame {
                declarations: &program.declarations,
                at,
                is_first: is_started(input),
                events: run.events + 1,
                answers,
            };
            let q = go_on(alloc, &f, p)?;
            Ok(Some(left_by(&f, q)))
        }
    }
}

/// Whether a run is closed.
pub fn is_closed(state: State) -> bool
    ensures { result ≡ configuration.is_closed state }
{
    match state {
        State::Unbegun => false,
        State::Open => false,
        _ => true,
    }
}

// Steps until none is possible.
fn go_on(alloc: Global, f: &Frame, p: Turning) -> Result<Turning, EvalFault>
    requires events { f.now.events < 2 ^ 62 }
    ensures { IfOk result (λ q. (n : ℕ) × (model.steps n (shown_frame f.now) (shown_progress p) ≡ Some (shown_progress q))) }
{
    let mut p = p;
    loop {
        match next(alloc, f, p)? {
            Stepped::Rests(q) => return Ok(q),
            Stepped::Steps(q) => p = q,
        }
    }
}

// One step of a run, or none.
fn next(alloc: Global, f: &Frame, p: Turning) -> Result<Stepped, EvalFault>
    requires events { f.now.events < 2 ^ 62 }
    ensures step { IfOk result (λ n. shown_next n ≡ model.next (shown_frame f.now) (shown_progress p)) }
    ensures kept { IfOk result (λ n. KeepsProgress (shown_progress p) n) }
{
    if !is_open(p.state) {
        return Ok(Stepped::Rests(p));
    }
    let Turning {
        rest,
        store,
        asked,
        state,
    } = p;
    if is_done(&rest) {
        let c = Cmd::Complete(Value::Text(Text::empty(alloc)));
        return Ok(Stepped::Steps(ended(store, asked, c)?));
    }
    let mut store = store;
    let mut asked = asked;
    let s = Setting {
        declarations: f.declarations,
        at: f.at,
        is_first: f.is_first,
        waits: open_waits(&rest),
        event: EventId::new(f.events + count(&asked) + 1).unwrap(),
        answers: f.answers,
        taken: asked.len(),
    };
    match step(alloc, &s, &mut store, rest)? {
        Moved::Stays(rest) => Ok(Stepped::Rests(Turning {
            rest,
            store,
            asked,
            state,
        })),
        Moved::Goes(rest) => Ok(Stepped::Steps(Turning {
            rest,
            store,
            asked,
            state,
        })),
        Moved::Asks(rest, c) => {
            asked.push(c)?;
            Ok(Stepped::Steps(Turning {
                rest,
                store,
                asked,
                state,
            }))
        }
        Moved::Ends(c) => Ok(Stepped::Steps(ended(store, asked, c)?)),
    }
}

fn is_open(state: State) -> bool
    ensures { result ≡ configuration.is_open state }
{
    match state {
        State::Open => true,
        _ => false,
    }
}

fn is_started(input: &Input) -> bool
    ensures { result ≡ model.is_started input.now }
{
    match input {
        Input::Started(_) => true,
        _ => false,
    }
}

fn count(asked: &[Cmd]) -> u64
    ensures value { result ≡ length asked.now }
    ensures fits { result < 2 ^ 59 }
{
    asked.len() as u64
}

fn ended(store: Store, asked: Vec<Cmd>, c: Cmd) -> Result<Turning, EvalFault>
    ensures { IfOk result (λ q. shown_progress q ≡ record { rest = Done; store = shown_store store; asked = asked.items ++ c ∷ []; state = model.state_after_command c }) }
{
    let mut asked = asked;
    let state = effect_of_command(&c).leaves(State::Open);
    asked.push(c)?;
    Ok(Turning {
        rest: Rest::Done,
        store,
        asked,
        state,
    })
}

fn left_by(f: &Frame, p: Turning) -> (PlainRun, Vec<Cmd>)
    requires { f.now.events < 2 ^ 62 }
    ensures run { plain_configuration result.0 ≡ model.left_by (shown_frame f.now) (shown_progress p) }
    ensures commands { result.1.items ≡ p.asked.items }
    ensures counted { result.0.events ≡ f.now.events + length p.asked.items }
{
    let Turning {
        rest,
        store,
        asked,
        state,
    } = p;
    let Store {
        variables,
        buffer,
        decided,
        tests: _,
    } = store;
    let events = f.events + count(&asked);
    let run = PlainRun {
        rest,
        variables,
        buffer,
        decided,
        events,
        moment: f.at,
        state,
    };
    (run, asked)
}
