ghost use Rattle.std.specs.Prelude.{◌≡◌, [], map, nat_lt, Option};
ghost use Rattle.flow_base.specs.Syntax.{activities_of, signals_of};
ghost use Rattle.flow_base.specs.Shown.{shown_declaration};
ghost use Rattle.flow_model.specs.Values.{text_of};
ghost use Rattle.flow_model.specs.Step as model;
ghost use Rattle.flow_model.specs.Deliver as delivery;
ghost use Rattle.flow_model.specs.Turn.{is_marker};
ghost use Rattle.flow_run.specs.Shown.{shown_setting};

use flow_base::event::{Cause, Cmd, Event, What};
use flow_base::number::{EventId, Moment};
use flow_base::syntax::Declaration;
use flow_base::text::{Key, Text};
use flow_base::value::{Kind, Value};
use flow_model::kinds::has_kind;
use std::alloc::Global;

/// How a turn answers the patches that nothing has decided yet.
#[derive(Clone, Copy)]
pub enum Answers<'a> {
    /// Yes.
    Fresh,
    /// As these events say, those after the turn's input in a history: yes where the next one is the patch's marker.
    Recorded(&'a [Event]),
}

/// What the steps of a turn only read.
#[derive(Drop)]
pub struct Setting<'a> {
    pub declarations: &'a [Declaration],
    pub at: Moment,
    pub is_first: bool,
    /// The open waits of the whole run, or 32 where they are more.
    pub waits: u32,
    /// The id of the next command's event.
    pub event: EventId,
    pub answers: Answers<'a>,
    /// The commands of this turn so far.
    pub taken: usize,
}

/// Whether one more wait can be opened.
pub fn may_wait(s: &Setting) -> bool
    ensures { result ≡ nat_lt s.now.waits model.wait_limit }
{
    s.waits < 32
}

/// What an activity gives, by its declaration.
pub fn gives(declarations: &[Declaration], name: &Key) -> Kind
    ensures { result ≡ model.gives_of (activities_of (map shown_declaration declarations.now)) name.now }
{
    for d in declarations {
        match d {
            Declaration::Activity(_, _, a, _, kind) => {
                if a.is(name) {
                    return *kind;
                }
            }
            Declaration::Signal(_, _, _, _) => {}
        }
    }
    Kind::Int
}

/// Whether a signal is declared with the value's type.
pub fn signal_fits(declarations: &[Declaration], name: &Key, v: &Value) -> bool
    ensures { result ≡ delivery.signal_fits (signals_of (map shown_declaration declarations.now)) name.now v.now }
{
    for d in declarations {
        match d {
            Declaration::Signal(_, _, signal, kind) => {
                if signal.is(name) {
                    return has_kind(*kind, v);
                }
            }
            Declaration::Activity(_, _, _, _, _) => {}
        }
    }
    false
}

/// A value as a text: empty where it is a number.
pub fn text_in(alloc: Global, v: Value) -> Text
    ensures { result ≡ text_of v }
{
    match v {
        Value::Int(_) => Text::empty(alloc),
        Value::Text(t) => t,
    }
}

/// A fault fails the run.
pub fn raise(alloc: Global, cause: Cause) -> Cmd
    ensures { result ≡ Cmd.Fail cause [] }
{
    Cmd::Fail(cause, Text::empty(alloc))
}

/// What a patch that nothing has decided answers here.
pub fn is_answered(s: &Setting, id: &Key) -> bool
    ensures { result ≡ (shown_setting s.now).answer id.now }
{
    match s.answers {
        Answers::Fresh => true,
        Answers::Recorded(events) => match events.get(s.taken) {
            Some(e) => marks(e, id),
            None => false,
        },
    }
}

// Whether an event is the marker of a patch.
fn marks(event: &Event, id: &Key) -> bool
    ensures { result ≡ is_marker id.now (Option.Some event.now) }
{
    match &event.what {
        What::Asked(Cmd::RecordMarker(i)) => i.is(id),
        _ => false,
    }
}
