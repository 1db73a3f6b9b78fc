//! The command `signal`: a signal is sent to the open run of a flow.
//!
//! The rule is `signal` of `flow_model/specs/Apply.antt`. A known request is answered with the event that took it; else the first of these
//! refuses: E63 (no open run), E67 (the run's program declares no such signal), E66 (a value of another type), E69 (the history is full).
ghost use Rattle.std.specs.Prelude.{◌≡◌, IfErr, IfOk, IfSome, MatchOption, None, Some, bytes_eq, map, true};
ghost use Rattle.flow_base.specs.Shown.{shown_declaration};
ghost use Rattle.flow_machine.specs.ByHead as by_head;
ghost use Rattle.flow_machine.specs.ByHead.{StuckSendAt, StuckSentAt, run_sent_at, sent_at};
ghost use Rattle.flow_machine.specs.Going.{StepCalled};
ghost use Rattle.flow_model.specs.Apply.{rules_of};
ghost use Rattle.flow_model.specs.Checked.{shown_checked};
ghost use Rattle.flow_model.specs.WellFormed as declared;

use crate::going::{Going, Step};
use crate::programs::program_of;
use flow_base::code::Code;
use flow_base::command::Reply;
use flow_base::event::Input;
use flow_base::number::{Moment, RunId};
use flow_base::syntax::Declaration;
use flow_base::text::{Key, RawText};
use flow_base::value::{Kind, Value};
use flow_model::checked::Checked;
use flow_model::kinds::has_kind;
use flow_programs::programs::Programs;
use flow_view::fault::ViewFault;
use flow_view::view::View;
use std::alloc::{AllocError, Global};

/// A signal is sent to the open run of a flow. In the words of the run's head; `decided` says it in those of the book.
#[tactic(auto, unfolding(crate::specs::ByHead::sent_at, crate::specs::ByHead::StuckSendAt))]
pub(crate) fn signal<V: View, P: Programs>(
    alloc: Global,
    programs: &mut P,
    view: &mut V,
    request: &Key,
    flow: &Key,
    name: &RawText,
    value: &Value,
    at: Moment,
) -> Result<Step, ViewFault>
    ensures { StepCalled V.View P.meaning view.old view.new result
        (sent_at (rules_of P.meaning) (V.book view.old) request.now flow.now name.now value.now at)
        (StuckSendAt P.meaning (V.book view.old) request.now flow.now name.now value.now) }
{
    if let Some((run, event)) = view.signalled(flow, request)? {
        return Ok(Step::Answered(Reply::DuplicateSignal(run, event), Vec::new(alloc)));
    }
    let Some(run) = view.open_run(flow)? else {
        return Ok(Step::Answered(Reply::Refused(Code::NoOpenRun), Vec::new(alloc)));
    };
    let step = signal_run(alloc, programs, view, run, request, name, value, at)?;
    Ok(step)
}

/// The open run of a flow takes a signal.
#[tactic(auto, unfolding(crate::specs::ByHead::run_sent_at, crate::specs::ByHead::StuckSentAt))]
fn signal_run<V: View, P: Programs>(
    alloc: Global,
    programs: &mut P,
    view: &mut V,
    number: RunId,
    request: &Key,
    name: &RawText,
    value: &Value,
    at: Moment,
) -> Result<Step, ViewFault>
    ensures { StepCalled V.View P.meaning view.old view.new result
        (run_sent_at (rules_of P.meaning) (V.book view.old) number request.now name.now value.now at)
        (StuckSentAt P.meaning (V.book view.old) number request.now name.now value.now) }
{
    let Some(head) = view.head(number)? else {
        return Err(ViewFault::StoreRefused);
    };
    let program = program_of(alloc, programs, view, head.text)?;
    match input_of(alloc, &program, request, name, value)? {
        Err(code) => Ok(Step::Answered(Reply::Refused(code), Vec::new(alloc))),
        Ok(input) => Ok(Step::GoesOn(Going {
            program,
            number,
            head,
            at,
            input,
        })),
    }
}

/// The input of a signal; or its first refusal by the program of the run that is to take it.
#[tactic(auto, unfolding(crate::specs::ByHead::signal_refused))]
fn input_of(
    alloc: Global,
    program: &Checked,
    request: &Key,
    name: &RawText,
    value: &Value,
) -> Result<Result<Input, Code>, AllocError>
    ensures taken { IfOk result (λ r. IfOk r (λ i. (by_head.signal_refused (shown_checked program.now) name.now value.now ≡ None)
        × (i ≡ Input.Signaled name.now request.now value.now))) }
    ensures refused { IfOk result (λ r. IfErr r (λ c. by_head.signal_refused (shown_checked program.now) name.now value.now ≡ Some c)) }
{
    match declared_as(program, name) {
        None => Ok(Err(Code::NoSuchSignal)),
        Some((declared, kind)) => {
            if has_kind(kind, value) {
                match signaled(alloc, request, declared, value) {
                    Ok(input) => Ok(Ok(input)),
                    Err(refused) => Err(refused),
                }
            } else {
                Ok(Err(Code::WrongType))
            }
        }
    }
}

fn declared_as<'a>(program: &'a Checked, name: &RawText) -> Option<(&'a Key, Kind)>
    ensures kind { MatchOption result (declared.signal_of (shown_checked program.now).declarations name.now ≡ None)
        (λ s. declared.signal_of (shown_checked program.now).declarations name.now ≡ Some s.1) }
    ensures name { IfSome result (λ s. s.0.now ≡ name.now) }
{
    signal_of(&program.program().declarations, name)
}

/// The signal of a name as it is declared, and what it carries; none where no such signal is declared.
fn signal_of<'a>(declarations: &'a [Declaration], name: &RawText) -> Option<(&'a Key, Kind)>
    ensures kind { MatchOption result (declared.signal_of (map shown_declaration declarations.now) name.now ≡ None)
        (λ s. declared.signal_of (map shown_declaration declarations.now) name.now ≡ Some s.1) }
    ensures name { IfSome result (λ s. s.0.now ≡ name.now) }
{
    for declaration in declarations {
        match declaration {
            Declaration::Signal(_, _, signal, kind) => {
                if is_name(signal, name) {
                    return Some((signal, *kind));
                }
            }
            Declaration::Activity(_, _, _, _, _) => {}
        }
    }
    None
}

fn is_name(signal: &Key, name: &RawText) -> bool
    ensures value { result ≡ bytes_eq signal.now name.now }
    ensures same { result ≡ true → signal.now ≡ name.now }
{
    signal.as_str() == name.as_str()
}

fn signaled(alloc: Global, request: &Key, name: &Key, value: &Value) -> Result<Input, AllocError>
    ensures { IfOk result (λ i. i ≡ Input.Signaled name.now request.now value.now) }
{
    let name = name.copy(alloc)?;
    let request = request.copy(alloc)?;
    let value = value.copy(alloc)?;
    Ok(Input::Signaled(name, request, value))
}
