//! The command `complete`: an attempt of an activity gave a value.
//!
//! The rule is `complete` of `flow_model/specs/Apply.antt`. The first of these refuses: E70 (no such run), E64 (the activity isn't open),
//! E65 (another attempt is the current one), E66 (a value of another type), E69 (the history is full).
ghost use Rattle.std.specs.Prelude.{◌≡◌};
ghost use Rattle.flow_machine.specs.ByHead.{StuckCompleteAt, StuckGivenAt, complete_at, given_at};
ghost use Rattle.flow_machine.specs.Going.{StepCalled, StepFrom};
ghost use Rattle.flow_model.specs.Apply as apply;
ghost use Rattle.flow_model.specs.Apply.{rules_of};

use crate::going::{Step, set_out};
use crate::report::attempt_refusal;
use flow_base::code::Code;
use flow_base::command::{Complete, Reply};
use flow_base::event::{Cmd, Event, Input, What};
use flow_base::value::Value;
use flow_model::kinds::has_kind;
use flow_programs::programs::Programs;
use flow_view::fault::ViewFault;
use flow_view::head::Head;
use flow_view::view::View;
use std::alloc::Global;

/// An attempt of an activity gave a value. In the words of the run's head, as `given`; `decided` says it in those of the book.
#[tactic(auto, unfolding(crate::specs::ByHead::complete_at, crate::specs::ByHead::StuckCompleteAt))]
pub(crate) fn complete<V: View, P: Programs>(
    alloc: Global,
    programs: &mut P,
    view: &mut V,
    asked: &Complete,
) -> Result<Step, ViewFault>
    ensures { StepCalled V.View P.meaning view.old view.new result
        (complete_at (rules_of P.meaning) (V.book view.old) asked.now) (StuckCompleteAt P.meaning (V.book view.old) asked.now) }
{
    let Some(head) = view.head(asked.run)? else {
        return Ok(Step::Answered(Reply::Refused(Code::NoRun), Vec::new(alloc)));
    };
    if let Some(code) = attempt_refusal(&head, asked.event, asked.attempt) {
        return Ok(Step::Answered(Reply::Refused(code), Vec::new(alloc)));
    }
    let step = given(alloc, programs, view, head, asked)?;
    Ok(step)
}

/// The attempt of an activity that is open gave a value.
#[tactic(auto, unfolding(crate::specs::ByHead::given_at, crate::specs::ByHead::StuckGivenAt))]
fn given<V: View, P: Programs>(
    alloc: Global,
    programs: &mut P,
    view: &mut V,
    head: Head,
    asked: &Complete,
) -> Result<Step, ViewFault>
    ensures { StepFrom V.View P.meaning asked.now.run head view.old view.new result
        (given_at (rules_of P.meaning) (V.book view.old) head asked.now)
        (StuckGivenAt P.meaning (V.book view.old) head asked.now) }
{
    let scheduled = view.event(asked.run, asked.event)?;
    if !gives(&scheduled, &asked.value) {
        return Ok(Step::Answered(Reply::Refused(Code::WrongType), Vec::new(alloc)));
    }
    let input = Input::ActivityCompleted(asked.event, asked.value.copy(alloc)?);
    let going = set_out(alloc, programs, view, head, asked.run, asked.at, input)?;
    Ok(Step::GoesOn(going))
}

/// Whether an event schedules an activity that gives such a value.
fn gives(event: &Option<Event>, value: &Value) -> bool
    ensures { result ≡ apply.gives_kind event.now value.now }
{
    match event {
        None => false,
        Some(event) => match &event.what {
            What::Came(_) => false,
            What::Asked(command) => match command {
                Cmd::Schedule(_, _, _, _, kind) => has_kind(*kind, value),
                _ => false,
            },
        },
    }
}
