//! The command `fail`: an attempt of an activity failed. Another one is made, or, behind the last one, the failure is recorded.
//!
//! The rule is `fail` of `flow_model/specs/Apply.antt`. The first of these refuses: E70 (no such run), E64 (the activity isn't open), E65
//! (another attempt is the current one), and, where no attempt is left, E69 (the history is full).
ghost use Rattle.std.specs.Prelude.{◌<◌, ◌≡◌, IfOk};
ghost use Rattle.flow_machine.specs.ByHead.{StuckFailAt, StuckFailedAt, StuckFailureAt, attempt_failed_at, fail_at, run_failed_at};
ghost use Rattle.flow_machine.specs.Deciding.{Gives};
ghost use Rattle.flow_machine.specs.Going.{StepCalled, StepFrom};
ghost use Rattle.flow_model.specs.Apply as apply;
ghost use Rattle.flow_model.specs.Apply.{rules_of};
ghost use Rattle.flow_view.specs.Reading.{Caused};

use crate::going::{Step, set_out};
use crate::puts::one;
use crate::report::attempt_refusal;
use flow_base::book::Change;
use flow_base::code::Code;
use flow_base::command::{Fail, Reply};
use flow_base::event::{Cmd, Event, Input, What};
use flow_base::number::{LAST_MOMENT, Moment};
use flow_programs::programs::Programs;
use flow_view::fault::ViewFault;
use flow_view::head::Head;
use flow_view::view::View;
use std::alloc::Global;

/// An attempt of an activity failed. In the words of the run's head, as what follows; `decided` says it in those of the book.
#[tactic(auto, unfolding(crate::specs::ByHead::fail_at, crate::specs::ByHead::StuckFailAt))]
pub(crate) fn fail<V: View, P: Programs>(
    alloc: Global,
    programs: &mut P,
    view: &mut V,
    asked: &Fail,
) -> Result<Step, ViewFault>
    ensures { StepCalled V.View P.meaning view.old view.new result
        (fail_at (rules_of P.meaning) (V.book view.old) asked.now) (StuckFailAt P.meaning (V.book view.old) asked.now) }
{
    let Some(head) = view.head(asked.run)? else {
        return Ok(Step::Answered(Reply::Refused(Code::NoRun), Vec::new(alloc)));
    };
    if let Some(code) = attempt_refusal(&head, asked.event, asked.attempt) {
        return Ok(Step::Answered(Reply::Refused(code), Vec::new(alloc)));
    }
    let step = fail_run(alloc, programs, view, head, asked)?;
    Ok(step)
}

/// The attempt of an activity that is open failed.
#[tactic(auto, unfolding(crate::specs::ByHead::run_failed_at, crate::specs::ByHead::StuckFailureAt))]
fn fail_run<V: View, P: Programs>(
    alloc: Global,
    programs: &mut P,
    view: &mut V,
    head: Head,
    asked: &Fail,
) -> Result<Step, ViewFault>
    ensures { StepFrom V.View P.meaning asked.now.run head view.old view.new result
        (run_failed_at (rules_of P.meaning) (V.book view.old) head asked.now)
        (StuckFailureAt P.meaning (V.book view.old) head asked.now) }
{
    let scheduled = view.event(asked.run, asked.event)?;
    let Some((tries, every)) = tries_of(&scheduled) else {
        return Err(ViewFault::StoreRefused);
    };
    let step = attempt_failed(alloc, programs, view, head, asked, tries, every)?;
    Ok(step)
}

/// An attempt of an activity that is tried so often failed.
fn attempt_failed<V: View, P: Programs>(
    alloc: Global,
    programs: &mut P,
    view: &mut V,
    head: Head,
    asked: &Fail,
    tries: u64,
    every: u64,
) -> Result<Step, ViewFault>
    ensures { StepFrom V.View P.meaning asked.now.run head view.old view.new result
        (attempt_failed_at (rules_of P.meaning) (V.book view.old) head asked.now (tries, every))
        (StuckFailedAt P.meaning (V.book view.old) head asked.now (tries, every)) }
{
    if asked.attempt < tries {
        let ready = ready_after(asked.at.max(head.moment), every);
        let (reply, changes) = retried(alloc, asked, tries, ready)?;
        return Ok(Step::Answered(reply, changes));
    }
    let input = Input::ActivityFailed(asked.event, asked.reason.copy(alloc)?);
    let going = set_out(alloc, programs, view, head, asked.run, asked.at, input)?;
    Ok(Step::GoesOn(going))
}

/// How often the activity of an event is tried, and the pause between two attempts.
fn tries_of(event: &Option<Event>) -> Option<(u64, u64)>
    ensures { result ≡ apply.tries_of event.now }
{
    match event {
        None => None,
        Some(event) => match &event.what {
            What::Came(_) => None,
            What::Asked(command) => match command {
                Cmd::Schedule(_, _, tries, every, _) => Some((*tries, *every)),
                _ => None,
            },
        },
    }
}

/// The end of a pause: no moment is past the last one.
fn ready_after(at: Moment, pause: u64) -> Moment
    ensures { result ≡ apply.ready_after at pause }
{
    let at = at.get();
    let ready = if pause >= LAST_MOMENT - at {
        LAST_MOMENT
    } else {
        at + pause
    };
    Moment::new(ready).unwrap()
}

/// The next attempt is made, ready at this moment, and no event is recorded.
fn retried(
    alloc: Global,
    asked: &Fail,
    tries: u64,
    ready: Moment,
) -> Result<(Reply, Vec<Change>), ViewFault>
    requires { asked.now.attempt < tries }
    ensures gives { IfOk result (λ x. Gives x.0 x.1.items (apply.retried asked.now.run asked.now.event asked.now.attempt ready)) }
    ensures cause { Caused result ⊥ }
{
    let next = asked.attempt + 1;
    let changes = one(
        alloc,
        Change::SetAttempt(asked.run, asked.event, next, ready),
    )?;
    Ok((Reply::Retry(asked.run, next, ready), changes))
}
