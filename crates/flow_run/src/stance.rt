#![tactic(auto, unfolding(crate::specs::Position::config_of))]

ghost use Rattle.std.specs.Prelude.{◌≡◌, ◌≢◌, ◌<◌, ◌+◌, ◌^◌, ◌↔◌, length, IfOk, IfSome, OnErr, MatchOption, Some, None, is_some, true, false};
ghost use Rattle.flow_base.specs.Syntax.{Program as Tree};
ghost use Rattle.flow_model.specs.Checked.{shown_checked};
ghost use Rattle.flow_model.specs.Configuration.{first_configuration, is_closed as is_closed_state};
ghost use Rattle.flow_model.specs.Deliver.{deliver, all_fit};
ghost use Rattle.flow_model.specs.Turn.{Turn};
ghost use Rattle.flow_model.specs.Turned.{turned};
ghost use Rattle.flow_run.specs.Shown.{shown_answers, waits_of};
ghost use Rattle.flow_run.specs.Position.{config_of};
ghost use Rattle.flow_run.specs.Whole.{shown_standing};

use crate::fault::RunFault;
pub use crate::setting::Answers;
use crate::standing::SoundStanding;
use crate::turn::{begun, continued, is_closed, waits};
pub use crate::waits::OpenWait;
use flow_base::event::{Cmd, Input, State, copy_values};
use flow_base::number::Moment;
use flow_base::text::Key;
use flow_base::value::Value;
use flow_model::checked::Checked;
use flow_values::fault::EvalFault;
use std::alloc::{AllocError, Global};

/// The position of a run between two turns. It is used with the program with which it was made, by the caller's
/// condition.
#[derive(Debug, Drop)]
pub struct Stance {
    /// None before its first event.
    begun: Option<SoundStanding>,
}

impl Stance {
    /// A run that has no event yet.
    pub fn unbegun(_alloc: Global) -> Stance
        ensures { (p : Tree) → config_of p result ≡ first_configuration }
    {
        Stance { begun: None }
    }

    /// The first turn of a run: its body begins with the arguments. Gives the commands that it asks.
    ///
    /// # Failure
    /// E01, and E40 where the arguments don't fit the parameters.
    pub fn first(
        alloc: Global,
        program: &Checked,
        arguments: &[Value],
        at: Moment,
        answers: Answers,
    ) -> Result<(Stance, Vec<Cmd>), RunFault>
        ensures turn { IfOk result (λ r. Turn (shown_checked program.now) (shown_answers answers.entry) first_configuration at
            (Input.Started arguments.now) r.1.items (config_of (shown_checked program.now) r.0)) }
        ensures computed { IfOk result (λ r. turned (shown_checked program.now) (shown_answers answers.entry) first_configuration at
            (Input.Started arguments.now) ≡ Some (r.1.items, config_of (shown_checked program.now) r.0)) }
        ensures counted { IfOk result (λ r. (config_of (shown_checked program.now) r.0).events ≡ 1 + length r.1.items) }
        ensures not_awaited { result ≡ Err RunFault.NotAwaited → all_fit (shown_checked program.now).parameters arguments.now ≡ false }
        ensures not_closed { result ≢ Err RunFault.Closed }
    {
        let input = Input::Started(copy_values(alloc, arguments)?);
        let mut stance = Stance::unbegun(alloc);
        match turn(alloc, &mut stance, program, at, &input, answers) {
            Ok(commands) => Ok((stance, commands)),
            Err(fault) => Err(fault),
        }
    }

    /// A stance of the same configuration.
    ///
    /// # Failure
    /// E01.
    pub fn copy(&self, alloc: Global) -> Result<Stance, AllocError>
        ensures { IfOk result (λ s. (p : Tree) → config_of p s ≡ config_of p self.now) }
    {
        match &self.begun {
            Some(position) => {
                let begun = Some(position.copy(alloc)?);
                Ok(Stance { begun })
            }
            None => Ok(Stance { begun: None }),
        }
    }

    /// How many events the run has.
    pub fn events(&self) -> u64
        ensures { (p : Tree) → (config_of p self.now).events ≡ result }
    {
        match &self.begun {
            Some(position) => position.get().events,
            None => 0,
        }
    }

    /// The moment of its last event.
    pub fn moment(&self) -> Moment
        ensures { (p : Tree) → (config_of p self.now).moment ≡ result }
    {
        match &self.begun {
            Some(position) => position.get().moment,
            None => Moment::new(0).unwrap(),
        }
    }

    /// Whether the run has begun, is open, or how it was closed.
    pub fn state(&self) -> State
        ensures { (p : Tree) → (config_of p self.now).state ≡ result }
    {
        match &self.begun {
            Some(position) => position.get().state,
            None => State::Unbegun,
        }
    }

    /// The value of a variable, if it has one.
    pub fn variable(&self, _program: &Checked, name: &str) -> Option<&Value>
        ensures { MatchOption result ((config_of (shown_checked _program.now) self.now).variables name.now ≡ None)
            (λ v. (config_of (shown_checked _program.now) self.now).variables name.now ≡ Some v.now) }
    {
        match &self.begun {
            Some(position) => position.get().variables.find(name),
            None => None,
        }
    }

    /// The signals that nobody took yet, each with its name, the oldest first.
    pub fn buffered(&self, _program: &Checked) -> &[(Key, Value)]
        ensures { (config_of (shown_checked _program.now) self.now).buffer ≡ result.now }
    {
        match &self.begun {
            Some(position) => position.get().buffer.entries(),
            None => &[],
        }
    }

    /// Its open waits, from the left of the program.
    ///
    /// # Failure
    /// E01.
    pub fn waits(&self, alloc: Global, _program: &Checked) -> Result<Vec<OpenWait>, AllocError>
        ensures { IfOk result (λ ws. ws.items ≡ waits_of (config_of (shown_checked _program.now) self.now).rest) }
    {
        match &self.begun {
            Some(position) => waits(alloc, &position.get().cells),
            None => Ok(Vec::new(alloc)),
        }
    }
}

/// One turn: the input is delivered, and the program goes on until it waits or ends. Gives the commands that it asks.
/// After a failure the stance is as it was.
///
/// # Failure
/// E41 where the run is closed, E40 where an open run can't take the input, and E01.
pub fn turn(
    alloc: Global,
    stance: &mut Stance,
    program: &Checked,
    at: Moment,
    input: &Input,
    answers: Answers,
) -> Result<Vec<Cmd>, RunFault>
    requires events { (config_of (shown_checked program.now) stance.old).events < 2 ^ 61 }
    ensures turn { IfOk result (λ cmds. Turn (shown_checked program.now) (shown_answers answers.entry)
        (config_of (shown_checked program.now) stance.old) at input.now cmds.items (config_of (shown_checked program.now) stance.new)) }
    ensures computed { IfOk result (λ cmds. turned (shown_checked program.now) (shown_answers answers.entry)
        (config_of (shown_checked program.now) stance.old) at input.now ≡ Some
        (cmds.items, config_of (shown_checked program.now) stance.new)) }
    ensures counted { IfOk result (λ cmds. (config_of (shown_checked program.now) stance.new).events ≡
        (config_of (shown_checked program.now) stance.old).events + 1 + length cmds.items) }
    ensures unchanged { OnErr result ((p : Tree) → config_of p stance.new ≡ config_of p stance.old) }
    ensures closed { (result ≡ Err RunFault.Closed) ↔ (is_closed_state (config_of (shown_checked program.now) stance.old).state ≡ true) }
    ensures not_awaited { (result ≡ Err RunFault.NotAwaited) ↔
        ((is_closed_state (config_of (shown_checked program.now) stance.old).state ≡ false)
        × (deliver (shown_checked program.now) (config_of (shown_checked program.now) stance.old) input.now ≡ None)) }
{
    if is_closed(stance.state()) {
        return Err(RunFault::Closed);
    }
    match made(alloc, stance, program, at, input, answers) {
        Ok(Some((position, commands))) => {
            stance.begun = Some(position);
            Ok(commands)
        }
        Ok(None) => Err(RunFault::NotAwaited),
        Err(EvalFault::NoMemory(no_memory)) => Err(RunFault::NoMemory(no_memory)),
    }
}

// A turn: where it leaves the run, and its commands; none where the input can't be delivered.
fn made(
    alloc: Global,
    stance: &Stance,
    program: &Checked,
    at: Moment,
    input: &Input,
    answers: Answers,
) -> Result<Option<(SoundStanding, Vec<Cmd>)>, EvalFault>
    requires events { (config_of (shown_checked program.now) stance.now).events < 2 ^ 61 }
    ensures counted { IfOk result (λ o. IfSome o (λ r. r.0.events ≡
        (config_of (shown_checked program.now) stance.now).events + 1 + length r.1.items)) }
    ensures turn { IfOk result (λ o. MatchOption o
        (deliver (shown_checked program.now) (config_of (shown_checked program.now) stance.now) input.now ≡ None)
        (λ r. Turn (shown_checked program.now) (shown_answers answers.entry)
        (config_of (shown_checked program.now) stance.now) at input.now r.1.items (shown_standing r.0))) }
    ensures err { OnErr result (is_some (deliver (shown_checked program.now)
        (config_of (shown_checked program.now) stance.now) input.now) ≡ true) }
{
    match &stance.begun {
        Some(position) => continued(alloc, position, program, at, input, answers),
        None => match input {
            Input::Started(values) => begun(alloc, program, at, values.as_slice(), answers),
            _ => Ok(None),
        },
    }
}
