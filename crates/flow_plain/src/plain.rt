ghost use Rattle.std.specs.Prelude.{◌≡◌, ◌<◌, ◌+◌, ◌^◌, ◌↔◌, length, IfOk, OnErr, MatchOption, None, Some, Err, true, false};
ghost use Rattle.flow_base.specs.Shown.{shown_program};
ghost use Rattle.flow_model.specs.Configuration.{first_configuration, is_closed as is_closed_state};
ghost use Rattle.flow_model.specs.Deliver.{deliver as delivered};
ghost use Rattle.flow_model.specs.Turn.{Turn};
ghost use Rattle.flow_model.specs.Turned.{turned};
ghost use Rattle.flow_plain.specs.Shown.{plain_configuration};
ghost use Rattle.flow_plain.specs.Codes.{turn_fault_code};
ghost use Rattle.flow_run.specs.Shown.{shown_answers, waits_of};

use crate::deliver::takes;
use crate::rest::Rest;
use crate::turn::{is_closed, made};
use flow_base::code::Code;
use flow_base::event::{Cmd, Input, State};
use flow_base::memory::NoMemory;
use flow_base::number::Moment;
use flow_base::syntax::Program;
use flow_base::text::Key;
use flow_base::value::Value;
use flow_run::decided::Decided;
use flow_run::setting::Answers;
use flow_run::waits::OpenWait;
use flow_values::fault;
use flow_values::named::NamedValues;
use std::alloc::{AllocError, Global};

/// A run between two turns, as plain lists and trees: what the definitions of a run say of it can be computed from it
/// step by step. It shares the program's lists of statements.
#[derive(Debug, Drop)]
pub struct PlainRun {
    pub(crate) rest: Rest,
    pub(crate) variables: NamedValues,
    pub(crate) buffer: NamedValues,
    pub(crate) decided: Decided,
    pub(crate) events: u64,
    pub(crate) moment: Moment,
    pub(crate) state: State,
}

/// Why a turn wasn't made.
#[derive(Debug, Drop, thiserror::Error)]
pub enum TurnFault {
    #[error("{} out of memory", self.code())]
    NoMemory(NoMemory),
    #[error("{} the run doesn't wait for this", self.code())]
    NotAwaited,
    #[error("{} the run is closed", self.code())]
    Closed,
}

impl TurnFault {
    /// The number of the refusal.
    pub fn code(&self) -> Code
        ensures { result ≡ turn_fault_code self.now }
    {
        match self {
            TurnFault::NoMemory(no_memory) => no_memory.code(),
            TurnFault::NotAwaited => Code::NotAwaited,
            TurnFault::Closed => Code::Closed,
        }
    }
}

impl From<AllocError> for TurnFault {
    ghost use Rattle.std.specs.Prelude.{◌≡◌};
    ghost use Rattle.flow_plain.specs.declared.plain.TurnFault.TheVariants.{NoMemory};

    ghost from_gives = { λ _ e. e ≡ NoMemory _ };

    fn from(refused: AllocError) -> TurnFault {
        TurnFault::NoMemory(NoMemory::from(refused))
    }
}

/// A run before its first event.
pub fn unbegun(alloc: Global) -> PlainRun
    ensures { plain_configuration result ≡ first_configuration }
{
    PlainRun {
        rest: Rest::Done,
        variables: NamedValues::new(),
        buffer: NamedValues::new(),
        decided: Decided::new(alloc),
        events: 0,
        moment: Moment::new(0).unwrap(),
        state: State::Unbegun,
    }
}

impl PlainRun {
    /// An equal position, over the same lists and values, or E01.
    pub fn copy(&self, alloc: Global) -> Result<PlainRun, AllocError>
        ensures { IfOk result (λ r. plain_configuration r ≡ plain_configuration self.now) }
    {
        let rest = self.rest.copy(alloc)?;
        let variables = self.variables.share()?;
        let buffer = self.buffer.share()?;
        let decided = self.decided.copy(alloc)?;
        Ok(PlainRun {
            rest,
            variables,
            buffer,
            decided,
            events: self.events,
            moment: self.moment,
            state: self.state,
        })
    }

    /// How many events its history has.
    pub fn events(&self) -> u64
        ensures { result ≡ (plain_configuration self.now).events }
    {
        self.events
    }

    /// The moment of its last event.
    pub fn moment(&self) -> Moment
        ensures { result ≡ (plain_configuration self.now).moment }
    {
        self.moment
    }

    /// Whether the run has begun, is open, or how it was closed.
    pub fn state(&self) -> State
        ensures { result ≡ (plain_configuration self.now).state }
    {
        self.state
    }

    /// The value of a variable, if it has one.
    pub fn variable(&self, name: &str) -> Option<&Value>
        ensures { MatchOption result ((plain_configuration self.now).variables name.now ≡ None)
            (λ v. (plain_configuration self.now).variables name.now ≡ Some v.now) }
    {
        self.variables.find(name)
    }

    /// The signals that nobody took yet, each with its name, the oldest first.
    pub fn buffered(&self) -> &[(Key, Value)]
        ensures { result.now ≡ (plain_configuration self.now).buffer }
    {
        self.buffer.entries()
    }

    /// Its open waits, from the left of the program.
    pub fn waits(&self, alloc: Global) -> Result<Vec<OpenWait>, AllocError>
        ensures { IfOk result (λ ws. ws.items ≡ waits_of (plain_configuration self.now).rest) }
    {
        self.rest.with_waits(alloc, Vec::new(alloc))
    }
}

/// One turn of a run: its commands in order, after which the run stands where the turn leaves it.
///
/// # Failure
/// E41 where the run is closed, E40 where it can't take the input, else E01; the run is as it was.
pub fn plain_turn(
    alloc: Global,
    run: &mut PlainRun,
    program: &Program,
    at: Moment,
    input: &Input,
    answers: Answers,
) -> Result<Vec<Cmd>, TurnFault>
    requires events { (plain_configuration run.old).events < 2 ^ 61 }
    ensures ok { IfOk result (λ cmds. Turn (shown_program program.now) (shown_answers answers.entry)
        (plain_configuration run.old) at input.now cmds.items (plain_configuration run.new)) }
    ensures computed { IfOk result (λ cmds. turned (shown_program program.now) (shown_answers answers.entry)
        (plain_configuration run.old) at input.now ≡ Some (cmds.items, plain_configuration run.new)) }
    ensures counted { IfOk result (λ cmds. (plain_configuration run.new).events ≡
        (plain_configuration run.old).events + 1 + length cmds.items) }
    ensures err { OnErr result (plain_configuration run.new ≡ plain_configuration run.old) }
    ensures closed { (result ≡ Err TurnFault.Closed) ↔ (is_closed_state (plain_configuration run.old).state ≡ true) }
    ensures not_awaited { (result ≡ Err TurnFault.NotAwaited) ↔
        ((is_closed_state (plain_configuration run.old).state ≡ false)
        × (delivered (shown_program program.now) (plain_configuration run.old) input.now ≡ None)) }
{
    if is_closed(run.state) {
        return Err(TurnFault::Closed);
    }
    if !takes(program, run, input) {
        return Err(TurnFault::NotAwaited);
    }
    match made(alloc, run, program, at, input, answers) {
        Ok(Some((next, commands))) => {
            *run = next;
            Ok(commands)
        }
        Ok(None) => Err(TurnFault::NotAwaited),
        Err(fault::EvalFault::NoMemory(no_memory)) => Err(TurnFault::NoMemory(no_memory)),
    }
}
