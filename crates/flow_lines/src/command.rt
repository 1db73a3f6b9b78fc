//! Command lines.
ghost use Rattle.std.specs.Prelude.{◌≡◌, Some, None, Ok, Err, IfOk, IsUtf8, codes, option_and_then};
ghost use Rattle.serde_json.specs.Read.{read};
ghost use Rattle.serde_json.specs.View.{view};
ghost use Rattle.flow_base.specs.Codec.{field};
ghost use Rattle.flow_base.specs.Fields.{left};
ghost use Rattle.flow_base.specs.Gives.{Gives};
ghost use Rattle.flow_base.specs.Leaves.{position};
ghost use Rattle.flow_base.specs.declared.command.Command.{Command};
ghost use Rattle.flow_lines.specs.Commands.{verb_named, verb_in, members_in, command_in, command_out, line_command, IsCommand};
ghost use Rattle.flow_lines.specs.Faults.{GivesCommand, GivesLine, line_fault_code};
ghost use Rattle.flow_lines.specs.declared.command.Verb.TheVariants as verb;

use flow_base::code::Code;
use flow_base::command::{Command, Complete, Fail, Start};
use flow_base::fields::{FieldFault, Fields};
use flow_base::memory::NoMemory;
use flow_base::number::LAST_NUMBER;
use serde_json::Value as Json;
use std::alloc::Global;

/// The word under `do`.
#[derive(Clone, Copy, Debug, PartialEq, Eq)]
pub enum Verb {
    Register,
    Start,
    Signal,
    Complete,
    Fail,
    Tick,
    Terminate,
    Upgrade,
    Describe,
    History,
}

impl Verb {
    /// The command of this name.
    pub fn named(name: &str) -> Option<Verb>
        ensures { result ≡ verb_named name.now }
    {
        match name {
            "register" => Some(Verb::Register),
            "start" => Some(Verb::Start),
            "signal" => Some(Verb::Signal),
            "complete" => Some(Verb::Complete),
            "fail" => Some(Verb::Fail),
            "tick" => Some(Verb::Tick),
            "terminate" => Some(Verb::Terminate),
            "upgrade" => Some(Verb::Upgrade),
            "describe" => Some(Verb::Describe),
            "history" => Some(Verb::History),
            _ => None,
        }
    }
}

/// Why a line gives no command.
#[derive(Clone, Copy, Debug, PartialEq, Eq, thiserror::Error)]
pub enum LineFault {
    #[error("{} out of memory", self.code())]
    NoMemory(NoMemory),
    #[error("{} not a command", self.code())]
    NotACommand,
}

impl LineFault {
    /// The number of the refusal.
    pub fn code(self) -> Code
        ensures { result ≡ line_fault_code self }
    {
        match self {
            LineFault::NoMemory(no_memory) => no_memory.code(),
            LineFault::NotACommand => Code::NotAValue,
        }
    }
}

impl From<FieldFault> for LineFault {
    ghost use Rattle.std.specs.Prelude.{◌≡◌};
    ghost use Rattle.flow_lines.specs.Faults.{line_fault_of};

    ghost from_gives = { λ r e. e ≡ line_fault_of r };

    fn from(refused: FieldFault) -> LineFault {
        match refused {
            FieldFault::Memory(no_memory) => LineFault::NoMemory(no_memory),
            FieldFault::Unfit => LineFault::NotACommand,
        }
    }
}

fn register_of(alloc: Global, mut fields: Fields) -> Result<Command, FieldFault>
    ensures { Gives (λ c. c) result (members_in verb.Register (left fields)) }
{
    fields.fixed("do", "register")?;
    let src = fields.any_text(alloc, "src")?;
    fields.finish()?;
    Ok(Command::Register(src))
}

fn start_of(alloc: Global, mut fields: Fields) -> Result<Command, FieldFault>
    ensures { Gives (λ c. c) result (members_in verb.Start (left fields)) }
{
    let arguments = fields.any_values(alloc, "args")?;
    let at = fields.moment("at")?;
    fields.fixed("do", "start")?;
    let flow = fields.key(alloc, "flow")?;
    let request = fields.key(alloc, "req")?;
    let text = fields.text_number("text")?;
    fields.finish()?;
    Ok(Command::Start(Start {
        request,
        flow,
        text,
        arguments,
        at,
    }))
}

fn signal_of(alloc: Global, mut fields: Fields) -> Result<Command, FieldFault>
    ensures { Gives (λ c. c) result (members_in verb.Signal (left fields)) }
{
    let at = fields.moment("at")?;
    fields.fixed("do", "signal")?;
    let flow = fields.key(alloc, "flow")?;
    let name = fields.any_text(alloc, "name")?;
    let request = fields.key(alloc, "req")?;
    let value = fields.value(alloc, "value")?;
    fields.finish()?;
    Ok(Command::Signal(request, flow, name, value, at))
}

fn attempt_of(fields: &mut Fields) -> Result<u64, FieldFault>
    ensures { Gives (λ n. (n, left fields.new)) result (field (codes "attempt") position (left fields.old)) }
{
    fields.whole("attempt", 1, LAST_NUMBER)
}

fn complete_of(alloc: Global, mut fields: Fields) -> Result<Command, FieldFault>
    ensures { Gives (λ c. c) result (members_in verb.Complete (left fields)) }
{
    let at = fields.moment("at")?;
    let attempt = attempt_of(&mut fields)?;
    fields.fixed("do", "complete")?;
    let event = fields.event("event")?;
    let run = fields.run("run")?;
    let value = fields.value(alloc, "value")?;
    fields.finish()?;
    Ok(Command::Complete(Complete {
        run,
        event,
        attempt,
        value,
        at,
    }))
}

fn fail_of(alloc: Global, mut fields: Fields) -> Result<Command, FieldFault>
    ensures { Gives (λ c. c) result (members_in verb.Fail (left fields)) }
{
    let at = fields.moment("at")?;
    let attempt = attempt_of(&mut fields)?;
    fields.fixed("do", "fail")?;
    let event = fields.event("event")?;
    let reason = fields.text(alloc, "reason")?;
    let run = fields.run("run")?;
    fields.finish()?;
    Ok(Command::Fail(Fail {
        run,
        event,
        attempt,
        reason,
        at,
    }))
}

fn tick_of(mut fields: Fields) -> Result<Command, FieldFault>
    ensures { Gives (λ c. c) result (members_in verb.Tick (left fields)) }
{
    let at = fields.moment("at")?;
    fields.fixed("do", "tick")?;
    fields.finish()?;
    Ok(Command::Tick(at))
}

fn terminate_of(alloc: Global, mut fields: Fields) -> Result<Command, FieldFault>
    ensures { Gives (λ c. c) result (members_in verb.Terminate (left fields)) }
{
    let at = fields.moment("at")?;
    fields.fixed("do", "terminate")?;
    let reason = fields.text(alloc, "reason")?;
    let run = fields.run("run")?;
    fields.finish()?;
    Ok(Command::Terminate(run, reason, at))
}

fn upgrade_of(mut fields: Fields) -> Result<Command, FieldFault>
    ensures { Gives (λ c. c) result (members_in verb.Upgrade (left fields)) }
{
    fields.fixed("do", "upgrade")?;
    let run = fields.run("run")?;
    let text = fields.text_number("text")?;
    fields.finish()?;
    Ok(Command::Upgrade(run, text))
}

fn describe_of(mut fields: Fields) -> Result<Command, FieldFault>
    ensures { Gives (λ c. c) result (members_in verb.Describe (left fields)) }
{
    fields.fixed("do", "describe")?;
    let run = fields.run("run")?;
    fields.finish()?;
    Ok(Command::Describe(run))
}

fn history_of(mut fields: Fields) -> Result<Command, FieldFault>
    ensures { Gives (λ c. c) result (members_in verb.History (left fields)) }
{
    fields.fixed("do", "history")?;
    let run = fields.run("run")?;
    fields.finish()?;
    Ok(Command::History(run))
}

fn verb_of(json: &Json) -> Option<Verb>
    ensures { result ≡ verb_in (view json.now) }
{
    Verb::named(json.get("do")?.as_str()?)
}

fn of_json(alloc: Global, json: Json) -> Result<Command, FieldFault>
    ensures { Gives (λ c. c) result (command_in (view json)) }
{
    let verb = verb_of(&json).ok_or(FieldFault::Unfit)?;
    match verb {
        Verb::Register => register_of(alloc, Fields::of_json(json)?),
        Verb::Start => start_of(alloc, Fields::of_json(json)?),
        Verb::Signal => signal_of(alloc, Fields::of_json(json)?),
        Verb::Complete => complete_of(alloc, Fields::of_json(json)?),
        Verb::Fail => fail_of(alloc, Fields::of_json(json)?),
        Verb::Tick => tick_of(Fields::of_json(json)?),
        Verb::Terminate => terminate_of(alloc, Fields::of_json(json)?),
        Verb::Upgrade => upgrade_of(Fields::of_json(json)?),
        Verb::Describe => describe_of(Fields::of_json(json)?),
        Verb::History => history_of(Fields::of_json(json)?),
    }
}

fn read_line(alloc: Global, line: &[u8]) -> Result<Command, LineFault>
    ensures ok { IfOk result (λ c. IsUtf8 line.now × (option_and_then command_in (read line.now) ≡ Some c)) }
    ensures unfit { result ≡ Err LineFault.NotACommand → IsUtf8 line.now → option_and_then command_in (read line.now) ≡ None }
{
    match Json::from_slice(alloc, line) {
        Ok(json) => Ok(of_json(alloc, json)?),
        Err(e) if e.is_memory() => Err(LineFault::NoMemory(NoMemory::told())),
        Err(_) => Err(LineFault::NotACommand),
    }
}

/// The command that a line is, given without its end. Blanks round it, the order of its keys and all but the last value
/// of a doubled key count for nothing, as `serde_json` reads it.
///
/// # Failure
/// E02 where it isn't UTF-8, or no JSON object with exactly the keys of a command, each within its limits.
pub fn command_of(alloc: Global, line: &[u8]) -> Result<Command, LineFault>
    // Which answer it is.
    ensures exact { GivesLine result (line_command line.now) }
    // What is read is UTF-8 and, for serde_json, the object of that command.
    ensures found { IfOk result (λ c. IsUtf8 line.now × (read line.now ≡ Some (command_out c))) }
    // A line that is a command's object, within the limits, is read, unless memory runs out.
    ensures only { (c : Command) → IsCommand c → IsUtf8 line.now → read line.now ≡ Some (command_out c) → GivesCommand result c }
{
    read_line(alloc, line)
}
