//! Lines that ask which runs are open.
ghost use Rattle.std.specs.Prelude.{◌≡◌, None, Some, Err, IfOk, IsUtf8, codes, option_and_then};
ghost use Rattle.serde_json.specs.Read.{read};
ghost use Rattle.serde_json.specs.View.{view};
ghost use Rattle.flow_base.specs.Codec.{field};
ghost use Rattle.flow_base.specs.Fields.{left};
ghost use Rattle.flow_base.specs.Gives.{Gives};
ghost use Rattle.flow_base.specs.Leaves.{whole};
ghost use Rattle.flow_lines.specs.Asks.{asked_in, asked_members, line_asked};
ghost use Rattle.flow_lines.specs.Faults.{GivesLine};

use crate::command::LineFault;
use flow_base::command::Command;
use flow_base::fields::{FieldFault, Fields};
use flow_base::memory::NoMemory;
use flow_base::number::Most;
use serde_json::Value as Json;
use std::alloc::Global;

fn most_of(fields: &mut Fields) -> Result<Most, FieldFault>
    ensures { Gives (λ n. (n, left fields.new)) result (field (codes "most") (whole 1 256) (left fields.old)) }
{
    let number = fields.whole("most", 1, 256)?;
    Most::new(number).ok_or(FieldFault::Unfit)
}

fn of_fields(mut fields: Fields) -> Result<Command, FieldFault>
    ensures { Gives (λ c. c) result (asked_members (left fields)) }
{
    fields.fixed("ask", "open")?;
    let from = fields.run("from")?;
    let most = most_of(&mut fields)?;
    fields.finish()?;
    Ok(Command::Open(from, most))
}

fn of_json(json: Json) -> Result<Command, FieldFault>
    ensures { Gives (λ c. c) result (asked_in (view json)) }
{
    of_fields(Fields::of_json(json)?)
}

fn read_line(alloc: Global, line: &[u8]) -> Result<Command, LineFault>
    ensures ok { IfOk result (λ c. IsUtf8 line.now × (option_and_then asked_in (read line.now) ≡ Some c)) }
    ensures unfit { result ≡ Err LineFault.NotACommand → IsUtf8 line.now → option_and_then asked_in (read line.now) ≡ None }
{
    match Json::from_slice(alloc, line) {
        Ok(json) => Ok(of_json(json)?),
        Err(e) if e.is_memory() => Err(LineFault::NoMemory(NoMemory::told())),
        Err(_) => Err(LineFault::NotACommand),
    }
}

/// The question that a line is, given without its end, read as [`crate::command::command_of`] reads commands.
///
/// # Failure
/// E02 where it isn't UTF-8, or no JSON object with exactly the keys of a question, each within its limits.
pub fn asked_of(alloc: Global, line: &[u8]) -> Result<Command, LineFault>
    ensures exact { GivesLine result (line_asked line.now) }
{
    read_line(alloc, line)
}
