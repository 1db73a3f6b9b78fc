//! Which runs the changes of a command close.
ghost use Rattle.std.specs.Prelude.{◌≡◌, ◌∷◌, ◌++◌, [], OnOk, cond};
ghost use Rattle.flow_commit.specs.Shutting as rule;

use flow_base::book::{Change, Turn};
use flow_base::command::Reply;
use flow_base::event::{Cmd, Input};
use flow_base::number::RunId;
use std::alloc::AllocError;

/// Whether a command of a program closes its run.
fn ends_by(command: &Cmd) -> bool
    ensures { result ≡ rule.ends_by command.now }
{
    match command {
        Cmd::Complete(_) => true,
        Cmd::Fail(_, _) => true,
        Cmd::ContinueAsNew(_) => true,
        _ => false,
    }
}

fn ends_at(input: &Input) -> bool
    ensures { result ≡ rule.ends_at input.now }
{
    match input {
        Input::Terminated(_) => true,
        _ => false,
    }
}

/// Whether the last of these does, if what comes before them does or doesn't.
fn ends_after(before: bool, commands: &[Cmd]) -> bool
    ensures { result ≡ rule.ends_after before commands.now }
{
    let mut last = before;
    for command in commands {
        last = ends_by(command);
    }
    last
}

/// Whether the last event of a turn does.
fn ends(turn: &Turn) -> bool
    ensures { result ≡ rule.ends turn.now }
{
    ends_after(ends_at(&turn.input), turn.commands.as_slice())
}

/// Lists the run that was started, by the reply to a command.
fn add_started(list: &mut Vec<RunId>, reply: &Reply) -> Result<(), AllocError>
    ensures { OnOk result (list.new.items ≡ list.old.items ++ rule.started_by reply.now) }
{
    match reply {
        Reply::Started(run) => {
            list.push(*run)?;
            Ok(())
        }
        _ => Ok(()),
    }
}

/// Lists a run, if it is over.
fn add_if(ended: bool, list: &mut Vec<RunId>, run: RunId) -> Result<(), AllocError>
    ensures { OnOk result (list.new.items ≡ list.old.items ++ cond ended (run ∷ []) []) }
{
    if ended {
        list.push(run)?;
    }
    Ok(())
}

/// Lists the run that was started, if it is over.
fn add_started_if(ended: bool, list: &mut Vec<RunId>, reply: &Reply) -> Result<(), AllocError>
    ensures { OnOk result (list.new.items ≡ list.old.items ++ cond ended (rule.started_by reply.now) []) }
{
    if ended {
        add_started(list, reply)?;
    }
    Ok(())
}

/// Lists the run that a change closes.
fn add_shut_by(list: &mut Vec<RunId>, reply: &Reply, change: &Change) -> Result<(), AllocError>
    ensures { OnOk result (list.new.items ≡ list.old.items ++ rule.shut_by reply.now change.now) }
{
    match change {
        Change::AddRun(_, _, _, turn) => add_started_if(ends(turn), list, reply),
        Change::AddTurn(run, turn) => add_if(ends(turn), list, *run),
        _ => Ok(()),
    }
}

/// Lists the runs that the changes of a command close, which has this reply.
pub(crate) fn add_shut(
    list: &mut Vec<RunId>,
    reply: &Reply,
    changes: &[Change],
) -> Result<(), AllocError>
    ensures { OnOk result (list.new.items ≡ list.old.items ++ rule.shut_in reply.now changes.now) }
{
    for change in changes {
        add_shut_by(list, reply, change)?;
    }
    Ok(())
}
