//! The call that replays histories.
ghost use Rattle.std.specs.Prelude.{◌≡◌, Ok, IfOk, IfErr};
ghost use Rattle.flow_check.specs.Language.{meaning_of};
ghost use Rattle.flow_cli.specs.Replaying.{replayed_of};
ghost use Rattle.flow.specs.Reading.{Reads};
ghost use Rattle.flow.specs.Replays.{is_reply, IsReplayOf, IsReplayOfReply, IsUntaken, Replays, ReplaysAt, ReplaysFile, ReplaysFiles, ReplaysInput, ReplaysNamed, ReplaysOne, TellsReplay};

use crate::ends::early;
use crate::system::System;
use crate::texts::{text_in, unread};
use flow_base::fault::Fault;
use flow_check::language::Language;
use flow_cli::reason::Early;
use flow_cli::replaying::{Replayed, tell_mismatch, tell_replayed, write_replayed};
use flow_cli::spelling::{Unspelled, lines_of_reply};
use flow_lines::fault::fault_of_error;
use flow_lines::output::Output;
use std::alloc::Global;

/// Whether a history is a reply: an object of JSON, as no line of a history begins.
fn is_reply(history: &str) -> bool
    ensures { result ≡ is_reply history.now }
{
    match history.as_bytes().first() {
        Some(byte) => *byte == b'{',
        None => false,
    }
}

/// Replays a history under a text, and gives what came of it. Of one that doesn't replay the text's and the history's next event are
/// told as errors; that they can't be written changes nothing.
fn replay_lines<O: Output, P: Output>(
    alloc: Global,
    output: &mut O,
    errors: &mut P,
    begins: &str,
    text: &str,
    history: &str,
) -> Result<u8, Fault>
    ensures { TellsReplay O.Output begins.now (replayed_of (meaning_of text.now) history.now) output.old output.new result }
{
    let replayed = match tell_replayed(alloc, &Language, output, begins, text, history) {
        Ok(replayed) => replayed,
        Err(fault) => return Err(fault),
    };
    if let Replayed::Mismatch { event, name: _ } = replayed {
        let _told = tell_mismatch(alloc, &Language, errors, text, history, event);
    }
    Ok(replayed.status())
}

/// Tells that a reply is that of no history.
fn tell_bad_line<O: Output>(
    alloc: Global,
    output: &mut O,
    begins: &str,
    replayed: Replayed,
) -> Result<u8, Fault>
    ensures { TellsReplay O.Output begins.now replayed output.old output.new result }
{
    match write_replayed(alloc, output, begins, replayed) {
        Ok(()) => Ok(replayed.status()),
        Err(fault) => Err(fault),
    }
}

/// Replays under a text the history whose reply this is.
fn replay_reply<O: Output, P: Output>(
    alloc: Global,
    output: &mut O,
    errors: &mut P,
    begins: &str,
    text: &str,
    reply: &str,
) -> Result<u8, Fault>
    ensures { Replays O.Output begins.now (IsReplayOfReply (meaning_of text.now) reply.now) output.old output.new result }
{
    match lines_of_reply(alloc, reply) {
        Ok(lines) => replay_lines(alloc, output, errors, begins, text, lines.as_str()),
        Err(Unspelled::NoMemory(no_memory)) => Err(Fault::NoMemory(no_memory)),
        Err(Unspelled::BadLine { line, code }) => {
            tell_bad_line(alloc, output, begins, Replayed::BadLine { line, code })
        }
    }
}

/// Replays a history under a text: its lines, or a reply.
fn replay_one<O: Output, P: Output>(
    alloc: Global,
    output: &mut O,
    errors: &mut P,
    begins: &str,
    text: &str,
    history: &str,
) -> Result<u8, Fault>
    ensures { Replays O.Output begins.now (IsReplayOf (meaning_of text.now) history.now) output.old output.new result }
{
    if is_reply(history) {
        replay_reply(alloc, output, errors, begins, text, history.trim_end())
    } else {
        replay_lines(alloc, output, errors, begins, text, history)
    }
}

/// Replays the history in a file, with a line that begins with the file's path.
fn replay_file<H: System, O: Output, P: Output>(
    alloc: Global,
    system: &H,
    output: &mut O,
    errors: &mut P,
    text: &str,
    file: &str,
) -> Result<u8, Early>
    ensures { ReplaysFile (H.reads system.now) O.Output (meaning_of text.now) file.now output.old output.new result }
{
    let history = text_in(alloc, system, file)?;
    let begins = format!(in alloc; "{file}: ")?;
    early(replay_one(
        alloc,
        output,
        errors,
        begins.as_str(),
        text,
        history.as_str(),
    ))
}

/// Replays each history of these files, with a line that begins with the file's path.
fn replay_files<H: System, O: Output, P: Output>(
    alloc: Global,
    system: &H,
    output: &mut O,
    errors: &mut P,
    text: &str,
    files: &[String],
) -> Result<u8, Early>
    ensures { ReplaysFiles (H.reads system.now) O.Output (meaning_of text.now) files.now output.old output.new result }
{
    let mut status = 0;
    for file in files {
        match replay_file(alloc, system, output, errors, text, file.as_str()) {
            Ok(answered) => status = status.max(answered),
            Err(early) => return Err(early),
        }
    }
    Ok(status)
}

/// What stands in the input.
fn input_in<H: System>(system: &H) -> Result<String, Fault>
    ensures read { IfOk result (λ text. H.takes system.now (Ok text)) }
    ensures unread { IfErr result (λ f. IsUntaken (H.takes system.now) f) }
{
    match system.input() {
        Ok(text) => Ok(text),
        Err(error) => Err(fault_of_error(error.kind(), Fault::InputFailed)),
    }
}

/// Replays under a text the history in the input.
fn replay_input<H: System, O: Output, P: Output>(
    alloc: Global,
    system: &H,
    output: &mut O,
    errors: &mut P,
    text: &str,
) -> Result<u8, Early>
    ensures { ReplaysInput (H.takes system.now) O.Output (meaning_of text.now) output.old output.new result }
{
    match input_in(system) {
        Ok(history) => early(replay_one(alloc, output, errors, "", text, history.as_str())),
        Err(fault) => Err(Early::from(fault)),
    }
}

/// Replays under a text the history in a file.
fn replay_in<H: System, O: Output, P: Output>(
    alloc: Global,
    system: &H,
    output: &mut O,
    errors: &mut P,
    text: &str,
    file: &str,
) -> Result<u8, Early>
    ensures { ReplaysOne (H.reads system.now) O.Output (meaning_of text.now) file.now output.old output.new result }
{
    let history = text_in(alloc, system, file)?;
    early(replay_one(alloc, output, errors, "", text, history.as_str()))
}

/// Replays under a text the histories in a folder, or the one in what is none.
fn replay_at<H: System, O: Output, P: Output>(
    alloc: Global,
    system: &H,
    output: &mut O,
    errors: &mut P,
    text: &str,
    path: &str,
) -> Result<u8, Early>
    ensures { ReplaysAt (H.reads system.now) (H.lists system.now) O.Output (meaning_of text.now) path.now output.old output.new result }
{
    match system.folder(path) {
        Ok(Some(files)) => replay_files(alloc, system, output, errors, text, files.as_slice()),
        Ok(None) => replay_in(alloc, system, output, errors, text, path),
        Err(error) => Err(unread(alloc, path, error.kind())),
    }
}

/// Replays under the text of a file the history in another one, or each in a folder; `-` is standard input.
pub fn replay<H: System, O: Output, P: Output>(
    alloc: Global,
    system: &H,
    output: &mut O,
    errors: &mut P,
    file: &str,
    history: &str,
) -> Result<u8, Early>
    ensures { Reads (H.reads system.now) file.now (output.new ≡ output.old)
        (λ text. ReplaysNamed (H.reads system.now) (H.lists system.now) (H.takes system.now) O.Output
        (meaning_of text) history.now output.old output.new) result }
{
    let text = text_in(alloc, system, file)?;
    match history {
        "-" => replay_input(alloc, system, output, errors, text.as_str()),
        path => replay_at(alloc, system, output, errors, text.as_str(), path),
    }
}
