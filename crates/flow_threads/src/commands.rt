//! The commands of a race by their numbers, and what is noted of their answers.
use crate::note::Note;
use flow_base::command::{Command, Reply, Start};
use flow_base::number::{Moment, TextNo};
use flow_base::sequence::Sequence;
use flow_base::submission::Receipt;
use flow_base::text::{Key, RawText};
use std::alloc::Global;

fn register(alloc: Global) -> Option<Command> {
    let text = RawText::new(alloc, "workflow e() {}").ok()?;
    Some(Command::Register(text))
}

/// A start whose request and flow are its number.
fn start(alloc: Global, number: u64) -> Option<Command> {
    let text = TextNo::new(1)?;
    let at = Moment::new(1000)?;
    let name = format!(in alloc; "{number}").ok()?;
    let request = Key::new(alloc, name.as_str()).ok()?;
    let flow = Key::new(alloc, name.as_str()).ok()?;
    Some(Command::Start(Start {
        request,
        flow,
        text,
        arguments: Sequence::new(alloc),
        at,
    }))
}

/// The command of this number: 0 is the text of all starts.
pub fn command(alloc: Global, number: u64) -> Option<Command> {
    if number == 0 {
        register(alloc)
    } else {
        start(alloc, number)
    }
}

fn number_in(command: &Command) -> u64 {
    match command {
        Command::Start(asked) => asked.request.as_str().parse::<u64>().unwrap_or(0),
        _ => 0,
    }
}

fn named_in(reply: &Reply) -> (u64, bool) {
    match reply {
        Reply::Registered(text) => (text.get(), false),
        Reply::Started(run) => (run.get(), false),
        Reply::Duplicate(run) => (run.get(), true),
        _ => (0, false),
    }
}

pub fn note_of(receipt: &Receipt) -> Note {
    let (named, is_again) = named_in(&receipt.reply);
    Note {
        code: 0,
        ticket: receipt.ticket,
        place: receipt.place,
        number: number_in(&receipt.command),
        named,
        is_again,
    }
}

pub fn refused_by(code: u8) -> Note {
    Note {
        code,
        ticket: 0,
        place: 0,
        number: 0,
        named: 0,
        is_again: false,
    }
}
