//! A block of what is read: a text, and a history or a number of turns.
use crate::compare::{Both, may_go_on, turn_both};
use crate::inputs::{arguments, first_ended, next_input};
use flow_base::event::{Event, Input, State, What};
use flow_base::number::Moment;
use flow_base::text::RawText;
use flow_check::language::Language;
use flow_cli::spelling::events_of;
use flow_model::checked::Checked;
use flow_model::texts::Texts;
use flow_plain::plain::{plain_turn, unbegun};
use flow_run::stance::{Answers, OpenWait, Stance, turn};
use std::alloc::{AllocError, Global};

/// The turns of a block, and how many of them both refused.
#[derive(Clone, Copy, Debug, PartialEq, Eq)]
pub struct Same {
    pub made: u64,
    pub refused: u64,
}

impl Same {
    fn one_more(self, is_refused: bool) -> Same {
        Same {
            made: self.made.saturating_add(1),
            refused: if is_refused {
                self.refused.saturating_add(1)
            } else {
                self.refused
            },
        }
    }
}

/// What comes of a block.
#[derive(Clone, Copy, Debug, PartialEq, Eq)]
pub enum Outcome {
    Same(Same),
    /// The number of the first turn in which they differ.
    Differs(u64),
    /// It has no text or no history.
    Unread,
}

/// Makes the turns of a block with both interpreters.
pub fn compare_block(alloc: Global, block: &str) -> Result<Outcome, AllocError> {
    let Some((text, history)) = block.split_once('\n') else {
        return Ok(Outcome::Unread);
    };
    let raw = RawText::new(alloc, text)?;
    match Language.read(alloc, &raw)? {
        Ok(program) => compare_under(alloc, &program, text, history),
        Err(_fault) => Ok(Outcome::Unread),
    }
}

fn compare_under(
    alloc: Global,
    program: &Checked,
    text: &str,
    history: &str,
) -> Result<Outcome, AllocError> {
    let names = words_of(alloc, text)?;
    if let Some(times) = history.strip_prefix("flat ") {
        return repeat_flat(alloc, program, times.parse::<u64>().unwrap_or(1));
    }
    if let Some(times) = history.strip_prefix("plain ") {
        return repeat_plain(alloc, program, times.parse::<u64>().unwrap_or(1));
    }
    match history.parse::<u64>() {
        Ok(turns) => compare_made(alloc, program, &names, turns),
        Err(_) => match events_of(alloc, history) {
            Ok(events) => compare_events(alloc, program, &names, events.as_slice()),
            Err(_unspelled) => Ok(Outcome::Unread),
        },
    }
}

// The words of a text: each name of a variable is among them.
fn words_of<'a>(alloc: Global, text: &'a str) -> Result<Vec<&'a str>, AllocError> {
    let mut words = Vec::new(alloc);
    for part in text.split(is_between) {
        if !part.is_empty() && words.len() < 4096 {
            words.push(part)?;
        }
    }
    Ok(words)
}

fn is_between(c: char) -> bool {
    !(c.is_ascii_alphanumeric() || c == '_')
}

// Each input of a history, its turn answered by the events behind it, and fresh again.
fn compare_events(
    alloc: Global,
    program: &Checked,
    names: &[&str],
    events: &[Event],
) -> Result<Outcome, AllocError> {
    let mut stance = Stance::unbegun(alloc);
    let mut run = unbegun(alloc);
    let mut same = Same {
        made: 0,
        refused: 0,
    };
    for i in 0..events.len() {
        if let What::Came(input) = &events[i].what {
            let answers = Answers::Recorded(&events[i + 1..]);
            let at = events[i].at;
            match turn_both(
                alloc,
                program,
                &mut stance,
                &mut run,
                names,
                at,
                input,
                answers,
            )? {
                Both::Differ => return Ok(Outcome::Differs(same.made)),
                Both::Refused => same = same.one_more(true),
                Both::Made => same = same.one_more(false),
            }
        }
    }
    Ok(Outcome::Same(same))
}

// So many turns with inputs by the rule.
fn compare_made(
    alloc: Global,
    program: &Checked,
    names: &[&str],
    turns: u64,
) -> Result<Outcome, AllocError> {
    let mut stance = Stance::unbegun(alloc);
    let mut run = unbegun(alloc);
    let mut same = Same {
        made: 0,
        refused: 0,
    };
    for n in 0..turns {
        let input = made_input(alloc, program, &stance, n)?;
        let at = Moment::new(n).unwrap_or(Moment::last());
        match turn_both(
            alloc,
            program,
            &mut stance,
            &mut run,
            names,
            at,
            &input,
            Answers::Fresh,
        )? {
            Both::Differ => return Ok(Outcome::Differs(n)),
            Both::Refused => same = same.one_more(true),
            Both::Made => same = same.one_more(false),
        }
        if !may_go_on(stance.state()) {
            break;
        }
    }
    Ok(Outcome::Same(same))
}

fn made_input(
    alloc: Global,
    program: &Checked,
    stance: &Stance,
    n: u64,
) -> Result<Input, AllocError> {
    if n == 0 {
        return Ok(Input::Started(arguments(alloc, program.program())?));
    }
    let waits = stance.waits(alloc, program)?;
    next_input(alloc, program.program(), &waits, n)
}

// One interpreter alone, to be timed from outside: it makes so many turns, each run anew once it is over.
fn repeat_flat(alloc: Global, program: &Checked, turns: u64) -> Result<Outcome, AllocError> {
    let mut stance = Stance::unbegun(alloc);
    let mut same = Same {
        made: 0,
        refused: 0,
    };
    for n in 0..turns {
        if !may_go_on(stance.state()) {
            stance = Stance::unbegun(alloc);
        }
        if stance.events() >= 1 << 60 {
            break;
        }
        let input = repeated_input(
            alloc,
            program,
            stance.state(),
            &stance.waits(alloc, program)?,
            n,
        )?;
        let at = Moment::new(n).unwrap_or(Moment::last());
        let made = turn(alloc, &mut stance, program, at, &input, Answers::Fresh);
        same = same.one_more(made.is_err());
    }
    Ok(Outcome::Same(same))
}

fn repeat_plain(alloc: Global, program: &Checked, turns: u64) -> Result<Outcome, AllocError> {
    let mut run = unbegun(alloc);
    let mut same = Same {
        made: 0,
        refused: 0,
    };
    for n in 0..turns {
        if !may_go_on(run.state()) {
            run = unbegun(alloc);
        }
        if run.events() >= 1 << 60 {
            break;
        }
        let input = repeated_input(alloc, program, run.state(), &run.waits(alloc)?, n)?;
        let at = Moment::new(n).unwrap_or(Moment::last());
        let made = plain_turn(
            alloc,
            &mut run,
            program.program(),
            at,
            &input,
            Answers::Fresh,
        );
        same = same.one_more(made.is_err());
    }
    Ok(Outcome::Same(same))
}

fn repeated_input(
    alloc: Global,
    program: &Checked,
    state: State,
    waits: &[OpenWait],
    n: u64,
) -> Result<Input, AllocError> {
    match state {
        State::Unbegun => Ok(Input::Started(arguments(alloc, program.program())?)),
        _ => first_ended(alloc, program.program(), waits, n),
    }
}
