//! Programs that are kept: a text is read once while its program is kept, and those that were asked for last are.
ghost use Rattle.flow_check.specs.Language.{meaning_of};

use crate::commands_kept::{CALLS, STARTS, commands};
use flow_base::command::{Command, TextFault};
use flow_base::text::RawText;
use flow_check::checked::Checked;
use flow_check::language::Language;
use flow_check::texts::Texts;
use flow_machine::decide::decide;
use flow_machine::seats::Seats;
use flow_programs::kept::{Kept, LIMIT};
use flow_view::lists::Lists;
use std::alloc::{AllocError, Global};
use std::cell::Cell;
use std::test::Fail;

/// The language, which counts the texts that it reads.
#[derive(Clone, Copy)]
struct Counted<'a> {
    count: &'a Cell<u64>,
}

impl<'a> Texts for Counted<'a> {
    ghost meaning = { meaning_of };

    fn read(
        &self,
        alloc: Global,
        text: &RawText,
    ) -> Result<Result<Checked, TextFault>, AllocError> {
        self.count.set(self.count.get().saturating_add(1));
        Language.read(alloc, text)
    }
}

const LINES: &[&str] = &[
    CALLS,
    STARTS,
    r#"{"at":1500,"attempt":1,"do":"complete","event":2,"run":1,"value":41}"#,
    r#"{"args":[7],"at":1000,"do":"start","flow":"g","req":"g","text":1}"#,
    CALLS,
];

/// Whether a command is decided.
fn is_put<'a>(
    alloc: Global,
    programs: &mut Kept<Counted<'a>>,
    book: &mut Lists,
    command: &Command,
) -> bool {
    match Seats::new(alloc, 1) {
        Ok(seats) => {
            let mut seats = seats;
            decide(alloc, programs, book, &mut seats, command).is_ok()
        }
        Err(_) => false,
    }
}

fn are_all_decided<'a>(
    alloc: Global,
    programs: &mut Kept<Counted<'a>>,
    book: &mut Lists,
    commands: &[Command],
) -> bool {
    let mut are = true;
    for command in commands {
        are = are && is_put(alloc, programs, book, command);
    }
    are
}

/// Whether these are decided over a new book, and how many texts are read for it.
fn read_for(alloc: Global, commands: &[Command]) -> (bool, u64) {
    let count = Cell::new(0);
    let mut book = Lists::new(alloc);
    let mut programs = Kept::new(alloc, Counted { count: &count });
    let are = are_all_decided(alloc, &mut programs, &mut book, commands);
    (are, count.get())
}

fn read_for_lines(alloc: Global, lines: &[&str]) -> Option<(bool, u64)> {
    match &commands(alloc, lines) {
        Some(commands) => Some(read_for(alloc, commands.as_slice())),
        None => None,
    }
}

#[test]
fn a_text_is_read_once_for_many_commands(rt: HostRuntime) -> Result<(), Fail> {
    assert!(rt; read_for_lines(rt.alloc(), LINES) == Some((true, 1)));
    Ok(())
}

/// A text of so many bytes with a parameter of this name.
fn padded(alloc: Global, name: &str, size: usize) -> Option<RawText> {
    let mut text = String::from_str(alloc, "workflow a(").ok()?;
    text.push_str(name).ok()?;
    text.push_str(": int) { return 1; }").ok()?;
    let room = " "
        .repeat(alloc, size.saturating_sub(text.as_str().len()))
        .ok()?;
    text.push_str(room.as_str()).ok()?;
    RawText::new(alloc, text.as_str()).ok()
}

/// Whether a text of this size is a program, as what keeps programs says.
fn is_read<'a>(
    alloc: Global,
    programs: &mut Kept<Counted<'a>>,
    name: &str,
    size: usize,
) -> Option<bool> {
    let text = padded(alloc, name, size)?;
    Some(programs.read(alloc, &text).ok()?.is_ok())
}

fn are_read<'a>(
    alloc: Global,
    programs: &mut Kept<Counted<'a>>,
    names: &[&str],
    size: usize,
) -> bool {
    let mut are = true;
    for name in names {
        are = are && is_read(alloc, programs, name, size) == Some(true);
    }
    are
}

// Sixteen of this size, each with the 1,024 that it counts for beside its bytes, fill what is kept to the last byte.
const SIZE: usize = LIMIT / 16 - 1024;

const NAMES: [&str; 16] = [
    "a0", "a1", "a2", "a3", "a4", "a5", "a6", "a7", "a8", "a9", "b0", "b1", "b2", "b3", "b4", "b5",
];

/// Whether texts are read in four steps, and how many had been read behind each.
type Steps = ([bool; 4], [u64; 4]);

fn read_in_steps<'a>(alloc: Global, programs: &mut Kept<Counted<'a>>, count: &Cell<u64>) -> Steps {
    // All sixteen fit, and are found again.
    let all = are_read(alloc, programs, &NAMES, SIZE);
    let first = count.get();
    let again = are_read(alloc, programs, &NAMES, SIZE);
    let second = count.get();
    // The first is asked for, then one more is read: the second goes, the first stays.
    let more = are_read(alloc, programs, &["a0", "more", "a0"], SIZE);
    let third = count.get();
    let gone = are_read(alloc, programs, &["a1"], SIZE);
    (
        [all, again, more, gone],
        [first, second, third, count.get()],
    )
}

fn kept_last(alloc: Global) -> Steps {
    let count = Cell::new(0);
    let mut programs = Kept::new(alloc, Counted { count: &count });
    read_in_steps(alloc, &mut programs, &count)
}

#[test]
fn those_that_were_asked_for_last_are_kept(rt: HostRuntime) -> Result<(), Fail> {
    let (are_read, counts) = kept_last(rt.alloc());
    assert!(rt; are_read == [true, true, true, true]);
    assert!(rt; counts == [16, 16, 17, 18]);
    Ok(())
}

/// What is told twice of a text that is no program, and how many were read.
fn told_twice(alloc: Global) -> (Option<bool>, Option<bool>, u64) {
    let count = Cell::new(0);
    let mut programs = Kept::new(alloc, Counted { count: &count });
    let first = is_read(alloc, &mut programs, "1", 0);
    let second = is_read(alloc, &mut programs, "1", 0);
    (first, second, count.get())
}

#[test]
fn what_is_no_program_is_told_each_time(rt: HostRuntime) -> Result<(), Fail> {
    assert!(rt; told_twice(rt.alloc()) == (Some(false), Some(false), 2));
    Ok(())
}
