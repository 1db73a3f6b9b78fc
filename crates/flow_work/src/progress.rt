//! The line on a terminal that says what is left, while a running engine comes to its end.
ghost use Rattle.std.specs.Prelude.{◌≡◌, IfOk, string_bytes};
ghost use Rattle.flow_work.specs.Showing.{next_text, pause_text, progress_text};

use crate::tally::Tally;
use flow_base::number::Moment;
use flow_hub::known::BoardSummary;
use std::alloc::{AllocError, Global};
use std::io::Write;

/// How long a line stands at least, in milliseconds.
const SHORTEST_STAND: u64 = 1_000;

/// A terminal, on which one line is drawn over itself.
#[derive(Drop)]
pub struct Progress<P: Write> {
    alloc: Global,
    terminal: P,
    tally: Tally,
    /// When the line was drawn last.
    drawn: Option<Moment>,
}

/// In how many whole seconds something is due, as `, next in 3 s`.
fn pause_line(alloc: Global, due: Moment, now: Moment) -> Result<String, AllocError>
    ensures { IfOk result (λ line. string_bytes line ≡ pause_text due now) }
{
    let left = due.get().saturating_sub(now.get()) / 1_000;
    format!(in alloc; ", next in {left} s")
}

/// The part of the line on what is due, if anything is.
fn next_line(alloc: Global, due: Option<Moment>, now: Moment) -> Result<String, AllocError>
    ensures { IfOk result (λ line. string_bytes line ≡ next_text due now) }
{
    match due {
        Some(due) => pause_line(alloc, due, now),
        None => Ok(String::new(alloc)),
    }
}

/// What is left, as `runs open: 2, tasks running: 1, next in 3 s`.
fn progress_line(
    alloc: Global,
    outlook: BoardSummary,
    running: u64,
    now: Moment,
) -> Result<String, AllocError>
    ensures { IfOk result (λ line. string_bytes line ≡ progress_text outlook running now) }
{
    let BoardSummary { due, open_runs } = outlook;
    let next = next_line(alloc, due, now)?;
    format!(in alloc; "runs open: {open_runs}, tasks running: {running}{next}")
}

impl<P: Write + Drop> Progress<P> {
    /// What is left, on this terminal.
    pub(crate) fn new(alloc: Global, terminal: P, tally: Tally) -> Progress<P> {
        Progress {
            alloc,
            terminal,
            tally,
            drawn: None,
        }
    }

    /// Whether the line stands for less than a second. A clock that was set back doesn't hold it.
    fn is_early(&self, now: Moment) -> bool {
        match self.drawn {
            Some(then) => {
                let stands = now.get().saturating_sub(then.get());
                then.get() <= now.get() && stands < SHORTEST_STAND
            }
            None => false,
        }
    }

    /// Draws a line over the one that stands. What the terminal doesn't take is nothing to the engine.
    fn write(&mut self, line: &str) {
        let _erased = self.terminal.write_all(b"\r\x1b[K");
        let _written = self.terminal.write_all(line.as_bytes());
        let _flushed = self.terminal.flush();
    }

    /// Shows what is left, where that is known, once a second at most.
    pub(crate) fn draw(&mut self, outlook: Option<BoardSummary>, now: Moment) {
        if self.is_early(now) {
            return;
        }
        let Some(outlook) = outlook else {
            return;
        };
        if let Ok(line) = progress_line(self.alloc, outlook, self.tally.count(), now) {
            self.write(line.as_str());
            self.drawn = Some(now);
        }
    }

    /// Takes the line away, where one stands.
    pub(crate) fn clear(&mut self) {
        if self.drawn.is_some() {
            self.write("");
        }
    }
}
