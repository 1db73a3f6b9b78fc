//! The line on a terminal that says how far the move of a store is.
ghost use Rattle.std.specs.Prelude.{◌≡◌, false};

use flow_move::watch::Watch;
use std::alloc::{AllocError, Global};
use std::io::Write;

/// At most about so many lines are drawn for a store.
const LINES: u64 = 100;

/// A terminal, if there is one, on which one line is drawn over itself.
#[derive(Drop)]
pub struct Moving<P: Write> {
    alloc: Global,
    terminal: Option<P>,
    /// Whether a line stands there.
    stands: bool,
}

/// Whether a line is drawn once the events of so many runs are copied.
fn is_due(runs: u64, all: u64) -> bool {
    runs % (all / LINES + 1) == 0
}

fn moving_line(alloc: Global, runs: u64, all: u64) -> Result<String, AllocError> {
    format!(in alloc; "\r\x1b[Kflow: moving the store to the second format, {runs} of {all} runs")
}

/// Draws a line over the one that stands. What the terminal doesn't take is nothing to the store.
fn draw<P: Write>(terminal: &mut P, line: &str) {
    let _written = terminal.write_all(line.as_bytes());
    let _flushed = terminal.flush();
}

impl<P: Write + Drop> Moving<P> {
    /// No line stands there yet.
    pub fn on(alloc: Global, terminal: Option<P>) -> Moving<P>
        ensures { (result.terminal ≡ terminal) × (result.stands ≡ false) }
    {
        Moving {
            alloc,
            terminal,
            stands: false,
        }
    }

    /// Takes the line away, where one stands. Where none does nothing is written.
    pub fn clear(&mut self)
        ensures gone { self.new.stands ≡ false }
        ensures still { self.old.stands ≡ false → self.new ≡ self.old }
    {
        if !self.stands {
            return;
        }
        if let Some(terminal) = &mut self.terminal {
            draw(terminal, "\r\x1b[K");
        }
        self.stands = false;
    }
}

impl<P: Write + Drop> Watch for Moving<P> {
    fn copied(&mut self, runs: u64, all: u64) {
        if !is_due(runs, all) {
            return;
        }
        let Some(terminal) = &mut self.terminal else {
            return;
        };
        if let Ok(line) = moving_line(self.alloc, runs, all) {
            draw(terminal, line.as_str());
            self.stands = true;
        }
    }
}
