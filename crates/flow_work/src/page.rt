//! Where lines are printed.
ghost use Rattle.std.specs.Prelude.{◌≡◌, [], ◌∷◌, ◌++◌};
ghost use Rattle.flow_work.specs.Printing.{PrintsLine, PrintsTask, Writes, blank, shown_line};

use crate::shown::Shown;
use crate::status::Status;
use flow_base::task::Task;
use flow_lines::output::Unwritten;
use flow_lines::reply::Line;
use flow_lines::streams::write_line;
use flow_lines::task::write_task;
use flow_timers::pause::Pause;
use std::alloc::Global;
use std::io::Write;
use std::marker::Model;
use std::snapshot::Snapshot;
use std::sync::Wait;
use std::time;
use unseen::{Listed, Makes};

struct Nothing;

impl Makes<(), Shown> for Nothing {
    ghost use Rattle.std.specs.Prelude.{[]};

    ghost list = { λ _. [] };
}

struct OneReply;

impl Makes<(Listed<Shown>, Snapshot<Line>), Shown> for OneReply {
    ghost use Rattle.std.specs.Prelude.{[], ◌∷◌, ◌++◌};
    ghost use Rattle.flow_work.specs.declared.shown.Shown.TheVariants as shown;

    ghost list = { λ p. p.0 ++ shown.Reply p.1.value ∷ [] };
}

struct OneTask;

impl Makes<(Listed<Shown>, Snapshot<Task>), Shown> for OneTask {
    ghost use Rattle.std.specs.Prelude.{[], ◌∷◌, ◌++◌};
    ghost use Rattle.flow_work.specs.declared.shown.Shown.TheVariants as shown;

    ghost list = { λ p. p.0 ++ shown.Task p.1.value ∷ [] };
}

/// What was printed, and a reply more.
fn with_reply(shown: &Listed<Shown>, line: Snapshot<Line>) -> Listed<Shown>
    ensures { result ≡ shown.now ++ Shown.Reply line.value ∷ [] }
{
    let more = (shown.again(), line);
    Listed::of::<(Listed<Shown>, Snapshot<Line>), OneReply>(&more)
}

/// What was printed, and a task more.
fn with_task(shown: &Listed<Shown>, task: Snapshot<Task>) -> Listed<Shown>
    ensures { result ≡ shown.now ++ Shown.Task task.value ∷ [] }
{
    let more = (shown.again(), task);
    Listed::of::<(Listed<Shown>, Snapshot<Task>), OneTask>(&more)
}

/// Writes what is told of a line. Where memory runs out, nothing is written, and it is tried again after a longer pause each time. No
/// where a write failed.
#[tactic(auto, using(crate::proofs::Printing::kept_self, crate::proofs::Printing::kept_more, crate::proofs::Printing::written_later, crate::proofs::Printing::begun_later))]
fn has_written_line<R: Wait + time::Clock, W: Write>(
    rt: &R,
    alloc: Global,
    writer: &mut W,
    line: &Line,
) -> bool
    ensures { Writes result (W.contents writer.old) (W.contents writer.new) (shown_line (Shown.Reply line.now)) }
{
    let mut pause = Pause::new();
    'tries: for _ in rt.forever() {
        match write_line(alloc, writer, line) {
            Ok(()) => return true,
            Err(Unwritten::Failed) => return false,
            Err(Unwritten::NoMemory(_no_memory)) => pause.wait(rt),
        }
    }
    unreachable!()
}

/// Writes the line of a task, as the other is written.
#[tactic(auto, using(crate::proofs::Printing::kept_self, crate::proofs::Printing::kept_more, crate::proofs::Printing::written_later, crate::proofs::Printing::begun_later))]
fn has_written_task<R: Wait + time::Clock, W: Write>(
    rt: &R,
    alloc: Global,
    writer: &mut W,
    task: &Task,
) -> bool
    ensures { Writes result (W.contents writer.old) (W.contents writer.new) (shown_line (Shown.Task task.now)) }
{
    let mut pause = Pause::new();
    'tries: for _ in rt.forever() {
        match write_task(alloc, writer, task) {
            Ok(()) => return true,
            Err(Unwritten::Failed) => return false,
            Err(Unwritten::NoMemory(_no_memory)) => pause.wait(rt),
        }
    }
    unreachable!()
}

/// Where lines are printed, and what was: to a contract what the writer holds, and the lines that are whole in it.
#[derive(Drop)]
pub(crate) struct Page<W: Write> {
    alloc: Global,
    writer: W,
    /// A write has failed: nothing more is printed.
    is_mute: bool,
    status: Status,
    /// The lines that were printed, for contracts alone.
    shown: Listed<Shown>,
}

impl<W: Write> Model for Page<W> {
    ghost use Rattle.flow_work.specs.Printing.{Printed, printed_code};

    ghost Value = { Printed };

    ghost coded = { printed_code };

    ghost view = { λ p. record { is_mute = p.is_mute; status = p.status; bytes = W.contents p.writer; shown = p.shown } };
}

impl<W: Write + Drop> Page<W> {
    /// Prints to this writer.
    pub(crate) fn new(alloc: Global, writer: W) -> Page<W>
        ensures { result ≡ blank (W.contents writer) }
    {
        Page {
            alloc,
            writer,
            is_mute: false,
            status: Status::done(),
            shown: Listed::of::<(), Nothing>(&()),
        }
    }

    /// The writer, the greatest status of what was printed and of what failed, and whether a write has failed.
    pub(crate) fn into_parts(self) -> (W, Status, bool)
        ensures { (W.contents result.0 ≡ self.bytes) × (result.1 ≡ self.status) × (result.2 ≡ self.is_mute) }
    {
        let Page {
            alloc: _,
            writer,
            is_mute,
            status,
            shown: _shown,
        } = self;
        (writer, status, is_mute)
    }

    /// The lines that were printed whole.
    pub(crate) fn shown(&self) -> Listed<Shown>
        ensures { result ≡ self.now.shown }
    {
        self.shown.again()
    }

    /// Something couldn't be read or written.
    pub(crate) fn fail(&mut self)
        ensures { self.new ≡ record self.old { status = 3 } }
    {
        self.status = Status::failed();
    }

    /// Prints what is told of a line, unless a write has failed before.
    pub(crate) fn print_line<R: Wait + time::Clock>(&mut self, rt: &R, line: &Line)
        ensures { PrintsLine line.now self.old self.new }
    {
        self.status = self.status.or(Status::of_line(line));
        if self.is_mute {
            self.status = Status::failed();
            return;
        }
        if has_written_line(rt, self.alloc, &mut self.writer, line) {
            self.shown = with_reply(&self.shown, Snapshot::of(line));
        } else {
            self.is_mute = true;
            self.status = Status::failed();
        }
    }

    /// Prints the line of a task, unless a write has failed before.
    pub(crate) fn print_task<R: Wait + time::Clock>(&mut self, rt: &R, task: &Task)
        ensures { PrintsTask task.now self.old self.new }
    {
        if self.is_mute {
            self.status = Status::failed();
            return;
        }
        if has_written_task(rt, self.alloc, &mut self.writer, task) {
            self.shown = with_task(&self.shown, Snapshot::of(task));
        } else {
            self.is_mute = true;
            self.status = Status::failed();
        }
    }
}
