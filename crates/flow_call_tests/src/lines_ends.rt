//! Inputs and outputs that fail, and the order in which they are asked.
ghost use Rattle.std.specs.Prelude.{◌≡◌};
ghost use Rattle.flow_lines.specs.Ends.{unwritten_failed, unwritten_ran_out};

use crate::lines_deciding::over_lists;
use flow_base::fault::Fault;
use flow_base::memory::NoMemory;
use flow_lines::batch::BatchSize;
use flow_lines::drive::drive_lines;
use flow_lines::input::{LineSource, Unread};
use flow_lines::output::{Output, Unwritten};
use flow_lines::reply::Line;
use flow_lines::streams::Reading;
use std::alloc::Global;
use std::cell::Cell;
use std::test::Fail;

/// Gives the lines of another input. A read fails after so many lines, and where a batch is begun before the lines until then have
/// their replies.
#[derive(Drop)]
struct Watching<'a, I: LineSource> {
    inner: I,
    written: &'a Cell<u64>,
    /// How many lines were given, and after how many a read fails.
    count: u64,
    most_lines: u64,
    /// How many lines a batch has, and how many are left of this one.
    most: u64,
    rest: u64,
    failed: bool,
}

impl<'a, I: LineSource> Watching<'a, I> {
    fn is_read(&mut self) -> bool
        ensures { (self.new.inner ≡ self.old.inner) × (self.new.failed ≡ self.old.failed) }
    {
        if self.rest > 0 {
            return self.count < self.most_lines;
        }
        self.rest = self.most;
        self.count < self.most_lines && self.written.get() == self.count
    }

    fn note_line(&mut self)
        ensures { (self.new.inner ≡ self.old.inner) × (self.new.failed ≡ self.old.failed) }
    {
        self.count = self.count.saturating_add(1);
        self.rest = self.rest.saturating_sub(1);
    }
}

impl<'a, I: LineSource> LineSource for Watching<'a, I> {
    ghost use Rattle.std.specs.Prelude.{None};

    ghost left = { λ w. None };

    ghost failed = { λ w. w.failed };

    ghost given = { λ w. I.given w.inner };

    fn next_line(&mut self, alloc: Global) -> Result<Option<Vec<u8>>, Unread> {
        if !self.is_read() {
            self.failed = true;
            return Err(Unread::Failed);
        }
        match self.inner.next_line(alloc) {
            Ok(Some(line)) => {
                self.note_line();
                Ok(Some(line))
            }
            Ok(None) => Ok(None),
            Err(Unread::NoMemory(no_memory)) => Err(Unread::NoMemory(no_memory)),
            Err(Unread::Failed) => {
                self.failed = true;
                Err(Unread::Failed)
            }
        }
    }
}

/// Counts reply lines. After so many of them a write fails.
#[derive(Drop)]
struct Counting<'a> {
    written: &'a Cell<u64>,
    most_lines: u64,
    why: Unwritten,
    failed: bool,
    ran_out: bool,
}

impl<'a> Counting<'a> {
    fn refuse(&mut self) -> Unwritten
        ensures failed { self.new.failed ≡ unwritten_failed result self.old.failed }
        ensures ran_out { self.new.ran_out ≡ unwritten_ran_out result self.old.ran_out }
    {
        let why = self.why;
        match why {
            Unwritten::NoMemory(_) => self.ran_out = true,
            Unwritten::Failed => self.failed = true,
        }
        why
    }
}

impl<'a> Output for Counting<'a> {
    ghost use Rattle.std.specs.Prelude.{None};

    ghost contents = { λ c. None };

    ghost failed = { λ c. c.failed };

    ghost ran_out = { λ c. c.ran_out };

    #[tactic(auto, using(flow_lines::proofs::Endings::none_written))]
    fn put(&mut self, _bytes: &[u8]) -> Result<(), Unwritten> {
        Ok(())
    }

    #[tactic(auto, using(flow_lines::proofs::Endings::none_written))]
    fn put_line(&mut self, _alloc: Global, _line: &Line) -> Result<(), Unwritten> {
        let count = self.written.get();
        if count >= self.most_lines {
            return Err(self.refuse());
        }
        self.written.set(count.saturating_add(1));
        Ok(())
    }
}

const TICKS: &[u8] =
    b"{\"at\":0,\"do\":\"tick\"}\n{\"at\":0,\"do\":\"tick\"}\n{\"at\":0,\"do\":\"tick\"}\n{\"at\":0,\"do\":\"tick\"}\n";

/// How four lines end in batches of so many, where reads and writes fail after so many lines, and how many replies were written.
fn ended(
    alloc: Global,
    most: u64,
    most_read: u64,
    most_written: u64,
    why: Unwritten,
) -> Option<(Result<u8, Fault>, u64)> {
    let written = Cell::new(0);
    let mut input = Watching {
        inner: Reading::new(TICKS),
        written: &written,
        count: 0,
        most_lines: most_read,
        most,
        rest: 0,
        failed: false,
    };
    let mut output = Counting {
        written: &written,
        most_lines: most_written,
        why,
        failed: false,
        ran_out: false,
    };
    let mut engine = over_lists(alloc);
    let outcome = drive_lines(
        alloc,
        &mut engine,
        &mut input,
        &mut output,
        BatchSize::new(most)?,
    );
    Some((outcome, written.get()))
}

#[test]
fn replies_are_written_before_the_next_batch_is_read(rt: HostRuntime) -> Result<(), Fail> {
    for most in [1, 2, 3, 4, 64] {
        assert!(rt; ended(rt.alloc(), most, 9, 9, Unwritten::Failed) == Some((Ok(0), 4)));
    }
    Ok(())
}

#[test]
fn a_batch_is_dropped_where_a_read_fails(rt: HostRuntime) -> Result<(), Fail> {
    for (most, written) in [(1, 3), (2, 2), (3, 3), (4, 0)] {
        assert!(rt;
            ended(rt.alloc(), most, 3, 9, Unwritten::Failed)
                == Some((Err(Fault::InputFailed), written))
        );
    }
    Ok(())
}

#[test]
fn a_write_that_fails_is_told_as_the_output(rt: HostRuntime) -> Result<(), Fail> {
    let no_memory = NoMemory::told();
    for most in [1, 2, 4] {
        assert!(rt;
            ended(rt.alloc(), most, 9, 3, Unwritten::Failed) == Some((Err(Fault::OutputFailed), 3))
        );
        assert!(rt;
            ended(rt.alloc(), most, 9, 3, Unwritten::NoMemory(no_memory))
                == Some((Err(Fault::NoMemory(no_memory)), 3))
        );
    }
    Ok(())
}
