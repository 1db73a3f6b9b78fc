//! Inputs over readers, and outputs over writers. That one of them has failed, or that memory ran out where it was to write, is said in
//! no other file.
ghost use Rattle.std.specs.Prelude.{◌≡◌, ◌++◌, ◌∷◌, [], true, false, Some, OnOk, IfOk, IfErr, IfSome, IfNone};
ghost use Rattle.std.specs.Io.{WritesAtMost};
ghost use Rattle.std.specs.Io.BufRead.{strip_last};
ghost use Rattle.std.specs.Io.KnownBytes.{Appends, Keeps, WriteAppends};
ghost use Rattle.flow_lines.specs.Answering.{FirstLine};
ghost use Rattle.flow_lines.specs.Driving.{WritesBeginning};
ghost use Rattle.flow_lines.specs.Ends.{unwritten_failed, unwritten_ran_out};
ghost use Rattle.flow_lines.specs.Replies.{line_text};

use crate::input::{LineSource, Unread};
use crate::output::{Output, Unwritten, with_end};
use crate::reply::{Line, reply_line};
use flow_base::memory::NoMemory;
use std::alloc::Global;
use std::io;
use std::io::{BufRead, ErrorKind, Write};

/// The most lines of an input, fewer than rounds are counted.
const MOST_LINES: u64 = u64::MAX - 1;

/// A line without its end.
fn without_end(mut line: Vec<u8>) -> Vec<u8>
    ensures { result.items ≡ strip_last 10 line.items }
{
    let length = line.len();
    if length == 0 {
        return line;
    }
    if line[length - 1] != b'\n' {
        return line;
    }
    line.truncate(length - 1);
    line
}

/// The next line of a reader, without its end; none after the last one.
#[tactic(auto, using(crate::proofs::Lines::first_line_read, crate::proofs::Lines::ended))]
pub fn next_line<R: BufRead>(alloc: Global, reader: &mut R) -> Result<Option<Vec<u8>>, io::Error>
    ensures line { IfOk result (λ found. IfSome found
        (λ line. IfSome (R.remaining reader.old) (λ bytes. FirstLine bytes line.items (R.remaining reader.new)))) }
    ensures end { IfOk result (λ found. IfNone found
        (IfSome (R.remaining reader.old) (λ bytes. (bytes ≡ []) × (R.remaining reader.new ≡ Some bytes)))) }
{
    let mut line = Vec::new(alloc);
    let count = reader.read_until(b'\n', &mut line)?;
    if count == 0 {
        return Ok(None);
    }
    Ok(Some(without_end(line)))
}

/// Lines of a reader.
#[derive(Drop)]
pub struct Reading<R: BufRead> {
    reader: R,
    given: u64,
    failed: bool,
}

impl<R: BufRead> Reading<R> {
    /// It hasn't failed so far. It is made once for a reader: another one knows nothing of what failed.
    pub fn new(reader: R) -> Reading<R>
        ensures reader { result.reader ≡ reader }
        ensures fresh { result.failed ≡ false }
    {
        Reading {
            reader,
            given: 0,
            failed: false,
        }
    }
}

impl<R: BufRead> LineSource for Reading<R> {
    ghost left = { λ r. R.remaining r.reader };

    ghost failed = { λ r. r.failed };

    ghost given = { λ r. r.given };

    fn next_line(&mut self, alloc: Global) -> Result<Option<Vec<u8>>, Unread> {
        if self.given >= MOST_LINES {
            self.failed = true;
            return Err(Unread::Failed);
        }
        match next_line(alloc, &mut self.reader) {
            Ok(Some(line)) => {
                self.given += 1;
                Ok(Some(line))
            }
            Ok(None) => Ok(None),
            Err(error) => match error.kind() {
                ErrorKind::OutOfMemory => Err(Unread::NoMemory(NoMemory::told())),
                _ => {
                    self.failed = true;
                    Err(Unread::Failed)
                }
            },
        }
    }
}

/// One write. What a signal broke off wrote nothing.
#[tactic(auto, using(crate::proofs::Answering::kept_appends, crate::proofs::Answering::none_appended))]
fn write_some<W: Write>(writer: &mut W, bytes: &[u8]) -> Result<usize, io::Error>
    ensures bound { WritesAtMost result bytes.now }
    ensures bytes { WriteAppends (W.contents writer.old) (W.contents writer.new) result bytes.now }
{
    match writer.write(bytes) {
        Ok(0) => Err(ErrorKind::WriteZero.into()),
        Ok(count) => Ok(count),
        Err(e) => match e.kind() {
            ErrorKind::Interrupted => Ok(0),
            _ => Err(e),
        },
    }
}

/// Why a write wasn't done, behind none of its bytes or behind some.
fn unwritten(error: &io::Error, is_first: bool) -> Unwritten
    ensures { result ≡ Unwritten.NoMemory _ → is_first ≡ true }
{
    if !is_first {
        return Unwritten::Failed;
    }
    match error.kind() {
        ErrorKind::OutOfMemory => Unwritten::NoMemory(NoMemory::told()),
        _ => Unwritten::Failed,
    }
}

/// As `write_all`, and of a write that failed its clauses say what was written.
pub(crate) fn write_bytes<W: Write>(writer: &mut W, bytes: &[u8]) -> Result<(), Unwritten>
    ensures all { OnOk result (Appends (W.contents writer.old) (W.contents writer.new) bytes.now) }
    ensures beginning { WritesBeginning (W.contents writer.old) (W.contents writer.new) bytes.now }
    ensures kept { IfErr result (λ e. e ≡ Unwritten.NoMemory _ → Keeps (W.contents writer.old) (W.contents writer.new)) }
{
    let mut rest = bytes;
    for _ in 0..u64::MAX {
        if rest.is_empty() {
            return Ok(());
        }
        match write_some(writer, rest) {
            Ok(count) => rest = &rest[count..],
            Err(error) => return Err(unwritten(&error, rest.len() == bytes.len())),
        }
    }
    Err(Unwritten::Failed)
}

/// Writes what is told of a line.
#[tactic(auto, using(crate::proofs::Endings::none_written, crate::proofs::Endings::same_kept))]
pub fn write_line<W: Write>(alloc: Global, writer: &mut W, line: &Line) -> Result<(), Unwritten>
    ensures all { OnOk result (Appends (W.contents writer.old) (W.contents writer.new) (line_text line.now ++ 10 ∷ [])) }
    ensures beginning { WritesBeginning (W.contents writer.old) (W.contents writer.new) (line_text line.now ++ 10 ∷ []) }
    ensures kept { IfErr result (λ e. e ≡ Unwritten.NoMemory _ → Keeps (W.contents writer.old) (W.contents writer.new)) }
{
    let text = with_end(reply_line(alloc, line)?)?;
    let done = write_bytes(writer, text.as_bytes())?;
    Ok(done)
}

/// A writer of bytes.
#[derive(Drop)]
pub struct Writing<W: Write> {
    writer: W,
    failed: bool,
    ran_out: bool,
}

impl<W: Write> Writing<W> {
    /// It hasn't failed so far. It is made once for a writer: another one knows nothing of what failed.
    pub fn new(writer: W) -> Writing<W>
        ensures writer { result.writer ≡ writer }
        ensures fresh { (result.failed ≡ false) × (result.ran_out ≡ false) }
    {
        Writing {
            writer,
            failed: false,
            ran_out: false,
        }
    }

    /// The writer.
    pub fn into_inner(self) -> W
        ensures { result ≡ self.writer }
    {
        self.writer
    }

    /// Notes why not all was written.
    fn note(&mut self, unwritten: Unwritten)
        ensures writer { self.new.writer ≡ self.old.writer }
        ensures failed { self.new.failed ≡ unwritten_failed unwritten self.old.failed }
        ensures ran_out { self.new.ran_out ≡ unwritten_ran_out unwritten self.old.ran_out }
    {
        match unwritten {
            Unwritten::NoMemory(_) => self.ran_out = true,
            Unwritten::Failed => self.failed = true,
        }
    }
}

impl<W: Write> Output for Writing<W> {
    ghost contents = { λ w. W.contents w.writer };

    ghost failed = { λ w. w.failed };

    ghost ran_out = { λ w. w.ran_out };

    fn put(&mut self, bytes: &[u8]) -> Result<(), Unwritten> {
        match write_bytes(&mut self.writer, bytes) {
            Ok(()) => Ok(()),
            Err(unwritten) => {
                self.note(unwritten);
                Err(unwritten)
            }
        }
    }

    fn put_line(&mut self, alloc: Global, line: &Line) -> Result<(), Unwritten> {
        match write_line(alloc, &mut self.writer, line) {
            Ok(()) => Ok(()),
            Err(unwritten) => {
                self.note(unwritten);
                Err(unwritten)
            }
        }
    }
}
