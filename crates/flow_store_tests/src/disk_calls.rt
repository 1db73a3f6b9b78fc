//! Calls of a disk as plain data, what they are answered, and the file that they are asked of.
ghost use Rattle.std.specs.Prelude.{◌≡◌, IsTrue, take};
ghost use Rattle.sqlite_disk.specs.Digest.{digest};

use sqlite_disk::{Crash, Disk, Memory};
use std::alloc::Global;
use std::io;

/// What a buffer holds before it is read into.
const UNREAD: [u8; 3] = [63, 63, 63];

/// A call of a disk.
#[derive(Clone, Copy)]
pub enum Ask {
    Len,
    /// Of three bytes from here on.
    Read(usize),
    Write(usize, &'static str),
    SetLen(usize),
    Sync,
}

/// What a call was answered.
#[derive(Clone, Copy, PartialEq, Eq)]
pub enum Answer {
    Done,
    Len(usize),
    Bytes([u8; 3]),
    /// By its number, and nothing was read.
    Refused,
    /// By the disk itself.
    Failed,
    /// The call wasn't made, since a sync was refused.
    Unasked,
}

/// A file that holds `abcdef`, of which a crash leaves `abcd`.
pub fn six_bytes(alloc: Global) -> Option<Memory> {
    let mut file = Memory::new(alloc);
    file.write_at(0, b"abcd").ok()?;
    file.sync().ok()?;
    file.write_at(4, b"ef").ok()?;
    Some(file)
}

/// Whether a file holds the one, and a crash leaves the other.
pub fn is_left(file: Memory, seen: &str, left: &str) -> bool {
    let mut file = file;
    let is_seen = file.bytes() == seen.as_bytes();
    file.crash();
    is_seen && file.bytes() == left.as_bytes()
}

fn refusal(error: &io::Error) -> Answer {
    match error.kind() {
        io::ErrorKind::Other => Answer::Refused,
        _ => Answer::Failed,
    }
}

fn done(answer: io::Result<()>) -> Answer {
    match answer {
        Ok(()) => Answer::Done,
        Err(error) => refusal(&error),
    }
}

fn measured(answer: io::Result<usize>) -> Answer {
    match answer {
        Ok(len) => Answer::Len(len),
        Err(error) => refusal(&error),
    }
}

/// What a read was answered that has left these bytes.
fn read(answer: io::Result<()>, bytes: [u8; 3]) -> Answer {
    match done(answer) {
        Answer::Done => Answer::Bytes(bytes),
        Answer::Refused if bytes != UNREAD => Answer::Failed,
        other => other,
    }
}

fn read_at<D: Disk>(disk: &mut D, at: usize) -> Answer
    requires { IsTrue (D.Disk.is_usable disk.old) }
{
    let mut bytes = UNREAD;
    let answer = disk.read_at(at, &mut bytes);
    read(answer, bytes)
}

/// Reads the first three bytes, which are to have this digest.
fn read_checked<D: Disk>(disk: &mut D, want: u64) -> Answer
    requires usable { IsTrue (D.Disk.is_usable disk.old) }
    requires want { IsTrue (D.Disk.is_clean disk.old) → want ≡ digest 0 (take 3 (D.Disk.seen disk.old)) }
    ensures usable { IsTrue (D.Disk.is_usable disk.new) }
    ensures seen { D.Disk.seen disk.new ≡ D.Disk.seen disk.old }
    ensures clean { IsTrue (D.Disk.is_clean disk.new) → IsTrue (D.Disk.is_clean disk.old) }
{
    let mut bytes = UNREAD;
    let answer = disk.read_checked(0, want, 0, &mut bytes);
    read(answer, bytes)
}

/// Three such reads.
pub fn read_checked_thrice<D: Disk>(disk: &mut D, want: u64) -> [Answer; 3]
    requires usable { IsTrue (D.Disk.is_usable disk.old) }
    requires want { IsTrue (D.Disk.is_clean disk.old) → want ≡ digest 0 (take 3 (D.Disk.seen disk.old)) }
{
    let first = read_checked(disk, want);
    let second = read_checked(disk, want);
    let third = read_checked(disk, want);
    [first, second, third]
}

/// What a call is answered, where the disk may still be asked.
pub fn answer_to<D: Disk>(disk: &mut D, call: Ask) -> Answer {
    if !disk.may_be_used() {
        return Answer::Unasked;
    }
    match call {
        Ask::Len => measured(disk.len()),
        Ask::Read(at) => read_at(disk, at),
        Ask::Write(at, text) => done(disk.write_at(at, text.as_bytes())),
        Ask::SetLen(len) => done(disk.set_len(len)),
        Ask::Sync => done(disk.sync()),
    }
}
