//! Where in a text a byte is, and the line of it with a mark below.
ghost use Rattle.std.specs.Prelude.{◌≡◌, ◌+◌, ◌-◌, ◌^◌, ◌<◌, ◌≤◌, [], length, if◌then◌else◌, IfOk};
ghost use Rattle.flow_cli.specs.Places.{begins_char, between, blanks_of, first_line, mark_text, marked_line, spot_at, window_of};

use std::alloc::{AllocError, Global};

/// The most characters of a line that is shown as a whole.
const MOST_SHOWN: usize = 120;

/// The most characters that are shown on either side of a mark in a longer line.
const MOST_BESIDE: usize = 60;

/// A place in a text: the number of its line and of its character in the line, from 1, and the byte at which the line begins.
#[derive(Clone, Copy, Debug, PartialEq, Eq)]
pub struct Spot {
    pub line: usize,
    pub column: usize,
    pub begins: usize,
}

/// Whether a byte begins a character of UTF-8.
fn is_start(byte: u8) -> bool
    ensures { result ≡ begins_char byte }
{
    byte < 128 || 192 <= byte
}

/// The place of a byte, or of the text's end.
pub fn spot_of(text: &[u8], at: usize) -> Spot
    ensures place { result ≡ spot_at text.now at }
    ensures within { result.begins ≤ length text.now }
    ensures first { 1 ≤ result.column }
    ensures last { result.column ≤ length text.now + 1 }
{
    let front = &text[..at.min(text.len())];
    let mut line = 1;
    let mut column = 1;
    let mut begins = 0;
    for i in 0..front.len() {
        if front[i] == b'\n' {
            line += 1;
            column = 1;
            begins = i + 1;
        } else if is_start(front[i]) {
            column += 1;
        }
    }
    Spot {
        line,
        column,
        begins,
    }
}

/// The bytes before the first end of a line.
fn line_in(bytes: &[u8]) -> &[u8]
    ensures { result.now ≡ first_line bytes.now }
{
    for i in 0..bytes.len() {
        if bytes[i] == b'\n' {
            return &bytes[..i];
        }
    }
    bytes
}

/// The characters of a line that are shown: from one on, and before another.
#[derive(Clone, Copy, Debug, PartialEq, Eq)]
struct Window {
    from: usize,
    to: usize,
}

/// What is shown of a line of so many characters with a mark at this one: all, or those beside the mark.
fn window_for(count: usize, column: usize) -> Window
    requires { column < 2 ^ 64 - 60 }
    ensures { result ≡ window_of count column }
{
    if count <= MOST_SHOWN {
        return Window {
            from: 1,
            to: count + 1,
        };
    }
    Window {
        from: column.saturating_sub(MOST_BESIDE).max(1),
        to: column + MOST_BESIDE,
    }
}

/// The characters of a line from one on and before another.
fn shown(alloc: Global, line: &[u8], window: Window) -> Result<Vec<u8>, AllocError>
    ensures { IfOk result (λ bytes. bytes.items ≡ between window.from window.to 0 line.now) }
{
    let mut bytes = Vec::new(alloc);
    let mut column = 0;
    for byte in line {
        if is_start(*byte) {
            column += 1;
        }
        if window.from <= column && column < window.to {
            bytes.push(*byte)?;
        }
    }
    Ok(bytes)
}

/// A blank for each character, and a tab for a tab.
fn blanks(alloc: Global, bytes: &[u8]) -> Result<Vec<u8>, AllocError>
    ensures { IfOk result (λ blanks. blanks.items ≡ blanks_of bytes.now) }
{
    let mut blanks = Vec::new(alloc);
    for byte in bytes {
        if *byte == b'\t' {
            blanks.push(b'\t')?;
        } else if is_start(*byte) {
            blanks.push(b' ')?;
        }
    }
    Ok(blanks)
}

/// What stands for the characters of a line before those that are shown, where there are some.
fn dots(is_cut: bool, dots: &'static [u8]) -> &'static [u8]
    ensures { result.now ≡ (if is_cut then dots.now else []) }
{
    if is_cut { dots } else { b"" }
}

/// A line with a mark below the character of this column. Of a line of more than 120 characters those beside the mark are shown, and
/// `..` stands for the others.
fn marked_line(alloc: Global, line: &[u8], column: usize) -> Result<Vec<u8>, AllocError>
    requires { column < 2 ^ 64 - 60 }
    ensures { IfOk result (λ bytes. bytes.items ≡ marked_line line.now column) }
{
    let count = spot_of(line, line.len()).column - 1;
    let window = window_for(count, column);
    let all = shown(alloc, line, window)?;
    let before = shown(
        alloc,
        line,
        Window {
            from: window.from,
            to: column,
        },
    )?;
    let under = blanks(alloc, before.as_slice())?;
    let is_begun = 1 < window.from;
    let mut bytes = Vec::new(alloc);
    bytes.extend_from_slice(b"  ")?;
    bytes.extend_from_slice(dots(is_begun, b".."))?;
    bytes.extend_from_slice(all.as_slice())?;
    bytes.extend_from_slice(dots(window.to <= count, b".."))?;
    bytes.extend_from_slice(b"\n  ")?;
    bytes.extend_from_slice(dots(is_begun, b"  "))?;
    bytes.extend_from_slice(under.as_slice())?;
    bytes.extend_from_slice(b"^\n")?;
    Ok(bytes)
}

/// The place of a byte of a text by line and column, that line, and a mark below the character there.
pub fn mark(alloc: Global, whose: &str, text: &str, at: usize) -> Result<Vec<u8>, AllocError>
    ensures { IfOk result (λ bytes. bytes.items ≡ mark_text whose.now text.now at) }
{
    let bytes = text.as_bytes();
    let Spot {
        line,
        column,
        begins,
    } = spot_of(bytes, at);
    let place = format!(in alloc; "  {whose}line {line}, column {column}\n")?;
    let below = marked_line(alloc, line_in(&bytes[begins..]), column)?;
    let mut lines = Vec::new(alloc);
    lines.extend_from_slice(place.as_bytes())?;
    lines.extend_from_slice(below.as_slice())?;
    Ok(lines)
}
