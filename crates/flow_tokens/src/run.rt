ghost use Rattle.std.specs.Prelude.{◌≡◌, take, drop};
ghost use Rattle.std.specs.List.{prefix_len};
ghost use Rattle.std.specs.Prelude.{slice_index, ◌<◌};
ghost use Rattle.flow_model.specs.Tokens.{is_letter, is_digit};
ghost use Rattle.flow_tokens.specs.Classes.{has};

/// A class of bytes. Tokens are cut where a run of a class ends.
#[derive(Clone, Copy, Debug, PartialEq, Eq)]
pub enum Class {
    /// Spaces, tabs, line feeds and carriage returns.
    Blank,
    /// What a comment goes on over: all but line feeds.
    Comment,
    /// What a name goes on over: letters, digits and `_`.
    Word,
    Digit,
    /// What stands in a text for itself: all from U+0020 up but `"` and `\`.
    Plain,
}

impl Class {
    /// Whether a byte is of this class.
    pub fn has(self, byte: u8) -> bool
        ensures { result ≡ has self byte }
    {
        match self {
            Class::Blank => byte == b' ' || byte == b'\t' || byte == b'\n' || byte == b'\r',
            Class::Comment => byte != b'\n',
            Class::Word => is_letter(byte) || is_digit(byte),
            Class::Digit => is_digit(byte),
            Class::Plain => byte >= b' ' && byte != b'"' && byte != b'\\',
        }
    }
}

/// Whether a name begins with it: a letter or `_`.
pub fn is_letter(byte: u8) -> bool
    ensures { result ≡ is_letter byte }
{
    (byte >= b'A' && byte <= b'Z') || (byte >= b'a' && byte <= b'z') || byte == b'_'
}

/// Whether it is a decimal digit.
pub fn is_digit(byte: u8) -> bool
    ensures { result ≡ is_digit byte }
{
    byte >= b'0' && byte <= b'9'
}

/// How many bytes at the front are of the class.
fn run_len(bytes: &[u8], class: Class) -> usize
    ensures { result ≡ prefix_len (has class) bytes.now }
{
    let mut n = 0;
    while n < bytes.len() && class.has(bytes[n]) {
        n += 1;
    }
    n
}

/// The longest run of the class at the front, and what is behind it.
pub fn split_run(text: &str, class: Class) -> (&str, &str)
    ensures front { result.0.now ≡ take (prefix_len (has class) text.now) text.now }
    ensures back { result.1.now ≡ drop (prefix_len (has class) text.now) text.now }
{
    text.split_at(run_len(text.as_bytes(), class))
}

/// The text behind its first byte, which is ASCII and not 0.
pub fn behind_first(text: &str) -> &str
    requires some { 0 < slice_index text.now 0 }
    requires ascii { slice_index text.now 0 < 128 }
    ensures { result.now ≡ drop 1 text.now }
{
    let (_, after) = text.split_at(1);
    after
}

/// The first byte, or 0 where there is none: no token has a 0.
pub fn first_byte(text: &str) -> u8
    ensures { result ≡ slice_index text.now 0 }
{
    match text.as_bytes() {
        [first, ..] => *first,
        [] => 0,
    }
}

/// The second byte, or 0 where there is none.
pub fn second_byte(text: &str) -> u8
    ensures { result ≡ slice_index text.now 1 }
{
    match text.as_bytes() {
        [_, second, ..] => *second,
        _ => 0,
    }
}
