ghost use Rattle.std.specs.Prelude.{◌≡◌, ◌<◌, IfSome};
ghost use Rattle.flow_model.specs.Tokens.{long_mark, short_mark};

use flow_base::token::Mark;

/// The mark of two bytes.
pub fn long_mark(first: u8, second: u8) -> Option<Mark>
    ensures value { result ≡ long_mark first second }
    ensures ascii { IfSome result (λ m. (0 < first) × (first < 128) × (0 < second) × (second < 128)) }
{
    match (first, second) {
        (b'=', b'=') => Some(Mark::Equal),
        (b'!', b'=') => Some(Mark::Differ),
        (b'<', b'=') => Some(Mark::AtMost),
        (b'>', b'=') => Some(Mark::AtLeast),
        (b'-', b'>') => Some(Mark::Arrow),
        (b'+', b'+') => Some(Mark::Join),
        _ => None,
    }
}

/// The mark of one byte.
pub fn short_mark(byte: u8) -> Option<Mark>
    ensures value { result ≡ short_mark byte }
    ensures ascii { IfSome result (λ m. (0 < byte) × (byte < 128)) }
{
    match byte {
        b'(' => Some(Mark::Open),
        b')' => Some(Mark::Close),
        b'{' => Some(Mark::BraceOpen),
        b'}' => Some(Mark::BraceClose),
        b',' => Some(Mark::Comma),
        b';' => Some(Mark::Semicolon),
        b':' => Some(Mark::Colon),
        b'=' => Some(Mark::Assign),
        b'<' => Some(Mark::Less),
        b'>' => Some(Mark::Greater),
        b'+' => Some(Mark::Plus),
        b'-' => Some(Mark::Minus),
        b'*' => Some(Mark::Times),
        b'/' => Some(Mark::Over),
        b'%' => Some(Mark::Percent),
        _ => None,
    }
}
