ghost use Rattle.std.specs.Prelude.{◌≡◌, ℕ, ◌<◌, ◌≤◌, length, slice_index, true, IfOk, IfSome, MatchOption, string_bytes};
ghost use Rattle.flow_model.specs.Tokens.{is_digit, escaped, keyword_of, number_word, text_word, unquoted, word_or_name};
ghost use Rattle.std.specs.List.{prefix_len};
ghost use Rattle.flow_tokens.specs.Classes.{has};
ghost use Rattle.flow_tokens.specs.Quoted.{goes_on};

use crate::keyword::keyword;
use crate::run::{Class, behind_first, first_byte, split_run};
use crate::token_list::TokensFault;
use flow_base::text::{Key, Text};
use flow_base::token::Word;
use flow_base::value::ValueFault;
use std::alloc::Global;

/// The largest number of a program.
const LAST_INT: u64 = 9223372036854775807;

/// The keyword or the name of these letters; none where the name is too long.
pub fn word(alloc: Global, letters: &str) -> Result<Option<Word>, TokensFault>
    requires { 0 < length letters.now }
    ensures { IfOk result (λ o. o ≡ word_or_name letters.now (keyword_of letters.now)) }
{
    if let Some(mark) = keyword(letters) {
        return Ok(Some(Word::Mark(mark)));
    }
    match Key::new(alloc, letters) {
        Ok(key) => Ok(Some(Word::Name(key))),
        Err(ValueFault::NoMemory(no_memory)) => Err(TokensFault::NoMemory(no_memory)),
        Err(ValueFault::TooLong) => Ok(None),
        Err(ValueFault::NotAValue) => Ok(None),
    }
}

/// The whole number of these digits; none where it has a leading zero or is too large.
pub fn number(digits: &[u8]) -> Option<i64>
    requires { (k : ℕ) → k < length digits.now → is_digit (slice_index digits.now k) ≡ true }
    ensures { MatchOption result (number_word digits.now ≡ None) (λ n. number_word digits.now ≡ Some (Word.Int n)) }
{
    if digits.len() > 1 && digits[0] == b'0' {
        return None;
    }
    let mut number: u64 = 0;
    for byte in digits {
        let digit = u64::from(*byte - b'0');
        if number > (LAST_INT - digit) / 10 {
            return None;
        }
        number = 10 * number + digit;
    }
    Some(number as i64)
}

/// The character behind a `\`, or none where that is no escape.
fn escaped(byte: u8) -> Option<char>
    ensures { result ≡ escaped byte }
{
    match byte {
        b'"' => Some('"'),
        b'\\' => Some('\\'),
        b'n' => Some('\n'),
        _ => None,
    }
}

/// Puts the characters up to the next one that doesn't stand for itself behind the value, and gives what is left.
fn push_plain<'a>(value: &mut String, text: &'a str) -> Result<&'a str, TokensFault>
    ensures same { IfOk result (λ r. goes_on (string_bytes value.new) (unquoted r.now) ≡ goes_on (string_bytes value.old)
        (unquoted text.now)) }
    ensures all { IfOk result (λ r. prefix_len (has Class.Plain) r.now ≡ 0) }
    ensures shorter { IfOk result (λ r. length r.now ≤ length text.now) }
{
    let (plain, after) = split_run(text, Class::Plain);
    value.push_str(plain)?;
    Ok(after)
}

/// Puts the escape that stands here behind the value, and gives what is left; none where it is no escape.
fn push_escape<'a>(value: &mut String, text: &'a str) -> Result<Option<&'a str>, TokensFault>
    requires { slice_index text.now 0 ≡ 92 }
    ensures same { IfOk result (λ o. MatchOption o (unquoted text.now ≡ None)
        (λ r. goes_on (string_bytes value.new) (unquoted r.now) ≡ goes_on (string_bytes value.old) (unquoted text.now))) }
    ensures shorter { IfOk result (λ o. IfSome o (λ r. length r.now < length text.now)) }
{
    let escape = behind_first(text);
    let Some(character) = escaped(first_byte(escape)) else {
        return Ok(None);
    };
    value.push(character)?;
    Ok(Some(behind_first(escape)))
}

/// The value of the text that goes on here, behind its opening quote, and what is behind its closing one; none where
/// it breaks a rule.
fn quoted(alloc: Global, text: &str) -> Result<Option<(String, &str)>, TokensFault>
    ensures value { IfOk result (λ o. MatchOption o (unquoted text.now ≡ None)
        (λ x. unquoted text.now ≡ Some (string_bytes x.0, x.1.now))) }
    ensures shorter { IfOk result (λ o. IfSome o (λ x. length x.1.now < length text.now)) }
{
    let mut value = String::new(alloc);
    let mut rest = push_plain(&mut value, text)?;
    while first_byte(rest) == b'\\' {
        let Some(after) = push_escape(&mut value, rest)? else {
            return Ok(None);
        };
        rest = push_plain(&mut value, after)?;
    }
    if first_byte(rest) != b'"' {
        return Ok(None);
    }
    Ok(Some((value, behind_first(rest))))
}

/// The text that goes on here, behind its opening quote, and what is behind it; none where it breaks a rule.
pub fn text(alloc: Global, rest: &str) -> Result<Option<(Word, &str)>, TokensFault>
    ensures value { IfOk result (λ o. MatchOption o (text_word (unquoted rest.now) ≡ None)
        (λ x. text_word (unquoted rest.now) ≡ Some (x.0, x.1.now))) }
    ensures shorter { IfOk result (λ o. IfSome o (λ x. length x.1.now < length rest.now)) }
{
    let Some((value, after)) = quoted(alloc, rest)? else {
        return Ok(None);
    };
    match Text::new(alloc, value.as_str()) {
        Ok(text) => Ok(Some((Word::Text(text), after))),
        Err(ValueFault::NoMemory(no_memory)) => Err(TokensFault::NoMemory(no_memory)),
        Err(_) => Ok(None),
    }
}
