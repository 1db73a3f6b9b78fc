ghost use Rattle.std.specs.Prelude.{◌≡◌, ◌<◌, length, slice_index, true, IfOk, IfSome, MatchOption};
ghost use Rattle.flow_model.specs.Tokens.{TokensOf, front, int_word, is_digit, is_letter, long_mark, mark_word, name_word};

use crate::gap::past_gap;
use crate::mark::{long_mark, short_mark};
use crate::run::{Class, behind_first, first_byte, is_digit, is_letter, second_byte, split_run};
use crate::token_list::{Tokens, TokensFault};
use crate::words::{number, text, word};
use flow_base::token::{Token, Word};
use std::alloc::Global;

/// The longest token that begins here, and what is behind it; none where that is no token.
fn next_word(alloc: Global, rest: &str) -> Result<Option<(Word, &str)>, TokensFault>
    ensures value { IfOk result (λ o. MatchOption o (front rest.now ≡ None) (λ x. front rest.now ≡ Some (x.0, x.1.now))) }
    ensures shorter { IfOk result (λ o. IfSome o (λ x. length x.1.now < length rest.now)) }
{
    let first = first_byte(rest);
    if is_letter(first) {
        next_name(alloc, rest)
    } else if is_digit(first) {
        Ok(next_number(rest))
    } else if first == b'"' {
        text(alloc, behind_first(rest))
    } else {
        Ok(next_mark(rest))
    }
}

/// The keyword or name that begins here.
fn next_name(alloc: Global, rest: &str) -> Result<Option<(Word, &str)>, TokensFault>
    requires { is_letter (slice_index rest.now 0) ≡ true }
    ensures value { IfOk result (λ o. MatchOption o (name_word rest.now ≡ None) (λ x. name_word rest.now ≡ Some (x.0, x.1.now))) }
    ensures shorter { IfOk result (λ o. IfSome o (λ x. length x.1.now < length rest.now)) }
{
    let (letters, after) = split_run(rest, Class::Word);
    match word(alloc, letters)? {
        Some(word) => Ok(Some((word, after))),
        None => Ok(None),
    }
}

/// The whole number that begins here.
fn next_number(rest: &str) -> Option<(Word, &str)>
    requires { is_digit (slice_index rest.now 0) ≡ true }
    ensures value { MatchOption result (int_word rest.now ≡ None) (λ x. int_word rest.now ≡ Some (x.0, x.1.now)) }
    ensures shorter { IfSome result (λ x. length x.1.now < length rest.now) }
{
    let (digits, after) = split_run(rest, Class::Digit);
    match number(digits.as_bytes()) {
        Some(number) => Some((Word::Int(number), after)),
        None => None,
    }
}

/// The longest mark that stands here, and what is behind it.
fn next_mark(rest: &str) -> Option<(Word, &str)>
    ensures value { MatchOption result (mark_word rest.now (long_mark (slice_index rest.now 0) (slice_index rest.now 1)) ≡ None)
        (λ x. mark_word rest.now (long_mark (slice_index rest.now 0) (slice_index rest.now 1)) ≡ Some (x.0, x.1.now)) }
    ensures shorter { IfSome result (λ x. length x.1.now < length rest.now) }
{
    let first = first_byte(rest);
    if let Some(mark) = long_mark(first, second_byte(rest)) {
        return Some((Word::Mark(mark), behind_first(behind_first(rest))));
    }
    let mark = short_mark(first)?;
    Some((Word::Mark(mark), behind_first(rest)))
}

/// The longest tokens of a text with their places, up to the first fault.
///
/// # Failure
/// E01 where a growth of memory is refused.
pub fn tokens(alloc: Global, text: &str) -> Result<Tokens, TokensFault>
    ensures { IfOk result (λ found. TokensOf text.now found.list.items found.fault) }
{
    let mut list = Vec::new(alloc);
    let mut rest = past_gap(text);
    while rest.len() > 0 {
        let from = text.len() - rest.len();
        let Some((word, after)) = next_word(alloc, rest)? else {
            return Ok(Tokens {
                list,
                fault: Some(from),
            });
        };
        let to = text.len() - after.len();
        list.push(Token { word, from, to })?;
        rest = past_gap(after);
    }
    Ok(Tokens { list, fault: None })
}
