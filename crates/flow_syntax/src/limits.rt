//! How deep brackets and expressions may go.
ghost use Rattle.std.specs.Prelude.{◌≡◌, ◌≤◌, MatchOption};
ghost use Rattle.flow_model.specs.Lexeme.{lexemes};
ghost use Rattle.flow_model.specs.Limits.{brackets_behind, operators_behind, brackets_after, operators_after, Within};
ghost use Rattle.flow_syntax.specs.Faults.{IsCut};

use crate::cursor::next;
use flow_base::token::{Mark, Token, Word};

/// The most brackets that stand open at once, and the most operators of one outermost expression.
pub const DEPTH_LIMIT: usize = 64;

/// Brackets that stand open behind this mark.
fn brackets_of_mark(brackets: usize, mark: Mark) -> usize
    requires { brackets ≤ DEPTH_LIMIT }
    ensures { result ≡ brackets_behind brackets mark }
{
    match mark {
        Mark::Open => brackets + 1,
        Mark::BraceOpen => brackets + 1,
        Mark::Close => brackets.saturating_sub(1),
        Mark::BraceClose => brackets.saturating_sub(1),
        _ => brackets,
    }
}

/// Operators of the outermost expression behind this mark. Each of `; , { }` ends one.
fn operators_of_mark(operators: usize, mark: Mark) -> usize
    requires { operators ≤ DEPTH_LIMIT }
    ensures { result ≡ operators_behind operators mark }
{
    match mark {
        Mark::Semicolon | Mark::Comma | Mark::BraceOpen | Mark::BraceClose => 0,
        Mark::Or | Mark::And | Mark::Not => operators + 1,
        Mark::Equal | Mark::Differ | Mark::Less => operators + 1,
        Mark::AtMost | Mark::Greater | Mark::AtLeast => operators + 1,
        Mark::Plus | Mark::Minus | Mark::Join => operators + 1,
        Mark::Times | Mark::Over | Mark::Percent => operators + 1,
        Mark::Text | Mark::Len => operators + 1,
        _ => operators,
    }
}

fn brackets_of_word(brackets: usize, word: &Word) -> usize
    requires { brackets ≤ DEPTH_LIMIT }
    ensures { result ≡ brackets_after brackets word.now }
{
    match word {
        Word::Mark(mark) => brackets_of_mark(brackets, *mark),
        _ => brackets,
    }
}

fn operators_of_word(operators: usize, word: &Word) -> usize
    requires { operators ≤ DEPTH_LIMIT }
    ensures { result ≡ operators_after operators word.now }
{
    match word {
        Word::Mark(mark) => operators_of_mark(operators, *mark),
        _ => operators,
    }
}

/// The place of the first token with which a limit is passed, and how many tokens are behind it.
pub fn first_too_deep(tokens: &[Token]) -> Option<(usize, usize)>
    ensures { MatchOption result (Within (lexemes tokens.now)) (λ x. IsCut (lexemes tokens.now) x.0 x.1) }
{
    let mut brackets = 0;
    let mut operators = 0;
    let mut rest = tokens;
    while let Some((token, after)) = next(rest) {
        brackets = brackets_of_word(brackets, &token.word);
        operators = operators_of_word(operators, &token.word);
        if brackets > DEPTH_LIMIT {
            return Some((token.from, after.len()));
        }
        if operators > DEPTH_LIMIT {
            return Some((token.from, after.len()));
        }
        rest = after;
    }
    None
}
