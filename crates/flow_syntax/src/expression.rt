//! Expressions, by recursive descent: one function a level of the grammar.
ghost use Rattle.std.specs.Prelude.{◌≡◌, ◌<◌, length, map, IfOk, IfErr, IfSome, MatchOption};
ghost use Rattle.flow_base.specs.Syntax.{Combine, Apply};
ghost use Rattle.flow_base.specs.Shown.{shown_expr};
ghost use Rattle.flow_model.specs.Lexeme.{lexemes};
ghost use Rattle.flow_model.specs.Grammar.{parens_tokens, parens_of, prim_tokens, prim_of, unary_tokens, unary_of, term_tokens, term_of, sum_tokens, sum_of, compare_tokens, compare_of, neg_tokens, neg_of, conj_tokens, conj_of, expr_tokens, expr_of, arguments_tokens, arguments_of};
ghost use Rattle.flow_syntax.specs.Machine as m;
ghost use Rattle.flow_syntax.specs.Parsing.{Parsed, StopsAt, Past, IsFactor, IsAdded, IsCompared};

use crate::cursor::{eat, expect, mark, next};
use crate::fault::Stop;
use flow_base::syntax::{Binary, Expr, Unary};
use flow_base::token::{Mark, Token, Word};
use std::alloc::{AllocError, Global};

fn joined(alloc: Global, operator: Binary, left: Expr, right: Expr) -> Result<Expr, AllocError>
    ensures { IfOk result (λ e. shown_expr e ≡ Combine operator (shown_expr left) (shown_expr right)) }
{
    let left = Box::new(alloc, left)?;
    let right = Box::new(alloc, right)?;
    Ok(Expr::Binary(operator, left, right))
}

fn prefixed(alloc: Global, at: usize, operator: Unary, inner: Expr) -> Result<Expr, AllocError>
    ensures { IfOk result (λ e. shown_expr e ≡ Apply at operator (shown_expr inner)) }
{
    let inner = Box::new(alloc, inner)?;
    Ok(Expr::Unary(at, operator, inner))
}

/// An operator of a term, its place and what follows it.
fn multiplicative(tokens: &[Token]) -> Option<(usize, Binary, &[Token])>
    ensures found { MatchOption result (Past m.more_term (lexemes tokens.now))
        (λ x. IsFactor (lexemes tokens.now) x.0 x.1 (lexemes x.2.now)) }
    ensures shorter { IfSome result (λ x. length x.2.now < length tokens.now) }
{
    let (at, mark, rest) = mark(tokens)?;
    match mark {
        Mark::Times => Some((at, Binary::Multiply, rest)),
        Mark::Over => Some((at, Binary::Divide, rest)),
        Mark::Percent => Some((at, Binary::Remain, rest)),
        _ => None,
    }
}

/// An operator of a sum, its place and what follows it.
fn additive(tokens: &[Token]) -> Option<(usize, Binary, &[Token])>
    ensures found { MatchOption result (Past m.more_sum (lexemes tokens.now))
        (λ x. IsAdded (lexemes tokens.now) x.0 x.1 (lexemes x.2.now)) }
    ensures shorter { IfSome result (λ x. length x.2.now < length tokens.now) }
{
    let (at, mark, rest) = mark(tokens)?;
    match mark {
        Mark::Plus => Some((at, Binary::Add, rest)),
        Mark::Minus => Some((at, Binary::Subtract, rest)),
        Mark::Join => Some((at, Binary::Join, rest)),
        _ => None,
    }
}

/// An operator of a comparison, its place and what follows it.
fn comparison(tokens: &[Token]) -> Option<(usize, Binary, &[Token])>
    ensures found { MatchOption result (Past m.more_compare (lexemes tokens.now))
        (λ x. IsCompared (lexemes tokens.now) x.0 x.1 (lexemes x.2.now)) }
    ensures shorter { IfSome result (λ x. length x.2.now < length tokens.now) }
{
    let (at, mark, rest) = mark(tokens)?;
    match mark {
        Mark::Equal => Some((at, Binary::Equal, rest)),
        Mark::Differ => Some((at, Binary::Differ, rest)),
        Mark::Less => Some((at, Binary::Less, rest)),
        Mark::AtMost => Some((at, Binary::AtMost, rest)),
        Mark::Greater => Some((at, Binary::Greater, rest)),
        Mark::AtLeast => Some((at, Binary::AtLeast, rest)),
        _ => None,
    }
}

/// An expression in parentheses.
#[cycle(expression)]
fn parens(alloc: Global, tokens: &[Token]) -> Result<(Expr, &[Token]), Stop>
    ensures ok { IfOk result (λ x. Parsed m.parens parens_tokens parens_of (lexemes tokens.now) (shown_expr x.0) (lexemes x.1.now)) }
    ensures shorter { IfOk result (λ x. length x.1.now < length tokens.now) }
    ensures err { IfErr result (λ e. StopsAt m.parens (lexemes tokens.now) e) }
{
    let (_, inside) = expect(tokens, Mark::Open)?;
    let (inner, after) = expr(alloc, inside)?;
    let (_, end) = expect(after, Mark::Close)?;
    Ok((inner, end))
}

/// An operator that stands before parentheses, behind its word.
#[cycle(expression)]
fn applied(
    alloc: Global,
    at: usize,
    operator: Unary,
    tokens: &[Token],
) -> Result<(Expr, &[Token]), Stop>
    ensures ok { IfOk result (λ x. Parsed m.parens parens_tokens (λ p. Apply at operator (parens_of p)) (lexemes tokens.now)
        (shown_expr x.0) (lexemes x.1.now)) }
    ensures shorter { IfOk result (λ x. length x.1.now < length tokens.now) }
    ensures err { IfErr result (λ e. StopsAt m.parens (lexemes tokens.now) e) }
{
    let (inner, end) = parens(alloc, tokens)?;
    let inner = Box::new(alloc, inner)?;
    Ok((Expr::Unary(at, operator, inner), end))
}

#[cycle(expression)]
fn prim(alloc: Global, tokens: &[Token]) -> Result<(Expr, &[Token]), Stop>
    ensures ok { IfOk result (λ x. Parsed m.prim prim_tokens prim_of (lexemes tokens.now) (shown_expr x.0) (lexemes x.1.now)) }
    ensures shorter { IfOk result (λ x. length x.1.now < length tokens.now) }
    ensures err { IfErr result (λ e. StopsAt m.prim (lexemes tokens.now) e) }
{
    let Some((first, rest)) = next(tokens) else {
        return Err(Stop::Unexpected(0));
    };
    match &first.word {
        Word::Int(number) => Ok((Expr::Int(first.from, *number), rest)),
        Word::Text(text) => Ok((Expr::Text(first.from, text.copy(alloc)?), rest)),
        Word::Name(name) => Ok((Expr::Var(first.from, name.copy(alloc)?), rest)),
        Word::Mark(mark) => match mark {
            Mark::Now => Ok((Expr::Now(first.from), rest)),
            Mark::Open => parens(alloc, tokens),
            Mark::Text => applied(alloc, first.from, Unary::TextOf, rest),
            Mark::Len => applied(alloc, first.from, Unary::Length, rest),
            _ => Err(Stop::Unexpected(tokens.len())),
        },
    }
}

#[cycle(expression)]
fn unary(alloc: Global, tokens: &[Token]) -> Result<(Expr, &[Token]), Stop>
    ensures ok { IfOk result (λ x. Parsed m.unary unary_tokens unary_of (lexemes tokens.now) (shown_expr x.0) (lexemes x.1.now)) }
    ensures shorter { IfOk result (λ x. length x.1.now < length tokens.now) }
    ensures err { IfErr result (λ e. StopsAt m.unary (lexemes tokens.now) e) }
{
    match eat(tokens, Mark::Minus) {
        None => prim(alloc, tokens),
        Some((at, rest)) => {
            let (inner, end) = unary(alloc, rest)?;
            Ok((prefixed(alloc, at, Unary::Negate, inner)?, end))
        }
    }
}

#[cycle(expression)]
fn term(alloc: Global, tokens: &[Token]) -> Result<(Expr, &[Token]), Stop>
    ensures ok { IfOk result (λ x. Parsed m.term term_tokens term_of (lexemes tokens.now) (shown_expr x.0) (lexemes x.1.now)) }
    ensures shorter { IfOk result (λ x. length x.1.now < length tokens.now) }
    ensures err { IfErr result (λ e. StopsAt m.term (lexemes tokens.now) e) }
{
    let (mut left, mut rest) = unary(alloc, tokens)?;
    while let Some((_, operator, after)) = multiplicative(rest) {
        let (right, next) = unary(alloc, after)?;
        left = joined(alloc, operator, left, right)?;
        rest = next;
    }
    Ok((left, rest))
}

#[cycle(expression)]
fn sum(alloc: Global, tokens: &[Token]) -> Result<(Expr, &[Token]), Stop>
    ensures ok { IfOk result (λ x. Parsed m.sum sum_tokens sum_of (lexemes tokens.now) (shown_expr x.0) (lexemes x.1.now)) }
    ensures shorter { IfOk result (λ x. length x.1.now < length tokens.now) }
    ensures err { IfErr result (λ e. StopsAt m.sum (lexemes tokens.now) e) }
{
    let (mut left, mut rest) = term(alloc, tokens)?;
    while let Some((_, operator, after)) = additive(rest) {
        let (right, next) = term(alloc, after)?;
        left = joined(alloc, operator, left, right)?;
        rest = next;
    }
    Ok((left, rest))
}

#[cycle(expression)]
fn compared(alloc: Global, tokens: &[Token]) -> Result<(Expr, &[Token]), Stop>
    ensures ok { IfOk result (λ x. Parsed m.compare compare_tokens compare_of (lexemes tokens.now) (shown_expr x.0) (lexemes x.1.now)) }
    ensures shorter { IfOk result (λ x. length x.1.now < length tokens.now) }
    ensures err { IfErr result (λ e. StopsAt m.compare (lexemes tokens.now) e) }
{
    let (left, rest) = sum(alloc, tokens)?;
    match comparison(rest) {
        None => Ok((left, rest)),
        Some((_, operator, after)) => {
            let (right, end) = sum(alloc, after)?;
            Ok((joined(alloc, operator, left, right)?, end))
        }
    }
}

#[cycle(expression)]
fn negated(alloc: Global, tokens: &[Token]) -> Result<(Expr, &[Token]), Stop>
    ensures ok { IfOk result (λ x. Parsed m.neg neg_tokens neg_of (lexemes tokens.now) (shown_expr x.0) (lexemes x.1.now)) }
    ensures shorter { IfOk result (λ x. length x.1.now < length tokens.now) }
    ensures err { IfErr result (λ e. StopsAt m.neg (lexemes tokens.now) e) }
{
    match eat(tokens, Mark::Not) {
        None => compared(alloc, tokens),
        Some((at, rest)) => {
            let (inner, end) = negated(alloc, rest)?;
            Ok((prefixed(alloc, at, Unary::Not, inner)?, end))
        }
    }
}

#[cycle(expression)]
fn conjunction(alloc: Global, tokens: &[Token]) -> Result<(Expr, &[Token]), Stop>
    ensures ok { IfOk result (λ x. Parsed m.conj conj_tokens conj_of (lexemes tokens.now) (shown_expr x.0) (lexemes x.1.now)) }
    ensures shorter { IfOk result (λ x. length x.1.now < length tokens.now) }
    ensures err { IfErr result (λ e. StopsAt m.conj (lexemes tokens.now) e) }
{
    let (mut left, mut rest) = negated(alloc, tokens)?;
    while let Some((_, after)) = eat(rest, Mark::And) {
        let (right, next) = negated(alloc, after)?;
        left = joined(alloc, Binary::And, left, right)?;
        rest = next;
    }
    Ok((left, rest))
}

/// Reads the expression that the tokens begin with, and gives the tokens behind it.
#[cycle(expression)]
pub fn expr(alloc: Global, tokens: &[Token]) -> Result<(Expr, &[Token]), Stop>
    ensures ok { IfOk result (λ x. Parsed m.expr expr_tokens expr_of (lexemes tokens.now) (shown_expr x.0) (lexemes x.1.now)) }
    ensures shorter { IfOk result (λ x. length x.1.now < length tokens.now) }
    ensures err { IfErr result (λ e. StopsAt m.expr (lexemes tokens.now) e) }
{
    let (mut left, mut rest) = conjunction(alloc, tokens)?;
    while let Some((_, after)) = eat(rest, Mark::Or) {
        let (right, next) = conjunction(alloc, after)?;
        left = joined(alloc, Binary::Or, left, right)?;
        rest = next;
    }
    Ok((left, rest))
}

/// The arguments of a call, behind its `(`, up to its `)`.
pub fn arguments(alloc: Global, tokens: &[Token]) -> Result<(Vec<Expr>, &[Token]), Stop>
    ensures ok { IfOk result (λ x. Parsed m.arguments arguments_tokens arguments_of (lexemes tokens.now) (map shown_expr x.0.items)
        (lexemes x.1.now)) }
    ensures shorter { IfOk result (λ x. length x.1.now < length tokens.now) }
    ensures err { IfErr result (λ e. StopsAt m.arguments (lexemes tokens.now) e) }
{
    let mut list = Vec::new(alloc);
    if let Some((_, end)) = eat(tokens, Mark::Close) {
        return Ok((list, end));
    }
    let (first, mut rest) = expr(alloc, tokens)?;
    list.push(first)?;
    while let Some((_, after)) = eat(rest, Mark::Comma) {
        let (argument, next) = expr(alloc, after)?;
        list.push(argument)?;
        rest = next;
    }
    let (_, end) = expect(rest, Mark::Close)?;
    Ok((list, end))
}
