//! Declarations and whole programs.
ghost use Rattle.std.specs.Prelude.{◌∷◌, ◌<◌, length, map, IfOk, IfErr, IfSome, MatchOption};
ghost use Rattle.flow_base.specs.Shown.{shown_declaration, shown_block, shown_program};
ghost use Rattle.flow_model.specs.Lexeme.{lexemes};
ghost use Rattle.flow_model.specs.Grammar.{marked, types_tokens, types_of, parameter_tokens, parameter_of, parameters_tokens, declaration_tokens, declaration_of, body_tokens, Reads};
ghost use Rattle.flow_syntax.specs.Machine as m;
ghost use Rattle.flow_syntax.specs.Parsing.{Parsed, StopsAt, StopsProgram, Lacks, Declares, both_of, whole_body_of};

use crate::cursor::{eat, expect, kind, name, next};
use crate::fault::Stop;
use crate::statement::statements;
use flow_base::syntax::{Declaration, Parameter, Program, Stmt, TypeAt};
use flow_base::token::{Mark, Token};
use std::alloc::Global;
use std::sync::Arc;

fn parameter(alloc: Global, tokens: &[Token]) -> Result<(Parameter, &[Token]), Stop>
    ensures ok { IfOk result (λ x. Parsed m.parameter parameter_tokens parameter_of (lexemes tokens.now) x.0 (lexemes x.1.now)) }
    ensures shorter { IfOk result (λ x. length x.1.now < length tokens.now) }
    ensures err { IfErr result (λ e. StopsAt m.parameter (lexemes tokens.now) e) }
{
    let (at, name, after_name) = name(alloc, tokens)?;
    let (_, after_colon) = expect(after_name, Mark::Colon)?;
    let (found, end) = kind(after_colon)?;
    let kind = found.kind;
    Ok((Parameter { at, name, kind }, end))
}

/// The parameters behind their `(`, the place of their `)`, and what follows it.
fn parameters(alloc: Global, tokens: &[Token]) -> Result<(Vec<Parameter>, usize, &[Token]), Stop>
    ensures ok { IfOk result (λ x. Parsed m.parameters parameters_tokens both_of (lexemes tokens.now) (x.0.items, x.1) (lexemes x.2.now)) }
    ensures shorter { IfOk result (λ x. length x.2.now < length tokens.now) }
    ensures err { IfErr result (λ e. StopsAt m.parameters (lexemes tokens.now) e) }
{
    let mut list = Vec::new(alloc);
    if let Some((at, end)) = eat(tokens, Mark::Close) {
        return Ok((list, at, end));
    }
    let (first, mut rest) = parameter(alloc, tokens)?;
    list.push(first)?;
    while let Some((_, after)) = eat(rest, Mark::Comma) {
        let (parameter, next) = parameter(alloc, after)?;
        list.push(parameter)?;
        rest = next;
    }
    let (at, end) = expect(rest, Mark::Close)?;
    Ok((list, at, end))
}

/// The types behind their `(`, and what follows their `)`.
fn types(alloc: Global, tokens: &[Token]) -> Result<(Vec<TypeAt>, &[Token]), Stop>
    ensures ok { IfOk result (λ x. Parsed m.types types_tokens types_of (lexemes tokens.now) x.0.items (lexemes x.1.now)) }
    ensures shorter { IfOk result (λ x. length x.1.now < length tokens.now) }
    ensures err { IfErr result (λ e. StopsAt m.types (lexemes tokens.now) e) }
{
    let mut list = Vec::new(alloc);
    if let Some((_, end)) = eat(tokens, Mark::Close) {
        return Ok((list, end));
    }
    let (first, mut rest) = kind(tokens)?;
    list.push(first)?;
    while let Some((_, after)) = eat(rest, Mark::Comma) {
        let (found, next) = kind(after)?;
        list.push(found)?;
        rest = next;
    }
    let (_, end) = expect(rest, Mark::Close)?;
    Ok((list, end))
}

/// An activity, behind its keyword, which stands at this place.
fn activity(alloc: Global, at: usize, tokens: &[Token]) -> Result<(Declaration, &[Token]), Stop>
    ensures ok { IfOk result (λ x. Parsed m.declaration declaration_tokens declaration_of (marked at Mark.Activity ∷ lexemes tokens.now)
        (shown_declaration x.0) (lexemes x.1.now)) }
    ensures shorter { IfOk result (λ x. length x.1.now < length tokens.now) }
    ensures err { IfErr result (λ e. StopsAt m.declaration (marked at Mark.Activity ∷ lexemes tokens.now) e) }
{
    let (name_at, name, after_name) = name(alloc, tokens)?;
    let (_, after_open) = expect(after_name, Mark::Open)?;
    let (takes, after_close) = types(alloc, after_open)?;
    let (_, after_arrow) = expect(after_close, Mark::Arrow)?;
    let (gives, after) = kind(after_arrow)?;
    let (_, end) = expect(after, Mark::Semicolon)?;
    Ok((
        Declaration::Activity(at, name_at, name, takes, gives.kind),
        end,
    ))
}

/// A signal, behind its keyword, which stands at this place.
fn signal(alloc: Global, at: usize, tokens: &[Token]) -> Result<(Declaration, &[Token]), Stop>
    ensures ok { IfOk result (λ x. Parsed m.declaration declaration_tokens declaration_of (marked at Mark.Signal ∷ lexemes tokens.now)
        (shown_declaration x.0) (lexemes x.1.now)) }
    ensures shorter { IfOk result (λ x. length x.1.now < length tokens.now) }
    ensures err { IfErr result (λ e. StopsAt m.declaration (marked at Mark.Signal ∷ lexemes tokens.now) e) }
{
    let (name_at, name, after_name) = name(alloc, tokens)?;
    let (_, after_colon) = expect(after_name, Mark::Colon)?;
    let (carries, after) = kind(after_colon)?;
    let (_, end) = expect(after, Mark::Semicolon)?;
    Ok((Declaration::Signal(at, name_at, name, carries.kind), end))
}

/// The declaration that a body begins with, if it does, and what follows it.
fn declaration(alloc: Global, tokens: &[Token]) -> Result<Option<(Declaration, &[Token])>, Stop>
    ensures ok { IfOk result (λ o. MatchOption o (Lacks Mark.Activity (lexemes tokens.now) × Lacks Mark.Signal (lexemes tokens.now))
        (λ x. Declares (lexemes tokens.now) (shown_declaration x.0) (lexemes x.1.now))) }
    ensures shorter { IfOk result (λ o. IfSome o (λ x. length x.1.now < length tokens.now)) }
    ensures err { IfErr result (λ e. StopsAt m.body (lexemes tokens.now) e) }
{
    if let Some((at, rest)) = eat(tokens, Mark::Activity) {
        return Ok(Some(activity(alloc, at, rest)?));
    }
    if let Some((at, rest)) = eat(tokens, Mark::Signal) {
        return Ok(Some(signal(alloc, at, rest)?));
    }
    Ok(None)
}

/// Declarations, statements up to the last brace, its place, and what follows it.
fn body(
    alloc: Global,
    tokens: &[Token],
) -> Result<(Vec<Declaration>, Arc<Vec<Stmt>>, usize, &[Token]), Stop>
    ensures ok { IfOk result (λ x. Parsed m.body body_tokens whole_body_of (lexemes tokens.now)
        (map shown_declaration x.0.items, (shown_block x.1.value.items, x.2)) (lexemes x.3.now)) }
    ensures shorter { IfOk result (λ x. length x.3.now < length tokens.now) }
    ensures err { IfErr result (λ e. StopsAt m.body (lexemes tokens.now) e) }
{
    let mut declarations = Vec::new(alloc);
    let mut rest = tokens;
    while let Some((found, next)) = declaration(alloc, rest)? {
        declarations.push(found)?;
        rest = next;
    }
    let (list, at, end) = statements(alloc, rest)?;
    Ok((declarations, list, at, end))
}

/// The program that the tokens are.
pub fn program(alloc: Global, tokens: &[Token]) -> Result<Program, Stop>
    ensures ok { IfOk result (λ p. Reads (lexemes tokens.now) (shown_program p)) }
    ensures err { IfErr result (λ e. StopsProgram (lexemes tokens.now) e) }
{
    let (_, after_keyword) = expect(tokens, Mark::Workflow)?;
    let (at, name, after_name) = name(alloc, after_keyword)?;
    let (_, after_open) = expect(after_name, Mark::Open)?;
    let (parameters, parameters_end, after_close) = parameters(alloc, after_open)?;
    let (_, inside) = expect(after_close, Mark::BraceOpen)?;
    let (declarations, body, body_end, end) = body(alloc, inside)?;
    match next(end) {
        None => Ok(Program {
            at,
            name,
            parameters,
            parameters_end,
            declarations,
            body,
            body_end,
        }),
        Some(_) => Err(Stop::Unexpected(end.len())),
    }
}
