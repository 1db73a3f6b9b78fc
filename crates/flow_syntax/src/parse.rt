//! The parser's calls.
ghost use Rattle.std.specs.Prelude.{◌≡◌, ◌<◌, IfOk, IfErr, MatchResult};
ghost use Rattle.flow_base.specs.Syntax as tree;
ghost use Rattle.flow_base.specs.Shown.{shown_program};
ghost use Rattle.flow_model.specs.Lexeme.{lexemes};
ghost use Rattle.flow_model.specs.Grammar.{Reads};
ghost use Rattle.flow_model.specs.Limits.{Within};
ghost use Rattle.flow_syntax.specs.Parsing.{StopsProgram};
ghost use Rattle.flow_syntax.specs.Faults.{IsFault, IsFaultBefore, IsFaultOf, IsFirstOf, IsCut, IsDeepFault, IsParseFault};
ghost use Rattle.flow_model.specs.Meaning.{IsProgramOf};

use crate::cursor::next;
use crate::fault::{ParseFault, Stop};
use crate::limits::first_too_deep;
use crate::program::program;
use flow_base::syntax::Program;
use flow_base::token::Token;
use flow_tokens::{Tokens, tokens};
use std::alloc::Global;

/// The most bytes of a program text.
pub const PROGRAM_LIMIT: usize = 65536;

/// The fault of tokens that aren't read, where `behind` is the one behind them.
fn fault_of(tokens: &[Token], stop: Stop, behind: ParseFault) -> ParseFault
    requires { StopsProgram (lexemes tokens.now) stop }
    ensures { IsFaultOf (lexemes tokens.now) behind result }
{
    match stop {
        Stop::NoMemory(no_memory) => ParseFault::NoMemory(no_memory),
        Stop::Unexpected(left) => match next(&tokens[tokens.len() - left..]) {
            Some((token, _)) => ParseFault::Unexpected(token.from),
            None => behind,
        },
    }
}

/// The first fault of tokens behind which a fault stands.
fn first_fault(alloc: Global, tokens: &[Token], behind: ParseFault) -> ParseFault
    ensures { IsFirstOf (lexemes tokens.now) behind result }
{
    match program(alloc, tokens) {
        Ok(_) => behind,
        Err(stop) => fault_of(tokens, stop, behind),
    }
}

/// The first fault of tokens of which the one at this place passes a limit, and so many are behind it.
fn deep_fault(alloc: Global, tokens: &[Token], at: usize, left: usize) -> ParseFault
    requires { IsCut (lexemes tokens.now) at left }
    ensures { IsDeepFault (lexemes tokens.now) result }
{
    first_fault(
        alloc,
        &tokens[..tokens.len() - left],
        ParseFault::TooDeep(at),
    )
}

/// The program of the tokens of a text that ends at this place.
///
/// # Failure
/// E11 or E13, whichever comes first in the text.
fn parse_tokens(alloc: Global, tokens: &[Token], end: usize) -> Result<Program, ParseFault>
    // What is read is in the grammar, and within the limits.
    ensures ok { IfOk result (λ p. Reads (lexemes tokens.now) (shown_program p) × Within (lexemes tokens.now)) }
    // What is in the grammar and within the limits is read as the one program that it is, unless memory runs out.
    ensures only { (p : tree.Program) → Reads (lexemes tokens.now) p → Within (lexemes tokens.now)
        → MatchResult result (λ q. shown_program q ≡ p) (λ e. e ≡ ParseFault.NoMemory _) }
    // A fault is the first one.
    ensures err { IfErr result (λ e. IsFault (lexemes tokens.now) end e) }
{
    if let Some((at, left)) = first_too_deep(tokens) {
        return Err(deep_fault(alloc, tokens, at, left));
    }
    match program(alloc, tokens) {
        Ok(program) => Ok(program),
        Err(stop) => Err(fault_of(tokens, stop, ParseFault::Unexpected(end))),
    }
}

/// The first fault of the tokens before a place at which no token begins.
fn fault_before(alloc: Global, tokens: &[Token], at: usize) -> ParseFault
    ensures { IsFaultBefore (lexemes tokens.now) at result }
{
    match first_too_deep(tokens) {
        Some((place, left)) => deep_fault(alloc, tokens, place, left),
        None => first_fault(alloc, tokens, ParseFault::BadToken(at)),
    }
}

/// The program of a text.
///
/// # Failure
/// E12 where the text has more than [`PROGRAM_LIMIT`] bytes; else the first fault in the text: E10 where no token
/// begins, E11 at the first token with which no program goes on, or at the text's length where it ends early, E13 at
/// the token with which a limit is passed. At one place the lowest number counts.
pub fn parse(alloc: Global, text: &str) -> Result<Program, ParseFault>
    // What is read is the program of the text. A text is one program at most, and then has no fault.
    ensures ok { IfOk result (λ p. IsProgramOf text.now (shown_program p)) }
    // The program of the text is what is read, unless memory runs out.
    ensures only { (p : tree.Program) → IsProgramOf text.now p
        → MatchResult result (λ q. shown_program q ≡ p) (λ e. e ≡ ParseFault.NoMemory _) }
    // A fault is the first one in the text. A text has one first fault at most.
    ensures err { IfErr result (λ e. IsParseFault text.now e) }
{
    if text.len() > PROGRAM_LIMIT {
        return Err(ParseFault::TextTooLong);
    }
    let Tokens { list, fault } = tokens(alloc, text)?;
    match fault {
        None => parse_tokens(alloc, &list, text.len()),
        Some(at) => Err(fault_before(alloc, &list, at)),
    }
}
