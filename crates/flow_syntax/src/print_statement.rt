//! The tokens of statements and of the lists within them. In each function of the recursion what it goes down stands
//! before any expression, since the depth of the first tree is what decreases.
ghost use Rattle.std.specs.Prelude.{◌≡◌, ◌==◌, ◌&&◌, [], ◌∷◌, ◌++◌, map, OnOk};
ghost use Rattle.flow_base.specs.declared.token.Word.TheVariants as word;
ghost use Rattle.flow_base.specs.declared.token.Mark.TheVariants as mark;
ghost use Rattle.flow_base.specs.Syntax.{Let, Assign, Call, WaitSignal, WaitSignalFor, While, Continue, Deprecate};
ghost use Rattle.flow_base.specs.Shown.{shown_expr, shown_stmt, shown_braced, shown_branch, shown_otherwise, branches_of, shown_block};
ghost use Rattle.flow_syntax.specs.Print.{spaced, expression_words, end, in_braces, retry_words, statement_words, block_words, is_end, else_words, otherwise_words, branches_words};

use crate::print_expression::{arguments, expr};
use crate::printer::Printer;
use flow_base::syntax::{Block, Branch, Expr, Retry, Stmt};
use flow_base::text::Key;
use flow_base::token::Mark;
use std::alloc::AllocError;

fn let_statement(out: &mut Printer, name: &Key, value: &Expr) -> Result<(), AllocError>
    ensures { OnOk result (out.new ≡ out.old ++ spaced (statement_words (Let 0 0 name.now (shown_expr value.now)))) }
{
    out.mark(Mark::Let)?;
    assign(out, name, value)?;
    Ok(())
}

fn assign(out: &mut Printer, name: &Key, value: &Expr) -> Result<(), AllocError>
    ensures { OnOk result (out.new ≡ out.old ++ spaced (statement_words (Assign 0 name.now (shown_expr value.now)))) }
{
    out.name(name)?;
    out.mark(Mark::Assign)?;
    expr(out, value)?;
    out.mark(Mark::Semicolon)?;
    Ok(())
}

/// Whether a call with no `retry` is tried as often.
fn is_once(often: Retry) -> bool
    ensures { result ≡ (often.tries == 1) && (often.every == 0) }
{
    often.tries == 1 && often.every == 0
}

/// How often a call is tried, which is left out where a call with no `retry` is tried as often.
fn retry(out: &mut Printer, often: Retry) -> Result<(), AllocError>
    ensures { OnOk result (out.new ≡ out.old ++ spaced (retry_words often)) }
{
    if is_once(often) {
        return Ok(());
    }
    out.mark(Mark::Retry)?;
    out.count(often.tries)?;
    out.mark(Mark::Every)?;
    out.count(often.every)?;
    Ok(())
}

/// A wait without what is behind its signal.
fn wait_head(out: &mut Printer, into: &Key, signal: &Key) -> Result<(), AllocError>
    ensures { OnOk result (out.new ≡ out.old ++ spaced
        (word.Name into.now ∷ word.Mark mark.Assign ∷ word.Mark mark.Wait ∷ word.Mark mark.Signal ∷ word.Name signal.now ∷ [])) }
{
    out.name(into)?;
    out.mark(Mark::Assign)?;
    out.mark(Mark::Wait)?;
    out.mark(Mark::Signal)?;
    out.name(signal)?;
    Ok(())
}

fn wait(out: &mut Printer, into: &Key, signal: &Key) -> Result<(), AllocError>
    ensures { OnOk result (out.new ≡ out.old ++ spaced (statement_words (WaitSignal 0 into.now 0 signal.now))) }
{
    wait_head(out, into, signal)?;
    out.mark(Mark::Semicolon)?;
    Ok(())
}

/// A keyword and the expression behind it.
fn keyword_head(out: &mut Printer, keyword: Mark, value: &Expr) -> Result<(), AllocError>
    ensures { OnOk result (out.new ≡ out.old ++ spaced (word.Mark keyword ∷ expression_words (shown_expr value.now))) }
{
    out.mark(keyword)?;
    expr(out, value)?;
    Ok(())
}

/// A statement of a keyword and an expression.
fn keyword_statement(out: &mut Printer, keyword: Mark, value: &Expr) -> Result<(), AllocError>
    ensures { OnOk result (out.new ≡ out.old ++ spaced (word.Mark keyword ∷ (expression_words (shown_expr value.now) ++ end))) }
{
    keyword_head(out, keyword, value)?;
    out.mark(Mark::Semicolon)?;
    Ok(())
}

fn continue_as_new(out: &mut Printer, list: &[Expr]) -> Result<(), AllocError>
    ensures { OnOk result (out.new ≡ out.old ++ spaced (statement_words (Continue 0 (map shown_expr list.now)))) }
{
    out.mark(Mark::Continue)?;
    out.mark(Mark::As)?;
    out.mark(Mark::New)?;
    arguments(out, list)?;
    out.mark(Mark::Semicolon)?;
    Ok(())
}

/// A patch without its lists.
fn patch_head(out: &mut Printer, id: &Key) -> Result<(), AllocError>
    ensures { OnOk result (out.new ≡ out.old ++ spaced (word.Mark mark.Patch ∷ word.Text id.now ∷ [])) }
{
    out.mark(Mark::Patch)?;
    out.quoted(id.as_str())?;
    Ok(())
}

fn deprecate(out: &mut Printer, id: &Key) -> Result<(), AllocError>
    ensures { OnOk result (out.new ≡ out.old ++ spaced (statement_words (Deprecate 0 0 id.now))) }
{
    out.deprecate()?;
    out.quoted(id.as_str())?;
    out.mark(Mark::Semicolon)?;
    Ok(())
}

/// What is before the branches.
fn parallel_head(out: &mut Printer) -> Result<(), AllocError>
    ensures { OnOk result (out.new ≡ out.old ++ spaced (word.Mark mark.Parallel ∷ word.Mark mark.BraceOpen ∷ [])) }
{
    out.mark(Mark::Parallel)?;
    out.mark(Mark::BraceOpen)?;
    Ok(())
}

/// The list behind an `else`.
#[cycle(statement)]
fn else_block(out: &mut Printer, list: &Block) -> Result<(), AllocError>
    ensures { OnOk result (out.new ≡ out.old ++ spaced (word.Mark mark.Else ∷ in_braces (block_words (shown_braced list.now).0))) }
{
    out.mark(Mark::Else)?;
    block(out, list)?;
    Ok(())
}

fn is_empty(list: &Block) -> bool
    ensures { result ≡ is_end (shown_braced list.now).0 }
{
    has_none(list.list.as_slice())
}

fn has_none(list: &[Stmt]) -> bool
    ensures { result ≡ is_end (shown_block list.now) }
{
    list.len() == 0
}

/// The second list of `if` and `patch`, which is left out where it is empty.
#[cycle(statement)]
fn second(out: &mut Printer, list: &Block) -> Result<(), AllocError>
    ensures { OnOk result (out.new ≡ out.old ++ spaced (else_words (shown_braced list.now).0)) }
{
    if is_empty(list) {
        return Ok(());
    }
    else_block(out, list)?;
    Ok(())
}

#[cycle(statement)]
fn while_statement(out: &mut Printer, body: &Block, condition: &Expr) -> Result<(), AllocError>
    ensures { OnOk result (out.new ≡ out.old ++ spaced (statement_words (While 0 (shown_expr condition.now) (shown_braced body.now).0 0))) }
{
    keyword_head(out, Mark::While, condition)?;
    block(out, body)?;
    Ok(())
}

/// What a call does where its activity fails: a missing list is left out, an empty one isn't.
#[cycle(statement)]
fn otherwise(out: &mut Printer, failing: &Option<Block>) -> Result<(), AllocError>
    ensures { OnOk result (out.new ≡ out.old ++ spaced (otherwise_words (shown_otherwise failing.now))) }
{
    match failing {
        None => Ok(()),
        Some(list) => else_block(out, list),
    }
}

#[cycle(statement)]
fn call(
    out: &mut Printer,
    failing: &Option<Block>,
    into: &Key,
    activity: &Key,
    list: &[Expr],
    often: Retry,
) -> Result<(), AllocError>
    ensures { OnOk result (out.new ≡ out.old ++ spaced
        (statement_words (Call 0 into.now 0 activity.now (map shown_expr list.now) often (shown_otherwise failing.now)))) }
{
    out.name(into)?;
    out.mark(Mark::Assign)?;
    out.mark(Mark::Call)?;
    out.name(activity)?;
    arguments(out, list)?;
    retry(out, often)?;
    otherwise(out, failing)?;
    out.mark(Mark::Semicolon)?;
    Ok(())
}

/// A wait for at most a delay.
#[cycle(statement)]
fn wait_for(
    out: &mut Printer,
    late: &Block,
    into: &Key,
    signal: &Key,
    delay: &Expr,
) -> Result<(), AllocError>
    ensures { OnOk result (out.new ≡ out.old ++ spaced
        (statement_words (WaitSignalFor 0 into.now 0 signal.now (shown_expr delay.now) (shown_braced late.now).0 0))) }
{
    wait_head(out, into, signal)?;
    out.mark(Mark::For)?;
    expr(out, delay)?;
    else_block(out, late)?;
    out.mark(Mark::Semicolon)?;
    Ok(())
}

#[cycle(statement)]
fn branch(out: &mut Printer, one: &Branch) -> Result<(), AllocError>
    ensures { OnOk result (out.new ≡ out.old ++ spaced (in_braces (block_words (shown_branch one.now).1.0))) }
{
    block(out, &one.body)
}

#[cycle(statement)]
fn branches(out: &mut Printer, list: &[Branch]) -> Result<(), AllocError>
    ensures { OnOk result (out.new ≡ out.old ++ spaced (branches_words (branches_of (map shown_branch list.now)))) }
{
    for next in list {
        branch(out, next)?;
    }
    Ok(())
}

#[cycle(statement)]
fn statement(out: &mut Printer, stmt: &Stmt) -> Result<(), AllocError>
    ensures { OnOk result (out.new ≡ out.old ++ spaced (statement_words (shown_stmt stmt.now))) }
{
    match stmt {
        Stmt::Let(_, _, name, value) => let_statement(out, name, value),
        Stmt::Assign(_, name, value) => assign(out, name, value),
        Stmt::Call(_, into, _, activity, list, often, failing) => {
            call(out, failing, into, activity, list, *often)
        }
        Stmt::WaitSignal(_, into, _, signal) => wait(out, into, signal),
        Stmt::WaitSignalFor(_, into, _, signal, delay, late) => {
            wait_for(out, late, into, signal, delay)
        }
        Stmt::Sleep(_, delay) => keyword_statement(out, Mark::Sleep, delay),
        Stmt::If(_, condition, first, other) => {
            keyword_head(out, Mark::If, condition)?;
            block(out, first)?;
            second(out, other)?;
            Ok(())
        }
        Stmt::While(_, condition, body) => while_statement(out, body, condition),
        Stmt::Parallel(_, first, others, _) => {
            parallel_head(out)?;
            branch(out, first)?;
            branches(out, others)?;
            out.mark(Mark::BraceClose)?;
            Ok(())
        }
        Stmt::Patch(_, _, id, first, other) => {
            patch_head(out, id)?;
            block(out, first)?;
            second(out, other)?;
            Ok(())
        }
        Stmt::Deprecate(_, _, id) => deprecate(out, id),
        Stmt::Return(_, value) => keyword_statement(out, Mark::Return, value),
        Stmt::FailWith(_, value) => keyword_statement(out, Mark::Fail, value),
        Stmt::Continue(_, list) => continue_as_new(out, list),
    }
}

/// Prints statements, one behind the other.
#[cycle(statement)]
pub fn statements(out: &mut Printer, list: &[Stmt]) -> Result<(), AllocError>
    ensures { OnOk result (out.new ≡ out.old ++ spaced (block_words (shown_block list.now))) }
{
    for stmt in list {
        statement(out, stmt)?;
    }
    Ok(())
}

/// The statements of a list.
#[cycle(statement)]
fn inside(out: &mut Printer, list: &Block) -> Result<(), AllocError>
    ensures { OnOk result (out.new ≡ out.old ++ spaced (block_words (shown_braced list.now).0)) }
{
    statements(out, list.list.as_slice())
}

#[cycle(statement)]
fn block(out: &mut Printer, list: &Block) -> Result<(), AllocError>
    ensures { OnOk result (out.new ≡ out.old ++ spaced (in_braces (block_words (shown_braced list.now).0))) }
{
    out.mark(Mark::BraceOpen)?;
    inside(out, list)?;
    out.mark(Mark::BraceClose)?;
    Ok(())
}
