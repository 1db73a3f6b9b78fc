//! Statements, each kind by a function behind its first token.
ghost use Rattle.std.specs.Prelude.{◌≡◌, ℕ, false, [], ◌∷◌, ◌<◌, ◌≤◌, length, map, IfOk, IfErr};
ghost use Rattle.flow_base.specs.Shown.{shown_expr, shown_stmt, shown_block, shown_braced, shown_branch, branches_of, shown_otherwise};
ghost use Rattle.flow_base.specs.Syntax as tree;
ghost use Rattle.flow_model.specs.Lexeme.{lexemes};
ghost use Rattle.flow_model.specs.Grammar.{marked, named, deprecate_name, else_tail_tokens, otherwise_of, wait_tail_tokens, wait_of, side_tokens, side_of, branches_tokens, statement_tokens, statement_of, statements_tokens};
ghost use Rattle.flow_syntax.specs.Machine as m;
ghost use Rattle.flow_syntax.specs.Parsing.{Parsed, StopsAt, StopsOwing, Lacks, LacksMark, BeginsText, begins_deprecate, IsTried, IsCalled, IsTarget, IsBlock, IsChoice, IsMember, in_braces, end_of, shut_of};

use crate::cursor::{deprecate, eat, expect, mark, name, number, patch_id};
use crate::expression::{arguments, expr};
use crate::fault::Stop;
use flow_base::syntax::{Block, Branch, Expr, Retry, Stmt};
use flow_base::text::Key;
use flow_base::token::{Mark, Token};
use std::alloc::{AllocError, Global};
use std::sync::Arc;

/// A statement, and the tokens that follow it.
type ReadStatement<'a> = Result<(Stmt, &'a [Token]), Stop>;

/// A `let`, behind its keyword, which stands at this place.
fn let_statement(alloc: Global, at: usize, tokens: &[Token]) -> ReadStatement<'_>
    ensures ok { IfOk result (λ x. Parsed m.statement statement_tokens statement_of (marked at Mark.Let ∷ lexemes tokens.now)
        (shown_stmt x.0) (lexemes x.1.now)) }
    ensures shorter { IfOk result (λ x. length x.1.now < length tokens.now) }
    ensures err { IfErr result (λ e. StopsAt m.statement (marked at Mark.Let ∷ lexemes tokens.now) e) }
{
    let (name_at, name, after_name) = name(alloc, tokens)?;
    let (_, right) = expect(after_name, Mark::Assign)?;
    let (value, after) = expr(alloc, right)?;
    let (_, end) = expect(after, Mark::Semicolon)?;
    Ok((Stmt::Let(at, name_at, name, value), end))
}

/// A `sleep`, behind its keyword, which stands at this place.
fn sleep_statement(alloc: Global, at: usize, tokens: &[Token]) -> ReadStatement<'_>
    ensures ok { IfOk result (λ x. Parsed m.statement statement_tokens statement_of (marked at Mark.Sleep ∷ lexemes tokens.now)
        (shown_stmt x.0) (lexemes x.1.now)) }
    ensures shorter { IfOk result (λ x. length x.1.now < length tokens.now) }
    ensures err { IfErr result (λ e. StopsAt m.statement (marked at Mark.Sleep ∷ lexemes tokens.now) e) }
{
    let (delay, after) = expr(alloc, tokens)?;
    let (_, end) = expect(after, Mark::Semicolon)?;
    Ok((Stmt::Sleep(at, delay), end))
}

/// A `deprecate`, behind the name that it begins with, which stands at this place.
fn deprecate_statement(alloc: Global, at: usize, tokens: &[Token]) -> ReadStatement<'_>
    requires { BeginsText (lexemes tokens.now) }
    ensures ok { IfOk result (λ x. Parsed m.statement statement_tokens statement_of (named at deprecate_name ∷ lexemes tokens.now)
        (shown_stmt x.0) (lexemes x.1.now)) }
    ensures shorter { IfOk result (λ x. length x.1.now < length tokens.now) }
    ensures err { IfErr result (λ e. StopsAt m.statement (named at deprecate_name ∷ lexemes tokens.now) e) }
{
    let (id_at, id, after_id) = patch_id(alloc, tokens)?;
    let (_, end) = expect(after_id, Mark::Semicolon)?;
    Ok((Stmt::Deprecate(at, id_at, id), end))
}

/// A `return`, behind its keyword, which stands at this place.
fn return_statement(alloc: Global, at: usize, tokens: &[Token]) -> ReadStatement<'_>
    ensures ok { IfOk result (λ x. Parsed m.statement statement_tokens statement_of (marked at Mark.Return ∷ lexemes tokens.now)
        (shown_stmt x.0) (lexemes x.1.now)) }
    ensures shorter { IfOk result (λ x. length x.1.now < length tokens.now) }
    ensures err { IfErr result (λ e. StopsAt m.statement (marked at Mark.Return ∷ lexemes tokens.now) e) }
{
    let (value, after) = expr(alloc, tokens)?;
    let (_, end) = expect(after, Mark::Semicolon)?;
    Ok((Stmt::Return(at, value), end))
}

/// A `fail`, behind its keyword, which stands at this place.
fn fail_statement(alloc: Global, at: usize, tokens: &[Token]) -> ReadStatement<'_>
    ensures ok { IfOk result (λ x. Parsed m.statement statement_tokens statement_of (marked at Mark.Fail ∷ lexemes tokens.now)
        (shown_stmt x.0) (lexemes x.1.now)) }
    ensures shorter { IfOk result (λ x. length x.1.now < length tokens.now) }
    ensures err { IfErr result (λ e. StopsAt m.statement (marked at Mark.Fail ∷ lexemes tokens.now) e) }
{
    let (value, after) = expr(alloc, tokens)?;
    let (_, end) = expect(after, Mark::Semicolon)?;
    Ok((Stmt::FailWith(at, value), end))
}

/// A `continue as new`, behind its first keyword, which stands at this place.
fn continue_statement(alloc: Global, at: usize, tokens: &[Token]) -> ReadStatement<'_>
    ensures ok { IfOk result (λ x. Parsed m.statement statement_tokens statement_of (marked at Mark.Continue ∷ lexemes tokens.now)
        (shown_stmt x.0) (lexemes x.1.now)) }
    ensures shorter { IfOk result (λ x. length x.1.now < length tokens.now) }
    ensures err { IfErr result (λ e. StopsAt m.statement (marked at Mark.Continue ∷ lexemes tokens.now) e) }
{
    let (_, after_as) = expect(tokens, Mark::As)?;
    let (_, after_new) = expect(after_as, Mark::New)?;
    let (_, after_open) = expect(after_new, Mark::Open)?;
    let (list, after) = arguments(alloc, after_open)?;
    let (_, end) = expect(after, Mark::Semicolon)?;
    Ok((Stmt::Continue(at, list), end))
}

/// A `retry`, behind its keyword.
fn retry(tokens: &[Token]) -> Result<(Retry, &[Token]), Stop>
    ensures ok { IfOk result (λ x. (at : ℕ) → IsTried (marked at Mark.Retry ∷ lexemes tokens.now) x.0 (lexemes x.1.now)) }
    ensures shorter { IfOk result (λ x. length x.1.now < length tokens.now) }
    ensures err { IfErr result (λ e. (at : ℕ) → StopsAt m.call_tail (marked at Mark.Retry ∷ lexemes tokens.now) e) }
{
    let (tries_at, tries, after_tries) = number(tokens)?;
    let (_, after_every) = expect(after_tries, Mark::Every)?;
    let (every_at, every, end) = number(after_every)?;
    let retry = Retry {
        tries_at,
        tries,
        every_at,
        every,
    };
    Ok((retry, end))
}

/// How often a call is tried, behind its arguments: once where nothing is said of it.
fn tried(tokens: &[Token]) -> Result<(Retry, &[Token]), Stop>
    ensures ok { IfOk result (λ x. IsTried (lexemes tokens.now) x.0 (lexemes x.1.now)) }
    ensures shorter { IfOk result (λ x. length x.1.now ≤ length tokens.now) }
    ensures err { IfErr result (λ e. StopsAt m.call_tail (lexemes tokens.now) e) }
{
    if let Some((_, after_retry)) = eat(tokens, Mark::Retry) {
        return retry(after_retry);
    }
    Ok((Retry::once(), tokens))
}

/// A call behind its keyword, up to its `else`: the place of the activity, the activity, its arguments, and how often it
/// is tried.
fn called(alloc: Global, tokens: &[Token]) -> Result<(usize, Key, Vec<Expr>, Retry, &[Token]), Stop>
    ensures ok { IfOk result (λ x. (at : ℕ) (into : tree.Bytes) (call_at : ℕ)
        → IsCalled at into (marked call_at Mark.Call ∷ lexemes tokens.now) x.0 x.1 (map shown_expr x.2.items) x.3 (lexemes x.4.now)) }
    ensures shorter { IfOk result (λ x. length x.4.now < length tokens.now) }
    ensures err { IfErr result (λ e. (call_at : ℕ) → StopsAt m.side (marked call_at Mark.Call ∷ lexemes tokens.now) e) }
{
    let (activity_at, activity, after_name) = name(alloc, tokens)?;
    let (_, after_open) = expect(after_name, Mark::Open)?;
    let (list, after) = arguments(alloc, after_open)?;
    let (retry, end) = tried(after)?;
    Ok((activity_at, activity, list, retry, end))
}

/// The name that a statement begins with where no mark stands and no `deprecate`, with its place, and what follows its `=`.
fn target(alloc: Global, tokens: &[Token]) -> Result<(usize, Key, &[Token]), Stop>
    requires mark { LacksMark (lexemes tokens.now) }
    requires other { begins_deprecate (lexemes tokens.now) ≡ false }
    ensures ok { IfOk result (λ x. IsTarget (lexemes tokens.now) x.0 x.1 (lexemes x.2.now)) }
    ensures shorter { IfOk result (λ x. length x.2.now < length tokens.now) }
    ensures err { IfErr result (λ e. StopsAt m.statement (lexemes tokens.now) e) }
{
    let (at, into, after_name) = name(alloc, tokens)?;
    let (_, right) = expect(after_name, Mark::Assign)?;
    Ok((at, into, right))
}

/// The second list of `if` and `patch` where none stands: an empty one, which ends where the first does.
fn no_second(alloc: Global, first: &Block) -> Result<Block, AllocError>
    ensures { IfOk result (λ b. shown_braced b ≡ (tree.End, (shown_braced first.now).1)) }
{
    let list = Arc::new(alloc, Vec::new(alloc))?;
    Ok(Block {
        list,
        end: first.end,
    })
}

/// Statements between braces.
fn braced(list: Arc<Vec<Stmt>>, end: usize) -> Block
    ensures { shown_braced result ≡ (shown_block list.value.items, end) }
{
    Block { list, end }
}

/// Branches of which this is the first, up to the brace at this end.
fn in_parallel(at: usize, first_at: usize, body: Block, others: Vec<Branch>, end: usize) -> Stmt
    ensures { shown_stmt result ≡ tree.Parallel at
        (tree.Branch first_at (shown_braced body).0 (shown_braced body).1 (branches_of (map shown_branch others.items))) end }
{
    let first = one_branch(first_at, body);
    Stmt::Parallel(at, first, others, end)
}

/// A branch whose first brace stands at this place.
fn one_branch(at: usize, body: Block) -> Branch
    ensures { shown_branch result ≡ (at, shown_braced body) }
{
    Branch { at, body }
}

/// A list in braces, the place of its first brace, and what follows it.
#[cycle(statement)]
fn block(alloc: Global, tokens: &[Token]) -> Result<(usize, Block, &[Token]), Stop>
    ensures ok { IfOk result (λ x. IsBlock (lexemes tokens.now) x.0 (shown_braced x.1) (lexemes x.2.now)) }
    ensures shorter { IfOk result (λ x. length x.2.now < length tokens.now) }
    ensures err { IfErr result (λ e. StopsOwing in_braces (lexemes tokens.now) e) }
{
    let (at, inside) = expect(tokens, Mark::BraceOpen)?;
    let (list, end, after) = statements(alloc, inside)?;
    Ok((at, braced(list, end), after))
}

/// What is done where a call fails for good, if the call says so, and what follows its `;`.
#[cycle(statement)]
fn else_tail(alloc: Global, tokens: &[Token]) -> Result<(Option<Block>, &[Token]), Stop>
    ensures ok { IfOk result (λ x. Parsed m.else_tail else_tail_tokens otherwise_of (lexemes tokens.now) (shown_otherwise x.0)
        (lexemes x.1.now)) }
    ensures shorter { IfOk result (λ x. length x.1.now < length tokens.now) }
    ensures err { IfErr result (λ e. StopsAt m.else_tail (lexemes tokens.now) e) }
{
    let Some((_, after_else)) = eat(tokens, Mark::Else) else {
        let (_, end) = expect(tokens, Mark::Semicolon)?;
        return Ok((None, end));
    };
    let (_, failing, after) = block(alloc, after_else)?;
    let (_, end_behind) = expect(after, Mark::Semicolon)?;
    Ok((Some(failing), end_behind))
}

/// A wait for this signal into this variable, behind the signal's name.
#[cycle(statement)]
fn wait_tail(
    alloc: Global,
    at: usize,
    into: Key,
    signal_at: usize,
    signal: Key,
    tokens: &[Token],
) -> ReadStatement<'_>
    ensures ok { IfOk result (λ x. Parsed m.wait_tail wait_tail_tokens (wait_of at into signal_at signal) (lexemes tokens.now)
        (shown_stmt x.0) (lexemes x.1.now)) }
    ensures shorter { IfOk result (λ x. length x.1.now < length tokens.now) }
    ensures err { IfErr result (λ e. StopsAt m.wait_tail (lexemes tokens.now) e) }
{
    let Some((_, after_for)) = eat(tokens, Mark::For) else {
        let (_, end) = expect(tokens, Mark::Semicolon)?;
        return Ok((Stmt::WaitSignal(at, into, signal_at, signal), end));
    };
    let (delay, after_delay) = expr(alloc, after_for)?;
    let (_, after_else) = expect(after_delay, Mark::Else)?;
    let (_, late, after) = block(alloc, after_else)?;
    let (_, end_behind) = expect(after, Mark::Semicolon)?;
    Ok((
        Stmt::WaitSignalFor(at, into, signal_at, signal, delay, late),
        end_behind,
    ))
}

/// A call into this variable, behind its keyword.
#[cycle(statement)]
fn call_statement(alloc: Global, at: usize, into: Key, tokens: &[Token]) -> ReadStatement<'_>
    ensures ok { IfOk result (λ x. (call_at : ℕ) → Parsed m.side side_tokens (side_of at into)
        (marked call_at Mark.Call ∷ lexemes tokens.now) (shown_stmt x.0) (lexemes x.1.now)) }
    ensures shorter { IfOk result (λ x. length x.1.now < length tokens.now) }
    ensures err { IfErr result (λ e. (call_at : ℕ) → StopsAt m.side (marked call_at Mark.Call ∷ lexemes tokens.now) e) }
{
    let (activity_at, activity, list, retry, after) = called(alloc, tokens)?;
    let (failing, end) = else_tail(alloc, after)?;
    Ok((
        Stmt::Call(at, into, activity_at, activity, list, retry, failing),
        end,
    ))
}

/// A wait for a signal into this variable, behind its keyword.
#[cycle(statement)]
fn wait_statement(alloc: Global, at: usize, into: Key, tokens: &[Token]) -> ReadStatement<'_>
    ensures ok { IfOk result (λ x. (wait_at : ℕ) → Parsed m.side side_tokens (side_of at into)
        (marked wait_at Mark.Wait ∷ lexemes tokens.now) (shown_stmt x.0) (lexemes x.1.now)) }
    ensures shorter { IfOk result (λ x. length x.1.now < length tokens.now) }
    ensures err { IfErr result (λ e. (wait_at : ℕ) → StopsAt m.side (marked wait_at Mark.Wait ∷ lexemes tokens.now) e) }
{
    let (_, after_signal) = expect(tokens, Mark::Signal)?;
    let (signal_at, signal, after_name) = name(alloc, after_signal)?;
    wait_tail(alloc, at, into, signal_at, signal, after_name)
}

/// What follows `NAME =` in a statement that begins so.
#[cycle(statement)]
fn right_side(alloc: Global, at: usize, into: Key, tokens: &[Token]) -> ReadStatement<'_>
    ensures ok { IfOk result (λ x. Parsed m.side side_tokens (side_of at into) (lexemes tokens.now) (shown_stmt x.0) (lexemes x.1.now)) }
    ensures shorter { IfOk result (λ x. length x.1.now < length tokens.now) }
    ensures err { IfErr result (λ e. StopsAt m.side (lexemes tokens.now) e) }
{
    if let Some((_, after_call)) = eat(tokens, Mark::Call) {
        return call_statement(alloc, at, into, after_call);
    }
    if let Some((_, after_wait)) = eat(tokens, Mark::Wait) {
        return wait_statement(alloc, at, into, after_wait);
    }
    let (value, after) = expr(alloc, tokens)?;
    let (_, end) = expect(after, Mark::Semicolon)?;
    Ok((Stmt::Assign(at, into, value), end))
}

/// A `while`, behind its keyword, which stands at this place.
#[cycle(statement)]
fn while_statement(alloc: Global, at: usize, tokens: &[Token]) -> ReadStatement<'_>
    ensures ok { IfOk result (λ x. Parsed m.statement statement_tokens statement_of (marked at Mark.While ∷ lexemes tokens.now)
        (shown_stmt x.0) (lexemes x.1.now)) }
    ensures shorter { IfOk result (λ x. length x.1.now < length tokens.now) }
    ensures err { IfErr result (λ e. StopsAt m.statement (marked at Mark.While ∷ lexemes tokens.now) e) }
{
    let (condition, after) = expr(alloc, tokens)?;
    let (_, body, end) = block(alloc, after)?;
    Ok((Stmt::While(at, condition, body), end))
}

/// The branches behind the first one, the place of the brace that closes them, and what follows it.
#[cycle(statement)]
fn branches(alloc: Global, tokens: &[Token]) -> Result<(Vec<Branch>, usize, &[Token]), Stop>
    ensures ok { IfOk result (λ x. Parsed m.more_branches branches_tokens shut_of (lexemes tokens.now)
        (branches_of (map shown_branch x.0.items), x.1) (lexemes x.2.now)) }
    ensures shorter { IfOk result (λ x. length x.2.now < length tokens.now) }
    ensures err { IfErr result (λ e. StopsAt m.more_branches (lexemes tokens.now) e) }
{
    let mut list = Vec::new(alloc);
    let mut rest = tokens;
    loop {
        if let Some((shut_at, end)) = eat(rest, Mark::BraceClose) {
            return Ok((list, shut_at, end));
        }
        let (at, body, next) = block(alloc, rest)?;
        list.push(one_branch(at, body))?;
        rest = next;
    }
}

/// A `parallel`, behind its keyword, which stands at this place.
#[cycle(statement)]
fn parallel_statement(alloc: Global, at: usize, tokens: &[Token]) -> ReadStatement<'_>
    ensures ok { IfOk result (λ x. Parsed m.statement statement_tokens statement_of (marked at Mark.Parallel ∷ lexemes tokens.now)
        (shown_stmt x.0) (lexemes x.1.now)) }
    ensures shorter { IfOk result (λ x. length x.1.now < length tokens.now) }
    ensures err { IfErr result (λ e. StopsAt m.statement (marked at Mark.Parallel ∷ lexemes tokens.now) e) }
{
    let (_, inside) = expect(tokens, Mark::BraceOpen)?;
    let (first_at, body, after) = block(alloc, inside)?;
    let (others, shut_at, end) = branches(alloc, after)?;
    Ok((in_parallel(at, first_at, body, others, shut_at), end))
}

/// A statement but `if` and `patch`.
#[cycle(statement)]
fn statement(alloc: Global, tokens: &[Token]) -> ReadStatement<'_>
    ensures ok { IfOk result (λ x. Parsed m.statement statement_tokens statement_of (lexemes tokens.now) (shown_stmt x.0)
        (lexemes x.1.now)) }
    ensures shorter { IfOk result (λ x. length x.1.now < length tokens.now) }
    ensures err { IfErr result (λ e. StopsAt m.statement (lexemes tokens.now) e) }
{
    let Some((at, keyword, rest)) = mark(tokens) else {
        if let Some((deprecate_at, after_name)) = deprecate(tokens) {
            return deprecate_statement(alloc, deprecate_at, after_name);
        }
        let (name_at, into, right) = target(alloc, tokens)?;
        return right_side(alloc, name_at, into, right);
    };
    match keyword {
        Mark::Let => let_statement(alloc, at, rest),
        Mark::Sleep => sleep_statement(alloc, at, rest),
        Mark::While => while_statement(alloc, at, rest),
        Mark::Parallel => parallel_statement(alloc, at, rest),
        Mark::Return => return_statement(alloc, at, rest),
        Mark::Fail => fail_statement(alloc, at, rest),
        Mark::Continue => continue_statement(alloc, at, rest),
        _ => Err(Stop::Unexpected(tokens.len())),
    }
}

/// The list of an `if` or a `patch`, and the one behind its `else`.
#[cycle(statement)]
fn choice(alloc: Global, tokens: &[Token]) -> Result<(Block, Block, &[Token]), Stop>
    ensures ok { IfOk result (λ x. IsChoice (lexemes tokens.now) (shown_braced x.0) (shown_braced x.1) (lexemes x.2.now)) }
    ensures shorter { IfOk result (λ x. length x.2.now < length tokens.now) }
    ensures err { IfErr result (λ e. StopsOwing (m.sign Mark.BraceOpen ∷ m.statements ∷ m.after_choice ∷ []) (lexemes tokens.now) e) }
{
    let (_, first, after) = block(alloc, tokens)?;
    let Some((_, after_else)) = eat(after, Mark::Else) else {
        let none = no_second(alloc, &first)?;
        return Ok((first, none, after));
    };
    let (_, second, end) = block(alloc, after_else)?;
    Ok((first, second, end))
}

/// A statement of a list. `if` and `patch` are read with what follows them, since they may have no `else`.
#[cycle(statement)]
fn member(alloc: Global, tokens: &[Token]) -> ReadStatement<'_>
    requires { Lacks Mark.BraceClose (lexemes tokens.now) }
    ensures ok { IfOk result (λ x. IsMember (lexemes tokens.now) (shown_stmt x.0) (lexemes x.1.now)) }
    ensures shorter { IfOk result (λ x. length x.1.now < length tokens.now) }
    ensures err { IfErr result (λ e. StopsAt m.statements (lexemes tokens.now) e) }
{
    if let Some((at, after_if)) = eat(tokens, Mark::If) {
        let (condition, after) = expr(alloc, after_if)?;
        let (first, second, end) = choice(alloc, after)?;
        return Ok((Stmt::If(at, condition, first, second), end));
    }
    if let Some((patch_at, after_patch)) = eat(tokens, Mark::Patch) {
        let (id_at, id, after_id) = patch_id(alloc, after_patch)?;
        let (since, before, patch_end) = choice(alloc, after_id)?;
        return Ok((Stmt::Patch(patch_at, id_at, id, since, before), patch_end));
    }
    statement(alloc, tokens)
}

/// Statements up to the brace that closes their list, its place, and what follows it.
#[cycle(statement)]
pub fn statements(
    alloc: Global,
    tokens: &[Token],
) -> Result<(Arc<Vec<Stmt>>, usize, &[Token]), Stop>
    ensures ok { IfOk result (λ x. Parsed m.statements statements_tokens end_of (lexemes tokens.now) (shown_block x.0.value.items, x.1)
        (lexemes x.2.now)) }
    ensures shorter { IfOk result (λ x. length x.2.now < length tokens.now) }
    ensures err { IfErr result (λ e. StopsAt m.statements (lexemes tokens.now) e) }
{
    let mut list = Vec::new(alloc);
    let mut rest = tokens;
    loop {
        if let Some((at, end)) = eat(rest, Mark::BraceClose) {
            return Ok((Arc::new(alloc, list)?, at, end));
        }
        let (stmt, next) = member(alloc, rest)?;
        list.push(stmt)?;
        rest = next;
    }
}
