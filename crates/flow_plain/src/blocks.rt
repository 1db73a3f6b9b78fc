ghost use Rattle.std.specs.Prelude.{◌≡◌, ◌∷◌, IfOk, map};
ghost use Rattle.flow_base.specs.Syntax.{If as AIf, While as AWhile, Patch as APatch, Deprecate as ADeprecate, End};
ghost use Rattle.flow_base.specs.Shown.{shown_expr, shown_braced, shown_branch, branches_of};
ghost use Rattle.flow_model.specs.Rest as tree;
ghost use Rattle.flow_model.specs.Step as model;
ghost use Rattle.flow_plain.specs.Shown.{shown_rest, shown_store, shown_move, shown_begun, Begins, Starts};
ghost use Rattle.flow_run.specs.Shown.{shown_setting};

use crate::rest::{Rest, entered};
use crate::step::{Begun, Moved, Store};
use flow_base::event::{Cause, Cmd};
use flow_base::syntax::{Block, Branch, Expr};
use flow_base::text::Key;
use flow_run::setting::{Setting, is_answered, raise};
use flow_values::evaluate::{eval, truth};
use flow_values::fault::EvalFault;
use std::alloc::{AllocError, Global};
use std::sync::Arc;

/// `if`: the list that the condition picks begins.
pub fn pick(
    alloc: Global,
    s: &Setting,
    t: &Store,
    e: &Expr,
    a: &Block,
    b: &Block,
) -> Result<Moved, EvalFault>
    ensures step { IfOk result (λ m. shown_move t.now m ≡ model.begin (shown_setting s.now) (shown_store t.now)
        (AIf 0 (shown_expr e.now) (shown_braced a.now).0 0 (shown_braced b.now).0 0)) }
    ensures kept { IfOk result (λ m. Begins t.now t.now m) }
{
    match eval(alloc, &t.variables, s.at, e)? {
        Ok(v) => Ok(Moved::Goes(picked(alloc, truth(&v), a, b)?)),
        Err(c) => Ok(Moved::Ends(raise(alloc, c))),
    }
}

fn picked(alloc: Global, is_first: bool, a: &Block, b: &Block) -> Result<Rest, AllocError>
    ensures { IfOk result (λ r. shown_rest r ≡ model.picked is_first (shown_braced a.now).0 (shown_braced b.now).0) }
{
    if is_first {
        entered(alloc, a)
    } else {
        entered(alloc, b)
    }
}

/// `while`: its list begins where the condition holds. The test is counted, and one more than a turn may make fails the
/// run.
pub fn repeat(
    alloc: Global,
    s: &Setting,
    t: &mut Store,
    at: usize,
    e: &Expr,
    body: &Block,
) -> Result<Begun, EvalFault>
    ensures step { IfOk result (λ m. shown_begun (AWhile at (shown_expr e.now) (shown_braced body.now).0
        (shown_braced body.now).1) t.new m ≡ model.begin (shown_setting s.now) (shown_store t.old)
        (AWhile at (shown_expr e.now) (shown_braced body.now).0 (shown_braced body.now).1)) }
    ensures kept { IfOk result (λ m. Starts t.old t.new m) }
{
    if t.tests >= 10000 {
        return Ok(Begun::Moves(Moved::Ends(raise(alloc, Cause::TurnBudget))));
    }
    match eval(alloc, &t.variables, s.at, e)? {
        Ok(v) => {
            t.tests += 1;
            if truth(&v) {
                Ok(Begun::Repeats(entered(alloc, body)?))
            } else {
                Ok(Begun::Moves(Moved::Goes(Rest::Done)))
            }
        }
        Err(c) => Ok(Begun::Moves(Moved::Ends(raise(alloc, c)))),
    }
}

/// `patch`: a decided one takes the list that it took before, any other the first list where it is answered so. Only that
/// answer is recorded.
pub fn since_patch(
    alloc: Global,
    s: &Setting,
    t: &mut Store,
    id: &Key,
    a: &Block,
    b: &Block,
) -> Result<Moved, EvalFault>
    ensures step { IfOk result (λ m. shown_move t.new m ≡ model.begin (shown_setting s.now) (shown_store t.old)
        (APatch 0 0 id.now (shown_braced a.now).0 0 (shown_braced b.now).0 0)) }
    ensures kept { IfOk result (λ m. Begins t.old t.new m) }
{
    match t.decided.find(id) {
        Some(is_first) => Ok(Moved::Goes(picked(alloc, is_first, a, b)?)),
        None => {
            let answer = is_answered(s, id);
            let rest = picked(alloc, answer, a, b)?;
            t.decided.insert(alloc, id, answer)?;
            if answer {
                Ok(Moved::Asks(rest, Cmd::RecordMarker(id.copy(alloc)?)))
            } else {
                Ok(Moved::Goes(rest))
            }
        }
    }
}

/// `deprecate`: a patch with two empty lists.
pub fn deprecate(alloc: Global, s: &Setting, t: &mut Store, id: &Key) -> Result<Moved, EvalFault>
    ensures step { IfOk result (λ m. shown_move t.new m ≡ model.begin (shown_setting s.now) (shown_store t.old) (ADeprecate 0 0 id.now)) }
    ensures kept { IfOk result (λ m. Begins t.old t.new m) }
{
    let none = no_statements(alloc)?;
    let moved = since_patch(alloc, s, t, id, &none, &none)?;
    Ok(moved)
}

// A list of no statements.
fn no_statements(alloc: Global) -> Result<Block, AllocError>
    ensures { IfOk result (λ b. shown_braced b ≡ (End, 0)) }
{
    let list = Arc::new(alloc, Vec::new(alloc))?;
    Ok(Block { list, end: 0 })
}

/// `parallel`: its branches begin, each beside those after it.
pub fn side_by_side(alloc: Global, first: &Branch, others: &[Branch]) -> Result<Rest, AllocError>
    ensures { IfOk result (λ r. shown_rest r ≡ tree.branches_of (branches_of (shown_branch first.now ∷ map shown_branch others.now))) }
{
    let mut rest = Rest::Done;
    let mut i = others.len();
    while i > 0 {
        i -= 1;
        let here = entered(alloc, &others[i].body)?;
        rest = Rest::Beside(Box::new(alloc, here)?, Box::new(alloc, rest)?);
    }
    let here = entered(alloc, &first.body)?;
    Ok(Rest::Beside(Box::new(alloc, here)?, Box::new(alloc, rest)?))
}
