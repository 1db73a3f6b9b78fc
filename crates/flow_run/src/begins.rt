ghost use Rattle.std.specs.Prelude.{◌≡◌, ◌∷◌, IfOk, MatchOption, map, Option, [], false, nat_lt, if◌then◌else◌, OnOk};
ghost use Rattle.flow_base.specs.Syntax.{Let as ALet, Call as ACall, WaitSignal as AWaitSignal, WaitSignalFor as AWaitSignalFor, Sleep as ASleep, If as AIf, While as AWhile, Parallel as AParallel, Patch as APatch, Return as AReturn, FailWith as AFailWith, Continue as AContinue, Deprecate as ADeprecate, Now as ANow};
ghost use Rattle.flow_base.specs.Shown.{shown_stmt, shown_braced, shown_otherwise, shown_expr};
ghost use Rattle.flow_model.specs.Rest as tree;
ghost use Rattle.flow_model.specs.Step as model;
ghost use Rattle.flow_run.specs.Shown.{shown_store, shown_setting};
ghost use Rattle.flow_run.specs.Flat.{IsLinked, KeepsStore, late_at, shown_begun};
ghost use Rattle.flow_nodes.specs.Links.{block_at};

use crate::cell::{Doing, Late};
use crate::setting::{Setting, gives, is_answered, may_wait, raise, text_in};
use crate::store::{Store, set, take};
use flow_base::event::{Cause, Cmd};
use flow_base::number::Moment;
use flow_base::sequence::Sequence;
use flow_base::syntax::{Block, Expr, Retry, Stmt};
use flow_base::text::Key;
use flow_nodes::table::{Links, ProgramTable};
use flow_values::evaluate::{due, eval, eval_all, truth};
use flow_values::fault::EvalFault;
use std::alloc::Global;

/// What is to be done next of a task.
#[derive(Debug, Drop)]
pub enum Next {
    /// What follows the statement.
    Over,
    /// A list without statements.
    Nothing,
    /// A list of the table.
    Enters(usize),
    /// A list of the table, and then the statement again.
    Repeats(usize),
    /// It waits.
    Waits(Box<Doing>),
}

/// What a statement does that begins.
#[derive(Debug, Drop)]
pub enum Begun {
    Goes(Next),
    Asks(Next, Box<Cmd>),
    /// Its branches begin.
    Splits,
    Ends(Box<Cmd>),
}

/// A statement begins.
pub fn begin(
    alloc: Global,
    table: &ProgramTable,
    s: &Setting,
    t: &mut Store,
    stmt: &Stmt,
    links: &Links,
) -> Result<Begun, EvalFault>
    requires linked { IsLinked table.now.lists.items (shown_stmt stmt.now) links.now }
    ensures step { IfOk result (λ m. shown_begun table.now.lists.items (shown_stmt stmt.now) t.new m ≡ model.begin (shown_setting s.now)
        (shown_store t.old) (shown_stmt stmt.now)) }
    ensures kept { IfOk result (λ m. KeepsStore t.old t.new m) }
{
    match stmt {
        Stmt::Let(_, _, x, e) => assign(alloc, table, s, t, x, e),
        Stmt::Assign(_, x, e) => assign(alloc, table, s, t, x, e),
        Stmt::Call(_, x, _, a, es, r, o) => call(alloc, table, s, t, x, a, es, *r, o, links),
        Stmt::WaitSignal(_, x, _, name) => wait(alloc, table, s, t, x, name),
        Stmt::WaitSignalFor(_, x, _, name, e, late) => {
            wait_for(alloc, table, s, t, x, name, e, late, links.first)
        }
        Stmt::Sleep(_, e) => sleep(alloc, table, s, t, e),
        Stmt::If(_, e, a, b) => pick(alloc, table, s, t, e, a, b, links.first, links.second),
        Stmt::While(at, e, b) => repeat(alloc, table, s, t, *at, e, b, links.first),
        Stmt::Parallel(_, _, _, _) => Ok(Begun::Splits),
        Stmt::Patch(_, _, id, a, b) => {
            since_patch(alloc, table, s, t, id, a, b, links.first, links.second)
        }
        Stmt::Deprecate(_, _, id) => deprecate(alloc, table, s, t, id),
        Stmt::Return(_, e) => finish(alloc, table, s, t, e),
        Stmt::FailWith(_, e) => give_up(alloc, table, s, t, e),
        Stmt::Continue(_, es) => go_on_anew(alloc, table, s, t, es),
    }
}

// What a statement does that begins, or want of memory.
type Beginning = Result<Begun, EvalFault>;

// A wait in a box of its own.
fn boxed(alloc: Global, doing: Doing) -> Result<Box<Doing>, EvalFault>
    ensures { IfOk result (λ b. b.value ≡ doing) }
{
    let b = Box::new(alloc, doing)?;
    Ok(b)
}

// A fault fails the run.
fn raised(alloc: Global, cause: Cause) -> Result<Box<Cmd>, EvalFault>
    ensures { IfOk result (λ b. b.value ≡ Cmd.Fail cause []) }
{
    let c = Box::new(alloc, raise(alloc, cause))?;
    Ok(c)
}

fn assign(
    alloc: Global,
    table: &ProgramTable,
    s: &Setting,
    t: &mut Store,
    name: &Key,
    e: &Expr,
) -> Beginning
    ensures step { IfOk result (λ m. shown_begun table.now.lists.items (ALet 0 0 name.now (shown_expr e.now)) t.new m ≡ model.begin
        (shown_setting s.now) (shown_store t.old) (ALet 0 0 name.now (shown_expr e.now))) }
    ensures kept { IfOk result (λ m. KeepsStore t.old t.new m) }
{
    match eval(alloc, &t.variables, s.at, e)? {
        Ok(v) => {
            set(alloc, t, name, v)?;
            Ok(Begun::Goes(Next::Over))
        }
        Err(c) => Ok(Begun::Ends(raised(alloc, c)?)),
    }
}

// What a call has where its activity fails: a list of the table.
fn late_of(table: &ProgramTable, otherwise: &Option<Block>, links: &Links) -> Option<Late>
    requires { IsLinked table.now.lists.items (ACall 0 [] 0 [] [] (record { tries_at = 0; tries = 0; every_at = 0; every = 0 })
        (shown_otherwise otherwise.now)) links.now }
    ensures { late_at table.now.lists.items result ≡ shown_otherwise otherwise.now }
{
    match otherwise {
        None => None,
        Some(b) => Some(Late {
            list: links.first,
            end: b.end,
        }),
    }
}

fn call(
    alloc: Global,
    table: &ProgramTable,
    s: &Setting,
    t: &Store,
    into: &Key,
    activity: &Key,
    es: &[Expr],
    retry: Retry,
    otherwise: &Option<Block>,
    links: &Links,
) -> Beginning
    requires linked { IsLinked table.now.lists.items
        (ACall 0 into.now 0 activity.now (map shown_expr es.now) retry (shown_otherwise otherwise.now)) links.now }
    ensures step { IfOk result (λ m. shown_begun table.now.lists.items
        (ACall 0 into.now 0 activity.now (map shown_expr es.now) retry (shown_otherwise otherwise.now)) t.now m ≡ model.begin
        (shown_setting s.now) (shown_store t.now)
        (ACall 0 into.now 0 activity.now (map shown_expr es.now) retry (shown_otherwise otherwise.now))) }
    ensures kept { IfOk result (λ m. KeepsStore t.now t.now m) }
{
    match eval_all(alloc, &t.variables, s.at, es)? {
        Ok(values) => {
            if may_wait(s) {
                let kind = gives(s.declarations, activity);
                let asked = Cmd::Schedule(
                    activity.copy(alloc)?,
                    Sequence::from_vec(values),
                    retry.tries,
                    retry.every,
                    kind,
                );
                let into = into.copy(alloc)?;
                let late = late_of(table, otherwise, links);
                let doing = Doing::OnActivity(s.event.get(), into, kind, late);
                let doing = Box::new(alloc, doing)?;
                let asked = Box::new(alloc, asked)?;
                Ok(Begun::Asks(Next::Waits(doing), asked))
            } else {
                Ok(Begun::Ends(raised(alloc, Cause::WaitLimit)?))
            }
        }
        Err(c) => Ok(Begun::Ends(raised(alloc, c)?)),
    }
}

fn sleep(alloc: Global, table: &ProgramTable, s: &Setting, t: &Store, delay: &Expr) -> Beginning
    ensures step { IfOk result (λ m. shown_begun table.now.lists.items (ASleep 0 (shown_expr delay.now)) t.now m ≡ model.begin
        (shown_setting s.now) (shown_store t.now) (ASleep 0 (shown_expr delay.now))) }
    ensures kept { IfOk result (λ m. KeepsStore t.now t.now m) }
{
    match due(alloc, &t.variables, s.at, delay)? {
        Ok(at) => {
            if may_wait(s) {
                let doing = Box::new(alloc, Doing::OnTimer(s.event.get()))?;
                let asked = Box::new(alloc, Cmd::StartTimer(at))?;
                Ok(Begun::Asks(Next::Waits(doing), asked))
            } else {
                Ok(Begun::Ends(raised(alloc, Cause::WaitLimit)?))
            }
        }
        Err(c) => Ok(Begun::Ends(raised(alloc, c)?)),
    }
}

// A signal that is there is taken, however many waits are open.
fn wait(
    alloc: Global,
    table: &ProgramTable,
    s: &Setting,
    t: &mut Store,
    into: &Key,
    signal: &Key,
) -> Beginning
    ensures step { IfOk result (λ m. shown_begun table.now.lists.items (AWaitSignal 0 into.now 0 signal.now) t.new m ≡ model.begin
        (shown_setting s.now) (shown_store t.old) (AWaitSignal 0 into.now 0 signal.now)) }
    ensures kept { IfOk result (λ m. KeepsStore t.old t.new m) }
{
    if take(alloc, t, into, signal)? {
        return Ok(Begun::Goes(Next::Over));
    }
    if may_wait(s) {
        let doing = Doing::OnSignal(into.copy(alloc)?, signal.copy(alloc)?);
        let doing = boxed(alloc, doing)?;
        Ok(Begun::Goes(Next::Waits(doing)))
    } else {
        Ok(Begun::Ends(raised(alloc, Cause::WaitLimit)?))
    }
}

// The same for at most a delay, which isn't computed where the signal is there.
fn wait_for(
    alloc: Global,
    table: &ProgramTable,
    s: &Setting,
    t: &mut Store,
    into: &Key,
    signal: &Key,
    delay: &Expr,
    late: &Block,
    list: usize,
) -> Beginning
    requires linked { block_at table.now.lists.items list ≡ (shown_braced late.now).0 }
    ensures step { IfOk result (λ m. shown_begun table.now.lists.items
        (AWaitSignalFor 0 into.now 0 signal.now (shown_expr delay.now) (shown_braced late.now).0 0) t.new m ≡ model.begin
        (shown_setting s.now) (shown_store t.old)
        (AWaitSignalFor 0 into.now 0 signal.now (shown_expr delay.now) (shown_braced late.now).0 0)) }
    ensures kept { IfOk result (λ m. KeepsStore t.old t.new m) }
{
    let is_there = take(alloc, t, into, signal)?;
    if is_there {
        return Ok(Begun::Goes(Next::Over));
    }
    match due(alloc, &t.variables, s.at, delay)? {
        Ok(at) => {
            let m = wait_open(alloc, table, s, t, into, signal, at, late, list)?;
            Ok(m)
        }
        Err(c) => Ok(Begun::Ends(raised(alloc, c)?)),
    }
}

// The wait with its timer opens.
fn wait_open(
    alloc: Global,
    table: &ProgramTable,
    s: &Setting,
    t: &Store,
    into: &Key,
    signal: &Key,
    at: Moment,
    late: &Block,
    list: usize,
) -> Beginning
    requires linked { block_at table.now.lists.items list ≡ (shown_braced late.now).0 }
    ensures step { IfOk result (λ m. shown_begun table.now.lists.items
        (AWaitSignalFor 0 into.now 0 signal.now (ANow 0) (shown_braced late.now).0 0) t.now m ≡ model.waiting (shown_setting s.now)
        (model.Asks (tree.OnSignalFor into.now signal.now s.now.event (shown_braced late.now).0) (shown_store t.now) (Cmd.StartTimer at))) }
    ensures kept { IfOk result (λ m. KeepsStore t.now t.now m) }
{
    if may_wait(s) {
        let into = into.copy(alloc)?;
        let signal = signal.copy(alloc)?;
        let doing = boxed(alloc, Doing::OnSignalFor(into, signal, s.event, list))?;
        let asked = Box::new(alloc, Cmd::StartTimer(at))?;
        Ok(Begun::Asks(Next::Waits(doing), asked))
    } else {
        Ok(Begun::Ends(raised(alloc, Cause::WaitLimit)?))
    }
}

// `if`: the list that the condition picks begins.
fn pick(
    alloc: Global,
    table: &ProgramTable,
    s: &Setting,
    t: &Store,
    e: &Expr,
    a: &Block,
    b: &Block,
    first: usize,
    second: usize,
) -> Beginning
    requires first { block_at table.now.lists.items first ≡ (shown_braced a.now).0 }
    requires second { block_at table.now.lists.items second ≡ (shown_braced b.now).0 }
    ensures step { IfOk result (λ m. shown_begun table.now.lists.items
        (AIf 0 (shown_expr e.now) (shown_braced a.now).0 0 (shown_braced b.now).0 0) t.now m ≡ model.begin (shown_setting s.now)
        (shown_store t.now) (AIf 0 (shown_expr e.now) (shown_braced a.now).0 0 (shown_braced b.now).0 0)) }
    ensures kept { IfOk result (λ m. KeepsStore t.now t.now m) }
{
    match eval(alloc, &t.variables, s.at, e)? {
        Ok(v) => Ok(Begun::Goes(picked(table, truth(&v), a, b, first, second))),
        Err(c) => Ok(Begun::Ends(raised(alloc, c)?)),
    }
}

fn picked(
    table: &ProgramTable,
    is_first: bool,
    a: &Block,
    b: &Block,
    first: usize,
    second: usize,
) -> Next
    requires first { block_at table.now.lists.items first ≡ (shown_braced a.now).0 }
    requires second { block_at table.now.lists.items second ≡ (shown_braced b.now).0 }
    ensures list { result ≡ Next.Enters (if is_first then first else second) }
    ensures rest { tree.rest_of (block_at table.now.lists.items (if is_first then first else second)) ≡ model.picked is_first
        (shown_braced a.now).0 (shown_braced b.now).0 }
{
    if is_first {
        Next::Enters(first)
    } else {
        Next::Enters(second)
    }
}

// `while`: its list begins where the condition holds, and then it again. The test is counted, and one more than a turn may
// make fails the run.
fn repeat(
    alloc: Global,
    table: &ProgramTable,
    s: &Setting,
    t: &mut Store,
    at: usize,
    e: &Expr,
    body: &Block,
    list: usize,
) -> Beginning
    requires linked { block_at table.now.lists.items list ≡ (shown_braced body.now).0 }
    ensures step { IfOk result (λ m. shown_begun table.now.lists.items
        (AWhile at (shown_expr e.now) (shown_braced body.now).0 (shown_braced body.now).1) t.new m ≡ model.begin (shown_setting s.now)
        (shown_store t.old) (AWhile at (shown_expr e.now) (shown_braced body.now).0 (shown_braced body.now).1)) }
    ensures kept { IfOk result (λ m. KeepsStore t.old t.new m) }
{
    if t.tests >= 10000 {
        return Ok(Begun::Ends(raised(alloc, Cause::TurnBudget)?));
    }
    match eval(alloc, &t.variables, s.at, e)? {
        Ok(v) => {
            t.tests += 1;
            if truth(&v) {
                Ok(Begun::Goes(Next::Repeats(list)))
            } else {
                Ok(Begun::Goes(Next::Over))
            }
        }
        Err(c) => Ok(Begun::Ends(raised(alloc, c)?)),
    }
}

// `patch`: a decided one takes the list that it took before, any other the first list where it is answered so. Only that
// answer is recorded.
fn since_patch(
    alloc: Global,
    table: &ProgramTable,
    s: &Setting,
    t: &mut Store,
    id: &Key,
    a: &Block,
    b: &Block,
    first: usize,
    second: usize,
) -> Beginning
    requires first { block_at table.now.lists.items first ≡ (shown_braced a.now).0 }
    requires second { block_at table.now.lists.items second ≡ (shown_braced b.now).0 }
    ensures step { IfOk result (λ m. shown_begun table.now.lists.items
        (APatch 0 0 id.now (shown_braced a.now).0 0 (shown_braced b.now).0 0) t.new m ≡ model.begin (shown_setting s.now)
        (shown_store t.old) (APatch 0 0 id.now (shown_braced a.now).0 0 (shown_braced b.now).0 0)) }
    ensures kept { IfOk result (λ m. KeepsStore t.old t.new m) }
{
    match t.decided.find(id) {
        Some(is_first) => Ok(Begun::Goes(picked(table, is_first, a, b, first, second))),
        None => {
            let answer = is_answered(s, id);
            let next = picked(table, answer, a, b, first, second);
            t.decided.insert(alloc, id, answer)?;
            if answer {
                let asked = Box::new(alloc, Cmd::RecordMarker(id.copy(alloc)?))?;
                Ok(Begun::Asks(next, asked))
            } else {
                Ok(Begun::Goes(next))
            }
        }
    }
}

// `deprecate`: a patch with two empty lists.
fn deprecate(alloc: Global, table: &ProgramTable, s: &Setting, t: &mut Store, id: &Key) -> Beginning
    ensures step { IfOk result (λ m. shown_begun table.now.lists.items (ADeprecate 0 0 id.now) t.new m ≡ model.begin (shown_setting s.now)
        (shown_store t.old) (ADeprecate 0 0 id.now)) }
    ensures kept { IfOk result (λ m. KeepsStore t.old t.new m) }
{
    match t.decided.find(id) {
        Some(_first) => Ok(Begun::Goes(Next::Nothing)),
        None => {
            let answer = is_answered(s, id);
            t.decided.insert(alloc, id, answer)?;
            if answer {
                let asked = Box::new(alloc, Cmd::RecordMarker(id.copy(alloc)?))?;
                Ok(Begun::Asks(Next::Nothing, asked))
            } else {
                Ok(Begun::Goes(Next::Nothing))
            }
        }
    }
}

fn finish(alloc: Global, table: &ProgramTable, s: &Setting, t: &Store, e: &Expr) -> Beginning
    ensures step { IfOk result (λ m. shown_begun table.now.lists.items (AReturn 0 (shown_expr e.now)) t.now m ≡ model.begin
        (shown_setting s.now) (shown_store t.now) (AReturn 0 (shown_expr e.now))) }
    ensures kept { IfOk result (λ m. KeepsStore t.now t.now m) }
{
    match eval(alloc, &t.variables, s.at, e)? {
        Ok(v) => Ok(Begun::Ends(Box::new(alloc, Cmd::Complete(v))?)),
        Err(c) => Ok(Begun::Ends(raised(alloc, c)?)),
    }
}

fn give_up(alloc: Global, table: &ProgramTable, s: &Setting, t: &Store, e: &Expr) -> Beginning
    ensures step { IfOk result (λ m. shown_begun table.now.lists.items (AFailWith 0 (shown_expr e.now)) t.now m ≡ model.begin
        (shown_setting s.now) (shown_store t.now) (AFailWith 0 (shown_expr e.now))) }
    ensures kept { IfOk result (λ m. KeepsStore t.now t.now m) }
{
    match eval(alloc, &t.variables, s.at, e)? {
        Ok(v) => Ok(Begun::Ends(Box::new(alloc, Cmd::Fail(Cause::UserFail, text_in(alloc, v)))?)),
        Err(c) => Ok(Begun::Ends(raised(alloc, c)?)),
    }
}

// `continue as new`: a run's first turn can't, so that a chain of runs doesn't go on without an input.
fn go_on_anew(alloc: Global, table: &ProgramTable, s: &Setting, t: &Store, es: &[Expr]) -> Beginning
    ensures step { IfOk result (λ m. shown_begun table.now.lists.items (AContinue 0 (map shown_expr es.now)) t.now m ≡ model.begin
        (shown_setting s.now) (shown_store t.now) (AContinue 0 (map shown_expr es.now))) }
    ensures kept { IfOk result (λ m. KeepsStore t.now t.now m) }
{
    match eval_all(alloc, &t.variables, s.at, es)? {
        Ok(values) => {
            if s.is_first {
                Ok(Begun::Ends(raised(alloc, Cause::ChainLimit)?))
            } else {
                Ok(Begun::Ends(Box::new(alloc, Cmd::ContinueAsNew(Sequence::from_vec(values)))?))
            }
        }
        Err(c) => Ok(Begun::Ends(raised(alloc, c)?)),
    }
}
