ghost use Rattle.std.specs.Prelude.{◌≡◌, ◌<◌, ◌+◌, IfOk, MatchOption, map, take, min, length, OnOk, [], false, nat_lt, if◌then◌else◌};
ghost use Rattle.flow_base.specs.Syntax.{Statement, End, Next, Let as ALet, Call as ACall, WaitSignal as AWaitSignal, WaitSignalFor as AWaitSignalFor, Sleep as ASleep, Return as AReturn, FailWith as AFailWith, Continue as AContinue};
ghost use Rattle.flow_base.specs.Shown.{shown_stmt, shown_braced, shown_otherwise, shown_expr};
ghost use Rattle.flow_model.specs.Rest as tree;
ghost use Rattle.flow_model.specs.Step as model;
ghost use Rattle.flow_plain.specs.Shown.{shown_rest, shown_store, shown_move, shown_begun, left_from, KeepsRest, Begins, Starts};
ghost use Rattle.flow_run.specs.Shown.{shown_setting};

use crate::blocks::{deprecate, pick, repeat, side_by_side, since_patch};
use crate::rest::{Rest, share_otherwise};
use flow_base::event::{Cause, Cmd};
use flow_base::number::EventId;
use flow_base::sequence::Sequence;
use flow_base::syntax::{Block, Expr, Retry, Stmt};
use flow_base::text::Key;
use flow_base::value::Value;
use flow_run::decided::Decided;
use flow_run::setting::{Setting, gives, may_wait, raise, text_in};
use flow_values::evaluate::{due, eval, eval_all};
use flow_values::fault::EvalFault;
use flow_values::named::NamedValues;
use std::alloc::Global;
use std::sync::Arc;

/// What the steps of a turn change beside the rest.
#[derive(Drop)]
pub struct Store {
    pub variables: NamedValues,
    pub buffer: NamedValues,
    pub decided: Decided,
    /// `while` conditions that this turn has tested.
    pub tests: u32,
}

/// What one step did.
#[derive(Drop)]
pub enum Moved {
    Stays(Rest),
    Goes(Rest),
    Asks(Rest, Cmd),
    Ends(Cmd),
}

/// What a statement does that begins.
#[derive(Drop)]
pub enum Begun {
    Moves(Moved),
    /// A list goes on, and then the statement begins again.
    Repeats(Rest),
}

/// The leftmost place that can step does.
pub fn step(alloc: Global, s: &Setting, t: &mut Store, rest: Rest) -> Result<Moved, EvalFault>
    ensures step { IfOk result (λ m. shown_move t.new m ≡ model.move (shown_setting s.now) (shown_store t.old) (shown_rest rest)) }
    ensures kept { IfOk result (λ m. KeepsRest t.old (shown_rest rest) t.new m) }
{
    match rest {
        Rest::Done => Ok(Moved::Stays(Rest::Done)),
        Rest::OnActivity(n, x, k, o) => Ok(Moved::Stays(Rest::OnActivity(n, x, k, o))),
        Rest::OnTimer(n) => Ok(Moved::Stays(Rest::OnTimer(n))),
        Rest::OnSignal(x, name) => hear(alloc, t, x, name),
        Rest::OnSignalFor(x, name, n, late) => hear_in_time(alloc, t, x, name, n, late),
        Rest::Raised(c, text) => Ok(Moved::Ends(Cmd::Fail(c, text))),
        Rest::Then(r, b, i, to) => {
            if is_done(&r) {
                first_of(alloc, s, t, Box::into_inner(r), b, i, to)
            } else {
                let m = step(alloc, s, t, Box::into_inner(r))?;
                let n = before(alloc, m, b, i, to)?;
                Ok(n)
            }
        }
        Rest::Beside(a, b) => match step(alloc, s, t, Box::into_inner(a))? {
            Moved::Stays(a) => {
                let a = Box::new(alloc, a)?;
                let m = step(alloc, s, t, Box::into_inner(b))?;
                with_left(alloc, a, m)
            }
            Moved::Goes(r) => with_right(alloc, Moved::Goes(r), b),
            Moved::Asks(r, c) => with_right(alloc, Moved::Asks(r, c), b),
            Moved::Ends(c) => Ok(Moved::Ends(c)),
        },
    }
}

/// Whether nothing is left.
pub fn is_done(rest: &Rest) -> bool
    ensures { result ≡ tree.is_done (shown_rest rest.now) }
{
    match rest {
        Rest::Done => true,
        Rest::Then(r, b, i, to) => is_done(r) && is_end(within(b, *to), *i),
        Rest::Beside(a, b) => is_done(a) && is_done(b),
        _ => false,
    }
}

// The statements of a list up to a number.
fn within(list: &[Stmt], to: usize) -> &[Stmt]
    ensures { result.now ≡ take to list.now }
{
    &list[..to.min(list.len())]
}

fn is_end(stmts: &[Stmt], i: usize) -> bool
    ensures { result ≡ tree.is_end (left_from stmts.now i) }
{
    match first(stmts, i) {
        None => true,
        Some(_) => false,
    }
}

// The first statement of what is left of a list.
fn first<'a>(stmts: &'a [Stmt], i: usize) -> Option<&'a Stmt>
    ensures { MatchOption result (left_from stmts.now i ≡ End)
        (λ s. (i < length stmts.now) × (left_from stmts.now i ≡ Next (shown_stmt s.now) (left_from stmts.now (i + 1)))) }
{
    if i >= stmts.len() {
        return None;
    }
    Some(&stmts[i])
}

/// How many waits are open, or 32 where they are more.
pub fn open_waits(rest: &Rest) -> u32
    ensures { result ≡ min (tree.open_waits (shown_rest rest.now)) 32 }
{
    match rest {
        Rest::OnActivity(_, _, _, _) => 1,
        Rest::OnTimer(_) => 1,
        Rest::OnSignal(_, _) => 1,
        Rest::OnSignalFor(_, _, _, _) => 1,
        Rest::Then(r, _, _, _) => open_waits(r),
        Rest::Beside(a, b) => (open_waits(a) + open_waits(b)).min(32),
        _ => 0,
    }
}

// The first statement of what is left of a list begins.
fn first_of(
    alloc: Global,
    s: &Setting,
    t: &mut Store,
    r: Rest,
    b: Arc<Vec<Stmt>>,
    i: usize,
    to: usize,
) -> Result<Moved, EvalFault>
    ensures step { IfOk result (λ m. shown_move t.new m ≡ model.first_of (shown_setting s.now) (shown_store t.old)
        (left_from (take to b.value.items) i)) }
    ensures kept { IfOk result (λ m. KeepsRest t.old (tree.Then (shown_rest r) (left_from (take to b.value.items) i)) t.new m) }
{
    match first(within(&b, to), i) {
        None => Ok(Moved::Stays(Rest::Then(Box::new(alloc, r)?, b, i, to))),
        Some(stmt) => match begin(alloc, s, t, stmt)? {
            Begun::Moves(m) => {
                let n = followed(alloc, m, b, i + 1, to)?;
                Ok(n)
            }
            Begun::Repeats(r) => {
                let q = repeated(alloc, r, b, i, to)?;
                Ok(Moved::Goes(q))
            }
        },
    }
}

// What goes on, then the statement at a place of a list again, and those after it. Where it is the last, what is left
// of the list serves as it is.
fn repeated(
    alloc: Global,
    r: Rest,
    b: Arc<Vec<Stmt>>,
    i: usize,
    to: usize,
) -> Result<Rest, EvalFault>
    requires { i < length (take to b.value.items) }
    ensures { IfOk result (λ q. (st : Statement) → left_from (take to b.value.items) i ≡ Next st
        (left_from (take to b.value.items) (i + 1))
        → shown_rest q ≡ model.followed_by (left_from (take to b.value.items) (i + 1)) (tree.Then (shown_rest r) (Next st End))) }
{
    let r = Box::new(alloc, r)?;
    if is_end(within(&b, to), i + 1) {
        return Ok(Rest::Then(r, b, i, to));
    }
    let again = Rest::Then(r, b.clone()?, i, i + 1);
    Ok(Rest::Then(Box::new(alloc, again)?, b, i + 1, to))
}

// A statement begins.
fn begin(alloc: Global, s: &Setting, t: &mut Store, stmt: &Stmt) -> Result<Begun, EvalFault>
    ensures step { IfOk result (λ m. shown_begun (shown_stmt stmt.now) t.new m ≡ model.begin (shown_setting s.now) (shown_store t.old)
        (shown_stmt stmt.now)) }
    ensures kept { IfOk result (λ m. Starts t.old t.new m) }
{
    match stmt {
        Stmt::Let(_, _, x, e) => Ok(Begun::Moves(assign(alloc, s, t, x, e)?)),
        Stmt::Assign(_, x, e) => Ok(Begun::Moves(assign(alloc, s, t, x, e)?)),
        Stmt::Call(_, x, _, a, es, r, o) => {
            Ok(Begun::Moves(call(alloc, s, t, x, a, es, *r, o)?))
        }
        Stmt::WaitSignal(_, x, _, name) => Ok(Begun::Moves(wait(alloc, s, t, x, name)?)),
        Stmt::WaitSignalFor(_, x, _, name, e, late) => {
            Ok(Begun::Moves(wait_for(alloc, s, t, x, name, e, late)?))
        }
        Stmt::Sleep(_, e) => Ok(Begun::Moves(sleep(alloc, s, t, e)?)),
        Stmt::If(_, e, a, b) => Ok(Begun::Moves(pick(alloc, s, t, e, a, b)?)),
        Stmt::While(at, e, b) => repeat(alloc, s, t, *at, e, b),
        Stmt::Parallel(_, a, bs, _) => Ok(Begun::Moves(Moved::Goes(side_by_side(alloc, a, bs)?))),
        Stmt::Patch(_, _, id, a, b) => Ok(Begun::Moves(since_patch(alloc, s, t, id, a, b)?)),
        Stmt::Deprecate(_, _, id) => Ok(Begun::Moves(deprecate(alloc, s, t, id)?)),
        Stmt::Return(_, e) => Ok(Begun::Moves(finish(alloc, s, t, e)?)),
        Stmt::FailWith(_, e) => Ok(Begun::Moves(give_up(alloc, s, t, e)?)),
        Stmt::Continue(_, es) => Ok(Begun::Moves(go_on_anew(alloc, s, t, es)?)),
    }
}

fn assign(
    alloc: Global,
    s: &Setting,
    t: &mut Store,
    name: &Key,
    e: &Expr,
) -> Result<Moved, EvalFault>
    ensures step { IfOk result (λ m. shown_move t.new m ≡ model.begin (shown_setting s.now) (shown_store t.old)
        (ALet 0 0 name.now (shown_expr e.now))) }
    ensures kept { IfOk result (λ m. Begins t.old t.new m) }
{
    match eval(alloc, &t.variables, s.at, e)? {
        Ok(v) => {
            set(alloc, t, name, v)?;
            Ok(Moved::Goes(Rest::Done))
        }
        Err(c) => Ok(Moved::Ends(raise(alloc, c))),
    }
}

fn call(
    alloc: Global,
    s: &Setting,
    t: &Store,
    into: &Key,
    activity: &Key,
    es: &[Expr],
    retry: Retry,
    otherwise: &Option<Block>,
) -> Result<Moved, EvalFault>
    ensures step { IfOk result (λ m. shown_move t.now m ≡ model.begin (shown_setting s.now) (shown_store t.now)
        (ACall 0 into.now 0 activity.now (map shown_expr es.now) retry (shown_otherwise otherwise.now))) }
    ensures kept { IfOk result (λ m. Begins t.now t.now m) }
{
    match eval_all(alloc, &t.variables, s.at, es)? {
        Ok(values) => {
            if may_wait(s) {
                let kind = gives(s.declarations, activity);
                let asked = Cmd::Schedule(
                    activity.copy(alloc)?,
                    Sequence::from_vec(values),
                    retry.tries,
                    retry.every,
                    kind,
                );
                let into = into.copy(alloc)?;
                let otherwise = share_otherwise(otherwise)?;
                let rest = Rest::OnActivity(s.event.get(), into, kind, otherwise);
                Ok(Moved::Asks(rest, asked))
            } else {
                Ok(Moved::Ends(raise(alloc, Cause::WaitLimit)))
            }
        }
        Err(c) => Ok(Moved::Ends(raise(alloc, c))),
    }
}

fn sleep(alloc: Global, s: &Setting, t: &Store, delay: &Expr) -> Result<Moved, EvalFault>
    ensures step { IfOk result (λ m. shown_move t.now m ≡ model.begin (shown_setting s.now) (shown_store t.now)
        (ASleep 0 (shown_expr delay.now))) }
    ensures kept { IfOk result (λ m. Begins t.now t.now m) }
{
    match due(alloc, &t.variables, s.at, delay)? {
        Ok(at) => {
            if may_wait(s) {
                Ok(Moved::Asks(Rest::OnTimer(s.event.get()), Cmd::StartTimer(at)))
            } else {
                Ok(Moved::Ends(raise(alloc, Cause::WaitLimit)))
            }
        }
        Err(c) => Ok(Moved::Ends(raise(alloc, c))),
    }
}

// A signal that is there is taken, however many waits are open.
fn wait(
    alloc: Global,
    s: &Setting,
    t: &mut Store,
    into: &Key,
    signal: &Key,
) -> Result<Moved, EvalFault>
    ensures step { IfOk result (λ m. shown_move t.new m ≡ model.begin (shown_setting s.now) (shown_store t.old)
        (AWaitSignal 0 into.now 0 signal.now)) }
    ensures kept { IfOk result (λ m. Begins t.old t.new m) }
{
    if take(alloc, t, into, signal)? {
        return Ok(Moved::Goes(Rest::Done));
    }
    if may_wait(s) {
        Ok(Moved::Goes(Rest::OnSignal(into.copy(alloc)?, signal.copy(alloc)?)))
    } else {
        Ok(Moved::Ends(raise(alloc, Cause::WaitLimit)))
    }
}

// The same for at most a delay, which isn't computed where the signal is there.
fn wait_for(
    alloc: Global,
    s: &Setting,
    t: &mut Store,
    into: &Key,
    signal: &Key,
    delay: &Expr,
    late: &Block,
) -> Result<Moved, EvalFault>
    ensures step { IfOk result (λ m. shown_move t.new m ≡ model.begin (shown_setting s.now) (shown_store t.old)
        (AWaitSignalFor 0 into.now 0 signal.now (shown_expr delay.now) (shown_braced late.now).0 0)) }
    ensures kept { IfOk result (λ m. Begins t.old t.new m) }
{
    let is_there = take(alloc, t, into, signal)?;
    if is_there {
        return Ok(Moved::Goes(Rest::Done));
    }
    match due(alloc, &t.variables, s.at, delay)? {
        Ok(at) => {
            if may_wait(s) {
                let into = into.copy(alloc)?;
                let signal = signal.copy(alloc)?;
                let rest = Rest::OnSignalFor(into, signal, s.event, late.share()?);
                Ok(Moved::Asks(rest, Cmd::StartTimer(at)))
            } else {
                Ok(Moved::Ends(raise(alloc, Cause::WaitLimit)))
            }
        }
        Err(c) => Ok(Moved::Ends(raise(alloc, c))),
    }
}

// A wait takes its signal, where that is there.
fn hear(alloc: Global, t: &mut Store, into: Key, signal: Key) -> Result<Moved, EvalFault>
    ensures step { IfOk result (λ m. shown_move t.new m ≡ model.on_signal (model.oldest signal t.old.buffer)
        (λ v. model.Goes tree.Done (model.take_signal (shown_store t.old) into signal v)) model.Stays) }
    ensures kept { IfOk result (λ m. KeepsRest t.old (tree.OnSignal into signal) t.new m) }
{
    if take(alloc, t, &into, &signal)? {
        Ok(Moved::Goes(Rest::Done))
    } else {
        Ok(Moved::Stays(Rest::OnSignal(into, signal)))
    }
}

// The same for a wait with a timer, which is cancelled then.
fn hear_in_time(
    alloc: Global,
    t: &mut Store,
    into: Key,
    signal: Key,
    timer: EventId,
    late: Block,
) -> Result<Moved, EvalFault>
    ensures step { IfOk result (λ m. shown_move t.new m ≡ model.on_signal (model.oldest signal t.old.buffer)
        (λ v. model.Asks tree.Done (model.take_signal (shown_store t.old) into signal v) (Cmd.CancelTimer timer)) model.Stays) }
    ensures kept { IfOk result (λ m. KeepsRest t.old (tree.OnSignalFor into signal timer (shown_braced late).0) t.new m) }
{
    let is_there = take(alloc, t, &into, &signal)?;
    if is_there {
        Ok(Moved::Asks(Rest::Done, Cmd::CancelTimer(timer)))
    } else {
        Ok(Moved::Stays(Rest::OnSignalFor(into, signal, timer, late)))
    }
}

// A variable gets the oldest signal of a name, which leaves the buffer; says whether one was there.
fn take(alloc: Global, t: &mut Store, into: &Key, signal: &Key) -> Result<bool, EvalFault>
    ensures taken { IfOk result (λ is. (m : model.Move)
        → (if is then model.Goes tree.Done (shown_store t.new) else m) ≡ model.on_signal (model.oldest signal.now t.old.buffer)
        (λ v. model.Goes tree.Done (model.take_signal (shown_store t.old) into.now signal.now v)) m) }
    ensures in_time { IfOk result (λ is. (c : Cmd) (m : model.Move)
        → (if is then model.Asks tree.Done (shown_store t.new) c else m) ≡ model.on_signal (model.oldest signal.now t.old.buffer)
        (λ v. model.Asks tree.Done (model.take_signal (shown_store t.old) into.now signal.now v) c) m) }
    ensures kept { IfOk result (λ is. is ≡ false → t.new ≡ t.old) }
{
    match t.buffer.take(alloc, signal)? {
        Some(v) => {
            set(alloc, t, into, v)?;
            Ok(true)
        }
        None => Ok(false),
    }
}

fn finish(alloc: Global, s: &Setting, t: &Store, e: &Expr) -> Result<Moved, EvalFault>
    ensures step { IfOk result (λ m. shown_move t.now m ≡ model.begin (shown_setting s.now) (shown_store t.now)
        (AReturn 0 (shown_expr e.now))) }
    ensures kept { IfOk result (λ m. Begins t.now t.now m) }
{
    match eval(alloc, &t.variables, s.at, e)? {
        Ok(v) => Ok(Moved::Ends(Cmd::Complete(v))),
        Err(c) => Ok(Moved::Ends(raise(alloc, c))),
    }
}

fn give_up(alloc: Global, s: &Setting, t: &Store, e: &Expr) -> Result<Moved, EvalFault>
    ensures step { IfOk result (λ m. shown_move t.now m ≡ model.begin (shown_setting s.now) (shown_store t.now)
        (AFailWith 0 (shown_expr e.now))) }
    ensures kept { IfOk result (λ m. Begins t.now t.now m) }
{
    match eval(alloc, &t.variables, s.at, e)? {
        Ok(v) => Ok(Moved::Ends(Cmd::Fail(Cause::UserFail, text_in(alloc, v)))),
        Err(c) => Ok(Moved::Ends(raise(alloc, c))),
    }
}

// `continue as new`: a run's first turn can't, so that a chain of runs doesn't go on without an input.
fn go_on_anew(alloc: Global, s: &Setting, t: &Store, es: &[Expr]) -> Result<Moved, EvalFault>
    ensures step { IfOk result (λ m. shown_move t.now m ≡ model.begin (shown_setting s.now) (shown_store t.now)
        (AContinue 0 (map shown_expr es.now))) }
    ensures kept { IfOk result (λ m. Begins t.now t.now m) }
{
    match eval_all(alloc, &t.variables, s.at, es)? {
        Ok(values) => {
            if s.is_first {
                Ok(Moved::Ends(raise(alloc, Cause::ChainLimit)))
            } else {
                Ok(Moved::Ends(Cmd::ContinueAsNew(Sequence::from_vec(values))))
            }
        }
        Err(c) => Ok(Moved::Ends(raise(alloc, c))),
    }
}

// A variable gets a value.
fn set(alloc: Global, t: &mut Store, name: &Key, v: Value) -> Result<(), EvalFault>
    ensures { OnOk result (shown_store t.new ≡ model.set_in (shown_store t.old) name.now v) }
{
    t.variables.set(alloc, name, v)?;
    Ok(())
}

// What a step does, with the statements after it.
fn before(
    alloc: Global,
    m: Moved,
    b: Arc<Vec<Stmt>>,
    i: usize,
    to: usize,
) -> Result<Moved, EvalFault>
    ensures step { IfOk result (λ n. (t : Store) → shown_move t n ≡ model.around (λ r. tree.Then r (left_from (take to b.value.items) i))
        (shown_move t m)) }
    ensures kept { IfOk result (λ n. (old new : Store) (r : tree.Rest) → KeepsRest old r new m
        → KeepsRest old (tree.Then r (left_from (take to b.value.items) i)) new n) }
    ensures begun { IfOk result (λ n. (old new : Store) (r : tree.Rest) → Begins old new m → KeepsRest old r new n) }
{
    match m {
        Moved::Stays(r) => Ok(Moved::Stays(Rest::Then(Box::new(alloc, r)?, b, i, to))),
        Moved::Goes(r) => Ok(Moved::Goes(Rest::Then(Box::new(alloc, r)?, b, i, to))),
        Moved::Asks(r, c) => Ok(Moved::Asks(Rest::Then(Box::new(alloc, r)?, b, i, to), c)),
        Moved::Ends(c) => Ok(Moved::Ends(c)),
    }
}

// What the step of a statement does, with the statements after it: an empty list isn't kept.
fn followed(
    alloc: Global,
    m: Moved,
    b: Arc<Vec<Stmt>>,
    i: usize,
    to: usize,
) -> Result<Moved, EvalFault>
    ensures step { IfOk result (λ n. (t : Store) → shown_move t n ≡ model.around (model.followed_by (left_from (take to b.value.items) i))
        (shown_move t m)) }
    ensures begun { IfOk result (λ n. (old new : Store) (r : tree.Rest) → Begins old new m → KeepsRest old r new n) }
{
    if is_end(within(&b, to), i) {
        Ok(m)
    } else {
        let n = before(alloc, m, b, i, to)?;
        Ok(n)
    }
}

// What the left branch does, with the right one.
fn with_right(alloc: Global, m: Moved, b: Box<Rest>) -> Result<Moved, EvalFault>
    ensures step { IfOk result (λ n. (t : Store) → shown_move t n ≡ model.around (λ r. tree.Beside r (shown_rest b.value))
        (shown_move t m)) }
    ensures kept { IfOk result (λ n. (old new : Store) (r : tree.Rest) → KeepsRest old r new m
        → KeepsRest old (tree.Beside r (shown_rest b.value)) new n) }
{
    match m {
        Moved::Stays(r) => Ok(Moved::Stays(Rest::Beside(Box::new(alloc, r)?, b))),
        Moved::Goes(r) => Ok(Moved::Goes(Rest::Beside(Box::new(alloc, r)?, b))),
        Moved::Asks(r, c) => Ok(Moved::Asks(Rest::Beside(Box::new(alloc, r)?, b), c)),
        Moved::Ends(c) => Ok(Moved::Ends(c)),
    }
}

// What the right branch does, with the left one.
fn with_left(alloc: Global, a: Box<Rest>, m: Moved) -> Result<Moved, EvalFault>
    ensures step { IfOk result (λ n. (t : Store) → shown_move t n ≡ model.around (λ r. tree.Beside (shown_rest a.value) r)
        (shown_move t m)) }
    ensures kept { IfOk result (λ n. (old new : Store) (r : tree.Rest) → KeepsRest old r new m
        → KeepsRest old (tree.Beside (shown_rest a.value) r) new n) }
{
    match m {
        Moved::Stays(r) => Ok(Moved::Stays(Rest::Beside(a, Box::new(alloc, r)?))),
        Moved::Goes(r) => Ok(Moved::Goes(Rest::Beside(a, Box::new(alloc, r)?))),
        Moved::Asks(r, c) => Ok(Moved::Asks(Rest::Beside(a, Box::new(alloc, r)?), c)),
        Moved::Ends(c) => Ok(Moved::Ends(c)),
    }
}
