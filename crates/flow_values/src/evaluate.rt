ghost use Rattle.std.specs.Prelude.{◌≡◌, ◌+ℤ◌, ◌-ℤ◌, ◌*ℤ◌, neg_ℤ, int_div, int_rem, IfOk, map, MatchOption, MatchResult, None, Some, Ok, Err, pos, length, ◌++◌};
ghost use Rattle.flow_base.specs.Shown.{shown_expr};
ghost use Rattle.flow_model.specs.Values.{Variables, value as value_of, values as values_of, due as due_of, due_in, whole, divided, applied, combined, decided_by, is_true, joined, text_of as text_in, number_of as number_in, flag as flag_of, there};

use crate::fault::EvalFault;
use flow_base::event::Cause;
use flow_base::number::Moment;
use flow_base::syntax::{Binary, Expr, Unary};
use flow_base::text::{Key, Text};
use flow_base::value::Value;
use std::alloc::{AllocError, Global};

/// What has variables.
pub trait Vars {
    /// From names to values.
    ghost variables: { Self → Variables };

    /// The value of a variable, if it has one.
    fn get(&self, name: &Key) -> Option<&Value>
        ensures { MatchOption result (variables self.now name.now ≡ None) (λ v. variables self.now name.now ≡ Some v.now) };
}

/// The value of an expression at a moment, or the fault of its leftmost part that has one. Where a name is missing it
/// counts as the number 0.
///
/// # Failure
/// E01.
pub fn eval<V: Vars>(
    alloc: Global,
    vars: &V,
    at: Moment,
    expr: &Expr,
) -> Result<Result<Value, Cause>, EvalFault>
    ensures { IfOk result (λ r. r ≡ value_of (V.variables vars.now) at (shown_expr expr.now)) }
{
    match expr {
        Expr::Int(_, n) => Ok(Ok(Value::Int(*n))),
        Expr::Text(_, t) => {
            let t = t.copy(alloc)?;
            Ok(Ok(Value::Text(t)))
        }
        Expr::Var(_, x) => {
            let v = read(alloc, vars, x)?;
            Ok(Ok(v))
        }
        Expr::Now(_) => Ok(Ok(Value::Int(at.get() as i64))),
        Expr::Unary(_, op, a) => match eval(alloc, vars, at, a)? {
            Ok(v) => apply(alloc, *op, v),
            Err(c) => Ok(Err(c)),
        },
        Expr::Binary(op, a, b) => match eval(alloc, vars, at, a)? {
            Ok(v) => match decide(*op, &v) {
                Some(w) => Ok(Ok(w)),
                None => match eval(alloc, vars, at, b)? {
                    Ok(w) => combine(alloc, *op, v, w),
                    Err(c) => Ok(Err(c)),
                },
            },
            Err(c) => Ok(Err(c)),
        },
    }
}

/// The values of a list of expressions at a moment, or the first fault.
///
/// # Failure
/// E01.
pub fn eval_all<V: Vars>(
    alloc: Global,
    vars: &V,
    at: Moment,
    exprs: &[Expr],
) -> Result<Result<Vec<Value>, Cause>, EvalFault>
    ensures { IfOk result (λ r. MatchResult r (λ vs. values_of (V.variables vars.now) at (map shown_expr exprs.now) ≡ Ok vs.items)
        (λ c. values_of (V.variables vars.now) at (map shown_expr exprs.now) ≡ Err c)) }
{
    let mut list = Vec::new(alloc);
    for e in exprs {
        match eval(alloc, vars, at, e)? {
            Ok(v) => list.push(v)?,
            Err(c) => return Ok(Err(c)),
        }
    }
    Ok(Ok(list))
}

/// When a delay is over that begins at a moment, or the fault of its expression: `BadDelay` where the delay is negative
/// or leads past the last moment.
///
/// # Failure
/// E01.
pub fn due<V: Vars>(
    alloc: Global,
    vars: &V,
    at: Moment,
    delay: &Expr,
) -> Result<Result<Moment, Cause>, EvalFault>
    ensures { IfOk result (λ r. r ≡ due_of (V.variables vars.now) at (shown_expr delay.now)) }
{
    match eval(alloc, vars, at, delay)? {
        Ok(v) => Ok(after(at, number_of(&v))),
        Err(c) => Ok(Err(c)),
    }
}

fn after(at: Moment, delay: i64) -> Result<Moment, Cause>
    ensures { result ≡ due_in at delay }
{
    if delay < 0 {
        return Err(Cause::BadDelay);
    }
    match Moment::new(at.get() + delay as u64) {
        Some(due) => Ok(due),
        None => Err(Cause::BadDelay),
    }
}

/// Whether a value is true as a condition: any number but 0.
pub fn truth(v: &Value) -> bool
    ensures { result ≡ is_true v.now }
{
    number_of(v) != 0
}

fn read<V: Vars>(alloc: Global, vars: &V, name: &Key) -> Result<Value, AllocError>
    ensures { IfOk result (λ v. v ≡ there (V.variables vars.now name.now)) }
{
    match vars.get(name) {
        Some(v) => v.copy(alloc),
        None => Ok(Value::Int(0)),
    }
}

fn number_of(v: &Value) -> i64
    ensures { result ≡ number_in v.now }
{
    match v {
        Value::Int(n) => *n,
        Value::Text(_) => 0,
    }
}

fn text_of(alloc: Global, v: &Value) -> Result<Text, AllocError>
    ensures { IfOk result (λ t. t ≡ text_in v.now) }
{
    match v {
        Value::Int(_) => Ok(Text::empty(alloc)),
        Value::Text(t) => t.copy(alloc),
    }
}

fn flag(b: bool) -> Value
    ensures { result ≡ flag_of b }
{
    if b { Value::Int(1) } else { Value::Int(0) }
}

fn decide(op: Binary, a: &Value) -> Option<Value>
    ensures { result ≡ decided_by op a.now }
{
    match op {
        Binary::Or => if truth(a) { Some(flag(true)) } else { None },
        Binary::And => if truth(a) { None } else { Some(flag(false)) },
        _ => None,
    }
}

fn add(a: i64, b: i64) -> Result<Value, Cause>
    ensures { result ≡ whole (a +ℤ b) }
{
    match a.checked_add(b) {
        Some(n) => Ok(Value::Int(n)),
        None => Err(Cause::Arith),
    }
}

fn subtract(a: i64, b: i64) -> Result<Value, Cause>
    ensures { result ≡ whole (a -ℤ b) }
{
    match a.checked_sub(b) {
        Some(n) => Ok(Value::Int(n)),
        None => Err(Cause::Arith),
    }
}

fn multiply(a: i64, b: i64) -> Result<Value, Cause>
    ensures { result ≡ whole (a *ℤ b) }
{
    match a.checked_mul(b) {
        Some(n) => Ok(Value::Int(n)),
        None => Err(Cause::Arith),
    }
}

fn negate(a: i64) -> Result<Value, Cause>
    ensures { result ≡ whole (neg_ℤ a) }
{
    match a.checked_neg() {
        Some(n) => Ok(Value::Int(n)),
        None => Err(Cause::Arith),
    }
}

fn divide(a: i64, b: i64) -> Result<Value, Cause>
    ensures { result ≡ divided int_div a b }
{
    match a.checked_div(b) {
        Some(n) => Ok(Value::Int(n)),
        None => Err(Cause::Arith),
    }
}

fn remain(a: i64, b: i64) -> Result<Value, Cause>
    ensures { result ≡ divided int_rem a b }
{
    match a.checked_rem(b) {
        Some(n) => Ok(Value::Int(n)),
        None => Err(Cause::Arith),
    }
}

fn apply(alloc: Global, op: Unary, v: Value) -> Result<Result<Value, Cause>, EvalFault>
    ensures { IfOk result (λ r. r ≡ applied op v) }
{
    match op {
        Unary::Negate => Ok(negate(number_of(&v))),
        Unary::Not => Ok(Ok(flag(!truth(&v)))),
        Unary::TextOf => {
            let t = Text::decimal(alloc, number_of(&v))?;
            Ok(Ok(Value::Text(t)))
        }
        Unary::Length => Ok(Ok(Value::Int(length_of(&v)))),
    }
}

fn length_of(v: &Value) -> i64
    ensures { result ≡ pos (length (text_in v.now)) }
{
    match v {
        Value::Int(_) => 0,
        Value::Text(t) => t.len() as i64,
    }
}

fn join(alloc: Global, a: &Value, b: &Value) -> Result<Result<Value, Cause>, EvalFault>
    ensures { IfOk result (λ r. r ≡ joined (text_in a.now ++ text_in b.now)) }
{
    let a = text_of(alloc, a)?;
    let b = text_of(alloc, b)?;
    match a.joined(alloc, &b)? {
        Some(t) => Ok(Ok(Value::Text(t))),
        None => Ok(Err(Cause::TextLimit)),
    }
}

fn combine(alloc: Global, op: Binary, a: Value, b: Value) -> Result<Result<Value, Cause>, EvalFault>
    ensures { IfOk result (λ r. r ≡ combined op a b) }
{
    match op {
        Binary::Or => Ok(Ok(flag(truth(&b)))),
        Binary::And => Ok(Ok(flag(truth(&b)))),
        Binary::Equal => Ok(Ok(flag(a.is(&b)))),
        Binary::Differ => Ok(Ok(flag(!a.is(&b)))),
        Binary::Less => Ok(Ok(flag(number_of(&a) < number_of(&b)))),
        Binary::AtMost => Ok(Ok(flag(number_of(&a) <= number_of(&b)))),
        Binary::Greater => Ok(Ok(flag(number_of(&b) < number_of(&a)))),
        Binary::AtLeast => Ok(Ok(flag(number_of(&b) <= number_of(&a)))),
        Binary::Add => Ok(add(number_of(&a), number_of(&b))),
        Binary::Subtract => Ok(subtract(number_of(&a), number_of(&b))),
        Binary::Join => join(alloc, &a, &b),
        Binary::Multiply => Ok(multiply(number_of(&a), number_of(&b))),
        Binary::Divide => Ok(divide(number_of(&a), number_of(&b))),
        Binary::Remain => Ok(remain(number_of(&a), number_of(&b))),
    }
}
