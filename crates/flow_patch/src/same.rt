ghost use Rattle.std.specs.Prelude.{◌≡◌, map};
ghost use Rattle.flow_base.specs.Shown.{shown_expr, shown_stmt, shown_declaration};
ghost use Rattle.flow_model.specs.WellFormed.{is_kind};
ghost use Rattle.flow_patch.specs.Difference.{binary_number, same_declared, same_expression, same_expressions, same_flag, same_head, same_parameter, same_retry, same_types, unary_number};

use flow_base::syntax::{Binary, Declaration, Expr, Parameter, Retry, Stmt, TypeAt, Unary};
use flow_base::value::Kind;

fn unary_number(op: Unary) -> u8
    ensures { result ≡ unary_number op }
{
    match op {
        Unary::Not => 0,
        Unary::Negate => 1,
        Unary::TextOf => 2,
        Unary::Length => 3,
    }
}

fn binary_number(op: Binary) -> u8
    ensures { result ≡ binary_number op }
{
    match op {
        Binary::Or => 0,
        Binary::And => 1,
        Binary::Equal => 2,
        Binary::Differ => 3,
        Binary::Less => 4,
        Binary::AtMost => 5,
        Binary::Greater => 6,
        Binary::AtLeast => 7,
        Binary::Add => 8,
        Binary::Subtract => 9,
        Binary::Join => 10,
        Binary::Multiply => 11,
        Binary::Divide => 12,
        Binary::Remain => 13,
    }
}

fn same_kind(left: Kind, right: Kind) -> bool
    ensures { result ≡ is_kind left right }
{
    match (left, right) {
        (Kind::Int, Kind::Int) => true,
        (Kind::Text, Kind::Text) => true,
        _ => false,
    }
}

/// Whether two expressions are the same up to places.
fn same_expr(left: &Expr, right: &Expr) -> bool
    ensures { result ≡ same_expression (shown_expr left.now) (shown_expr right.now) }
{
    match (left, right) {
        (Expr::Int(_, n), Expr::Int(_, m)) => *n == *m,
        (Expr::Text(_, t), Expr::Text(_, u)) => t.is(u),
        (Expr::Var(_, x), Expr::Var(_, y)) => x.is(y),
        (Expr::Now(_), Expr::Now(_)) => true,
        (Expr::Unary(_, f, a), Expr::Unary(_, g, b)) => {
            unary_number(*f) == unary_number(*g) && same_expr(a, b)
        }
        (Expr::Binary(f, a, b), Expr::Binary(g, c, d)) => {
            binary_number(*f) == binary_number(*g) && same_expr(a, c) && same_expr(b, d)
        }
        _ => false,
    }
}

fn same_exprs(left: &[Expr], right: &[Expr]) -> bool
    ensures { result ≡ same_expressions (map shown_expr left.now) (map shown_expr right.now) }
{
    let mut others = right;
    for e in left {
        match others.split_first() {
            None => return false,
            Some((d, rest)) => {
                if !same_expr(e, d) {
                    return false;
                }
                others = rest;
            }
        }
    }
    others.is_empty()
}

fn same_retry(left: &Retry, right: &Retry) -> bool
    ensures { result ≡ same_retry left.now right.now }
{
    left.tries == right.tries && left.every == right.every
}

fn same_flag(left: bool, right: bool) -> bool
    ensures { result ≡ same_flag left right }
{
    if left { right } else { !right }
}

/// Whether two statements have one head: all but their lists is the same up to places, and of two calls both have an
/// `else` or neither.
pub(crate) fn same_head(left: &Stmt, right: &Stmt) -> bool
    ensures { result ≡ same_head (shown_stmt left.now) (shown_stmt right.now) }
{
    match (left, right) {
        (Stmt::Let(_, _, x, e), Stmt::Let(_, _, y, d)) => x.is(y) && same_expr(e, d),
        (Stmt::Assign(_, x, e), Stmt::Assign(_, y, d)) => x.is(y) && same_expr(e, d),
        (Stmt::Call(_, x, _, a, es, r, o), Stmt::Call(_, y, _, b, ds, q, u)) => {
            x.is(y)
                && a.is(b)
                && same_exprs(es, ds)
                && same_retry(r, q)
                && same_flag(o.is_some(), u.is_some())
        }
        (Stmt::WaitSignal(_, x, _, n), Stmt::WaitSignal(_, y, _, m)) => x.is(y) && n.is(m),
        (Stmt::WaitSignalFor(_, x, _, n, e, _), Stmt::WaitSignalFor(_, y, _, m, d, _)) => {
            x.is(y) && n.is(m) && same_expr(e, d)
        }
        (Stmt::Sleep(_, e), Stmt::Sleep(_, d)) => same_expr(e, d),
        (Stmt::If(_, e, _, _), Stmt::If(_, d, _, _)) => same_expr(e, d),
        (Stmt::While(_, e, _), Stmt::While(_, d, _)) => same_expr(e, d),
        (Stmt::Parallel(_, _, _, _), Stmt::Parallel(_, _, _, _)) => true,
        (Stmt::Patch(_, _, i, _, _), Stmt::Patch(_, _, j, _, _)) => i.is(j),
        (Stmt::Deprecate(_, _, i), Stmt::Deprecate(_, _, j)) => i.is(j),
        (Stmt::Return(_, e), Stmt::Return(_, d)) => same_expr(e, d),
        (Stmt::FailWith(_, e), Stmt::FailWith(_, d)) => same_expr(e, d),
        (Stmt::Continue(_, es), Stmt::Continue(_, ds)) => same_exprs(es, ds),
        _ => false,
    }
}

pub(crate) fn same_parameter(left: &Parameter, right: &Parameter) -> bool
    ensures { result ≡ same_parameter left.now right.now }
{
    left.name.is(&right.name) && same_kind(left.kind, right.kind)
}

fn same_types(left: &[TypeAt], right: &[TypeAt]) -> bool
    ensures { result ≡ same_types left.now right.now }
{
    let mut others = right;
    for t in left {
        match others.split_first() {
            None => return false,
            Some((u, rest)) => {
                if !same_kind(t.kind, u.kind) {
                    return false;
                }
                others = rest;
            }
        }
    }
    others.is_empty()
}

pub(crate) fn same_declaration(left: &Declaration, right: &Declaration) -> bool
    ensures { result ≡ same_declared (shown_declaration left.now) (shown_declaration right.now) }
{
    match (left, right) {
        (Declaration::Activity(_, _, n, ts, j), Declaration::Activity(_, _, m, us, k)) => {
            n.is(m) && same_types(ts, us) && same_kind(*j, *k)
        }
        (Declaration::Signal(_, _, n, j), Declaration::Signal(_, _, m, k)) => {
            n.is(m) && same_kind(*j, *k)
        }
        _ => false,
    }
}
