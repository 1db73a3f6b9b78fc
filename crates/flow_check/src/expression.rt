ghost use Rattle.std.specs.Prelude.{◌≡◌, ℕ};
ghost use Rattle.flow_base.specs.Shown.{shown_expr};
ghost use Rattle.flow_model.specs.WellFormed.{kind_of, is_kind, faults_of_expression, faults_of_wanted, earliest, wrong_kind, wrong_operands, applied_kind, combined_kind, operand_kind, operands_kind, operands_fit, not_visible, type_known, beginning as beginning_of};
ghost use Rattle.flow_check.specs.Tables.{types_of};

use crate::first::FirstFault;
use crate::scope::Scope;
use flow_base::code::Code;
use flow_base::syntax::{Binary, Expr, Unary};
use flow_base::value::Kind;

/// Notes the faults of an expression and gives its type; none where a part of it holds a fault.
pub fn check_expression(scope: &Scope, expr: &Expr, found: &mut FirstFault) -> Option<Kind>
    ensures kind { result ≡ kind_of (types_of scope.now) (shown_expr expr.now) }
    ensures noted { found.new ≡ earliest found.old (faults_of_expression (types_of scope.now) (shown_expr expr.now)) }
{
    match expr {
        Expr::Int(_, _) => Some(Kind::Int),
        Expr::Text(_, _) => Some(Kind::Text),
        Expr::Var(at, name) => check_variable(scope.variable(name), *at, found),
        Expr::Now(_) => Some(Kind::Int),
        Expr::Unary(_, op, a) => {
            let kind = check_expression(scope, a, found);
            check_kind(kind, operand_of(*op), beginning(a), found);
            unary_kind(*op, kind)
        }
        Expr::Binary(op, a, b) => {
            let left = check_expression(scope, a, found);
            let right = check_expression(scope, b, found);
            check_operands(*op, left, right, beginning(a), beginning(b), found);
            binary_kind(*op, left, right)
        }
    }
}

/// Notes a variable that isn't visible.
fn check_variable(known: Option<Option<Kind>>, at: usize, found: &mut FirstFault) -> Option<Kind>
    ensures kind { result ≡ type_known known }
    ensures noted { found.new ≡ earliest found.old (not_visible known at) }
{
    match known {
        None => {
            found.note(Code::NotVisible, at);
            None
        }
        Some(kind) => kind,
    }
}

/// Notes a known type other than the wanted one.
pub fn check_kind(kind: Option<Kind>, wanted: Kind, at: usize, found: &mut FirstFault)
    ensures { found.new ≡ earliest found.old (wrong_kind wanted kind at) }
{
    if let Some(kind) = kind {
        if !is_same(kind, wanted) {
            found.note(Code::BadType, at);
        }
    }
}

/// Notes the faults of an expression, and a type other than the wanted one.
pub fn check_wanted(scope: &Scope, wanted: Kind, expr: &Expr, found: &mut FirstFault)
    ensures { found.new ≡ earliest found.old (faults_of_wanted (types_of scope.now) wanted (shown_expr expr.now)) }
{
    let kind = check_expression(scope, expr, found);
    check_kind(kind, wanted, beginning(expr), found);
}

/// Notes operands of the wrong type, with the places where they begin.
fn check_operands(
    op: Binary,
    left: Option<Kind>,
    right: Option<Kind>,
    left_at: usize,
    right_at: usize,
    found: &mut FirstFault,
)
    ensures { found.new ≡ earliest found.old (wrong_operands (operands_kind op) left right left_at right_at) }
{
    match operands_of(op) {
        Some(wanted) => {
            check_kind(left, wanted, left_at, found);
            check_kind(right, wanted, right_at, found);
        }
        None => check_same(left, right, right_at, found),
    }
}

/// Notes a right side of another type than the left side.
fn check_same(left: Option<Kind>, right: Option<Kind>, at: usize, found: &mut FirstFault)
    ensures { (left_at : ℕ) → found.new ≡ earliest found.old (wrong_operands None left right left_at at) }
{
    if let Some(wanted) = left {
        check_kind(right, wanted, at, found);
    }
}

/// The byte at which an expression begins.
pub fn beginning(expr: &Expr) -> usize
    ensures { result ≡ beginning_of (shown_expr expr.now) }
{
    match expr {
        Expr::Int(at, _) => *at,
        Expr::Text(at, _) => *at,
        Expr::Var(at, _) => *at,
        Expr::Now(at) => *at,
        Expr::Unary(at, _, _) => *at,
        Expr::Binary(_, left, _) => beginning(left),
    }
}

fn is_same(kind: Kind, wanted: Kind) -> bool
    ensures { result ≡ is_kind kind wanted }
{
    match kind {
        Kind::Int => match wanted {
            Kind::Int => true,
            Kind::Text => false,
        },
        Kind::Text => match wanted {
            Kind::Int => false,
            Kind::Text => true,
        },
    }
}

fn operand_of(op: Unary) -> Kind
    ensures { result ≡ operand_kind op }
{
    match op {
        Unary::Length => Kind::Text,
        _ => Kind::Int,
    }
}

fn unary_kind(op: Unary, operand: Option<Kind>) -> Option<Kind>
    ensures { result ≡ applied_kind op operand }
{
    if !is_same(operand?, operand_of(op)) {
        return None;
    }
    match op {
        Unary::TextOf => Some(Kind::Text),
        _ => Some(Kind::Int),
    }
}

/// The type of both operands; none where they may have either type, but the same.
fn operands_of(op: Binary) -> Option<Kind>
    ensures { result ≡ operands_kind op }
{
    match op {
        Binary::Equal => None,
        Binary::Differ => None,
        Binary::Join => Some(Kind::Text),
        _ => Some(Kind::Int),
    }
}

fn binary_kind(op: Binary, left: Option<Kind>, right: Option<Kind>) -> Option<Kind>
    ensures { result ≡ combined_kind op left right }
{
    if !operands_match(op, left?, right?) {
        return None;
    }
    match op {
        Binary::Join => Some(Kind::Text),
        _ => Some(Kind::Int),
    }
}

fn operands_match(op: Binary, left: Kind, right: Kind) -> bool
    ensures { result ≡ operands_fit (operands_kind op) left right }
{
    match operands_of(op) {
        None => is_same(right, left),
        Some(wanted) => is_same(left, wanted) && is_same(right, wanted),
    }
}
