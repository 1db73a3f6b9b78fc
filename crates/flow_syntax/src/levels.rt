//! Where an expression stands in the grammar, which decides whether it needs parentheses. A level is the number of a
//! production: 0 `expr`, 1 `conj`, 2 `neg`, 3 `cmp`, 4 `sum`, 5 `term`, 6 `unary`, 7 `prim`. Each of them reads all that a
//! later one reads.
ghost use Rattle.std.specs.Prelude.{◌≡◌, ◌≤◌};
ghost use Rattle.flow_base.specs.Shown.{shown_expr};
ghost use Rattle.flow_syntax.specs.Print.{level, binary_level, unary_level, left_level, right_level, binary_mark};

use flow_base::syntax::{Binary, Expr, Unary};
use flow_base::token::Mark;

/// The production that makes the expression.
pub fn level(expr: &Expr) -> u8
    ensures { result ≡ level (shown_expr expr.now) }
{
    match expr {
        Expr::Int(_, _) | Expr::Text(_, _) | Expr::Var(_, _) | Expr::Now(_) => 7,
        Expr::Unary(_, operator, _) => unary_level(*operator),
        Expr::Binary(operator, _, _) => binary_level(*operator),
    }
}

fn unary_level(operator: Unary) -> u8
    ensures { result ≡ unary_level operator }
{
    match operator {
        Unary::Not => 2,
        Unary::Negate => 6,
        Unary::TextOf | Unary::Length => 7,
    }
}

fn binary_level(operator: Binary) -> u8
    ensures own { result ≡ binary_level operator }
    ensures last { result ≤ 5 }
{
    match operator {
        Binary::Or => 0,
        Binary::And => 1,
        Binary::Equal | Binary::Differ | Binary::Less => 3,
        Binary::AtMost | Binary::Greater | Binary::AtLeast => 3,
        Binary::Add | Binary::Subtract | Binary::Join => 4,
        Binary::Multiply | Binary::Divide | Binary::Remain => 5,
    }
}

/// What reads the left operand.
pub fn left_level(operator: Binary) -> u8
    ensures { result ≡ left_level operator }
{
    match operator {
        Binary::Or => 0,
        Binary::And => 1,
        Binary::Equal | Binary::Differ | Binary::Less => 4,
        Binary::AtMost | Binary::Greater | Binary::AtLeast => 4,
        Binary::Add | Binary::Subtract | Binary::Join => 4,
        Binary::Multiply | Binary::Divide | Binary::Remain => 5,
    }
}

/// What reads the right operand: the production behind the operator's own.
#[tactic(auto, using(crate::proofs::Operands::next_production))]
pub fn right_level(operator: Binary) -> u8
    ensures { result ≡ right_level operator }
{
    binary_level(operator) + 1
}

/// The mark that an operator is written with.
pub fn binary_mark(operator: Binary) -> Mark
    ensures { result ≡ binary_mark operator }
{
    match operator {
        Binary::Or => Mark::Or,
        Binary::And => Mark::And,
        Binary::Equal => Mark::Equal,
        Binary::Differ => Mark::Differ,
        Binary::Less => Mark::Less,
        Binary::AtMost => Mark::AtMost,
        Binary::Greater => Mark::Greater,
        Binary::AtLeast => Mark::AtLeast,
        Binary::Add => Mark::Plus,
        Binary::Subtract => Mark::Minus,
        Binary::Join => Mark::Join,
        Binary::Multiply => Mark::Times,
        Binary::Divide => Mark::Over,
        Binary::Remain => Mark::Percent,
    }
}
