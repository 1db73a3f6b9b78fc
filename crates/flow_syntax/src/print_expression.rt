//! The tokens of an expression, with parentheses only where the grammar needs them.
ghost use Rattle.std.specs.Prelude.{◌≡◌, ◌++◌, map, OnOk};
ghost use Rattle.flow_base.specs.Shown.{shown_expr};
ghost use Rattle.flow_syntax.specs.Print.{spaced, fitted, in_parentheses, level, unary_words, expression_words, arguments_words};

use crate::levels::{binary_mark, left_level, level, right_level};
use crate::listed::{Item, print_list};
use crate::printer::Printer;
use flow_base::syntax::{Expr, Unary};
use flow_base::token::Mark;
use std::alloc::AllocError;

/// Prints an expression, with parentheses only where the grammar needs them.
#[cycle(expression)]
pub fn expr(out: &mut Printer, expr: &Expr) -> Result<(), AllocError>
    ensures { OnOk result (out.new ≡ out.old ++ spaced (expression_words (shown_expr expr.now))) }
{
    match expr {
        Expr::Int(_, number) => out.number(*number),
        Expr::Text(_, text) => out.quoted(text.as_str()),
        Expr::Var(_, name) => out.name(name),
        Expr::Now(_) => out.mark(Mark::Now),
        Expr::Unary(_, operator, inner) => unary(out, *operator, inner),
        Expr::Binary(operator, left, right) => {
            operand(out, left, left_level(*operator))?;
            out.mark(binary_mark(*operator))?;
            operand(out, right, right_level(*operator))?;
            Ok(())
        }
    }
}

/// An expression in parentheses.
#[cycle(expression)]
fn enclosed(out: &mut Printer, inner: &Expr) -> Result<(), AllocError>
    ensures { OnOk result (out.new ≡ out.old ++ spaced (in_parentheses (expression_words (shown_expr inner.now)))) }
{
    out.mark(Mark::Open)?;
    expr(out, inner)?;
    out.mark(Mark::Close)?;
    Ok(())
}

/// An operand where the production of this level reads it.
#[cycle(expression)]
fn operand(out: &mut Printer, inner: &Expr, wanted: u8) -> Result<(), AllocError>
    ensures { OnOk result (out.new ≡ out.old ++ spaced
        (fitted (level (shown_expr inner.now)) wanted (expression_words (shown_expr inner.now)))) }
{
    if level(inner) < wanted {
        enclosed(out, inner)
    } else {
        expr(out, inner)
    }
}

#[cycle(expression)]
fn unary(out: &mut Printer, operator: Unary, inner: &Expr) -> Result<(), AllocError>
    ensures { OnOk result (out.new ≡ out.old ++ spaced
        (unary_words operator (level (shown_expr inner.now)) (expression_words (shown_expr inner.now)))) }
{
    match operator {
        Unary::Not => {
            out.mark(Mark::Not)?;
            operand(out, inner, 2)?;
            Ok(())
        }
        Unary::Negate => {
            out.mark(Mark::Minus)?;
            operand(out, inner, 6)?;
            Ok(())
        }
        Unary::TextOf => {
            out.mark(Mark::Text)?;
            enclosed(out, inner)?;
            Ok(())
        }
        Unary::Length => {
            out.mark(Mark::Len)?;
            enclosed(out, inner)?;
            Ok(())
        }
    }
}

impl Item for Expr {
    ghost item_words = { λ e. expression_words (shown_expr e) };

    fn print(&self, out: &mut Printer) -> Result<(), AllocError> {
        expr(out, self)
    }
}

/// Prints a list of arguments in its parentheses.
pub fn arguments(out: &mut Printer, list: &[Expr]) -> Result<(), AllocError>
    ensures { OnOk result (out.new ≡ out.old ++ spaced (arguments_words (map shown_expr list.now))) }
{
    print_list(out, list)
}
