// Expressions.
ghost use Rattle.std.specs.Prelude.{◌≡◌, ◌++◌, ◌∷◌, [], OnOk};
ghost use Rattle.pat_print_spec.specs.Canonical.{op_token, opens_atom, opens_product, opens_sum, opens_left, opens_right, bracketed, expr_onto};
ghost use Rattle.pat_print_spec.specs.Text.{token_bytes};
ghost use Rattle.pat_primitives.specs.Views.{op_view};
ghost use Rattle.pat_tree.specs.Views.{expr_view};
ghost use Rattle.pat_print.specs.Parts.{bytes_of};

use crate::atoms::{put_integer, put_string};
use pat_primitives::Op;
use pat_tree::{ExprForm, TreeExpr};
use std::alloc::{AllocError, Global};

/// Appends an expression.
#[cycle(expression)]
#[tactic(auto, using(crate::proofs::Lines::sides_are))]
pub fn put_expression(
    alloc: Global,
    out: &mut Vec<u8>,
    expression: &TreeExpr,
) -> Result<(), AllocError>
    ensures { OnOk result (out.new.items ≡ out.old.items ++ bytes_of (expr_onto (expr_view expression.now))) }
{
    match &expression.form {
        ExprForm::Var(name) => out.extend_from_slice(name.as_bytes()),
        ExprForm::Unit => out.extend_from_slice(b"()"),
        ExprForm::Bool(true) => out.extend_from_slice(b"true"),
        ExprForm::Bool(false) => out.extend_from_slice(b"false"),
        ExprForm::Int(n) => put_integer(alloc, out, *n),
        ExprForm::Str(text) => put_string(out, text),
        ExprForm::Op(op, left, right) => {
            put_operand(alloc, out, left, opens_left(*op, left))?;
            out.extend_from_slice(operator_text(*op))?;
            put_operand(alloc, out, right, opens_right(*op, right))
        }
    }
}

/// Appends a side of an operator, in brackets where it needs them.
#[cycle(expression)]
#[tactic(auto, using(crate::proofs::Lines::operand_is))]
fn put_operand(
    alloc: Global,
    out: &mut Vec<u8>,
    operand: &TreeExpr,
    brackets: bool,
) -> Result<(), AllocError>
    ensures { OnOk result (out.new.items ≡ out.old.items ++ bytes_of (bracketed brackets (expr_onto (expr_view operand.now)))) }
{
    if !brackets {
        return put_expression(alloc, out, operand);
    }
    out.push(b'(')?;
    put_expression(alloc, out, operand)?;
    out.push(b')')?;
    Ok(())
}

/// An operator, with a space on each side.
fn operator_text(op: Op) -> &'static [u8]
    ensures { result.now ≡ 32 ∷ (token_bytes (op_token (op_view op)) ++ 32 ∷ []) }
{
    match op {
        Op::Add => b" + ",
        Op::Sub => b" - ",
        Op::Mul => b" * ",
        Op::Equal => b" == ",
        Op::Less => b" < ",
    }
}

/// Whether the left side of an operator needs brackets.
fn opens_left(op: Op, operand: &TreeExpr) -> bool
    ensures { result ≡ opens_left (op_view op) (expr_view operand.now) }
{
    match op {
        Op::Mul => opens_product(operand),
        _ => opens_sum(operand),
    }
}

/// Whether the right side of an operator needs brackets.
fn opens_right(op: Op, operand: &TreeExpr) -> bool
    ensures { result ≡ opens_right (op_view op) (expr_view operand.now) }
{
    match op {
        Op::Mul => opens_atom(operand),
        Op::Add | Op::Sub => opens_product(operand),
        Op::Equal | Op::Less => opens_sum(operand),
    }
}

/// Whether an expression needs brackets where an atom is wanted: it has an operator.
fn opens_atom(operand: &TreeExpr) -> bool
    ensures { result ≡ opens_atom (expr_view operand.now) }
{
    matches!(operand.form, ExprForm::Op(..))
}

/// Whether an expression needs brackets where a product is wanted.
fn opens_product(operand: &TreeExpr) -> bool
    ensures { result ≡ opens_product (expr_view operand.now) }
{
    matches!(
        operand.form,
        ExprForm::Op(Op::Add | Op::Sub | Op::Equal | Op::Less, ..)
    )
}

/// Whether an expression needs brackets where a sum is wanted.
fn opens_sum(operand: &TreeExpr) -> bool
    ensures { result ≡ opens_sum (expr_view operand.now) }
{
    matches!(operand.form, ExprForm::Op(Op::Equal | Op::Less, ..))
}
