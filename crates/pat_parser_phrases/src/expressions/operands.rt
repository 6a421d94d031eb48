// Operands, and what stands before one.
ghost use Rattle.std.specs.Prelude.{◌≡◌, IfOk, option_map};
ghost use Rattle.pat_parser_spec.specs.Trees as trees;
ghost use Rattle.pat_parser_spec.specs.Grammar as grammar;
ghost use Rattle.pat_parser_spec.specs.Machine as m;
ghost use Rattle.pat_primitives.specs.Views.{op_view};
ghost use Rattle.pat_parser_phrases.specs.expressions.Views.{operand_view, left_view, pending_view};
ghost use Rattle.pat_parser_phrases.specs.expressions.Operators.{pending_behind};

use pat_primitives::Op;
use pat_syntax::Span;
use pat_tree::{ExprForm, TreeExpr};
use std::alloc::{AllocError, Global};

/// An expression, and where its text begins, brackets included.
#[derive(Drop)]
pub struct Operand {
    pub value: TreeExpr,
    pub from: u32,
}

/// What stands before an operand, by level.
#[derive(Drop)]
pub struct Pending {
    pub compared: Option<(Op, Operand)>,
    pub added: Option<(Op, Operand)>,
    pub multiplied: Option<Operand>,
}

/// Nothing stands before an operand.
pub fn nothing() -> Pending
    ensures { pending_view result ≡ m.nothing }
{
    Pending {
        compared: None,
        added: None,
        multiplied: None,
    }
}

fn binary(
    alloc: Global,
    op: Op,
    left: Operand,
    right: Operand,
    to: u32,
) -> Result<Operand, AllocError>
    ensures { IfOk result (λ a. operand_view a ≡ grammar.combined (op_view op) (operand_view left) (operand_view right) to) }
{
    let from = left.from;
    let left = Box::new(alloc, left.value)?;
    let right = Box::new(alloc, right.value)?;
    let form = ExprForm::Op(op, left, right);
    let span = Span { from, to };
    let value = TreeExpr { form, span };
    Ok(Operand { value, from })
}

fn product(
    alloc: Global,
    left: Option<Operand>,
    right: Operand,
    to: u32,
) -> Result<Operand, AllocError>
    ensures { IfOk result (λ a. operand_view a ≡ m.product_of (option_map operand_view left) (operand_view right) to) }
{
    match left {
        None => Ok(right),
        Some(left) => binary(alloc, Op::Mul, left, right, to),
    }
}

fn joined(
    alloc: Global,
    left: Option<(Op, Operand)>,
    right: Operand,
    to: u32,
) -> Result<Operand, AllocError>
    ensures { IfOk result (λ a. operand_view a ≡ m.joined (left_view left) (operand_view right) to) }
{
    match left {
        None => Ok(right),
        Some((op, left)) => binary(alloc, op, left, right, to),
    }
}

fn sum(
    alloc: Global,
    added: Option<(Op, Operand)>,
    multiplied: Option<Operand>,
    last: Operand,
    to: u32,
) -> Result<Operand, AllocError>
    ensures { IfOk result (λ a. operand_view a ≡ m.joined (left_view added) (m.product_of (option_map operand_view multiplied) (operand_view last) to) to) }
{
    let product = product(alloc, multiplied, last, to)?;
    joined(alloc, added, product, to)
}

/// The expression that ends with this operand.
pub fn whole(alloc: Global, pending: Pending, last: Operand, to: u32) -> Result<Operand, AllocError>
    ensures { IfOk result (λ a. operand_view a ≡ m.whole_of (pending_view pending) (operand_view last) to) }
{
    let sum = sum(alloc, pending.added, pending.multiplied, last, to)?;
    joined(alloc, pending.compared, sum, to)
}

/// What stands before the operand behind an operator.
pub fn with_operator(
    alloc: Global,
    pending: Pending,
    op: Op,
    last: Operand,
    to: u32,
) -> Result<Pending, AllocError>
    ensures { IfOk result (λ p. pending_view p ≡ pending_behind (op_view op) (pending_view pending) (operand_view last) to) }
{
    let Pending {
        compared,
        added,
        multiplied,
    } = pending;
    match op {
        Op::Mul => {
            let multiplied = Some(product(alloc, multiplied, last, to)?);
            Ok(Pending {
                compared,
                added,
                multiplied,
            })
        }
        Op::Add | Op::Sub => {
            let added = Some((op, sum(alloc, added, multiplied, last, to)?));
            Ok(Pending {
                compared,
                added,
                multiplied: None,
            })
        }
        Op::Equal | Op::Less => {
            let compared = Some((op, sum(alloc, added, multiplied, last, to)?));
            Ok(Pending {
                compared,
                added: None,
                multiplied: None,
            })
        }
    }
}
