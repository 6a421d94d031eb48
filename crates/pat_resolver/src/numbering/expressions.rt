// Expressions over numbered variables.
ghost use Rattle.std.specs.Prelude.{◌≡◌, map, IfOk};
ghost use Rattle.pat_core.specs.Views.{expr_view as core_view};
ghost use Rattle.pat_resolver_spec.specs.Numbering.{expr_of};
ghost use Rattle.pat_primitives.specs.Views.{op_view};
ghost use Rattle.pat_resolver_heads.specs.tables.Views.{scope_view};
ghost use Rattle.pat_tree.specs.Views.{expr_view};

use crate::numbering::lookups::variable_number;
use pat_core::Expr;
use pat_resolver_heads::ScopeTable;
use pat_sequences::Sequence;
use pat_tree::{ExprForm, TreeExpr};
use std::alloc::{AllocError, Global};

/// An expression with the numbers of its variables.
pub fn number_expr(alloc: Global, scope: &ScopeTable, expr: &TreeExpr) -> Result<Expr, AllocError>
    ensures { IfOk result (λ e. core_view e ≡ expr_of (scope_view scope.now) (expr_view expr.now)) }
{
    match &expr.form {
        ExprForm::Var(name) => Ok(Expr::Var(variable_number(scope, name))),
        ExprForm::Unit => Ok(Expr::Unit),
        ExprForm::Bool(value) => Ok(Expr::Bool(*value)),
        ExprForm::Int(value) => Ok(Expr::Int(*value)),
        ExprForm::Str(text) => Ok(Expr::Str(text.copy(alloc)?)),
        ExprForm::Op(op, left, right) => {
            let left = number_expr(alloc, scope, left)?;
            let left = Box::new(alloc, left)?;
            let right = number_expr(alloc, scope, right)?;
            let right = Box::new(alloc, right)?;
            Ok(Expr::Op(*op, left, right))
        }
    }
}

/// Expressions in a row, as arguments.
pub fn number_args(
    alloc: Global,
    scope: &ScopeTable,
    args: &Sequence<TreeExpr>,
) -> Result<Sequence<Expr>, AllocError>
    ensures { IfOk result (λ es. map core_view es ≡ map (expr_of (scope_view scope.now)) (map expr_view args.now)) }
{
    let mut numbered = Sequence::from_vec(Vec::with_capacity(alloc, args.len())?);
    for arg in args.as_slice() {
        numbered.push(number_expr(alloc, scope, arg)?)?;
    }
    Ok(numbered)
}
