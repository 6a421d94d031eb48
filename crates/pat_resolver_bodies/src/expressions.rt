// Expressions: their names, and the kinds of their parts.
ghost use Rattle.std.specs.Prelude.{◌≡◌, length, map, IfOk};
ghost use Rattle.pat_semantics_spec.specs.Programs.{kind_of};
ghost use Rattle.pat_resolver_spec.specs.Scopes.{kind_of_expr};
ghost use Rattle.pat_resolver_spec.specs.Findings.{parts_findings, expr_findings, shown_findings, args_findings};
ghost use Rattle.pat_core.specs.Views.{kind_view, sort_view};
ghost use Rattle.pat_resolver_heads.specs.tables.Views.{scope_view};
ghost use Rattle.pat_tree.specs.Views.{expr_view};
ghost use Rattle.pat_resolver_heads.specs.results.Results.{Meets};

use crate::kinds::{
    broken, check_left, exact_kind, is_shown, kind_given, kind_of_sort, right_need,
};
use pat_core::{Kind, Sort};
use pat_resolver_heads::{ResolveError, ResolveKind, ScopeTable};
use pat_tree::{ExprForm, TreeExpr};

/// Examines the parts of an expression: names, and what operators need of their sides. Answers its kind.
#[tactic(auto, using(crate::proofs::Order::in_order))]
pub fn check_parts(scope: &ScopeTable, e: &TreeExpr) -> Result<Kind, ResolveError>
    ensures found { Meets result (parts_findings (scope_view scope.now) (expr_view e.now)) }
    ensures kind { IfOk result (λ k. kind_view k ≡ kind_of_expr (scope_view scope.now) (expr_view e.now)) }
{
    match &e.form {
        ExprForm::Var(name) => match scope.find(name) {
            Some(variable) => Ok(variable.kind),
            None => Err(broken(ResolveKind::UnknownName, e.span)),
        },
        ExprForm::Unit => Ok(Kind::Unit),
        ExprForm::Bool(_) => Ok(Kind::Bool),
        ExprForm::Int(_) => Ok(Kind::Int),
        ExprForm::Str(_) => Ok(Kind::Str),
        ExprForm::Op(op, left, right) => {
            let left_kind = check_parts(scope, left)?;
            check_left(*op, left_kind, left.span)?;
            let right_kind = check_parts(scope, right)?;
            exact_kind(right_need(*op, left_kind), right_kind, right.span)?;
            Ok(kind_given(*op))
        }
    }
}

/// Examines an expression of which a kind is needed.
#[tactic(auto, using(crate::proofs::Order::in_order))]
pub fn check_expr(scope: &ScopeTable, need: Kind, e: &TreeExpr) -> Result<(), ResolveError>
    ensures { Meets result (expr_findings (scope_view scope.now) (kind_view need) (expr_view e.now)) }
{
    let kind = check_parts(scope, e)?;
    exact_kind(need, kind, e.span)
}

/// Examines an expression that is printed.
#[tactic(auto, using(crate::proofs::Order::in_order))]
pub fn check_shown(scope: &ScopeTable, e: &TreeExpr) -> Result<(), ResolveError>
    ensures { Meets result (shown_findings (scope_view scope.now) (expr_view e.now)) }
{
    let kind = check_parts(scope, e)?;
    if is_shown(kind) {
        Ok(())
    } else {
        Err(broken(ResolveKind::WrongKind, e.span))
    }
}

/// Examines arguments, one for each written type.
#[tactic(auto, using(crate::proofs::Order::in_order))]
pub fn check_args(scope: &ScopeTable, sorts: &[Sort], args: &[TreeExpr]) -> Result<(), ResolveError>
    requires { length args.now ≡ length sorts.now }
    ensures { Meets result (args_findings (scope_view scope.now) (map kind_of (map sort_view sorts.now)) (map expr_view args.now)) }
{
    for (place, arg) in args.iter().enumerate() {
        check_expr(scope, kind_of_sort(&sorts[place]), arg)?;
    }
    Ok(())
}
