// Kinds, and what needs them.
ghost use Rattle.std.specs.Prelude.{◌≡◌, option_map, IfOk};
ghost use Rattle.pat_semantics_spec.specs.Values.{Plain};
ghost use Rattle.pat_semantics_spec.specs.Programs.{kind_of};
ghost use Rattle.pat_resolver_spec.specs.Scopes.{kind_eq, is_shown as is_shown_kind, op_gives};
ghost use Rattle.pat_resolver_spec.specs.Findings.{UnknownName, own_kind, right_needs, left_findings, unless, found};
ghost use Rattle.pat_core.specs.Views.{kind_view, sort_view};
ghost use Rattle.pat_primitives.specs.Views.{op_view};
ghost use Rattle.pat_tree.specs.Views.{span_view};
ghost use Rattle.pat_resolver_heads.specs.results.Results.{Meets};
ghost use Rattle.pat_resolver_heads.specs.results.Views.{rule_view};
ghost use Rattle.pat_resolver_bodies.specs.Needs.{needed, first_known as known_of};

use pat_core::{Kind, Sort};
use pat_primitives::{Base, Op};
use pat_resolver_heads::{ResolveError, ResolveKind};
use pat_syntax::Span;

/// The refusal of a broken rule at a place.
pub fn broken(kind: ResolveKind, span: Span) -> ResolveError
    ensures { result ≡ ResolveError.Broken kind span }
{
    ResolveError::Broken { kind, span }
}

/// The kind of a variable of a written type.
pub fn kind_of_sort(sort: &Sort) -> Kind
    ensures { kind_view result ≡ kind_of (sort_view sort.now) }
{
    match sort {
        Sort::Base(Base::Unit) => Kind::Unit,
        Sort::Base(Base::Bool) => Kind::Bool,
        Sort::Base(Base::Int) => Kind::Int,
        Sort::Base(Base::Str) => Kind::Str,
        Sort::Mailbox(mailbox) => Kind::Mailbox(mailbox.interface),
    }
}

/// Whether two kinds are the same.
pub fn is_same(a: Kind, b: Kind) -> bool
    ensures { result ≡ kind_eq (kind_view a) (kind_view b) }
{
    match (a, b) {
        (Kind::Unit, Kind::Unit) => true,
        (Kind::Bool, Kind::Bool) => true,
        (Kind::Int, Kind::Int) => true,
        (Kind::Str, Kind::Str) => true,
        (Kind::Mailbox(i), Kind::Mailbox(j)) => i == j,
        _ => false,
    }
}

/// Whether values of the kind are printed and compared.
pub fn is_shown(kind: Kind) -> bool
    ensures { result ≡ is_shown_kind (kind_view kind) }
{
    matches!(kind, Kind::Bool | Kind::Int | Kind::Str)
}

/// Compares the kind that a term has with the one that is needed there, if one is. Answers the kind that is needed.
pub fn need_kind(need: Option<Kind>, given: Kind, span: Span) -> Result<Kind, ResolveError>
    ensures found { Meets result (own_kind (needed (option_map kind_view need) (kind_view given)) (kind_view given) (span_view span)) }
    ensures kind { IfOk result (λ k. kind_view k ≡ needed (option_map kind_view need) (kind_view given)) }
{
    match need {
        None => Ok(given),
        Some(kind) => {
            if is_same(kind, given) {
                Ok(kind)
            } else {
                Err(broken(ResolveKind::WrongKind, span))
            }
        }
    }
}

/// Compares the kind that an expression has with the one that is needed there.
pub fn exact_kind(need: Kind, given: Kind, span: Span) -> Result<(), ResolveError>
    ensures { Meets result (own_kind (kind_view need) (kind_view given) (span_view span)) }
{
    if is_same(need, given) {
        Ok(())
    } else {
        Err(broken(ResolveKind::WrongKind, span))
    }
}

/// Compares the kind of an operator's left side with what the operator needs there.
pub fn check_left(op: Op, kind: Kind, span: Span) -> Result<(), ResolveError>
    ensures { Meets result (left_findings (op_view op) (kind_view kind) (span_view span)) }
{
    let fits = match op {
        Op::Equal => is_shown(kind),
        Op::Add | Op::Sub | Op::Mul | Op::Less => is_same(Kind::Int, kind),
    };
    if fits {
        Ok(())
    } else {
        Err(broken(ResolveKind::WrongKind, span))
    }
}

/// What an operator needs of its right side, where its left side has a kind.
pub fn right_need(op: Op, left: Kind) -> Kind
    ensures { kind_view result ≡ right_needs (op_view op) (kind_view left) }
{
    match op {
        Op::Equal => left,
        Op::Add | Op::Sub | Op::Mul | Op::Less => Kind::Int,
    }
}

/// The kind of what an operator gives.
pub fn kind_given(op: Op) -> Kind
    ensures { kind_view result ≡ Plain (op_gives (op_view op)) }
{
    match op {
        Op::Add | Op::Sub | Op::Mul => Kind::Int,
        Op::Equal | Op::Less => Kind::Bool,
    }
}

/// What is known, or else what was known before.
pub fn first_known(kind: Option<Kind>, before: Option<Kind>) -> Option<Kind>
    ensures { option_map kind_view result ≡ known_of (option_map kind_view kind) (option_map kind_view before) }
{
    match kind {
        Some(kind) => Some(kind),
        None => before,
    }
}
