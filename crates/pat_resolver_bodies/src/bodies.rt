// The bodies of functions: terms, and the clauses of guards.
ghost use Rattle.std.specs.Prelude.{◌≡◌, ◌+◌, ◌<◌, ◌++◌, Some, false, length, map, OnOk, IfOk, option_map};
ghost use Rattle.pat_parser_spec.specs.Trees.{listed};
ghost use Rattle.pat_resolver_spec.specs.Findings.{term_findings, binders_in, clauses_findings, clauses_binders_in, no_earlier, has_body};
ghost use Rattle.pat_resolver_spec.specs.Numbering.{vars_of, clauses_vars_of};
ghost use Rattle.pat_resolver_spec.specs.Places.{var_places, clauses_var_places};
ghost use Rattle.pat_core.specs.Views.{kind_view};
ghost use Rattle.pat_resolver_heads.specs.tables.Views.{scope_view};
ghost use Rattle.pat_tree.specs.Views.{span_view, name_view, term_view, clause_view};
ghost use Rattle.pat_resolver_heads.specs.results.Results.{Meets};
ghost use Rattle.pat_resolver_heads.specs.Views.{heads_view};
ghost use Rattle.pat_resolver_bodies.specs.Needs.{needed, term_need, clause_need, clauses_need, of_bodies, is_let};
ghost use Rattle.pat_resolver_bodies.specs.Above.{IsAbove};
ghost use Rattle.pat_resolver_bodies.specs.Steps.{bound_findings, bound_scope, bound_binders, bound_vars, bound_places, clause_findings, clause_kind, clause_binders, clause_vars, clause_places};
ghost use Rattle.pat_limits.specs.Limits.{number_count};

use crate::expressions::{check_expr, check_parts, check_shown};
use crate::guards::{close_guard, open_guard, open_receive};
use crate::kinds::{first_known, need_kind};
use crate::lookups::{check_call, check_new, check_send, mailbox_named};
use crate::names::Seen;
use crate::variables::{Variables, leave};
use pat_core::Kind;
use pat_resolver_heads::{Heads, ResolveError, ScopeTable};
use pat_tree::{Form, Name, Term, TreeClause};
use std::alloc::Global;

/// Examines the body of a function, of which a kind is needed, with these variables in scope. Adds the variables that the
/// body binds. The scope is left as it was. After an error the scope and the variables have some of them.
pub fn check_body<'a>(
    alloc: Global,
    heads: &Heads,
    scope: &mut ScopeTable<'a>,
    variables: &mut Variables,
    need: Kind,
    body: &'a Term,
) -> Result<(), ResolveError>
    requires { length variables.old.kinds + binders_in (term_view body.now) < number_count }
    ensures found { Meets result (term_findings (heads_view heads.now) (scope_view scope.old) (length variables.old.kinds)
        (kind_view need) (term_view body.now)) }
    ensures kinds { OnOk result (map kind_view variables.new.kinds
        ≡ map kind_view variables.old.kinds
        ++ vars_of (heads_view heads.now) (scope_view scope.old) (length variables.old.kinds) (term_view body.now)) }
    ensures spans { OnOk result (map span_view variables.new.spans ≡ map span_view variables.old.spans ++ var_places (term_view body.now)) }
    ensures scope { OnOk result (scope.new ≡ scope.old) }
{
    check_term(alloc, heads, scope, variables, Some(need), body)?;
    Ok(())
}

// Examines a term. Answers the kind that is needed of it; where none is needed, the kind that it has.
#[cycle(bodies)]
fn check_term<'a>(
    alloc: Global,
    heads: &Heads,
    scope: &mut ScopeTable<'a>,
    variables: &mut Variables,
    need: Option<Kind>,
    term: &'a Term,
) -> Result<Kind, ResolveError>
    requires { length variables.old.kinds + binders_in (term_view term.now) < number_count }
    ensures found { Meets result (term_findings (heads_view heads.now) (scope_view scope.old) (length variables.old.kinds)
        (term_need (heads_view heads.now) (scope_view scope.old) (length variables.old.kinds) (option_map kind_view need)
        (term_view term.now)) (term_view term.now)) }
    ensures kind { IfOk result (λ k. kind_view k
        ≡ term_need (heads_view heads.now) (scope_view scope.old) (length variables.old.kinds) (option_map kind_view need)
        (term_view term.now)) }
    ensures kinds { OnOk result (map kind_view variables.new.kinds ≡ map kind_view variables.old.kinds
        ++ vars_of (heads_view heads.now) (scope_view scope.old) (length variables.old.kinds) (term_view term.now)) }
    ensures spans { OnOk result (map span_view variables.new.spans ≡ map span_view variables.old.spans ++ var_places (term_view term.now)) }
    ensures count { OnOk result (length variables.new.kinds ≡ length variables.old.kinds + binders_in (term_view term.now)) }
    ensures scope { OnOk result (scope.new ≡ scope.old) }
{
    let outside = scope.len();
    let mut current = term;
    while let Form::Let { name, bound, body } = &current.form {
        check_bound(alloc, heads, scope, variables, name, bound)?;
        current = body;
    }
    let kind = check_form(alloc, heads, scope, variables, need, current)?;
    leave(scope, outside);
    Ok(kind)
}

// Examines the bound term of a let or the first part of a sequence, and brings the name into scope.
#[cycle(bodies)]
fn check_bound<'a>(
    alloc: Global,
    heads: &Heads,
    scope: &mut ScopeTable<'a>,
    variables: &mut Variables,
    name: &'a Option<Name>,
    bound: &'a Term,
) -> Result<(), ResolveError>
    requires { length variables.old.kinds + bound_binders (option_map name_view name.now) (term_view bound.now) < number_count }
    ensures found { Meets result (bound_findings (heads_view heads.now) (scope_view scope.old) (length variables.old.kinds)
        (option_map name_view name.now) (term_view bound.now)) }
    ensures kinds { OnOk result (map kind_view variables.new.kinds ≡ map kind_view variables.old.kinds
        ++ bound_vars (heads_view heads.now) (scope_view scope.old) (length variables.old.kinds) (option_map name_view name.now)
        (term_view bound.now)) }
    ensures spans { OnOk result (map span_view variables.new.spans ≡ map span_view variables.old.spans
        ++ bound_places (option_map name_view name.now) (term_view bound.now)) }
    ensures count { OnOk result (length variables.new.kinds ≡ length variables.old.kinds
        + bound_binders (option_map name_view name.now) (term_view bound.now)) }
    ensures scope { OnOk result (scope_view scope.new
        ≡ bound_scope (heads_view heads.now) (scope_view scope.old) (length variables.old.kinds) (option_map name_view name.now)
        (term_view bound.now)) }
    ensures above { OnOk result (IsAbove scope.old scope.new) }
{
    match name {
        Some(name) => check_named(alloc, heads, scope, variables, name, bound),
        None => {
            check_term(alloc, heads, scope, variables, Some(Kind::Unit), bound)?;
            Ok(())
        }
    }
}

// Examines the bound term of a let, and brings the name into scope. The variable has its place before those of the term, and
// its kind behind them.
#[cycle(bodies)]
fn check_named<'a>(
    alloc: Global,
    heads: &Heads,
    scope: &mut ScopeTable<'a>,
    variables: &mut Variables,
    name: &'a Name,
    bound: &'a Term,
) -> Result<(), ResolveError>
    requires { length variables.old.kinds + bound_binders (Some (name_view name.now)) (term_view bound.now) < number_count }
    ensures found { Meets result (bound_findings (heads_view heads.now) (scope_view scope.old) (length variables.old.kinds)
        (Some (name_view name.now)) (term_view bound.now)) }
    ensures kinds { OnOk result (map kind_view variables.new.kinds ≡ map kind_view variables.old.kinds
        ++ bound_vars (heads_view heads.now) (scope_view scope.old) (length variables.old.kinds) (Some (name_view name.now))
        (term_view bound.now)) }
    ensures spans { OnOk result (map span_view variables.new.spans ≡ map span_view variables.old.spans
        ++ bound_places (Some (name_view name.now)) (term_view bound.now)) }
    ensures count { OnOk result (length variables.new.kinds ≡ length variables.old.kinds
        + bound_binders (Some (name_view name.now)) (term_view bound.now)) }
    ensures scope { OnOk result (scope_view scope.new
        ≡ bound_scope (heads_view heads.now) (scope_view scope.old) (length variables.old.kinds) (Some (name_view name.now))
        (term_view bound.now)) }
    ensures above { OnOk result (IsAbove scope.old scope.new) }
{
    let number = variables.kinds.len();
    variables.kinds.push(Kind::Unit)?;
    variables.spans.push(name.span)?;
    let kind = check_term(alloc, heads, scope, variables, None, bound)?;
    let _ = variables.kinds.replace(number, kind);
    scope.push(&name.text, number as u32, kind)?;
    Ok(())
}

// Examines a term that is no let.
#[cycle(bodies)]
fn check_form<'a>(
    alloc: Global,
    heads: &Heads,
    scope: &mut ScopeTable<'a>,
    variables: &mut Variables,
    need: Option<Kind>,
    term: &'a Term,
) -> Result<Kind, ResolveError>
    requires shape { is_let (term_view term.now) ≡ false }
    requires fits { length variables.old.kinds + binders_in (term_view term.now) < number_count }
    ensures found { Meets result (term_findings (heads_view heads.now) (scope_view scope.old) (length variables.old.kinds)
        (term_need (heads_view heads.now) (scope_view scope.old) (length variables.old.kinds) (option_map kind_view need)
        (term_view term.now)) (term_view term.now)) }
    ensures kind { IfOk result (λ k. kind_view k
        ≡ term_need (heads_view heads.now) (scope_view scope.old) (length variables.old.kinds) (option_map kind_view need)
        (term_view term.now)) }
    ensures kinds { OnOk result (map kind_view variables.new.kinds ≡ map kind_view variables.old.kinds
        ++ vars_of (heads_view heads.now) (scope_view scope.old) (length variables.old.kinds) (term_view term.now)) }
    ensures spans { OnOk result (map span_view variables.new.spans ≡ map span_view variables.old.spans ++ var_places (term_view term.now)) }
    ensures count { OnOk result (length variables.new.kinds ≡ length variables.old.kinds + binders_in (term_view term.now)) }
    ensures scope { OnOk result (scope.new ≡ scope.old) }
{
    match &term.form {
        Form::Let { .. } => unreachable!(),
        Form::If { test, yes, no } => {
            check_expr(scope, Kind::Bool, test)?;
            let kind = check_term(alloc, heads, scope, variables, need, yes)?;
            check_term(alloc, heads, scope, variables, Some(kind), no)
        }
        Form::Spawn(body) => {
            check_term(alloc, heads, scope, variables, Some(Kind::Unit), body)?;
            need_kind(need, Kind::Unit, term.span)
        }
        Form::Guard {
            name,
            pattern,
            clauses,
        } => {
            let interface = open_guard(heads, scope, name, pattern, term.span)?;
            let kind = check_clauses(alloc, heads, scope, variables, interface, need, clauses)?;
            close_guard(need, kind, term.span)
        }
        Form::Print(value) => {
            check_shown(scope, value)?;
            need_kind(need, Kind::Unit, term.span)
        }
        Form::New(name) => check_new(heads, need, name, term.span),
        Form::Free(name) => {
            mailbox_named(scope, name, term.span)?;
            need_kind(need, Kind::Unit, term.span)
        }
        Form::Send { target, tag, args } => {
            check_send(heads, scope, target, tag, args.as_slice(), term.span)?;
            need_kind(need, Kind::Unit, term.span)
        }
        Form::Call { name, args } => {
            check_call(heads, scope, need, name, args.as_slice(), term.span)
        }
        Form::Value(value) => {
            let kind = check_parts(scope, value)?;
            need_kind(need, kind, term.span)
        }
    }
}

// Examines the clauses of a guard on a mailbox of an interface. Answers the kind that is needed of their bodies, or that the
// first of them has, if there is a body.
#[cycle(bodies)]
fn check_clauses<'a>(
    alloc: Global,
    heads: &Heads,
    scope: &mut ScopeTable<'a>,
    variables: &mut Variables,
    interface: u32,
    need: Option<Kind>,
    clauses: &'a [TreeClause],
) -> Result<Option<Kind>, ResolveError>
    requires { length variables.old.kinds + clauses_binders_in (listed (map clause_view clauses.now)) < number_count }
    ensures found { Meets result (clauses_findings (heads_view heads.now) interface (scope_view scope.old) (length variables.old.kinds)
        (clauses_need (heads_view heads.now) interface (scope_view scope.old) (length variables.old.kinds) (option_map kind_view need)
        (listed (map clause_view clauses.now))) no_earlier (listed (map clause_view clauses.now))) }
    ensures kind { IfOk result (λ o. option_map kind_view o
        ≡ of_bodies (has_body (listed (map clause_view clauses.now)))
        (clauses_need (heads_view heads.now) interface (scope_view scope.old) (length variables.old.kinds) (option_map kind_view need)
        (listed (map clause_view clauses.now)))) }
    ensures kinds { OnOk result (map kind_view variables.new.kinds ≡ map kind_view variables.old.kinds
        ++ clauses_vars_of (heads_view heads.now) interface (scope_view scope.old) (length variables.old.kinds)
        (listed (map clause_view clauses.now))) }
    ensures spans { OnOk result (map span_view variables.new.spans ≡ map span_view variables.old.spans
        ++ clauses_var_places (listed (map clause_view clauses.now))) }
    ensures count { OnOk result (length variables.new.kinds ≡ length variables.old.kinds
        + clauses_binders_in (listed (map clause_view clauses.now))) }
    ensures scope { OnOk result (scope.new ≡ scope.old) }
{
    let mut seen = Seen::new(alloc);
    let mut found = None;
    for clause in clauses {
        seen.add(clause)?;
        let wanted = first_known(found, need);
        let kind = check_clause(alloc, heads, scope, variables, interface, wanted, clause)?;
        found = first_known(kind, found);
    }
    Ok(found)
}

// Examines a clause of a guard on a mailbox of an interface. Answers the kind that is needed of its body, or that it has.
#[cycle(bodies)]
fn check_clause<'a>(
    alloc: Global,
    heads: &Heads,
    scope: &mut ScopeTable<'a>,
    variables: &mut Variables,
    interface: u32,
    need: Option<Kind>,
    clause: &'a TreeClause,
) -> Result<Option<Kind>, ResolveError>
    requires { length variables.old.kinds + clause_binders (clause_view clause.now) < number_count }
    ensures found { Meets result (clause_findings (heads_view heads.now) interface (scope_view scope.old) (length variables.old.kinds)
        (clause_need (heads_view heads.now) interface (scope_view scope.old) (length variables.old.kinds) (option_map kind_view need)
        (clause_view clause.now)) (clause_view clause.now)) }
    ensures kind { IfOk result (λ o. option_map kind_view o
        ≡ option_map (needed (option_map kind_view need))
        (clause_kind (heads_view heads.now) interface (scope_view scope.old) (length variables.old.kinds) (clause_view clause.now))) }
    ensures kinds { OnOk result (map kind_view variables.new.kinds ≡ map kind_view variables.old.kinds
        ++ clause_vars (heads_view heads.now) interface (scope_view scope.old) (length variables.old.kinds) (clause_view clause.now)) }
    ensures spans { OnOk result (map span_view variables.new.spans ≡ map span_view variables.old.spans
        ++ clause_places (clause_view clause.now)) }
    ensures count { OnOk result (length variables.new.kinds ≡ length variables.old.kinds + clause_binders (clause_view clause.now)) }
    ensures scope { OnOk result (scope.new ≡ scope.old) }
{
    match clause {
        TreeClause::Fail(_) => Ok(None),
        TreeClause::Free(_, body) => {
            let kind = check_term(alloc, heads, scope, variables, need, body)?;
            Ok(Some(kind))
        }
        TreeClause::Receive {
            tag,
            names,
            from,
            body,
            ..
        } => {
            let outside = scope.len();
            open_receive(
                alloc,
                heads,
                scope,
                variables,
                interface,
                tag,
                names.as_slice(),
                from,
            )?;
            let kind = check_term(alloc, heads, scope, variables, need, body)?;
            leave(scope, outside);
            Ok(Some(kind))
        }
    }
}
