// Functions one after another: their bodies examined, and the nodes of their bodies.
ghost use Rattle.std.specs.Prelude.{◌≡◌, ◌+◌, ◌<◌, ◌^◌, ◌++◌, ◌∷◌, [], map, length, IfOk, OnOk};
ghost use Rattle.std.specs.List.{flat_map};
ghost use Rattle.pat_semantics_spec.specs.Programs.{kind_of};
ghost use Rattle.pat_parser_laws.specs.Counts.{decl_size, tree_size};
ghost use Rattle.pat_resolver_spec.specs.Heads.{params_scope, definitions_of};
ghost use Rattle.pat_resolver_spec.specs.Findings.{binders_in, term_findings, bodies_findings};
ghost use Rattle.pat_resolver_spec.specs.Numbering.{nodes_in, nodes_of, vars_of, functions_from, nodes_from};
ghost use Rattle.pat_resolver_spec.specs.Places.{node_places, var_places, function_places as written_places};
ghost use Rattle.pat_core.specs.Views.{kind_view, sort_view, function_view, node_view};
ghost use Rattle.pat_tree.specs.Views.{span_view, param_view, term_view, decl_view};
ghost use Rattle.pat_resolver_heads.specs.tables.Views.{scope_view};
ghost use Rattle.pat_tree.specs.declared.pattern.Name.{Name as AnyName};
ghost use Rattle.pat_resolver_heads.specs.results.Results.{Meets};
ghost use Rattle.pat_resolver_heads.specs.results.Views.{function_places};
ghost use Rattle.pat_resolver_heads.specs.Names.{names_view};
ghost use Rattle.pat_resolver_heads.specs.Views.{heads_view};
ghost use Rattle.pat_resolver.specs.numbering.Kinds.{HasAt};
ghost use Rattle.pat_resolver.specs.Steps.{definition_view, body_findings, function_of, function_nodes, nodes_in_all};
ghost use Rattle.pat_limits.specs.Limits.{most_number, number_count};

use crate::heads::{Head, bind_params, number_head};
use crate::numbering::{Context, Numbering};
use pat_core::{Function, Kind, Node};
use pat_resolver_bodies::{Variables, check_body, kind_of_sort};
use pat_resolver_heads::{Heads, ResolveError, ScopeTable};
use pat_sequences::Sequence;
use pat_tree::{Decl, Name, Param, Term, TreeType};
use std::alloc::{AllocError, Global};

// The functions so far, and their nodes. Between functions nothing is in scope.
#[derive(Drop)]
pub struct Resolution<'a> {
    pub functions: Sequence<Function>,
    pub numbering: Numbering<'a>,
}

/// Brings the parameters of a function into scope, and examines its body. Answers its variables.
fn examine<'a>(
    alloc: Global,
    heads: &Heads,
    scope: &mut ScopeTable<'a>,
    params: &'a [Param],
    head: &Head,
    body: &'a Term,
) -> Result<Variables, ResolveError>
    requires same { length params.now ≡ length head.now.params }
    requires none { scope.old ≡ [] }
    requires names { length params.now + binders_in (term_view body.now) < 2 ^ 32 }
    ensures found { Meets result (term_findings (heads_view heads.now)
        (params_scope (map sort_view head.now.params) (map param_view params.now)) (length params.now) (kind_of (sort_view head.now.result))
        (term_view body.now)) }
    ensures scope { OnOk result (scope_view scope.new ≡ params_scope (map sort_view head.now.params) (map param_view params.now)) }
    ensures count { OnOk result (length scope.new ≡ length params.now) }
    ensures kinds { IfOk result (λ v. map kind_view v.kinds ≡ map kind_of (map sort_view head.now.params)
        ++ vars_of (heads_view heads.now) (params_scope (map sort_view head.now.params) (map param_view params.now)) (length params.now)
        (term_view body.now)) }
    ensures spans { IfOk result (λ v. map span_view v.spans ≡ map (λ p. p.name.span) (map param_view params.now)
        ++ var_places (term_view body.now)) }
{
    let mut variables = bind_params(alloc, scope, params, head.params.as_slice())?;
    check_body(
        alloc,
        heads,
        scope,
        &mut variables,
        kind_of_sort(&head.result),
        body,
    )?;
    Ok(variables)
}

/// Appends the nodes of a body that was examined, whose parameters are in scope, so many.
fn number<'a>(
    alloc: Global,
    numbering: &mut Numbering<'a>,
    context: &Context,
    params: usize,
    kind: Kind,
    body: &'a Term,
) -> Result<(), AllocError>
    requires room { length numbering.old.nodes + nodes_in (term_view body.now) < number_count }
    requires names { params + binders_in (term_view body.now) < number_count }
    requires count { length numbering.old.scope ≡ params }
    requires kinds { HasAt (map kind_view context.now.kinds.now) params
        (vars_of (heads_view context.now.heads.now) (scope_view numbering.old.scope) params (term_view body.now)) }
    ensures nodes { OnOk result (map node_view numbering.new.nodes ≡ map node_view numbering.old.nodes
        ++ nodes_of (heads_view context.now.heads.now) context.now.function (scope_view numbering.old.scope)
        (length numbering.old.nodes) params (kind_view kind) (term_view body.now)) }
    ensures places { OnOk result (map (λ d. span_view d.span) numbering.new.nodes ≡ map (λ d. span_view d.span) numbering.old.nodes
        ++ node_places (term_view body.now)) }
    ensures scope { OnOk result (numbering.new.scope ≡ []) }
{
    numbering.next = params as u32;
    numbering.number_body(alloc, context, kind, body)?;
    numbering.scope.pop(params);
    Ok(())
}

/// Examines a function's body, and appends its nodes. The function has the number `function`.
fn resolve_function<'a>(
    alloc: Global,
    heads: &Heads,
    numbering: &mut Numbering<'a>,
    function: u32,
    name: &Name,
    params: &'a [Param],
    outcome: &TreeType,
    body: &'a Term,
) -> Result<Function, ResolveError>
    requires none { numbering.old.scope ≡ [] }
    requires names { length params.now + binders_in (term_view body.now) < 2 ^ 32 }
    requires room { length numbering.old.nodes + nodes_in (term_view body.now) < 2 ^ 32 }
    ensures found { Meets result (body_findings (names_view heads.now.names) (heads_view heads.now)
        (definition_view name.now params.now outcome.now body.now)) }
    ensures function { IfOk result (λ f. function_view f
        ≡ function_of (names_view heads.now.names) (heads_view heads.now) (length numbering.old.nodes)
        (definition_view name.now params.now outcome.now body.now)) }
    ensures function_places { IfOk result (λ f. function_places f
        ≡ written_places (definition_view name.now params.now outcome.now body.now)) }
    ensures nodes { OnOk result (map node_view numbering.new.nodes ≡ map node_view numbering.old.nodes
        ++ function_nodes (names_view heads.now.names) (heads_view heads.now) function (length numbering.old.nodes)
        (definition_view name.now params.now outcome.now body.now)) }
    ensures node_places { OnOk result (map (λ d. span_view d.span) numbering.new.nodes ≡ map (λ d. span_view d.span) numbering.old.nodes
        ++ node_places (term_view body.now)) }
    ensures scope { OnOk result (numbering.new.scope ≡ []) }
{
    let head = number_head(alloc, heads, params, outcome)?;
    let variables = examine(alloc, heads, &mut numbering.scope, params, &head, body)?;
    let place = numbering.nodes.len() as u32;
    let context = Context {
        heads,
        function,
        kinds: variables.kinds.as_slice(),
    };
    number(
        alloc,
        numbering,
        &context,
        params.len(),
        kind_of_sort(&head.result),
        body,
    )?;
    let name = name.text.copy(alloc)?;
    Ok(Function {
        name,
        params: head.params,
        result: head.result,
        vars: variables.kinds,
        spans: variables.spans,
        body: place,
    })
}

/// Examines the body of a declared function, and appends the function and its nodes. An interface has none.
fn resolve_decl<'a>(
    alloc: Global,
    heads: &Heads,
    made: &mut Resolution<'a>,
    decl: &'a Decl,
) -> Result<(), ResolveError>
    requires none { made.old.numbering.scope ≡ [] }
    requires functions { length made.old.functions + 1 < 2 ^ 32 }
    requires names { decl_size (decl_view decl.now) < 2 ^ 32 }
    requires room { length made.old.numbering.nodes + nodes_in_all (definitions_of (decl_view decl.now ∷ [])) < 2 ^ 32 }
    ensures found { Meets result (bodies_findings (names_view heads.now.names) (heads_view heads.now)
        (definitions_of (decl_view decl.now ∷ []))) }
    ensures functions { OnOk result (map function_view made.new.functions ≡ map function_view made.old.functions
        ++ functions_from (names_view heads.now.names) (heads_view heads.now) (length made.old.numbering.nodes)
        (definitions_of (decl_view decl.now ∷ []))) }
    ensures function_places { OnOk result (map function_places made.new.functions ≡ map function_places made.old.functions
        ++ map written_places (definitions_of (decl_view decl.now ∷ []))) }
    ensures nodes { OnOk result (map node_view made.new.numbering.nodes ≡ map node_view made.old.numbering.nodes
        ++ nodes_from (names_view heads.now.names) (heads_view heads.now) (length made.old.functions) (length made.old.numbering.nodes)
        (definitions_of (decl_view decl.now ∷ []))) }
    ensures node_places { OnOk result (map (λ d. span_view d.span) made.new.numbering.nodes
        ≡ map (λ d. span_view d.span) made.old.numbering.nodes
        ++ flat_map (λ d. node_places d.body) (definitions_of (decl_view decl.now ∷ []))) }
    ensures scope { OnOk result (made.new.numbering.scope ≡ []) }
{
    match decl {
        Decl::Interface { .. } => Ok(()),
        Decl::Def {
            name,
            params,
            result,
            body,
        } => {
            let number = made.functions.len() as u32;
            let function = resolve_function(
                alloc,
                heads,
                &mut made.numbering,
                number,
                name,
                params.as_slice(),
                result,
                body,
            )?;
            made.functions.push(function)?;
            Ok(())
        }
    }
}

/// Examines the bodies of all functions in the order of the text, and appends their nodes.
pub fn resolve_functions<'a>(
    alloc: Global,
    heads: &Heads,
    decls: &'a [Decl],
) -> Result<Resolution<'a>, ResolveError>
    requires { tree_size (map decl_view decls.now) < most_number }
    ensures found { Meets result (bodies_findings (names_view heads.now.names) (heads_view heads.now)
        (definitions_of (map decl_view decls.now))) }
    ensures functions { IfOk result (λ r. map function_view r.functions
        ≡ functions_from (names_view heads.now.names) (heads_view heads.now) 0 (definitions_of (map decl_view decls.now))) }
    ensures function_places { IfOk result (λ r. map function_places r.functions
        ≡ map written_places (definitions_of (map decl_view decls.now))) }
    ensures nodes { IfOk result (λ r. map node_view r.numbering.nodes
        ≡ nodes_from (names_view heads.now.names) (heads_view heads.now) 0 0 (definitions_of (map decl_view decls.now))) }
    ensures node_places { IfOk result (λ r. map (λ d. span_view d.span) r.numbering.nodes
        ≡ flat_map (λ d. node_places d.body) (definitions_of (map decl_view decls.now))) }
{
    let mut made = Resolution {
        functions: Sequence::new(alloc),
        numbering: Numbering::new(alloc),
    };
    for decl in decls {
        resolve_decl(alloc, heads, &mut made, decl)?;
    }
    Ok(made)
}

/// Examines a function's body. Nothing is in scope before and behind it.
fn check_function<'a>(
    alloc: Global,
    heads: &Heads,
    scope: &mut ScopeTable<'a>,
    params: &'a [Param],
    outcome: &TreeType,
    body: &'a Term,
) -> Result<(), ResolveError>
    requires none { scope.old ≡ [] }
    requires names { length params.now + binders_in (term_view body.now) < 2 ^ 32 }
    ensures found { (name : AnyName) → Meets result
        (body_findings (names_view heads.now.names) (heads_view heads.now) (definition_view name params.now outcome.now body.now)) }
    ensures scope { OnOk result (scope.new ≡ []) }
{
    let head = number_head(alloc, heads, params, outcome)?;
    examine(alloc, heads, scope, params, &head, body)?;
    scope.pop(params.len());
    Ok(())
}

/// Examines the body of a declared function. An interface has none.
fn check_decl<'a>(
    alloc: Global,
    heads: &Heads,
    scope: &mut ScopeTable<'a>,
    decl: &'a Decl,
) -> Result<(), ResolveError>
    requires none { scope.old ≡ [] }
    requires names { decl_size (decl_view decl.now) < 2 ^ 32 }
    ensures found { Meets result (bodies_findings (names_view heads.now.names) (heads_view heads.now)
        (definitions_of (decl_view decl.now ∷ []))) }
    ensures scope { OnOk result (scope.new ≡ []) }
{
    match decl {
        Decl::Interface { .. } => Ok(()),
        Decl::Def {
            params,
            result,
            body,
            ..
        } => check_function(alloc, heads, scope, params.as_slice(), result, body),
    }
}

/// Examines the bodies of all functions in the order of the text.
pub fn check_functions(alloc: Global, heads: &Heads, decls: &[Decl]) -> Result<(), ResolveError>
    requires { tree_size (map decl_view decls.now) < most_number }
    ensures { Meets result (bodies_findings (names_view heads.now.names) (heads_view heads.now)
        (definitions_of (map decl_view decls.now))) }
{
    let mut scope = ScopeTable::new(alloc);
    for decl in decls {
        check_decl(alloc, heads, &mut scope, decl)?;
    }
    Ok(())
}
