// What names of mailboxes, tags and functions stand for.
ghost use Rattle.std.specs.Prelude.{◌≡◌, ◌++◌, List, ℕ, length, map, Ok, IfOk, IfErr, IfSome, IfNone, option_map};
ghost use Rattle.pat_semantics_spec.specs.Programs.{kind_of};
ghost use Rattle.pat_resolver_spec.specs.Scopes.{variable_of, unit_kind};
ghost use Rattle.pat_resolver_spec.specs.Heads.{tag_named, tag_names, payload_kinds, function_named};
ghost use Rattle.pat_resolver_spec.specs.Findings.{Finding, own_kind, guarded, on_mailbox, pattern_findings, args_findings, tag_findings, call_findings, new_findings, interface_called, call_kind, new_kind};
ghost use Rattle.pat_core.specs.Views.{kind_view, sort_view};
ghost use Rattle.pat_resolver_heads.specs.tables.Views.{scope_view};
ghost use Rattle.pat_tree.specs.Views.{span_view, name_view, expr_view, pattern_view};
ghost use Rattle.pat_resolver_heads.specs.Views.{heads_view};
ghost use Rattle.pat_resolver_heads.specs.results.Results.{Meets, Refuses, first_of};
ghost use Rattle.pat_resolver_bodies.specs.Needs.{needed};

use crate::expressions::check_args;
use crate::kinds::{broken, kind_of_sort, need_kind};
use pat_core::{Kind, TagDecl};
use pat_resolver_heads::{Heads, ResolveError, ResolveKind, ScopeTable};
use pat_syntax::Span;
use pat_tree::{Name, TreeExpr, TreePattern};

/// The interface of the mailbox that a name stands for. A variable of another kind is answered with the place of the term.
pub fn mailbox_named(scope: &ScopeTable, name: &Name, span: Span) -> Result<u32, ResolveError>
    ensures refused { IfErr result (λ e. (then : ℕ → List Finding)
        → Refuses e (on_mailbox (span_view span) (name_view name.now) (variable_of (scope_view scope.now) name.now.text) then)) }
    ensures goes_on { IfOk result (λ i. (then : ℕ → List Finding)
        → on_mailbox (span_view span) (name_view name.now) (variable_of (scope_view scope.now) name.now.text) then ≡ then i) }
    ensures interface { IfOk result (λ i. guarded (scope_view scope.now) name.now.text ≡ i) }
{
    match scope.find(&name.text) {
        None => Err(broken(ResolveKind::UnknownName, name.span)),
        Some(variable) => match variable.kind {
            Kind::Mailbox(interface) => Ok(interface),
            _ => Err(broken(ResolveKind::WrongKind, span)),
        },
    }
}

/// The tag of an interface, if it has so many payloads.
pub fn check_tag<'a>(
    heads: &'a Heads,
    interface: u32,
    tag: &Name,
    count: usize,
) -> Result<&'a TagDecl, ResolveError>
    ensures found { Meets result (tag_findings (name_view tag.now) count (tag_named (heads_view heads.now) interface tag.now.text)) }
    ensures kinds { IfOk result (λ d. payload_kinds (tag_named (heads_view heads.now) interface tag.now.text)
        ≡ map kind_of (map sort_view d.now.payloads)) }
    ensures count { IfOk result (λ d. length d.now.payloads ≡ count) }
{
    match heads.tag_named(interface, &tag.text) {
        None => Err(broken(ResolveKind::ForeignTag, tag.span)),
        Some((_, declared)) => {
            if declared.payloads.len() == count {
                Ok(declared)
            } else {
                Err(broken(ResolveKind::WrongArity, tag.span))
            }
        }
    }
}

/// Examines a call. Answers the kind that is needed.
#[tactic(auto, using(crate::proofs::Order::in_order))]
pub fn check_call(
    heads: &Heads,
    scope: &ScopeTable,
    need: Option<Kind>,
    name: &Name,
    args: &[TreeExpr],
    span: Span,
) -> Result<Kind, ResolveError>
    ensures found { Meets result (call_findings (scope_view scope.now)
        (needed (option_map kind_view need) (call_kind (function_named (heads_view heads.now) name.now.text))) (name_view name.now)
        (map expr_view args.now) (span_view span) (function_named (heads_view heads.now) name.now.text)) }
    ensures kind { IfOk result (λ k. kind_view k
        ≡ needed (option_map kind_view need) (call_kind (function_named (heads_view heads.now) name.now.text))) }
{
    match heads.function_named(&name.text) {
        None => Err(broken(ResolveKind::UnknownName, name.span)),
        Some((_, signature)) => {
            if args.len() != signature.params.len() {
                return Err(broken(ResolveKind::WrongArity, name.span));
            }
            check_args(scope, signature.params.as_slice(), args)?;
            need_kind(need, kind_of_sort(&signature.result), span)
        }
    }
}

/// Examines a new mailbox. Answers the kind that is needed.
pub fn check_new(
    heads: &Heads,
    need: Option<Kind>,
    name: &Name,
    span: Span,
) -> Result<Kind, ResolveError>
    ensures found { Meets result (new_findings
        (needed (option_map kind_view need) (new_kind (interface_called (heads_view heads.now) name.now.text))) (name_view name.now)
        (span_view span) (interface_called (heads_view heads.now) name.now.text)) }
    ensures kind { IfOk result (λ k. kind_view k
        ≡ needed (option_map kind_view need) (new_kind (interface_called (heads_view heads.now) name.now.text))) }
{
    match heads.interface_called(&name.text) {
        None => Err(broken(ResolveKind::UnknownName, name.span)),
        Some(interface) => need_kind(need, Kind::Mailbox(interface), span),
    }
}

/// Examines a message that is sent, without its own kind.
#[tactic(auto, using(crate::proofs::Order::in_order))]
pub fn check_send(
    heads: &Heads,
    scope: &ScopeTable,
    name: &Name,
    tag: &Name,
    args: &[TreeExpr],
    span: Span,
) -> Result<(), ResolveError>
    ensures { Meets result (on_mailbox (span_view span) (name_view name.now) (variable_of (scope_view scope.now) name.now.text)
        (λ i. tag_findings (name_view tag.now) (length (map expr_view args.now)) (tag_named (heads_view heads.now) i tag.now.text)
        ++ args_findings (scope_view scope.now) (payload_kinds (tag_named (heads_view heads.now) i tag.now.text))
        (map expr_view args.now))) }
{
    let interface = mailbox_named(scope, name, span)?;
    let declared = check_tag(heads, interface, tag, args.len())?;
    check_args(scope, declared.payloads.as_slice(), args)
}
