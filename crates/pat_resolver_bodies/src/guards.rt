// What a guard and its clauses look up and bind.
ghost use Rattle.std.specs.Prelude.{◌≡◌, ◌+◌, ◌<◌, [], ◌∷◌, ◌++◌, List, ℕ, suc, length, map, Ok, OnOk, IfOk, IfErr, IfSome, IfNone, option_map};
ghost use Rattle.pat_semantics_spec.specs.Values.{MailboxOf};
ghost use Rattle.pat_resolver_spec.specs.Scopes.{variable_of, unit_kind};
ghost use Rattle.pat_resolver_spec.specs.Heads.{tag_named, tag_names, payload_kinds, clause_scope};
ghost use Rattle.pat_resolver_spec.specs.Findings.{Finding, own_kind, guarded, on_mailbox, pattern_findings, tag_findings, names_findings};
ghost use Rattle.pat_resolver_spec.specs.Numbering.{kinds_for};
ghost use Rattle.pat_core.specs.Views.{kind_view};
ghost use Rattle.pat_resolver_heads.specs.tables.Views.{scope_view};
ghost use Rattle.pat_tree.specs.Views.{span_view, name_view, pattern_view};
ghost use Rattle.pat_resolver_heads.specs.Views.{heads_view};
ghost use Rattle.pat_resolver_heads.specs.results.Results.{Meets, Refuses, first_of};
ghost use Rattle.pat_resolver_bodies.specs.Above.{IsAbove};
ghost use Rattle.pat_resolver_bodies.specs.Needs.{needed};
ghost use Rattle.pat_limits.specs.Limits.{number_count};

use crate::kinds::need_kind;
use crate::lookups::{check_tag, mailbox_named};
use crate::names::check_names;
use crate::variables::{Variables, bind, bind_names};
use pat_core::Kind;
use pat_resolver_heads::{Heads, ResolveError, ScopeTable};
use pat_syntax::Span;
use pat_tree::{Name, TreePattern};
use std::alloc::Global;

/// The interface of the mailbox that is guarded, whose tags the pattern has.
#[tactic(auto, using(crate::proofs::Order::in_order))]
pub fn open_guard(
    heads: &Heads,
    scope: &ScopeTable,
    name: &Name,
    pattern: &TreePattern,
    span: Span,
) -> Result<u32, ResolveError>
    ensures refused { IfErr result (λ e. (then : ℕ → List Finding)
        → Refuses e (on_mailbox (span_view span) (name_view name.now) (variable_of (scope_view scope.now) name.now.text)
        (λ i. pattern_findings (tag_names (heads_view heads.now) i) (pattern_view pattern.now) ++ then i))) }
    ensures goes_on { IfOk result (λ i. (then : ℕ → List Finding)
        → first_of (on_mailbox (span_view span) (name_view name.now) (variable_of (scope_view scope.now) name.now.text)
        (λ j. pattern_findings (tag_names (heads_view heads.now) j) (pattern_view pattern.now) ++ then j))
        ≡ first_of (then i)) }
    ensures interface { IfOk result (λ i. guarded (scope_view scope.now) name.now.text ≡ i) }
{
    let interface = mailbox_named(scope, name, span)?;
    heads.check_pattern(interface, pattern)?;
    Ok(interface)
}

/// The kind of a guard: that of its bodies, if there is one.
pub fn close_guard(
    need: Option<Kind>,
    of_bodies: Option<Kind>,
    span: Span,
) -> Result<Kind, ResolveError>
    ensures found { IfNone of_bodies (Meets result (own_kind (needed (option_map kind_view need) unit_kind) unit_kind (span_view span))) }
    ensures none { IfNone of_bodies (IfOk result (λ k. kind_view k ≡ needed (option_map kind_view need) unit_kind)) }
    ensures some { IfSome of_bodies (λ k. result ≡ Ok k) }
{
    match of_bodies {
        Some(kind) => Ok(kind),
        None => need_kind(need, Kind::Unit, span),
    }
}

/// Examines the head of a receive clause in a guard on a mailbox of an interface, and brings its names into scope.
#[tactic(auto, using(crate::proofs::Order::in_order))]
pub fn open_receive<'a>(
    alloc: Global,
    heads: &Heads,
    scope: &mut ScopeTable<'a>,
    variables: &mut Variables,
    interface: u32,
    tag: &Name,
    names: &'a [Name],
    from: &'a Name,
) -> Result<(), ResolveError>
    requires { length variables.old.kinds + length names.now + 1 < number_count }
    ensures found { Meets result (tag_findings (name_view tag.now) (length (map name_view names.now))
        (tag_named (heads_view heads.now) interface tag.now.text)
        ++ names_findings [] ((map name_view names.now) ++ name_view from.now ∷ [])) }
    ensures scope { OnOk result (scope_view scope.new
        ≡ clause_scope (heads_view heads.now) interface (scope_view scope.old) (length variables.old.kinds) (name_view tag.now)
        (map name_view names.now) (name_view from.now)) }
    ensures above { OnOk result (IsAbove scope.old scope.new) }
    ensures kinds { OnOk result (map kind_view variables.new.kinds
        ≡ map kind_view variables.old.kinds
        ++ (kinds_for (map name_view names.now) (payload_kinds (tag_named (heads_view heads.now) interface tag.now.text))
        ++ MailboxOf interface ∷ [])) }
    ensures spans { OnOk result (map span_view variables.new.spans
        ≡ map span_view variables.old.spans ++ (map (λ x. x.span) (map name_view names.now) ++ span_view from.now.span ∷ [])) }
    ensures count { OnOk result (length variables.new.kinds ≡ suc (length variables.old.kinds + length (map name_view names.now))) }
{
    let declared = check_tag(heads, interface, tag, names.len())?;
    check_names(alloc, names, from)?;
    bind_names(scope, variables, names, declared.payloads.as_slice())?;
    bind(scope, variables, from, Kind::Mailbox(interface))?;
    Ok(())
}
