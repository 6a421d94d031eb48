// The head of a function: its written types, and its parameters in scope.
ghost use Rattle.std.specs.Prelude.{◌≡◌, ◌<◌, ◌^◌, [], map, length, IfOk, OnOk};
ghost use Rattle.pat_semantics_spec.specs.Programs.{kind_of};
ghost use Rattle.pat_resolver_spec.specs.Heads.{sort_of, params_scope};
ghost use Rattle.pat_resolver_spec.specs.Places.{type_place};
ghost use Rattle.pat_core.specs.Views.{kind_view, sort_view};
ghost use Rattle.pat_tree.specs.Views.{span_view, param_view, type_view};
ghost use Rattle.pat_resolver_heads.specs.tables.Views.{scope_view};
ghost use Rattle.pat_resolver_heads.specs.results.Views.{sort_place};
ghost use Rattle.pat_resolver_heads.specs.Names.{names_view};

use pat_core::Sort;
use pat_resolver_bodies::{Variables, bind, kind_of_sort};
use pat_resolver_heads::{Heads, ScopeTable, number_params, number_type};
use pat_sequences::Sequence;
use pat_tree::{Param, TreeType};
use std::alloc::{AllocError, Global};

/// There is room for so many variables at least: most functions bind some behind their parameters.
const ROOM: usize = 8;

/// The types of a function's parameters and of its result.
#[derive(Drop)]
pub struct Head {
    pub params: Sequence<Sort>,
    pub result: Sort,
}

/// The written types of a function, by number.
pub fn number_head(
    alloc: Global,
    heads: &Heads,
    params: &[Param],
    outcome: &TreeType,
) -> Result<Head, AllocError>
    ensures params { IfOk result (λ h. map sort_view h.params
        ≡ map (λ p. sort_of (names_view heads.now.names) p.type) (map param_view params.now)) }
    ensures result { IfOk result (λ h. sort_view h.result ≡ sort_of (names_view heads.now.names) (type_view outcome.now)) }
    ensures param_places { IfOk result (λ h. map sort_place h.params ≡ map (λ p. type_place p.type) (map param_view params.now)) }
    ensures result_place { IfOk result (λ h. sort_place h.result ≡ type_place (type_view outcome.now)) }
{
    let params = number_params(alloc, &heads.names, params)?;
    let result = number_type(alloc, &heads.names, outcome)?;
    Ok(Head { params, result })
}

/// Brings the parameters of a function into scope, numbered from 0.
pub fn bind_params<'a>(
    alloc: Global,
    scope: &mut ScopeTable<'a>,
    params: &'a [Param],
    sorts: &[Sort],
) -> Result<Variables, AllocError>
    requires same { length params.now ≡ length sorts.now }
    requires few { length params.now < 2 ^ 32 }
    requires none { scope.old ≡ [] }
    ensures scope { OnOk result (scope_view scope.new ≡ params_scope (map sort_view sorts.now) (map param_view params.now)) }
    ensures count { OnOk result (length scope.new ≡ length params.now) }
    ensures kinds { IfOk result (λ v. map kind_view v.kinds ≡ map kind_of (map sort_view sorts.now)) }
    ensures spans { IfOk result (λ v. map span_view v.spans ≡ map (λ p. p.name.span) (map param_view params.now)) }
    ensures numbers { IfOk result (λ v. length v.kinds ≡ length params.now) }
{
    let room = params.len().max(ROOM);
    let mut variables = Variables {
        kinds: Sequence::from_vec(Vec::with_capacity(alloc, room)?),
        spans: Sequence::from_vec(Vec::with_capacity(alloc, room)?),
    };
    for (place, param) in params.iter().enumerate() {
        bind(
            scope,
            &mut variables,
            &param.name,
            kind_of_sort(&sorts[place]),
        )?;
    }
    Ok(variables)
}
