// The variables that a function binds.
ghost use Rattle.std.specs.Prelude.{◌≡◌, ◌+◌, ◌<◌, ◌-◌, ◌≤◌, [], ◌∷◌, ◌++◌, length, map, drop, OnOk};
ghost use Rattle.pat_semantics_spec.specs.Programs.{kind_of};
ghost use Rattle.pat_resolver_spec.specs.Scopes.{bind_names as names_bound};
ghost use Rattle.pat_resolver_spec.specs.Numbering.{kinds_for};
ghost use Rattle.pat_core.specs.Views.{kind_view, sort_view};
ghost use Rattle.pat_resolver_heads.specs.tables.Views.{scope_view};
ghost use Rattle.pat_tree.specs.Views.{span_view, name_view};
ghost use Rattle.pat_limits.specs.Limits.{number_count};

use crate::kinds::kind_of_sort;
use pat_core::{Kind, Sort};
use pat_resolver_heads::ScopeTable;
use pat_sequences::Sequence;
use pat_syntax::Span;
use pat_tree::Name;
use std::alloc::AllocError;

/// The variables of a function so far: their kinds, and the places of their names.
#[derive(Drop)]
pub struct Variables {
    pub kinds: Sequence<Kind>,
    pub spans: Sequence<Span>,
}

/// Adds a variable, and brings it into scope.
pub fn bind<'a>(
    scope: &mut ScopeTable<'a>,
    variables: &mut Variables,
    name: &'a Name,
    kind: Kind,
) -> Result<(), AllocError>
    requires { length variables.old.kinds < number_count }
    ensures scope { OnOk result (scope.new ≡ record { name = name.now.text; number = length variables.old.kinds; kind = kind }
        ∷ scope.old) }
    ensures kinds { OnOk result (variables.new.kinds ≡ variables.old.kinds ++ kind ∷ []) }
    ensures spans { OnOk result (variables.new.spans ≡ variables.old.spans ++ name.now.span ∷ []) }
{
    scope.push(&name.text, variables.kinds.len() as u32, kind)?;
    variables.kinds.push(kind)?;
    variables.spans.push(name.span)
}

/// Adds the variables of names in a row, one for each written type, and brings them into scope.
pub fn bind_names<'a>(
    scope: &mut ScopeTable<'a>,
    variables: &mut Variables,
    names: &'a [Name],
    sorts: &[Sort],
) -> Result<(), AllocError>
    requires same { length names.now ≡ length sorts.now }
    requires fits { length variables.old.kinds + length names.now < number_count }
    ensures scope { OnOk result (scope_view scope.new
        ≡ names_bound (length variables.old.kinds) (map name_view names.now) (map kind_of (map sort_view sorts.now))
        (scope_view scope.old)) }
    ensures behind { OnOk result (drop (length names.now) scope.new ≡ scope.old) }
    ensures more { OnOk result (length scope.new ≡ length scope.old + length names.now) }
    ensures kinds { OnOk result (map kind_view variables.new.kinds
        ≡ map kind_view variables.old.kinds ++ kinds_for (map name_view names.now) (map kind_of (map sort_view sorts.now))) }
    ensures spans { OnOk result (map span_view variables.new.spans
        ≡ map span_view variables.old.spans ++ map (λ x. x.span) (map name_view names.now)) }
    ensures count { OnOk result (length variables.new.kinds ≡ length variables.old.kinds + length names.now) }
{
    for (place, name) in names.iter().enumerate() {
        bind(scope, variables, name, kind_of_sort(&sorts[place]))?;
    }
    Ok(())
}

/// Takes out of scope what was brought in since it had so many variables.
pub fn leave(scope: &mut ScopeTable, outside: usize)
    requires { outside ≤ length scope.old }
    ensures { scope.new ≡ drop (length scope.old - outside) scope.old }
{
    let inside = scope.len();
    scope.pop(inside - outside);
}
