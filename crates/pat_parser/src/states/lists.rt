// Lists with one item more.
ghost use Rattle.std.specs.Prelude.{[], ◌∷◌, ◌++◌, map, Ok};
ghost use Rattle.pat_parser_spec.specs.Machine as m;
ghost use Rattle.pat_tree.specs.Views.{clause_view, decl_view};
ghost use Rattle.pat_parser.specs.states.Views.{guarding_view};
ghost use Rattle.pat_parser.specs.states.Answers.{Gives};

use crate::states::fault::Fault;
use crate::states::state::Guarding;
use pat_sequences::Sequence;
use pat_tree::{Decl, TreeClause};

pub fn with_decl(items: Sequence<Decl>, item: Decl) -> Result<Sequence<Decl>, Fault>
    ensures { Gives (λ v. map decl_view v) result (Ok (map decl_view items ++ decl_view item ∷ [])) }
{
    let mut items = items;
    items.push(item)?;
    Ok(items)
}

/// A guard with one clause more.
pub fn with_clause(guard: Box<Guarding>, clause: TreeClause) -> Result<Box<Guarding>, Fault>
    ensures { Gives (λ g. guarding_view g.value) result (Ok (m.with_clause (guarding_view guard.value) (clause_view clause))) }
{
    let mut guard = guard;
    guard.clauses.push(clause)?;
    Ok(guard)
}
