// Names that must not repeat, and the clauses of a guard so far.
ghost use Rattle.std.specs.Prelude.{◌≡◌, [], ◌∷◌, ◌++◌, true, not, map, OnOk};
ghost use Rattle.pat_resolver_spec.specs.Scopes.{is_one_of};
ghost use Rattle.pat_resolver_spec.specs.Findings.{Twice, unless, no_earlier, names_findings};
ghost use Rattle.pat_tree.specs.Views.{span_view, name_view, clause_view};
ghost use Rattle.pat_resolver_heads.specs.results.Results.{Meets};
ghost use Rattle.pat_resolver_bodies.specs.Seen.{seen_view};
ghost use Rattle.pat_resolver_bodies.specs.Steps.{twice_findings, with_earlier};

use crate::kinds::broken;
use pat_resolver_heads::{EarlierNames, ResolveError, ResolveKind};
use pat_sequences::Text;
use pat_syntax::Span;
use pat_tree::{Name, TreeClause};
use std::alloc::Global;

/// The clauses of a guard so far: tags, and whether there are a free clause and a fail clause.
#[derive(Drop)]
pub struct Seen<'a> {
    tags: EarlierNames<'a>,
    free: bool,
    fail: bool,
}

impl<'a> Seen<'a> {
    /// No clause. It takes no memory.
    pub fn new(alloc: Global) -> Self
        ensures { seen_view result ≡ no_earlier }
    {
        Seen {
            tags: EarlierNames::new(alloc),
            free: false,
            fail: false,
        }
    }

    /// Adds a clause to those before it, if none of them is for the same.
    pub fn add(&mut self, clause: &'a TreeClause) -> Result<(), ResolveError>
        ensures found { Meets result (twice_findings (seen_view self.old) (clause_view clause.now)) }
        ensures after { OnOk result (seen_view self.new ≡ with_earlier (seen_view self.old) (clause_view clause.now)) }
    {
        match clause {
            TreeClause::Fail(span) => mark(&mut self.fail, *span),
            TreeClause::Free(span, _) => mark(&mut self.free, *span),
            TreeClause::Receive { span, tag, .. } => { add_name(&mut self.tags, &tag.text, *span) }
        }
    }
}

// Notes a clause that may stand once.
fn mark(seen: &mut bool, span: Span) -> Result<(), ResolveError>
    ensures found { Meets result (unless (not seen.old) Twice (span_view span)) }
    ensures after { OnOk result (seen.new ≡ true) }
{
    if *seen {
        return Err(broken(ResolveKind::Twice, span));
    }
    *seen = true;
    Ok(())
}

// Adds a name to those before it, if it is none of them. Otherwise the place is answered.
fn add_name<'a>(
    earlier: &mut EarlierNames<'a>,
    name: &'a Text,
    span: Span,
) -> Result<(), ResolveError>
    ensures found { Meets result (unless (not (is_one_of name.now earlier.old)) Twice (span_view span)) }
    ensures after { OnOk result (earlier.new ≡ name.now ∷ earlier.old) }
{
    if earlier.add(name)? {
        Ok(())
    } else {
        Err(broken(ResolveKind::Twice, span))
    }
}

/// Examines the names that a receive clause binds: those of the payloads, and that of what is left of the mailbox.
pub fn check_names<'a>(alloc: Global, names: &'a [Name], from: &'a Name) -> Result<(), ResolveError>
    ensures { Meets result (names_findings [] (map name_view names.now ++ name_view from.now ∷ [])) }
{
    let mut earlier = EarlierNames::new(alloc);
    for name in names {
        add_name(&mut earlier, &name.text, name.span)?;
    }
    add_name(&mut earlier, &from.text, from.span)
}
