// The function that a run starts with.
ghost use Rattle.std.specs.Prelude.{◌≡◌, ◌+◌, ◌<◌, ◌^◌, ◌∷◌, [], map, length, is_some, true, IfOk};
ghost use Rattle.pat_resolver_spec.specs.Scopes.{number_found};
ghost use Rattle.pat_resolver_spec.specs.Heads.{definitions_of};
ghost use Rattle.pat_resolver_spec.specs.Findings.{main_findings, main_of};
ghost use Rattle.pat_tree.specs.Views.{decl_view};
ghost use Rattle.pat_resolver_heads.specs.results.Results.{Meets};
ghost use Rattle.pat_resolver.specs.Entry.{main_in};

use pat_primitives::Base;
use pat_resolver_heads::{ResolveError, ResolveKind};
use pat_syntax::Span;
use pat_tree::{Decl, TreeType};

/// The number of the first function called `main`, which has no parameter and gives `()`. The text ends at `end`.
pub fn find_main(decls: &[Decl], end: u32) -> Result<u32, ResolveError>
    requires { length decls.now < 2 ^ 32 }
    ensures found { Meets result (main_findings end (main_of (map decl_view decls.now))) }
    ensures number { IfOk result (λ n. n ≡ number_found (main_of (map decl_view decls.now))) }
{
    let mut number = 0;
    for decl in decls {
        if is_main(decl) {
            check_main(decl, end)?;
            return Ok(number);
        }
        number += functions_in(decl);
    }
    Err(ResolveError::Broken {
        kind: ResolveKind::UnknownName,
        span: Span { from: end, to: end },
    })
}

/// Whether a declaration declares a function called `main`.
fn is_main(decl: &Decl) -> bool
    ensures { result ≡ is_some (main_in (decl_view decl.now ∷ [])) }
{
    match decl {
        Decl::Interface { .. } => false,
        Decl::Def { name, .. } => name.text.as_bytes() == b"main".as_slice(),
    }
}

/// How many functions a declaration declares: one or none.
fn functions_in(decl: &Decl) -> u32
    ensures { result ≡ length (definitions_of (decl_view decl.now ∷ [])) }
{
    match decl {
        Decl::Interface { .. } => 0,
        Decl::Def { .. } => 1,
    }
}

/// Refuses a `main` with parameters, or with another result than `()`.
fn check_main(decl: &Decl, end: u32) -> Result<(), ResolveError>
    requires { is_some (main_in (decl_view decl.now ∷ [])) ≡ true }
    ensures { Meets result (main_findings end (main_in (decl_view decl.now ∷ []))) }
{
    match decl {
        Decl::Interface { .. } => unreachable!(),
        Decl::Def {
            name,
            params,
            result,
            ..
        } => {
            if !params.is_empty() {
                return Err(ResolveError::Broken {
                    kind: ResolveKind::WrongArity,
                    span: name.span,
                });
            }
            match result {
                TreeType::Base(Base::Unit, _) => Ok(()),
                _ => Err(ResolveError::Broken {
                    kind: ResolveKind::WrongKind,
                    span: name.span,
                }),
            }
        }
    }
}
