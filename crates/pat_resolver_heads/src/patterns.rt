// Written patterns: whether each tag is there, and the numbers of tags.
ghost use Rattle.std.specs.Prelude.{◌≡◌, ◌≤◌, length, IfOk};
ghost use Rattle.pat_resolver_spec.specs.Heads.{pattern_of};
ghost use Rattle.pat_resolver_spec.specs.Findings.{pattern_findings};
ghost use Rattle.pat_patterns.specs.Views.{pattern_view};
ghost use Rattle.pat_tree.specs.Views.{pattern_view as written_view};
ghost use Rattle.pat_resolver_heads.specs.results.Results.{Meets};
ghost use Rattle.pat_resolver_spec.specs.Scopes.{first_named, itself, number_found};

use crate::results::{ResolveError, ResolveKind};
use crate::tables::NameTable;
use pat_patterns::Pattern;
use pat_sequences::Text;
use pat_tree::TreePattern;
use std::alloc::{AllocError, Global};
use std::sync::Arc;

/// Refuses a pattern with a tag that isn't one of these, at the first such tag.
pub fn check_pattern(tags: &NameTable, pattern: &TreePattern) -> Result<(), ResolveError>
    ensures { Meets result (pattern_findings tags.now (written_view pattern.now)) }
{
    match pattern {
        TreePattern::Zero(_) | TreePattern::One(_) => Ok(()),
        TreePattern::Tag(name) => match tags.find(&name.text) {
            Some(_) => Ok(()),
            None => Err(ResolveError::Broken {
                kind: ResolveKind::ForeignTag,
                span: name.span,
            }),
        },
        TreePattern::Sum(left, right) | TreePattern::Prod(left, right) => {
            check_pattern(tags, left)?;
            check_pattern(tags, right)
        }
        TreePattern::Star(part) => check_pattern(tags, part),
    }
}

/// The pattern by the numbers of its tags, which are their places among these. A tag that isn't there has the number 0.
pub fn number_pattern(
    alloc: Global,
    tags: &NameTable,
    pattern: &TreePattern,
) -> Result<Pattern, AllocError>
    requires { length tags.now ≤ 256 }
    ensures { IfOk result (λ p. pattern_view p ≡ pattern_of tags.now (written_view pattern.now)) }
{
    match pattern {
        TreePattern::Zero(_) => Ok(Pattern::Zero),
        TreePattern::One(_) => Ok(Pattern::One),
        TreePattern::Tag(name) => Ok(Pattern::Tag(tag_number(tags, &name.text))),
        TreePattern::Sum(left, right) => {
            let left = number_pattern(alloc, tags, left)?;
            let right = number_pattern(alloc, tags, right)?;
            Ok(Pattern::Sum(Arc::new(alloc, left)?, Arc::new(alloc, right)?))
        }
        TreePattern::Prod(left, right) => {
            let left = number_pattern(alloc, tags, left)?;
            let right = number_pattern(alloc, tags, right)?;
            Ok(Pattern::Prod(Arc::new(alloc, left)?, Arc::new(alloc, right)?))
        }
        TreePattern::Star(part) => {
            let part = number_pattern(alloc, tags, part)?;
            Ok(Pattern::Star(Arc::new(alloc, part)?))
        }
    }
}

/// The place of a tag among these, or 0 where it isn't there.
fn tag_number(tags: &NameTable, name: &Text) -> u8
    requires { length tags.now ≤ 256 }
    ensures { result ≡ number_found (first_named itself name.now tags.now) }
{
    match tags.find(name) {
        Some(place) => place as u8,
        None => 0,
    }
}
