// Patterns.
ghost use Rattle.std.specs.Prelude.{◌≡◌, ◌+◌, ◌<◌, ◌≤◌, ℕ, List, ◌∷◌, length, option_map, Some, None, IfOk};
ghost use Rattle.pat_parser_spec.specs.Items as items;
ghost use Rattle.pat_parser_spec.specs.Machine as m;
ghost use Rattle.pat_parser_spec.specs.Trees as trees;
ghost use Rattle.pat_syntax.specs.Views.{kind_view};
ghost use Rattle.pat_tree.specs.Views.{span_view, pattern_view};
ghost use Rattle.pat_parser_phrases.specs.tokens.Answers.{Parses, answer, after, moved};
ghost use Rattle.pat_parser_phrases.specs.types.Ends.{behind_pattern, behind_factor, held_view, before_view};
ghost use Rattle.pat_limits.specs.Limits.{most_open};

use crate::tokens::{ParseError, Tokens, has_room};
use pat_syntax::{Mark, Span, Token, TokenKind};
use pat_tree::{Name, TreePattern};
use std::alloc::{AllocError, Global};

/// A pattern or a factor of one, and the token behind it.
#[derive(Drop)]
pub struct PatternRead {
    pub pattern: TreePattern,
    /// Where its last token ends.
    pub to: u32,
    /// How many operators are open behind it.
    pub operators: u16,
    pub token: Token,
}

/// The sum and the product that stand before a factor.
#[derive(Drop)]
struct Before {
    added: Option<Box<TreePattern>>,
    multiplied: Option<Box<TreePattern>>,
}

/// Takes the token behind one, at a place, that opens a bracket or an operator.
fn after_opening(
    tokens: &mut Tokens,
    opened: u16,
    operators: u16,
    place: Span,
) -> Result<Token, ParseError>
    ensures taken { (x : m.State) → m.finish x ≡ None → Parses result (after (m.Opens opened operators x) place.from tokens.old) (λ t. after (moved x (kind_view t.kind) (span_view t.span)) t.span.from tokens.new) }
    ensures room { IfOk result (λ t. opened + operators < most_open) }
    ensures fewer { IfOk result (λ t. length tokens.new.0 < length tokens.old.0) }
    ensures no_more { length tokens.new.0 ≤ length tokens.old.0 }
{
    if has_room(opened, operators) {
        tokens.next()
    } else {
        Err(ParseError::TooDeep(place.from))
    }
}

/// Reads a pattern, whose first token is at hand.
#[cycle(pattern)]
pub fn pattern(
    alloc: Global,
    tokens: &mut Tokens,
    opened: u16,
    mut operators: u16,
    mut kind: TokenKind,
    mut span: Span,
) -> Result<PatternRead, ParseError>
    ensures read { (fs : List m.Frame) → (s : ℕ)
        → Parses result
        (after (m.want_pattern fs opened operators s m.none_before (kind_view kind) (span_view span)) span.from tokens.old)
        (λ q. behind_pattern fs opened s q tokens.new) }
    ensures no_more { length tokens.new.0 ≤ length tokens.old.0 }
{
    let mut before = Before {
        added: None,
        multiplied: None,
    };
    loop {
        let read = factor(alloc, tokens, opened, operators, kind, span)?;
        before = match read.token.kind {
            TokenKind::Mark(Mark::Dot) => times(alloc, before, read.pattern)?,
            TokenKind::Mark(Mark::Plus) => plus(alloc, before, read.pattern)?,
            _ => return Ok(whole(alloc, before, read)?),
        };
        let token = after_opening(tokens, opened, read.operators, read.token.span)?;
        operators = read.operators + 1;
        kind = token.kind;
        span = token.span;
    }
}

/// Reads a factor with the stars before it.
#[cycle(pattern)]
fn factor(
    alloc: Global,
    tokens: &mut Tokens,
    opened: u16,
    operators: u16,
    kind: TokenKind,
    span: Span,
) -> Result<PatternRead, ParseError>
    ensures read { (fs : List m.Frame) → (s : ℕ) → (p : m.Before) → Parses result (after (m.want_pattern fs opened operators s p (kind_view kind) (span_view span)) span.from tokens.old) (λ q. behind_factor fs opened s p q tokens.new) }
    ensures no_more { length tokens.new.0 ≤ length tokens.old.0 }
{
    match kind {
        TokenKind::Name(text) => {
            let tag = TreePattern::Tag(Name { text, span });
            behind(tokens, operators, tag, span.to)
        }
        TokenKind::Integer(value) => match constant(value, span) {
            Some(constant) => behind(tokens, operators, constant, span.to),
            None => Err(ParseError::Unexpected(span.from)),
        },
        TokenKind::Mark(Mark::Star) => {
            let first = after_opening(tokens, opened, operators, span)?;
            let read = factor(alloc, tokens, opened, operators + 1, first.kind, first.span)?;
            Ok(starred(alloc, read)?)
        }
        TokenKind::Mark(Mark::RoundOpen) => {
            let first = after_opening(tokens, opened, operators, span)?;
            let read = pattern(alloc, tokens, opened + 1, operators, first.kind, first.span)?;
            closed(tokens, read)
        }
        _ => Err(ParseError::Unexpected(span.from)),
    }
}

/// Takes the token behind a factor.
fn behind(
    tokens: &mut Tokens,
    operators: u16,
    pattern: TreePattern,
    to: u32,
) -> Result<PatternRead, ParseError>
    ensures read { (fs : List m.Frame) → (o s : ℕ) → (p : m.Before) → Parses result (answer (m.state (m.HavePattern p (pattern_view pattern) to) fs o operators s) tokens.old) (λ q. behind_factor fs o s p q tokens.new) }
    ensures no_more { length tokens.new.0 ≤ length tokens.old.0 }
{
    let token = tokens.next()?;
    Ok(PatternRead {
        pattern,
        to,
        operators,
        token,
    })
}

/// Behind a pattern in brackets and the token that ends it.
fn closed(tokens: &mut Tokens, read: PatternRead) -> Result<PatternRead, ParseError>
    ensures read { (fs : List m.Frame) → (n o s : ℕ) → (p : m.Before) → Parses result (behind_pattern (m.AtPattern (m.InPatternBracket p o) ∷ fs) n s read tokens.old) (λ q. behind_factor fs o s p q tokens.new) }
    ensures no_more { length tokens.new.0 ≤ length tokens.old.0 }
{
    match read.token.kind {
        TokenKind::Mark(Mark::RoundClose) => behind(
            tokens,
            read.operators,
            read.pattern,
            read.token.span.to,
        ),
        _ => Err(ParseError::Unexpected(read.token.span.from)),
    }
}

fn constant(value: i64, span: Span) -> Option<TreePattern>
    ensures { option_map pattern_view result ≡ items.constant value (span_view span) }
{
    if value == 0 {
        Some(TreePattern::Zero(span))
    } else if value == 1 {
        Some(TreePattern::One(span))
    } else {
        None
    }
}

/// A factor with one star more.
fn starred(alloc: Global, factor: PatternRead) -> Result<PatternRead, AllocError>
    ensures { IfOk result (λ q. (pattern_view q.pattern ≡ trees.StarPattern (pattern_view factor.pattern)) × (q.to ≡ factor.to) × (q.operators ≡ factor.operators) × (q.token ≡ factor.token)) }
{
    Ok(PatternRead {
        pattern: TreePattern::Star(Box::new(alloc, factor.pattern)?),
        to: factor.to,
        operators: factor.operators,
        token: factor.token,
    })
}

fn product(
    alloc: Global,
    left: Option<Box<TreePattern>>,
    right: TreePattern,
) -> Result<TreePattern, AllocError>
    ensures { IfOk result (λ q. pattern_view q ≡ m.times_pattern (held_view left) (pattern_view right)) }
{
    match left {
        None => Ok(right),
        Some(left) => Ok(TreePattern::Prod(left, Box::new(alloc, right)?)),
    }
}

fn sum(
    alloc: Global,
    left: Option<Box<TreePattern>>,
    right: TreePattern,
) -> Result<TreePattern, AllocError>
    ensures { IfOk result (λ q. pattern_view q ≡ m.plus_pattern (held_view left) (pattern_view right)) }
{
    match left {
        None => Ok(right),
        Some(left) => Ok(TreePattern::Sum(left, Box::new(alloc, right)?)),
    }
}

/// What stands before the factor behind a dot.
fn times(alloc: Global, before: Before, factor: TreePattern) -> Result<Before, AllocError>
    ensures { IfOk result (λ b. before_view b ≡ record { added = held_view before.added; multiplied = Some (m.product_in (before_view before) (pattern_view factor)); stars = 0 }) }
{
    let product = product(alloc, before.multiplied, factor)?;
    Ok(Before {
        added: before.added,
        multiplied: Some(Box::new(alloc, product)?),
    })
}

/// What stands before the factor behind a plus.
fn plus(alloc: Global, before: Before, factor: TreePattern) -> Result<Before, AllocError>
    ensures { IfOk result (λ b. before_view b ≡ record { added = Some (m.whole_in (before_view before) (pattern_view factor)); multiplied = None; stars = 0 }) }
{
    let product = product(alloc, before.multiplied, factor)?;
    let sum = sum(alloc, before.added, product)?;
    Ok(Before {
        added: Some(Box::new(alloc, sum)?),
        multiplied: None,
    })
}

/// The whole pattern that ends with a factor.
fn whole(alloc: Global, before: Before, last: PatternRead) -> Result<PatternRead, AllocError>
    ensures { IfOk result (λ q. (pattern_view q.pattern ≡ m.whole_in (before_view before) (pattern_view last.pattern)) × (q.to ≡ last.to) × (q.operators ≡ last.operators) × (q.token ≡ last.token)) }
{
    let product = product(alloc, before.multiplied, last.pattern)?;
    Ok(PatternRead {
        pattern: sum(alloc, before.added, product)?,
        to: last.to,
        operators: last.operators,
        token: last.token,
    })
}
