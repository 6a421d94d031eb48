// Types as they are written.
ghost use Rattle.std.specs.Prelude.{◌≡◌, ◌≤◌, ℕ, List, length, option_map};
ghost use Rattle.pat_parser_spec.specs.Machine as m;
ghost use Rattle.pat_syntax.specs.Views.{kind_view};
ghost use Rattle.pat_primitives.specs.Views.{base_view, polarity_view};
ghost use Rattle.pat_tree.specs.Views.{span_view, name_view, pattern_view, type_view};
ghost use Rattle.pat_parser_spec.specs.Trees as trees;
ghost use Rattle.pat_parser_phrases.specs.tokens.Answers.{Parses, answer, after};
ghost use Rattle.pat_parser_phrases.specs.types.Ends.{behind_type, leaves_out};

use crate::tokens::{ParseError, Tokens};
use crate::types::patterns::pattern;
use pat_primitives::{Base, Polarity};
use pat_syntax::{Mark, Reserved, Span, Token, TokenKind};
use pat_tree::{Name, TreePattern, TreeType};
use std::alloc::Global;

/// A type, and the token behind it.
#[derive(Drop)]
pub struct TypeRead {
    pub of: TreeType,
    pub token: Token,
}

/// Reads a type, whose first token is at hand. A payload's type has a pattern.
pub fn written_type(
    alloc: Global,
    tokens: &mut Tokens,
    payload: bool,
    opened: u16,
    kind: TokenKind,
    span: Span,
) -> Result<TypeRead, ParseError>
    ensures read { (fs : List m.Frame) → m.is_payload fs ≡ payload
        → Parses result (after (m.want_type fs opened (kind_view kind) (span_view span)) span.from tokens.old)
        (λ a. behind_type fs opened a tokens.new) }
    ensures no_more { length tokens.new.0 ≤ length tokens.old.0 }
{
    match kind {
        TokenKind::Name(text) => {
            let name = Name { text, span };
            let token = tokens.next()?;
            match token.kind {
                TokenKind::Mark(Mark::Bang) => polarized(
                    alloc,
                    tokens,
                    payload,
                    opened,
                    name,
                    Polarity::Sending,
                    token.span,
                ),
                TokenKind::Mark(Mark::Question) => polarized(
                    alloc,
                    tokens,
                    payload,
                    opened,
                    name,
                    Polarity::Receiving,
                    token.span,
                ),
                _ => Err(ParseError::Unexpected(token.span.from)),
            }
        }
        TokenKind::Word(Reserved::Unit) => base(tokens, Base::Unit, span),
        TokenKind::Word(Reserved::Bool) => base(tokens, Base::Bool, span),
        TokenKind::Word(Reserved::Int) => base(tokens, Base::Int, span),
        TokenKind::Word(Reserved::String) => base(tokens, Base::Str, span),
        _ => Err(ParseError::Unexpected(span.from)),
    }
}

/// Takes the token behind a base type.
fn base(tokens: &mut Tokens, base: Base, span: Span) -> Result<TypeRead, ParseError>
    ensures read { (fs : List m.Frame) → (o : ℕ) → Parses result (answer (m.state (m.HaveType (trees.BaseType (base_view base) (span_view span))) fs o 0 0) tokens.old) (λ a. behind_type fs o a tokens.new) }
    ensures no_more { length tokens.new.0 ≤ length tokens.old.0 }
{
    let token = tokens.next()?;
    Ok(TypeRead {
        of: TreeType::Base(base, span),
        token,
    })
}

/// Behind a name and its polarity, which stands at a place.
fn polarized(
    alloc: Global,
    tokens: &mut Tokens,
    payload: bool,
    opened: u16,
    name: Name,
    polarity: Polarity,
    place: Span,
) -> Result<TypeRead, ParseError>
    ensures read { (fs : List m.Frame) → Parses result (after (m.polarized payload fs opened (name_view name) (polarity_view polarity) (span_view place)) place.from tokens.old) (λ a. behind_type fs opened a tokens.new) }
    ensures no_more { length tokens.new.0 ≤ length tokens.old.0 }
{
    let token = tokens.next()?;
    if leaves_pattern_out(payload, &token.kind) {
        Ok(TypeRead {
            of: mailbox_type(name, polarity, None, place.to),
            token,
        })
    } else {
        let read = pattern(alloc, tokens, opened, 0, token.kind, token.span)?;
        Ok(TypeRead {
            of: mailbox_type(name, polarity, Some(read.pattern), read.to),
            token: read.token,
        })
    }
}

/// Whether a token ends a type that has no pattern.
fn leaves_pattern_out(payload: bool, kind: &TokenKind) -> bool
    ensures { result ≡ leaves_out payload (kind_view kind.now) }
{
    match kind {
        TokenKind::Mark(Mark::Comma) => !payload,
        TokenKind::Mark(Mark::RoundClose) => !payload,
        TokenKind::Mark(Mark::CurlyOpen) => !payload,
        _ => false,
    }
}

fn mailbox_type(name: Name, polarity: Polarity, pattern: Option<TreePattern>, to: u32) -> TreeType
    ensures { type_view result ≡ trees.MailboxType (name_view name) (polarity_view polarity) (option_map pattern_view pattern) (trees.span name.span.from to) }
{
    let span = Span {
        from: name.span.from,
        to,
    };
    TreeType::Mailbox {
        name,
        polarity,
        pattern,
        span,
    }
}
