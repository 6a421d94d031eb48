// The arguments of a call or a send.
ghost use Rattle.std.specs.Prelude.{◌≡◌, ◌∷◌, [], ◌≤◌, ℕ, suc, List, length, map};
ghost use Rattle.pat_parser_spec.specs.Machine as m;
ghost use Rattle.pat_tree.specs.Views.{expr_view};
ghost use Rattle.pat_parser_phrases.specs.tokens.Answers.{Parses, answer, after};

use crate::expressions::expressions::expression;
use crate::tokens::{ParseError, Tokens, has_room, is_mark};
use pat_sequences::Sequence;
use pat_syntax::{Mark, TokenKind};
use pat_tree::TreeExpr;
use std::alloc::Global;

/// The arguments of a call or a send, and where its text ends.
#[derive(Drop)]
pub struct ArgumentsRead {
    pub args: Sequence<TreeExpr>,
    pub to: u32,
}

/// The arguments of a call or a send, from behind the opening bracket, which stands at `at`, to behind the closing one.
pub fn arguments(
    alloc: Global,
    tokens: &mut Tokens,
    opened: u16,
    at: u32,
) -> Result<ArgumentsRead, ParseError>
    ensures reads { (h : m.Head) (fs : List m.Frame) (s : ℕ)
        → Parses result
        (after (m.Opens opened 0 (m.state m.FirstArg (m.AtExpr (m.InArgs h [] opened) ∷ fs) (suc opened) 0 s)) at tokens.old)
        (λ x. answer (m.state (m.Done (m.made h (map expr_view x.args) x.to) (m.head_from h)) fs opened 0 s) tokens.new) }
    ensures no_more { length tokens.new.0 ≤ length tokens.old.0 }
{
    if !has_room(opened, 0) {
        return Err(ParseError::TooDeep(at));
    }
    let mut args = Sequence::new(alloc);
    let mut next = tokens.next()?;
    if is_mark(&next.kind, Mark::RoundClose) {
        let to = next.span.to;
        return Ok(ArgumentsRead { args, to });
    }
    loop {
        let read = expression(alloc, tokens, opened + 1, 0, next.kind, next.span)?;
        args.push(read.operand.value)?;
        let span = read.token.span;
        match read.token.kind {
            TokenKind::Mark(Mark::Comma) => next = tokens.next()?,
            TokenKind::Mark(Mark::RoundClose) => {
                let to = span.to;
                return Ok(ArgumentsRead { args, to });
            }
            _ => return Err(ParseError::Unexpected(span.from)),
        }
    }
}
