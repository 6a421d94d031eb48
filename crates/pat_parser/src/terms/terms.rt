// Where terms begin, and the words that they begin with.
ghost use Rattle.std.specs.Prelude.{◌≡◌, ◌≤◌, ◌∷◌, ◌+◌, Bool, length, suc, true};
ghost use Rattle.pat_parser_spec.specs.Machine as m;
ghost use Rattle.pat_syntax.specs.Views.{kind_view};
ghost use Rattle.pat_tree.specs.Views.{span_view, expr_view, term_view};
ghost use Rattle.pat_parser_phrases.specs.tokens.Answers.{answer, after, Parses};
ghost use Rattle.pat_parser_phrases.specs.expressions.Reads.{is_simple};
ghost use Rattle.pat_parser.specs.states.Views.{control_view, stack_view, state_view};

use crate::ends::{behind_simple, clause};
use crate::states::{BlockFrame, Control, Frame, LetFrame, Place, State, begun, block, placed};
use crate::terms::clauses::{free_clause, guard, receive_clause};
use pat_parser_phrases::{ParseError, Tokens, simple_term, test};
use pat_syntax::{Mark, Reserved, Span, Token, TokenKind};
use pat_tree::{Term, TreeExpr};
use std::alloc::Global;

/// Behind `let`, which stands at `from`.
fn let_head(tokens: &mut Tokens, place: Place, from: u32) -> Result<State, ParseError>
    ensures read { Parses result (answer (m.state (m.WantName (m.LetName from))
        (stack_view place.stack) place.opened 0 place.statements) tokens.old) (λ x. answer (state_view x) tokens.new) }
    ensures no_more { length tokens.new.0 ≤ length tokens.old.0 }
{
    let name = tokens.name()?;
    tokens.mark(Mark::Equals)?;
    let frame = Frame::Let(LetFrame::InBound(name, from));
    Ok(begun(frame, place.stack, false, place.opened, place.statements)?)
}

/// Behind `spawn`, which stands at `from`.
fn spawn(tokens: &mut Tokens, place: Place, from: u32) -> Result<State, ParseError>
    ensures read { Parses result (answer (m.state (m.AfterSpawn from) (stack_view place.stack) place.opened 0 place.statements) tokens.old)
        (λ x. answer (state_view x) tokens.new) }
    ensures no_more { length tokens.new.0 ≤ length tokens.old.0 }
{
    let Token { kind, span } = tokens.next()?;
    match kind {
        TokenKind::Mark(Mark::CurlyOpen) => {
            let frame = Frame::Block(BlockFrame::InSpawn(from, place.opened, place.statements));
            placed(block(place, frame), span.from)
        }
        _ => Err(ParseError::Unexpected(span.from)),
    }
}

/// Behind `if`, which stands at `from`.
fn branch(alloc: Global, tokens: &mut Tokens, place: Place, from: u32) -> Result<State, ParseError>
    ensures read { Parses result (answer (m.state (m.Want m.nothing)
        (m.AtExpr (m.InTest from) ∷ stack_view place.stack) place.opened 0 place.statements) tokens.old)
        (λ x. answer (state_view x) tokens.new) }
    ensures no_more { length tokens.new.0 ≤ length tokens.old.0 }
{
    let test = test(alloc, tokens, place.opened)?;
    let frame = Frame::Block(BlockFrame::InYes(test, from, place.opened, place.statements));
    Ok(begun(frame, place.stack, true, place.opened + 1, place.statements)?)
}

/// Behind `else`.
fn no_block(
    tokens: &mut Tokens,
    place: Place,
    test: TreeExpr,
    yes: Box<Term>,
    from: u32,
) -> Result<State, ParseError>
    ensures read { Parses result (answer (m.state (m.AfterElse (expr_view test) (term_view yes.value) from)
        (stack_view place.stack) place.opened 0 place.statements) tokens.old) (λ x. answer (state_view x) tokens.new) }
    ensures no_more { length tokens.new.0 ≤ length tokens.old.0 }
{
    let Token { kind, span } = tokens.next()?;
    match kind {
        TokenKind::Mark(Mark::CurlyOpen) => {
            let frame = BlockFrame::InNo(test, yes, from, place.opened, place.statements);
            placed(block(place, Frame::Block(frame)), span.from)
        }
        _ => Err(ParseError::Unexpected(span.from)),
    }
}

/// Behind the first block of an `if`.
fn otherwise(
    tokens: &mut Tokens,
    place: Place,
    test: TreeExpr,
    yes: Box<Term>,
    from: u32,
    kind: TokenKind,
    span: Span,
) -> Result<State, ParseError>
    ensures read { Parses result (after (m.after_yes (stack_view place.stack) place.opened place.statements (expr_view test)
        (term_view yes.value) from (kind_view kind) (span_view span)) span.from tokens.old) (λ x. answer (state_view x) tokens.new) }
    ensures no_more { length tokens.new.0 ≤ length tokens.old.0 }
{
    match kind {
        TokenKind::Word(Reserved::Else) => no_block(tokens, place, test, yes, from),
        _ => Err(ParseError::Unexpected(span.from)),
    }
}

/// A simple term, and what follows it.
#[tactic(auto, using(crate::proofs::Frames::no_frame))]
fn simple(
    alloc: Global,
    tokens: &mut Tokens,
    place: Place,
    kind: TokenKind,
    span: Span,
) -> Result<State, ParseError>
    ensures read { (b : Bool) → is_simple (kind_view kind) ≡ true
        → Parses result (after (m.start_step (stack_view place.stack) place.opened 0 place.statements b (kind_view kind)
        (span_view span)) span.from tokens.old) (λ x. answer (state_view x) tokens.new) }
    ensures no_more { length tokens.new.0 ≤ length tokens.old.0 }
{
    let read = simple_term(alloc, tokens, place.opened, kind, span)?;
    let Token { kind, span } = read.token;
    let behind = behind_simple(alloc, place, read.term, read.from, kind, span);
    placed(behind, span.from)
}

/// Where a term begins. A whole term may be a let.
fn start(
    alloc: Global,
    tokens: &mut Tokens,
    place: Place,
    whole: bool,
    kind: TokenKind,
    span: Span,
) -> Result<State, ParseError>
    ensures read { Parses result (after (m.start_step (stack_view place.stack) place.opened 0 place.statements whole (kind_view kind)
        (span_view span)) span.from tokens.old) (λ x. answer (state_view x) tokens.new) }
    ensures no_more { length tokens.new.0 ≤ length tokens.old.0 }
{
    match kind {
        TokenKind::Word(Reserved::Let) => {
            if whole {
                let_head(tokens, place, span.from)
            } else {
                Err(ParseError::Unexpected(span.from))
            }
        }
        TokenKind::Word(Reserved::Spawn) => spawn(tokens, place, span.from),
        TokenKind::Word(Reserved::If) => branch(alloc, tokens, place, span.from),
        TokenKind::Word(Reserved::Guard) => guard(alloc, tokens, place, span.from),
        TokenKind::Mark(Mark::CurlyOpen) => {
            let frame = BlockFrame::InBlock(span.from, place.opened, place.statements);
            placed(block(place, Frame::Block(frame)), span.from)
        }
        kind => simple(alloc, tokens, place, kind, span),
    }
}

/// What is read from a token on within a function: the phrase that it begins, or the end of a term.
pub fn within(
    alloc: Global,
    tokens: &mut Tokens,
    control: Control,
    place: Place,
    kind: TokenKind,
    span: Span,
) -> Result<State, ParseError>
    ensures read { Parses result
        (after
        (m.move (control_view control) (stack_view place.stack) place.opened 0 place.statements (kind_view kind)
        (span_view span)) span.from tokens.old) (λ x. answer (state_view x) tokens.new) }
    ensures no_more { length tokens.new.0 ≤ length tokens.old.0 }
{
    match control {
        Control::Start(whole) => start(alloc, tokens, place, whole, kind, span),
        Control::Done(term, from) => placed(
            behind_simple(alloc, place, term, from, kind, span),
            span.from,
        ),
        Control::AfterYes(test, yes, from) => otherwise(tokens, place, test, yes, from, kind, span),
        Control::AtClause(first, guard) => placed(
            clause(alloc, first, place.stack, guard, kind, span),
            span.from,
        ),
        Control::AfterFree(guard, word) => {
            placed(free_clause(place, guard, word, kind), span.from)
        }
        Control::AfterReceive(guard, word) => receive_clause(
            alloc, tokens, place, guard, word, kind, span,
        ),
    }
}
