// Heads of guards and of their clauses.
ghost use Rattle.std.specs.Prelude.{◌≡◌, ◌≤◌, ◌∷◌, ◌+◌, [], ℕ, List, map, length, suc, true};
ghost use Rattle.pat_parser_spec.specs.Machine as m;
ghost use Rattle.pat_parser_spec.specs.Trees as trees;
ghost use Rattle.pat_syntax.specs.Views.{kind_view};
ghost use Rattle.pat_tree.specs.Views.{span_view, name_view, pattern_view};
ghost use Rattle.pat_parser_phrases.specs.tokens.Answers.{answer, after, Parses};
ghost use Rattle.pat_parser.specs.states.Views.{guarding_view, clause_head_view, stack_view, state_view};
ghost use Rattle.pat_parser.specs.states.Answers.{Makes};

use crate::states::{
    ClauseFrame, ClauseHead, Control, Fault, Frame, Guarding, Place, State, at, begun, placed,
    refused, too_deep,
};
use pat_parser_phrases::{ParseError, Tokens, has_room, is_mark, pattern};
use pat_sequences::Sequence;
use pat_syntax::{Mark, Reserved, Span, Token, TokenKind};
use pat_tree::{Name, TreePattern};
use std::alloc::Global;

fn guard_open(
    alloc: Global,
    place: Place,
    mailbox: Name,
    pattern: TreePattern,
    from: u32,
) -> Result<State, Fault>
    ensures { Makes result (m.Opens place.opened 0
        (m.state (m.AtClause true (record {
          mailbox = name_view mailbox;
          pattern = pattern_view pattern;
          from = from;
          opened = place.opened;
          inside = suc place.opened;
          statements = place.statements;
          clauses = [];
        })) (stack_view place.stack)
        (suc place.opened) 0 place.statements)) }
{
    if !has_room(place.opened, 0) {
        return too_deep((place, mailbox, pattern));
    }
    let inside = place.opened + 1;
    let guard = Guarding {
        mailbox,
        pattern,
        from,
        opened: place.opened,
        inside,
        statements: place.statements,
        clauses: Vec::new(alloc),
    };
    let control = Control::AtClause(true, Box::new(alloc, guard)?);
    Ok(at(control, place.stack, inside, place.statements))
}

/// Behind the colon of a guard.
fn guarded(
    alloc: Global,
    tokens: &mut Tokens,
    place: Place,
    mailbox: Name,
    from: u32,
) -> Result<State, ParseError>
    ensures read { Parses result (answer (m.state (m.WantPattern m.none_before)
        (m.AtPattern (m.InGuarded (name_view mailbox) from) ∷ stack_view place.stack) place.opened 0 place.statements) tokens.old)
        (λ x. answer (state_view x) tokens.new) }
    ensures no_more { length tokens.new.0 ≤ length tokens.old.0 }
{
    let Token { kind, span } = tokens.next()?;
    let read = pattern(alloc, tokens, place.opened, 0, kind, span)?;
    let span = read.token.span;
    match read.token.kind {
        TokenKind::Mark(Mark::CurlyOpen) => {
            let open = guard_open(alloc, place, mailbox, read.pattern, from);
            placed(open, span.from)
        }
        _ => Err(ParseError::Unexpected(span.from)),
    }
}

/// Behind `guard`.
pub fn guard(
    alloc: Global,
    tokens: &mut Tokens,
    place: Place,
    from: u32,
) -> Result<State, ParseError>
    ensures read { Parses result
        (answer (m.state (m.WantName (m.GuardName from)) (stack_view place.stack) place.opened 0 place.statements) tokens.old)
        (λ x. answer (state_view x) tokens.new) }
    ensures no_more { length tokens.new.0 ≤ length tokens.old.0 }
{
    let mailbox = tokens.name()?;
    tokens.mark(Mark::Colon)?;
    guarded(alloc, tokens, place, mailbox, from)
}

/// Behind `free` where a clause begins.
pub fn free_clause(
    place: Place,
    guard: Box<Guarding>,
    word: Span,
    kind: TokenKind,
) -> Result<State, Fault>
    ensures { (w : trees.Span)
        → Makes result (m.after_free_word (stack_view place.stack) place.opened place.statements (guarding_view guard.value)
        (span_view word) (kind_view kind) w) }
{
    match kind {
        TokenKind::Mark(Mark::Arrow) => {
            let frame = Frame::Clause(ClauseFrame::InFree(guard, word));
            Ok(begun(frame, place.stack, true, place.opened, place.statements)?)
        }
        _ => refused((place, guard)),
    }
}

/// The names of a receive clause, from behind the opening bracket up to the closing one.
fn names(alloc: Global, tokens: &mut Tokens) -> Result<Sequence<Name>, ParseError>
    ensures read { (g : m.Guarding) (word : trees.Span) (tag : trees.Name) (fs : List m.Frame) (o s : ℕ)
        → Parses result (answer (m.state (m.FirstBinder (record { guard = g; word = word; tag = tag; names = [] })) fs o 0 s) tokens.old)
        (λ xs. answer (m.state (m.AfterBinders (record {
          guard = g;
          word = word;
          tag = tag;
          names
              = map name_view xs;
        })) fs g.inside 0 s) tokens.new) }
    ensures no_more { length tokens.new.0 ≤ length tokens.old.0 }
{
    let mut names = Sequence::new(alloc);
    let mut next = tokens.next()?;
    if is_mark(&next.kind, Mark::RoundClose) {
        return Ok(names);
    }
    loop {
        let Token { kind, span } = next;
        match kind {
            TokenKind::Name(text) => names.push(Name { text, span })?,
            _ => return Err(ParseError::Unexpected(span.from)),
        }
        let end = tokens.next()?;
        match end.kind {
            TokenKind::Mark(Mark::Comma) => next = tokens.next()?,
            TokenKind::Mark(Mark::RoundClose) => return Ok(names),
            _ => return Err(ParseError::Unexpected(end.span.from)),
        }
    }
}

/// Behind the names of a receive clause.
fn receive_from(
    tokens: &mut Tokens,
    place: Place,
    head: Box<ClauseHead>,
) -> Result<State, ParseError>
    ensures read { Parses result (answer (m.state (m.WantName (m.FromName (clause_head_view head.value)))
        (stack_view place.stack) place.opened 0 place.statements) tokens.old) (λ x. answer (state_view x) tokens.new) }
    ensures no_more { length tokens.new.0 ≤ length tokens.old.0 }
{
    let name = tokens.name()?;
    tokens.mark(Mark::Arrow)?;
    let frame = Frame::Clause(ClauseFrame::InReceive(head, name));
    Ok(begun(frame, place.stack, true, place.opened, place.statements)?)
}

/// From behind the opening bracket of a receive clause.
fn receive_names(
    alloc: Global,
    tokens: &mut Tokens,
    place: Place,
    guard: Box<Guarding>,
    word: Span,
    tag: Name,
) -> Result<State, ParseError>
    ensures read { (o : ℕ) → Parses result (answer
        (m.state (m.FirstBinder (record { guard = guarding_view guard.value; word = span_view word; tag = name_view tag; names = [] }))
        (stack_view place.stack) o 0 place.statements) tokens.old) (λ x. answer (state_view x) tokens.new) }
    ensures no_more { length tokens.new.0 ≤ length tokens.old.0 }
{
    let names = names(alloc, tokens)?;
    let Token { kind, span } = tokens.next()?;
    match kind {
        TokenKind::Word(Reserved::From) => {
            let place = Place {
                stack: place.stack,
                opened: guard.inside,
                statements: place.statements,
            };
            let head = ClauseHead {
                guard,
                word,
                tag,
                names,
            };
            receive_from(tokens, place, Box::new(alloc, head)?)
        }
        _ => Err(ParseError::Unexpected(span.from)),
    }
}

/// Behind the word `receive`, at the tag.
pub fn receive_clause(
    alloc: Global,
    tokens: &mut Tokens,
    place: Place,
    guard: Box<Guarding>,
    word: Span,
    kind: TokenKind,
    span: Span,
) -> Result<State, ParseError>
    ensures read { Parses result
        (after
        (m.want_name (stack_view place.stack) place.opened place.statements
        (m.ReceiveName (guarding_view guard.value) (span_view word)) (kind_view kind) (span_view span)) span.from
        tokens.old) (λ x. answer (state_view x) tokens.new) }
    ensures no_more { length tokens.new.0 ≤ length tokens.old.0 }
{
    let tag = match kind {
        TokenKind::Name(text) => Name { text, span },
        _ => return Err(ParseError::Unexpected(span.from)),
    };
    let Token { kind, span } = tokens.next()?;
    match kind {
        TokenKind::Mark(Mark::RoundOpen) => {
            if !has_room(place.opened, 0) {
                return Err(ParseError::TooDeep(span.from));
            }
            receive_names(alloc, tokens, place, guard, word, tag)
        }
        _ => Err(ParseError::Unexpected(span.from)),
    }
}
