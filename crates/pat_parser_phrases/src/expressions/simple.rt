// The terms without blocks: values, prints, news, frees, calls and sends; and the test of an `if`.
ghost use Rattle.std.specs.Prelude.{◌≡◌, ◌∷◌, [], ◌<◌, ◌≤◌, ℕ, suc, Bool, true, List, length, IfOk};
ghost use Rattle.pat_parser_spec.specs.Trees as trees;
ghost use Rattle.pat_parser_spec.specs.Machine as m;
ghost use Rattle.pat_syntax.specs.Views.{kind_view};
ghost use Rattle.pat_syntax.specs.declared.token.TokenKind.TheVariants.{Word as WordToken};
ghost use Rattle.pat_tree.specs.Views.{span_view, name_view, expr_view, term_at, term_view};
ghost use Rattle.pat_parser_phrases.specs.tokens.Answers.{Rest, Parses, answer, after};
ghost use Rattle.pat_parser_phrases.specs.expressions.Reads.{behind_expression, behind_term, no_expression, is_simple};
ghost use Rattle.pat_limits.specs.Limits.{most_open};

use crate::expressions::arguments::arguments;
use crate::expressions::expressions::{ExpressionRead, expression, expression_named};
use crate::tokens::{ParseError, Tokens, has_room, is_mark};
use pat_syntax::{Mark, Reserved, Span, Token, TokenKind};
use pat_tree::{Form, Name, Term, TreeExpr};
use std::alloc::{AllocError, Global};

/// A term that isn't a let, where its text begins, braces included, and the token behind it.
#[derive(Drop)]
pub struct TermRead {
    pub term: Box<Term>,
    pub from: u32,
    pub token: Token,
}

fn boxed_term(alloc: Global, form: Form, from: u32, to: u32) -> Result<Box<Term>, AllocError>
    ensures { IfOk result (λ t. term_view t.value ≡ term_at form (trees.span from to)) }
{
    let span = Span { from, to };
    Ok(Box::new(alloc, Term { form, span })?)
}

/// A term whose text has ended, with the token behind it.
pub fn ended(
    alloc: Global,
    tokens: &mut Tokens,
    form: Form,
    from: u32,
    to: u32,
) -> Result<TermRead, ParseError>
    ensures reads { (fs : List m.Frame) (o s : ℕ)
        → Parses result (answer (m.state (m.Done (term_at form (trees.span from to)) from) fs o 0 s) tokens.old)
        (λ x. behind_term fs o s x tokens.new) }
    ensures no_more { length tokens.new.0 ≤ length tokens.old.0 }
{
    let term = boxed_term(alloc, form, from, to)?;
    let token = tokens.next()?;
    Ok(TermRead { term, from, token })
}

/// An expression as a term.
fn value(alloc: Global, read: ExpressionRead) -> Result<TermRead, ParseError>
    ensures { (fs : List m.Frame) (o s : ℕ) (ts : Rest) → no_expression fs ≡ true → Parses result (behind_expression fs o s read ts) (λ x. behind_term fs o s x ts) }
{
    let from = read.operand.from;
    let term = boxed_term(alloc, Form::Value(read.operand.value), from, read.to)?;
    Ok(TermRead {
        term,
        from,
        token: read.token,
    })
}

/// The end of a print, which begins at `from`.
fn print_end(
    alloc: Global,
    tokens: &mut Tokens,
    read: ExpressionRead,
    from: u32,
) -> Result<TermRead, ParseError>
    ensures reads { (fs : List m.Frame) (o i s : ℕ) → Parses result (behind_expression (m.AtExpr (m.InPrint from o) ∷ fs) i s read tokens.old) (λ x. behind_term fs o s x tokens.new) }
    ensures no_more { length tokens.new.0 ≤ length tokens.old.0 }
{
    let span = read.token.span;
    match read.token.kind {
        TokenKind::Mark(Mark::RoundClose) => {
            let form = Form::Print(read.operand.value);
            ended(alloc, tokens, form, from, span.to)
        }
        _ => Err(ParseError::Unexpected(span.from)),
    }
}

/// From behind `print`, which stands at `from`.
fn print(alloc: Global, tokens: &mut Tokens, opened: u16, from: u32) -> Result<TermRead, ParseError>
    ensures reads { (fs : List m.Frame) (s : ℕ) → Parses result (answer (m.state (m.AfterPrint from) fs opened 0 s) tokens.old) (λ x. behind_term fs opened s x tokens.new) }
    ensures no_more { length tokens.new.0 ≤ length tokens.old.0 }
{
    tokens.open(Mark::RoundOpen, opened)?;
    let Token { kind, span } = tokens.next()?;
    let read = expression(alloc, tokens, opened + 1, 0, kind, span)?;
    print_end(alloc, tokens, read, from)
}

/// From behind `new`, which stands at `from`.
fn new(alloc: Global, tokens: &mut Tokens, opened: u16, from: u32) -> Result<TermRead, ParseError>
    ensures reads { (fs : List m.Frame) (s : ℕ) → Parses result (answer (m.state (m.AfterNew from) fs opened 0 s) tokens.old) (λ x. behind_term fs opened s x tokens.new) }
    ensures no_more { length tokens.new.0 ≤ length tokens.old.0 }
{
    tokens.open(Mark::SquareOpen, opened)?;
    let name = tokens.name()?;
    let end = tokens.mark(Mark::SquareClose)?;
    ended(alloc, tokens, Form::New(name), from, end.to)
}

/// From behind `free`, which stands at `from`.
fn free(alloc: Global, tokens: &mut Tokens, opened: u16, from: u32) -> Result<TermRead, ParseError>
    ensures reads { (fs : List m.Frame) (s : ℕ) → Parses result (answer (m.state (m.AfterFree from) fs opened 0 s) tokens.old) (λ x. behind_term fs opened s x tokens.new) }
    ensures no_more { length tokens.new.0 ≤ length tokens.old.0 }
{
    tokens.open(Mark::RoundOpen, opened)?;
    let name = tokens.name()?;
    let end = tokens.mark(Mark::RoundClose)?;
    ended(alloc, tokens, Form::Free(name), from, end.to)
}

/// From behind the `!` of a send.
fn send(
    alloc: Global,
    tokens: &mut Tokens,
    opened: u16,
    target: Name,
) -> Result<TermRead, ParseError>
    ensures reads { (fs : List m.Frame) (s : ℕ) → Parses result (answer (m.state (m.WantName (m.TagName (name_view target))) fs opened 0 s) tokens.old) (λ x. behind_term fs opened s x tokens.new) }
    ensures no_more { length tokens.new.0 ≤ length tokens.old.0 }
{
    let from = target.span.from;
    let tag = tokens.name()?;
    let bracket = tokens.mark(Mark::RoundOpen)?;
    let read = arguments(alloc, tokens, opened, bracket.from)?;
    let form = Form::Send {
        target,
        tag,
        args: read.args,
    };
    ended(alloc, tokens, form, from, read.to)
}

/// From behind the opening bracket of a call, which stands at `at`.
fn call(
    alloc: Global,
    tokens: &mut Tokens,
    opened: u16,
    name: Name,
    at: u32,
) -> Result<TermRead, ParseError>
    ensures reads { (fs : List m.Frame) (s : ℕ) → Parses result (after (m.Opens opened 0 (m.state m.FirstArg (m.AtExpr (m.InArgs (m.ToCall (name_view name)) [] opened) ∷ fs) (suc opened) 0 s)) at tokens.old) (λ x. behind_term fs opened s x tokens.new) }
    ensures no_more { length tokens.new.0 ≤ length tokens.old.0 }
{
    let from = name.span.from;
    let read = arguments(alloc, tokens, opened, at)?;
    let form = Form::Call {
        name,
        args: read.args,
    };
    ended(alloc, tokens, form, from, read.to)
}

/// From behind a name.
fn named(
    alloc: Global,
    tokens: &mut Tokens,
    opened: u16,
    name: Name,
    token: Token,
) -> Result<TermRead, ParseError>
    ensures reads { (fs : List m.Frame) (s : ℕ) → no_expression fs ≡ true → Parses result (after (m.named_step fs opened 0 s (name_view name) (kind_view token.kind) (span_view token.span)) token.span.from tokens.old) (λ x. behind_term fs opened s x tokens.new) }
    ensures no_more { length tokens.new.0 ≤ length tokens.old.0 }
{
    if is_mark(&token.kind, Mark::Bang) {
        return send(alloc, tokens, opened, name);
    }
    if is_mark(&token.kind, Mark::RoundOpen) {
        return call(alloc, tokens, opened, name, token.span.from);
    }
    value(alloc, expression_named(alloc, tokens, opened, name, token)?)
}

/// A term that begins with a word.
fn worded(
    alloc: Global,
    tokens: &mut Tokens,
    opened: u16,
    word: Reserved,
    span: Span,
) -> Result<TermRead, ParseError>
    ensures reads { (fs : List m.Frame) (s : ℕ) (b : Bool) → is_simple (kind_view (WordToken word)) ≡ true → no_expression fs ≡ true → Parses result (after (m.start_step fs opened 0 s b (kind_view (WordToken word)) (span_view span)) span.from tokens.old) (λ x. behind_term fs opened s x tokens.new) }
    ensures no_more { length tokens.new.0 ≤ length tokens.old.0 }
{
    match word {
        Reserved::Print => print(alloc, tokens, opened, span.from),
        Reserved::New => new(alloc, tokens, opened, span.from),
        Reserved::Free => free(alloc, tokens, opened, span.from),
        _ => {
            let kind = TokenKind::Word(word);
            value(alloc, expression(alloc, tokens, opened, 0, kind, span)?)
        }
    }
}

/// A term that begins with this token and has no block, with the token behind it.
pub fn simple_term(
    alloc: Global,
    tokens: &mut Tokens,
    opened: u16,
    kind: TokenKind,
    span: Span,
) -> Result<TermRead, ParseError>
    ensures reads { (fs : List m.Frame) (s : ℕ) (b : Bool) → is_simple (kind_view kind) ≡ true → no_expression fs ≡ true
        → Parses result (after (m.start_step fs opened 0 s b (kind_view kind) (span_view span)) span.from tokens.old)
        (λ x. behind_term fs opened s x tokens.new) }
    ensures no_more { length tokens.new.0 ≤ length tokens.old.0 }
{
    match kind {
        TokenKind::Name(text) => {
            let token = tokens.next()?;
            named(alloc, tokens, opened, Name { text, span }, token)
        }
        TokenKind::Word(word) => worded(alloc, tokens, opened, word, span),
        kind => value(alloc, expression(alloc, tokens, opened, 0, kind, span)?),
    }
}

/// The test of an `if`, from behind the `if` to behind the opening brace of the first block.
pub fn test(alloc: Global, tokens: &mut Tokens, opened: u16) -> Result<TreeExpr, ParseError>
    ensures reads { (fs : List m.Frame) (from s : ℕ)
        → Parses result (answer (m.state (m.Want m.nothing) (m.AtExpr (m.InTest from) ∷ fs) opened 0 s) tokens.old)
        (λ e. answer (m.state (m.Start true) (m.AtBlock (m.InYes (expr_view e) from opened s) ∷ fs) (suc opened) 0 s)
        tokens.new) }
    ensures room { IfOk result (λ _. opened < most_open) }
    ensures no_more { length tokens.new.0 ≤ length tokens.old.0 }
{
    let Token { kind, span } = tokens.next()?;
    let read = expression(alloc, tokens, opened, 0, kind, span)?;
    let span = read.token.span;
    match read.token.kind {
        TokenKind::Mark(Mark::CurlyOpen) => {
            if !has_room(opened, 0) {
                return Err(ParseError::TooDeep(span.from));
            }
            Ok(read.operand.value)
        }
        _ => Err(ParseError::Unexpected(span.from)),
    }
}
