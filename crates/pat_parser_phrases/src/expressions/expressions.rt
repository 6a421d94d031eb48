// Expressions.
ghost use Rattle.std.specs.Prelude.{◌≡◌, ◌∷◌, ◌+◌, ◌<◌, ◌≤◌, ℕ, suc, List, length, option_map, IfOk};
ghost use Rattle.pat_parser_spec.specs.Trees as trees;
ghost use Rattle.pat_parser_spec.specs.Machine as m;
ghost use Rattle.pat_syntax.specs.Views.{kind_view};
ghost use Rattle.pat_primitives.specs.Views.{op_view};
ghost use Rattle.pat_tree.specs.Views.{span_view, name_view, expr_at};
ghost use Rattle.pat_parser_phrases.specs.tokens.Answers.{Rest, Parses, answer, after};
ghost use Rattle.pat_parser_phrases.specs.expressions.Views.{operand_view, pending_view};
ghost use Rattle.pat_parser_phrases.specs.expressions.Operators.{operator_of, operator_step};
ghost use Rattle.pat_parser_phrases.specs.expressions.Reads.{behind_operand, behind_expression};
ghost use Rattle.pat_limits.specs.Limits.{most_open};

use crate::expressions::operands::{Operand, Pending, nothing, whole, with_operator};
use crate::tokens::{ParseError, Tokens, has_room, is_mark};
use pat_primitives::Op;
use pat_syntax::{Mark, Reserved, Span, Token, TokenKind};
use pat_tree::{ExprForm, Name, TreeExpr};
use std::alloc::Global;

/// An operand or an expression whose text ends at the offset `to`, how many operators are open behind it, and the token
/// behind it.
#[derive(Drop)]
pub struct ExpressionRead {
    pub operand: Operand,
    pub to: u32,
    pub operators: u16,
    pub token: Token,
}

/// The operator that a token is.
fn operator(kind: &TokenKind) -> Option<Op>
    ensures { option_map op_view result ≡ operator_of (kind_view kind.now) }
{
    match kind {
        TokenKind::Mark(Mark::Star) => Some(Op::Mul),
        TokenKind::Mark(Mark::Plus) => Some(Op::Add),
        TokenKind::Mark(Mark::Minus) => Some(Op::Sub),
        TokenKind::Mark(Mark::DoubleEquals) => Some(Op::Equal),
        TokenKind::Mark(Mark::Less) => Some(Op::Less),
        _ => None,
    }
}

/// An operand, with the token behind it.
fn operand_read(
    tokens: &mut Tokens,
    operators: u16,
    operand: Operand,
    to: u32,
) -> Result<ExpressionRead, ParseError>
    ensures reads { (fs : List m.Frame) (o s : ℕ) (p : m.Pending) → Parses result (answer (m.state (m.Have p (operand_view operand) to) fs o operators s) tokens.old) (λ x. behind_operand fs o s p x tokens.new) }
    ensures no_more { length tokens.new.0 ≤ length tokens.old.0 }
{
    let token = tokens.next()?;
    Ok(ExpressionRead {
        operand,
        to,
        operators,
        token,
    })
}

/// An operand without brackets round it, with the token behind it.
fn leaf(
    tokens: &mut Tokens,
    operators: u16,
    form: ExprForm,
    span: Span,
) -> Result<ExpressionRead, ParseError>
    ensures reads { (fs : List m.Frame) (o s : ℕ) (p : m.Pending) → Parses result (answer (m.state (m.Have p (expr_at form (span_view span), span.from) span.to) fs o operators s) tokens.old) (λ x. behind_operand fs o s p x tokens.new) }
    ensures no_more { length tokens.new.0 ≤ length tokens.old.0 }
{
    let from = span.from;
    let value = TreeExpr { form, span };
    operand_read(tokens, operators, Operand { value, from }, span.to)
}

/// The end of a bracket.
fn bracket_end(
    tokens: &mut Tokens,
    inner: ExpressionRead,
    from: u32,
) -> Result<ExpressionRead, ParseError>
    ensures reads { (fs : List m.Frame) (o s : ℕ) (p : m.Pending) → Parses result (behind_expression (m.AtExpr (m.InBracket p from o) ∷ fs) (suc o) s inner tokens.old) (λ x. behind_operand fs o s p x tokens.new) }
    ensures no_more { length tokens.new.0 ≤ length tokens.old.0 }
{
    let span = inner.token.span;
    match inner.token.kind {
        TokenKind::Mark(Mark::RoundClose) => {
            let operand = Operand {
                value: inner.operand.value,
                from,
            };
            operand_read(tokens, inner.operators, operand, span.to)
        }
        _ => Err(ParseError::Unexpected(span.from)),
    }
}

/// A bracket, from behind its opening mark, which stands at `from`.
#[cycle(expression)]
fn bracket(
    alloc: Global,
    tokens: &mut Tokens,
    opened: u16,
    operators: u16,
    from: u32,
) -> Result<ExpressionRead, ParseError>
    ensures reads { (fs : List m.Frame) (s : ℕ) (p : m.Pending) → Parses result (after (m.Opens opened operators (m.state m.Opened (m.AtExpr (m.InBracket p from opened) ∷ fs) (suc opened) operators s)) from tokens.old) (λ x. behind_operand fs opened s p x tokens.new) }
    ensures no_more { length tokens.new.0 ≤ length tokens.old.0 }
{
    if !has_room(opened, operators) {
        return Err(ParseError::TooDeep(from));
    }
    let Token { kind, span } = tokens.next()?;
    if is_mark(&kind, Mark::RoundClose) {
        let to = span.to;
        return leaf(tokens, operators, ExprForm::Unit, Span { from, to });
    }
    let inner = expression(alloc, tokens, opened + 1, operators, kind, span)?;
    bracket_end(tokens, inner, from)
}

/// An operand, with the token behind it.
#[cycle(expression)]
fn operand(
    alloc: Global,
    tokens: &mut Tokens,
    opened: u16,
    operators: u16,
    kind: TokenKind,
    span: Span,
) -> Result<ExpressionRead, ParseError>
    ensures reads { (fs : List m.Frame) (s : ℕ) (p : m.Pending) → Parses result (after (m.want_step fs opened operators s p (kind_view kind) (span_view span)) span.from tokens.old) (λ x. behind_operand fs opened s p x tokens.new) }
    ensures no_more { length tokens.new.0 ≤ length tokens.old.0 }
{
    match kind {
        TokenKind::Name(text) => leaf(tokens, operators, ExprForm::Var(text), span),
        TokenKind::Integer(value) => leaf(tokens, operators, ExprForm::Int(value), span),
        TokenKind::Str(text) => leaf(tokens, operators, ExprForm::Str(text), span),
        TokenKind::Word(Reserved::True) => leaf(tokens, operators, ExprForm::Bool(true), span),
        TokenKind::Word(Reserved::False) => leaf(tokens, operators, ExprForm::Bool(false), span),
        TokenKind::Mark(Mark::RoundOpen) => bracket(alloc, tokens, opened, operators, span.from),
        _ => Err(ParseError::Unexpected(span.from)),
    }
}

/// What stands before the next operand, where the operator behind the last one may stand.
fn open_operator(
    alloc: Global,
    opened: u16,
    pending: Pending,
    op: Op,
    last: ExpressionRead,
) -> Result<Pending, ParseError>
    ensures opens { (fs : List m.Frame) (s : ℕ) (ts : Rest) → Parses result (after (operator_step fs opened last.operators s (pending_view pending) (operand_view last.operand) last.to (op_view op)) last.token.span.from ts) (λ p. answer (m.state (m.Want (pending_view p)) fs opened (suc last.operators) s) ts) }
    ensures room { IfOk result (λ _. opened + last.operators < most_open) }
{
    let at = last.token.span.from;
    if matches!(op, Op::Equal | Op::Less) && pending.compared.is_some() {
        return Err(ParseError::Unexpected(at));
    }
    if !has_room(opened, last.operators) {
        return Err(ParseError::TooDeep(at));
    }
    Ok(with_operator(alloc, pending, op, last.operand, last.to)?)
}

/// The expression that begins with an operand, with the token behind it.
#[cycle(expression)]
fn operations(
    alloc: Global,
    tokens: &mut Tokens,
    opened: u16,
    first: ExpressionRead,
) -> Result<ExpressionRead, ParseError>
    ensures reads { (fs : List m.Frame) (s : ℕ) → Parses result (behind_operand fs opened s m.nothing first tokens.old) (λ x. behind_expression fs opened s x tokens.new) }
    ensures no_more { length tokens.new.0 ≤ length tokens.old.0 }
{
    let mut pending = nothing();
    let mut last = first;
    while let Some(op) = operator(&last.token.kind) {
        let operators = last.operators;
        pending = open_operator(alloc, opened, pending, op, last)?;
        let Token { kind, span } = tokens.next()?;
        last = operand(alloc, tokens, opened, operators + 1, kind, span)?;
    }
    let operand = whole(alloc, pending, last.operand, last.to)?;
    Ok(ExpressionRead {
        operand,
        to: last.to,
        operators: last.operators,
        token: last.token,
    })
}

/// An expression that begins with this token, with the token behind it.
#[cycle(expression)]
pub fn expression(
    alloc: Global,
    tokens: &mut Tokens,
    opened: u16,
    operators: u16,
    kind: TokenKind,
    span: Span,
) -> Result<ExpressionRead, ParseError>
    ensures reads { (fs : List m.Frame) (s : ℕ)
        → Parses result (after (m.want_step fs opened operators s m.nothing (kind_view kind) (span_view span)) span.from tokens.old)
        (λ x. behind_expression fs opened s x tokens.new) }
    ensures no_more { length tokens.new.0 ≤ length tokens.old.0 }
{
    let first = operand(alloc, tokens, opened, operators, kind, span)?;
    operations(alloc, tokens, opened, first)
}

/// An expression that begins with a name, from the token behind the name, with the token behind it.
pub fn expression_named(
    alloc: Global,
    tokens: &mut Tokens,
    opened: u16,
    name: Name,
    token: Token,
) -> Result<ExpressionRead, ParseError>
    ensures reads { (fs : List m.Frame) (s : ℕ)
        → Parses result
        (after
        (m.have_step fs opened 0 s m.nothing (trees.VarExpr name.text (span_view name.span), name.span.from) name.span.to
        (kind_view token.kind) (span_view token.span)) token.span.from tokens.old)
        (λ x. behind_expression fs opened s x tokens.new) }
    ensures no_more { length tokens.new.0 ≤ length tokens.old.0 }
{
    let Name { text, span } = name;
    let value = TreeExpr {
        form: ExprForm::Var(text),
        span,
    };
    let first = ExpressionRead {
        operand: Operand {
            value,
            from: span.from,
        },
        to: span.to,
        operators: 0,
        token,
    };
    operations(alloc, tokens, opened, first)
}
