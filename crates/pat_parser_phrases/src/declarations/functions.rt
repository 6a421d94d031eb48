// The heads of functions.
ghost use Rattle.std.specs.Prelude.{◌≡◌, ◌≤◌, ◌∷◌, [], List, map, length, true, false};
ghost use Rattle.pat_parser_spec.specs.Machine as m;
ghost use Rattle.pat_parser_spec.specs.Trees as trees;
ghost use Rattle.pat_syntax.specs.Views.{kind_view};
ghost use Rattle.pat_lexer_spec.specs.Marks as marks;
ghost use Rattle.pat_lexer_spec.specs.Tokens as kinds;
ghost use Rattle.pat_tree.specs.Views.{span_view, name_view, type_view, param_view};
ghost use Rattle.pat_parser_phrases.specs.tokens.Answers.{OnlyMark, Parses, answer, after, moved};
ghost use Rattle.pat_parser_phrases.specs.types.Ends.{behind_type};
ghost use Rattle.pat_parser_phrases.specs.declarations.Steps.{behind_param};

use crate::tokens::{ParseError, Tokens, is_mark};
use crate::types::{TypeRead, written_type};
use pat_sequences::Sequence;
use pat_syntax::{Mark, Token, TokenKind};
use pat_tree::{Name, Param, TreeType};
use std::alloc::Global;

/// What stands before the body of a function.
#[derive(Drop)]
pub struct FunctionSignature {
    pub name: Name,
    pub params: Sequence<Param>,
    pub result: TreeType,
}

/// A parameter, and the token behind it.
#[derive(Drop)]
struct ParamRead {
    param: Param,
    token: Token,
}

/// Reads a signature, from behind the word of a function to behind the opening brace of its body.
pub fn signature(alloc: Global, tokens: &mut Tokens) -> Result<FunctionSignature, ParseError>
    ensures read { (fs : List m.Frame) → (ds : List trees.Decl)
        → Parses result (answer (m.state (m.WantName (m.FunctionName ds)) fs 0 0 0) tokens.old)
        (λ f. answer
        (m.state (m.Start true)
        (m.AtBlock (m.InDef (record { decls = ds; name = name_view f.name; params = map param_view f.params })
        (type_view f.result)) ∷ fs) 1 0 0) tokens.new) }
    ensures no_more { length tokens.new.0 ≤ length tokens.old.0 }
{
    let name = tokens.name()?;
    tokens.mark(Mark::RoundOpen)?;
    let params = params(alloc, tokens)?;
    let result = result_type(alloc, tokens)?;
    Ok(FunctionSignature {
        name,
        params,
        result,
    })
}

/// Reads the type of the result, from its colon to the opening brace of the body.
fn result_type(alloc: Global, tokens: &mut Tokens) -> Result<TreeType, ParseError>
    ensures read { (fs : List m.Frame) → (f : m.Defining) → Parses result (answer (m.state (m.AfterParams f) fs 0 0 0) tokens.old) (λ a. answer (m.state (m.Start true) (m.AtBlock (m.InDef f (type_view a)) ∷ fs) 1 0 0) tokens.new) }
    ensures no_more { length tokens.new.0 ≤ length tokens.old.0 }
{
    let read = annotation(alloc, tokens, 0)?;
    match read.token.kind {
        TokenKind::Mark(Mark::CurlyOpen) => Ok(read.of),
        _ => Err(ParseError::Unexpected(read.token.span.from)),
    }
}

/// Reads parameters up to the closing bracket.
fn params(alloc: Global, tokens: &mut Tokens) -> Result<Sequence<Param>, ParseError>
    ensures read { (fs : List m.Frame) → (ds : List trees.Decl) → (x : trees.Name) → Parses result (answer (m.state (m.FirstParam (record { decls = ds; name = x; params = [] })) fs 1 0 0) tokens.old) (λ ps. answer (m.state (m.AfterParams (record { decls = ds; name = x; params = map param_view ps })) fs 0 0 0) tokens.new) }
    ensures no_more { length tokens.new.0 ≤ length tokens.old.0 }
{
    let mut params = Sequence::new(alloc);
    let mut next = tokens.next()?;
    if is_mark(&next.kind, Mark::RoundClose) {
        return Ok(params);
    }
    loop {
        let read = param(alloc, tokens, next)?;
        params.push(read.param)?;
        match read.token.kind {
            TokenKind::Mark(Mark::Comma) => next = tokens.next()?,
            TokenKind::Mark(Mark::RoundClose) => return Ok(params),
            _ => return Err(ParseError::Unexpected(read.token.span.from)),
        }
    }
}

/// Reads a parameter, whose first token is at hand.
fn param(alloc: Global, tokens: &mut Tokens, first: Token) -> Result<ParamRead, ParseError>
    ensures read { (fs : List m.Frame) → (d : m.Defining) → Parses result (after (m.want_name fs 1 0 (m.ParamName d) (kind_view first.kind) (span_view first.span)) first.span.from tokens.old) (λ p. behind_param fs d p tokens.new) }
    ensures no_more { length tokens.new.0 ≤ length tokens.old.0 }
{
    let Token { kind, span } = first;
    match kind {
        TokenKind::Name(text) => {
            let name = Name { text, span };
            let read = annotation(alloc, tokens, 1)?;
            let param = Param { name, of: read.of };
            Ok(ParamRead {
                param,
                token: read.token,
            })
        }
        _ => Err(ParseError::Unexpected(span.from)),
    }
}

/// Takes a colon, and the type behind it, which isn't a payload's.
fn annotation(alloc: Global, tokens: &mut Tokens, opened: u16) -> Result<TypeRead, ParseError>
    ensures read { (x : m.State) → (fs : List m.Frame) → OnlyMark x marks.Colon → ((w : trees.Span) → moved x (kinds.Mark marks.Colon) w ≡ m.Goes (m.state m.WantType fs opened 0 0)) → m.is_payload fs ≡ false → Parses result (answer x tokens.old) (λ a. behind_type fs opened a tokens.new) }
    ensures no_more { length tokens.new.0 ≤ length tokens.old.0 }
{
    tokens.mark(Mark::Colon)?;
    let first = tokens.next()?;
    written_type(alloc, tokens, false, opened, first.kind, first.span)
}
