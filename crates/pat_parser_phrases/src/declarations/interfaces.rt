// Interfaces and their messages.
ghost use Rattle.std.specs.Prelude.{◌≡◌, ◌≤◌, ◌++◌, ◌∷◌, [], List, map, length, false};
ghost use Rattle.pat_parser_spec.specs.Machine as m;
ghost use Rattle.pat_parser_spec.specs.Trees as trees;
ghost use Rattle.pat_tree.specs.Views.{name_view, type_view, message_view, decl_view};
ghost use Rattle.pat_parser_phrases.specs.tokens.Answers.{Parses, answer};

use crate::tokens::{ParseError, Tokens, is_mark};
use crate::types::written_type;
use pat_sequences::Sequence;
use pat_syntax::{Mark, TokenKind};
use pat_tree::{Decl, TreeMessage, TreeType};
use std::alloc::Global;

/// Reads an interface, from behind its word to behind its closing brace.
pub fn interface(alloc: Global, tokens: &mut Tokens) -> Result<Decl, ParseError>
    ensures read { (fs : List m.Frame) → (ds : List trees.Decl)
        → Parses result (answer (m.state (m.WantName (m.InterfaceName ds)) fs 0 0 0) tokens.old)
        (λ d. answer (m.state (m.AtDecl false (ds ++ decl_view d ∷ [])) fs 0 0 0) tokens.new) }
    ensures no_more { length tokens.new.0 ≤ length tokens.old.0 }
{
    let name = tokens.name()?;
    tokens.mark(Mark::CurlyOpen)?;
    let messages = messages(alloc, tokens)?;
    Ok(Decl::Interface { name, messages })
}

/// Reads messages up to the closing brace.
fn messages(alloc: Global, tokens: &mut Tokens) -> Result<Sequence<TreeMessage>, ParseError>
    ensures read { (fs : List m.Frame) → (ds : List trees.Decl) → (x : trees.Name) → Parses result (answer (m.state (m.WantName (m.MessageName (record { decls = ds; name = x; messages = [] }))) fs 1 0 0) tokens.old) (λ ms. answer (m.state (m.AtDecl false (ds ++ trees.InterfaceDecl x (map message_view ms) ∷ [])) fs 0 0 0) tokens.new) }
    ensures no_more { length tokens.new.0 ≤ length tokens.old.0 }
{
    let mut messages = Sequence::new(alloc);
    loop {
        messages.push(message(alloc, tokens)?)?;
        let token = tokens.next()?;
        match token.kind {
            TokenKind::Mark(Mark::Comma) => {}
            TokenKind::Mark(Mark::CurlyClose) => return Ok(messages),
            _ => return Err(ParseError::Unexpected(token.span.from)),
        }
    }
}

/// Reads a message, with its name and its payloads.
fn message(alloc: Global, tokens: &mut Tokens) -> Result<TreeMessage, ParseError>
    ensures read { (fs : List m.Frame) → (i : m.Interfacing) → Parses result (answer (m.state (m.WantName (m.MessageName i)) fs 1 0 0) tokens.old) (λ x. answer (m.state (m.AfterMessage (m.with_message i (name_view x.name) (map type_view x.payloads))) fs 1 0 0) tokens.new) }
    ensures no_more { length tokens.new.0 ≤ length tokens.old.0 }
{
    let name = tokens.name()?;
    tokens.mark(Mark::RoundOpen)?;
    let payloads = payloads(alloc, tokens)?;
    Ok(TreeMessage { name, payloads })
}

/// Reads payloads up to the closing bracket.
fn payloads(alloc: Global, tokens: &mut Tokens) -> Result<Sequence<TreeType>, ParseError>
    ensures read { (fs : List m.Frame) → (i : m.Interfacing) → (x : trees.Name) → Parses result (answer (m.state m.FirstPayload (m.AtType (m.InMessage i x []) ∷ fs) 2 0 0) tokens.old) (λ ps. answer (m.state (m.AfterMessage (m.with_message i x (map type_view ps))) fs 1 0 0) tokens.new) }
    ensures no_more { length tokens.new.0 ≤ length tokens.old.0 }
{
    let mut payloads = Sequence::new(alloc);
    let mut next = tokens.next()?;
    if is_mark(&next.kind, Mark::RoundClose) {
        return Ok(payloads);
    }
    loop {
        let read = written_type(alloc, tokens, true, 2, next.kind, next.span)?;
        payloads.push(read.of)?;
        match read.token.kind {
            TokenKind::Mark(Mark::Comma) => next = tokens.next()?,
            TokenKind::Mark(Mark::RoundClose) => return Ok(payloads),
            _ => return Err(ParseError::Unexpected(read.token.span.from)),
        }
    }
}
