// The tokens that are still to be read.
ghost use Rattle.std.specs.Prelude.{◌≡◌, ◌↔◌, ℕ, ◌<◌, ◌≤◌, List, [], ◌∷◌, length, Some, None, IfOk, IfSome, IfNone, IsTrue};
ghost use Rattle.pat_lexer_spec.specs.Tokens as kinds;
ghost use Rattle.pat_parser_spec.specs.Trees as trees;
ghost use Rattle.pat_parser_spec.specs.Machine as m;
ghost use Rattle.pat_syntax.specs.Views.{kind_view, mark_view};
ghost use Rattle.pat_tree.specs.Views.{name_view, span_view};
ghost use Rattle.pat_parser_phrases.specs.tokens.Answers.{answer, after, moved, OnlyMark, Parses, Takes};
ghost use Rattle.pat_limits.specs.Limits.{most_open};

use crate::tokens::fault::{ParseError, has_room};
use pat_syntax::{Mark, Span, Token, TokenKind};
use pat_tree::Name;
use std::marker::Model;

/// Whether a token is the mark.
pub fn is_mark(kind: &TokenKind, mark: Mark) -> bool
    ensures { IsTrue result ↔ kind_view kind.now ≡ kinds.Mark (mark_view mark) }
{
    match kind {
        TokenKind::Mark(found) => *found == mark,
        _ => false,
    }
}

/// The tokens that are still to be read, and where the text ends.
#[derive(Drop)]
pub struct Tokens {
    /// The next one last.
    rest: Vec<Token>,
    end: u32,
}

impl Model for Tokens {
    ghost use Rattle.std.specs.Prelude.{List, ℕ, reverse};
    ghost use Rattle.pat_syntax.specs.declared.token.Token.{Token};

    ghost Value = { List Token × ℕ };

    ghost view = { λ s. (reverse s.rest.items, s.end) };
}

impl Tokens {
    /// The tokens of a text that ends at the offset `end`.
    pub fn new(tokens: Vec<Token>, end: u32) -> Tokens
        ensures { result ≡ (tokens.items, end) }
    {
        let mut rest = tokens;
        rest.reverse();
        Tokens { rest, end }
    }

    /// Where the text ends.
    pub fn end(&self) -> u32
        ensures { result ≡ self.now.1 }
    {
        self.end
    }

    /// Takes the next token, if there is one.
    pub fn pop(&mut self) -> Option<Token>
        ensures some { IfSome result (λ x. self.old ≡ (x ∷ self.new.0, self.new.1)) }
        ensures none { IfNone result ((self.old.0 ≡ []) × (self.new ≡ self.old)) }
    {
        self.rest.pop()
    }

    /// Takes the next token, where the text may not end.
    pub fn next(&mut self) -> Result<Token, ParseError>
        // In each state of the machine in which the tokens may not end, its answer is the one behind the token.
        ensures taken { (x : m.State) → m.finish x ≡ None → Takes x self.old self.new result }
        ensures fewer { IfOk result (λ t. length self.new.0 < length self.old.0) }
        ensures no_more { length self.new.0 ≤ length self.old.0 }
    {
        match self.pop() {
            Some(token) => Ok(token),
            None => Err(ParseError::Unexpected(self.end)),
        }
    }

    /// Takes the next token, where it has to be a name.
    pub fn name(&mut self) -> Result<Name, ParseError>
        ensures named { (what : m.Naming) → (fs : List m.Frame) → (o s : ℕ)
            → Parses result (answer (m.state (m.WantName what) fs o 0 s) self.old)
            (λ x. answer (m.state (m.GotName what (name_view x)) fs o 0 s) self.new) }
        ensures fewer { IfOk result (λ x. length self.new.0 < length self.old.0) }
        ensures no_more { length self.new.0 ≤ length self.old.0 }
    {
        let Token { kind, span } = self.next()?;
        match kind {
            TokenKind::Name(text) => Ok(Name { text, span }),
            _ => Err(ParseError::Unexpected(span.from)),
        }
    }

    /// Takes the next token, where it has to be this mark: the mark's place.
    pub fn mark(&mut self, mark: Mark) -> Result<Span, ParseError>
        ensures taken { (x : m.State) → OnlyMark x (mark_view mark)
            → Parses result (answer x self.old) (λ w. after (moved x (kinds.Mark (mark_view mark)) (span_view w)) w.from self.new) }
        ensures no_more { length self.new.0 ≤ length self.old.0 }
    {
        let Token { kind, span } = self.next()?;
        if is_mark(&kind, mark) {
            Ok(span)
        } else {
            Err(ParseError::Unexpected(span.from))
        }
    }

    /// Takes the next token, where it has to be this mark, which opens a bracket where so many are open.
    pub fn open(&mut self, mark: Mark, opened: u16) -> Result<(), ParseError>
        ensures opened { (x y : m.State) → OnlyMark x (mark_view mark)
            → ((w : trees.Span) → moved x (kinds.Mark (mark_view mark)) w ≡ m.Opens opened 0 y)
            → Parses result (answer x self.old) (λ u. answer y self.new) }
        ensures room { IfOk result (λ u. opened < most_open) }
        ensures no_more { length self.new.0 ≤ length self.old.0 }
    {
        let place = self.mark(mark)?;
        if has_room(opened, 0) {
            Ok(())
        } else {
            Err(ParseError::TooDeep(place.from))
        }
    }
}
