// A text through the lexer in pieces of one size: the tokens and the refusal don't depend on the size.
ghost use Rattle.std.specs.Prelude.{◌≡◌, ◌<◌, ◌^◌, ℕ, List, length, map, IfOk, IfErr};
ghost use Rattle.pat_lexer_spec.specs.Divisions.{Divides};
ghost use Rattle.pat_syntax.specs.Views.{token_view};
ghost use Rattle.pat_lexer.specs.Lexed.{HasRead};
ghost use Rattle.pat_lexer.specs.Explains.{Explains};

#[cfg(test)]
pub mod tests;

use pat_lexer::{LexError, Lexer};
use pat_syntax::Token;
use std::alloc::Global;

/// A lexer that was fed a text in pieces of `size` bytes, or the text's refusal.
pub fn lexer_behind(alloc: Global, text: &[u8], size: usize) -> Result<Lexer, LexError>
    requires small { length text.now < 2 ^ 32 }
    requires some { 0 < size }
    ensures read { IfOk result (λ lexer. HasRead text.now lexer) }
    ensures refused { IfErr result (λ e. Explains text.now e) }
{
    let mut lexer = Lexer::new(alloc);
    let mut at = 0;
    while at < text.len() {
        let end = at + size.min(text.len() - at);
        lexer.feed(&text[at..end])?;
        at = end;
    }
    Ok(lexer)
}

/// The tokens of a text that is fed in pieces of `size` bytes, or its refusal.
pub fn tokens_of(alloc: Global, text: &[u8], size: usize) -> Result<Vec<Token>, LexError>
    requires small { length text.now < 2 ^ 32 }
    requires some { 0 < size }
    ensures divided { IfOk result (λ tokens. Divides text.now (map token_view tokens.items)) }
    ensures refused { IfErr result (λ e. Explains text.now e) }
{
    let lexer = lexer_behind(alloc, text, size)?;
    lexer.finish()
}
