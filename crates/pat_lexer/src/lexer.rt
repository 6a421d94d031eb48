// The lexer: a reader, and the refusal that it has answered.
ghost use Rattle.std.specs.Prelude.{◌≡◌, ◌+◌, ◌<◌, ◌^◌, ℕ, List, [], ◌++◌, length, map, None, Some, Err, IfOk, IfErr, MatchResult};
ghost use Rattle.pat_lexer_spec.specs.Divisions.{Divides};
ghost use Rattle.pat_lexer_spec.specs.Held.{IsHeld};
ghost use Rattle.pat_syntax.specs.Views.{token_view};
ghost use Rattle.pat_lexer.specs.Lexed.{HasRead, Holds};
ghost use Rattle.pat_lexer.specs.Explains.{Explains};
ghost use Rattle.pat_lexer.specs.declared.error.LexError.{LexError as Refusal};

use super::error::LexError;
use super::reader::Reader;
use pat_syntax::Token;
use std::alloc::Global;
use std::marker::Model;

/// Divides a text that comes in pieces into tokens, however it is cut.
#[derive(Drop)]
pub struct Lexer {
    reader: Reader,
    refusal: Option<LexError>,
}

impl Model for Lexer {
    ghost use Rattle.pat_lexer.specs.Lexed.{Lexed};
    ghost use Rattle.pat_lexer.specs.Reads.{progress};

    ghost Value = { Lexed };

    ghost view = { λ a. record { progress = progress a.reader; refusal = a.refusal } };
}

impl Lexer {
    /// A lexer that has read nothing. It takes no memory.
    pub fn new(alloc: Global) -> Lexer
        ensures read { HasRead [] result }
        ensures fresh { result.refusal ≡ None }
    {
        Lexer {
            reader: Reader::new(alloc),
            refusal: None,
        }
    }

    /// Reads the next piece of the text. After a refusal each call answers the same.
    pub fn feed(&mut self, piece: &[u8]) -> Result<(), LexError>
        requires { self.old.refusal ≡ None → self.old.progress.position + length piece.now < 2 ^ 32 }
        ensures read { (bytes : List ℕ) → HasRead bytes self.old → HasRead (bytes ++ piece.now) self.new }
        ensures answer { MatchResult result (λ _. self.new.refusal ≡ None) (λ e. self.new.refusal ≡ Some e) }
        // From the first refusal on the lexer stays as it is.
        ensures same { (e : Refusal) → self.old.refusal ≡ Some e → self.new ≡ self.old }
    {
        if let Some(refusal) = self.refusal {
            return Err(refusal);
        }
        let outcome = self.reader.read(piece);
        if let Err(refusal) = outcome {
            self.refusal = Some(refusal);
        }
        outcome
    }

    /// The tokens of the text that ends here, or its refusal.
    pub fn finish(self) -> Result<Vec<Token>, LexError>
        ensures divided { (bytes : List ℕ) → HasRead bytes self → IfOk result (λ tokens. Divides bytes (map token_view tokens.items)) }
        ensures refused { (bytes : List ℕ) → HasRead bytes self → IfErr result (λ e. Explains bytes e) }
        ensures same { (e : Refusal) → self.refusal ≡ Some e → result ≡ Err e }
    {
        let Lexer { reader, refusal } = self;
        match refusal {
            Some(refusal) => Err(refusal),
            None => reader.finish(),
        }
    }

    /// The bytes held back: those of the unfinished piece, in a comment those of an unfinished
    /// character alone.
    pub fn held(&self) -> &[u8]
        ensures held { result.now ≡ self.now.progress.held }
        ensures known { (bytes : List ℕ) → HasRead bytes self.now → self.now.refusal ≡ None → Holds bytes self.now.progress }
        // They are the end of the bytes fed that whole pieces lead to, and of which nothing is known to be whole.
        ensures end { (bytes : List ℕ) → HasRead bytes self.now → self.now.refusal ≡ None
            → IsHeld bytes self.now.progress.whole result.now }
    {
        self.reader.held.as_slice()
    }
}
