// The reserved words and marks by their bytes.
ghost use Rattle.std.specs.Prelude.{◌≡◌, ◌≢◌, ◌⊎◌, ℕ, List, [], ◌∷◌, IfSome, IfNone, IfOk};
ghost use Rattle.pat_lexer_spec.specs.Words.{Reserved as Word, word_bytes};
ghost use Rattle.pat_lexer_spec.specs.Marks.{Mark as MarkKind, mark_bytes};
ghost use Rattle.pat_lexer_spec.specs.Lexemes.{NoLonger};
ghost use Rattle.pat_syntax.specs.Views.{word_view, mark_view, kind_view};
ghost use Rattle.pat_lexer.specs.fronts.Spelled.{IsNameToken};

use pat_sequences::Text;
use pat_syntax::{Mark, Reserved, TokenKind};
use std::alloc::{AllocError, Global};

/// The word that the bytes are.
#[inline(always)]
pub fn word_of(bytes: &[u8]) -> Option<Reserved>
    ensures found { IfSome result (λ w. bytes.now ≡ word_bytes (word_view w)) }
    ensures none { IfNone result ((w : Word) → bytes.now ≢ word_bytes w) }
{
    match bytes {
        b"interface" => Some(Reserved::Interface),
        b"def" => Some(Reserved::Def),
        b"let" => Some(Reserved::Let),
        b"in" => Some(Reserved::In),
        b"if" => Some(Reserved::If),
        b"else" => Some(Reserved::Else),
        b"print" => Some(Reserved::Print),
        b"new" => Some(Reserved::New),
        b"spawn" => Some(Reserved::Spawn),
        b"guard" => Some(Reserved::Guard),
        b"free" => Some(Reserved::Free),
        b"fail" => Some(Reserved::Fail),
        b"receive" => Some(Reserved::Receive),
        b"from" => Some(Reserved::From),
        b"true" => Some(Reserved::True),
        b"false" => Some(Reserved::False),
        b"Unit" => Some(Reserved::Unit),
        b"Bool" => Some(Reserved::Bool),
        b"Int" => Some(Reserved::Int),
        b"String" => Some(Reserved::String),
        _ => None,
    }
}

/// The token that the bytes of a name, or a word, are.
#[inline(always)]
pub fn name_token(alloc: Global, bytes: &[u8]) -> Result<TokenKind, AllocError>
    ensures { IfOk result (λ t. IsNameToken bytes.now (kind_view t)) }
{
    match word_of(bytes) {
        Some(word) => Ok(TokenKind::Word(word)),
        None => {
            let text = Text::from_slice(alloc, bytes)?;
            Ok(TokenKind::Name(text))
        }
    }
}

/// The mark of one byte that no other byte makes longer.
pub fn mark_of(byte: u8) -> Option<Mark>
    ensures found { IfSome result (λ m. mark_bytes (mark_view m) ≡ byte ∷ []) }
    ensures alone { IfSome result (λ m. (rest : List ℕ) → NoLonger (mark_view m) rest) }
    ensures none { IfNone result ((m : MarkKind) (more : List ℕ) → mark_bytes m ≡ byte ∷ more → (byte ≡ 61) ⊎ (byte ≡ 45)) }
{
    match byte {
        b'(' => Some(Mark::RoundOpen),
        b')' => Some(Mark::RoundClose),
        b'{' => Some(Mark::CurlyOpen),
        b'}' => Some(Mark::CurlyClose),
        b'[' => Some(Mark::SquareOpen),
        b']' => Some(Mark::SquareClose),
        b',' => Some(Mark::Comma),
        b';' => Some(Mark::Semicolon),
        b':' => Some(Mark::Colon),
        b'.' => Some(Mark::Dot),
        b'+' => Some(Mark::Plus),
        b'*' => Some(Mark::Star),
        b'<' => Some(Mark::Less),
        b'!' => Some(Mark::Bang),
        b'?' => Some(Mark::Question),
        _ => None,
    }
}
